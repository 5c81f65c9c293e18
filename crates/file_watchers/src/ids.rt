//! Numbers of instances, rising.
ghost use Rattle.std.specs.List.Sorted.{IsStrictlySortedBy};
ghost use Rattle.std.specs.Ordering.{nat_cmp};
ghost use Rattle.file_watchers.specs.Ids.{IsIndex};

/// Where a number is among rising ones, or else where it is put in. The last one is looked at first, as numbers mostly
/// come rising.
pub(crate) fn index_of(ids: &[u32], id: u32) -> Result<usize, usize>
    requires { IsStrictlySortedBy nat_cmp ids.now }
    ensures { IsIndex ids.now id result }
{
    match ids.last() {
        Some(last) if id <= *last => ids.binary_search(&id),
        _ => Err(ids.len()),
    }
}
