//! Open instances in the order of their numbers.
ghost use Rattle.std.specs.List.Sorted.{IsStrictlySortedBy};
ghost use Rattle.std.specs.Ordering.{nat_cmp};
ghost use Rattle.file_watchers.specs.Ids.{IsIndex};
ghost use Rattle.instance_table.specs.Opened.{ids_of};

use crate::instance::Instance;

// An open instance, and its number.
#[derive(Drop)]
pub(crate) struct Opened {
    pub(crate) id: u32,
    pub(crate) instance: Instance,
}

/// The index of the instance of a number among open ones, or else the index at which to insert it. `first` is
/// tried before any other.
#[inline(always)]
pub(crate) fn index_of(rows: &[Opened], id: u32, first: usize) -> Result<usize, usize>
    requires { IsStrictlySortedBy nat_cmp (ids_of rows.now) }
    ensures { IsIndex (ids_of rows.now) id result }
{
    if let Some(row) = rows.get(first)
        && row.id == id
    {
        return Ok(first);
    }
    find_near(rows, id)
}

/// Where the instance of a number is, or else where it is put in. The index at which it is if no instance between the
/// first one and it was closed is tried first.
fn find_near(rows: &[Opened], id: u32) -> Result<usize, usize>
    requires { IsStrictlySortedBy nat_cmp (ids_of rows.now) }
    ensures { IsIndex (ids_of rows.now) id result }
{
    let index = match rows.first() {
        Some(front) => id.saturating_sub(front.id) as usize,
        None => 0,
    };
    match rows.get(index) {
        Some(near) if near.id == id => Ok(index),
        _ => find_row(rows, id),
    }
}

/// Where the instance of a number is, or else where it is put in. The last one is looked at first, as numbers mostly
/// come rising.
fn find_row(rows: &[Opened], id: u32) -> Result<usize, usize>
    requires { IsStrictlySortedBy nat_cmp (ids_of rows.now) }
    ensures { IsIndex (ids_of rows.now) id result }
{
    match rows.last() {
        Some(last) if id <= last.id => rows.binary_search_by_key(&id, |row| row.id),
        _ => Err(rows.len()),
    }
}
