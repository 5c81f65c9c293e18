//! Which instances have a record waiting.
ghost use Rattle.std.specs.Prelude.{◌≡◌, ◌+◌, ◌^◌, ◌<◌, ◌≤◌, ◌++◌, ◌∷◌, [], ℕ, List, length, take, drop};
ghost use Rattle.instance_table.specs.Opened.{ready_rows, written_over};
ghost use Rattle.instance_table.specs.Ready.{ready_in};

use crate::instances::Instances;
use crate::opened::Opened;

impl Instances {
    /// Writes the numbers of the open instances that have a record waiting over the front of `out`, rising, as many as
    /// it holds. It answers how many there are. It looks at each open instance, and takes no memory.
    pub fn ready(&self, out: &mut [u32]) -> usize
        ensures count { result ≡ length (ready_in self.now) }
        ensures ids { out.new ≡ take (length out.old) (ready_in self.now) ++ drop (length (ready_in self.now)) out.old }
    {
        ready_rows(self.opened.as_slice(), out)
    }
}

/// Writes the numbers of those that have a record waiting over the front of `out`, as many as it holds, and answers how
/// many there are.
fn ready_rows(rows: &[Opened], out: &mut [u32]) -> usize
    ensures count { result ≡ length (ready_rows rows.now) }
    ensures ids { out.new ≡ written_over (ready_rows rows.now) out.old }
{
    let mut count = 0;
    for row in rows {
        count = put_row(row, out, count);
    }
    count
}

/// Writes the number of an instance that has a record waiting behind `count` others, and answers how many they are
/// then.
fn put_row(row: &Opened, out: &mut [u32], count: usize) -> usize
    requires { count + 1 < 2 ^ 64 }
    ensures count { result ≡ count + length (ready_rows (row.now ∷ [])) }
    ensures within { result ≤ count + 1 }
    ensures ids { (front old : List ℕ) → count ≡ length front → out.old ≡ written_over front old
        → out.new ≡ written_over (front ++ ready_rows (row.now ∷ [])) old }
{
    if row.instance.queue.is_empty() {
        return count;
    }
    put_id(out, count, row.id);
    count + 1
}

/// Writes a number behind `count` others, where `out` holds one more.
fn put_id(out: &mut [u32], count: usize, id: u32)
    ensures { (front old : List ℕ) → count ≡ length front → out.old ≡ written_over front old
        → out.new ≡ written_over (front ++ id ∷ []) old }
{
    if count >= out.len() {
        return;
    }
    out[count] = id;
}
