//! The journal, for callers that make no call: it keeps nothing of these.

ghost use Rattle.std.specs.Prelude.{◌≡◌, ◌+◌};
ghost use Rattle.tree_core.specs.Journal.{entry_at};
ghost use Rattle.watchtree_c.specs.Answers.{count_number};
ghost use Rattle.watchtree_c.specs.Entries.{IsEntryGiven, IsEntryTold, first_place_number, last_place_number};

use crate::answers::{count_number, put, refused_number};
use crate::tree::TreeHandle;
use std::alloc::Global;
use tree_core::State;
use tree_paths::Refusal;
use watchtree_script::append_entry;

/// The sequence number of the first entry of the journal: one more than that of the last call before the last cut. If
/// the journal is empty, it is that of the next call.
///
/// # Errors
/// `EBADF`, where the tree is not open.
#[unsafe(no_mangle)]
pub extern "C" fn wt_first_place(alloc: Global, tree: &mut TreeHandle) -> i64
    ensures number { result ≡ first_place_number tree.old.held.state }
    ensures same { tree.new.held.state ≡ tree.old.held.state }
{
    let Some(opened) = tree.take(alloc) else {
        return refused_number(Refusal::Ebadf);
    };
    let number = first_place(&opened.state);
    *tree = TreeHandle::of(opened);
    number
}

fn first_place(state: &State) -> i64
    ensures { result ≡ count_number (state.now.place + 1) }
{
    let last_cut_off = state.snapshot().place;
    count_number(last_cut_off.saturating_add(1))
}

/// The sequence number of the last call, whether it was cut off or not: 0 where there is none.
///
/// # Errors
/// `EBADF`, where the tree is not open.
#[unsafe(no_mangle)]
pub extern "C" fn wt_last_place(alloc: Global, tree: &mut TreeHandle) -> i64
    ensures number { result ≡ last_place_number tree.old.held.state }
    ensures same { tree.new.held.state ≡ tree.old.held.state }
{
    let Some(opened) = tree.take(alloc) else {
        return refused_number(Refusal::Ebadf);
    };
    let place = opened.state.last_place();
    *tree = TreeHandle::of(opened);
    count_number(place)
}

/// Puts the entry with a sequence number at the front of `out` as text, as much as fits: the line of a script that
/// makes its call, and its reply in lines that begin with `# `. It answers how many bytes the text has.
///
/// # Errors
/// - `EBADF`, where the tree is not open.
/// - `ENOENT`, where no entry since the last cut has the number.
/// - `ENOMEM`
#[unsafe(no_mangle)]
pub extern "C" fn wt_entry(alloc: Global, tree: &mut TreeHandle, place: u64, out: &mut [u8]) -> i64
    ensures given { IsEntryGiven tree.old.held.state place result out.old out.new }
    ensures same { tree.new.held.state ≡ tree.old.held.state }
{
    let Some(opened) = tree.take(alloc) else {
        return refused_number(Refusal::Ebadf);
    };
    let number = put_entry(alloc, &opened.state, place, out);
    *tree = TreeHandle::of(opened);
    number
}

fn put_entry(alloc: Global, state: &State, place: u64, out: &mut [u8]) -> i64
    ensures { IsEntryTold (entry_at state.now place) result out.old out.new }
{
    let Some(entry) = state.entry(place) else {
        return refused_number(Refusal::Enoent);
    };
    let mut text = Vec::new(alloc);
    match append_entry(entry, &mut text) {
        Ok(()) => {
            put(out, text.as_slice());
            count_number(text.len() as u64)
        }
        Err(_) => refused_number(Refusal::Enomem),
    }
}
