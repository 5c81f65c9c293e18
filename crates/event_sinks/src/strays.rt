//! Whether what the seats kept is what the journal has.

ghost use Rattle.std.specs.Prelude.{length, min, IfOk, IsTrue, MatchOption, ◌≡◌, ◌↔◌, ◌+◌, ◌^◌, ◌<◌, ◌≤◌};
ghost use Rattle.std.specs.Bool.{OnFalse, OnTrue};
ghost use Rattle.event_sinks.specs.Audited.{calls_of, places, AreKept, IsStray, IsInJournal};
ghost use Rattle.event_sinks.specs.Marked.{marked, AreNext, IsNext};

use shared_tree::{Book, SeatLog};
use std::alloc::{AllocError, Global};
use tree_core::{Entry, Kept};

/// How many calls the seats kept, as far as a `u64` can say.
pub(crate) fn count_calls(logs: &[SeatLog]) -> u64
    ensures { result ≡ min (calls_of logs.now) 18446744073709551615 }
{
    let mut calls: u64 = 0;
    for log in logs {
        calls = calls.saturating_add(log.kept.as_slice().len() as u64);
    }
    calls
}

/// Whether the seats kept this number of calls.
pub(crate) fn are_as_many(entries: u64, logs: &[SeatLog]) -> bool
    ensures { IsTrue result ↔ (entries ≡ calls_of logs.now) }
{
    let mut left = entries;
    for log in logs {
        let count = log.kept.as_slice().len() as u64;
        if count > left {
            return false;
        }
        left -= count;
    }
    left == 0
}

/// Whether the call can be the next one of the seat of this number. There is a mark for each sequence number.
fn is_next(cut: u64, journal: &[Entry], seen: &[bool], number: u32, last: u64, kept: &Kept) -> bool
    requires { length seen.now ≡ cut + length journal.now }
    ensures { IsTrue result ↔ IsNext cut journal.now seen.now number last kept.now }
{
    if kept.place <= last {
        return false;
    }
    let Some(mark) = seen.get((kept.place - 1) as usize) else {
        return false;
    };
    if *mark {
        return false;
    }
    stands(cut, journal, number, kept)
}

/// Whether a call whose sequence number is one of the whole journal is the journal's entry of that number, if it is
/// above the cut's.
fn stands(cut: u64, journal: &[Entry], number: u32, kept: &Kept) -> bool
    requires low { 0 < kept.now.place }
    requires high { kept.now.place ≤ cut + length journal.now }
    ensures { IsTrue result ↔ IsInJournal cut journal.now number kept.now }
{
    if kept.place <= cut {
        return true;
    }
    let Some(entry) = journal.get((kept.place - cut - 1) as usize) else {
        return false;
    };
    if entry.caller != number {
        return false;
    }
    entry.call.is_same(&kept.call) && entry.reply.is_same(&kept.reply)
}

/// Marks the sequence numbers of a seat's calls, if each call can be the next one.
fn is_clean(cut: u64, journal: &[Entry], seen: &mut [bool], log: &SeatLog) -> bool
    requires { length seen.old ≡ cut + length journal.now }
    ensures clean { OnTrue result (AreNext cut journal.now seen.old log.now.number 0 log.now.kept) }
    ensures marks { OnTrue result (seen.new ≡ marked seen.old (places log.now)) }
    ensures stray { OnFalse result (¬ AreNext cut journal.now seen.old log.now.number 0 log.now.kept) }
{
    let mut last = 0;
    for kept in log.kept.as_slice() {
        if !is_next(cut, journal, seen, log.number, last, kept) {
            return false;
        }
        last = kept.place;
        seen[(last - 1) as usize] = true;
    }
    true
}

/// The first seat whose kept calls are not the book's. It takes time in proportion to the sequence numbers and the kept
/// calls. It fails if it is out of memory for the marks, one for each sequence number.
pub(crate) fn first_stray(
    alloc: Global,
    book: &Book,
    logs: &[SeatLog],
) -> Result<Option<u32>, AllocError>
    ensures { IfOk result (λ o. MatchOption o (AreKept book.now.state.place book.now.state.entries logs.now)
        (λ n. IsStray book.now.state.place book.now.state.entries logs.now n)) }
{
    book.law();
    let _last = book.entries();
    stray_of(alloc, book.snapshot().place, book.journal(), logs)
}

/// The same of a cut and the entries since it.
fn stray_of(
    alloc: Global,
    cut: u64,
    journal: &[Entry],
    logs: &[SeatLog],
) -> Result<Option<u32>, AllocError>
    requires { cut + length journal.now < 2 ^ 64 }
    ensures { IfOk result (λ o.
        MatchOption o (AreKept cut journal.now logs.now) (λ n. IsStray cut journal.now logs.now n)) }
{
    let mut seen = vec![in alloc; false; cut as usize + journal.len()]?;
    for log in logs {
        if !is_clean(cut, journal, &mut seen, log) {
            return Ok(Some(log.number));
        }
    }
    Ok(None)
}
