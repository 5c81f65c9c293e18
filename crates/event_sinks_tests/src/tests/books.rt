//! Books that are settled, and books that are not.

ghost use Rattle.std.specs.Prelude.{◌≡◌, ◌≤◌, true};
ghost use Rattle.event_sinks.specs.Listeners.{IsSoundListener, state_of_listener};

use super::listeners::{EACH, Known, known};
use super::stories::{Left, call_of, makes, plays_out, watches};
use super::*;
use shared_tree::{Book, Feed, Held, KeptCalls, Pass, Seat, SeatLog, Tree};
use std::marker::Brand;
use std::sync::ledger::{Blank, Ledger};
use std::sync::{Mutex, Wait};
use std::thread;
use std::thread::Threads;
use tree_core::Reply;
use tree_paths::Limits;

/// What `settle` answers: how many entries the book has, or its fault.
type Answer = Result<u64, SettleFault>;

/// Settles a book, and compares the answer.
fn settles_to<S: Drop>(
    rt: &impl Abort,
    alloc: Global,
    book: Book,
    logs: Vec<SeatLog>,
    ends: Vec<Ended<S>>,
    answer: Answer,
) {
    let wanted = match answer {
        Ok(entries) => Ok(Settled {
            entries,
            calls: entries,
        }),
        Err(fault) => Err(fault),
    };
    equal(rt, settle(alloc, book, logs, ends), wanted);
}

/// The listeners at these feeds, after at most `turns` turns each.
pub(super) fn listened(
    rt: &impl Abort,
    alloc: Global,
    feeds: Vec<Feed>,
    turns: u64,
) -> Vec<Ended<MemorySink>> {
    let mut ends = Vec::new(alloc);
    for feed in feeds {
        let listener = Listening::new(alloc, 7, feed, MemorySink::new(alloc));
        ends.push(listener.run(&EACH, turns)).expect(rt, "memory");
    }
    ends
}

/// The values whose indexes are these digits, in this order.
fn chosen<T: Drop>(rt: &impl Abort, alloc: Global, values: Vec<T>, digits: &str) -> Vec<T> {
    let mut rest = Vec::new(alloc);
    for value in values {
        rest.push(Some(value)).expect(rt, "memory");
    }
    let mut chosen = Vec::new(alloc);
    for digit in digits.as_bytes() {
        if let Some(value) = rest.get_mut(usize::from(digit.wrapping_sub(b'0'))) {
            chosen.extend(value.take()).expect(rt, "memory");
        }
    }
    chosen
}

/// How the last log is changed before a book is settled: its first two calls are exchanged, or the call at this index
/// gets this sequence number.
#[derive(Clone, Copy)]
enum Change {
    No,
    Exchanged,
    Numbered(usize, u64),
}

/// A log with this change.
fn changed(log: SeatLog, change: Change) -> SeatLog {
    let SeatLog { number, kept } = log;
    let mut kept = kept.into_vec();
    match change {
        Change::No => {}
        Change::Exchanged => {
            if kept.len() > 1 {
                kept.swap(0, 1);
            }
        }
        Change::Numbered(index, place) => {
            if let Some(call) = kept.get_mut(index) {
                call.place = place;
            }
        }
    }
    let kept = KeptCalls::from_vec(kept);
    SeatLog { number, kept }
}

/// Two stories, of which the first leaves a book; the logs that it is settled with, and how the last one is changed;
/// the listeners, and how many turns each has; and the answer. Digits choose the logs and the listeners among those of
/// both stories, the first story's first.
type Case<'a> = (&'a str, &'a str, &'a str, Change, &'a str, u64, Answer);

/// Settles a book, and compares the answer.
fn settles(
    rt: &impl Abort,
    alloc: Global,
    (story, other, numbers, change, heard, turns, answer): &Case<'_>,
) {
    let Left {
        book,
        mut logs,
        mut feeds,
    } = plays_out(rt, alloc, story);
    let others = plays_out(rt, alloc, other);
    logs.extend(others.logs).expect(rt, "memory");
    feeds.extend(others.feeds).expect(rt, "memory");
    let mut logs = chosen(rt, alloc, logs, numbers);
    let last = logs.pop().expect(rt, "a log");
    logs.push(changed(last, *change)).expect(rt, "memory");
    let ends = listened(rt, alloc, feeds, *turns);
    let ends = chosen(rt, alloc, ends, heard);
    settles_to(rt, alloc, book, logs, ends, *answer);
}

/// A log that misses a call.
const MISSED: Answer = Err(SettleFault::CountDiffers {
    entries: 2,
    calls: 1,
});

/// A log of seat 1 that is not the journal's.
const STRAY: Answer = Err(SettleFault::Stray(1));

/// A call of another tree's seat 2.
const ANOTHER: Answer = Err(SettleFault::Stray(2));

/// A listener of instance 1 that has not ended.
const MISSING: Answer = Err(SettleFault::NotEnded(1));

/// A listener of instance 1 that was handed another batch than that of this sequence number.
const DIFFERS: Answer = Err(SettleFault::HandedDiffers {
    instance: 1,
    place: 4,
});

/// A second listener of instance 1.
const TWICE: Answer = Err(SettleFault::HandedDiffers {
    instance: 1,
    place: 0,
});

/// Three pipes, each of which was handed a record and the end batch.
const PIPES: &str = "+++f1!.2!.3!.";

/// A seat's call is stray where it stands under another sequence number than in the journal, before or after a cut. A
/// listener has ended once it was handed the end batch. What it was handed must be what its pipe was sent, also where
/// the journal was cut before or after the pipe was closed.
const CASES: [Case<'static>; 25] = [
    ("a,b", "", "01", Change::No, "", 9, Ok(2)),
    ("a,b", "", "0", Change::No, "", 9, MISSED),
    ("a,b", "a,c", "03", Change::No, "", 9, ANOTHER),
    ("ab", "", "0", Change::No, "", 9, Ok(2)),
    ("ab", "", "0", Change::Exchanged, "", 9, STRAY),
    ("ab|cd", "", "0", Change::Numbered(0, 1), "", 9, Ok(4)),
    ("ab|cd", "", "0", Change::Numbered(0, 0), "", 9, STRAY),
    ("ab|cd", "", "0", Change::Numbered(1, 1), "", 9, STRAY),
    ("ab|cd", "", "0", Change::Numbered(3, 4), "", 9, Ok(4)),
    ("ab|cd", "", "0", Change::Numbered(3, 5), "", 9, STRAY),
    ("+f!.", "", "0", Change::No, "0", 2, Ok(5)),
    ("+f!.", "", "0", Change::No, "", 2, MISSING),
    ("+f!.", "", "0", Change::No, "0", 1, MISSING),
    ("+f!.", "+g!.", "0", Change::No, "1", 2, DIFFERS),
    ("+f!.", "+g!.", "0", Change::No, "01", 2, TWICE),
    ("+f!.", "+.", "0", Change::No, "1", 2, DIFFERS),
    ("+", "", "0", Change::No, "", 2, MISSING),
    ("+f|!.g", "", "0", Change::No, "0", 2, Ok(6)),
    ("+f!.|g", "", "0", Change::No, "0", 2, Ok(6)),
    ("+f!.|g", "", "0", Change::No, "", 2, MISSING),
    (PIPES, "", "0", Change::No, "012", 9, Ok(13)),
    (PIPES, "", "0", Change::No, "201", 9, Ok(13)),
    (PIPES, "", "0", Change::No, "01", 9, NO_THIRD),
    (PIPES, "", "0", Change::No, "20", 9, NO_SECOND),
    (PIPES, "", "0", Change::No, "12", 9, MISSING),
];

/// The listeners of the second and of the third pipe that have not ended.
const NO_SECOND: Answer = Err(SettleFault::NotEnded(2));

const NO_THIRD: Answer = Err(SettleFault::NotEnded(3));

#[test]
fn books_are_settled(rt: HostRuntime) {
    for case in &CASES {
        settles(&rt, rt.alloc(), case);
    }
}

/// A file is made, the root is looked at, the file is removed, and what this raised is pumped, 5,000 times.
#[test]
fn a_large_book_is_settled(rt: HostRuntime) {
    let alloc = rt.alloc();
    let mut story = String::new(alloc);
    story.push('+').expect(&rt, "memory");
    for _ in 0..5_000 {
        story.push_str("f?F!").expect(&rt, "memory");
    }
    story.push('.').expect(&rt, "memory");
    let case = (story.as_str(), "", "0", Change::No, "0", 5_001, Ok(20_003));
    settles(&rt, alloc, &case);
}

/// A step of the listener at a tilde, and what any other byte of a story stands for. Returns whether no pipe was full.
fn takes_turn<L: Ledger, S: Sink>(
    rt: &impl Abort,
    alloc: Global,
    held: &mut Held<L>,
    seat: &mut Seat<L>,
    listener: &mut Listening<S>,
    byte: u8,
) -> bool
    requires { IsSoundListener (state_of_listener S.record_list S.is_open listener.old) }
    ensures { IsSoundListener (state_of_listener S.record_list S.is_open listener.new) }
{
    if byte == b'~' {
        let _ = listener.step();
        return true;
    }
    makes(rt, alloc, held, seat, (1, byte))
}

/// Plays a story on a new tree of one instance, whose listener makes a step at each tilde. Returns what the seat and
/// the listener leave, and how many pumps found the pipe full.
fn interleaved<L: Ledger, S: Sink>(
    rt: &impl Abort,
    alloc: Global,
    blank: Blank,
    slots: usize,
    sink: S,
    story: &[u8],
) -> (Book, SeatLog, Ended<S>, u32)
    requires name { blank.name ≡ L.name }
    requires parts { (blank.parts ≡ L.parts) × (blank.parts ≡ 65537) }
    requires slots { (1 ≤ slots) × (slots ≤ 65536) }
    requires is_open { S.is_open sink ≡ true }
{
    let (mut held, mut pass) = Held::<L>::new(alloc, blank, Limits::full()).expect(rt, "a tree");
    let mut seat = pass.seat().expect(rt, "a seat");
    let feed = watches(rt, alloc, &mut held, &mut seat, 1, 99, slots);
    let mut listener = Listening::new(alloc, 7, feed, sink);
    let mut full = 0u32;
    for byte in story {
        if !takes_turn(rt, alloc, &mut held, &mut seat, &mut listener, *byte) {
            full = full.saturating_add(1);
        }
    }
    let log = pass.join(seat);
    (held.dissolve(pass), log, listener.finish(), full)
}

/// Plays a story so, with a sink that takes `most` records. Compares what is known of the listener, how many pumps
/// found the pipe full, how many records its batches have, and what its book comes to.
fn settles_interleaved(
    rt: &impl Abort,
    alloc: Global,
    slots: usize,
    most: u64,
    story: &[u8],
    wanted: (Known, u32),
    sizes: &[usize],
    answer: Answer,
)
    requires { (1 ≤ slots) × (slots ≤ 65536) }
{
    let blank = Blank::new(65537);
    let sink = CountSink::new(alloc, most);
    let (book, log, end, full) = interleaved::<Brand, CountSink>(
        rt, alloc, blank, slots, sink, story,
    );
    equal(rt, (known(rt, &end), full), wanted);
    for (batch, size) in end.handed().iter().zip(sizes) {
        equal(rt, batch.records.as_slice().len(), *size);
    }
    let logs = vec![in alloc; log].expect(rt, "memory");
    let ends = vec![in alloc; end].expect(rt, "memory");
    settles_to(rt, alloc, book, logs, ends, answer);
}

/// A pump follows each of a hundred files, and the pipe has one slot.
#[test]
fn a_full_pipe_loses_nothing(rt: HostRuntime) {
    let alloc = rt.alloc();
    let mut story = Vec::new(alloc);
    for name in 128..228 {
        story.extend_from_slice(&[name, b'!']).expect(&rt, "memory");
    }
    story.extend_from_slice(b"~!~.~").expect(&rt, "memory");
    let wanted = ((Cause::Last, 3, 100), 99);
    settles_interleaved(&rt, alloc, 1, 999, &story, wanted, &[1, 99, 0], Ok(105));
}

/// The sink takes one record of three. The listener takes no batch after that, so that one of two slots is free, and
/// no second one.
#[test]
fn a_full_sink_is_not_ended(rt: HostRuntime) {
    let wanted = ((Cause::Sink(SinkFault::Full), 1, 1), 1);
    let story = b"fgh!i!~~~j!k!";
    settles_interleaved(&rt, rt.alloc(), 2, 1, story, wanted, &[3], MISSING);
}

/// Makes a file and removes it, fifty times.
fn writes_all<L: Ledger, R: Wait + Abort>(
    rt: &R,
    alloc: Global,
    tree: &Tree<L>,
    seat: Seat<L>,
    name: u8,
) -> Seat<L> {
    let mut seat = seat;
    for number in 0..100 {
        let byte = if number % 2 == 0 { name } else { name ^ 32 };
        let call = call_of(rt, alloc, 1, byte);
        let _ = tree.lock(rt).call(&mut seat, call);
    }
    seat
}

/// The book of a tree on which two threads made calls, with no pump and no gate, and the logs. Its law is called
/// through a guard.
fn written<L: Ledger + Send + Sync, R: Threads + Wait + Abort + Sync>(
    rt: &R,
    alloc: Global,
    blank: Blank,
) -> (Book, Vec<SeatLog>)
    requires name { blank.name ≡ L.name }
    requires parts { (blank.parts ≡ L.parts) × (blank.parts ≡ 65537) }
{
    let (held, mut pass): (Held<L>, Pass<L>) = Held::<L>::new(alloc, blank, Limits::full()).expect(
        rt, "a tree",
    );
    let first = pass.seat().expect(rt, "a seat");
    let second = pass.seat().expect(rt, "a seat");
    let tree: Tree<L> = Mutex::new(held);
    let shared = &tree;
    let (first, second) = thread::join(
        rt,
        move || writes_all(rt, alloc, shared, first, b'a'),
        move || writes_all(rt, alloc, shared, second, b'b'),
    );
    tree.lock(rt).law();
    let logs = vec![in alloc; pass.join(first), pass.join(second)];
    (tree.into_inner().dissolve(pass), logs.expect(rt, "memory"))
}

#[test]
fn two_threads_without_pumps_are_settled(rt: HostRuntime) {
    let alloc = rt.alloc();
    let (book, logs) = written::<Brand, HostRuntime>(&rt, alloc, Blank::new(65537));
    for entry in book.journal() {
        let is_refused = matches!(entry.reply, Reply::Refused(_));
        equal(&rt, is_refused, false);
    }
    let none: Vec<Ended<MemorySink>> = Vec::new(alloc);
    settles_to(&rt, alloc, book, logs, none, Ok(200));
}
