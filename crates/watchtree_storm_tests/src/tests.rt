//! Storms: their figures, that the four run at once, and what can go wrong.

ghost use Rattle.std.specs.Prelude.{◌≡◌, ◌≤◌, true, ⊤};
ghost use Rattle.event_sinks.specs.Writing.{is_open_of};

mod refused;

use event_sinks::{Cause, CountSink, Gate, LineSink, SettleFault, Sink, SinkFault};
use shared_tree::{Pass, Seat, SeatLog, Tree};
use std::alloc::Global;
use std::fmt::Debug;
use std::io;
use std::io::Write;
use std::marker::Brand;
use std::process::Abort;
use std::sync::atomic::{AtomicU64, Ordering};
use std::sync::ledger::{Blank, Ledger};
use std::sync::{Arc, Mutex, Wait};
use std::thread::Threads;
use watchtree_script::append_call_line;
use watchtree_storm::*;

/// Asserts that two values are equal. Tests assert in this function, and their helpers end the test where a call fails:
/// a macro or a `?` in a long body costs seconds to prove.
fn equal<T: PartialEq + Debug + Drop>(rt: &impl Abort, got: T, wanted: T) {
    assert_eq!(rt; got, wanted);
}

/// Opens once all four have asked.
#[derive(Drop)]
struct Four {
    turns: u64,
    asked: [AtomicU64; 4],
}

impl Four {
    /// A gate that nobody has asked yet, of `turns` turns.
    fn closed(turns: u64) -> Four {
        Four {
            turns,
            asked: [
                AtomicU64::new(0),
                AtomicU64::new(0),
                AtomicU64::new(0),
                AtomicU64::new(0),
            ],
        }
    }
}

impl Gate for Four {
    ghost may_pass = { λ _ _ _ _. ⊤ };

    ghost most_turns = { λ gate. gate.turns };

    fn pass(&self, who: u32, _turn: u64) -> bool {
        if 0 < who && who < 5 {
            self.asked[who as usize - 1].store(1, Ordering::SeqCst);
        }
        for k in 0..4 {
            if self.asked[k].load(Ordering::SeqCst) == 0 {
                return false;
            }
        }
        true
    }

    fn turns(&self) -> u64 {
        self.turns
    }
}

/// What a storm comes to: how many entries, what its listeners come to, and the entries where it is settled.
type End = (u64, [(u32, Cause, u64); 2], Result<u64, SettleFault>);

/// A settled storm with `entries` entries, whose listeners took `taken` records each.
fn settled(entries: u64, taken: u64) -> End {
    let listeners = [(1, Cause::Last, taken), (2, Cause::Last, taken)];
    (entries, listeners, Ok(entries))
}

/// What a storm comes to.
fn end_of(stormed: &Stormed) -> End {
    let settled = match stormed.settled {
        Ok(settled) => Ok(settled.entries),
        Err(fault) => Err(fault),
    };
    let listeners = match stormed.listeners.as_slice() {
        [one, other] => [*one, *other],
        _ => [(0, Cause::Given, 0); 2],
    };
    (stormed.entries, listeners, settled)
}

/// Compares what a storm comes to, whose sinks take at most `most.0` and `most.1` records.
fn storms<G: Gate, R: Threads + Wait + Abort + Sync>(
    rt: &R,
    alloc: Global,
    calls: u32,
    gate: &G,
    most: (u64, u64),
    wanted: End,
)
    requires { (1 ≤ calls) × (calls ≤ 1000) }
{
    let mut sinks: Vec<Box<dyn Sink>> = Vec::with_capacity(alloc, 2).expect(rt, "memory");
    let one = CountSink::new(alloc, most.0);
    let other = CountSink::new(alloc, most.1);
    sinks.push_reserved(Box::new(alloc, one).expect(rt, "memory"));
    sinks.push_reserved(Box::new(alloc, other).expect(rt, "memory"));
    let stormed = storm(rt, alloc, calls, gate, sinks).expect(rt, "a storm");
    equal(rt, end_of(&stormed), wanted);
}

/// All four run at once, at a gate that waits for all of them.
#[test]
fn four_run_at_once(rt: HostRuntime) {
    let gate = Four::closed(100_000_000);
    storms(&rt, rt.alloc(), 4, &gate, (99, 99), settled(25, 18));
}

/// The first sink is full after three records.
#[test]
fn each_listener_has_its_own_sink(rt: HostRuntime) {
    let full = (1, Cause::Sink(SinkFault::Full), 3);
    let unsettled = Err(SettleFault::NotEnded(1));
    let end = (21, [full, (2, Cause::Last, 16)], unsettled);
    storms(&rt, rt.alloc(), 3, &OpenGate, (3, 99), end);
}

/// Counts the closing lines, in every copy of the counter.
#[derive(Drop)]
struct Closings {
    count: Arc<AtomicU64, Global>,
}

impl Write for Closings {
    fn write(&mut self, buf: &[u8]) -> io::Result<usize> {
        if buf.starts_with(b"closed") {
            self.count.fetch_add(1, Ordering::SeqCst);
        }
        Ok(buf.len())
    }

    fn flush(&mut self) -> io::Result<()> {
        Ok(())
    }
}

/// A sink that counts its closing.
fn counted(rt: &impl Abort, alloc: Global, count: &Arc<AtomicU64, Global>) -> LineSink<Closings>
    ensures { is_open_of result ≡ true }
{
    let count = Arc::try_clone(count).expect(rt, "memory");
    LineSink::new(alloc, Closings { count })
}

/// Both writers make four calls each, one after the other, and both instances are closed. Returns the three logs.
fn writes_both<L: Ledger, G: Gate, R: Wait + Abort>(
    rt: &R,
    alloc: Global,
    tree: &Tree<L>,
    pass: &mut Pass<L>,
    (main, first, second): (Seat<L>, Seat<L>, Seat<L>),
    gate: &G,
) -> Vec<SeatLog> {
    let mut logs = Vec::with_capacity(alloc, 3).expect(rt, "memory");
    let first = Writer::first().write(rt, alloc, tree, first, gate, 4);
    let second = Writer::second().write(rt, alloc, tree, second, gate, 4);
    logs.push(pass.join(close_both(rt, tree, main)))
        .expect(rt, "memory");
    logs.push(pass.join(first)).expect(rt, "memory");
    logs.push(pass.join(second)).expect(rt, "memory");
    logs
}

/// A storm of four calls each, in which the four run one after the other, the listeners before the writers or after.
fn quiet<L: Ledger, G: Gate, R: Wait + Abort>(
    rt: &R,
    alloc: Global,
    blank: Blank,
    gate: &G,
    are_listeners_first: bool,
) -> FinishedStorm<CountSink>
    requires name { blank.name ≡ L.name }
    requires parts { (blank.parts ≡ L.parts) × (blank.parts ≡ 65537) }
{
    let one = CountSink::new(alloc, 99);
    let other = CountSink::new(alloc, 99);
    let ReadyStorm {
        held,
        mut pass,
        main,
        first,
        second,
        one,
        other,
    } = begin::<L, CountSink>(alloc, blank, 4, one, other).expect(rt, "a storm");
    let tree: Tree<L> = Mutex::new(held);
    let seats = (main, first, second);
    if are_listeners_first {
        let ended = (one.run(gate, 1_000), other.run(gate, 1_000));
        let logs = writes_both(rt, alloc, &tree, &mut pass, seats, gate);
        let book = tree.into_inner().dissolve(pass);
        return FinishedStorm { book, logs, ended };
    }
    let logs = writes_both(rt, alloc, &tree, &mut pass, seats, gate);
    let ended = (one.run(gate, 1_000), other.run(gate, 1_000));
    let book = tree.into_inner().dissolve(pass);
    FinishedStorm { book, logs, ended }
}

/// The same with the ledger of a brand.
fn quiet_storm<G: Gate, R: Wait + Abort>(
    rt: &R,
    alloc: Global,
    gate: &G,
    are_listeners_first: bool,
) -> FinishedStorm<CountSink> {
    quiet::<Brand, G, R>(rt, alloc, Blank::new(65537), gate, are_listeners_first)
}

/// The lines of the calls that no line of a script makes.
const INIT: &str = "# init 16384 for a pipe (no line of a script makes this call)\n";

const PUMP_1: &str = "# pump 1 1048576 (no line of a script makes this call)\n";

const PUMP_2: &str = "# pump 2 1048576 (no line of a script makes this call)\n";

/// The calls of a storm of four calls each whose second writer comes after the first, as lines, and the seat of each.
const FOUR_EACH: [(u32, &str); 25] = [
    (1, "mkdir /s 755\n"),
    (1, INIT),
    (1, "watch 1 /s 0xfff\n"),
    (1, INIT),
    (1, "watch 2 /s 0xfff\n"),
    (2, "create /s/a1 644\n"),
    (2, PUMP_1),
    (2, "write /s/a1 0 78\n"),
    (2, PUMP_1),
    (2, "rename /s/a1 /s/b1\n"),
    (2, PUMP_1),
    (2, "unlink /s/b1\n"),
    (2, PUMP_1),
    (3, "create /s/a2 644\n"),
    (3, PUMP_2),
    (3, "write /s/a2 0 78\n"),
    (3, PUMP_2),
    (3, "rename /s/a2 /s/b2\n"),
    (3, PUMP_2),
    (3, "unlink /s/b2\n"),
    (3, PUMP_2),
    (1, PUMP_1),
    (1, PUMP_2),
    (1, "close 1\n"),
    (1, "close 2\n"),
];

#[test]
fn a_journal_has_the_calls_of_a_storm(rt: HostRuntime) {
    let alloc = rt.alloc();
    let ran = quiet_storm(&rt, alloc, &OpenGate, false);
    let entries = ran.book.journal();
    equal(&rt, entries.len(), FOUR_EACH.len());
    for (entry, (caller, line)) in entries.iter().zip(&FOUR_EACH) {
        let mut text = Vec::new(alloc);
        append_call_line(&entry.call, &mut text).expect(&rt, "memory");
        let got = (entry.caller, text.as_slice());
        equal(&rt, got, (*caller, line.as_bytes()));
    }
}

/// Lets one worker through alone.
#[derive(Drop)]
struct Only {
    who: u32,
}

impl Gate for Only {
    ghost may_pass = { λ _ _ _ _. ⊤ };

    ghost most_turns = { λ _. 2 };

    fn pass(&self, who: u32, _turn: u64) -> bool {
        who == self.who
    }

    fn turns(&self) -> u64 {
        2
    }
}

/// Compares how many calls the seats of both writers kept.
fn kept(rt: &impl Abort, logs: &[SeatLog], wanted: &[usize; 2]) {
    for (log, wanted) in logs.iter().skip(1).zip(wanted) {
        equal(rt, log.kept.as_slice().len(), *wanted);
    }
}

/// A storm of four calls each at a gate that lets one worker through alone. Compares how many calls the seats of both
/// writers kept.
fn asks<R: Threads + Wait + Abort + Sync>(rt: &R, alloc: Global, who: u32, wanted: &[usize; 2]) {
    let one = CountSink::new(alloc, 99);
    let other = CountSink::new(alloc, 99);
    let blank = Blank::new(65537);
    let gate = Only { who };
    let ran = run::<Brand, CountSink, Only, R>(rt, alloc, blank, 4, &gate, one, other);
    kept(rt, ran.expect(rt, "a storm").logs.as_slice(), wanted);
}

/// The seat of the writer that is let through has four turns, and the other's has none.
#[test]
fn writers_ask_under_their_numbers(rt: HostRuntime) {
    for (who, wanted) in &[(3, [8, 0]), (4, [0, 8])] {
        asks(&rt, rt.alloc(), *who, wanted);
    }
}

/// A storm whose journal is cut before its four threads begin. Compares what it comes to.
fn cut_before_it<L: Ledger + Send + Sync, R: Threads + Wait + Abort + Sync>(
    rt: &R,
    alloc: Global,
    blank: Blank,
    calls: u32,
    wanted: End,
)
    requires name { blank.name ≡ L.name }
    requires parts { (blank.parts ≡ L.parts) × (blank.parts ≡ 65537) }
    requires calls { calls ≤ 1000 }
{
    let sinks = (CountSink::new(alloc, 99), CountSink::new(alloc, 99));
    let ready = begin::<L, CountSink>(alloc, blank, calls, sinks.0, sinks.1);
    let mut ready = ready.expect(rt, "a storm");
    equal(rt, ready.held.cut(), Ok(5));
    let finished = ready.run(rt, alloc, calls, &OpenGate).expect(rt, "a storm");
    let stormed = finished.settle(alloc).expect(rt, "memory");
    equal(rt, end_of(&stormed), wanted);
}

/// The same with the ledger of a brand.
fn cut_storm<R: Threads + Wait + Abort + Sync>(rt: &R, alloc: Global, calls: u32, wanted: End)
    requires { calls ≤ 1000 }
{
    cut_before_it::<Brand, R>(rt, alloc, Blank::new(65537), calls, wanted);
}

/// Of 4 to 7 calls of each writer, and so with each of them as its last.
#[test]
fn a_storm_that_was_cut_is_settled(rt: HostRuntime) {
    for (calls, entries, taken) in [(4, 25, 18), (5, 29, 24), (6, 33, 30), (7, 37, 34)] {
        cut_storm(&rt, rt.alloc(), calls, settled(entries, taken));
    }
}

/// The four run one after the other, at a gate that waits for all of them. This does not pass for a storm of four calls
/// each, in which both listeners end by the end batch, and each writer's seat keeps eight calls.
#[test]
fn one_after_the_other_is_noticed(rt: HostRuntime) {
    for are_listeners_first in &[true, false] {
        let gate = Four::closed(1_000);
        let ran = quiet_storm(&rt, rt.alloc(), &gate, *are_listeners_first);
        let mut count = 0u32;
        for log in ran.logs.iter().skip(1) {
            count = count.saturating_add(u32::from(log.kept.as_slice().len() == 8));
        }
        let is_last = ran.ended.0.cause() == Cause::Last && ran.ended.1.cause() == Cause::Last;
        equal(&rt, is_last && count == 2, false);
    }
}
