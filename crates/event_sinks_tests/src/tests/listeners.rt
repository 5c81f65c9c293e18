//! Listeners at feeds of a tree.

ghost use Rattle.std.specs.Prelude.{◌≡◌, ◌++◌, [], true, flat_map, length, None, ⊤};
ghost use Rattle.std.specs.Io.KnownBytes.{Appends};
ghost use Rattle.record_codec.specs.Ports.{faults_of, inner_of};
ghost use Rattle.shared_tree.specs.Handed.{records_of};
ghost use Rattle.event_sinks.specs.declared.listener.Cause.TheVariants.{Last};
ghost use Rattle.event_sinks.specs.Lines.{closing_line, line_of};
ghost use Rattle.event_sinks.specs.Writing.{port_of};
ghost use Rattle.event_sinks.specs.Listeners.{IsSoundListener, listener_state, state_of_listener};

use super::stories::feed_of;
use super::*;
use event_sinks::Step::{Idle, Over, Took};
use shared_tree::Feed;
use std::thread;
use std::thread::Threads;

/// Lets the turns of one worker through, from a turn on.
#[derive(Drop)]
pub(super) struct Lets {
    who: u32,
    from: u64,
}

impl Gate for Lets {
    ghost may_pass = { λ _ _ _ _. ⊤ };

    ghost most_turns = { λ _. 9 };

    fn pass(&self, who: u32, turn: u64) -> bool {
        who == self.who && turn >= self.from
    }

    fn turns(&self) -> u64 {
        9
    }
}

/// A gate that lets each turn of the listeners of these tests through.
pub(super) const EACH: Lets = Lets { who: 7, from: 0 };

/// What is known of a listener that has ended: its cause, how many batches it was handed, and how many records its sink
/// took.
pub(super) type Known = (Cause, usize, u64);

/// What is known of a listener that has ended. Its sink is closed.
pub(super) fn known<S: Sink>(rt: &impl Abort, ended: &Ended<S>) -> Known {
    let sink = ended.sink();
    equal(rt, sink.is_open(), false);
    (ended.cause(), ended.handed().len(), sink.taken())
}

const FULL_SINK: Cause = Cause::Sink(SinkFault::Full);

const WRITE_FAULT: Cause = Cause::Sink(SinkFault::Write);

/// A story, how many records a sink takes, three steps of a listener at the story, and what is known of it once it is
/// finished then.
type Steps = (&'static str, u64, [Step; 3], Known);

/// Compares the steps of a listener, and what is known of it once it is finished then.
fn steps<S: Sink>(rt: &impl Abort, alloc: Global, row: &Steps, sink: S)
    requires { S.is_open sink ≡ true }
{
    let (story, _, wanted, ends) = row;
    let mut listener = Listening::new(alloc, 7, feed_of(rt, alloc, story), sink);
    for step in wanted {
        equal(rt, (*story, listener.step()), (*story, *step));
    }
    let ended = listener.finish();
    equal(rt, (ended.number(), ended.instance()), (7, 1));
    equal(rt, (*story, known(rt, &ended)), (*story, *ends));
}

const STEPS: [Steps; 7] = [
    ("+", 9, [Idle, Idle, Idle], (Cause::Given, 0, 0)),
    ("+fg!h", 9, [Took, Idle, Idle], (Cause::Given, 1, 2)),
    ("+fg!h!", 9, [Took, Took, Idle], (Cause::Given, 2, 3)),
    ("+fg!.", 9, [Took, Took, Over], (Cause::Last, 2, 2)),
    ("+.", 9, [Took, Over, Over], (Cause::Last, 1, 0)),
    ("+f!g!.", 9, [Took, Took, Took], (Cause::Last, 3, 2)),
    ("+fgh!i!.", 1, [Took, Over, Over], (FULL_SINK, 1, 1)),
];

/// With a sink, and with the same in a box.
#[test]
fn steps_say_what_they_did(rt: HostRuntime) {
    let alloc = rt.alloc();
    for row in &STEPS {
        steps(&rt, alloc, row, CountSink::new(alloc, row.1));
        let sink = CountSink::new(alloc, row.1);
        let boxed: Box<dyn Sink> = Box::new(alloc, sink).expect(&rt, "memory");
        steps(&rt, alloc, row, boxed);
    }
}

/// A story; the worker whose turns a gate lets through, from a turn on, and how many turns the listener has; how many
/// records its sink takes, and how often a write fails once a number of bytes is written; what is known of the listener
/// then, and what its sink wrote.
type Run = (
    &'static str,
    (u32, u64, u64),
    (u64, usize, usize),
    Known,
    &'static str,
);

const OPEN: (u32, u64, u64) = (7, 0, 9);

const ALL: (u64, usize, usize) = (9, 0, 0);

const NONE: &str = "closed 0\n";

/// A listener ends with the end batch, with its last turn, which a gate may hold back, or with a record that its sink
/// refuses: it was then handed that batch, and the sink has the records before.
const RUNS: [Run; 14] = [
    ("+f!g!.", (7, 9, 9), ALL, (Cause::Turns, 0, 0), NONE),
    ("+f!g!.", (7, 8, 9), ALL, (Cause::Turns, 1, 1), ONE),
    ("+f!g!.", (7, 0, 2), ALL, (Cause::Turns, 2, 2), TWO),
    ("+f!g!.", (7, 0, 3), ALL, (Cause::Last, 3, 2), TWO),
    ("+f!g!.", (7, 0, u64::MAX), ALL, (Cause::Last, 3, 2), TWO),
    ("+f!g!.", (8, 0, 9), ALL, (Cause::Turns, 0, 0), NONE),
    ("+f!g!", OPEN, (9, 10, 1), (WRITE_FAULT, 1, 0), CUT_NONE),
    ("+f!g!", OPEN, (9, 10, 99), (WRITE_FAULT, 1, 0), CUT_LINE),
    ("+fg!hij!", OPEN, (0, 0, 0), (FULL_SINK, 1, 0), NONE),
    ("+fg!hij!", OPEN, (1, 0, 0), (FULL_SINK, 1, 1), ONE),
    ("+fg!hij!", OPEN, (2, 0, 0), (FULL_SINK, 2, 2), TWO),
    ("+fg!hij!", OPEN, (3, 0, 0), (FULL_SINK, 2, 3), THREE),
    ("+fg!hij!", OPEN, (4, 0, 0), (FULL_SINK, 2, 4), FOUR),
    ("+fg!hij!", OPEN, (5, 0, 0), (Cause::Turns, 2, 5), FIVE),
];

/// A line that was cut off, with a closing line and without one.
const CUT_NONE: &str = "1 00000100closed 0\n";

const CUT_LINE: &str = "1 00000100";

/// Runs such a listener, and compares what comes of it.
fn runs(rt: &impl Abort, alloc: Global, (story, turns, sink, ends, wanted): &Run) {
    let mut text = Vec::with_capacity(alloc, 99).expect(rt, "memory");
    let writer = ShortWriter {
        text: &mut text,
        step: usize::MAX,
        free: sink.1,
        faults: sink.2,
    };
    let sink = StopSink::new(LineSink::new(alloc, writer), sink.0);
    let listener = Listening::new(alloc, 7, feed_of(rt, alloc, story), sink);
    let gate = Lets {
        who: turns.0,
        from: turns.1,
    };
    let ended = listener.run(&gate, turns.2);
    equal(rt, (*turns, known(rt, &ended)), (*turns, *ends));
    drop(ended);
    equal(rt, (*turns, text.as_slice()), (*turns, wanted.as_bytes()));
}

#[test]
fn listeners_end(rt: HostRuntime) {
    for row in &RUNS {
        runs(&rt, rt.alloc(), row);
    }
}

/// Runs a listener whose sink writes lines. Where it ended by the end batch, and no write failed, the writer got the
/// line of each record that was handed, and then the closing line with their number.
fn writes_lines<W: Write + Send + Drop>(
    alloc: Global,
    feed: Feed,
    writer: W,
    gate: &Lets,
) -> Ended<LineSink<W>>
    ensures { let made = result.intake in
        result.cause ≡ Last → faults_of (port_of made.sink) ≡ 0
        → Appends (W.contents writer) (W.contents (inner_of (port_of made.sink)))
        (flat_map line_of (records_of made.handed.items) ++ closing_line (length (records_of made.handed.items))) }
{
    unfailing_texts_are_whole();
    Listening::new(alloc, 7, feed, LineSink::new(alloc, writer)).run(gate, 9)
}

#[test]
fn a_listener_writes_its_records(rt: HostRuntime) {
    let alloc = rt.alloc();
    for (story, wanted) in &[("+.", NONE), ("+fg!h!.", THREE)] {
        let mut text = Vec::with_capacity(alloc, 99).expect(&rt, "memory");
        let ended = writes_lines(alloc, feed_of(&rt, alloc, story), &mut text, &EACH);
        equal(&rt, ended.cause(), Cause::Last);
        drop(ended);
        equal(&rt, text.as_slice(), wanted.as_bytes());
    }
}

/// Drops a listener after `count` steps.
fn drops<S: Sink>(mut listener: Listening<S>, count: u32)
    requires { IsSoundListener (state_of_listener S.record_list S.is_open listener) }
{
    for _ in 0..count {
        let _ = listener.step();
    }
}

/// Drops a listener after `count` steps, in another thread.
fn drops_elsewhere<S: Sink, R: Threads>(rt: &R, listener: Listening<S>, count: u32)
    requires { IsSoundListener (state_of_listener S.record_list S.is_open listener) }
{
    let _ = thread::join(
        rt,
        move || -> ()
            requires { IsSoundListener (state_of_listener S.record_list S.is_open listener) }
        { drops(listener, count) },
        || {},
    );
}

/// Drops a listener at two batches and the end batch after `count` steps, in another thread or in this one. Compares
/// what its sink wrote.
fn drops_at<R: Threads + Abort>(rt: &R, alloc: Global, is_thread: bool, count: u32, wanted: &str) {
    let mut text = Vec::with_capacity(alloc, 99).expect(rt, "memory");
    let sink = LineSink::new(alloc, &mut text);
    let listener = Listening::new(alloc, 7, feed_of(rt, alloc, "+f!g!."), sink);
    if is_thread {
        drops_elsewhere(rt, listener, count);
    } else {
        drops(listener, count);
    }
    equal(rt, (count, text.as_slice()), (count, wanted.as_bytes()));
}

/// After how many steps a listener is dropped, and what its sink wrote.
const DROPPED: [(u32, &str); 5] = [(0, NONE), (1, ONE), (2, TWO), (3, TWO), (4, TWO)];

#[test]
fn a_dropped_listener_closes_once(rt: HostRuntime) {
    for (count, wanted) in &DROPPED {
        drops_at(&rt, rt.alloc(), false, *count, wanted);
        drops_at(&rt, rt.alloc(), true, *count, wanted);
    }
}
