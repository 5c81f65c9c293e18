//! Fault injection: each allocation of a listener with one of three sinks, and of settling, fails in turn. Without the
//! shim each runs once, without failures.

ghost use Rattle.std.specs.Prelude.{◌≡◌, true};

use super::books::listened;
use super::listeners::{EACH, known};
use super::stories::{Left, feed_of, plays_out};
use super::*;
use refuser::{refuse, was_refused};

/// More allocations than a listener or settling makes here.
const MOST: u32 = 100;

/// Runs a listener at five batches of a record each and the end batch while allocation `k` fails. Returns whether one
/// failed, and whether the listener ended as it may then, with its sink closed.
fn listens<S: Sink>(rt: &impl Abort, alloc: Global, sink: S, k: u32) -> (bool, bool)
    requires { S.is_open sink ≡ true }
{
    let feed = feed_of(rt, alloc, "+f!g!h!i!j!.");
    let listener = Listening::new(alloc, 7, feed, sink);
    let _ = refuse(alloc, k);
    let ended = listener.run(&EACH, 9);
    let is_refused = was_refused(alloc);
    let (cause, handed, taken) = known(rt, &ended);
    let is_well = match cause {
        Cause::Last => !is_refused && handed == 6 && taken == 5,
        Cause::Memory => is_refused && taken < 6 && handed as u64 == taken,
        Cause::Sink(SinkFault::Memory) => is_refused && taken < 5 && handed as u64 == taken + 1,
        _ => false,
    };
    (is_refused, is_well)
}

/// Settles a book while allocation `k` fails. Returns whether one failed, and whether the answer is as it must be then.
fn settles(rt: &impl Abort, alloc: Global, k: u32) -> (bool, bool) {
    let Left { book, logs, feeds } = plays_out(rt, alloc, "+f!.");
    let ends = listened(rt, alloc, feeds, 2);
    let _ = refuse(alloc, k);
    let answer = settle(alloc, book, logs, ends);
    let is_refused = was_refused(alloc);
    let wanted = if is_refused {
        Err(SettleFault::Memory)
    } else {
        Ok(Settled {
            entries: 5,
            calls: 5,
        })
    };
    (is_refused, answer == wanted)
}

/// A listener of one of three sinks, or settling, while allocation `k` fails.
fn fails_at(rt: &impl Abort, alloc: Global, which: u32, k: u32) -> (bool, bool) {
    let mut text = Vec::with_capacity(alloc, 999).expect(rt, "memory");
    match which {
        0 => listens(rt, alloc, MemorySink::new(alloc), k),
        1 => listens(rt, alloc, CountSink::new(alloc, 9), k),
        2 => listens(rt, alloc, LineSink::new(alloc, &mut text), k),
        _ => settles(rt, alloc, k),
    }
}

/// How many allocations it makes, each of which fails in turn.
fn fails_in_turn(rt: &impl Abort, alloc: Global, which: u32) -> u32 {
    for k in 1..MOST {
        let (is_refused, is_well) = fails_at(rt, alloc, which, k);
        equal(rt, (which, k, is_well), (which, k, true));
        if !is_refused {
            return k - 1;
        }
    }
    MOST
}

#[test]
fn each_allocation_of_a_listener_and_of_settling(rt: HostRuntime) {
    let alloc = rt.alloc();
    let has_refuser = refuse(alloc, MOST);
    let _ = was_refused(alloc);
    for which in 0..4 {
        let count = fails_in_turn(&rt, alloc, which);
        let got = (which, count > 0, count < MOST);
        equal(&rt, got, (which, has_refuser, true));
    }
}
