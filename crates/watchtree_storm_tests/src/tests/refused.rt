//! Fault injection: each allocation of a storm, and the start of each of its threads, fails in turn, with both sinks
//! closed each time; and how often a close is tried. Without the shim each of these tests makes one storm.

ghost use Rattle.std.specs.Prelude.{◌≡◌};

use super::*;
use refuser::{refuse, refuse_next, refuse_thread, was_refused};
use tree_core::Call;

/// More allocations than a storm of four calls makes.
const ALLOCATIONS: u32 = 2_000;

/// More threads than a storm has.
const THREADS: u32 = 9;

/// More allocations than fail in two closes that are tried 16 times each, and two pumps.
const CLOSES: u32 = 40;

/// What a test of storms asks of the shim, once the sinks are made.
#[derive(Clone, Copy)]
enum Asking {
    Allocation(u32),
    Thread(u32),
}

/// A storm of four calls, both sinks of which are closed. Returns whether something failed, and what the storm comes
/// to.
fn refused_at<R: Threads + Wait + Abort + Sync>(
    rt: &R,
    alloc: Global,
    asking: Asking,
) -> (bool, Result<End, StormFault>) {
    let count = Arc::new(alloc, AtomicU64::new(0)).expect(rt, "memory");
    let mut sinks: Vec<Box<dyn Sink>> = Vec::with_capacity(alloc, 2).expect(rt, "memory");
    let one = counted(rt, alloc, &count);
    let other = counted(rt, alloc, &count);
    sinks.push_reserved(Box::new(alloc, one).expect(rt, "memory"));
    sinks.push_reserved(Box::new(alloc, other).expect(rt, "memory"));
    let _ = match asking {
        Asking::Allocation(k) => refuse(alloc, k),
        Asking::Thread(k) => refuse_thread(alloc, k),
    };
    let stormed = storm(rt, alloc, 4, &OpenGate, sinks);
    let is_refused = was_refused(alloc);
    equal(rt, count.load(Ordering::SeqCst), 2);
    match stormed {
        Ok(stormed) => (is_refused, Ok(end_of(&stormed))),
        Err(fault) => (is_refused, Err(fault)),
    }
}

/// Whether a storm may come to this where it runs out of memory: a fault, a listener that did not end by the end batch,
/// a book that is not settled, or a settled book with fewer entries.
fn is_short_of_memory(stormed: &Result<End, StormFault>) -> bool {
    match stormed {
        Err(StormFault::Memory) => true,
        Ok((_, _, Ok(entries))) => *entries <= 25,
        Ok((_, _, Err(SettleFault::CountDiffers { .. }))) => false,
        Ok(_) => true,
    }
}

#[test]
fn each_allocation_of_a_storm(rt: HostRuntime) {
    for k in 1..ALLOCATIONS {
        let (is_refused, stormed) = refused_at(&rt, rt.alloc(), Asking::Allocation(k));
        if !is_refused {
            equal(&rt, stormed, Ok(settled(25, 18)));
            return;
        }
        equal(&rt, (k, is_short_of_memory(&stormed)), (k, true));
    }
    equal(&rt, "a storm makes more allocations", "");
}

/// A storm has four threads, and without one of them it is out of memory.
#[test]
fn each_thread_of_a_storm(rt: HostRuntime) {
    for k in 1..THREADS {
        let (is_refused, stormed) = refused_at(&rt, rt.alloc(), Asking::Thread(k));
        if !is_refused {
            equal(
                &rt,
                (k == 1 || k == 5, stormed),
                (true, Ok(settled(25, 18))),
            );
            return;
        }
        equal(&rt, (k, k <= 4 && stormed.is_err()), (k, true));
    }
    equal(&rt, "a storm has more threads", "");
}

/// Both instances of a storm with no calls are closed while the next allocations fail. Returns whether each was closed.
fn closed_with<L: Ledger, R: Wait + Abort>(
    rt: &R,
    alloc: Global,
    blank: Blank,
    refused: u32,
) -> (bool, bool)
    requires name { blank.name ≡ L.name }
    requires parts { (blank.parts ≡ L.parts) × (blank.parts ≡ 65537) }
{
    let sinks = (CountSink::new(alloc, 99), CountSink::new(alloc, 99));
    let ReadyStorm {
        mut held,
        pass: _,
        mut main,
        first: _,
        second: _,
        one,
        other,
    } = begin::<L, CountSink>(alloc, blank, 4, sinks.0, sinks.1).expect(rt, "a storm");
    // With 8 entries the journal is at its capacity, and no call of the seat that closes is kept without memory.
    for _ in 0..3 {
        let _ = held.call(&mut main, Call::Close { instance: 9 });
    }
    let tree: Tree<L> = Mutex::new(held);
    if refused > 0 {
        let _ = refuse_next(alloc, refused);
    }
    let _ = close_both(rt, &tree, main);
    let _ = was_refused(alloc);
    let one = one.run(&OpenGate, 9).cause() == Cause::Last;
    let other = other.run(&OpenGate, 9).cause() == Cause::Last;
    (one, other)
}

/// While more and more allocations fail the first close fails first. Sixteen allocations later the second fails too:
/// each allocation that fails is a try.
#[test]
fn a_close_is_tried_16_times(rt: HostRuntime) {
    let alloc = rt.alloc();
    let _ = refuse_next(alloc, 1);
    let has_refuser = Vec::<u8>::with_capacity(alloc, 1).is_err();
    let _ = was_refused(alloc);
    let mut between: u32 = 0;
    for refused in 0..CLOSES {
        let blank = Blank::new(65537);
        let (one, other) = closed_with::<Brand, HostRuntime>(&rt, alloc, blank, refused);
        // The second is closed where the first is.
        equal(&rt, (refused, one && !other), (refused, false));
        if other && !one {
            between = between.saturating_add(1);
        }
    }
    equal(&rt, between, if has_refuser { 16 } else { 0 });
}
