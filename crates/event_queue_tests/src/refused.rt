//! Failed allocations: those of a new queue and of a copy. No other call makes one.

use crate::tests::{Step, TWO, new_queue, plays};
use event_queue::{Offered, Queue};
use refuser::{refuse, refuse_from, was_refused};
use std::alloc::Global;
use std::process::Abort;
use tree_paths::Refusal;

/// More allocations than a queue makes.
const MOST: u32 = 9;

// A name that takes more bytes than its record has.
const LONG: &str = "a name that takes more bytes than its record has";

// A full queue of one record, which is then read whole.
const FULL: [Step; 2] = [
    Step::Offer(LONG, Offered::Kept),
    Step::Offer("b", Offered::Marked),
];

const READ: [Step; 5] = [
    Step::Offer("c", Offered::Lost),
    Step::Fits(48, 0, 0),
    Step::Take(LONG),
    Step::Take("-"),
    Step::Ends,
];

/// Makes a copy of the queue, or a new queue of its limit, with each allocation failing in turn. How many there were;
/// none if an answer was wrong.
fn refused_in_turn(alloc: Global, queue: &Queue, is_copy: bool) -> Option<u32> {
    let bytes = if is_copy { queue.bytes() } else { 0 };
    for k in 1..MOST {
        let _ = refuse(alloc, k);
        let made = if is_copy {
            queue.copy()
        } else {
            Queue::with_limit(alloc, queue.limit())
        };
        match (made, was_refused(alloc)) {
            (Err(Refusal::Enomem), true) => {}
            (Ok(made), false) if made.bytes() == bytes => return Some(k - 1),
            _ => return None,
        }
    }
    None
}

/// Each allocation fails in turn, if any can fail, and then each answer is right.
fn each_fails(rt: &impl Abort, alloc: Global, queue: &Queue, is_copy: bool) {
    let has_refuser = refuse(alloc, MOST);
    let _ = was_refused(alloc);
    let count = refused_in_turn(alloc, queue, is_copy);
    let is_well = matches!(count, Some(count) if (count > 0) == has_refuser);
    let limit = queue.limit();
    assert!(rt; is_well, "limit {limit}: {count:?}");
}

#[test]
fn each_allocation_of_a_queue(rt: HostRuntime) {
    let alloc = rt.alloc();
    for limit in [1, 2, 65_535] {
        each_fails(&rt, alloc, &new_queue(&rt, alloc, limit), false);
    }
    let mut queue = new_queue(&rt, alloc, 1);
    plays(&rt, alloc, &mut queue, &FULL);
    each_fails(&rt, alloc, &queue, true);
    // The copy stays full where the queue is emptied.
    let mut copy = queue.copy().expect(&rt, "memory");
    plays(&rt, alloc, &mut queue, &READ);
    plays(&rt, alloc, &mut copy, &READ);
}

#[test]
fn no_call_takes_memory(rt: HostRuntime) {
    let alloc = rt.alloc();
    let mut queue = new_queue(&rt, alloc, 2);
    let _ = refuse_from(alloc, 1);
    plays(&rt, alloc, &mut queue, &TWO);
    assert!(rt; !was_refused(alloc), "an allocation");
}
