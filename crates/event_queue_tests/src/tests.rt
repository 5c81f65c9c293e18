//! Queues by tables of steps: what is kept, merged, marked and lost, and what waits.

use event_queue::{Fit, Offered, Queue};
use record_codec::{Event, Name, bits};
use std::alloc::Global;
use std::process::Abort;

/// A call and its answer, or what waits. An event has the name of its file, and the overflow mark is a dash.
#[derive(Clone, Copy, Debug)]
pub(crate) enum Step {
    Offer(&'static str, Offered),
    Take(&'static str),
    DropOldest(usize),
    /// The records that wait, the name of each one byte.
    Waits(&'static str),
    Ends,
    /// A number of bytes, how many records fit into them, and how many bytes these take.
    Fits(usize, usize, usize),
}

// Of a queue of one record.
const ONE: [Step; 10] = [
    Step::Offer("a", Offered::Kept),
    Step::Offer("a", Offered::Merged),
    Step::Offer("b", Offered::Marked),
    Step::Offer("a", Offered::Lost),
    Step::Waits("a-"),
    Step::Take("a"),
    Step::Offer("a", Offered::Lost),
    Step::Take("-"),
    Step::Offer("a", Offered::Kept),
    Step::Waits("a"),
];

// Of a queue of two. The mark takes 16 bytes, and a record with a short name 32.
pub(crate) const TWO: [Step; 20] = [
    Step::Ends,
    Step::Offer("a", Offered::Kept),
    Step::Offer("b", Offered::Kept),
    Step::Offer("c", Offered::Marked),
    Step::Offer("d", Offered::Lost),
    Step::Take("a"),
    Step::Offer("e", Offered::Lost),
    Step::Take("b"),
    Step::Offer("g", Offered::Kept),
    Step::Offer("g", Offered::Merged),
    Step::Waits("-g"),
    Step::Fits(15, 0, 0),
    Step::Fits(16, 1, 16),
    Step::Fits(47, 1, 16),
    Step::Fits(48, 2, 48),
    Step::Fits(1000, 2, 48),
    Step::DropOldest(1),
    Step::Take("g"),
    Step::Ends,
    Step::Fits(1000, 0, 0),
];

// Of a queue of three: it is full after 3 steps, has the mark behind its records after 4, and between two after 7.
const THREE: [Step; 10] = [
    Step::Offer("a", Offered::Kept),
    Step::Offer("b", Offered::Kept),
    Step::Offer("c", Offered::Kept),
    Step::Offer("d", Offered::Marked),
    Step::Take("a"),
    Step::DropOldest(1),
    Step::Offer("g", Offered::Kept),
    Step::Waits("c-g"),
    Step::DropOldest(2),
    Step::Waits("g"),
];

/// An empty queue of 1 to 65,535 records.
pub(crate) fn new_queue(rt: &impl Abort, alloc: Global, limit: u32) -> Queue {
    Queue::with_limit(alloc, limit.clamp(1, 65_535)).expect(rt, "memory")
}

/// The event of a new file in the directory of watch 1, or the mark. A short name takes no memory.
fn event(rt: &impl Abort, alloc: Global, name: &[u8]) -> Event {
    let (wd, mask, name) = if name == b"-".as_slice() {
        (-1, bits::IN_Q_OVERFLOW, None)
    } else {
        let name = Name::new(alloc, name).expect(rt, "memory");
        (1, bits::IN_CREATE, name)
    };
    Event {
        wd,
        mask,
        cookie: 0,
        name,
    }
}

/// Whether just these records wait.
fn is_waiting(rt: &impl Abort, alloc: Global, queue: &Queue, names: &[u8]) -> bool {
    for (index, name) in names.iter().enumerate() {
        if queue.peek(index) != Some(&event(rt, alloc, &[*name])) {
            return false;
        }
    }
    queue.peek(names.len()).is_none() && queue.len() == names.len() && !queue.is_empty()
}

/// Whether a step goes as it says.
fn is_right(rt: &impl Abort, alloc: Global, queue: &mut Queue, step: Step) -> bool {
    match step {
        Step::Offer(name, answer) => queue.offer(event(rt, alloc, name.as_bytes())) == answer,
        Step::Take(name) => queue.take() == Some(event(rt, alloc, name.as_bytes())),
        Step::DropOldest(count) => {
            queue.drop_oldest(count);
            true
        }
        Step::Waits(names) => is_waiting(rt, alloc, queue, names.as_bytes()),
        Step::Ends => queue.take().is_none() && queue.is_empty() && queue.len() == 0,
        Step::Fits(bytes, count, len) => {
            queue.fit_len(bytes) == Fit { count, len }
                && queue.fit(bytes) == count
                && queue.any_fits(bytes) == (count > 0)
        }
    }
}

/// Makes the steps, each of which goes as it says.
pub(crate) fn plays(rt: &impl Abort, alloc: Global, queue: &mut Queue, steps: &[Step]) {
    for (index, step) in steps.iter().enumerate() {
        let is_right = is_right(rt, alloc, queue, *step);
        assert!(rt; is_right, "step {index}, {step:?}");
    }
}

#[test]
fn offers_and_takes(rt: HostRuntime) {
    let alloc = rt.alloc();
    plays(&rt, alloc, &mut new_queue(&rt, alloc, 1), &ONE);
    let mut queue = new_queue(&rt, alloc, 2);
    plays(&rt, alloc, &mut queue, &TWO);
    assert_eq!(rt; queue.limit(), 2);
}

/// Whether the same records wait in both, and what is offered then has the same outcome.
fn are_alike(rt: &impl Abort, alloc: Global, one: &mut Queue, other: &mut Queue) -> bool {
    let mut is_alike = one.len() == other.len() && one.bytes() == other.bytes();
    for name in b"tuvwx" {
        let offered = one.offer(event(rt, alloc, &[*name]));
        is_alike = other.offer(event(rt, alloc, &[*name])) == offered && is_alike;
    }
    for _ in 0..9 {
        is_alike = one.take() == other.take() && is_alike;
    }
    is_alike && one.is_empty() && other.is_empty()
}

/// Dropping the oldest records leaves the same as taking them one by one.
#[test]
fn the_oldest_are_dropped(rt: HostRuntime) {
    let alloc = rt.alloc();
    for end in 0..11 {
        for count in 0..7 {
            let mut dropped = new_queue(&rt, alloc, 3);
            let mut taken = new_queue(&rt, alloc, 3);
            plays(&rt, alloc, &mut dropped, &THREE[..end]);
            plays(&rt, alloc, &mut taken, &THREE[..end]);
            dropped.drop_oldest(count);
            for _ in 0..count {
                taken.take();
            }
            let is_alike = are_alike(&rt, alloc, &mut dropped, &mut taken);
            assert!(rt; is_alike, "{count} after {end} steps");
        }
    }
}
