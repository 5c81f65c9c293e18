//! Two threads on one tree.

ghost use Rattle.std.specs.Prelude.{◌≡◌};

use super::*;
use shared_tree::{Book, SeatLog, Tree};
use std::marker::Brand;
use std::sync::atomic::{AtomicU64, Ordering};
use std::sync::{Mutex, Wait};
use std::thread;
use std::thread::Threads;

/// How often a thread looks for what another one does.
const TURNS: u64 = 1_000_000_000;

/// Waits until the number is there. False once the turns are over.
fn sees(number: &AtomicU64, wanted: u64) -> bool {
    for _ in 0..TURNS {
        if number.load(Ordering::SeqCst) == wanted {
            return true;
        }
    }
    false
}

/// Makes `count` calls: changes of the root's mode.
fn writes<L: Ledger>(rt: &impl Wait, tree: &Tree<L>, seat: Seat<L>, count: u32) -> Seat<L> {
    let mut seat = seat;
    for mode in 0..count {
        let path = Path::root();
        let call = Call::File(FileCall::Chmod { path, mode });
        let _ = tree.lock(rt).call(&mut seat, call);
    }
    seat
}

/// Holds the lock until a batch was taken, and then makes 100 calls.
fn holds<L: Ledger>(
    rt: &impl Wait,
    tree: &Tree<L>,
    seat: Seat<L>,
    step: &AtomicU64,
) -> (bool, Seat<L>) {
    let guard = tree.lock(rt);
    step.store(1, Ordering::SeqCst);
    let taken = sees(step, 2);
    drop(guard);
    (taken, writes(rt, tree, seat, 100))
}

/// Takes a batch once the lock is held, and then makes 50 calls.
fn takes<L: Ledger>(
    rt: &impl Wait,
    tree: &Tree<L>,
    seat: Seat<L>,
    feed: Option<Feed>,
    step: &AtomicU64,
) -> (Option<Batch>, Seat<L>) {
    let mut batch = None;
    if let Some(mut feed) = feed {
        if sees(step, 1) {
            batch = feed.take();
        }
    }
    step.store(2, Ordering::SeqCst);
    (batch, writes(rt, tree, seat, 50))
}

/// Each call that a seat kept is the entry of its sequence number, under the seat's number.
fn is_log(rt: &impl Abort, book: &Book, log: SeatLog, number: u32, count: usize) {
    equal(rt, log.number, number);
    equal(rt, log.kept.as_slice().len(), count);
    for kept in log.kept.as_slice() {
        let at = kept.place.saturating_sub(1) as usize;
        let entry = book.journal().get(at).expect(rt, "an entry");
        equal(
            rt,
            (entry.caller, &entry.call, &entry.reply),
            (number, &kept.call, &kept.reply),
        );
    }
}

/// A tree with two pipes, a batch in the second, and an instance without one.
const BEFORE: [(Act, Says); 6] = [
    (Act::Opens(16, 1), Says::Instance(1)),
    (Act::Inits, Says::Instance(2)),
    (Act::Opens(16, 1), Says::Instance(3)),
    (Act::Watches(3), Says::Wd(1)),
    (Act::Creates("/f"), Says::Number(2)),
    (Act::Pumps(3, 4096), Says::Records),
];

/// A thread takes a batch while another holds the lock. Then both make calls, each under a seat of its own: their calls
/// are the entries, and the pipes are listed.
fn goes_beside<L: Ledger + Send + Sync, R: Threads + Wait + Abort + Sync>(
    rt: &R,
    alloc: Global,
    blank: Blank,
)
    requires name { blank.name ≡ L.name }
    requires parts { (blank.parts ≡ L.parts) × (blank.parts ≡ 65537) }
{
    let mut stage = Stage::<L>::new(rt, alloc, blank, Limits::full());
    stage.plays(rt, alloc, &BEFORE);
    let Stage {
        held,
        mut pass,
        seat: first,
        mut feeds,
        ..
    } = stage;
    let feed = feeds.pop();
    let second = pass.seat().expect(rt, "a seat");
    let tree: Tree<L> = Mutex::new(held);
    let step = AtomicU64::new(0);
    let (shared, number) = (&tree, &step);
    let ((taken, first), (batch, second)) = thread::join(
        rt,
        move || holds(rt, shared, first, number),
        move || takes(rt, shared, second, feed, number),
    );
    equal(rt, (taken, said_of(&batch, 3)), (true, Says::Batch(6, 1)));
    let (first, second) = (pass.join(first), pass.join(second));
    let book = tree.into_inner().dissolve(pass);
    equal(rt, (book.entries(), book.journal().len()), (156, 156));
    equal(rt, book.pipes(), [1, 3].as_slice());
    is_log(rt, &book, first, 1, 106);
    is_log(rt, &book, second, 2, 50);
}

#[test]
fn two_threads_take_and_call(rt: HostRuntime) {
    goes_beside::<Brand, HostRuntime>(&rt, rt.alloc(), Blank::new(65537));
}
