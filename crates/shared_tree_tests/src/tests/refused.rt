//! Fault injection: each allocation of each act of a story, and of a cut, fails in turn. It is then not done, the
//! seat keeps nothing, no feed is given anything, and the same act then succeeds as if nothing had happened. Without
//! the shim each runs once.

ghost use Rattle.std.specs.Prelude.{◌≡◌};

use super::*;
use refuser::{refuse, refuse_from, was_refused};
use std::marker::Brand;
use tree_core::Kept;

/// More allocations than an act makes.
const MOST: u32 = 100;

/// An act of each kind, so that each vector outgrows its first capacity.
const STORY: [(Act, Says); 22] = [
    (Act::Opens(16, 4), Says::Instance(1)),
    (Act::Watches(1), Says::Wd(1)),
    (Act::Creates("/a"), Says::Number(2)),
    (Act::Pumps(1, 4096), Says::Records),
    (Act::Opens(16, 4), Says::Instance(2)),
    (Act::Watches(2), Says::Wd(1)),
    (Act::Creates("/b"), Says::Number(3)),
    (Act::Pumps(2, 4096), Says::Records),
    (Act::Pumps(1, 4096), Says::Records),
    (Act::Opens(16, 4), Says::Instance(3)),
    (Act::Opens(16, 4), Says::Instance(4)),
    (Act::Opens(16, 4), Says::Instance(5)),
    (Act::Inits, Says::Instance(6)),
    (Act::Watches(6), Says::Wd(1)),
    (
        Act::Creates("/a-name-that-is-not-stored-in-place"),
        Says::Number(4),
    ),
    (Act::Reads(6), Says::Records),
    (Act::Closes(6), Says::Done),
    (Act::Closes(1), Says::Done),
    (Act::Pumps(2, 4096), Says::Records),
    (Act::Closes(2), Says::Done),
    (Act::Closes(3), Says::Done),
    (Act::Creates("/d"), Says::Number(5)),
];

/// Before which act of the story a cut is tried.
const CUT_BEFORE: usize = 8;

/// What is seen of a tree at its end: what the seat kept, what the feeds gave, and the last sequence number.
#[derive(Debug, Drop, PartialEq, Eq)]
struct Seen {
    kept: Vec<Kept>,
    given: Vec<Batch>,
    last: u64,
}

/// What is seen of a tree at its end.
fn seen_of<L: Ledger>(rt: &impl Abort, alloc: Global, stage: Stage<L>) -> Seen {
    let Stage {
        held,
        mut pass,
        seat,
        mut feeds,
        ..
    } = stage;
    let mut given = Vec::new(alloc);
    for feed in &mut feeds {
        for _ in 0..4 {
            given.extend(feed.take()).expect(rt, "memory");
        }
    }
    Seen {
        kept: pass.join(seat).kept.into_vec(),
        given,
        last: held.state().last_place(),
    }
}

/// Plays the story, where allocation `k` of the act at this index fails, or of a cut before it. Whether one failed, and
/// what is seen at the end.
fn fails_at<L: Ledger>(
    rt: &impl Abort,
    alloc: Global,
    blank: Blank,
    at: usize,
    is_cut: bool,
    k: u32,
) -> (bool, Seen)
    requires name { blank.name ≡ L.name }
    requires parts { (blank.parts ≡ L.parts) × (blank.parts ≡ 65537) }
{
    let mut stage = Stage::<L>::new(rt, alloc, blank, Limits::full());
    let (first, rest) = STORY.split_at(at.min(STORY.len()));
    stage.plays(rt, alloc, first);
    let (act, wanted) = match rest.first() {
        Some(row) if !is_cut => *row,
        _ => (Act::Cuts, Says::Cut(at as u64)),
    };
    let call = call_of(rt, alloc, act);
    let _ = refuse(alloc, k);
    let says = match call {
        Some(call) => stage.calls(rt, call),
        None => stage.others(rt, act),
    };
    let is_refused = was_refused(alloc);
    let wanted = if is_refused {
        Says::Fails(Refusal::Enomem)
    } else {
        wanted
    };
    equal(rt, (at, k, says), (at, k, wanted));
    let done = if is_refused || is_cut { 0 } else { 1 };
    stage.plays(rt, alloc, rest.get(done..).unwrap_or(&[]));
    (is_refused, seen_of(rt, alloc, stage))
}

/// How many allocations the act at this index makes, or a cut before it, each of which fails in turn. What is seen at
/// the end is compared.
fn fails_in_turn(rt: &impl Abort, alloc: Global, at: usize, is_cut: bool, whole: &Seen) -> u32 {
    for k in 1..MOST {
        let (is_refused, seen) = fails_at::<Brand>(rt, alloc, Blank::new(65537), at, is_cut, k);
        equal(rt, (at, k, &seen), (at, k, whole));
        if !is_refused {
            return k - 1;
        }
    }
    MOST
}

#[test]
fn each_allocation_of_each_act(rt: HostRuntime) {
    let alloc = rt.alloc();
    let has_refuser = refuse(alloc, MOST);
    let _ = was_refused(alloc);
    let (_, whole) = fails_at::<Brand>(&rt, alloc, Blank::new(65537), 0, false, MOST);
    let cut = fails_in_turn(&rt, alloc, CUT_BEFORE, true, &whole);
    let mut most = 0u32;
    for at in 0..STORY.len() {
        most = most.max(fails_in_turn(&rt, alloc, at, false, &whole));
    }
    equal(&rt, (most > 0, most < MOST), (has_refuser, true));
    equal(&rt, (cut > 0, cut < MOST), (has_refuser, true));
}

/// Feeds, seats and the end of a tree take no memory.
fn takes_none<L: Ledger>(rt: &impl Abort, alloc: Global, blank: Blank)
    requires name { blank.name ≡ L.name }
    requires parts { (blank.parts ≡ L.parts) × (blank.parts ≡ 65537) }
{
    let mut stage = Stage::<L>::new(rt, alloc, blank, Limits::full());
    stage.plays(rt, alloc, &STORY[..9]);
    let _ = refuse_from(alloc, 1);
    let given = (stage.takes(1), stage.takes(2));
    let Stage {
        held,
        mut pass,
        seat,
        ..
    } = stage;
    let kept = pass.join(seat).kept.as_slice().len();
    let has_seat = pass.seat().is_ok();
    let entries = held.dissolve(pass).entries();
    let is_refused = was_refused(alloc);
    equal(rt, given, (Says::Batch(4, 1), Says::Batch(8, 1)));
    equal(
        rt,
        (kept, has_seat, entries, is_refused),
        (9, true, 9, false),
    );
}

#[test]
fn some_calls_take_no_memory(rt: HostRuntime) {
    takes_none::<Brand>(&rt, rt.alloc(), Blank::new(65537));
}
