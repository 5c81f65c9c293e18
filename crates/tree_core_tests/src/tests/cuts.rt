//! Cuts and forks: a tree that was cut, and a fork, answer as if nothing had happened. The scripts `cut-*` show what is
//! read after a cut.

use super::*;

/// A tree, and one that answers as it does.
type Trees = (State, State);

/// Whether a call gives records. It answers the same on both trees, with the same sequence number.
fn both_read(rt: &impl Abort, alloc: Global, trees: &mut Trees, ask: Ask) -> bool {
    let one = trees.0.apply(CALLER, call(rt, alloc, ask));
    let other = trees.1.apply(CALLER, call(rt, alloc, ask));
    holds(rt, ask, one == other);
    matches!(
        one,
        Ok(Receipt {
            reply: Reply::Records(_),
            ..
        })
    )
}

// Calls to draw from. Their instances are counted back from the last one.
const DRAWN: [Ask<'static>; 64] = [
    Ask::Create("/a"),
    Ask::Create("/b"),
    Ask::Create("/a/a"),
    Ask::Create("/a/b"),
    Ask::Create("/b/a"),
    Ask::Create("/c/d"),
    Ask::Create("/a/a/a"),
    Ask::Mkdir("/a"),
    Ask::Mkdir("/b"),
    Ask::Mkdir("/c"),
    Ask::Mkdir("/a/a"),
    Ask::Mkdir("/a/b"),
    Ask::Link("/b", "/d"),
    Ask::Link("/a/b", "/c/d"),
    Ask::Link("/c/d", "/b/b"),
    Ask::Unlink("/a"),
    Ask::Unlink("/b"),
    Ask::Unlink("/a/b"),
    Ask::Unlink("/c/d"),
    Ask::Rmdir("/a"),
    Ask::Rmdir("/c"),
    Ask::Rmdir("/a/a"),
    Ask::Rename("/a", "/b"),
    Ask::Rename("/b", "/a"),
    Ask::Rename("/a/a", "/c"),
    Ask::Rename("/c/d", "/a/b"),
    Ask::Exchange("/a", "/c"),
    Ask::Exchange("/b", "/a/a"),
    Ask::Write("/b", 0, "abc"),
    Ask::Write("/a/b", 7, "xy"),
    Ask::Write("/c/d", 2, ""),
    Ask::Truncate("/b", 5),
    Ask::Truncate("/c/d", 1),
    Ask::Chmod("/", 0o700),
    Ask::Chmod("/a", 0o711),
    Ask::Chmod("/b", 0o600),
    Ask::ReadFile("/b", 0, 9),
    Ask::ReadFile("/c/d", 1, 4),
    Ask::List("/"),
    Ask::List("/a"),
    Ask::Stat("/b"),
    Ask::Stat("/a/a"),
    Ask::Init(1),
    Ask::Init(3),
    Ask::InitPiped(2),
    Ask::Watch(0, "/", 0xfff),
    Ask::Watch(1, "/", 0x8000_0fff),
    Ask::Watch(1, "/a", 0x2000_0300),
    Ask::Watch(2, "/b", 0xfff),
    Ask::Watch(2, "/a", 0xfff),
    Ask::Watch(3, "/c", 0x3c0),
    Ask::Watch(4, "/c/d", 0x8000_0fff),
    Ask::Watch(4, "/", 0xfff),
    Ask::Unwatch(1, 1),
    Ask::Unwatch(2, 2),
    Ask::Read(0, 47),
    Ask::Read(1, ALL),
    Ask::Read(2, 16),
    Ask::Read(3, ALL),
    Ask::Pump(2, ALL),
    Ask::Pump(3, 70),
    Ask::Pump(4, 50),
    Ask::Close(1),
    Ask::Close(4),
];

/// The call, where `opened` instances were opened.
fn of_last(ask: Ask<'static>, opened: u32) -> Ask<'static> {
    match ask {
        Ask::Watch(back, text, mask) => Ask::Watch(opened.saturating_sub(back), text, mask),
        Ask::Unwatch(back, wd) => Ask::Unwatch(opened.saturating_sub(back), wd),
        Ask::Read(back, bytes) => Ask::Read(opened.saturating_sub(back), bytes),
        Ask::Pump(back, bytes) => Ask::Pump(opened.saturating_sub(back), bytes),
        Ask::Close(back) => Ask::Close(opened.saturating_sub(back)),
        ask => ask,
    }
}

/// Makes 3,000 calls on both trees, and cuts the second after every seventh. How many gave records.
fn draws(rt: &impl Abort, alloc: Global, trees: &mut Trees) -> u32 {
    // Each number is 1664525 times the one before it and 1013904223, modulo 2^32.
    let mut at = 48u32;
    let mut reads = 0u32;
    let mut opened = 0u32;
    for turn in 1..3_001u64 {
        at = at.wrapping_mul(1_664_525).wrapping_add(1_013_904_223);
        let ask = DRAWN[(at >> 8) as usize % 64];
        if matches!(ask, Ask::Init(_) | Ask::InitPiped(_)) {
            opened = opened.saturating_add(1);
        }
        if both_read(rt, alloc, trees, of_last(ask, opened)) {
            reads = reads.saturating_add(1);
        }
        if turn % 7 == 0 {
            equal(rt, trees.1.cut(), Ok(turn));
        }
    }
    reads
}

#[test]
fn cuts_change_no_answer(rt: HostRuntime) {
    let alloc = rt.alloc();
    let tree = opened(&rt, alloc, Limits::full());
    let mut trees = (tree, opened(&rt, alloc, Limits::full()));
    let reads = draws(&rt, alloc, &mut trees);
    equal(&rt, trees.0.cut(), Ok(3_000));
    let mut rest = 0u32;
    for id in 1..trees.0.snapshot().next_id {
        for ask in [Ask::Read(id, ALL), Ask::Pump(id, ALL)] {
            if both_read(&rt, alloc, &mut trees, ask) {
                rest = rest.saturating_add(1);
            }
        }
    }
    equal(&rt, (reads > 20, rest > 20), (true, true));
}

// The queue of two records is offered four: the last two are lost.
const NINE: [Ask<'static>; 9] = [
    Ask::Init(2),
    Ask::Mkdir("/d"),
    Ask::Watch(1, "/d", 0x100),
    Ask::Create("/d/a"),
    Ask::Create("/d/b"),
    Ask::Create("/d/c"),
    Ask::Create("/d/d"),
    Ask::Link("/d/a", "/b"),
    Ask::InitPiped(4),
];

const THREE: [Ask<'static>; 3] = [
    Ask::Watch(2, "/b", 0xfff),
    Ask::Write("/b", 0, "abc"),
    Ask::Rename("/d/b", "/d/e"),
];

/// A directory, a file with two paths, an instance of two records with an overflow mark, and one with a pipe. Nine of
/// the twelve calls were cut off.
fn grown(rt: &impl Abort, alloc: Global) -> State {
    let mut tree = opened(rt, alloc, Limits::full());
    does(rt, alloc, &mut tree, &NINE);
    equal(rt, tree.cut(), Ok(9));
    does(rt, alloc, &mut tree, &THREE);
    tree
}

#[test]
fn a_cut_keeps_what_waits(rt: HostRuntime) {
    let alloc = rt.alloc();
    let tree = grown(&rt, alloc);
    let wanted = [(1, 0x100, 0, "a"), (1, 0x100, 0, "b"), (-1, 0x4000, 0, "")];
    let wanted = records(&rt, alloc, &wanted);
    let row = tree.snapshot().instances.first().expect(&rt, "an instance");
    let are_kept = row.watches.as_slice() == [(2, 1, 0x100)].as_slice()
        && spelled(&rt, alloc, row.waiting.as_slice()) == wanted;
    equal(
        &rt,
        (row.id, row.limit, row.next_wd, are_kept),
        (1, 2, 2, true),
    );
}

// Calls whose replies show the files, what waits, and each number that comes next. Six give records.
const TWENTY: [Ask<'static>; 20] = [
    Ask::Stat("/b"),
    Ask::List("/d"),
    Ask::ReadFile("/d/a", 0, 9),
    Ask::Read(1, ALL),
    Ask::Pump(2, ALL),
    Ask::Create("/d/g"),
    Ask::Mkdir("/e"),
    Ask::Rename("/d/g", "/e/g"),
    Ask::Read(1, ALL),
    Ask::Init(3),
    Ask::Watch(3, "/e", 0xfff),
    Ask::Watch(1, "/b", 0xfff),
    Ask::Exchange("/b", "/e/g"),
    Ask::Read(3, ALL),
    Ask::Unlink("/d/a"),
    Ask::Read(1, ALL),
    Ask::Unwatch(1, 1),
    Ask::Close(2),
    Ask::Rmdir("/gone"),
    Ask::Read(1, ALL),
];

#[test]
fn a_fork_answers_alike_and_apart(rt: HostRuntime) {
    let alloc = rt.alloc();
    let tree = grown(&rt, alloc);
    let fork = tree.fork().expect(&rt, "a fork");
    let mut apart = tree.fork().expect(&rt, "a fork");
    let mut trees = (tree, fork);
    let mut reads = 0u32;
    for ask in TWENTY {
        if both_read(&rt, alloc, &mut trees, ask) {
            reads = reads.saturating_add(1);
        }
    }
    let (tree, fork) = trees;
    equal(
        &rt,
        (
            reads,
            fork.last_place(),
            tree.journal().len(),
            fork.journal().len(),
        ),
        (6, 32, 23, 20),
    );
    equal(&rt, (apart.waiting(1), apart.last_place()), (Some(3), 12));
    drop(tree);
    does(&rt, alloc, &mut apart, &[Ask::Stat("/b"), Ask::Close(1)]);
    equal(&rt, (fork.waiting(1), apart.waiting(1)), (Some(0), None));
    drop(fork);
    does(&rt, alloc, &mut apart, &[Ask::Pump(2, ALL)]);
}
