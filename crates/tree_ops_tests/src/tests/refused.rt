//! Fault injection: each allocation of `carry_out`, of a table's rows, of its copy and of its nodes fails in turn. Also
//! tested are the calls that take no memory. Without the shim each is called once.

use super::*;
use refuser::{refuse, refuse_from, was_refused};

/// More allocations than a call here makes.
const MOST: u32 = 200;

// A directory with more names than a node of an ordered map takes, files with one and two paths, and an empty
// directory.
const PREPARED: [Ask; 16] = [
    Ask::Mkdir("/d", 0o755),
    Ask::Mkdir("/e", 0o755),
    Ask::Create("/d/a", 0o644),
    Ask::Create("/d/b", 0o644),
    Ask::Create("/d/c", 0o644),
    Ask::Create("/d/f", 0o644),
    Ask::Create("/d/h", 0o644),
    Ask::Create("/d/i", 0o644),
    Ask::Create("/d/j", 0o644),
    Ask::Create("/d/k", 0o644),
    Ask::Create("/d/l", 0o644),
    Ask::Create("/d/another-name-that-is-not-stored-in-place", 0o644),
    Ask::Create("/d/o", 0o600),
    Ask::Create("/h", 0o600),
    Ask::Link("/d/f", "/g"),
    Ask::Write("/g", 0, "abc"),
];

const LONG: &str = "/d/a-name-that-is-not-stored-in-place";

// A call of each kind, none of which is refused there, and whether it takes memory.
const CALLS: [(Ask, bool); 15] = [
    (Ask::Create(LONG, 0o644), true),
    (Ask::Mkdir(LONG, 0o755), true),
    (Ask::Write("/g", 50, "xyz"), true),
    (Ask::ReadFile("/g", 0, 9), true),
    (Ask::Truncate("/g", 999), true),
    (Ask::Link("/g", LONG), true),
    (Ask::Rename("/g", LONG), true),
    (Ask::List("/d"), true),
    (Ask::Chmod("/g", 0o700), false),
    (Ask::Unlink("/g"), false),
    (Ask::Rmdir("/e"), false),
    (Ask::Stat("/g"), false),
    (Ask::Truncate("/g", 1), false),
    (Ask::Rename("/g", "/d/f"), false),
    (Ask::Exchange("/g", "/h"), false),
];

fn prepared(alloc: Global) -> Result<Calls, Refusal> {
    let mut calls = Calls::new(alloc, Limits::full())?;
    for ask in PREPARED {
        let call = call_of(alloc, ask)?;
        calls.made(&call)?;
    }
    Ok(calls)
}

/// How many allocations a call makes. Each was made to fail, with the table as it was. `None` if a result was wrong.
fn refused_in_turn(alloc: Global, call: &FileCall) -> Result<Option<u32>, Refusal> {
    let control = prepared(alloc)?;
    let mut after = prepared(alloc)?;
    let wanted = after.made(call)?;
    let mut calls = prepared(alloc)?;
    for k in 1..MOST {
        let _ = refuse(alloc, k);
        let told = calls.made(call);
        match (told, was_refused(alloc)) {
            (Err(Refusal::Enomem), true) if are_alike(&calls.table, &control.table)? => {}
            (Ok(told), false) if told == wanted && are_alike(&calls.table, &after.table)? => {
                return Ok(Some(k - 1));
            }
            _ => return Ok(None),
        }
    }
    Ok(None)
}

/// Whether the call is let through, or refused as it should be.
fn is_checked(calls: &Calls, call: &FileCall, wanted: Option<Refusal>) -> bool {
    let found = CallPaths::resolve(&calls.table, call);
    let paths = Paths::on(&calls.table, call, &found);
    check(&paths, &calls.counts, &calls.limits).err() == wanted
}

/// Whether that takes no memory.
fn is_checked_in_place(calls: &Calls, call: &FileCall, taken: &FileCall) -> bool {
    let _ = refuse_from(calls.alloc, 1);
    let is_well = is_checked(calls, call, None) && is_checked(calls, taken, Some(Refusal::Eperm));
    !was_refused(calls.alloc) && is_well
}

/// Whether allocations can be made to fail.
fn has_refuser(alloc: Global) -> bool {
    let has = refuse(alloc, MOST);
    let _ = was_refused(alloc);
    has
}

/// The allocations of a call, and whether it is checked in place.
type Counted = (Option<u32>, bool);

/// How many allocations a call makes, each of which fails in turn, and whether it is checked in place.
fn call_refused(calls: &Calls, taken: &FileCall, ask: Ask) -> Result<Counted, Refusal> {
    let call = call_of(calls.alloc, ask)?;
    count_refused(calls, taken, &call)
}

fn count_refused(calls: &Calls, taken: &FileCall, call: &FileCall) -> Result<Counted, Refusal> {
    let count = refused_in_turn(calls.alloc, call)?;
    Ok((count, is_checked_in_place(calls, call, taken)))
}

/// Whether allocations were made by just those calls that take memory.
fn is_grown(count: Option<u32>, grows: bool) -> bool {
    match count {
        Some(count) => (count > 0) == grows,
        None => false,
    }
}

/// Each allocation of each call fails in turn.
fn each_call_fails(rt: &impl Abort, calls: &Calls, taken: &FileCall, has_refuser: bool) {
    for (ask, grows) in CALLS {
        let (count, is_checked) = call_refused(calls, taken, ask).expect(rt, "memory");
        let is_well = is_grown(count, has_refuser && grows);
        assert!(rt; is_well && is_checked, "{ask:?}: {count:?}, {is_checked}");
    }
}

#[test]
fn each_allocation_of_each_call(rt: HostRuntime) {
    let alloc = rt.alloc();
    let has_refuser = has_refuser(alloc);
    let calls = prepared(alloc).expect(&rt, "memory");
    let taken = call_of(alloc, Ask::Unlink("/d")).expect(&rt, "memory");
    each_call_fails(&rt, &calls, &taken, has_refuser);
}

/// The kinds of trees: that of the prepared calls, of files or of directories in the root, a copy of the latter, and
/// one that was copied with half of its directories.
#[derive(Clone, Copy, Debug)]
enum Shape {
    Prepared,
    Files,
    Directories,
    Copy,
    GrownCopy,
}

/// Calls on a tree of `nodes` nodes.
fn grown(alloc: Global, nodes: u32, shape: Shape) -> Result<Calls, Refusal> {
    if let Shape::Prepared = shape {
        return prepared(alloc);
    }
    let mut calls = Calls::new(alloc, Limits::full())?;
    for i in 1..nodes {
        let path = calls.path(format!(in alloc; "/{i}")?.as_str())?;
        let call = match shape {
            Shape::Files => FileCall::Create { path, mode: 0o644 },
            _ => FileCall::Mkdir { path, mode: 0o755 },
        };
        calls.made(&call)?;
        if let (Shape::GrownCopy, true) = (shape, i + 1 == nodes / 2) {
            calls.table = calls.table.copy()?;
        }
    }
    if let Shape::Copy = shape {
        calls.table = calls.table.copy()?;
    }
    Ok(calls)
}

/// What is made of a table, or in one.
#[derive(Clone, Copy, Debug)]
enum Part {
    New,
    Copy,
    /// Capacity for one more node.
    Node,
    /// The rows of its paths, and of its files.
    Paths,
    Files,
}

/// Makes it. A table that is made is as the one that it is made of.
fn make(alloc: Global, table: &mut Table, part: Part) -> Result<Option<Table>, Refusal> {
    match part {
        Part::New => return Ok(Some(opening_table(alloc)?)),
        Part::Copy => return Ok(Some(table.copy()?)),
        Part::Node => table.reserve_node()?,
        Part::Paths => drop(table.flat()?),
        Part::Files => drop(table.files()?),
    }
    Ok(None)
}

/// How many allocations that takes. Each was made to fail, with the table as it was. `None` if a result was wrong.
fn part_refused_in_turn(
    alloc: Global,
    table: &mut Table,
    part: Part,
) -> Result<Option<u32>, Refusal> {
    let control = table.copy()?;
    for k in 1..MOST {
        let _ = refuse(alloc, k);
        let made = make(alloc, table, part);
        let is_refused = was_refused(alloc);
        let alike = are_alike(table, &control)?;
        match (made, is_refused) {
            (Err(Refusal::Enomem), true) if alike => {}
            (Ok(None), false) if alike => return Ok(Some(k - 1)),
            (Ok(Some(made)), false) if alike && are_alike(&made, &control)? => {
                return Ok(Some(k - 1));
            }
            _ => return Ok(None),
        }
    }
    Ok(None)
}

/// What is made of or in a tree with this count of nodes, and the least and the most allocations that it takes.
///
/// From 32 nodes on there are slots for directories to be remembered, taken where the nodes grow, if there are
/// directories; in a copy not before its nodes are also twice as many.
const PARTS: [(Part, u32, Shape, u32, u32); 17] = [
    (Part::New, 1, Shape::Directories, 1, 1),
    (Part::Copy, 1, Shape::Directories, 1, 1),
    (Part::Copy, 15, Shape::Prepared, 1, MOST),
    (Part::Paths, 15, Shape::Prepared, 1, MOST),
    (Part::Files, 15, Shape::Prepared, 1, MOST),
    (Part::Node, 16, Shape::Directories, 1, 1),
    (Part::Node, 31, Shape::Directories, 0, 0),
    (Part::Node, 32, Shape::Directories, 2, 2),
    (Part::Node, 32, Shape::Files, 1, 1),
    (Part::Node, 256, Shape::Directories, 2, 2),
    (Part::Node, 512, Shape::Directories, 1, 1),
    (Part::Node, 1, Shape::Copy, 1, 1),
    (Part::Node, 32, Shape::Copy, 1, 1),
    (Part::Node, 300, Shape::Copy, 1, 1),
    (Part::Node, 16, Shape::GrownCopy, 1, 1),
    (Part::Node, 32, Shape::GrownCopy, 2, 2),
    (Part::Node, 64, Shape::GrownCopy, 2, 2),
];

/// How many allocations that takes, each of which fails in turn.
fn tree_refused(
    alloc: Global,
    part: Part,
    nodes: u32,
    shape: Shape,
) -> Result<Option<u32>, Refusal> {
    let Calls { mut table, .. } = grown(alloc, nodes, shape)?;
    part_refused_in_turn(alloc, &mut table, part)
}

/// Whether a count is in a range. Without the shim no allocation fails.
fn is_within(count: Option<u32>, (least, most): (u32, u32), has_refuser: bool) -> bool {
    match count {
        Some(count) if has_refuser => least <= count && count <= most,
        Some(count) => count == 0,
        None => false,
    }
}

#[test]
fn each_allocation_of_a_table(rt: HostRuntime) {
    let alloc = rt.alloc();
    let has_refuser = has_refuser(alloc);
    for (part, nodes, shape, least, most) in PARTS {
        let count = tree_refused(alloc, part, nodes, shape).expect(&rt, "memory");
        let is_well = is_within(count, (least, most), has_refuser);
        assert!(rt; is_well, "{part:?}, {nodes} nodes, {shape:?}: {count:?}");
    }
}
