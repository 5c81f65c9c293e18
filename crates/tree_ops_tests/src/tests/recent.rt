//! Paths that are resolved by the directories which a table remembers, beside walks from the root. The tree has some
//! 300 directories, for which there are 64 slots. The paths of some have fewer than the eight bytes that are
//! remembered.

ghost use Rattle.std.specs.Prelude.{◌≡◌, ◌<◌};

use super::*;
use inode_table::Seen;

/// Directories in one another, the last of which has a path of 80 bytes, the most that are remembered.
const LONG: [&str; 3] = [
    "/d0/aaaaaaaaaaaaaaaaaaaaaaaaaaaaaa",
    "/d0/aaaaaaaaaaaaaaaaaaaaaaaaaaaaaa/bbbbbbbbbbbbbbbbbbbbbbbbbbbbbb",
    "/d0/aaaaaaaaaaaaaaaaaaaaaaaaaaaaaa/bbbbbbbbbbbbbbbbbbbbbbbbbbbbbb/cccccccccccccc",
];

/// Directories that are made first.
const TOP: u64 = 20;

/// The directories in each of them, and one number more, under which none is made first.
const INNER: u64 = 15;

/// Numbers that look as if they were drawn by chance, each made from the one before (Marsaglia, xorshift).
#[derive(Drop)]
struct Made {
    at: u64,
}

impl Made {
    fn below(&mut self, end: u64) -> u64
        requires { 0 < end }
    {
        self.at ^= self.at << 13;
        self.at ^= self.at >> 7;
        self.at ^= self.at << 17;
        self.at % end
    }
}

/// The path of a directory in another one, of 6 to 8 bytes or of 10 to 12.
fn inner(alloc: Global, a: u64, b: u64) -> Result<String, Refusal> {
    if b % 2 == 0 {
        return Ok(format!(in alloc; "/d{a}/e{b}")?);
    }
    Ok(format!(in alloc; "/d{a}/inner{b}")?)
}

fn prepared(alloc: Global) -> Result<Calls, Refusal> {
    let mut calls = Calls::new(alloc, Limits::full())?;
    for a in 0..TOP {
        calls.mkdir(format!(in alloc; "/d{a}")?.as_str())?;
        for b in 1..INNER {
            calls.mkdir(inner(alloc, a, b)?.as_str())?;
        }
    }
    for text in LONG {
        calls.mkdir(text)?;
    }
    let [_, _, long] = LONG;
    calls.mkdir(format!(in alloc; "{long}c")?.as_str())?;
    Ok(calls)
}

/// A tree of ten directories, which has no slots.
fn few_directories(alloc: Global) -> Result<Calls, Refusal> {
    let mut calls = Calls::new(alloc, Limits::full())?;
    for a in 0..10 {
        calls.mkdir(format!(in alloc; "/d{a}")?.as_str())?;
    }
    Ok(calls)
}

/// A path of those that were made, or of what was never there.
fn some_path(calls: &Calls, made: &mut Made) -> Result<Path, Refusal> {
    let alloc = calls.alloc;
    let [_, _, long] = LONG;
    let (a, b, c) = (made.below(TOP), made.below(INNER), made.below(3));
    let text = match made.below(10) {
        0 => format!(in alloc; "/d{a}")?,
        1 => format!(in alloc; "/x{c}")?,
        2 => format!(in alloc; "/d{a}/x{c}/e{b}")?,
        3 => format!(in alloc; "{long}/f{c}")?,
        4 => format!(in alloc; "{long}c/f{c}")?,
        5 | 6 => format!(in alloc; "{}/f{c}", inner(alloc, a, b)?)?,
        _ => inner(alloc, a, b)?,
    };
    calls.path(text.as_str())
}

fn some_call(calls: &Calls, made: &mut Made) -> Result<FileCall, Refusal> {
    let path = some_path(calls, made)?;
    let old = some_path(calls, made)?;
    let new = some_path(calls, made)?;
    Ok(match made.below(8) {
        0 => FileCall::Mkdir { path, mode: 0o755 },
        1 => FileCall::Create { path, mode: 0o644 },
        2 => FileCall::Rmdir { path },
        3 => FileCall::Unlink { path },
        4 => FileCall::Rename { old, new },
        5 => FileCall::Rename2 {
            old,
            new,
            flags: RENAME_EXCHANGE,
        },
        6 => FileCall::List { path },
        _ => FileCall::Stat { path },
    })
}

fn number_in(seen: Result<Seen, Refusal>) -> Result<u32, Refusal> {
    match seen {
        Ok(seen) => Ok(seen.number),
        Err(refusal) => Err(refusal),
    }
}

/// Whether a path is resolved as by a walk.
fn is_as_walked(table: &mut Table, path: &Path) -> bool
    ensures { table.new ≡ table.old }
{
    let recent = table.resolve_recent(path);
    let walked = table.resolve(path);
    number_in(table.lookup(&recent)) == number_in(table.lookup(&walked))
        && number_in(table.lookup_parent(&recent)) == number_in(table.lookup_parent(&walked))
}

/// The same call, whose paths are resolved by what is remembered.
fn made_recent(calls: &mut Calls, call: &FileCall) -> Result<Answer, Refusal> {
    let found = CallPaths::resolve_recent(&mut calls.table, call);
    let paths = Paths::on(&calls.table, call, &found);
    let ready = check(&paths, &calls.counts, &calls.limits)?;
    let next = next_counts(&ready, &calls.counts)?;
    let plan = ready.into_plan();
    carry(
        calls.alloc,
        &mut calls.table,
        &plan,
        &mut calls.counts,
        next,
    )
}

/// Makes calls on a table that remembers, and on one that walks. Returns whether all answers and paths are alike.
fn are_calls_alike(one: &mut Calls, other: &mut Calls, made: &mut Made) -> Result<bool, Refusal> {
    for _ in 0..1000 {
        let call = some_call(one, made)?;
        if made_recent(one, &call) != other.made(&call) {
            return Ok(false);
        }
        for _ in 0..3 {
            let path = some_path(one, made)?;
            if !is_as_walked(&mut one.table, &path) {
                return Ok(false);
            }
        }
    }
    Ok(one.table.flat()? == other.table.flat()?)
}

/// Answers and paths are alike.
fn answer_alike(rt: &impl Abort, one: &mut Calls, other: &mut Calls, made: &mut Made, what: &str) {
    let is_alike = are_calls_alike(one, other, made).expect(rt, "memory");
    assert!(rt; is_alike, "{what} answer alike");
}

/// So are those of forks. These do not come to twice as many nodes, so they walk.
fn forks_alike(rt: &impl Abort, one: &Calls, other: &Calls, made: &mut Made) {
    let mut fork = forked(rt, one);
    let mut fork_of_other = forked(rt, other);
    answer_alike(rt, &mut fork, &mut fork_of_other, made, "forks");
}

#[test]
fn what_is_remembered_is_what_a_walk_finds(rt: HostRuntime) {
    let mut one = prepared(rt.alloc()).expect(&rt, "memory");
    let mut other = prepared(rt.alloc()).expect(&rt, "memory");
    let mut made = Made { at: 20261127 };
    for _ in 0..3 {
        answer_alike(&rt, &mut one, &mut other, &mut made, "tables");
        forks_alike(&rt, &one, &other, &mut made);
    }
}

/// The paths of a tree that has slots, whatever it was forked from.
const MANY: usize = 64;

#[test]
fn what_a_fork_remembers_is_what_a_walk_finds(rt: HostRuntime) {
    let one = few_directories(rt.alloc()).expect(&rt, "memory");
    let other = few_directories(rt.alloc()).expect(&rt, "memory");
    let mut fork = forked(&rt, &one);
    let mut fork_of_other = forked(&rt, &other);
    let mut made = Made { at: 20261128 };
    for _ in 0..3 {
        answer_alike(&rt, &mut fork, &mut fork_of_other, &mut made, "forks");
    }
    let (_, count) = counted(&fork.table).expect(&rt, "memory");
    assert!(rt; MANY < count, "{count} paths");
}

/// Whether a path is resolved as by a walk before a call, and after it.
fn is_as_walked_after(alloc: Global, ask: Ask) -> Result<bool, Refusal> {
    let mut calls = prepared(alloc)?;
    let path = calls.path("/d1/inner3/f")?;
    let is_alike = is_as_walked(&mut calls.table, &path);
    let call = call_of(alloc, ask)?;
    calls.made(&call)?;
    Ok(is_as_walked(&mut calls.table, &path) && is_alike)
}

/// The directory of the path, or one above it, moves or is removed.
#[test]
fn a_directory_that_moves_is_forgotten(rt: HostRuntime) {
    for ask in [
        Ask::Rename("/d1/inner3", "/moved"),
        Ask::Rename("/d1", "/moved"),
        Ask::Rename("/d2/inner5", "/d1/inner3"),
        Ask::Exchange("/d1/inner3", "/d2"),
        Ask::Exchange("/d2", "/d1"),
        Ask::Rmdir("/d1/inner3"),
    ] {
        let is_alike = is_as_walked_after(rt.alloc(), ask).expect(&rt, "an answer");
        assert!(rt; is_alike, "{ask:?}");
    }
}
