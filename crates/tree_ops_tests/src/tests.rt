mod recent;
mod refused;

ghost use Rattle.std.specs.Prelude.{◌≡◌, ◌+◌, IfOk};
ghost use Rattle.inode_table.specs.TableWorld.{HasNumbersBelow, world_of};
ghost use Rattle.tree_ops.specs.After.{numbers_of};
ghost use Rattle.tree_ops.specs.ReadyCall.{IsReady};

use inode_table::{FileRow, Kind, Table};
use record_codec::Bytes;
use std::alloc::Global;
use std::marker::Model;
use std::process::Abort;
use tree_ops::*;
use tree_paths::{Limits, Path, Refusal};

/// A call on files.
#[derive(Clone, Copy, Debug)]
enum Ask {
    Mkdir(&'static str, u32),
    Create(&'static str, u32),
    Write(&'static str, u64, &'static str),
    ReadFile(&'static str, u64, u32),
    Truncate(&'static str, u64),
    Chmod(&'static str, u32),
    Link(&'static str, &'static str),
    Unlink(&'static str),
    Rmdir(&'static str),
    Rename(&'static str, &'static str),
    Exchange(&'static str, &'static str),
    Stat(&'static str),
    List(&'static str),
}

/// What a call gives.
#[derive(Clone, Copy, Debug)]
enum Gives {
    Done,
    Number(u32),
    Count(u64),
    Bytes(&'static str),
    /// The number, the mode, the count of paths and the length of a file, and the number and the mode of a directory.
    File(u32, u32, u64, u64),
    Directory(u32, u32),
    /// The names, each with a space behind it.
    Names(&'static str),
    Refused(Refusal),
}

// A name of 255 bytes.
const LONGEST: &str =
    "/nnnnnnnnnnnnnnnnnnnnnnnnnnnnnnnnnnnnnnnnnnnnnnnnnnnnnnnnnnnnnnnnnnnnnnnnnnnnnnnnnnnnn\
    nnnnnnnnnnnnnnnnnnnnnnnnnnnnnnnnnnnnnnnnnnnnnnnnnnnnnnnnnnnnnnnnnnnnnnnnnnnnnnnnnnnnn\
    nnnnnnnnnnnnnnnnnnnnnnnnnnnnnnnnnnnnnnnnnnnnnnnnnnnnnnnnnnnnnnnnnnnnnnnnnnnnnnnnnnnnn";

// Below, `/d` is directory 2 and `/d/f` file 3. More of such calls are in scripts.
const STORY: [(Ask, Gives); 44] = [
    (Ask::Stat("/"), Gives::Directory(1, 0o755)),
    (Ask::List("/"), Gives::Names("")),
    (Ask::Mkdir("/d", 0o750), Gives::Number(2)),
    (Ask::Stat("/d"), Gives::Directory(2, 0o750)),
    (Ask::Create("/d/f", 0o644), Gives::Number(3)),
    (Ask::Stat("/d/f"), Gives::File(3, 0o644, 1, 0)),
    (Ask::Write("/d/f", 3, "abc"), Gives::Count(3)),
    (Ask::Write("/d/f", 1, "xyz"), Gives::Count(3)),
    (Ask::ReadFile("/d/f", 0, 9), Gives::Bytes("\0xyzbc")),
    (Ask::ReadFile("/d/f", 9, 1), Gives::Bytes("")),
    (Ask::Truncate("/d/f", 2), Gives::Done),
    (Ask::Truncate("/d/f", 4), Gives::Done),
    (Ask::Write("/d/f", 9, ""), Gives::Count(0)),
    (Ask::ReadFile("/d/f", 0, 9), Gives::Bytes("\0x\0\0")),
    (Ask::Chmod("/d/f", 0o600), Gives::Done),
    (Ask::Stat("/e/f"), Gives::Refused(Refusal::Enoent)),
    (Ask::Stat("/d/g"), Gives::Refused(Refusal::Enoent)),
    (Ask::Stat("/d/f/g/h"), Gives::Refused(Refusal::Enotdir)),
    (Ask::Create("/d/B", 0o644), Gives::Number(4)),
    (Ask::Create("/d/ab", 0o644), Gives::Number(5)),
    (Ask::List("/d"), Gives::Names("B ab f ")),
    (Ask::Link("/d/f", "/g"), Gives::Done),
    (Ask::Write("/g", 0, "shared"), Gives::Count(6)),
    (Ask::Unlink("/d/f"), Gives::Done),
    (Ask::Stat("/g"), Gives::File(3, 0o600, 1, 6)),
    (Ask::Link("/g", "/h"), Gives::Done),
    (Ask::Rename("/d/ab", "/h"), Gives::Done),
    (Ask::Stat("/h"), Gives::File(5, 0o644, 1, 0)),
    (Ask::Stat("/g"), Gives::File(3, 0o600, 1, 6)),
    (Ask::Rename("/h", "/g"), Gives::Done),
    (Ask::Mkdir("/x", 0o755), Gives::Number(6)),
    (Ask::Mkdir("/x/y", 0o755), Gives::Number(7)),
    (Ask::Rename("/d", "/x/y"), Gives::Done),
    (Ask::Stat("/x/y"), Gives::Directory(2, 0o750)),
    (Ask::Stat("/x/y/B"), Gives::File(4, 0o644, 1, 0)),
    (Ask::Stat("/d/B"), Gives::Refused(Refusal::Enoent)),
    (Ask::Exchange("/x/y", "/g"), Gives::Done),
    (Ask::Stat("/g/B"), Gives::File(4, 0o644, 1, 0)),
    (Ask::Stat("/x/y/B"), Gives::Refused(Refusal::Enotdir)),
    (Ask::Rmdir("/x"), Gives::Refused(Refusal::Enotempty)),
    (Ask::Unlink("/x/y"), Gives::Done),
    (Ask::Rmdir("/x"), Gives::Done),
    (Ask::Create(LONGEST, 0o644), Gives::Number(8)),
    (Ask::Stat(LONGEST), Gives::File(8, 0o644, 1, 0)),
];

// Of a table for files up to number 3, of 4 bytes and 2 paths, and for one cookie.
const LIMITED: [(Ask, Gives); 14] = [
    (Ask::Create("/a", 0o644), Gives::Number(2)),
    (Ask::Create("/b", 0o644), Gives::Number(3)),
    (
        Ask::Create("/c", 0o644),
        Gives::Refused(Refusal::NumbersSpent),
    ),
    (Ask::Write("/a", 0, "abcd"), Gives::Count(4)),
    (Ask::Write("/a", 4, "e"), Gives::Refused(Refusal::Efbig)),
    (Ask::Truncate("/a", 5), Gives::Refused(Refusal::Efbig)),
    (Ask::Link("/a", "/l"), Gives::Done),
    (Ask::Link("/a", "/c"), Gives::Refused(Refusal::Emlink)),
    (Ask::Rename("/a", "/c"), Gives::Done),
    (
        Ask::Rename("/c", "/a"),
        Gives::Refused(Refusal::CookiesSpent),
    ),
    // A rename that moves nothing takes no cookie.
    (Ask::Rename("/c", "/l"), Gives::Done),
    (Ask::Rename("/c", "/c"), Gives::Done),
    (Ask::Stat("/c"), Gives::File(2, 0o644, 2, 4)),
    (Ask::Stat("/a"), Gives::Refused(Refusal::Enoent)),
];

// Of the table that LINKED leaves, when all cookies are spent.
const SPENT: [(Ask, Gives); 4] = [
    (
        Ask::Rename("/g", "/n"),
        Gives::Refused(Refusal::CookiesSpent),
    ),
    (Ask::Rename("/g", "/d/f"), Gives::Done),
    (Ask::Rename("/g", "/g"), Gives::Done),
    (Ask::Stat("/n"), Gives::Refused(Refusal::Enoent)),
];

// A directory, a file of two paths, and a free slot before them.
const LINKED: [(Ask, Gives); 10] = [
    (Ask::Create("/lost", 0o644), Gives::Number(2)),
    (Ask::Mkdir("/d", 0o750), Gives::Number(3)),
    (Ask::Create("/d/f", 0o644), Gives::Number(4)),
    (Ask::Link("/d/f", "/g"), Gives::Done),
    (Ask::Write("/g", 0, "shared"), Gives::Count(6)),
    (Ask::Unlink("/lost"), Gives::Done),
    (Ask::Stat("/d"), Gives::Directory(3, 0o750)),
    (Ask::Stat("/g"), Gives::File(4, 0o644, 2, 6)),
    (Ask::List("/"), Gives::Names("d g ")),
    (Ask::List("/d"), Gives::Names("f ")),
];

// Changes each part of it.
const CHANGED: [(Ask, Gives); 6] = [
    (Ask::Write("/g", 0, "S"), Gives::Count(1)),
    (Ask::Unlink("/d/f"), Gives::Done),
    (Ask::Mkdir("/d/e", 0o755), Gives::Number(5)),
    (Ask::Chmod("/d", 0o700), Gives::Done),
    (Ask::List("/d"), Gives::Names("e ")),
    (Ask::ReadFile("/g", 0, 9), Gives::Bytes("Shared")),
];

/// The path of a call and its new one, or twice its only one.
fn paths_of(ask: Ask) -> (&'static str, &'static str) {
    match ask {
        Ask::Link(old, new) | Ask::Rename(old, new) | Ask::Exchange(old, new) => (old, new),
        Ask::Mkdir(path, _)
        | Ask::Create(path, _)
        | Ask::Write(path, ..)
        | Ask::ReadFile(path, ..)
        | Ask::Truncate(path, _)
        | Ask::Chmod(path, _)
        | Ask::Unlink(path)
        | Ask::Rmdir(path)
        | Ask::Stat(path)
        | Ask::List(path) => (path, path),
    }
}

fn call_of(alloc: Global, ask: Ask) -> Result<FileCall, Refusal> {
    let (path, new) = paths_of(ask);
    let path = Path::parse(alloc, path.as_bytes())?;
    let new = Path::parse(alloc, new.as_bytes())?;
    Ok(match ask {
        Ask::Mkdir(_, mode) => FileCall::Mkdir { path, mode },
        Ask::Create(_, mode) => FileCall::Create { path, mode },
        Ask::Write(_, offset, text) => FileCall::Write {
            path,
            offset,
            bytes: bytes_of(alloc, text)?,
        },
        Ask::ReadFile(_, offset, count) => FileCall::ReadFile {
            path,
            offset,
            count,
        },
        Ask::Truncate(_, len) => FileCall::Truncate { path, len },
        Ask::Chmod(_, mode) => FileCall::Chmod { path, mode },
        Ask::Link(..) => FileCall::Link { old: path, new },
        Ask::Unlink(_) => FileCall::Unlink { path },
        Ask::Rmdir(_) => FileCall::Rmdir { path },
        Ask::Rename(..) => FileCall::Rename { old: path, new },
        Ask::Exchange(..) => FileCall::Rename2 {
            old: path,
            new,
            flags: RENAME_EXCHANGE,
        },
        Ask::Stat(_) => FileCall::Stat { path },
        Ask::List(_) => FileCall::List { path },
    })
}

/// The counts after a call.
fn next_counts(ready: &Ready, counts: &Counts) -> Result<Counts, Refusal>
    ensures { IfOk result (λ next. counts.now.next_number + numbers_of ready.now.plan.call ≡ next.next_number) }
{
    let Some(next_number) = counts.next_number.checked_add(ready.numbers()) else {
        return Err(Refusal::NumbersSpent);
    };
    let next_cookie = counts.next_cookie.checked_add(ready.cookies());
    Ok(Counts {
        next_number,
        next_cookie: next_cookie.unwrap_or(0),
    })
}

/// Carries out a plan, after which the counts are the next ones.
fn carry(
    alloc: Global,
    table: &mut Table,
    plan: &Plan,
    counts: &mut Counts,
    next: Counts,
) -> Result<Answer, Refusal>
    requires ready { IsReady table.old plan.now }
    requires counts { plan.now.counts ≡ counts.old }
    requires next { counts.old.next_number + numbers_of plan.now.call ≡ next.next_number }
    ensures { HasNumbersBelow (world_of table.new) counts.new.next_number }
{
    let answer = carry_out(alloc, table, plan)?;
    *counts = next;
    Ok(answer)
}

/// A table on which calls are made one after another.
#[derive(Drop)]
struct Calls {
    alloc: Global,
    table: Table,
    counts: Counts,
    limits: Limits,
}

impl Model for Calls {
    ghost use Rattle.std.specs.Prelude.{ℕ};
    ghost use Rattle.inode_table.specs.TableWorld.{HasNumbersBelow, world_of};

    ghost Value = { ℕ };

    ghost view = { λ calls. calls.counts.next_cookie };

    ghost invariant = { λ calls. HasNumbersBelow (world_of calls.table) calls.counts.next_number };
}

impl Calls {
    fn new(alloc: Global, limits: Limits) -> Result<Calls, Refusal> {
        Ok(Calls {
            alloc,
            table: opening_table(alloc)?,
            counts: Counts {
                next_number: 2,
                next_cookie: 1,
            },
            limits,
        })
    }

    /// The same calls, to be made on a copy of the table.
    fn fork(&self) -> Result<Calls, Refusal> {
        Ok(Calls {
            alloc: self.alloc,
            table: self.table.copy()?,
            counts: self.counts,
            limits: self.limits,
        })
    }

    fn made(&mut self, call: &FileCall) -> Result<Answer, Refusal> {
        let found = CallPaths::resolve(&self.table, call);
        let paths = Paths::on(&self.table, call, &found);
        let ready = check(&paths, &self.counts, &self.limits)?;
        let next = next_counts(&ready, &self.counts)?;
        let plan = ready.into_plan();
        carry(self.alloc, &mut self.table, &plan, &mut self.counts, next)
    }

    /// Says that all cookies are spent.
    fn spend_cookies(&mut self) {
        self.counts.next_cookie = 0;
    }

    fn path(&self, text: &str) -> Result<Path, Refusal> {
        Path::parse(self.alloc, text.as_bytes())
    }

    fn mkdir(&mut self, text: &str) -> Result<Answer, Refusal> {
        let path = self.path(text)?;
        self.made(&FileCall::Mkdir { path, mode: 0o755 })
    }
}

/// Whether the answer has these names, each with a space behind it.
fn are_names(
    alloc: Global,
    answer: Result<Answer, Refusal>,
    wanted: &str,
) -> Result<bool, Refusal> {
    let Ok(Answer::Names(names)) = answer else {
        return Ok(false);
    };
    let mut text = Vec::new(alloc);
    for name in names.as_slice() {
        text.extend_from_slice(name.bytes())?;
        text.push(b' ')?;
    }
    Ok(text.as_slice() == wanted.as_bytes())
}

fn bytes_of(alloc: Global, text: &str) -> Result<Bytes, Refusal> {
    Ok(Bytes::from_vec(Vec::from_slice(alloc, text.as_bytes())?))
}

/// Whether the answer of a call is the one that is wanted.
fn is_answer(
    alloc: Global,
    answer: Result<Answer, Refusal>,
    wanted: Gives,
) -> Result<bool, Refusal> {
    let wanted = match wanted {
        Gives::Done => Answer::Done,
        Gives::Number(number) => Answer::Number(number),
        Gives::Count(count) => Answer::Count(count),
        Gives::Bytes(text) => Answer::Bytes(bytes_of(alloc, text)?),
        Gives::File(number, mode, links, size) => Answer::Stat {
            number,
            kind: Kind::Regular,
            mode,
            links,
            size,
        },
        Gives::Directory(number, mode) => Answer::Stat {
            number,
            kind: Kind::Directory,
            mode,
            links: 1,
            size: 0,
        },
        Gives::Names(names) => return are_names(alloc, answer, names),
        Gives::Refused(refusal) => return Ok(answer == Err(refusal)),
    };
    Ok(answer == Ok(wanted))
}

/// Makes a call. Whether it gives what it should.
fn is_given(calls: &mut Calls, ask: Ask, wanted: Gives) -> Result<bool, Refusal> {
    let call = call_of(calls.alloc, ask)?;
    let answer = calls.made(&call);
    is_answer(calls.alloc, answer, wanted)
}

/// Makes the calls, each of which gives what it should.
///
/// Tests and what asserts in them return no `Result`: a `?` beside values that are dropped costs seconds to prove.
fn plays(rt: &impl Abort, calls: &mut Calls, steps: &[(Ask, Gives)]) {
    for (ask, wanted) in steps {
        let is_right = is_given(calls, *ask, *wanted).expect(rt, "an answer");
        assert!(rt; is_right, "{ask:?}: {wanted:?}");
    }
}

/// Whether two files are the same.
fn are_same(one: &FileRow, other: &FileRow) -> bool {
    one.number == other.number
        && one.kind == other.kind
        && one.mode == other.mode
        && one.bytes == other.bytes
}

/// Whether both tables have the same paths and the same files.
fn are_alike(one: &Table, other: &Table) -> Result<bool, Refusal> {
    let files = one.files()?;
    let others = other.files()?;
    let are_same = files.iter().zip(&others).all(|(f, g)| are_same(f, g));
    Ok(are_same && files.len() == others.len() && one.flat()? == other.flat()?)
}

/// How many files and how many paths a table has.
fn counted(table: &Table) -> Result<(usize, usize), Refusal> {
    Ok((table.files()?.len(), table.flat()?.len()))
}

/// The table has `count` files, each with one path.
fn counts(rt: &impl Abort, calls: &Calls, count: usize) {
    let (files, paths) = counted(&calls.table).expect(rt, "memory");
    assert!(rt;
        files == count && paths == count,
        "{files} files, {paths} paths"
    );
}

/// A table on which no call was made.
fn new_calls(rt: &impl Abort, alloc: Global, limits: Limits) -> Calls {
    Calls::new(alloc, limits).expect(rt, "memory")
}

/// Files up to number 3, of 4 bytes and 2 paths, and one cookie.
fn small_limits() -> Limits {
    let mut limits = Limits::full();
    limits.numbers = 3;
    limits.file_bytes = 4;
    limits.links = 2;
    limits.cookies = 1;
    limits
}

#[test]
fn calls_give_their_answers(rt: HostRuntime) {
    let mut calls = new_calls(&rt, rt.alloc(), Limits::full());
    counts(&rt, &calls, 1);
    plays(&rt, &mut calls, &STORY);
    // Of the files that lost their last paths nothing is left.
    counts(&rt, &calls, 4);
    let mut limited = new_calls(&rt, rt.alloc(), small_limits());
    plays(&rt, &mut limited, &LIMITED);
}

/// The table that LINKED leaves.
fn linked(rt: &impl Abort, alloc: Global) -> Calls {
    let mut calls = new_calls(rt, alloc, Limits::full());
    plays(rt, &mut calls, &LINKED);
    calls
}

/// The same calls, to be made on a copy of the table.
fn forked(rt: &impl Abort, calls: &Calls) -> Calls {
    calls.fork().expect(rt, "memory")
}

/// Both tables have the same paths and the same files.
fn alike(rt: &impl Abort, one: &Calls, other: &Calls, what: &str) {
    let are_alike = are_alike(&one.table, &other.table).expect(rt, "memory");
    assert!(rt; are_alike, "{what}");
}

#[test]
fn a_copy_shares_nothing(rt: HostRuntime) {
    let control = linked(&rt, rt.alloc());
    let mut calls = linked(&rt, rt.alloc());
    let mut copy = forked(&rt, &calls);
    alike(&rt, &copy, &control, "a copy");
    plays(&rt, &mut copy, &CHANGED);
    alike(&rt, &calls, &control, "the table");
    let other = forked(&rt, &calls);
    plays(&rt, &mut calls, &CHANGED);
    alike(&rt, &other, &control, "another copy");
    alike(&rt, &calls, &copy, "all changes");
}

/// Gives the file at the path these bytes. Whether it is a file and has them.
fn sets_content(
    table: &mut Table,
    path: &Path,
    bytes: Vec<u8>,
    wanted: &[u8],
) -> Result<bool, Refusal> {
    let found = table.resolve(path);
    if table.lookup(&found)?.kind == Kind::Directory {
        return Ok(false);
    }
    table.set_content(&found, bytes);
    let found = table.resolve(path);
    table.lookup(&found)?;
    Ok(table.content(table.key(&found)) == wanted)
}

/// Whether that holds of the file `/g`.
fn sets_bytes(calls: Calls) -> Result<bool, Refusal> {
    let Calls {
        alloc,
        mut table,
        ..
    } = calls;
    let path = Path::parse(alloc, b"/g")?;
    let bytes = Vec::from_slice(alloc, b"bytes")?;
    sets_content(&mut table, &path, bytes, b"bytes")
}

#[test]
fn content_is_set(rt: HostRuntime) {
    let is_set = sets_bytes(linked(&rt, rt.alloc())).expect(&rt, "an answer");
    assert!(rt; is_set, "other bytes");
}

/// Calls, and how many numbers and cookies each takes.
const COUNTS: [(Ask, (u32, u32)); 4] = [
    (Ask::Mkdir("/a", 0o755), (1, 0)),
    (Ask::Rename("/g", "/a"), (0, 1)),
    (Ask::Exchange("/g", "/d"), (0, 2)),
    (Ask::Rename("/g", "/d/f"), (0, 0)),
];

/// Whether a call is the same as its copy, and takes these counts of numbers and cookies.
fn takes(calls: &Calls, ask: Ask, counts: (u32, u32)) -> Result<bool, Refusal> {
    let call = call_of(calls.alloc, ask)?;
    call_takes(calls, &call, counts)
}

fn call_takes(calls: &Calls, call: &FileCall, counts: (u32, u32)) -> Result<bool, Refusal> {
    let copy = call.copy()?;
    Ok(is_copy(calls, call, &copy, counts))
}

fn is_copy(calls: &Calls, call: &FileCall, copy: &FileCall, counts: (u32, u32)) -> bool {
    let found = CallPaths::resolve(&calls.table, call);
    let paths = Paths::on(&calls.table, call, &found);
    match check(&paths, &calls.counts, &calls.limits) {
        Ok(ready) => { ready.call().is_same(copy) && (ready.numbers(), ready.cookies()) == counts }
        Err(_) => false,
    }
}

/// Whether an answer is the same as its copy, and not as another one.
fn is_answer_copied(alloc: Global) -> Result<bool, Refusal> {
    let answer = Answer::Bytes(bytes_of(alloc, "ab")?);
    let copy = answer.copy()?;
    Ok(copy.is_same(&answer) && !copy.is_same(&Answer::Done))
}

/// Calls take as many numbers and cookies as they should.
fn all_take(rt: &impl Abort, calls: &Calls) {
    for (ask, counts) in COUNTS {
        let is_right = takes(calls, ask, counts).expect(rt, "an answer");
        assert!(rt; is_right, "{ask:?}");
    }
}

/// How many numbers and cookies a call takes, and copies of it and of an answer.
#[test]
fn calls_and_answers_are_copied(rt: HostRuntime) {
    let mut calls = linked(&rt, rt.alloc());
    all_take(&rt, &calls);
    let is_copied = is_answer_copied(rt.alloc()).expect(&rt, "memory");
    assert!(rt; is_copied, "the answer");
    calls.spend_cookies();
    plays(&rt, &mut calls, &SPENT);
}
