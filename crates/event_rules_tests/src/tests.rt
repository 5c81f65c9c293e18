//! The events of calls, line by line. More of them are in scripts.

mod refused;

ghost use Rattle.std.specs.Prelude.{◌≡◌, ◌+◌, IfOk};
ghost use Rattle.inode_table.specs.TableWorld.{HasNumbersBelow, world_of};
ghost use Rattle.tree_ops.specs.After.{numbers_of};
ghost use Rattle.tree_ops.specs.ReadyCall.{IsReady};

use event_rules::*;
use inode_table::Table;
use record_codec::{Bytes, append_record_line, bits};
use std::alloc::Global;
use std::marker::Model;
use std::process::Abort;
use tree_ops::{
    CallPaths, Counts, FileCall, Paths, Plan, RENAME_EXCHANGE, Ready, carry_out, check,
    opening_table,
};
use tree_paths::{Limits, Path, Refusal};
use watch_table::{Mask, Watches};

/// A call on files.
#[derive(Clone, Copy, Debug)]
enum Ask {
    Mkdir(&'static str, u32),
    Create(&'static str, u32),
    Write(&'static str, u64, &'static str),
    ReadFile(&'static str, u64, u32),
    Truncate(&'static str, u64),
    Chmod(&'static str, u32),
    Link(&'static str, &'static str),
    Unlink(&'static str),
    Rmdir(&'static str),
    Rename(&'static str, &'static str),
    Exchange(&'static str, &'static str),
    Stat(&'static str),
    List(&'static str),
}

// Directories 2 and 4, a file 3 with two paths, and files 5 and 6.
const PREPARED: [Ask; 7] = [
    Ask::Mkdir("/d", 0o755),
    Ask::Create("/d/f", 0o644),
    Ask::Link("/d/f", "/g"),
    Ask::Mkdir("/e", 0o755),
    Ask::Create("/h", 0o644),
    Ask::Create("/i", 0o644),
    Ask::Write("/g", 0, "abc"),
];

// The bits of the watch of each file. The descriptors are the numbers of the files.
const WATCHED: [(u32, u32); 6] = [
    (1, 0xfff),
    (2, 0x8000_0180),
    (3, 0xfff),
    (4, 0xfff),
    (5, 0xfff),
    (6, 0x8000_0fff),
];

// A call there, and the events that it raises.
const CALLS: [(Ask, &str); 27] = [
    (
        Ask::Create("/n", 0o644),
        "1 00000100 0 n\n1 00000020 0 n\n1 00000008 0 n\n",
    ),
    (Ask::Create("/d/n", 0o644), "2 00000100 0 n\n2 00008000 0\n"),
    (Ask::Mkdir("/n", 0o755), "1 40000100 0 n\n"),
    (
        Ask::Write("/g", 5, "xyz"),
        "1 00000020 0 g\n3 00000020 0\n1 00000002 0 g\n3 00000002 0\n1 00000008 0 g\n3 00000008 0\n",
    ),
    (
        Ask::Write("/g", 0, ""),
        "1 00000020 0 g\n3 00000020 0\n1 00000008 0 g\n3 00000008 0\n",
    ),
    (
        Ask::ReadFile("/g", 2, 9),
        "1 00000020 0 g\n3 00000020 0\n1 00000001 0 g\n3 00000001 0\n1 00000010 0 g\n3 00000010 0\n",
    ),
    (
        Ask::ReadFile("/g", 3, 9),
        "1 00000020 0 g\n3 00000020 0\n1 00000010 0 g\n3 00000010 0\n",
    ),
    (
        Ask::ReadFile("/g", 0, 0),
        "1 00000020 0 g\n3 00000020 0\n1 00000010 0 g\n3 00000010 0\n",
    ),
    (Ask::Truncate("/g", 9), "1 00000002 0 g\n3 00000002 0\n"),
    (Ask::Chmod("/g", 0o700), "1 00000004 0 g\n3 00000004 0\n"),
    (Ask::Chmod("/e", 0o755), "1 40000004 0 e\n4 40000004 0\n"),
    (Ask::Chmod("/", 0o700), "1 40000004 0\n"),
    (Ask::Link("/g", "/n"), "3 00000004 0\n1 00000100 0 n\n"),
    (Ask::Unlink("/g"), "3 00000004 0\n1 00000200 0 g\n"),
    (Ask::Unlink("/d/f"), "3 00000004 0\n"),
    (
        Ask::Unlink("/h"),
        "5 00000004 0\n5 00000400 0\n5 00008000 0\n1 00000200 0 h\n",
    ),
    (
        Ask::Unlink("/i"),
        "6 00000004 0\n6 00008000 0\n1 00000200 0 i\n",
    ),
    (
        Ask::Rmdir("/e"),
        "4 00000400 0\n4 00008000 0\n1 40000200 0 e\n",
    ),
    (
        Ask::Rename("/g", "/h"),
        "1 00000040 1 g\n1 00000080 1 h\n5 00000004 0\n5 00000400 0\n5 00008000 0\n3 00000800 0\n",
    ),
    (
        Ask::Rename("/h", "/d/f"),
        "1 00000040 1 h\n2 00000080 1 f\n2 00008000 0\n3 00000004 0\n5 00000800 0\n",
    ),
    (
        Ask::Rename("/d", "/e"),
        "1 40000040 1 d\n1 40000080 1 e\n4 00000400 0\n4 00008000 0\n",
    ),
    (
        Ask::Rename("/h", "/e/n"),
        "1 00000040 1 h\n4 00000080 1 n\n5 00000800 0\n",
    ),
    (Ask::Rename("/g", "/d/f"), ""),
    (Ask::Rename("/g", "/g"), ""),
    (
        Ask::Exchange("/g", "/h"),
        "1 00000040 1 g\n1 00000080 1 h\n3 00000800 0\n1 00000040 2 h\n1 00000080 2 g\n5 00000800 0\n",
    ),
    (Ask::Stat("/g"), ""),
    (Ask::List("/d"), ""),
];

/// The path of a call and its new one, or twice its only one.
fn paths_of(ask: Ask) -> (&'static str, &'static str) {
    match ask {
        Ask::Link(old, new) | Ask::Rename(old, new) | Ask::Exchange(old, new) => (old, new),
        Ask::Mkdir(path, _)
        | Ask::Create(path, _)
        | Ask::Write(path, ..)
        | Ask::ReadFile(path, ..)
        | Ask::Truncate(path, _)
        | Ask::Chmod(path, _)
        | Ask::Unlink(path)
        | Ask::Rmdir(path)
        | Ask::Stat(path)
        | Ask::List(path) => (path, path),
    }
}

fn call_of(alloc: Global, ask: Ask) -> Result<FileCall, Refusal> {
    let (path, new) = paths_of(ask);
    let path = Path::parse(alloc, path.as_bytes())?;
    let new = Path::parse(alloc, new.as_bytes())?;
    Ok(match ask {
        Ask::Mkdir(_, mode) => FileCall::Mkdir { path, mode },
        Ask::Create(_, mode) => FileCall::Create { path, mode },
        Ask::Write(_, offset, text) => FileCall::Write {
            path,
            offset,
            bytes: Bytes::from_vec(Vec::from_slice(alloc, text.as_bytes())?),
        },
        Ask::ReadFile(_, offset, count) => FileCall::ReadFile {
            path,
            offset,
            count,
        },
        Ask::Truncate(_, len) => FileCall::Truncate { path, len },
        Ask::Chmod(_, mode) => FileCall::Chmod { path, mode },
        Ask::Link(..) => FileCall::Link { old: path, new },
        Ask::Unlink(_) => FileCall::Unlink { path },
        Ask::Rmdir(_) => FileCall::Rmdir { path },
        Ask::Rename(..) => FileCall::Rename { old: path, new },
        Ask::Exchange(..) => FileCall::Rename2 {
            old: path,
            new,
            flags: RENAME_EXCHANGE,
        },
        Ask::Stat(_) => FileCall::Stat { path },
        Ask::List(_) => FileCall::List { path },
    })
}

/// The number of the next file after a call.
fn next_number(ready: &Ready, counts: &Counts) -> Result<u32, Refusal>
    ensures { IfOk result (λ next. counts.now.next_number + numbers_of ready.now.plan.call ≡ next) }
{
    match counts.next_number.checked_add(ready.numbers()) {
        Some(next_number) => Ok(next_number),
        None => Err(Refusal::NumbersSpent),
    }
}

/// Carries out a plan, after which this is the number of the next file.
fn carry(
    alloc: Global,
    table: &mut Table,
    plan: &Plan,
    counts: &mut Counts,
    next_number: u32,
) -> Result<(), Refusal>
    requires ready { IsReady table.old plan.now }
    requires counts { plan.now.counts ≡ counts.old }
    requires next { counts.old.next_number + numbers_of plan.now.call ≡ next_number }
    ensures { HasNumbersBelow (world_of table.new) counts.new.next_number }
{
    carry_out(alloc, table, plan)?;
    counts.next_number = next_number;
    Ok(())
}

/// A table on which calls are made one after another.
#[derive(Drop)]
struct Calls {
    alloc: Global,
    table: Table,
    counts: Counts,
}

impl Model for Calls {
    ghost use Rattle.std.specs.Prelude.{ℕ};
    ghost use Rattle.inode_table.specs.TableWorld.{HasNumbersBelow, world_of};

    ghost Value = { ℕ };

    ghost view = { λ calls. calls.counts.next_cookie };

    ghost invariant = { λ calls. HasNumbersBelow (world_of calls.table) calls.counts.next_number };
}

impl Calls {
    fn new(alloc: Global) -> Result<Calls, Refusal> {
        Ok(Calls {
            alloc,
            table: opening_table(alloc)?,
            counts: Counts {
                next_number: 2,
                next_cookie: 1,
            },
        })
    }

    /// The table after the prepared calls.
    fn prepared(alloc: Global) -> Result<Calls, Refusal> {
        let mut calls = Calls::new(alloc)?;
        for ask in PREPARED {
            let call = call_of(alloc, ask)?;
            calls.make(&call)?;
        }
        Ok(calls)
    }

    fn make(&mut self, call: &FileCall) -> Result<(), Refusal> {
        let found = CallPaths::resolve(&self.table, call);
        let paths = Paths::on(&self.table, call, &found);
        let ready = check(&paths, &self.counts, &Limits::full())?;
        let next_number = next_number(&ready, &self.counts)?;
        let plan = ready.into_plan();
        carry(
            self.alloc,
            &mut self.table,
            &plan,
            &mut self.counts,
            next_number,
        )
    }

    /// The notices that a call would have.
    fn noticed<A: Audience>(&self, call: &FileCall, audience: &A) -> Result<Notices, Refusal> {
        let found = CallPaths::resolve(&self.table, call);
        let paths = Paths::on(&self.table, call, &found);
        let ready = check(&paths, &self.counts, &Limits::full())?;
        let next_cookie = self.counts.next_cookie;
        if next_cookie.checked_add(ready.cookies()).is_none() {
            return Err(Refusal::CookiesSpent);
        }
        let mut told = Notices::new(self.alloc);
        notices(&ready, next_cookie, audience, &mut told)?;
        Ok(told)
    }
}

/// Each file is watched.
#[derive(Drop)]
struct Everybody;

impl Audience for Everybody {
    ghost use Rattle.std.specs.Prelude.{true};

    ghost may_watch = { λ _ _. true };

    fn may_be_watched(&self, _number: u32) -> bool {
        true
    }
}

/// The files of these watches are watched.
#[derive(Drop)]
struct Watchers<'a>(&'a Watches);

impl<'a> Audience for Watchers<'a> {
    ghost use Rattle.std.specs.Prelude.{is_some};
    ghost use Rattle.watch_table.specs.Watching.{watch_of};

    ghost may_watch = { λ w number. is_some (watch_of w.0.now number) };

    fn may_be_watched(&self, number: u32) -> bool {
        self.0.of(number).is_some()
    }
}

/// The number of the instance.
const ID: u32 = 7;

/// The watches of the instance.
fn watching(alloc: Global) -> Result<Watches, Refusal> {
    let mut watches = Watches::new(alloc, &Limits::full());
    for (number, bits) in WATCHED {
        let mask = Mask::of(bits);
        if let Some(refusal) = mask.fault() {
            return Err(refusal);
        }
        watches.add(number, mask, false)?;
    }
    Ok(watches)
}

/// The lines of the events.
fn lines_of(alloc: Global, staged: &Staged) -> Result<Vec<u8>, Refusal> {
    let mut text = Vec::new(alloc);
    for heard in &staged.events {
        append_record_line(&heard.event, &mut text)?;
        text.push(b'\n')?;
    }
    Ok(text)
}

/// Whether all is for the instance, and the watches that end are those with an event that says so.
fn are_ended(staged: &Staged) -> bool {
    let mut drops = staged.drops.iter();
    for heard in &staged.events {
        if heard.id != ID {
            return false;
        }
        let ended = StagedEnd {
            id: ID,
            wd: heard.event.wd,
        };
        if heard.event.mask == bits::IN_IGNORED && drops.next() != Some(&ended) {
            return false;
        }
    }
    drops.next().is_none()
}

/// Whether these notices raise the events of the lines, and end the watches that say so.
fn raise_lines(
    alloc: Global,
    watches: &Watches,
    told: &Notices,
    lines: &str,
) -> Result<bool, Refusal> {
    let mut staged = Staged::new(alloc);
    stage(ID, watches, told.as_slice(), &mut staged)?;
    let are_lines = lines_of(alloc, &staged)?.as_slice() == lines.as_bytes();
    Ok(are_lines && are_ended(&staged))
}

/// Whether each notice is of a file that is watched.
fn are_watched(watches: &Watches, told: &Notices) -> bool {
    for notice in told.as_slice() {
        if watches.of(notice.number()).is_none() {
            return false;
        }
    }
    true
}

/// Whether a call raises the events of the lines where each file has notices.
fn raises_of_all(
    calls: &Calls,
    watches: &Watches,
    call: &FileCall,
    lines: &str,
) -> Result<bool, Refusal> {
    let told = calls.noticed(call, &Everybody)?;
    raise_lines(calls.alloc, watches, &told, lines)
}

/// Whether it raises them where just the watched files have notices.
fn raises_of_watched(
    calls: &Calls,
    watches: &Watches,
    call: &FileCall,
    lines: &str,
) -> Result<bool, Refusal> {
    let told = calls.noticed(call, &Watchers(watches))?;
    let is_enough = raise_lines(calls.alloc, watches, &told, lines)?;
    Ok(is_enough && are_watched(watches, &told))
}

fn raises_of_both(
    calls: &Calls,
    watches: &Watches,
    call: &FileCall,
    lines: &str,
) -> Result<bool, Refusal> {
    let is_right = raises_of_all(calls, watches, call, lines)?;
    let is_enough = raises_of_watched(calls, watches, call, lines)?;
    Ok(is_right && is_enough)
}

/// Whether a call raises the events of the lines, in both ways. A `?` beside a call, which is dropped there, costs
/// seconds to prove.
fn raises(calls: &Calls, watches: &Watches, ask: Ask, lines: &str) -> Result<bool, Refusal> {
    let call = call_of(calls.alloc, ask)?;
    raises_of_both(calls, watches, &call, lines)
}

/// The line of the event that ends the watch of this descriptor.
fn ignored_line(alloc: Global, wd: i32) -> Result<Vec<u8>, Refusal> {
    let mut text = Vec::new(alloc);
    append_record_line(&ignored(wd), &mut text)?;
    Ok(text)
}

/// Each call raises its events.
fn each_raises(rt: &impl Abort, calls: &Calls, watches: &Watches) {
    for (ask, lines) in CALLS {
        let is_right = raises(calls, watches, ask, lines).expect(rt, "an answer");
        assert!(rt; is_right, "{ask:?}");
    }
}

#[test]
fn calls_raise_events(rt: HostRuntime) {
    let alloc = rt.alloc();
    let calls = Calls::prepared(alloc).expect(&rt, "memory");
    let watches = watching(alloc).expect(&rt, "memory");
    each_raises(&rt, &calls, &watches);
    let text = ignored_line(alloc, 7).expect(&rt, "memory");
    assert!(rt; text.as_slice() == b"7 00008000 0".as_slice(), "{text:?}");
}
