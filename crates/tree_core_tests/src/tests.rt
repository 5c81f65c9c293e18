//! The tree from outside: what no script can show. Scripts show the answers and the events of calls.

mod cuts;
mod journals;
mod refused;
mod sights;

use inode_table::Kind;
use record_codec::{Bytes, Event, Events, Name, encode};
use std::alloc::Global;
use std::fmt::Debug;
use std::process::Abort;
use tree_core::{Call, Entry, Kept, Receipt, Reply, State};
use tree_ops::{Answer, FileCall, RENAME_EXCHANGE};
use tree_paths::{Limits, Names, Path, Refusal};

/// What was got is what is wanted. Tests assert in these two functions, and the helpers end the test where a call
/// fails: a macro or a `?` in a long body costs seconds to prove.
fn equal<T: PartialEq + Debug + Drop>(rt: &impl Abort, got: T, wanted: T) {
    assert_eq!(rt; got, wanted);
}

/// It is so in this case.
fn holds<C: Debug + Drop>(rt: &impl Abort, case: C, is_so: bool) {
    assert!(rt; is_so, "{case:?}");
}

/// Who makes the calls.
const CALLER: u32 = 7;

/// The size of a buffer for all that waits, in bytes.
const ALL: u32 = 4096;

/// A record: the descriptor, the mask, the cookie, and the name, which is empty where it has none.
type Record<'a> = (i32, u32, u32, &'a str);

/// A call.
#[derive(Clone, Copy, Debug)]
enum Ask<'a> {
    Create(&'a str),
    Mkdir(&'a str),
    Write(&'a str, u64, &'a str),
    ReadFile(&'a str, u64, u32),
    Truncate(&'a str, u64),
    Chmod(&'a str, u32),
    Link(&'a str, &'a str),
    Unlink(&'a str),
    Rmdir(&'a str),
    Rename(&'a str, &'a str),
    Exchange(&'a str, &'a str),
    Stat(&'a str),
    List(&'a str),
    Init(u32),
    InitPiped(u32),
    Watch(u32, &'a str, u32),
    Unwatch(u32, i32),
    Read(u32, u32),
    Pump(u32, u32),
    Close(u32),
}

/// A reply.
#[derive(Clone, Copy)]
enum Gives<'a> {
    Number(u32),
    Count(u64),
    /// The reply of a call on files that has no other one.
    Filed,
    Contents(&'a str),
    Names(&'a [&'a str]),
    /// The number, the mode, the links and the size.
    File(u32, u32, u64, u64),
    Directory(u32, u32),
    Instance(u32),
    Wd(i32),
    Done,
    Records(&'a [Record<'a>]),
    Refused(Refusal),
}

/// A tree of the root alone.
fn opened(rt: &impl Abort, alloc: Global, limits: Limits) -> State {
    State::new(alloc, limits).expect(rt, "a tree")
}

fn path(rt: &impl Abort, alloc: Global, text: &str) -> Path {
    Path::parse(alloc, text.as_bytes()).expect(rt, "a path")
}

fn bytes(rt: &impl Abort, alloc: Global, text: &str) -> Bytes {
    Bytes::from_vec(Vec::from_slice(alloc, text.as_bytes()).expect(rt, "memory"))
}

/// A call that is made at one path, and has no bytes.
fn at(path: Path, ask: Ask) -> FileCall {
    match ask {
        Ask::Create(_) => FileCall::Create { path, mode: 0o644 },
        Ask::Mkdir(_) => FileCall::Mkdir { path, mode: 0o755 },
        Ask::ReadFile(_, offset, count) => FileCall::ReadFile {
            path,
            offset,
            count,
        },
        Ask::Truncate(_, len) => FileCall::Truncate { path, len },
        Ask::Chmod(_, mode) => FileCall::Chmod { path, mode },
        Ask::Unlink(_) => FileCall::Unlink { path },
        Ask::Rmdir(_) => FileCall::Rmdir { path },
        Ask::Stat(_) => FileCall::Stat { path },
        _ => FileCall::List { path },
    }
}

/// A call that is made at two paths.
fn between(old: Path, new: Path, ask: Ask) -> FileCall {
    match ask {
        Ask::Link(_, _) => FileCall::Link { old, new },
        Ask::Rename(_, _) => FileCall::Rename { old, new },
        _ => FileCall::Rename2 {
            old,
            new,
            flags: RENAME_EXCHANGE,
        },
    }
}

/// The call.
fn call(rt: &impl Abort, alloc: Global, ask: Ask) -> Call {
    match ask {
        Ask::Init(limit) => Call::Init {
            limit,
            piped: false,
        },
        Ask::InitPiped(limit) => Call::Init { limit, piped: true },
        Ask::Watch(instance, text, mask) => Call::AddWatch {
            instance,
            path: path(rt, alloc, text),
            mask,
        },
        Ask::Unwatch(instance, wd) => Call::RmWatch { instance, wd },
        Ask::Read(instance, bytes) => Call::Read { instance, bytes },
        Ask::Pump(instance, bytes) => Call::Pump { instance, bytes },
        Ask::Close(instance) => Call::Close { instance },
        Ask::Write(text, offset, written) => Call::File(FileCall::Write {
            path: path(rt, alloc, text),
            offset,
            bytes: bytes(rt, alloc, written),
        }),
        Ask::Link(old, new) | Ask::Rename(old, new) | Ask::Exchange(old, new) => {
            let (old, new) = (path(rt, alloc, old), path(rt, alloc, new));
            Call::File(between(old, new, ask))
        }
        Ask::Create(text)
        | Ask::Mkdir(text)
        | Ask::ReadFile(text, _, _)
        | Ask::Truncate(text, _)
        | Ask::Chmod(text, _)
        | Ask::Unlink(text)
        | Ask::Rmdir(text)
        | Ask::Stat(text)
        | Ask::List(text) => Call::File(at(path(rt, alloc, text), ask)),
    }
}

/// Names of a directory.
fn names(rt: &impl Abort, alloc: Global, texts: &[&str]) -> Names {
    let mut names = Vec::new(alloc);
    for text in texts {
        if let Some(name) = Name::new(alloc, text.as_bytes()).expect(rt, "memory") {
            names.push(name).expect(rt, "memory");
        }
    }
    Names::from_vec(names)
}

/// The bytes of events.
fn spelled(rt: &impl Abort, alloc: Global, events: &[Event]) -> Bytes {
    Bytes::from_vec(encode(alloc, events).expect(rt, "memory"))
}

/// The bytes of these records.
fn records(rt: &impl Abort, alloc: Global, lines: &[Record]) -> Bytes {
    let mut events = Vec::new(alloc);
    for (wd, mask, cookie, name) in lines {
        let name = Name::new(alloc, name.as_bytes()).expect(rt, "memory");
        let event = Event {
            wd: *wd,
            mask: *mask,
            cookie: *cookie,
            name,
        };
        events.push(event).expect(rt, "memory");
    }
    spelled(rt, alloc, events.as_slice())
}

/// The reply.
fn reply(rt: &impl Abort, alloc: Global, gives: Gives) -> Reply {
    Reply::File(match gives {
        Gives::Number(number) => Answer::Number(number),
        Gives::Count(count) => Answer::Count(count),
        Gives::Filed => Answer::Done,
        Gives::Contents(text) => Answer::Bytes(bytes(rt, alloc, text)),
        Gives::Names(texts) => Answer::Names(names(rt, alloc, texts)),
        Gives::File(number, mode, links, size) => Answer::Stat {
            number,
            kind: Kind::Regular,
            mode,
            links,
            size,
        },
        Gives::Directory(number, mode) => Answer::Stat {
            number,
            kind: Kind::Directory,
            mode,
            links: 1,
            size: 0,
        },
        Gives::Instance(id) => return Reply::Instance(id),
        Gives::Wd(wd) => return Reply::Wd(wd),
        Gives::Done => return Reply::Done,
        Gives::Records(lines) => return Reply::Records(records(rt, alloc, lines)),
        Gives::Refused(refusal) => return Reply::Refused(refusal),
    })
}

/// Which of the ways a call goes: `apply`, `record`, or `keep` and, of a pump, `pump`.
#[derive(Clone, Copy, Debug)]
enum Way {
    Apply,
    Record,
    Keep,
}

/// All ways.
const WAYS: [Way; 3] = [Way::Apply, Way::Record, Way::Keep];

/// What a call gives in its way: the sequence number, and where it gives them the reply, what is kept of it, and the
/// records of a pump.
#[derive(Drop)]
struct Given {
    place: u64,
    reply: Option<Reply>,
    kept: Option<Kept>,
    events: Option<Events>,
}

/// Makes a call in this way.
fn made(tree: &mut State, call: Call, way: Way) -> Result<Given, Refusal> {
    let (receipt, kept, events) = match (way, call) {
        (Way::Record, call) => {
            return Ok(Given {
                place: tree.record(CALLER, call)?,
                reply: None,
                kept: None,
                events: None,
            });
        }
        (Way::Apply, call) => (tree.apply(CALLER, call)?, None, None),
        (Way::Keep, Call::Pump { instance, bytes }) => {
            let (receipt, kept, events) = tree.pump(CALLER, instance, bytes)?;
            (receipt, Some(kept), events)
        }
        (Way::Keep, call) => {
            let (receipt, kept) = tree.keep(CALLER, call)?;
            (receipt, Some(kept), None)
        }
    };
    Ok(Given {
        place: receipt.place,
        reply: Some(receipt.reply),
        kept,
        events,
    })
}

/// Whether the last call was not refused.
fn is_done(tree: &State) -> bool {
    match tree.last_entry() {
        Some(entry) => !matches!(entry.reply, Reply::Refused(_)),
        None => true,
    }
}

/// Makes the calls, none of which is refused.
fn does(rt: &impl Abort, alloc: Global, tree: &mut State, asks: &[Ask]) {
    for ask in asks {
        let made = tree.record(CALLER, call(rt, alloc, *ask));
        holds(rt, *ask, made.is_ok() && is_done(tree));
    }
}
