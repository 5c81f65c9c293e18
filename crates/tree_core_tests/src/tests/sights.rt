//! What is seen of a tree without a call, also once it was cut.

use super::*;

/// What is done, or what is then seen.
#[derive(Clone, Copy)]
enum Step {
    /// Calls are made, none of which is refused.
    Does(&'static [Ask<'static>]),
    /// The journal is cut after the entry of this sequence number.
    Cuts(u64),
    /// How many entries the journal has, and how many more it takes.
    Entries(usize, u64),
    /// The reply of the entry with this sequence number.
    Entry(u64, Option<Gives<'static>>),
    /// The instances that watch the file of this number.
    Watchers(u32, &'static [u32]),
    /// How many records wait in an instance, and how many bytes they take.
    Waits(u32, Option<usize>, Option<usize>),
    /// How many instances have a record waiting, and what is then in a buffer for three numbers.
    Ready(usize, [u32; 3]),
    /// The first path of the file of this number.
    Leads(u64, Option<&'static str>),
    /// What a peek at a path gives.
    Stat(&'static str, Gives<'static>),
    Names(&'static str, &'static [&'static str]),
    Bytes(&'static str, u64, Result<&'static str, Refusal>),
    /// The sequence number, the next file number, the next cookie, the next instance, and how many instances are open
    /// at the last cut.
    Snapshot(u64, u32, u32, u32, usize),
}

/// What a tree says of itself.
const SAYS: [Step; 53] = [
    Step::Entries(0, 1_000_000),
    Step::Leads(1, Some("/")),
    Step::Does(&[
        Ask::Create("/f"),
        Ask::Init(10),
        Ask::Init(10),
        Ask::Init(10),
        Ask::Watch(2, "/f", 0x2),
        Ask::Watch(1, "/f", 0x8000_0004),
        Ask::Watch(3, "/", 0x4),
    ]),
    Step::Watchers(2, &[1, 2]),
    Step::Watchers(1, &[3]),
    Step::Watchers(3, &[]),
    Step::Ready(0, [9, 9, 9]),
    Step::Does(&[Ask::Chmod("/f", 0o600)]),
    Step::Watchers(2, &[2]),
    Step::Ready(2, [1, 3, 9]),
    Step::Waits(0, None, None),
    Step::Waits(1, Some(2), Some(32)),
    Step::Waits(2, Some(0), Some(0)),
    Step::Waits(3, Some(1), Some(32)),
    Step::Waits(4, None, None),
    Step::Does(&[Ask::Read(1, ALL), Ask::Unwatch(2, 1)]),
    Step::Ready(2, [2, 3, 9]),
    Step::Watchers(2, &[]),
    Step::Does(&[Ask::Watch(1, "/f", 0x2)]),
    Step::Watchers(2, &[1]),
    Step::Does(&[Ask::Write("/f", 0, "abc"), Ask::Mkdir("/d")]),
    Step::Stat("/f", Gives::File(2, 0o600, 1, 3)),
    Step::Stat("/g", Gives::Refused(Refusal::Enoent)),
    Step::Names("/", &["d", "f"]),
    Step::Bytes("/f", 1, Ok("bc")),
    Step::Bytes("/d", 0, Err(Refusal::Eisdir)),
    Step::Does(&[Ask::Link("/f", "/d/z")]),
    Step::Leads(3, Some("/d")),
    Step::Leads(2, Some("/d/z")),
    Step::Does(&[Ask::Rename("/d", "/y")]),
    Step::Leads(2, Some("/f")),
    Step::Does(&[Ask::Unlink("/f")]),
    Step::Leads(2, Some("/y/z")),
    Step::Does(&[Ask::Unlink("/y/z")]),
    Step::Leads(2, None),
    Step::Leads((1 << 32) + 1, None),
    Step::Watchers(2, &[]),
    Step::Entries(17, 999_983),
    Step::Entry(1, Some(Gives::Number(2))),
    Step::Snapshot(0, 2, 1, 1, 0),
    Step::Cuts(17),
    Step::Snapshot(17, 4, 2, 4, 3),
    Step::Entries(0, 1_000_000),
    Step::Does(&[Ask::Create("/f"), Ask::Close(3)]),
    Step::Watchers(1, &[]),
    Step::Waits(3, None, None),
    Step::Entry(0, None),
    Step::Entry(1, None),
    Step::Entry(17, None),
    Step::Entry(18, Some(Gives::Number(4))),
    Step::Entry(19, Some(Gives::Done)),
    Step::Entry(20, None),
    Step::Entry(u64::MAX, None),
];

/// Whether it is seen.
fn is_seen(rt: &impl Abort, alloc: Global, tree: &State, step: Step) -> bool {
    match step {
        Step::Entries(count, free) => {
            let has_last = tree.last_entry().is_some();
            tree.journal().len() == count && tree.free_entries() == free && has_last == (count > 0)
        }
        Step::Entry(place, wanted) => match (tree.entry(place), wanted) {
            (Some(entry), Some(gives)) => entry.reply == reply(rt, alloc, gives),
            (None, None) => true,
            _ => false,
        },
        Step::Watchers(number, ids) => tree.watchers(number) == ids,
        Step::Waits(id, records, bytes) => {
            tree.waiting(id) == records && tree.bytes_waiting(id) == bytes
        }
        Step::Ready(count, ids) => {
            let mut out = [9; 3];
            tree.ready(&mut out) == count && out == ids && tree.ready(&mut []) == count
        }
        Step::Leads(number, wanted) => match (tree.path_of(number), wanted) {
            (Ok(Some(found)), Some(text)) => found == path(rt, alloc, text),
            (Ok(None), None) => true,
            _ => false,
        },
        Step::Snapshot(place, next_number, next_cookie, next_id, count) => {
            let kept = tree.snapshot();
            (kept.place, kept.next_number) == (place, next_number)
                && (kept.next_cookie, kept.next_id) == (next_cookie, next_id)
                && kept.instances.len() == count
        }
        step => is_peeked(rt, alloc, tree, step),
    }
}

/// Whether a peek gives it.
fn is_peeked(rt: &impl Abort, alloc: Global, tree: &State, step: Step) -> bool {
    match step {
        Step::Stat(text, gives) => {
            let seen = match tree.peek_stat(&path(rt, alloc, text)) {
                Ok(answer) => Reply::File(answer),
                Err(refusal) => Reply::Refused(refusal),
            };
            seen == reply(rt, alloc, gives)
        }
        Step::Names(text, wanted) => {
            tree.peek_names(&path(rt, alloc, text)) == Ok(names(rt, alloc, wanted))
        }
        Step::Bytes(text, offset, wanted) => {
            match (tree.peek_bytes(&path(rt, alloc, text), offset, ALL), wanted) {
                (Ok(bytes), Ok(text)) => bytes == text.as_bytes(),
                (Err(refusal), Err(wanted)) => refusal == wanted,
                _ => false,
            }
        }
        _ => false,
    }
}

#[test]
fn what_a_tree_says_of_itself(rt: HostRuntime) {
    let alloc = rt.alloc();
    let mut tree = opened(&rt, alloc, Limits::full());
    for (at, step) in SAYS.iter().enumerate() {
        match *step {
            Step::Does(asks) => does(&rt, alloc, &mut tree, asks),
            Step::Cuts(place) => equal(&rt, tree.cut(), Ok(place)),
            step => holds(&rt, at, is_seen(&rt, alloc, &tree, step)),
        }
    }
}
