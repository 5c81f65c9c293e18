//! Fault injection: each allocation of a line, and of an entry as text, fails in turn. Without the shim each is made
//! once.

use super::lines::{FRONT, entry_of, two_names};
use super::*;
use refuser::{refuse, was_refused};
use tree_core::{Reply, State};
use tree_ops::Answer;
use tree_paths::Limits;
use watchtree_script::{append_entry, print_line};

/// More allocations than a line here makes.
const MOST: u32 = 60;

/// What a line prints that runs out of memory.
const LACKS: &[u8] = b"err ENOMEM 12\n";

/// A tree with the directories /d and /d/e, the file /f, and instance 1, and a text long enough for what a line prints.
fn prepared(rt: &impl Abort, alloc: Global) -> (State, Vec<u8>) {
    let mut state = State::new(alloc, Limits::full()).expect(rt, "memory");
    let mut text = Vec::with_capacity(alloc, 999).expect(rt, "memory");
    for line in &["mkdir /d 755", "mkdir /d/e 755", "create /f 644", "init"] {
        let printed = print_line(&mut text, &mut state, QUEUE, 1, line.as_bytes());
        equal(rt, printed, Ok(()));
    }
    (state, text)
}

/// Runs a line whose allocation `k` fails. Returns whether one failed, what comes of it, what is printed, and how many
/// entries there are then.
fn fails_at(
    rt: &impl Abort,
    alloc: Global,
    line: &str,
    k: u32,
) -> (bool, Result<(), RunFault>, Vec<u8>, usize) {
    let (mut state, mut text) = prepared(rt, alloc);
    let _ = refuse(alloc, k);
    let ends = print_line(&mut text, &mut state, QUEUE, 1, line.as_bytes());
    let is_refused = was_refused(alloc);
    (is_refused, ends, text, state.journal().len())
}

/// Each allocation of a line fails in turn: the line is answered `ENOMEM` then, and is no entry. Returns how many it
/// makes.
fn fails_in_turn(rt: &impl Abort, alloc: Global, line: &str, wanted: &str) -> u32 {
    for k in 1..MOST {
        let (is_refused, ends, text, entries) = fails_at(rt, alloc, line, k);
        equal(rt, (line, k, ends), (line, k, Ok(())));
        if !is_refused {
            equal(
                rt,
                (line, text.as_slice(), entries),
                (line, wanted.as_bytes(), 5),
            );
            return k - 1;
        }
        equal(rt, (line, k, text.as_slice(), entries), (line, k, LACKS, 4));
    }
    MOST
}

/// Lines, and what they print. Their words have no escapes and no bytes, so that what fails is an allocation for a path
/// or for the call.
const LINES: [(&str, &str); 8] = [
    ("stat /d/e", "ok 3 d 0755 1 0\n"),
    ("mkdir /d/e/g 755", "ok 5\n"),
    ("rename /d/e /d/g", "ok\n"),
    ("rename2 /d/e /d/g 1", "ok\n"),
    ("link /f /d/f", "ok\n"),
    ("watch 1 /d/e 0xfff", "ok 1\n"),
    ("list /d/e", "ok 0\n"),
    ("truncate /f 9", "ok\n"),
];

#[test]
fn a_line_goes_on_without_memory(rt: HostRuntime) {
    let alloc = rt.alloc();
    let has_refuser = refuse(alloc, MOST);
    let _ = was_refused(alloc);
    for (line, wanted) in &LINES {
        let count = fails_in_turn(&rt, alloc, line, wanted);
        equal(
            &rt,
            (*line, count > 0, count < MOST),
            (*line, has_refuser, true),
        );
    }
}

/// Lines with a text that is no path.
const NO_PATHS: [&str; 5] = [
    "rename /d/e x",
    "rename2 /d/e x 1",
    "link /d/e x",
    "stat x",
    "watch 1 x 0x1",
];

/// A text that is no path is refused as such even where there is no memory for the one before it, and where a word
/// cannot be read there is no call yet.
#[test]
fn words_without_memory(rt: HostRuntime) {
    let alloc = rt.alloc();
    let has_refuser = refuse(alloc, MOST);
    let _ = was_refused(alloc);
    for line in &NO_PATHS {
        let (_, ends, text, entries) = fails_at(&rt, alloc, line, 1);
        equal(&rt, (*line, ends, entries), (*line, Ok(()), 4));
        equal(&rt, text.as_slice(), b"err EINVAL 22\n".as_slice());
    }
    for line in &["stat /%64", "write /f 0 61"] {
        let (_, ends, _, entries) = fails_at(&rt, alloc, line, 1);
        let is_ended = ends == Err(RunFault::Memory);
        equal(
            &rt,
            (*line, is_ended, entries == 4),
            (*line, has_refuser, has_refuser),
        );
    }
}

/// Each allocation of an entry as text fails in turn: the text is then as it was.
#[test]
fn an_entry_without_memory(rt: HostRuntime) {
    let alloc = rt.alloc();
    let entry = entry_of(Reply::File(Answer::Names(two_names(&rt, alloc))));
    let wanted = b"# run 1\nread 1 64\n# ok 2\n#   a%20b\n#   c\n";
    for k in 1..MOST {
        let mut text = Vec::from_slice(alloc, FRONT).expect(&rt, "memory");
        let _ = refuse(alloc, k);
        let is_done = append_entry(&entry, &mut text).is_ok();
        let is_refused = was_refused(alloc);
        let kept = if is_done { wanted.as_slice() } else { FRONT };
        equal(&rt, (k, is_done, text.as_slice()), (k, !is_refused, kept));
        if is_done {
            return;
        }
    }
    equal(&rt, "an entry makes more allocations", "");
}
