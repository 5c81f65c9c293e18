//! The parts of `upkeep` in which names are long, and directories move between other calls.

use crate::desk::{Desk, Length};
use tree_core::State;
use tree_ops::{FileCall, RENAME_EXCHANGE};
use tree_paths::Path;

/// How often a round calls on long names, and how many these are.
const LONG_CALLS: u64 = 2000;

const LONG_NAMES: u64 = 40;

/// How many times a round moves a directory.
const MOVES: u64 = 3000;

/// The path of a file with a long name.
fn long_file(desk: &mut Desk, front: &str, file: u64) -> Path {
    desk.named("/e/", front, file, Length::Long)
}

/// One or two calls on files with long names, after which each of these stands again.
fn long_calls(desk: &mut Desk, state: &mut State) {
    let file = desk.rng.below(LONG_NAMES);
    let path = long_file(desk, "", file);
    match desk.rng.below(8) {
        0..3 => {
            let draft = long_file(desk, ".", file);
            desk.create(state, draft);
            let old = long_file(desk, ".", file);
            desk.file(state, FileCall::Rename { old, new: path });
        }
        3 | 4 => {
            let write = desk.write(path, 5);
            desk.file(state, write);
        }
        5 => desk.file(state, FileCall::Stat { path }),
        6 => {
            let other = desk.rng.below(LONG_NAMES);
            let new = long_file(desk, "", other);
            desk.file(state, FileCall::Rename { old: path, new });
            let path = long_file(desk, "", file);
            desk.create(state, path);
        }
        _ => {
            desk.file(state, FileCall::Unlink { path });
            let path = long_file(desk, "", file);
            desk.create(state, path);
        }
    }
}

/// Calls on files with names of 148 to 255 bytes, in a directory that two instances watch, and now and then a list.
#[inline(never)]
pub(crate) fn go_long(desk: &mut Desk) {
    let Some(mut state) = desk.open() else {
        return;
    };
    let path = desk.path("/e");
    desk.mkdir(&mut state, path);
    for file in 0..LONG_NAMES {
        let path = long_file(desk, "", file);
        desk.create(&mut state, path);
    }
    desk.init(&mut state, 2);
    for instance in 1..3 {
        let path = desk.path("/e");
        desk.watch(&mut state, instance, path, 0xfce);
    }
    for at in 0..LONG_CALLS {
        long_calls(desk, &mut state);
        if at % 16 == 0 {
            desk.read_some(&mut state, 2);
        }
        if at % 128 == 0 {
            let path = desk.path("/e");
            desk.file(&mut state, FileCall::List { path });
        }
    }
}

/// Two directories in the root are exchanged, or, each fourth time, one is moved, and back the next time.
fn move_folder(desk: &mut Desk, state: &mut State, at: u64) {
    let call = match at % 8 {
        3 => FileCall::Rename {
            old: desk.path("/a4"),
            new: desk.path("/b"),
        },
        7 => FileCall::Rename {
            old: desk.path("/b"),
            new: desk.path("/a4"),
        },
        _ => {
            let top = desk.rng.below(4);
            let other = desk.rng.below(3).wrapping_add(top).wrapping_add(1) % 4;
            FileCall::Rename2 {
                old: desk.numbered("/a", top),
                new: desk.numbered("/a", other),
                flags: RENAME_EXCHANGE,
            }
        }
    };
    desk.file(state, call);
}

/// One or two calls on a file in a directory that moved or in the root, or below a directory that is missing.
fn call_between(desk: &mut Desk, state: &mut State) {
    let top = desk.rng.below(4);
    let file = desk.rng.below(10);
    let path = desk.inner("/a", top, "/f", file);
    match desk.rng.below(8) {
        0 | 1 => desk.file(state, FileCall::Stat { path }),
        2 => {
            let write = desk.write(path, 3);
            desk.file(state, write);
        }
        3 => {
            let draft = desk.inner("/a", top, "/t", file);
            desk.create(state, draft);
            let old = desk.inner("/a", top, "/t", file);
            desk.file(state, FileCall::Rename { old, new: path });
        }
        4 => {
            let path = desk.numbered("/f", file);
            desk.file(state, FileCall::Stat { path });
        }
        5 => {
            let old = desk.numbered("/f", file);
            let new = desk.numbered("/g", file);
            desk.file(state, FileCall::Rename { old, new });
            let path = desk.numbered("/f", file);
            desk.create(state, path);
        }
        6 => {
            let path = desk.numbered("/missing", top);
            desk.file(state, FileCall::Stat { path });
        }
        _ => {
            let path = desk.inner("/missing/", top, "/f", file);
            desk.create(state, path);
        }
    }
}

/// Directories move in a fork of a tree, with calls after each move.
#[inline(never)]
pub(crate) fn move_folders(desk: &mut Desk, moved: &State) {
    let Some(mut state) = desk.fork(moved) else {
        return;
    };
    for at in 0..MOVES {
        move_folder(desk, &mut state, at);
        call_between(desk, &mut state);
    }
}
