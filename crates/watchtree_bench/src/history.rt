//! A tree as a library's caller has it: 300 directories of 100 files each, whole directories moved and exchanged, looks
//! without a journal, cuts, forks that go their own way, and the journal printed as a script. One instance watches all
//! directories. A name has at most 16 bytes, and a path three names.

use crate::answers::{add_names, add_refusal};
use crate::desk::Desk;
use crate::digest::Digest;
use crate::fault::BenchFault;
use std::alloc::Global;
use tree_core::State;
use tree_ops::FileCall;
use tree_paths::Path;
use watchtree_script::append_entry;

/// How many directories the tree has below each of its two tops, and how many files each has.
const FOLDERS: u64 = 150;

const FILES: u64 = 100;

/// What is written into a file.
const PHOTO: &[u8] = b"JFIF and some bytes of a photo";

/// The path of a directory below a top, or of a file in it.
fn path_of(desk: &mut Desk, top: &str, folder: u64, file: Option<u64>) -> Path {
    desk.text.clear();
    desk.text.text(top);
    desk.text.text("/album-");
    desk.text.number(folder);
    if let Some(file) = file {
        desk.text.text("/IMG_2024_");
        desk.text.number(file);
        desk.text.text(".jpeg");
    }
    desk.written()
}

/// One of the two tops by chance.
fn any_top(desk: &mut Desk) -> &'static str {
    if desk.rng.below(2) == 0 {
        "/photos"
    } else {
        "/backup"
    }
}

/// The path of a file by chance.
fn any_file(desk: &mut Desk) -> Path {
    let top = any_top(desk);
    let folder = desk.rng.below(FOLDERS);
    let file = desk.rng.below(FILES);
    path_of(desk, top, folder, Some(file))
}

/// The path of a directory by chance.
fn any_folder(desk: &mut Desk) -> Path {
    let top = any_top(desk);
    let folder = desk.rng.below(FOLDERS);
    path_of(desk, top, folder, None)
}

/// The path of a directory that is there now and then.
fn spare(desk: &mut Desk) -> Path {
    let top = any_top(desk);
    path_of(desk, top, FOLDERS, None)
}

/// Makes the directories, files, and an instance that watches the directories.
fn begin(desk: &mut Desk, state: &mut State) {
    for top in ["/photos", "/backup"] {
        let path = desk.path(top);
        desk.mkdir(state, path);
    }
    desk.init(state, 1);
    for top in ["/photos", "/backup"] {
        for folder in 0..FOLDERS {
            fill(desk, state, top, folder);
        }
    }
}

/// Makes a directory, watches it, and makes its files.
fn fill(desk: &mut Desk, state: &mut State, top: &str, folder: u64) {
    let path = path_of(desk, top, folder, None);
    desk.mkdir(state, path);
    let path = path_of(desk, top, folder, None);
    desk.watch(state, 1, path, 0xfce);
    for file in 0..FILES {
        let path = path_of(desk, top, folder, Some(file));
        desk.create(state, path);
    }
}

/// A call on files by chance.
fn any_call(desk: &mut Desk) -> FileCall {
    match desk.rng.below(16) {
        0..3 => FileCall::Rename2 {
            old: any_folder(desk),
            new: any_folder(desk),
            flags: 2,
        },
        3 => FileCall::Rename {
            old: any_folder(desk),
            new: spare(desk),
        },
        4 => FileCall::Rename {
            old: spare(desk),
            new: any_folder(desk),
        },
        5 | 6 => FileCall::Rename {
            old: any_file(desk),
            new: any_file(desk),
        },
        7 => FileCall::Link {
            old: any_file(desk),
            new: any_file(desk),
        },
        8 => FileCall::Unlink {
            path: any_file(desk),
        },
        9 => FileCall::Create {
            path: any_file(desk),
            mode: 0o600,
        },
        10 | 11 => FileCall::Write {
            path: any_file(desk),
            offset: desk.rng.below(2000),
            bytes: desk.bytes(PHOTO),
        },
        12 => FileCall::ReadFile {
            path: any_file(desk),
            offset: desk.rng.below(500),
            count: 64,
        },
        13 => FileCall::Chmod {
            path: any_file(desk),
            mode: 0o640,
        },
        _ => FileCall::Stat {
            path: any_file(desk),
        },
    }
}

/// Looks at a file and a directory, which the journal does not keep.
fn look(desk: &mut Desk, state: &State) {
    let path = any_file(desk);
    desk.peek_stat(state, path);
    if desk.rng.below(32) == 0 {
        match state.peek_names(&any_folder(desk)) {
            Ok(names) => add_names(&mut desk.digest, &names),
            Err(refusal) => add_refusal(&mut desk.digest, refusal),
        }
    }
}

/// Makes `calls` calls by chance, with looks between them, and reads of what waits.
fn go_on(desk: &mut Desk, state: &mut State, calls: u64) {
    for _ in 0..calls {
        let call = any_call(desk);
        desk.file(state, call);
        look(desk, state);
        if desk.rng.below(16) == 0 {
            desk.read(state, 1);
        }
    }
}

/// Adds the journal as a script, with who made each call.
fn add_journal(desk: &mut Desk, state: &State) {
    let mut text = Vec::new(desk.alloc);
    let last = state.last_place();
    let count = state.journal().len();
    desk.digest.add(last);
    desk.digest.add(count as u64);
    let before = last.saturating_sub(count as u64);
    for at in 0..count {
        match state.entry(before.wrapping_add(at as u64).wrapping_add(1)) {
            Some(entry) => {
                desk.digest.add(u64::from(entry.caller));
                desk.need(append_entry(entry, &mut text).is_ok());
            }
            None => desk.digest.add(u64::MAX),
        }
        if text.len() > 60_000 {
            desk.digest.add_bytes(text.as_slice());
            text.clear();
        }
    }
    desk.digest.add_bytes(text.as_slice());
}

/// One turn: calls, the journal printed, a cut, and a fork that goes on alone.
fn turn(desk: &mut Desk, state: &mut State) {
    go_on(desk, state, 20_000);
    add_journal(desk, state);
    desk.cut(state);
    if let Some(mut fork) = desk.fork(state) {
        go_on(desk, &mut fork, 2_000);
    }
}

/// Runs the rounds on one tree.
pub(crate) fn run(alloc: Global, seed: u64, rounds: u64) -> Result<Digest, BenchFault> {
    let mut desk = Desk::new(alloc, seed);
    if let Some(mut state) = desk.open() {
        begin(&mut desk, &mut state);
        for _ in 0..rounds {
            if !desk.is_well() {
                break;
            }
            turn(&mut desk, &mut state);
        }
    }
    desk.finish()
}
