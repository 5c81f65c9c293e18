//! What programs do with trees beside changes of files, in eight parts that take about the same time:
//!
//! - `fork_trees`: trees of ten files and of ten watched directories are forked; some forks are kept, all are dropped;
//! - `open_trees`: trees are opened, get one file or ten, and are closed;
//! - `watch_folders`: watches of 1,000 directories are added, set anew and removed;
//! - `end_watches`: watched directories are removed, instances with many watches closed, a tree with 1,000 is dropped;
//! - `save_files`: drafts are moved over watched files in directories that 3, 20 and 128 instances watch, by names of
//!   seven bytes, of 60, and of 148 to 255;
//! - `use_up`: oneshot watches of 2, 16 and 128 instances on one file are used up by a write, and set again;
//! - `go_long`: forty files with names of 148 to 255 bytes are saved, written, renamed and made anew;
//! - `move_folders`: directories in the root are exchanged and moved, and after each move there is a call or two in
//!   them, in the root, or below a missing directory.

use crate::bases::{Bases, FOLDERS, folder_of, watch_all};
use crate::desk::Desk;
use crate::digest::Digest;
use crate::fault::BenchFault;
use crate::moves::{go_long, move_folders};
use crate::saves::{save_files, use_up};
use std::alloc::Global;
use tree_core::{Call, State};
use tree_ops::FileCall;

/// How many forks a round makes of each of two small trees.
const FORKS: u64 = 400;

/// How many trees a round opens, of each of two sizes.
const TREES: u64 = 400;

/// How many directories a round removes of the large tree.
const REMOVED: u64 = 250;

/// How many instances a round makes, watches with and closes, and how many watches each adds.
const CLOSED: u32 = 8;

const WATCHES: u64 = 100;

/// Makes three calls in a fork of the small tree: a file is written, another is removed, and the instance is read.
fn use_fork(desk: &mut Desk, fork: &mut State) {
    let file = desk.rng.below(10);
    let path = desk.numbered("/jobs/job-", file);
    let write = desk.write(path, 10);
    desk.file(fork, write);
    let file = desk.rng.below(10);
    let path = desk.numbered("/jobs/job-", file);
    desk.file(fork, FileCall::Unlink { path });
    desk.read(fork, 1);
}

/// Forks small trees. Of the forks with ten files three of four are kept until all were made, those with ten watched
/// directories are dropped at once.
#[inline(never)]
fn fork_trees(desk: &mut Desk, small: &State, marked: &State) {
    let mut kept = Vec::new(desk.alloc);
    for _ in 0..FORKS {
        let Some(mut fork) = desk.fork(small) else {
            return;
        };
        use_fork(desk, &mut fork);
        if desk.rng.below(4) != 0 {
            desk.need(kept.push(fork).is_ok());
        }
        let Some(fork) = desk.fork(marked) else {
            return;
        };
        desk.digest.add(fork.last_place());
        desk.digest.add(fork.free_entries());
    }
    for fork in kept.as_slice() {
        let file = desk.rng.below(10);
        let path = desk.numbered("/jobs/job-", file);
        desk.peek_stat(fork, path);
        desk.digest.add(fork.last_place());
    }
}

/// Opens trees, of which one of two gets a file, and the other a watched directory with ten files, and closes each.
#[inline(never)]
fn open_trees(desk: &mut Desk) {
    for tree in 0..TREES {
        let Some(mut state) = desk.open() else {
            return;
        };
        let path = desk.numbered("/lock-", tree);
        desk.create(&mut state, path);
        desk.digest.add(state.last_place());
        let Some(mut state) = desk.open() else {
            return;
        };
        let path = desk.path("/box");
        let call = FileCall::Mkdir { path, mode: 0o700 };
        desk.apply(&mut state, Call::File(call));
        desk.init(&mut state, 1);
        let path = desk.path("/box");
        desk.watch(&mut state, 1, path, 0xfff);
        for file in 0..10 {
            let path = desk.numbered("/box/letter-", file);
            let call = FileCall::Create { path, mode: 0o600 };
            desk.apply(&mut state, Call::File(call));
        }
        desk.read(&mut state, 1);
    }
}

/// Two instances watch all directories of the large tree, each sets watches anew, and removes some.
#[inline(never)]
fn watch_folders(desk: &mut Desk, bare: &State) {
    let Some(mut state) = desk.fork(bare) else {
        return;
    };
    desk.init(&mut state, 2);
    for instance in 1..3 {
        watch_all(desk, &mut state, instance);
    }
    for _ in 0..FOLDERS {
        let instance = desk.any_instance(2);
        let folder = desk.rng.below(FOLDERS);
        let path = folder_of(desk, folder);
        let mask = if folder % 2 == 0 { 0x88 } else { 0x2000_0c00 };
        desk.watch(&mut state, instance, path, mask);
    }
    for _ in 0..FOLDERS {
        let instance = desk.any_instance(2);
        let wd = any_wd(desk, FOLDERS);
        desk.call(&mut state, Call::RmWatch { instance, wd });
    }
    desk.read(&mut state, 1);
    desk.read(&mut state, 2);
}

/// A watch descriptor from 1 to `count`, by chance.
fn any_wd(desk: &mut Desk, count: u64) -> i32 {
    let at = desk.rng.below(count);
    i32::try_from(at).unwrap_or(0).wrapping_add(1)
}

/// Removes watched directories, and closes eight instances with 100 watches and one with those that are left of 1,000.
/// Another tree is dropped with all its watches.
#[inline(never)]
fn end_watches(desk: &mut Desk, watched: &State) {
    let Some(mut state) = desk.fork(watched) else {
        return;
    };
    desk.init(&mut state, CLOSED);
    for at in 0..CLOSED {
        for _ in 0..WATCHES {
            let folder = desk.rng.below(FOLDERS);
            let path = folder_of(desk, folder);
            desk.watch(&mut state, at + 2, path, 0x3ca);
        }
    }
    for _ in 0..REMOVED {
        let folder = desk.rng.below(FOLDERS);
        let path = folder_of(desk, folder);
        desk.file(&mut state, FileCall::Rmdir { path });
    }
    for at in 0..CLOSED + 1 {
        let instance = at + 1;
        desk.read(&mut state, instance);
        desk.call(&mut state, Call::Close { instance });
    }
    let Some(fork) = desk.fork(watched) else {
        return;
    };
    desk.digest.add(fork.last_place());
}

/// Does each part once.
fn round(desk: &mut Desk, bases: &Bases) {
    fork_trees(desk, &bases.small, &bases.marked);
    open_trees(desk);
    watch_folders(desk, &bases.bare);
    for _ in 0..2 {
        end_watches(desk, &bases.watched);
    }
    save_files(desk);
    use_up(desk);
    go_long(desk);
    move_folders(desk, &bases.moved);
}

/// Runs the rounds, each of other numbers.
pub(crate) fn run(alloc: Global, seed: u64, rounds: u64) -> Result<Digest, BenchFault> {
    let mut desk = Desk::new(alloc, seed);
    desk.fill();
    if let Some(bases) = Bases::new(&mut desk) {
        for _ in 0..rounds {
            if !desk.is_well() {
                break;
            }
            round(&mut desk, &bases);
        }
    }
    desk.finish()
}
