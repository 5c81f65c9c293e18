//! The trees that `upkeep` forks.

use crate::desk::Desk;
use tree_core::State;
use tree_paths::Path;

/// How many directories the large tree has below its 25 tops: forty each.
pub(crate) const FOLDERS: u64 = 1000;

/// The trees that each round forks.
#[derive(Drop)]
pub(crate) struct Bases {
    /// A watched directory with ten files.
    pub(crate) small: State,
    /// Ten watched directories.
    pub(crate) marked: State,
    /// A thousand unwatched directories.
    pub(crate) bare: State,
    /// The same, watched by one instance.
    pub(crate) watched: State,
    /// Five directories in the root, each with five directories and ten files, and ten files in the root.
    pub(crate) moved: State,
}

/// A directory of the large tree.
pub(crate) fn folder_of(desk: &mut Desk, folder: u64) -> Path {
    desk.inner("/srv/data-", folder / 40, "/set-", folder)
}

/// A watched directory with ten files.
fn small_tree(desk: &mut Desk) -> Option<State> {
    let mut state = desk.open()?;
    let path = desk.path("/jobs");
    desk.mkdir(&mut state, path);
    desk.init(&mut state, 1);
    let path = desk.path("/jobs");
    desk.watch(&mut state, 1, path, 0xfce);
    for file in 0..10 {
        let path = desk.numbered("/jobs/job-", file);
        desk.create(&mut state, path);
        let path = desk.numbered("/jobs/job-", file);
        let write = desk.write(path, 0);
        desk.file(&mut state, write);
    }
    Some(state)
}

/// Ten watched directories.
fn marked_tree(desk: &mut Desk) -> Option<State> {
    let mut state = desk.open()?;
    desk.init(&mut state, 1);
    for folder in 0..10 {
        let path = desk.numbered("/d", folder);
        desk.mkdir(&mut state, path);
        let path = desk.numbered("/d", folder);
        desk.watch(&mut state, 1, path, 0xfce);
    }
    Some(state)
}

/// A thousand directories.
fn bare_tree(desk: &mut Desk) -> Option<State> {
    let mut state = desk.open()?;
    let path = desk.path("/srv");
    desk.mkdir(&mut state, path);
    for folder in 0..FOLDERS {
        if folder % 40 == 0 {
            let path = desk.numbered("/srv/data-", folder / 40);
            desk.mkdir(&mut state, path);
        }
        let path = folder_of(desk, folder);
        desk.mkdir(&mut state, path);
    }
    Some(state)
}

/// Five directories in the root, each with five directories and ten files, and ten files in the root.
fn moved_tree(desk: &mut Desk) -> Option<State> {
    let mut state = desk.open()?;
    for top in 0..5 {
        let path = desk.numbered("/a", top);
        desk.mkdir(&mut state, path);
        for folder in 0..5 {
            let path = desk.inner("/a", top, "/d", folder);
            desk.mkdir(&mut state, path);
        }
        for file in 0..10 {
            let path = desk.inner("/a", top, "/f", file);
            desk.create(&mut state, path);
        }
    }
    for file in 0..10 {
        let path = desk.numbered("/f", file);
        desk.create(&mut state, path);
    }
    Some(state)
}

/// Lets an instance watch all directories of the large tree, in order: the descriptor of each is its number and 1.
pub(crate) fn watch_all(desk: &mut Desk, state: &mut State, instance: u32) {
    for folder in 0..FOLDERS {
        let path = folder_of(desk, folder);
        desk.watch(state, instance, path, 0x1000_03ca);
    }
}

impl Bases {
    /// The trees. There are none only after a fault.
    pub(crate) fn new(desk: &mut Desk) -> Option<Bases> {
        let small = small_tree(desk)?;
        let marked = marked_tree(desk)?;
        let bare = bare_tree(desk)?;
        let mut watched = desk.fork(&bare)?;
        desk.init(&mut watched, 1);
        watch_all(desk, &mut watched, 1);
        let moved = moved_tree(desk)?;
        Some(Bases {
            small,
            marked,
            bare,
            watched,
            moved,
        })
    }
}
