//! The parts of `upkeep` that end watches by changes of files: saves as editors do them, and oneshot watches.

use crate::desk::{Desk, Length};
use tree_core::State;
use tree_ops::FileCall;
use tree_paths::Path;

/// How many files are saved in a directory.
const FILES: u64 = 6;

/// A directory in which files are saved.
#[derive(Clone, Copy)]
struct Saving {
    /// How many instances watch it.
    instances: u32,
    /// How many times a file is saved.
    saves: u64,
    /// How long the names are.
    length: Length,
}

impl Saving {
    /// The path of a file that is saved.
    fn file(self, desk: &mut Desk, file: u64) -> Path {
        desk.named("/d/", "notes-", file, self.length)
    }

    /// The path of the draft that is moved over a file.
    fn draft(self, desk: &mut Desk, file: u64) -> Path {
        desk.named("/d/", ".note-", file, self.length)
    }

    /// Makes the directory, its files, the instances and their watches.
    fn begin(self, desk: &mut Desk) -> Option<State> {
        let mut state = desk.open()?;
        let path = desk.path("/d");
        desk.mkdir(&mut state, path);
        for file in 0..FILES {
            let path = self.file(desk, file);
            desk.create(&mut state, path);
        }
        desk.init(&mut state, self.instances);
        for at in 0..self.instances {
            let path = desk.path("/d");
            let mask = match at % 3 {
                0 => 0x88,
                1 => 0x3ca,
                _ => 0xfff,
            };
            desk.watch(&mut state, at + 1, path, mask);
        }
        for file in 0..FILES {
            self.watch_file(desk, &mut state, file);
        }
        Some(state)
    }

    /// Lets the first two instances watch a file.
    fn watch_file(self, desk: &mut Desk, state: &mut State, file: u64) {
        for instance in 1..3 {
            let path = self.file(desk, file);
            desk.watch(state, instance, path, 0xc0e);
        }
    }

    /// Saves a file as editors do: a draft is made, written and moved over it. This ends the watches of the file, which
    /// is watched again.
    fn save(self, desk: &mut Desk, state: &mut State) {
        let file = desk.rng.below(FILES);
        let path = self.draft(desk, file);
        desk.create(state, path);
        let path = self.draft(desk, file);
        let write = desk.write(path, 0);
        desk.file(state, write);
        let old = self.draft(desk, file);
        let new = self.file(desk, file);
        desk.file(state, FileCall::Rename { old, new });
        self.watch_file(desk, state, file);
    }

    /// Saves files, and reads an eighth of the instances after each save.
    fn run(self, desk: &mut Desk) {
        let Some(mut state) = self.begin(desk) else {
            return;
        };
        for _ in 0..self.saves {
            self.save(desk, &mut state);
            desk.read_some(&mut state, self.instances);
        }
    }
}

/// Saves files of directories that 3 to 128 instances watch, with short and long names.
#[inline(never)]
pub(crate) fn save_files(desk: &mut Desk) {
    for (instances, saves) in [(3, 60), (20, 16), (128, 4)] {
        for length in [Length::Short, Length::Middle, Length::Long] {
            let saving = Saving {
                instances,
                saves,
                length,
            };
            saving.run(desk);
        }
    }
}

/// Does this `times` times: each instance watches a file for one event, and a write uses all of these watches up.
fn use_up_with(desk: &mut Desk, instances: u32, times: u64) {
    let Some(mut state) = desk.open() else {
        return;
    };
    for file in 0..4 {
        let path = desk.numbered("/part-", file);
        desk.create(&mut state, path);
    }
    desk.init(&mut state, instances);
    for _ in 0..times {
        let file = desk.rng.below(4);
        for at in 0..instances {
            let path = desk.numbered("/part-", file);
            desk.watch(&mut state, at + 1, path, 0x8000_0002);
        }
        let path = desk.numbered("/part-", file);
        let write = desk.write(path, 0);
        desk.file(&mut state, write);
        desk.read_some(&mut state, instances);
    }
}

/// Oneshot watches of 2 to 128 instances are used up.
#[inline(never)]
pub(crate) fn use_up(desk: &mut Desk) {
    for (instances, times) in [(2, 600), (16, 100), (128, 14)] {
        use_up_with(desk, instances, times);
    }
}
