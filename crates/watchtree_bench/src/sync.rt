//! A synchroniser and an indexer beside an editor: a project of 258 directories, whose files have paths of seven names,
//! and names of at most 22 bytes. The synchroniser watches all of the directories, the indexer 114 of them. Files are
//! made, saved, moved and read.

use crate::digest::Digest;
use crate::fault::BenchFault;
use crate::rng::Rng;
use crate::script::Script;
use std::alloc::Global;

/// The names of directories.
const FOLDERS: [&str; 12] = [
    "engine",
    "render",
    "net",
    "platform",
    "ui",
    "storage",
    "include",
    "internal",
    "test",
    "generated",
    "third_party",
    "docs",
];

/// The names of files, up to their numbers.
const STEMS: [&str; 8] = [
    "main",
    "parser_table",
    "mod",
    "connection_pool",
    "utils",
    "README",
    "index.generated",
    "a",
];

/// What names of files end in.
const ENDS: [&str; 4] = [".rs", ".h", ".cpp", ".json"];

/// How many directories have files: six in each of six in each of six.
const LEAVES: u64 = 216;

/// How many names a directory may have of files.
const FILES: u64 = 24;

/// The most bytes of a script, less those of the calls that follow one roll.
const FULL: usize = 1_040_000;

/// Adds the path of a directory; `depth` is 1 to 3.
fn add_folder(script: &mut Script, leaf: u64, depth: u64) {
    script.text("/home/ana/src/");
    script.text(FOLDERS[(leaf / 36 % 6) as usize]);
    if depth > 1 {
        script.text("/");
        script.text(FOLDERS[(leaf / 6 % 6 + 3) as usize]);
    }
    if depth > 2 {
        script.text("/");
        script.text(FOLDERS[(leaf % 6 + 6) as usize]);
    }
}

/// A file of the project: its directory, and its number in it.
#[derive(Clone, Copy)]
struct File {
    leaf: u64,
    number: u64,
}

/// A project, as far as its script has come.
#[derive(Drop)]
struct Project {
    script: Script,
    rng: Rng,
    /// The paths of the directories that have files.
    folders: Vec<Script>,
    /// Of each file, whether it is there.
    there: Vec<bool>,
}

impl Project {
    /// Adds the path of a directory that has files.
    fn add_leaf(&mut self, leaf: u64) {
        if let Some(path) = self.folders.get(leaf as usize) {
            self.script.bytes(path.as_slice());
        }
    }

    /// Adds the path of a file.
    fn add_path(&mut self, file: File) {
        self.add_leaf(file.leaf);
        self.script.text("/");
        self.script.text(STEMS[(file.number % 8) as usize]);
        if file.number > 7 {
            self.script.number(file.number);
        }
        self.script.text(ENDS[(file.number / 2 % 4) as usize]);
    }

    /// Adds the path at which an editor writes a file before it is moved to its own.
    fn add_draft(&mut self, file: File) {
        self.add_leaf(file.leaf);
        self.script.text("/.");
        self.script.text(STEMS[(file.number % 8) as usize]);
        self.script.text(".swp");
    }

    /// A file by chance.
    fn any_file(&mut self) -> File {
        File {
            leaf: self.rng.below(LEAVES),
            number: self.rng.below(FILES),
        }
    }

    /// Whether a file is there.
    fn is_there(&self, file: File) -> bool {
        let at = file.leaf.wrapping_mul(FILES).wrapping_add(file.number);
        self.there.get(at as usize).copied().unwrap_or(false)
    }

    /// Notes whether a file is there.
    fn note(&mut self, file: File, is_there: bool) {
        let at = file.leaf.wrapping_mul(FILES).wrapping_add(file.number);
        if let Some(known) = self.there.get_mut(at as usize) {
            *known = is_there;
        }
    }

    /// Makes the directories, the two instances and their watches.
    fn begin(&mut self) {
        self.script.text("mkdir /home 755\nmkdir /home/ana 700\nmkdir /home/ana/src 755\n");
        self.script.text("init\ninit 4096\n");
        for leaf in 0..LEAVES {
            if leaf % 36 == 0 {
                self.make_folder(leaf, 1);
            }
            if leaf % 6 == 0 {
                self.make_folder(leaf, 2);
            }
            self.make_folder(leaf, 3);
        }
    }

    /// Makes a directory, and watches it.
    fn make_folder(&mut self, leaf: u64, depth: u64) {
        self.script.text("mkdir ");
        add_folder(&mut self.script, leaf, depth);
        self.script.text(" 755\nwatch 1 ");
        add_folder(&mut self.script, leaf, depth);
        self.script.text(" 0xfc6\n");
        if leaf % 3 == 0 {
            self.script.text("watch 2 ");
            add_folder(&mut self.script, leaf, depth);
            self.script.text(" 0x1000388\n");
        }
    }

    /// Adds a write of some bytes to the end of a command's path.
    fn add_contents(&mut self, offset: u64) {
        self.script.text(" ");
        self.script.number(offset);
        self.script.text(" ");
        let bits = self.rng.bits();
        let count = self.rng.below(24).wrapping_add(1);
        self.script.pairs(bits, count);
        self.script.text("\n");
    }

    /// A file is made and written.
    fn make(&mut self, file: File) {
        self.script.text("create ");
        self.add_path(file);
        self.script.text(" 644\nwrite ");
        self.add_path(file);
        self.add_contents(0);
        self.note(file, true);
    }

    /// A file is saved as editors do: a draft is made and written, and replaces it.
    fn save(&mut self, file: File) {
        self.script.text("create ");
        self.add_draft(file);
        self.script.text(" 600\nwrite ");
        self.add_draft(file);
        self.add_contents(0);
        self.script.text("chmod ");
        self.add_draft(file);
        self.script.text(" 644\nrename ");
        self.add_draft(file);
        self.script.text(" ");
        self.add_path(file);
        self.script.text("\n");
    }

    /// A file is moved to another path, if nothing is there.
    fn shift(&mut self, file: File) {
        let other = self.any_file();
        if !self.is_there(other) {
            self.script.text("rename ");
            self.add_path(file);
            self.script.text(" ");
            self.add_path(other);
            self.script.text("\n");
            self.note(file, false);
            self.note(other, true);
        }
    }

    /// A command of one path.
    fn add_simple(&mut self, command: &str, file: File, end: &str) {
        self.script.text(command);
        self.add_path(file);
        self.script.text(end);
    }

    /// A file that is there is changed, read, moved or taken away.
    fn change(&mut self, file: File) {
        match self.rng.below(16) {
            0..5 => self.save(file),
            5..8 => {
                let offset = self.rng.below(200);
                self.script.text("write ");
                self.add_path(file);
                self.add_contents(offset);
            }
            8 => self.add_simple("truncate ", file, " 16\n"),
            9 => self.shift(file),
            10 | 11 => {
                self.note(file, false);
                self.add_simple("unlink ", file, "\n");
            }
            12 | 13 => self.add_simple("stat ", file, "\n"),
            14 => self.add_simple("cat ", file, " 0 48\n"),
            _ => {
                self.script.text("list ");
                self.add_leaf(file.leaf);
                self.script.text("\n");
            }
        }
    }

    /// One roll of an editor, and now and then a read by who watches.
    fn roll(&mut self) {
        let file = self.any_file();
        if self.is_there(file) {
            self.change(file);
        } else {
            self.make(file);
        }
        match self.rng.below(12) {
            0 | 1 => self.script.text("read 1 4096\n"),
            2 => self.script.text("read 2 65536\n"),
            _ => (),
        }
    }
}

/// A script of this seed.
fn script_of(alloc: Global, seed: u64) -> Script {
    let mut script = Script::new(alloc);
    let mut there = Vec::new(alloc);
    for _ in 0..LEAVES * FILES {
        script.need(there.push(false).is_ok());
    }
    let mut folders = Vec::new(alloc);
    for leaf in 0..LEAVES {
        let mut path = Script::new(alloc);
        add_folder(&mut path, leaf, 3);
        script.need(path.is_whole());
        script.need(folders.push(path).is_ok());
    }
    let mut project = Project {
        script,
        rng: Rng::new(seed),
        folders,
        there,
    };
    project.begin();
    for _ in 0..100_000 {
        if project.script.len() > FULL {
            break;
        }
        project.roll();
    }
    let Project {
        script,
        rng: _,
        folders: _,
        there: _,
    } = project;
    script
}

/// Runs a script each round, each of other numbers.
pub(crate) fn run(alloc: Global, seed: u64, rounds: u64) -> Result<Digest, BenchFault> {
    let mut seeds = Rng::new(seed);
    let mut digest = Digest::new();
    for _ in 0..rounds {
        let script = script_of(alloc, seeds.bits());
        digest = script.run(alloc, digest)?;
    }
    Ok(digest)
}
