//! Calls on files.

ghost use Rattle.std.specs.Prelude.{◌≡◌, ◌↔◌, IfOk, IfErr, IsTrue};
ghost use Rattle.std.specs.Option.{option_copied};

use record_codec::Bytes;
use tree_paths::{Path, Refusal};

/// The greatest mode: the nine permission bits, and the bits for set-user-ID, set-group-ID and the sticky bit
/// (POSIX.1-2017 `<sys/stat.h>`).
pub const MAX_MODE: u32 = 0o7777;

/// The flag of [`FileCall::Rename2`] by which nothing may stand at the new path (renameat2(2), `RENAME_NOREPLACE`).
pub const RENAME_NOREPLACE: u32 = 1;

/// The flag of [`FileCall::Rename2`] that exchanges the two paths (renameat2(2), `RENAME_EXCHANGE`).
pub const RENAME_EXCHANGE: u32 = 2;

/// A call on files. Each one opens, acts and closes by itself.
#[derive(Debug, Drop, PartialEq, Eq)]
pub enum FileCall {
    /// Makes a regular file without contents. Answers [`Answer::Number`](crate::Answer::Number).
    Create {
        path: Path,
        mode: u32,
    },
    /// Makes a directory (POSIX.1-2017 `mkdir`). Answers [`Answer::Number`](crate::Answer::Number).
    Mkdir {
        path: Path,
        mode: u32,
    },
    /// Writes the bytes from `offset` bytes on (POSIX.1-2017 `pwrite`), all of them or none, and fills a gap before
    /// them with zero bytes. A write of no bytes changes nothing, whatever its offset. Answers
    /// [`Answer::Count`](crate::Answer::Count).
    Write {
        path: Path,
        offset: u64,
        bytes: Bytes,
    },
    /// Reads at most `count` bytes from `offset` bytes on (POSIX.1-2017 `pread`), none past the end. Answers
    /// [`Answer::Bytes`](crate::Answer::Bytes).
    ReadFile {
        path: Path,
        offset: u64,
        count: u32,
    },
    /// Cuts a file to `len` bytes, or fills it up with zero bytes (POSIX.1-2017 `truncate`).
    Truncate {
        path: Path,
        len: u64,
    },
    /// Gives a file or a directory another mode (POSIX.1-2017 `chmod`).
    Chmod {
        path: Path,
        mode: u32,
    },
    /// Gives a regular file one more path (POSIX.1-2017 `link`).
    Link {
        old: Path,
        new: Path,
    },
    /// Takes a path from a regular file, which is gone with its last one (POSIX.1-2017 `unlink`).
    Unlink {
        path: Path,
    },
    /// Takes away an empty directory (POSIX.1-2017 `rmdir`).
    Rmdir {
        path: Path,
    },
    /// Moves a file, or a directory with all its descendants, to the new path, and replaces what stands there
    /// (POSIX.1-2017 `rename`). Where both paths are of the same file, nothing happens.
    Rename {
        old: Path,
        new: Path,
    },
    /// A rename with flags (renameat2(2)). With 0 it is [`FileCall::Rename`]. With [`RENAME_NOREPLACE`] it is refused
    /// if something stands at the new path, even the same file. With [`RENAME_EXCHANGE`] something stands at both
    /// paths, and they are exchanged, each with all its descendants; if both are of the same file, nothing happens. No
    /// other flags are accepted.
    Rename2 {
        old: Path,
        new: Path,
        flags: u32,
    },
    /// Gets the status of what stands at a path (POSIX.1-2017 `stat`). Answers [`Answer::Stat`](crate::Answer::Stat).
    Stat {
        path: Path,
    },
    /// Lists the names in a directory, in the order of their bytes (POSIX.1-2017 `readdir`).
    /// Answers [`Answer::Names`](crate::Answer::Names).
    List {
        path: Path,
    },
}

impl FileCall {
    ghost use Rattle.tree_paths.specs.declared.refusal.Refusal.TheVariants.{Enomem};
    ghost use Rattle.tree_ops.specs.CallPaths.{path_of, new_path_of};

    /// A copy of the call. `Err` means out of memory.
    pub fn copy(&self) -> Result<FileCall, Refusal>
        ensures ok { IfOk result (λ call. call ≡ self.now) }
        ensures err { IfErr result (λ refusal. refusal ≡ Enomem) }
    {
        let path = self.path().copy()?;
        Ok(match self {
            &FileCall::Create { mode, .. } => FileCall::Create { path, mode },
            &FileCall::Mkdir { mode, .. } => FileCall::Mkdir { path, mode },
            FileCall::Write { offset, bytes, .. } => FileCall::Write {
                path,
                offset: *offset,
                bytes: bytes.copy()?,
            },
            &FileCall::ReadFile { offset, count, .. } => FileCall::ReadFile {
                path,
                offset,
                count,
            },
            &FileCall::Truncate { len, .. } => FileCall::Truncate { path, len },
            &FileCall::Chmod { mode, .. } => FileCall::Chmod { path, mode },
            FileCall::Link { new, .. } => FileCall::Link {
                old: path,
                new: new.copy()?,
            },
            FileCall::Unlink { .. } => FileCall::Unlink { path },
            FileCall::Rmdir { .. } => FileCall::Rmdir { path },
            FileCall::Rename { new, .. } => FileCall::Rename {
                old: path,
                new: new.copy()?,
            },
            FileCall::Rename2 { new, flags, .. } => FileCall::Rename2 {
                old: path,
                new: new.copy()?,
                flags: *flags,
            },
            FileCall::Stat { .. } => FileCall::Stat { path },
            FileCall::List { .. } => FileCall::List { path },
        })
    }

    /// The path of the call, and the old one where it has two.
    pub fn path(&self) -> &Path
        ensures { result.now ≡ path_of self.now }
    {
        match self {
            FileCall::Create { path, .. }
            | FileCall::Mkdir { path, .. }
            | FileCall::Write { path, .. }
            | FileCall::ReadFile { path, .. }
            | FileCall::Truncate { path, .. }
            | FileCall::Chmod { path, .. }
            | FileCall::Unlink { path }
            | FileCall::Rmdir { path }
            | FileCall::Stat { path }
            | FileCall::List { path } => path,
            FileCall::Link { old, .. }
            | FileCall::Rename { old, .. }
            | FileCall::Rename2 { old, .. } => old,
        }
    }

    /// The new path of a call that has two, and `None` of any other.
    pub fn other_path(&self) -> Option<&Path>
        ensures { option_copied result ≡ new_path_of self.now }
    {
        match self {
            FileCall::Link { new, .. }
            | FileCall::Rename { new, .. }
            | FileCall::Rename2 { new, .. } => Some(new),
            _ => None,
        }
    }

    /// Whether the other call is the same one.
    pub fn is_same(&self, other: &FileCall) -> bool
        ensures { IsTrue result ↔ (self.now ≡ other.now) }
    {
        self == other
    }
}

/// What the next new file and the next rename get.
#[derive(Clone, Copy, Debug, PartialEq, Eq)]
pub struct Counts {
    /// The number of the next file or directory that is made.
    pub next_number: u32,
    /// The cookie of the next move: a rename that moves something is one, and an exchange is two. It is 0 where all
    /// 2^32 - 1 of them are spent.
    pub next_cookie: u32,
}
