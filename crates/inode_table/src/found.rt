//! What is found at a path.

ghost use Rattle.std.specs.Prelude.{◌≡◌, Ok, Err, if◌then◌else◌};
ghost use Rattle.inode_table.specs.Found.{found_of};

use crate::key::Key;
use tree_paths::Refusal;

/// The key of a node, or why there is none, in whole words: the gaps of a `Result` would be copied in parts.
#[derive(Clone, Copy)]
pub(crate) struct Found {
    /// 0 where there is a node, 1 for `ENOENT`, and any other number for `ENOTDIR`.
    missing: usize,
    /// The slot of the node.
    slot: usize,
}

impl Found {
    /// The node under this key.
    #[inline(always)]
    pub(crate) fn at(key: Key) -> Found
        ensures { found_of result ≡ Ok key }
    {
        Found {
            missing: 0,
            slot: key.slot(),
        }
    }

    /// Nothing: `ENOENT` below a directory, `ENOTDIR` below a file.
    #[inline(always)]
    pub(crate) fn missing(is_in_directory: bool) -> Found
        ensures { found_of result ≡ Err (if is_in_directory then Refusal.Enoent else Refusal.Enotdir) }
    {
        Found {
            missing: if is_in_directory { 1 } else { 2 },
            slot: 0,
        }
    }

    /// The key, or why there is none.
    #[inline(always)]
    pub(crate) fn get(self) -> Result<Key, Refusal>
        ensures { result ≡ found_of self }
    {
        match self.missing {
            0 => Ok(Key::of(self.slot)),
            1 => Err(Refusal::Enoent),
            _ => Err(Refusal::Enotdir),
        }
    }
}
