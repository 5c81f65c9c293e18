//! What a cut keeps of a tree.

use inode_table::FileRow;
use instance_table::InstanceRow;
use tree_paths::Path;

/// A tree in lists, as it was at a cut, and the sequence number of the last entry before it.
///
/// Paths stand name by name in the order of their bytes, a path before those below it; files by their numbers, and
/// instances by theirs.
pub struct Snapshot {
    /// Each path, with the number of its file.
    pub paths: Vec<(Path, u32)>,
    /// Each file.
    pub files: Vec<FileRow>,
    /// Each open instance.
    pub instances: Vec<InstanceRow>,
    /// The number of the next file.
    pub next_number: u32,
    /// The cookie of the next rename, 0 where all are used.
    pub next_cookie: u32,
    /// The number of the next instance.
    pub next_id: u32,
    /// The sequence number of the last entry before the cut, 0 where there is none.
    pub place: u64,
}

impl Drop for Snapshot {
    fn drop(self) {
        let Snapshot {
            paths: _,
            files: _,
            instances: _,
            next_number: _,
            next_cookie: _,
            next_id: _,
            place: _,
        } = self;
    }
}
