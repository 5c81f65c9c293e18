//! Files as rows.

use crate::seen::Kind;
use record_codec::Bytes;

/// A file: its number, what it is, its permission bits and its contents. A directory has no bytes.
#[derive(Drop)]
pub struct FileRow {
    pub number: u32,
    pub kind: Kind,
    pub mode: u32,
    pub bytes: Bytes,
}
