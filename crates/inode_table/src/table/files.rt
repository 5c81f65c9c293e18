//! All files of a table.

ghost use Rattle.std.specs.Prelude.{◌≡◌, map, IfOk, IfErr};
ghost use Rattle.std.specs.FinMap as finmap;
ghost use Rattle.slab.specs.Slab.{entries};
ghost use Rattle.inode_table.specs.Kept.{row_of};
ghost use Rattle.inode_table.specs.Rows.{shown};
ghost use Rattle.inode_table.specs.Listing.{row_shown};
ghost use Rattle.inode_table.specs.Files.{file_row};

use super::Table;
use crate::node::Node;
use crate::rows::FileRow;
use record_codec::Bytes;
use slab::Slab;
use std::alloc::{AllocError, Global};
use tree_paths::Refusal;

impl Table {
    ghost use Rattle.inode_table.specs.TableWorld.{world_of};

    /// The files in the order of their numbers.
    pub fn files(&self) -> Result<Vec<FileRow>, Refusal>
        ensures world { IfOk result (λ rows. rows.items ≡ map file_row (finmap.entries (world_of self.now).files)) }
        ensures memory { IfErr result (λ refusal. refusal ≡ Refusal.Enomem) }
    {
        self.rows_law();
        let mut rows = all_files(self.alloc, &self.nodes)?;
        rows.sort_unstable_by_key(|row| row.number);
        Ok(rows)
    }
}

/// The file of each node, in the order of the keys. A new node mostly has the greatest number and the greatest key.
fn all_files(alloc: Global, nodes: &Slab<Node>) -> Result<Vec<FileRow>, AllocError>
    ensures { IfOk result (λ files. files.items ≡ map (λ e. row_shown (shown (row_of e.1))) (entries nodes.now)) }
{
    let mut files = Vec::with_capacity(alloc, nodes.len())?;
    for (_, node) in nodes.iter() {
        files.push(file(alloc, node)?)?;
    }
    Ok(files)
}

/// The row of a node.
fn file(alloc: Global, node: &Node) -> Result<FileRow, AllocError>
    ensures { IfOk result (λ row. row ≡ row_shown (shown (row_of node.now))) }
{
    Ok(FileRow {
        number: node.number,
        kind: node.content.kind(),
        mode: node.mode,
        bytes: Bytes::from_vec(Vec::from_slice(alloc, node.content.bytes())?),
    })
}
