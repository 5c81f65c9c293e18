//! A copy of a table.

ghost use Rattle.std.specs.Prelude.{◌≡◌, IfOk, IfErr};
ghost use Rattle.inode_table.specs.Copies.{IsContentCopy, IsNodeCopy};

use super::Table;
use crate::content::Content;
use crate::node::Node;
use crate::recent_directory::{NODES_MIN, Recent};
use std::alloc::AllocError;
use tree_paths::Refusal;

impl Table {
    ghost use Rattle.inode_table.specs.TableWorld.{world_of};

    /// A table with the same files under the same paths and numbers, which shares nothing with this one.
    ///
    /// # Errors
    /// `ENOMEM`.
    pub fn copy(&self) -> Result<Table, Refusal>
        ensures world { IfOk result (λ table. world_of table ≡ world_of self.now) }
        ensures memory { IfErr result (λ refusal. refusal ≡ Refusal.Enomem) }
    {
        // Most copies are forks that make few calls, so there are no slots before it has grown.
        let from = usize::max(NODES_MIN, self.nodes.len().saturating_mul(2));
        // Each node keeps its slot, so the keys in the directories are right in the copy too.
        Ok(Table {
            nodes: self.nodes.clone()?,
            alloc: self.alloc,
            recent: Recent::new(self.alloc, from),
        })
    }
}

impl Clone for Node {
    ghost is_clone = { IsNodeCopy };

    fn clone(&self) -> Result<Node, AllocError> {
        Ok(Node {
            number: self.number,
            mode: self.mode,
            links: self.links,
            content: self.content.clone()?,
        })
    }
}

impl Clone for Content {
    ghost is_clone = { IsContentCopy };

    fn clone(&self) -> Result<Content, AllocError> {
        match self {
            Content::Regular(bytes) => {
                let copy = Vec::from_slice(*bytes.allocator(), bytes.as_slice())?;
                Ok(Content::Regular(copy))
            }
            Content::Directory(names) => Ok(Content::Directory(names.clone()?)),
        }
    }
}
