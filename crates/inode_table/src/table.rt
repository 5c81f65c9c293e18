//! The table of nodes.

ghost use Rattle.std.specs.Prelude.{◌≡◌, ◌↔◌, ◌≤◌, ℕ, List, None, Some, IfOk, IfErr, OnOk, OnErr, IsSome};
ghost use Rattle.std.specs.Prelude.{if◌then◌else◌, Err, IfSome};
ghost use Rattle.std.specs.FinMap as finmap;
ghost use Rattle.inode_table.specs.Rows.{Label, row_under};
ghost use Rattle.inode_table.specs.Kept.{rows_of, is_directory, row_of};
ghost use Rattle.inode_table.specs.Tree.{at, what_at};
ghost use Rattle.inode_table.specs.Found.{found_of};

use crate::content::Content;
use crate::found::Found;
use crate::key::Key;
use crate::node::{Node, is_directory};
use crate::recent_directory::{NODES_MIN, Recent};
use record_codec::Name;
use slab::Slab;
use std::alloc::{AllocError, Global};
use std::collections::BTreeMap;
use std::marker::Model;
use tree_paths::Refusal;

mod changing;
mod copying;
mod files;
mod flat;
mod keyed;
mod reading;
mod resolving;
mod writing;

const ROOT: usize = 0;

const ROOT_NUMBER: u32 = 1;

const ROOT_MODE: u32 = 0o755;

/// A tree of directories and files, which contracts see as the map from paths to what stands there.
///
/// [`Table::resolve`] walks along a path, and the calls take what it found. A call that grows the table makes all its
/// allocations before its first change. So after an `Err`, which is always `Refusal::Enomem`, the table is as it was.
pub struct Table {
    nodes: Slab<Node>,
    alloc: Global,
    recent: Recent,
}

impl Drop for Table {
    fn drop(self) {
        let Table {
            nodes: _,
            alloc: _,
            recent: _,
        } = self;
    }
}

impl Model for Table {
    ghost use Rattle.std.specs.Prelude.{◌-◌};
    ghost use Rattle.slab.specs.Slab.{slab_len};
    ghost use Rattle.inode_table.specs.Kept.{rows_of};
    ghost use Rattle.inode_table.specs.Recent.{Keeps};
    ghost use Rattle.inode_table.specs.Tree.{TableValue};

    ghost Value = { TableValue };

    ghost view = { λ a. record { rows = rows_of a.nodes; room = a.nodes.capacity - slab_len a.nodes } };

    ghost invariant = { λ a. Keeps (rows_of a.nodes) a.recent };
}

impl Table {
    ghost use Rattle.inode_table.specs.World.{File, IsWorld, look, opening_world};
    ghost use Rattle.inode_table.specs.Flat.{number_under};
    ghost use Rattle.inode_table.specs.Resolution.{ResolvedPath, IsResolved};
    ghost use Rattle.inode_table.specs.Refusals.{find};
    ghost use Rattle.inode_table.specs.Stands.{Stands, look_in};
    ghost use Rattle.inode_table.specs.TableWorld.{IsNodeOf, number_of, world_of};
    ghost use Rattle.inode_table.specs.Kept.{IsTable};
    ghost use Rattle.inode_table.specs.Recent.{IsKnown};

    /// The root alone: number 1, mode 0755.
    pub fn new(alloc: Global) -> Result<Self, Refusal>
        ensures world { IfOk result (λ table. world_of table ≡ opening_world) }
        ensures memory { IfErr result (λ refusal. refusal ≡ Refusal.Enomem) }
    {
        let recent = Recent::new(alloc, NODES_MIN);
        let mut nodes = Slab::new(alloc);
        nodes.reserve(1)?;
        nodes.insert_reserved(Node {
            number: ROOT_NUMBER,
            mode: ROOT_MODE,
            links: 1,
            content: Content::Directory(BTreeMap::new(alloc)),
        });
        Ok(Table {
            nodes,
            alloc,
            recent,
        })
    }

    /// Reserves capacity for one node. Where the nodes grow, it also allocates slots for remembered directories
    /// ([`Table::resolve_recent`]).
    pub fn reserve_node(&mut self) -> Result<(), Refusal>
        ensures rows { self.new.rows ≡ self.old.rows }
        ensures resolved { (p : ResolvedPath) → IsResolved self.old p → IsResolved self.new p }
        ensures room { OnOk result (1 ≤ self.new.room) }
        ensures enough { 1 ≤ self.old.room → OnOk result (self.new ≡ self.old) }
        ensures err { OnErr result (self.old.room ≡ 0) }
        ensures memory { IfErr result (λ refusal. refusal ≡ Refusal.Enomem) }
    {
        let grown = self.grown_recent()?;
        self.nodes.reserve(1)?;
        if let Some(recent) = grown {
            self.recent = recent;
        }
        Ok(())
    }

    /// Where the nodes are to grow: more slots for directories to be remembered, if these nodes call for more than
    /// there are.
    fn grown_recent(&self) -> Result<Option<Recent>, AllocError>
        ensures none { IfOk result (λ recent. IfSome recent (λ r. (p : List Label) (k : ℕ) → IsKnown r p k → ⊥)) }
        ensures err { OnErr result (self.now.room ≡ 0) }
    {
        if self.nodes.len() < self.nodes.capacity() {
            return Ok(None);
        }
        self.recent.grown(self.alloc, &self.nodes)
    }

    /// What is true of the world of every table, for a caller's proof: it is a world of files, its paths are those that
    /// lead to a node, each with the node's number, and its files are the nodes under their numbers.
    pub fn law(&self)
        ensures world { IsWorld (world_of self.now) }
        ensures paths { (p : List Label) → finmap.get (world_of self.now).paths p ≡ number_under self.now.rows p }
        ensures files { (n : ℕ) (f : File) → (finmap.get (world_of self.now).files n ≡ Some f) ↔ IsNodeOf self.now n f }
    {
        let _ = &self.nodes;
    }

    /// What is true of the rows, and what they have to do with the world.
    fn rows_law(&self)
        ensures table { IsTable self.now.rows }
        ensures stands { Stands self.now (world_of self.now) }
        ensures looks { look (world_of self.now) ≡ look_in self.now }
    {
        let _ = &self.nodes;
    }

    /// The node under a key.
    fn node(&self, key: Key) -> &Node
        requires { IsSome (number_of self.now (Some key)) }
        ensures { row_under self.now.rows key ≡ Some (row_of result.now) }
    {
        match self.nodes.get(key.slot()) {
            Some(node) => node,
            None => unreachable!(),
        }
    }
}

/// Nothing, as the walk ends at this node.
fn missing_at(nodes: &Slab<Node>, key: usize) -> Found
    ensures { found_of result
        ≡ Err (if is_directory (rows_of nodes.now) key then Refusal.Enoent else Refusal.Enotdir) }
{
    Found::missing(is_directory(nodes, key))
}
