//! All paths of a table.

ghost use Rattle.std.specs.Prelude.{◌≡◌, ◌++◌, All, IfOk, IfErr, OnOk, IsSome, Some, reverse};
ghost use Rattle.std.specs.BTreeMap as tree;
ghost use Rattle.std.specs.Cmp.Lexicographic.{slice_cmp};
ghost use Rattle.std.specs.FinMap as finmap;
ghost use Rattle.std.specs.Ordering.{nat_cmp};
ghost use Rattle.inode_table.specs.Rows.{row_under};
ghost use Rattle.inode_table.specs.Kept.{rows_of, IsTable};
ghost use Rattle.inode_table.specs.Listing.{ArePaths, Visits, longer};

use super::{ROOT, Table};
use crate::content::Content;
use crate::node::Node;
use record_codec::Name;
use slab::Slab;
use std::alloc::{AllocError, Global};
use std::collections::BTreeMap;
use tree_paths::{Path, Refusal};

impl Table {
    ghost use Rattle.inode_table.specs.TableWorld.{world_of};

    /// The paths in the order of their names, a prefix first, each with the number of its file.
    pub fn flat(&self) -> Result<Vec<(Path, u32)>, Refusal>
        ensures world { IfOk result (λ rows. rows.items ≡ finmap.entries (world_of self.now).paths) }
        ensures memory { IfErr result (λ refusal. refusal ≡ Refusal.Enomem) }
    {
        self.rows_law();
        Ok(all_paths(self.alloc, &self.nodes)?)
    }
}

/// The number under each path, in the order of the paths. The stack has the paths that are still to be visited, the
/// next one at the end.
fn all_paths(alloc: Global, nodes: &Slab<Node>) -> Result<Vec<(Path, u32)>, AllocError>
    requires { IsTable (rows_of nodes.now) }
    ensures { IfOk result (λ found. ArePaths (rows_of nodes.now) found.items) }
{
    let mut found = Vec::with_capacity(alloc, nodes.len())?;
    let mut pending = Vec::with_capacity(alloc, nodes.len())?;
    pending.push((Path::root(), ROOT))?;
    while let Some((path, key)) = pending.pop() {
        let number = visit(alloc, nodes, &path, key, &mut pending)?;
        found.push((path, number))?;
    }
    Ok(found)
}

/// The number of a node. The paths one name longer go onto the stack, the first one at the end.
fn visit(
    alloc: Global,
    nodes: &Slab<Node>,
    path: &Path,
    key: usize,
    pending: &mut Vec<(Path, usize)>,
) -> Result<u32, AllocError>
    requires { IsSome (row_under (rows_of nodes.now) key) }
    ensures { IfOk result (Visits (rows_of nodes.now) path.now key pending.old.items pending.new.items) }
{
    let Some(node) = nodes.get(key) else {
        unreachable!()
    };
    if let Content::Directory(names) = &node.content {
        put_off(alloc, path, names, pending)?;
    }
    Ok(node.number)
}

/// Puts the paths of the names in a directory onto the stack, the first one at the end.
fn put_off(
    alloc: Global,
    path: &Path,
    names: &BTreeMap<Name, usize>,
    pending: &mut Vec<(Path, usize)>,
) -> Result<(), AllocError>
    ensures put { OnOk result (pending.new.items ≡ pending.old.items ++ reverse (longer path.now names.now.entries)) }
    ensures ordered { OnOk result (tree.IsOrdered (slice_cmp nat_cmp) names.now) }
    ensures found { OnOk result (All (λ e. tree.get (slice_cmp nat_cmp) names.now e.0 ≡ Some e.1) names.now.entries) }
{
    pending.reserve(names.len())?;
    for (name, child) in names.iter().rev() {
        pending.push((path.child(alloc, name)?, *child))?;
    }
    Ok(())
}
