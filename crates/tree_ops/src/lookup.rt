//! What stands at a path.

ghost use Rattle.std.specs.Prelude.{◌≡◌, IsSome};
ghost use Rattle.std.specs.Result.{result_ok, result_err};
ghost use Rattle.inode_table.specs.Refusals.{find, parent_of};
ghost use Rattle.inode_table.specs.Resolution.{IsResolved};
ghost use Rattle.inode_table.specs.TableWorld.{world_of};
ghost use Rattle.inode_table.specs.World.{look};
ghost use Rattle.tree_ops.specs.After.{bytes_at};
ghost use Rattle.tree_ops.specs.Refused.{is_root};

use inode_table::{Resolved, Seen, Table};
use std::marker::Model;
use tree_paths::{Path, Refusal};

/// A path on the table that it is resolved on.
#[derive(Drop)]
pub struct Lookup<'t, 'a> {
    table: &'t Table,
    path: &'a Resolved<'a>,
}

impl<'t, 'a> Model for Lookup<'t, 'a> {
    ghost use Rattle.tree_ops.specs.CallPaths.{LookupValue};
    ghost use Rattle.inode_table.specs.Resolution.{IsResolved};

    ghost Value = { LookupValue };

    ghost view = { λ lookup. record { tree = lookup.table.now; path = lookup.path.now } };

    ghost invariant = { λ lookup. IsResolved lookup.table.now lookup.path.now };
}

impl<'t, 'a> Lookup<'t, 'a> {
    /// A path that is resolved on this table.
    #[inline(always)]
    pub(crate) fn new(table: &'t Table, path: &'a Resolved<'a>) -> Lookup<'t, 'a>
        requires { IsResolved table.now path.now }
        ensures tree { result.tree ≡ table.now }
        ensures path { result.path ≡ path.now }
    {
        Lookup { table, path }
    }

    /// The table.
    #[inline(always)]
    pub(crate) fn table(&self) -> &'t Table
        ensures { result.now ≡ self.now.tree }
    {
        self.table
    }

    /// The path as it is resolved.
    #[inline(always)]
    pub(crate) fn resolved(&self) -> &'a Resolved<'a>
        ensures path { result.now ≡ self.now.path }
        ensures resolved { IsResolved self.now.tree self.now.path }
    {
        self.path
    }

    /// The path.
    #[inline(always)]
    pub fn as_path(&self) -> &'a Path
        ensures { result.now ≡ self.now.path.names }
    {
        self.path.as_path()
    }

    /// What stands there, or why nothing does.
    #[inline(always)]
    pub fn find(&self) -> Result<Seen, Refusal>
        ensures seen { result_ok result ≡ look (world_of self.now.tree) self.now.path.names }
        ensures missing { result_err result ≡ find (look (world_of self.now.tree)) self.now.path.names }
    {
        self.table.lookup(self.path)
    }

    /// What stands there, if anything does.
    #[inline(always)]
    pub fn seen(&self) -> Option<Seen>
        ensures { result ≡ look (world_of self.now.tree) self.now.path.names }
    {
        self.table.seen(self.path)
    }

    /// What stands at the directory of the path's last name, or why nothing does. Of the root it is the root itself.
    #[inline(always)]
    pub fn find_parent(&self) -> Result<Seen, Refusal>
        ensures seen { result_ok result ≡ look (world_of self.now.tree) (parent_of self.now.path.names) }
        ensures missing { result_err result ≡ find (look (world_of self.now.tree)) (parent_of self.now.path.names) }
    {
        self.table.lookup_parent(self.path)
    }

    /// The bytes of the file that is there. A directory has none.
    pub fn content(&self) -> &'t [u8]
        requires { IsSome (look (world_of self.now.tree) self.now.path.names) }
        ensures { result.now ≡ bytes_at (world_of self.now.tree) self.now.path.names }
    {
        self.table.content(self.table.key(self.path))
    }

    /// Whether the path is the root's.
    #[inline(always)]
    pub(crate) fn is_root(&self) -> bool
        ensures { result ≡ is_root self.now.path.names }
    {
        self.path.as_path().is_root()
    }
}
