//! The paths of a call as they are resolved on a table.

ghost use Rattle.std.specs.Prelude.{◌≡◌};
ghost use Rattle.tree_ops.specs.CallPaths.{ArePathsOf, path_of, other_path_of};
ghost use Rattle.tree_ops.specs.ReadyCall.{plan_with};

use crate::call::{Counts, FileCall};
use crate::lookup::Lookup;
use crate::moves::Moves;
use crate::plan::Plan;
use inode_table::{Resolved, Table};
use std::marker::Model;

/// The paths of a call, resolved. They borrow the call and no table.
#[derive(Drop)]
pub struct CallPaths<'a> {
    path: Resolved<'a>,
    /// The new path of a call that has two, else the path.
    other_path: Resolved<'a>,
}

impl<'a> Model for CallPaths<'a> {
    ghost use Rattle.tree_ops.specs.CallPaths.{ResolvedPaths};

    ghost Value = { ResolvedPaths };

    ghost view = { λ p. record { path = p.path; other_path = p.other_path } };
}

impl<'a> CallPaths<'a> {
    /// Resolves the paths of a call on a table. It does not allocate.
    pub fn resolve(table: &Table, call: &'a FileCall) -> CallPaths<'a>
        ensures { ArePathsOf table.now call.now result }
    {
        let path = table.resolve(call.path());
        let other_path = match call.other_path() {
            Some(other_path) => table.resolve(other_path),
            None => path.copied(),
        };
        CallPaths { path, other_path }
    }

    /// The same as [`CallPaths::resolve`], on a table that remembers their directories ([`Table::resolve_recent`]).
    #[inline(always)]
    pub fn resolve_recent(table: &mut Table, call: &'a FileCall) -> CallPaths<'a>
        ensures same { table.new ≡ table.old }
        ensures paths { ArePathsOf table.old call.now result }
    {
        let path = table.resolve_recent(call.path());
        let other_path = match call.other_path() {
            Some(other_path) => table.resolve_recent(other_path),
            None => path.copied(),
        };
        CallPaths { path, other_path }
    }
}

/// The paths of a call on the table that each is resolved on. [`crate::check`] takes them.
#[derive(Drop)]
pub struct Paths<'t, 'a> {
    table: &'t Table,
    call: &'a FileCall,
    resolved: &'a CallPaths<'a>,
}

impl<'t, 'a> Model for Paths<'t, 'a> {
    ghost use Rattle.tree_ops.specs.CallPaths.{ArePathsOf, PathsValue};

    ghost Value = { PathsValue };

    ghost view = { λ p. record { tree = p.table.now; call = p.call.now; paths = p.resolved.now } };

    ghost invariant = { λ p. ArePathsOf p.table.now p.call.now p.resolved.now };
}

impl<'t, 'a> Paths<'t, 'a> {
    /// The paths of a call that are resolved on this table.
    #[inline(always)]
    pub fn on(table: &'t Table, call: &'a FileCall, resolved: &'a CallPaths<'a>) -> Paths<'t, 'a>
        requires { ArePathsOf table.now call.now resolved.now }
        ensures tree { result.tree ≡ table.now }
        ensures call { result.call ≡ call.now }
    {
        Paths {
            table,
            call,
            resolved,
        }
    }

    /// What is true of the paths of every call, for a caller's proof.
    #[inline(always)]
    pub(crate) fn law(&self)
        ensures { ArePathsOf self.now.tree self.now.call self.now.paths }
    {
        let _ = &self.table;
    }

    /// The call.
    #[inline(always)]
    pub fn call(&self) -> &'a FileCall
        ensures { result.now ≡ self.now.call }
    {
        self.call
    }

    /// The path of the call, and the old one where it has two.
    #[inline(always)]
    pub fn path(&self) -> Lookup<'t, 'a>
        ensures tree { result.tree ≡ self.now.tree }
        ensures path { result.path ≡ self.now.paths.path }
        ensures names { result.path.names ≡ path_of self.now.call }
    {
        let resolved = self.resolved;
        Lookup::new(self.table, &resolved.path)
    }

    /// The new path of the call, and its path where it has but one.
    #[inline(always)]
    pub fn other_path(&self) -> Lookup<'t, 'a>
        ensures tree { result.tree ≡ self.now.tree }
        ensures path { result.path ≡ self.now.paths.other_path }
        ensures names { result.path.names ≡ other_path_of self.now.call }
    {
        let resolved = self.resolved;
        Lookup::new(self.table, &resolved.other_path)
    }

    /// The plan of the call, which borrows no table.
    #[inline(always)]
    pub(crate) fn plan(&self, counts: Counts, moves: Moves) -> Plan<'a>
        ensures plan { result ≡ plan_with self.now counts moves }
        ensures paths { ArePathsOf self.now.tree self.now.call self.now.paths }
    {
        let resolved = self.resolved;
        Plan {
            call: self.call,
            counts,
            path: &resolved.path,
            other_path: &resolved.other_path,
            moves,
        }
    }
}
