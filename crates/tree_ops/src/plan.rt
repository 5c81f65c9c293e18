//! Calls that no row refuses.

ghost use Rattle.std.specs.Prelude.{◌≡◌};
ghost use Rattle.inode_table.specs.TableWorld.{world_of};
ghost use Rattle.tree_ops.specs.CallPaths.{path_of, other_path_of};
ghost use Rattle.tree_ops.specs.Moves.{cookies_of, moves_of};
ghost use Rattle.tree_ops.specs.ReadyCall.{IsReady};
ghost use Rattle.tree_ops.specs.After.{numbers_of};

use crate::call::{Counts, FileCall};
use crate::lookup::Lookup;
use crate::moves::Moves;
use crate::paths::Paths;
use inode_table::Resolved;
use std::marker::Model;

/// A call that no row refuses on the table that it was checked on, as [`crate::check`] makes it. It borrows its paths
/// and the table.
#[derive(Drop)]
pub struct Ready<'p, 't, 'a> {
    pub(crate) paths: &'p Paths<'t, 'a>,
    pub(crate) counts: Counts,
    pub(crate) moves: Moves,
}

impl<'p, 't, 'a> Model for Ready<'p, 't, 'a> {
    ghost use Rattle.tree_ops.specs.ReadyCall.{IsReady, ReadyValue, plan_with};

    ghost Value = { ReadyValue };

    ghost view = { λ r. record { tree = r.paths.now.tree; plan = plan_with r.paths.now r.counts r.moves } };

    ghost invariant = { λ r. IsReady r.paths.now.tree (plan_with r.paths.now r.counts r.moves) };
}

/// What [`crate::carry_out`] does: a call, its paths, and what it moves. It borrows the call and the paths, and no
/// table.
#[derive(Drop)]
pub struct Plan<'a> {
    pub(crate) call: &'a FileCall,
    pub(crate) counts: Counts,
    pub(crate) path: &'a Resolved<'a>,
    /// The new path of a call that has two, else the path.
    pub(crate) other_path: &'a Resolved<'a>,
    pub(crate) moves: Moves,
}

impl<'a> Model for Plan<'a> {
    ghost use Rattle.tree_ops.specs.ReadyCall.{PlanValue};

    ghost Value = { PlanValue };

    ghost view = { λ p. record {
      call = p.call.now;
      counts = p.counts;
      path = p.path.now;
      other_path = p.other_path.now;
      moves = p.moves;
    } };
}

impl<'p, 't, 'a> Ready<'p, 't, 'a> {
    /// The call that was checked.
    pub fn call(&self) -> &'a FileCall
        ensures { result.now ≡ self.now.plan.call }
    {
        self.paths.call()
    }

    /// The path of the call, and the old one where it has two.
    #[inline(always)]
    pub fn path(&self) -> Lookup<'t, 'a>
        ensures tree { result.tree ≡ self.now.tree }
        ensures names { result.path.names ≡ path_of self.now.plan.call }
    {
        self.paths.path()
    }

    /// The new path of the call, and its path where it has but one.
    #[inline(always)]
    pub fn other_path(&self) -> Lookup<'t, 'a>
        ensures tree { result.tree ≡ self.now.tree }
        ensures names { result.path.names ≡ other_path_of self.now.plan.call }
    {
        self.paths.other_path()
    }

    /// What the call moves.
    pub fn moves(&self) -> Moves
        ensures { result ≡ moves_of (world_of self.now.tree) self.now.plan.call }
    {
        self.moves
    }

    /// How many file numbers the call uses: 1 for one that makes a file or a directory, and else 0.
    pub fn numbers(&self) -> u32
        ensures { result ≡ numbers_of self.now.plan.call }
    {
        match self.paths.call() {
            FileCall::Create { .. } | FileCall::Mkdir { .. } => 1,
            _ => 0,
        }
    }

    /// How many cookies the call uses: 1 for a rename that moves something, 2 for an exchange of two files, and else 0.
    pub fn cookies(&self) -> u32
        ensures { result ≡ cookies_of (world_of self.now.tree) self.now.plan.call }
    {
        match self.moves {
            Moves::Nothing => 0,
            Moves::Move => 1,
            Moves::Exchange => 2,
        }
    }

    /// What [`crate::carry_out`] takes, which borrows the table no more.
    #[inline(always)]
    pub fn into_plan(self) -> Plan<'a>
        ensures plan { result ≡ self.entry.plan }
        ensures ready { IsReady self.entry.tree result }
    {
        self.paths.plan(self.counts, self.moves)
    }
}

impl<'a> Plan<'a> {
    /// The new path of the call, and its path where it has but one.
    #[inline(always)]
    pub(crate) fn other_path(&self) -> &'a Resolved<'a>
        ensures { result.now ≡ self.now.other_path }
    {
        self.other_path
    }
}
