//! A path as it is resolved on a table.

ghost use Rattle.std.specs.Prelude.{◌≡◌, ◌≢◌, ◌++◌, ◌∷◌, []};
ghost use Rattle.inode_table.specs.Refusals.{parent_of};

use crate::found::Found;
use std::marker::Model;
use tree_paths::{NameRef, Path, PathName};

/// A path, and what [`crate::Table::resolve`] found along it, in the table as it was then.
#[derive(Drop)]
pub struct Resolved<'a> {
    pub(crate) path: &'a Path,
    pub(crate) directory: Found,
    pub(crate) here: Found,
}

impl<'a> Model for Resolved<'a> {
    ghost use Rattle.inode_table.specs.Resolution.{ResolvedPath};
    ghost use Rattle.inode_table.specs.Found.{found_of};

    ghost Value = { ResolvedPath };

    ghost view = { λ resolved. record {
      names = resolved.path.now;
      directory = found_of resolved.directory;
      here = found_of resolved.here;
    } };
}

impl<'a> Resolved<'a> {
    /// Returns a copy.
    #[inline(always)]
    pub fn copied(&self) -> Resolved<'a>
        ensures { result ≡ self.now }
    {
        Resolved {
            path: self.path,
            directory: self.directory,
            here: self.here,
        }
    }

    /// The path.
    pub fn as_path(&self) -> &'a Path
        ensures { result.now ≡ self.now.names }
    {
        self.path
    }

    /// A reference to the last name of the path.
    #[inline(always)]
    pub(crate) fn last_name_ref(&self) -> NameRef<'a>
        requires { self.now.names ≢ [] }
        ensures { self.now.names ≡ parent_of self.now.names ++ result ∷ [] }
    {
        match self.path.last_name_ref() {
            Some(name) => name,
            None => unreachable!(),
        }
    }

    /// The last name of the path.
    #[inline(always)]
    pub(crate) fn last_name(&self) -> PathName<'a>
        requires { self.now.names ≢ [] }
        ensures { self.now.names ≡ parent_of self.now.names ++ result ∷ [] }
    {
        self.last_name_ref().name()
    }
}
