//! Lists of names.

ghost use Rattle.std.specs.Prelude.{◌≡◌, ◌↔◌, nat_eq, IsTrue, IfOk, IfErr};
ghost use Rattle.std.proofs.Common.{rules};
ghost use Rattle.std.specs.Cmp.Rules.{comparing};
ghost use Rattle.std.specs.Cmp.Lexicographic.{pointwise};

use crate::Refusal;
use crate::path_text::copies;
use record_codec::Name;
use std::marker::Model;

/// Names in order, which contracts see as their list.
#[derive(Debug)]
pub struct Names {
    names: Vec<Name>,
}

impl Drop for Names {
    fn drop(self) {
        let Names { names: _ } = self;
    }
}

impl Model for Names {
    ghost use Rattle.std.specs.Prelude.{ℕ, List};

    ghost Value = { List (List ℕ) };

    ghost view = { λ names. names.names.items };
}

impl Names {
    ghost use Rattle.tree_paths.specs.declared.refusal.Refusal.TheVariants.{Enomem};

    /// These names. It takes no memory.
    pub fn from_vec(names: Vec<Name>) -> Names
        ensures { result ≡ names.items }
    {
        Names { names }
    }

    /// The names as a vector. It takes no memory.
    pub fn into_vec(self) -> Vec<Name>
        ensures { result.items ≡ self }
    {
        let Names { names } = self;
        names
    }

    /// The names in order.
    pub fn as_slice(&self) -> &[Name]
        ensures { result.now ≡ self.now }
    {
        &self.names
    }

    /// A copy of the names. `Err` means out of memory.
    pub fn copy(&self) -> Result<Names, Refusal>
        ensures ok { IfOk result (λ names. names ≡ self.now) }
        ensures err { IfErr result (λ refusal. refusal ≡ Enomem) }
    {
        Ok(Names {
            names: copies(*self.names.allocator(), self.as_slice())?,
        })
    }
}

impl PartialEq for Names {
    ghost eq = { pointwise (pointwise nat_eq) };

    ghost laws = { Prim.search (comparing, rules) };

    fn eq(&self, other: &Names) -> bool
        ensures value { result ≡ pointwise (pointwise nat_eq) self.now other.now }
        ensures same { IsTrue result ↔ (self.now ≡ other.now) }
    {
        self.as_slice() == other.as_slice()
    }
}

impl Eq for Names {
    ghost laws = { Prim.search (comparing, rules) };
}
