//! Names of a path.

ghost use Rattle.std.specs.Prelude.{◌≡◌, ◌≤◌, IfOk, IsOk, IsTrue, length};
ghost use Rattle.record_codec.specs.declared.name.TheConstants.{NAME_IN_PLACE};
ghost use Rattle.record_codec.specs.Names.{is_name};
ghost use Rattle.std.specs.BTreeMap.{get};
ghost use Rattle.std.specs.Cmp.Lexicographic.{slice_cmp};
ghost use Rattle.std.specs.Ordering.{nat_cmp};

use record_codec::{NAME_IN_PLACE, Name};
use std::alloc::AllocError;
use std::collections::BTreeMap;
use std::marker::Model;

/// What a reference to a name of a path is to: bytes of its text, or a name of a list.
#[derive(Drop)]
pub(crate) enum Found<'a> {
    InPlace(Name),
    Lent(&'a Name),
}

/// A name of a path: one that is made of its text, or one of its list. It takes no memory.
#[derive(Drop)]
pub struct PathName<'a> {
    found: Found<'a>,
}

impl<'a> Model for PathName<'a> {
    ghost use Rattle.std.specs.Prelude.{ℕ, List};
    ghost use Rattle.tree_paths.specs.PathText.{found_name};

    ghost Value = { List ℕ };

    ghost view = { λ name. found_name name.found };
}

impl<'a> PathName<'a> {
    /// The name of these bytes.
    #[inline(always)]
    pub(crate) fn in_place(bytes: &[u8]) -> PathName<'a>
        requires name { IsTrue (is_name bytes.now) }
        requires short { length bytes.now ≤ NAME_IN_PLACE }
        ensures { result ≡ bytes.now }
    {
        PathName {
            found: Found::InPlace(Name::in_place(bytes)),
        }
    }

    /// This name.
    pub(crate) fn lent(name: &'a Name) -> PathName<'a>
        ensures { result ≡ name.now }
    {
        PathName {
            found: Found::Lent(name),
        }
    }

    /// The name.
    pub fn as_name(&self) -> &Name
        ensures { result.now ≡ self.now }
    {
        match &self.found {
            Found::InPlace(name) => name,
            Found::Lent(name) => name,
        }
    }
}

/// What a reference to a name of a path is to: bytes of its text, or a name of a list.
#[derive(Clone, Copy)]
pub(crate) enum Source<'a> {
    InText(&'a [u8]),
    InList(&'a Name),
}

/// A reference to a name of a path: to its bytes in a text, or to a name of a list. It is moved in three words.
#[derive(Drop)]
pub struct NameRef<'a> {
    source: Source<'a>,
}

impl<'a> Model for NameRef<'a> {
    ghost use Rattle.std.specs.Prelude.{ℕ, List};
    ghost use Rattle.tree_paths.specs.PathText.{source_name, IsSource};

    ghost Value = { List ℕ };

    ghost view = { λ name. source_name name.source };

    ghost invariant = { λ name. IsSource name.source };
}

impl<'a> NameRef<'a> {
    /// The name of these bytes.
    #[inline(always)]
    pub(crate) fn in_text(bytes: &'a [u8]) -> NameRef<'a>
        requires name { IsTrue (is_name bytes.now) }
        requires short { length bytes.now ≤ NAME_IN_PLACE }
        ensures { result ≡ bytes.entry.now }
    {
        NameRef {
            source: Source::InText(bytes),
        }
    }

    /// This name.
    #[inline(always)]
    pub(crate) fn in_list(name: &'a Name) -> NameRef<'a>
        ensures { result ≡ name.now }
    {
        NameRef {
            source: Source::InList(name),
        }
    }

    /// The value under the name in a map. It takes no memory.
    #[inline(always)]
    pub fn value_in<V: Copy>(&self, map: &BTreeMap<Name, V>) -> Option<V>
        ensures { result ≡ get (slice_cmp nat_cmp) map.now self.now }
    {
        match self.source {
            Source::InText(bytes) => {
                let name = Name::in_place(bytes);
                map.get(&name).copied()
            }
            Source::InList(name) => map.get(name).copied(),
        }
    }

    /// The name. It takes no memory.
    #[inline(always)]
    pub fn name(&self) -> PathName<'a>
        ensures { result ≡ self.now }
    {
        match self.source {
            Source::InText(bytes) => PathName::in_place(bytes),
            Source::InList(name) => PathName::lent(name),
        }
    }

    /// The name, to be kept. One of at most [`NAME_IN_PLACE`] bytes takes no memory.
    ///
    /// # Errors
    /// `AllocError`, where there is no memory for it.
    #[inline(always)]
    pub fn to_name(&self) -> Result<Name, AllocError>
        ensures short { length self.now ≤ NAME_IN_PLACE → IsOk result }
        ensures same { IfOk result (λ name. name ≡ self.now) }
    {
        match self.source {
            Source::InText(bytes) => Ok(Name::in_place(bytes)),
            Source::InList(name) => name.copy(),
        }
    }
}
