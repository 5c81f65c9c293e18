//! Names that are left to read.

ghost use Rattle.std.specs.Prelude.{◌≡◌, ◌∷◌, [], ◌<◌, length, drop, MatchOption, IsTrue, ◌↔◌};
ghost use Rattle.tree_paths.specs.PathText.{left_names, IsLeft, IsSlashed, IsSplit, IsMarked};
ghost use Rattle.tree_paths.specs.Paths.{names_of};

use crate::path_name::{NameRef, PathName};
use crate::stops::{next_stop, stops_of};
use record_codec::Name;
use std::marker::Model;

/// Names that are left to read: a text with a slash before each, or a list.
#[derive(Clone, Copy)]
pub(crate) enum Left<'a> {
    /// Beside the text, stops behind its first byte: those of the next bytes, or none.
    InText { text: &'a [u8], stops: u64 },
    InList(&'a [Name]),
}

impl<'a> Left<'a> {
    /// The names of a text.
    #[inline(always)]
    pub(crate) fn in_text(text: &'a [u8]) -> Left<'a>
        requires { IsSlashed text.now }
        ensures names { left_names result ≡ names_of text.entry.now }
        ensures sound { IsLeft result }
    {
        if text.is_empty() {
            return Left::InText { text, stops: 0 };
        }
        Left::InText {
            text,
            stops: stops_of(&text[1..]),
        }
    }
}

/// The names of a path that are left to read, the first of them nearest to the root.
#[derive(Drop)]
pub struct PathNames<'a> {
    left: Left<'a>,
}

impl<'a> Model for PathNames<'a> {
    ghost use Rattle.std.specs.Prelude.{ℕ, List};
    ghost use Rattle.tree_paths.specs.PathText.{left_names, IsLeft};

    ghost Value = { List (List ℕ) };

    ghost view = { λ names. left_names names.left };

    ghost invariant = { λ names. IsLeft names.left };
}

impl<'a> PathNames<'a> {
    /// These names.
    pub(crate) fn of(left: Left<'a>) -> PathNames<'a>
        requires { IsLeft left }
        ensures { result ≡ left_names left.entry }
    {
        PathNames { left }
    }

    /// A reference to the next name.
    #[inline(always)]
    pub fn next_name_ref(&mut self) -> Option<NameRef<'a>>
        ensures { MatchOption result ((self.old ≡ []) × (self.new ≡ [])) (λ name. self.old ≡ name ∷ self.new) }
    {
        match self.left {
            Left::InText { text, stops } => {
                if text.is_empty() {
                    return None;
                }
                let (name, behind, stops) = split_first(text, stops);
                self.left = Left::InText {
                    text: behind,
                    stops,
                };
                Some(NameRef::in_text(name))
            }
            Left::InList(names) => {
                let (name, behind) = names.split_first()?;
                self.left = Left::InList(behind);
                Some(NameRef::in_list(name))
            }
        }
    }

    /// The next name. It takes no memory.
    #[inline(always)]
    pub fn next(&mut self) -> Option<PathName<'a>>
        ensures { MatchOption result ((self.old ≡ []) × (self.new ≡ [])) (λ name. self.old ≡ name ∷ self.new) }
    {
        Some(self.next_name_ref()?.name())
    }

    /// Whether no name is left.
    pub fn is_empty(&self) -> bool
        ensures { IsTrue result ↔ (self.now ≡ []) }
    {
        match self.left {
            Left::InText { text, stops: _ } => text.is_empty(),
            Left::InList(names) => names.is_empty(),
        }
    }
}

/// The first name of a text, what stands behind it, and the stops there.
#[inline(always)]
fn split_first(text: &[u8], stops: u64) -> (&[u8], &[u8], u64)
    requires slashed { IsSlashed text.now }
    requires some { 0 < length text.now }
    requires marked { IsMarked (drop 1 text.now) stops }
    ensures split { IsSplit text.now result.0.now result.1.now }
    ensures marked { IsMarked (drop 1 result.1.now) result.2 }
{
    let rest = &text[1..];
    let (len, behind) = next_stop(rest, stops);
    (&rest[..len], &rest[len..], behind)
}
