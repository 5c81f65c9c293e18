//! Paths from the root.

ghost use Rattle.std.specs.Prelude.{◌≡◌, ◌⊎◌, ◌∷◌, ◌++◌, [], MatchOption, IsSome, IfOk, IfErr, IfSome, IsTrue};
ghost use Rattle.std.specs.Prelude.{◌-◌, ◌<◌, ◌↔◌};
ghost use Rattle.std.specs.Prelude.{false, take, length};
ghost use Rattle.std.specs.Prelude.{nat_eq};
ghost use Rattle.std.specs.List.{list_all};
ghost use Rattle.std.proofs.Common.{rules};
ghost use Rattle.std.specs.Cmp.Rules.{comparing};
ghost use Rattle.std.specs.Cmp.Lexicographic.{pointwise};
ghost use Rattle.tree_paths.specs.PathText.{IsSlashed};
ghost use Rattle.tree_paths.specs.Paths.{is_below, is_in_place, names_of, slashed, IsParentText};

use crate::Refusal;
use crate::left::PathNames;
use crate::parse::{SEPARATOR, is_plain, shape_of_text};
use crate::path_name::{NameRef, PathName};
use crate::path_text::{PathText, SHORT_MAX};
use record_codec::Name;
use std::alloc::{AllocError, Global};
use std::marker::Model;

/// A path from the root: its names. A short one takes no allocation, and a longer one takes one, unless it has long
/// names.
#[derive(Debug)]
pub struct Path {
    kept: PathText,
}

impl Drop for Path {
    fn drop(self) {
        let Path { kept: _ } = self;
    }
}

impl Model for Path {
    ghost use Rattle.std.specs.Prelude.{ℕ, List};
    ghost use Rattle.tree_paths.specs.PathText.{kept_names, IsKept};

    ghost Value = { List (List ℕ) };

    ghost view = { λ path. kept_names path.kept };

    ghost invariant = { λ path. IsKept path.kept };
}

impl PartialEq for Path {
    ghost eq = { pointwise (pointwise nat_eq) };

    ghost laws = { Prim.search (comparing, rules) };

    fn eq(&self, other: &Path) -> bool
        ensures value { result ≡ pointwise (pointwise nat_eq) self.now other.now }
        ensures same { IsTrue result ↔ (self.now ≡ other.now) }
    {
        match (self.kept.text(), other.kept.text()) {
            (Some(text), Some(other)) => text == other,
            _ => are_same(self.names(), other.names()),
        }
    }
}

impl Eq for Path {
    ghost laws = { Prim.search (comparing, rules) };
}

impl Path {
    ghost use Rattle.tree_paths.specs.Paths.{parsed};
    ghost use Rattle.tree_paths.specs.declared.refusal.Refusal.TheVariants.{Enomem};

    /// The path of a text. Several slashes together count as one.
    ///
    /// A text that is no path is refused without memory.
    #[inline(always)]
    pub fn parse(alloc: Global, text: &[u8]) -> Result<Path, Refusal>
        ensures ok { IfOk result (λ path. parsed text.now ≡ Ok path) }
        ensures err { IfErr result (λ refusal. (refusal ≡ Enomem) ⊎ (parsed text.now ≡ Err refusal)) }
        ensures refused { IfErr (parsed text.now) (λ refusal. result ≡ Err refusal) }
    {
        if is_plain(text) {
            return Ok(Path {
                kept: PathText::few(text),
            });
        }
        Path::parse_any(alloc, text)
    }

    /// The path of a text that need not be a plain one. A function of its own, so that a plain text pays for none of
    /// its locals.
    #[inline(never)]
    fn parse_any(alloc: Global, text: &[u8]) -> Result<Path, Refusal>
        ensures ok { IfOk result (λ path. parsed text.now ≡ Ok path) }
        ensures err { IfErr result (λ refusal. (refusal ≡ Enomem) ⊎ (parsed text.now ≡ Err refusal)) }
        ensures refused { IfErr (parsed text.now) (λ refusal. result ≡ Err refusal) }
    {
        let shape = shape_of_text(text)?;
        if !shape.fits || shape.len != text.len() {
            return Ok(Path {
                kept: PathText::rewritten(alloc, text, shape)?,
            });
        }
        if SHORT_MAX < text.len() {
            return Ok(Path {
                kept: PathText::Text(Vec::from_slice(alloc, text)?),
            });
        }
        Ok(Path {
            kept: PathText::short(text),
        })
    }

    /// The root's path.
    pub fn root() -> Path
        ensures { result ≡ [] }
    {
        Path {
            kept: PathText::root(),
        }
    }

    /// The names, from the root on. The root's own path has none.
    pub fn names(&self) -> PathNames<'_>
        ensures { result ≡ self.now }
    {
        PathNames::of(self.kept.left())
    }

    /// A reference to the last name. `None` for the root.
    #[inline(always)]
    pub fn last_name_ref(&self) -> Option<NameRef<'_>>
        ensures parts { MatchOption result (self.now ≡ [])
            (λ name. self.now ≡ take (length self.now - 1) self.now ++ name ∷ []) }
        ensures some { IsSome result ↔ (0 < length self.now) }
    {
        self.kept.last()
    }

    /// The text of the path: a slash before each name, so that the root's is empty.
    ///
    /// `None` exactly for a path with a name of more than [`record_codec::NAME_IN_PLACE`] bytes.
    pub fn text(&self) -> Option<&[u8]>
        ensures text { MatchOption result (list_all is_in_place self.now ≡ false)
            (λ text. text.now ≡ slashed self.now) }
        ensures some { IsSome result ↔ IsTrue (list_all is_in_place self.now) }
    {
        let whole = self.kept.text()?;
        Some(whole)
    }

    /// The text of the directory of the last name, and a reference to that name. The text has a slash before each name,
    /// so that the root's is empty.
    ///
    /// `None` exactly for the root's path, and for a path with a name of more than [`record_codec::NAME_IN_PLACE`]
    /// bytes.
    #[inline(always)]
    pub fn split_last(&self) -> Option<(&[u8], NameRef<'_>)>
        ensures text { MatchOption result ((self.now ≡ []) ⊎ (list_all is_in_place self.now ≡ false))
            (λ split. IsParentText self.now split.0.now) }
        ensures last { IfSome result (λ split. self.now ≡ take (length self.now - 1) self.now ++ split.1 ∷ []) }
        ensures some { IsSome result ↔ ((0 < length self.now) × IsTrue (list_all is_in_place self.now)) }
    {
        self.kept.split_last()
    }

    /// The last name. `None` for the root.
    #[inline(always)]
    pub fn last_name(&self) -> Option<PathName<'_>>
        ensures parts { MatchOption result (self.now ≡ [])
            (λ name. self.now ≡ take (length self.now - 1) self.now ++ name ∷ []) }
        ensures some { IsSome result ↔ (0 < length self.now) }
    {
        Some(self.last_name_ref()?.name())
    }

    /// Whether it is the root's.
    pub fn is_root(&self) -> bool
        ensures { IsTrue result ↔ (self.now ≡ []) }
    {
        self.names().is_empty()
    }

    /// Whether the other path is a proper prefix of this one.
    #[inline(always)]
    pub fn is_below(&self, other: &Path) -> bool
        ensures { result ≡ is_below self.now other.now }
    {
        match (self.kept.text(), other.kept.text()) {
            (Some(text), Some(above)) => is_text_below(text, above),
            _ => are_below(self.names(), other.names()),
        }
    }

    /// The path with one more name.
    ///
    /// # Errors
    /// `AllocError`, where there is no memory for it.
    pub fn child(&self, alloc: Global, name: &Name) -> Result<Path, AllocError>
        ensures { IfOk result (λ path. path ≡ self.now ++ name.now ∷ []) }
    {
        Ok(Path {
            kept: self.kept.child(alloc, name)?,
        })
    }

    /// A copy of the path. `Err` means out of memory.
    pub fn copy(&self) -> Result<Path, Refusal>
        ensures ok { IfOk result (λ path. path ≡ self.now) }
        ensures err { IfErr result (λ refusal. refusal ≡ Enomem) }
    {
        Ok(Path {
            kept: self.kept.copy()?,
        })
    }
}

/// Whether the names are the same.
fn are_same(names: PathNames, other: PathNames) -> bool
    ensures { result ≡ pointwise (pointwise nat_eq) names.entry other.entry }
{
    let mut names = names;
    let mut other = other;
    loop {
        let Some(name) = names.next() else {
            return other.is_empty();
        };
        match other.next() {
            Some(other) if name.as_name() == other.as_name() => {}
            _ => return false,
        }
    }
}

/// Whether the other names are a proper front of these.
fn are_below(names: PathNames, above: PathNames) -> bool
    ensures { result ≡ is_below names.entry above.entry }
{
    let mut names = names;
    let mut above = above;
    loop {
        let Some(front) = above.next() else {
            return !names.is_empty();
        };
        let Some(name) = names.next() else {
            return false;
        };
        if name.as_name() != front.as_name() {
            return false;
        }
    }
}

/// Whether the other text is a proper front of this one, up to a slash.
fn is_text_below(text: &[u8], above: &[u8]) -> bool
    requires slashed { IsSlashed text.now }
    requires above { IsSlashed above.now }
    ensures { result ≡ is_below (names_of text.now) (names_of above.now) }
{
    if text.len() <= above.len() {
        return false;
    }
    if text[above.len()] != SEPARATOR {
        return false;
    }
    text.starts_with(above)
}
