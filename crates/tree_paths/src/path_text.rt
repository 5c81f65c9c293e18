//! Where a path keeps its names.

ghost use Rattle.std.specs.Prelude.{◌≡◌, ◌++◌, ◌∷◌, [], IfOk, IfSome, IsTrue, MatchOption, ◌≤◌, ◌<◌, ◌-◌, length, take};
ghost use Rattle.std.specs.Prelude.{◌⊎◌, Ok, drop, false, is_some, IsSome};
ghost use Rattle.std.specs.List.{list_all};
ghost use Rattle.record_codec.specs.declared.name.TheConstants.{NAME_IN_PLACE};
ghost use Rattle.record_codec.specs.Names.{is_name};
ghost use Rattle.tree_paths.specs.PathText.{kept_names, left_names, shape_of, IsKept, IsLeft, IsSlashed, IsLastStart};
ghost use Rattle.tree_paths.specs.PathText.{slashes_in};
ghost use Rattle.tree_paths.specs.declared.stops.TheConstants.{BLOCK};
ghost use Rattle.tree_paths.specs.Paths.{is_in_place, names_of, parsed, slashed, IsParentText};

use crate::left::{Left, PathNames};
use crate::parse::{SEPARATOR, Shape, names_in, put_name, squeeze};
use crate::path_name::NameRef;
use crate::stops::BLOCK;
use record_codec::{NAME_IN_PLACE, Name, zero_padded, zero_padded_in_registers};
use std::alloc::{AllocError, Global};
use std::simd::prelude::*;

/// The most bytes of a text that the value itself has a buffer for.
pub(crate) const SHORT_MAX: usize = 30;

/// The names of a path. A text has a slash before each name, so that the root's is empty, and no name that needs an
/// allocation. The value takes 32 bytes.
#[derive(Debug)]
pub(crate) enum PathText {
    /// A text in the value itself: the first `len` bytes.
    Short { len: u8, text: [u8; SHORT_MAX] },
    /// A longer text.
    Text(Vec<u8>),
    /// Names, at least one of which needs an allocation.
    Names(Vec<Name>),
}

impl Drop for PathText {
    fn drop(self) {
        match self {
            PathText::Short { len: _, text: _ } => {}
            PathText::Text(_) => {}
            PathText::Names(_) => {}
        }
    }
}

impl PathText {
    /// No names: the root's text is empty.
    pub(crate) fn root() -> PathText
        ensures kept { kept_names result ≡ [] }
        ensures sound { IsKept result }
    {
        PathText::Short {
            len: 0,
            text: [0; SHORT_MAX],
        }
    }

    /// The names of a text that fits in the value and has a slash before each.
    #[inline(always)]
    pub(crate) fn short(text: &[u8]) -> PathText
        requires slashed { IsSlashed text.now }
        requires short { length text.now ≤ SHORT_MAX }
        ensures kept { kept_names result ≡ names_of text.now }
        ensures sound { IsKept result }
    {
        PathText::Short {
            len: text.len() as u8,
            text: zero_padded(text),
        }
    }

    /// The same as [`PathText::short`], with no copy in memory where it is called.
    #[inline(always)]
    pub(crate) fn few(text: &[u8]) -> PathText
        requires slashed { IsSlashed text.now }
        requires short { length text.now ≤ SHORT_MAX }
        ensures kept { kept_names result ≡ names_of text.now }
        ensures sound { IsKept result }
    {
        let len = text.len() as u8;
        PathText::Short {
            len,
            text: zero_padded_in_registers(text),
        }
    }

    /// The names of a path's text that is not kept as it is: one of them needs an allocation, or it has not one slash
    /// before each.
    #[cold]
    pub(crate) fn rewritten(
        alloc: Global,
        text: &[u8],
        shape: Shape,
    ) -> Result<PathText, AllocError>
        requires path { parsed text.now ≡ Ok (names_of text.now) }
        requires shape { shape ≡ shape_of (names_of text.now) }
        ensures kept { IfOk result (λ kept. kept_names kept ≡ names_of text.now) }
        ensures sound { IfOk result IsKept }
    {
        if !shape.fits {
            return Ok(PathText::Names(names_in(alloc, text, shape.count)?));
        }
        PathText::squeezed(alloc, text, shape.len)
    }

    /// The names of a path's text in which slashes stand together, or of the root's. With one slash before each name
    /// they have `len` bytes.
    fn squeezed(alloc: Global, text: &[u8], len: usize) -> Result<PathText, AllocError>
        requires path { parsed text.now ≡ Ok (names_of text.now) }
        requires slashed { IsSlashed (slashed (names_of text.now)) }
        requires len { len ≡ length (slashed (names_of text.now)) }
        ensures kept { IfOk result (λ kept. kept_names kept ≡ names_of text.now) }
        ensures sound { IfOk result IsKept }
    {
        if SHORT_MAX < len {
            let mut squeezed = vec![in alloc; 0; len]?;
            squeeze(text, &mut squeezed);
            return Ok(PathText::Text(squeezed));
        }
        let mut short = [0; SHORT_MAX];
        squeeze(text, &mut short[..len]);
        Ok(PathText::Short {
            len: len as u8,
            text: short,
        })
    }

    /// The text. `None` exactly if a name needs an allocation.
    pub(crate) fn text(&self) -> Option<&[u8]>
        requires { IsKept self.now }
        ensures names { IfSome result (λ text. names_of text.now ≡ kept_names self.now) }
        ensures sound { IfSome result (λ text. IsSlashed text.now) }
        ensures some { is_some result ≡ list_all is_in_place (kept_names self.now) }
    {
        match self {
            PathText::Short { len, text } => Some(&text[..*len as usize]),
            PathText::Text(text) => Some(text),
            PathText::Names(_) => None,
        }
    }

    /// The names, to be read.
    #[inline(always)]
    pub(crate) fn left(&self) -> Left<'_>
        requires { IsKept self.now }
        ensures names { left_names result ≡ kept_names self.now }
        ensures sound { IsLeft result }
    {
        match self {
            PathText::Short { len, text } => Left::in_text(&text[..*len as usize]),
            PathText::Text(text) => Left::in_text(text),
            PathText::Names(names) => Left::InList(names),
        }
    }

    /// The last name.
    #[inline(always)]
    pub(crate) fn last(&self) -> Option<NameRef<'_>>
        requires { IsKept self.now }
        ensures { MatchOption result (kept_names self.now ≡ [])
            (λ name. kept_names self.now ≡ take (length (kept_names self.now) - 1) (kept_names self.now) ++ name ∷ []) }
    {
        match self {
            PathText::Short { len, text } => last_in(&text[..*len as usize]),
            PathText::Text(text) => last_in(text),
            PathText::Names(names) => {
                let (name, _) = names.split_last()?;
                Some(NameRef::in_list(name))
            }
        }
    }

    /// The text of the names before the last one, and the last one. `None` exactly if there is no name, or one that
    /// needs an allocation.
    #[inline(always)]
    pub(crate) fn split_last(&self) -> Option<(&[u8], NameRef<'_>)>
        requires { IsKept self.now }
        ensures text { MatchOption result
            ((kept_names self.now ≡ []) ⊎ (list_all is_in_place (kept_names self.now) ≡ false))
            (λ split. IsParentText (kept_names self.now) split.0.now) }
        ensures last { IfSome result (λ split.
            kept_names self.now ≡ take (length (kept_names self.now) - 1) (kept_names self.now) ++ split.1 ∷ []) }
        ensures in_place { IsSome result → IsTrue (list_all is_in_place (kept_names self.now)) }
    {
        match self {
            PathText::Short { len, text } => split_last_in(&text[..*len as usize]),
            PathText::Text(text) => split_last_in(text),
            PathText::Names(_) => None,
        }
    }

    /// The names, and one more.
    pub(crate) fn child(&self, alloc: Global, name: &Name) -> Result<PathText, AllocError>
        requires { IsKept self.now }
        ensures kept { IfOk result (λ kept. kept_names kept ≡ kept_names self.now ++ name.now ∷ []) }
        ensures sound { IfOk result IsKept }
    {
        let bytes = name.bytes();
        if let Some(text) = self.text() {
            if bytes.len() <= NAME_IN_PLACE {
                return PathText::joined(alloc, text, bytes);
            }
        }
        Ok(PathText::Names(with_name(alloc, PathNames::of(self.left()), name)?))
    }

    /// The names of a text, and one more.
    fn joined(alloc: Global, text: &[u8], name: &[u8]) -> Result<PathText, AllocError>
        requires slashed { IsSlashed text.now }
        requires name { IsTrue (is_name name.now) }
        requires short { length name.now ≤ NAME_IN_PLACE }
        ensures kept { IfOk result (λ kept. kept_names kept ≡ names_of text.now ++ name.now ∷ []) }
        ensures sound { IfOk result IsKept }
    {
        let len = text.len() + 1 + name.len();
        let mut short = [0; SHORT_MAX];
        if SHORT_MAX < len {
            let mut longer = Vec::with_capacity(alloc, len)?;
            longer.extend_from_slice(text)?;
            longer.push(SEPARATOR)?;
            longer.extend_from_slice(name)?;
            return Ok(PathText::Text(longer));
        }
        short[..text.len()].copy_from_slice(text);
        put_name(&mut short, text.len(), name);
        Ok(PathText::Short {
            len: len as u8,
            text: short,
        })
    }

    /// Returns a copy.
    pub(crate) fn copy(&self) -> Result<PathText, AllocError>
        requires { IsKept self.now }
        ensures kept { IfOk result (λ kept. kept_names kept ≡ kept_names self.now) }
        ensures sound { IfOk result IsKept }
    {
        Ok(match self {
            PathText::Short { len, text } => PathText::Short {
                len: *len,
                text: *text,
            },
            PathText::Text(text) => PathText::Text(Vec::from_slice(*text.allocator(), text)?),
            PathText::Names(names) => PathText::Names(copies(*names.allocator(), names)?),
        })
    }
}

/// The last name of a text.
#[inline(always)]
fn last_in(text: &[u8]) -> Option<NameRef<'_>>
    requires { IsSlashed text.now }
    ensures { MatchOption result (names_of text.now ≡ [])
        (λ name. names_of text.now ≡ take (length (names_of text.now) - 1) (names_of text.now) ++ name ∷ []) }
{
    if text.is_empty() {
        return None;
    }
    Some(NameRef::in_text(&text[last_start(text)..]))
}

/// The text before the last name's slash, and the last name, if there is one.
#[inline(always)]
fn split_last_in(text: &[u8]) -> Option<(&[u8], NameRef<'_>)>
    requires { IsSlashed text.now }
    ensures text { MatchOption result (names_of text.now ≡ [])
        (λ split. IsParentText (names_of text.now) split.0.now) }
    ensures last { IfSome result (λ split.
        names_of text.now ≡ take (length (names_of text.now) - 1) (names_of text.now) ++ split.1 ∷ []) }
{
    if text.is_empty() {
        return None;
    }
    let start = last_start(text);
    Some((&text[..start - 1], NameRef::in_text(&text[start..])))
}

/// Where the last name of a text begins.
#[inline(always)]
fn last_start(text: &[u8]) -> usize
    requires slashed { IsSlashed text.now }
    requires some { 0 < length text.now }
    ensures { IsLastStart text.now result }
{
    let mut start = text.len();
    if BLOCK < start {
        start -= BLOCK;
        let slashes = last_slashes(text);
        if slashes != 0 {
            return start + slashes.ilog2() as usize + 1;
        }
    }
    while text[start - 1] != SEPARATOR {
        start -= 1;
    }
    start
}

/// Bit k says whether byte k of a text's last block is a slash.
#[inline(always)]
fn last_slashes(text: &[u8]) -> u64
    requires { BLOCK ≤ length text.now }
    ensures { result ≡ slashes_in (drop (length text.now - BLOCK) text.now) }
{
    u8x16::from_slice(&text[text.len() - BLOCK..])
        .simd_eq(u8x16::splat(SEPARATOR))
        .to_bitmask()
}

/// Copies of the names, and of one more.
fn with_name(alloc: Global, names: PathNames, name: &Name) -> Result<Vec<Name>, AllocError>
    ensures { IfOk result (λ longer. longer.items ≡ names.entry ++ name.now ∷ []) }
{
    let mut names = names;
    let mut longer = Vec::new(alloc);
    while let Some(name) = names.next() {
        longer.push(name.as_name().copy()?)?;
    }
    longer.push(name.copy()?)?;
    Ok(longer)
}

/// Returns copies of the names.
pub(crate) fn copies(alloc: Global, names: &[Name]) -> Result<Vec<Name>, AllocError>
    ensures { IfOk result (λ copied. copied.items ≡ names.now) }
{
    let mut copied = Vec::with_capacity(alloc, names.len())?;
    for name in names {
        copied.push(name.copy()?)?;
    }
    Ok(copied)
}
