//! Pathnames as texts.

ghost use Rattle.std.specs.Prelude.{◌≡◌, ◌+◌, ◌++◌, ◌∷◌, [], ◌≤◌, filter, ◌<◌, true, false, IfOk, MatchResult};
ghost use Rattle.std.specs.Prelude.{if◌then◌else◌, length, take, slice_index, Ok};
ghost use Rattle.std.specs.List.{list_any, list_all};
ghost use Rattle.record_codec.specs.Names.{is_name_byte};
ghost use Rattle.tree_paths.specs.declared.refusal.Refusal.TheVariants.{Einval, Enametoolong};
ghost use Rattle.tree_paths.specs.PathText.{shape_of, is_plain, is_plain_name, is_special};
ghost use Rattle.tree_paths.specs.Pieces.{is_nonempty, pieces};
ghost use Rattle.tree_paths.specs.Paths.{parsed, names_of, is_null, is_dots, is_long, slash, slashed};

use crate::Refusal;
use crate::stops::{BLOCK, block_stops, near_len, next_stop, stops_of};
use record_codec::{NAME_IN_PLACE, NAME_MAX, Name};
use std::alloc::{AllocError, Global};

/// The bytes of a path's text with a zero byte behind it, as POSIX counts them.
const PATH_MAX: usize = 4096;

/// What stands between names.
pub(crate) const SEPARATOR: u8 = b'/';

const DOT: u8 = b'.';

/// What is asked of a path's text before its names are kept.
#[derive(Clone, Copy)]
pub(crate) struct Shape {
    /// How many names it has.
    pub(crate) count: usize,
    /// How many bytes the names have with one slash before each.
    pub(crate) len: usize,
    /// Whether no name needs an allocation.
    pub(crate) fits: bool,
}

/// The shape of a path's text, or why the text is no path.
#[tactic(auto, unfolding(crate::specs::Paths::parsed))]
pub(crate) fn shape_of_text(text: &[u8]) -> Result<Shape, Refusal>
    ensures answer { MatchResult result (λ shape. parsed text.now ≡ Ok (names_of text.now))
        (λ refusal. parsed text.now ≡ Err refusal) }
    ensures shape { IfOk result (λ shape. shape ≡ shape_of (names_of text.now)) }
{
    if text.is_empty() {
        return Err(Refusal::Enoent);
    }
    if PATH_MAX <= text.len() {
        return Err(Refusal::Enametoolong);
    }
    if text[0] != SEPARATOR {
        return Err(Refusal::Einval);
    }
    if 1 < text.len() && text[text.len() - 1] == SEPARATOR {
        return Err(Refusal::Einval);
    }
    shape_between(&text[1..])
}

/// Whether a text of fewer bytes than a block has one slash before each name, and no name that begins with a dot. Most
/// paths are such, and are kept as they are.
#[tactic(auto, unfolding(crate::specs::PathText::is_plain))]
#[inline(always)]
pub(crate) fn is_plain(text: &[u8]) -> bool
    ensures { result ≡ is_plain text.now }
{
    if BLOCK <= text.len() {
        return false;
    }
    match text {
        [first, names @ ..] => *first == SEPARATOR && are_plain(names),
        [] => false,
    }
}

/// Whether the bytes between slashes are names, none of which begins with a dot.
#[inline(always)]
fn are_plain(text: &[u8]) -> bool
    ensures { result ≡ list_all is_plain_name (pieces slash text.now) }
{
    let mut begins = true;
    for b in text {
        if is_special(begins, *b) {
            return false;
        }
        begins = *b == SEPARATOR;
    }
    !begins
}

/// Whether a byte is none of a plain text: a zero byte, or a slash or a dot where a name has to begin.
#[inline(always)]
fn is_special(begins: bool, byte: u8) -> bool
    ensures { result ≡ is_special begins byte }
{
    // The first test alone passes over most bytes of a name.
    byte <= SEPARATOR && (byte == 0 || (begins && (byte == SEPARATOR || byte == DOT)))
}

/// The shape of names between slashes, or why they are no path's.
fn shape_between(text: &[u8]) -> Result<Shape, Refusal>
    ensures { result ≡ (if list_any is_null text.now then Err Einval
        else if list_any is_dots (names_of text.now) then Err Einval
        else if list_any is_long (names_of text.now) then Err Enametoolong
        else Ok (shape_of (names_of text.now))) }
{
    let mut rest = text;
    let mut stops = stops_of(text);
    let mut count = 0;
    let mut bytes = 0;
    let mut longest = 0;
    loop {
        let (len, behind) = next_stop(rest, stops);
        let front = &rest[..len];
        if has_dots(front) {
            return Err(Refusal::Einval);
        }
        count += usize::from(0 < len);
        bytes += len;
        longest = longest.max(len);
        if len == rest.len() {
            if NAME_MAX < longest {
                return Err(Refusal::Enametoolong);
            }
            return Ok(Shape {
                count,
                len: count + bytes,
                fits: longest <= NAME_IN_PLACE,
            });
        }
        if rest[len] != SEPARATOR {
            return Err(Refusal::Einval);
        }
        rest = &rest[len + 1..];
        stops = behind;
    }
}

/// How many bytes stand before the first slash or zero byte.
pub(crate) fn front_len(text: &[u8]) -> usize
    ensures within { result ≤ length text.now }
    ensures front { list_all is_name_byte (take result text.now) ≡ true }
    ensures end { result < length text.now → is_name_byte (slice_index text.now result) ≡ false }
{
    let mut len = 0;
    while BLOCK <= text.len() - len {
        let stops = block_stops::<BLOCK>(text, len);
        if stops != 0 {
            return len + stops.trailing_zeros() as usize;
        }
        len += BLOCK;
    }
    len + near_len(&text[len..])
}

/// Whether a name is `.` or `..`.
fn has_dots(name: &[u8]) -> bool
    ensures { result ≡ is_dots name.now }
{
    if 2 < name.len() {
        return false;
    }
    match name {
        [first] => *first == b'.',
        [first, second] => *first == b'.' && *second == b'.',
        _ => false,
    }
}

/// The names of a path's text, in memory for `count` of them.
pub(crate) fn names_in(alloc: Global, text: &[u8], count: usize) -> Result<Vec<Name>, AllocError>
    requires { parsed text.now ≡ Ok (names_of text.now) }
    ensures { IfOk result (λ names. names.items ≡ names_of text.now) }
{
    let mut names = Vec::with_capacity(alloc, count)?;
    let mut rest = &text[1..];
    loop {
        let len = front_len(rest);
        if 0 < len {
            names.push(Name::from_bytes(alloc, &rest[..len])?)?;
        }
        if len == rest.len() {
            return Ok(names);
        }
        rest = &rest[len + 1..];
    }
}

/// Writes the names of a path's text to `out`, with one slash before each.
pub(crate) fn squeeze(text: &[u8], out: &mut [u8])
    requires path { parsed text.now ≡ Ok (names_of text.now) }
    requires len { length out.old ≡ length (slashed (names_of text.now)) }
    ensures { out.new ≡ slashed (names_of text.now) }
{
    let mut at = 0;
    let mut rest = &text[1..];
    let mut stops = stops_of(rest);
    loop {
        let (len, behind) = next_stop(rest, stops);
        at = put_front(out, at, &rest[..len]);
        if len == rest.len() {
            return;
        }
        rest = &rest[len + 1..];
        stops = behind;
    }
}

/// Writes a slash and a name at an index, unless there is no name, and returns the index behind them.
fn put_front(out: &mut [u8], at: usize, name: &[u8]) -> usize
    requires { at + length (slashed (filter is_nonempty (name.now ∷ []))) ≤ length out.old }
    ensures end { result ≡ at + length (slashed (filter is_nonempty (name.now ∷ []))) }
    ensures written { take result out.new ≡ take at out.old ++ slashed (filter is_nonempty (name.now ∷ [])) }
{
    if name.is_empty() {
        return at;
    }
    put_name(out, at, name);
    at + 1 + name.len()
}

/// Writes a slash and a name at an index.
pub(crate) fn put_name(out: &mut [u8], at: usize, name: &[u8])
    requires { at + 1 + length name.now ≤ length out.old }
    ensures { take (at + 1 + length name.now) out.new ≡ take at out.old ++ slash ∷ name.now }
{
    out[at] = SEPARATOR;
    out[at + 1..at + 1 + name.len()].copy_from_slice(name);
}
