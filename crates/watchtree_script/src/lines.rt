//! The lines of a script.

ghost use Rattle.std.specs.Prelude.{◌≡◌, ◌≤◌, ◌<◌, ◌∷◌, [], MatchOption, IfSome, length, slice_index, take, true};
ghost use Rattle.std.specs.List.{list_all, prefix_len};
ghost use Rattle.std.specs.Option.{option_copied};
ghost use Rattle.std.specs.Str.{byte};
ghost use Rattle.tree_paths.specs.Pieces.{pieces};
ghost use Rattle.watchtree_script.specs.Lines.{is_line_byte, lines_of};
ghost use Rattle.watchtree_script.specs.Reading.{is_before, pieces_in, stops_in};
ghost use Rattle.watchtree_script.specs.Words.{is_escaped};

use crate::pieces::split_first;
use crate::words::{ESCAPE, has_escape};
use std::marker::Model;
use std::simd::prelude::*;

const LINE_FEED: u8 = b'\n';

/// How many bytes are tested at once.
const BLOCK: usize = 16;

/// A line of a script.
#[derive(Clone, Copy)]
pub(crate) struct ScriptLine<'a> {
    pub bytes: &'a [u8],
    /// Whether each of its bytes is a space or a byte of a word.
    pub is_printable: bool,
    /// Whether a byte of it is escaped.
    pub has_escape: bool,
}

impl<'a> ScriptLine<'a> {
    /// The line of these bytes.
    pub fn of(bytes: &'a [u8]) -> ScriptLine<'a>
        ensures bytes { result.bytes.now ≡ bytes.entry.now }
        ensures printable { result.is_printable ≡ list_all is_line_byte bytes.entry.now }
        ensures escape { result.has_escape ≡ is_escaped bytes.entry.now }
    {
        let front = printable_front(bytes, front_len(ESCAPE, bytes));
        ScriptLine {
            bytes,
            is_printable: front.len == bytes.len(),
            has_escape: front.has_escape | has_escape(&bytes[front.len..]),
        }
    }
}

/// The lines of a script that are left.
#[derive(Drop)]
pub(crate) struct Lines<'a> {
    rest: Option<&'a [u8]>,
}

impl<'a> Model for Lines<'a> {
    ghost use Rattle.std.specs.Prelude.{ℕ, List};
    ghost use Rattle.std.specs.Option.{option_copied};
    ghost use Rattle.std.specs.Str.{byte};
    ghost use Rattle.watchtree_script.specs.Reading.{pieces_in};

    ghost Value = { List (List ℕ) };

    ghost view = { λ lines. pieces_in (byte "\n") (option_copied lines.rest) };
}

impl<'a> Lines<'a> {
    pub fn new(script: &'a [u8]) -> Lines<'a>
        ensures { result ≡ lines_of script.entry.now }
    {
        Lines { rest: Some(script) }
    }

    /// The next line. If all its bytes are printable and none is escaped, a single pass over them finds its end and
    /// shows that they are.
    #[inline(always)]
    pub fn next_line(&mut self) -> Option<ScriptLine<'a>>
        ensures line { MatchOption result ((self.old ≡ []) × (self.new ≡ []))
            (λ line. self.old ≡ line.bytes.now ∷ self.new) }
        ensures printable { IfSome result (λ line. line.is_printable ≡ list_all is_line_byte line.bytes.now) }
        ensures escape { IfSome result (λ line. line.has_escape ≡ is_escaped line.bytes.now) }
    {
        let bytes = self.rest?;
        let plain = front_len(ESCAPE, bytes);
        if plain == bytes.len() || bytes[plain] == LINE_FEED {
            let (line, rest) = cut_printable(bytes, plain);
            self.rest = rest;
            return Some(ScriptLine {
                bytes: line,
                is_printable: true,
                has_escape: false,
            });
        }
        let (line, rest) = first_line(bytes, plain);
        self.rest = rest;
        Some(line)
    }
}

/// The first line, and what stands behind its line feed. `plain` bytes stand before the first that is escaped or not
/// printable.
fn first_line<'a>(bytes: &'a [u8], plain: usize) -> (ScriptLine<'a>, Option<&'a [u8]>)
    requires { plain ≡ prefix_len (is_before (byte "%")) bytes.now }
    ensures pieces { pieces (byte "\n") bytes.entry.now
        ≡ result.0.bytes.now ∷ pieces_in (byte "\n") (option_copied result.1) }
    ensures printable { result.0.is_printable ≡ list_all is_line_byte result.0.bytes.now }
    ensures escape { result.0.has_escape ≡ is_escaped result.0.bytes.now }
{
    let Front { len, has_escape } = printable_front(bytes, plain);
    if len == bytes.len() || bytes[len] == LINE_FEED {
        let (line, rest) = cut_printable(bytes, len);
        let line = ScriptLine {
            bytes: line,
            is_printable: true,
            has_escape,
        };
        return (line, rest);
    }
    let (line, rest) = split_first(LINE_FEED, bytes);
    (ScriptLine::of(line), rest)
}

/// Whether a byte is a space or a byte of a word.
fn is_line_byte(byte: u8) -> bool
    ensures { result ≡ is_line_byte byte }
{
    byte == b' ' || byte.is_ascii_graphic()
}

/// The printable bytes at the front of a text.
#[derive(Clone, Copy)]
struct Front {
    /// How many there are.
    len: usize,
    /// Whether one of them is escaped.
    has_escape: bool,
}

/// The bytes before the first that is not printable. `plain` bytes stand before the first that is escaped or not
/// printable.
#[inline(always)]
fn printable_front(bytes: &[u8], plain: usize) -> Front
    requires { plain ≡ prefix_len (is_before (byte "%")) bytes.now }
    ensures within { result.len ≤ length bytes.now }
    ensures front { result.len ≡ prefix_len is_line_byte bytes.now }
    ensures escape { result.has_escape ≡ is_escaped (take result.len bytes.now) }
{
    if plain == bytes.len() || bytes[plain] != ESCAPE {
        return Front {
            len: plain,
            has_escape: false,
        };
    }
    Front {
        len: plain + front_len(LINE_FEED, &bytes[plain..]),
        has_escape: true,
    }
}

/// How many bytes stand before the first that is `stop` or not printable.
#[inline(always)]
fn front_len(stop: u8, bytes: &[u8]) -> usize
    ensures within { result ≤ length bytes.now }
    ensures front { result ≡ prefix_len (is_before stop) bytes.now }
{
    let mut len = 0;
    while BLOCK <= bytes.len() - len {
        let stops = stops_in(stop, &bytes[len..]);
        if stops != 0 {
            return len + stops.trailing_zeros() as usize;
        }
        len += BLOCK;
    }
    len + near_len(stop, &bytes[len..])
}

/// Bit k says whether byte k of the first block is `stop` or not printable.
#[inline(always)]
fn stops_in(stop: u8, bytes: &[u8]) -> u64
    requires { BLOCK ≤ length bytes.now }
    ensures { result ≡ stops_in stop (take BLOCK bytes.now) }
{
    let block = u8x16::from_slice(bytes);
    let unprintable = block.simd_lt(u8x16::splat(b' ')) | block.simd_gt(u8x16::splat(b'~'));
    (unprintable | block.simd_eq(u8x16::splat(stop))).to_bitmask()
}

/// The same as [`front_len`], byte by byte.
fn near_len(stop: u8, bytes: &[u8]) -> usize
    ensures within { result ≤ length bytes.now }
    ensures front { result ≡ prefix_len (is_before stop) bytes.now }
{
    for (i, b) in bytes.iter().enumerate() {
        if !is_line_byte(*b) || *b == stop {
            return i;
        }
    }
    bytes.len()
}

/// A first line of `len` printable bytes, and what stands behind its line feed.
fn cut_printable<'a>(bytes: &'a [u8], len: usize) -> (&'a [u8], Option<&'a [u8]>)
    requires within { len ≤ length bytes.now }
    requires front { list_all is_line_byte (take len bytes.now) ≡ true }
    requires end { len < length bytes.now → slice_index bytes.now len ≡ byte "\n" }
    ensures line { result.0.now ≡ take len bytes.entry.now }
    ensures pieces { pieces (byte "\n") bytes.entry.now
        ≡ result.0.now ∷ pieces_in (byte "\n") (option_copied result.1) }
{
    if len == bytes.len() {
        return (bytes, None);
    }
    let (line, rest) = bytes.split_at(len);
    (line, Some(&rest[1..]))
}
