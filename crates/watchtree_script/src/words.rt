//! What the words behind a command stand for.

ghost use Rattle.std.specs.Prelude.{◌≡◌, ◌==◌, ◌<◌, ◌≤◌, length, IfOk, MatchOption, None, Some, false, option_map};
ghost use Rattle.std.specs.List.{list_any};
ghost use Rattle.std.specs.Str.{byte};
ghost use Rattle.std.specs.Cow.{cow_slice_items};
ghost use Rattle.watchtree_script.specs.Words.{byte_of, before, unescaped, behind, number_spelled, below_zero};
ghost use Rattle.watchtree_script.specs.Words.{is_escaped};
ghost use Rattle.watchtree_script.specs.Words.{from_zero, path_word, mode_word, mask_word, u32_word, u64_word};
ghost use Rattle.watchtree_script.specs.Words.{i32_word, hex_word, u32_max};
ghost use Rattle.watchtree_script.specs.Reading.{Gives};

use crate::fault::ScriptFault;
use crate::line::LineError;
use crate::numbers::number_spelled;
use hex::FromHexError;
use memchr::memchr;
use record_codec::Bytes;
use std::alloc::{AllocError, Global};
use std::borrow::CowSlice;
use std::marker::Model;

const OCTAL: u32 = 8;

const DECIMAL: u32 = 10;

const HEXADECIMAL: u32 = 16;

/// What begins an escape.
pub(crate) const ESCAPE: u8 = b'%';

/// The digits of an escape, behind its percent sign.
const ESCAPE_DIGITS: usize = 2;
/// The most digits of a mode.
const MODE_DIGITS: usize = 6;
/// The most digits of a mask, behind its `0x`.
const MASK_DIGITS: usize = 8;
/// The most digits of any other number.
const NUMBER_DIGITS: usize = 20;

/// Among at most as many bytes one is found by a look at each, which takes fewer instructions than a call of memchr.
const FEW: usize = 16;

/// The greatest number behind a minus sign that fits an i32.
const I32_MIN_SIZE: u64 = 0x8000_0000;
/// The greatest number that fits an i32.
const I32_MAX: u64 = 0x7fff_ffff;

/// The byte of two hexadecimal digits.
fn byte_of(high: u8, low: u8) -> Option<u8>
    ensures { result ≡ byte_of high low }
{
    let byte = number_spelled(HEXADECIMAL, ESCAPE_DIGITS, u64::from(u8::MAX), &[high, low])?;
    Some(byte as u8)
}

/// The first byte that a word stands for, and the rest of the word.
fn first_byte(word: &[u8]) -> Option<(u8, &[u8])>
    requires { 0 < length word.now }
    ensures { MatchOption result (unescaped word.entry.now ≡ None)
        (λ first. (unescaped word.entry.now ≡ before (Some first.0) (unescaped first.1.now))
        × (length first.1.now < length word.entry.now)) }
{
    if word[0] != ESCAPE {
        return Some((word[0], &word[1..]));
    }
    if word.len() < 3 {
        return None;
    }
    let byte = byte_of(word[1], word[2])?;
    Some((byte, &word[3..]))
}

/// The bytes that a word stands for.
#[cold]
#[inline(never)]
fn unescape(alloc: Global, word: &[u8]) -> Result<Option<Vec<u8>>, AllocError>
    ensures { IfOk result (λ bytes. option_map (λ v. v.items) bytes ≡ unescaped word.now) }
{
    let mut bytes = Vec::with_capacity(alloc, word.len())?;
    let mut rest = word;
    while !rest.is_empty() {
        let Some((byte, others)) = first_byte(rest) else {
            return Ok(None);
        };
        bytes.push(byte)?;
        rest = others;
    }
    Ok(Some(bytes))
}

/// Whether a byte is escaped.
pub(crate) fn has_escape(word: &[u8]) -> bool
    ensures { result ≡ is_escaped word.now }
{
    if word.len() <= FEW {
        return word.iter().any(|b| *b == ESCAPE);
    }
    memchr(ESCAPE, word).is_some()
}

/// What the word of a path stands for.
#[derive(Drop)]
pub(crate) struct PathText<'a> {
    /// The word itself, where none of its bytes is escaped.
    bytes: CowSlice<'a, u8>,
}

impl<'a> Model for PathText<'a> {
    ghost use Rattle.std.specs.Prelude.{ℕ, List};
    ghost use Rattle.std.specs.Cow.{cow_slice_items};

    ghost Value = { List ℕ };

    ghost view = { λ text. cow_slice_items text.bytes };
}

impl<'a> PathText<'a> {
    pub fn as_slice(&self) -> &[u8]
        ensures { result.now ≡ self.now }
    {
        self.bytes.as_slice()
    }
}

/// PATH: the bytes that it stands for. Unless one may be escaped, none is looked for.
#[tactic(auto, using(crate::proofs::WordLemmas::unescaped_plain), unfolding(crate::specs::Words::path_word))]
#[inline(always)]
pub(crate) fn path_word<'a>(
    alloc: Global,
    word: &'a [u8],
    may_escape: bool,
) -> Result<PathText<'a>, LineError>
    requires { may_escape ≡ false → is_escaped word.now ≡ false }
    ensures { Gives result (path_word word.entry.now) }
{
    if !may_escape || !has_escape(word) {
        return Ok(PathText {
            bytes: CowSlice::Borrowed(word),
        });
    }
    match unescape(alloc, word) {
        Ok(Some(bytes)) => Ok(PathText {
            bytes: CowSlice::Owned(bytes),
        }),
        Ok(None) => Err(LineError::Fault(ScriptFault::BadEscape)),
        Err(_) => Err(LineError::Memory),
    }
}

/// A number that fits a u32.
fn number32(radix: u32, most: usize, digits: &[u8]) -> Option<u32>
    requires least { 2 ≤ radix }
    requires largest { radix ≤ 36 }
    ensures { result ≡ number_spelled radix most u32_max digits.now }
{
    let number = number_spelled(radix, most, u64::from(u32::MAX), digits)?;
    Some(number as u32)
}

/// MODE: 1 to 6 octal digits.
#[tactic(auto, unfolding(crate::specs::Words::mode_word))]
pub(crate) fn mode_word(word: &[u8]) -> Result<u32, LineError>
    ensures { result ≡ mode_word word.now }
{
    number32(OCTAL, MODE_DIGITS, word).ok_or(LineError::Fault(ScriptFault::BadMode))
}

/// MASK: `0x` and 1 to 8 hexadecimal digits.
#[tactic(auto, unfolding(crate::specs::Words::mask_word))]
pub(crate) fn mask_word(word: &[u8]) -> Result<u32, LineError>
    ensures { result ≡ mask_word word.now }
{
    let Some(digits) = word.strip_prefix(b"0x".as_slice()) else {
        return Err(LineError::Fault(ScriptFault::BadMask));
    };
    number32(HEXADECIMAL, MASK_DIGITS, digits).ok_or(LineError::Fault(ScriptFault::BadMask))
}

/// ID, COUNT, BYTES, LIMIT: 1 to 20 decimal digits that fit a u32.
#[tactic(auto, unfolding(crate::specs::Words::u32_word))]
pub(crate) fn u32_word(word: &[u8]) -> Result<u32, LineError>
    ensures { result ≡ u32_word word.now }
{
    number32(DECIMAL, NUMBER_DIGITS, word).ok_or(LineError::Fault(ScriptFault::BadNumber))
}

/// OFFSET, LEN: 1 to 20 decimal digits that fit a u64.
#[tactic(auto, unfolding(crate::specs::Words::u64_word))]
pub(crate) fn u64_word(word: &[u8]) -> Result<u64, LineError>
    ensures { result ≡ u64_word word.now }
{
    number_spelled(DECIMAL, NUMBER_DIGITS, u64::MAX, word).ok_or(LineError::Fault(
        ScriptFault::BadNumber,
    ))
}

/// The number of digits behind a minus sign.
fn below_zero(digits: &[u8]) -> Option<i32>
    ensures { result ≡ below_zero digits.now }
{
    let number = number_spelled(DECIMAL, NUMBER_DIGITS, I32_MIN_SIZE, digits)?;
    Some(-(number as i64) as i32)
}

/// The number of digits without a sign.
fn from_zero(digits: &[u8]) -> Option<i32>
    ensures { result ≡ from_zero digits.now }
{
    let number = number_spelled(DECIMAL, NUMBER_DIGITS, I32_MAX, digits)?;
    Some(number as i32)
}

/// WD: 1 to 20 decimal digits, behind a minus sign if wanted, that fit an i32.
#[tactic(auto, unfolding(crate::specs::Words::i32_word))]
pub(crate) fn i32_word(word: &[u8]) -> Result<i32, LineError>
    ensures { result ≡ i32_word word.now }
{
    let number = match word.strip_prefix(b"-".as_slice()) {
        Some(digits) => below_zero(digits),
        None => from_zero(word),
    };
    number.ok_or(LineError::Fault(ScriptFault::BadNumber))
}

/// HEX: bytes as two hexadecimal digits each, and a minus sign for no bytes.
#[tactic(auto, unfolding(crate::specs::Words::hex_word))]
pub(crate) fn hex_word(alloc: Global, word: &[u8]) -> Result<Bytes, LineError>
    ensures { Gives result (hex_word word.now) }
{
    if word == b"-".as_slice() {
        return Ok(Bytes::from_vec(Vec::new(alloc)));
    }
    match hex::decode(alloc, word) {
        Ok(bytes) => Ok(Bytes::from_vec(bytes)),
        Err(FromHexError::OutOfMemory) => Err(LineError::Memory),
        Err(_) => Err(LineError::Fault(ScriptFault::BadHex)),
    }
}
