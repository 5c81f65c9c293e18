//! Bytes between separators.

ghost use Rattle.std.specs.Prelude.{◌≡◌, ◌∷◌, ◌<◌, [], MatchOption, false, filter, length, position, ◌==◌};
ghost use Rattle.std.specs.Prelude.{◌≤◌, take};
ghost use Rattle.std.specs.Option.{option_copied};
ghost use Rattle.tree_paths.specs.Pieces.{is_nonempty, pieces, runs};
ghost use Rattle.watchtree_script.specs.Reading.{pieces_in, separators_in};

use memchr::memchr;
use std::marker::Model;
use std::simd::prelude::*;

/// How many bytes are compared with a separator at once, where there are as many.
const BLOCK: usize = 16;

/// The nonempty pieces between separators that are left.
#[derive(Drop)]
pub(crate) struct Words<'a> {
    separator: u8,
    rest: &'a [u8],
}

impl<'a> Model for Words<'a> {
    ghost use Rattle.std.specs.Prelude.{ℕ, List};
    ghost use Rattle.tree_paths.specs.Pieces.{runs};

    ghost Value = { List (List ℕ) };

    ghost view = { λ words. runs words.separator words.rest.now };
}

impl<'a> Words<'a> {
    pub fn new(separator: u8, bytes: &'a [u8]) -> Words<'a>
        ensures { result ≡ runs separator bytes.entry.now }
    {
        Words {
            separator,
            rest: bytes,
        }
    }

    pub fn next_word(&mut self) -> Option<&'a [u8]>
        ensures { MatchOption result ((self.old ≡ []) × (self.new ≡ [])) (λ run. self.old ≡ run.now ∷ self.new) }
    {
        while !self.rest.is_empty() {
            let (piece, rest) = cut_first(self.separator, self.rest);
            self.rest = rest;
            if !piece.is_empty() {
                return Some(piece);
            }
        }
        None
    }

    /// Returns a copy, to be taken from by itself.
    pub fn copied(&self) -> Words<'a>
        ensures { result ≡ self.now }
    {
        Words {
            separator: self.separator,
            rest: self.rest,
        }
    }

    /// Whether none is left.
    pub fn is_empty(&self) -> bool
        ensures { result ≡ (length self.now == 0) }
    {
        self.copied().next_word().is_none()
    }

    /// The only one that is left.
    #[inline(always)]
    pub fn one(mut self) -> Option<&'a [u8]>
        ensures { MatchOption result ((length self.entry == 1) ≡ false) (λ run. self.entry ≡ run.now ∷ []) }
    {
        let run = self.next_word()?;
        if self.is_empty() { Some(run) } else { None }
    }

    /// The only two that are left.
    #[inline(always)]
    pub fn two(mut self) -> Option<(&'a [u8], &'a [u8])>
        ensures { MatchOption result ((length self.entry == 2) ≡ false)
            (λ runs. self.entry ≡ runs.0.now ∷ runs.1.now ∷ []) }
    {
        let first = self.next_word()?;
        let second = self.one()?;
        Some((first, second))
    }

    /// The only three that are left.
    #[inline(always)]
    pub fn three(mut self) -> Option<(&'a [u8], &'a [u8], &'a [u8])>
        ensures { MatchOption result ((length self.entry == 3) ≡ false)
            (λ runs. self.entry ≡ runs.0.now ∷ runs.1.now ∷ runs.2.now ∷ []) }
    {
        let first = self.next_word()?;
        let (second, third) = self.two()?;
        Some((first, second, third))
    }
}

/// The first piece, and what stands behind its separator.
pub(crate) fn split_first<'a>(separator: u8, bytes: &'a [u8]) -> (&'a [u8], Option<&'a [u8]>)
    ensures { pieces separator bytes.entry.now ≡ result.0.now ∷ pieces_in separator (option_copied result.1) }
{
    match position_of(separator, bytes) {
        Some(at) => {
            let (piece, rest) = bytes.split_at(at);
            (piece, Some(&rest[1..]))
        }
        None => (bytes, None),
    }
}

/// The first piece, and what stands behind its separator: nothing, where there is none.
#[inline(always)]
fn cut_first<'a>(separator: u8, bytes: &'a [u8]) -> (&'a [u8], &'a [u8])
    ensures cut { runs separator bytes.entry.now
        ≡ filter is_nonempty (result.0.now ∷ pieces separator result.1.now) }
    ensures fewer { 0 < length bytes.entry.now → length result.1.now < length bytes.entry.now }
{
    match position_of(separator, bytes) {
        Some(at) => {
            let (piece, rest) = bytes.split_at(at);
            (piece, &rest[1..])
        }
        None => (bytes, &[]),
    }
}

/// Where the first separator stands.
fn position_of(separator: u8, bytes: &[u8]) -> Option<usize>
    ensures { result ≡ position (λ b. b == separator) bytes.now }
{
    if bytes.len() < BLOCK {
        return bytes.iter().position(|b| *b == separator);
    }
    let separators = block_separators(separator, bytes);
    if separators != 0 {
        return Some(separators.trailing_zeros() as usize);
    }
    memchr(separator, bytes)
}

/// Bit k says whether byte k of the first block is a separator.
#[inline(always)]
fn block_separators(separator: u8, bytes: &[u8]) -> u64
    requires { BLOCK ≤ length bytes.now }
    ensures { result ≡ separators_in separator (take BLOCK bytes.now) }
{
    u8x16::from_slice(bytes)
        .simd_eq(u8x16::splat(separator))
        .to_bitmask()
}
