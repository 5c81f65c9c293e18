//! Where the names of a text end, as bits of a number.

ghost use Rattle.std.specs.Prelude.{◌≡◌, ◌+◌, ◌<◌, ◌≤◌, length, take, drop, slice_index, true, false};
ghost use Rattle.std.specs.List.{list_all};
ghost use Rattle.record_codec.specs.Names.{is_name_byte};
ghost use Rattle.tree_paths.specs.PathText.{stops_in, IsMarked};

use crate::parse::{SEPARATOR, front_len};
use std::simd::prelude::*;

/// How many bytes are compared at once in a text that has as many.
pub(crate) const BLOCK: usize = 16;

/// How many bytes are compared at once in a shorter text. Of one that has fewer no stops are given: its names are
/// short, and are looked at byte by byte.
const HALF: usize = BLOCK / 2;

/// How many bits a number of stops has.
const BITS: usize = 64;

/// The stops of `N` bytes from an index on.
#[inline(always)]
pub(crate) fn block_stops<const N: usize>(text: &[u8], at: usize) -> u64
    requires lanes { N ≤ 16 }
    requires within { at + N ≤ length text.now }
    ensures { result ≡ stops_in (take N (drop at text.now)) }
{
    let bytes = Simd::<u8, N>::from_slice(&text[at..]);
    (bytes.simd_eq(Simd::splat(SEPARATOR)) | bytes.simd_eq(Simd::splat(0))).to_bitmask()
}

/// The stops of a text of at least `N` bytes. Of a text of fewer than 64 bytes they are all, with a slash behind it:
/// the last block then overlaps the one before it. Of a longer one they are those of the first 64 - `N` bytes.
#[inline(always)]
fn stops_by<const N: usize>(text: &[u8]) -> u64
    requires some { 0 < N }
    requires lanes { N ≤ 16 }
    requires long { N ≤ length text.now }
    ensures { IsMarked text.now result }
{
    let len = text.len();
    let mut stops = block_stops::<N>(text, 0);
    let mut seen = N;
    while seen + N + N <= BITS && N <= len - seen {
        stops += block_stops::<N>(text, seen) << seen;
        seen += N;
    }
    if N <= len - seen {
        return stops;
    }
    let last = block_stops::<N>(text, len - N) >> (N - (len - seen));
    stops + (last << seen) + (1 << len)
}

/// The stops of a text, or none of a text of fewer than eight bytes.
#[inline(always)]
pub(crate) fn stops_of(text: &[u8]) -> u64
    ensures { IsMarked text.now result }
{
    if text.len() < HALF {
        return 0;
    }
    long_stops(text)
}

/// The stops of a text of at least eight bytes: all, with a slash behind it, if it has fewer than 64 bytes, else those
/// of its first 48 bytes.
#[inline(never)]
fn long_stops(text: &[u8]) -> u64
    requires { HALF ≤ length text.now }
    ensures { IsMarked text.now result }
{
    if BLOCK <= text.len() {
        return stops_by::<BLOCK>(text);
    }
    stops_by::<HALF>(text)
}

/// How many bytes stand before the first stop, and the stops behind that one.
#[inline(always)]
pub(crate) fn next_stop(text: &[u8], stops: u64) -> (usize, u64)
    requires { IsMarked text.now stops }
    ensures within { result.0 ≤ length text.now }
    ensures front { list_all is_name_byte (take result.0 text.now) ≡ true }
    ensures end { result.0 < length text.now → is_name_byte (slice_index text.now result.0) ≡ false }
    ensures behind { IsMarked (drop (result.0 + 1) text.now) result.1 }
{
    if stops == 0 {
        if text.len() < HALF {
            return (near_len(text), 0);
        }
        return far_stop(text);
    }
    let len = stops.trailing_zeros() as usize;
    (len, (stops >> len) >> 1)
}

/// How many bytes stand before the first slash or zero byte, looked at one by one.
#[inline(always)]
pub(crate) fn near_len(text: &[u8]) -> usize
    ensures within { result ≤ length text.now }
    ensures front { list_all is_name_byte (take result text.now) ≡ true }
    ensures end { result < length text.now → is_name_byte (slice_index text.now result) ≡ false }
{
    for (i, b) in text.iter().enumerate() {
        // The first test alone passes over most bytes of a name.
        if *b <= SEPARATOR && (*b == SEPARATOR || *b == 0) {
            return i;
        }
    }
    text.len()
}

/// The same as [`next_stop`] where no stop is known.
#[inline(never)]
fn far_stop(text: &[u8]) -> (usize, u64)
    ensures within { result.0 ≤ length text.now }
    ensures front { list_all is_name_byte (take result.0 text.now) ≡ true }
    ensures end { result.0 < length text.now → is_name_byte (slice_index text.now result.0) ≡ false }
    ensures behind { IsMarked (drop (result.0 + 1) text.now) result.1 }
{
    let len = front_len(text);
    if len == text.len() {
        return (len, 0);
    }
    (len, stops_of(&text[len + 1..]))
}
