//! Where a name keeps its bytes.

ghost use Rattle.std.specs.Prelude.{◌≡◌, ◌≤◌, ◌<◌, ◌-◌, ◌++◌, IfOk, IfSome, IsOk, OnSome, length, replicate};
ghost use Rattle.record_codec.specs.declared.name.TheConstants.{NAME_IN_PLACE};
ghost use Rattle.std.specs.Cmp.Lexicographic.{slice_cmp};
ghost use Rattle.std.specs.Ordering.{nat_cmp};
ghost use Rattle.record_codec.specs.NameBuf.{IsKept, IsKeptName, front_of, kept_bytes};

use crate::name::NAME_IN_PLACE;
use crate::padded::zero_padded_in_registers;
use byteorder::{BigEndian, ByteOrder};
use std::alloc::{AllocError, Global};
use std::cmp::Ordering;

/// How many bytes [`NameBuf::front`] looks at.
const FRONT_LEN: usize = 8;

/// How many bytes stand before the last eight of those that a short name has in the value.
const BACK_START: usize = NAME_IN_PLACE - 9;

/// The bytes of a name: in the value itself if they fit there, and else in memory.
///
/// The byte that says which variant it is comes before the others, so that with 31 bytes of a name the value takes 32,
/// and an `Option` of it 40.
pub(crate) enum NameBuf {
    /// As many bytes as fit in the value.
    Full([u8; NAME_IN_PLACE]),
    /// Fewer: the first `len`.
    Short {
        len: u8,
        bytes: [u8; NAME_IN_PLACE - 1],
    },
    /// More.
    Long(Box<Vec<u8>>),
}

impl Drop for NameBuf {
    fn drop(self) {
        match self {
            NameBuf::Full(_) => {}
            NameBuf::Short { len: _, bytes: _ } => {}
            NameBuf::Long(_) => {}
        }
    }
}

impl NameBuf {
    /// These bytes, kept. At most [`NAME_IN_PLACE`] take no memory.
    pub(crate) fn of(alloc: Global, bytes: &[u8]) -> Result<NameBuf, AllocError>
        ensures short { length bytes.now ≤ NAME_IN_PLACE → IsOk result }
        ensures kept { IfOk result (λ kept. kept_bytes kept ≡ bytes.now) }
        ensures sound { IfOk result IsKept }
    {
        let len = bytes.len();
        if NAME_IN_PLACE < len {
            return in_memory(alloc, bytes);
        }
        Ok(NameBuf::in_place(bytes))
    }

    /// These bytes in the value itself.
    #[inline(always)]
    pub(crate) fn in_place(bytes: &[u8]) -> NameBuf
        requires { length bytes.now ≤ NAME_IN_PLACE }
        ensures kept { kept_bytes result ≡ bytes.now }
        ensures sound { IsKept result }
    {
        let len = bytes.len();
        if len == NAME_IN_PLACE {
            let mut full = [0; NAME_IN_PLACE];
            full.copy_from_slice(bytes);
            return NameBuf::Full(full);
        }
        NameBuf::Short {
            len: len as u8,
            bytes: zero_padded_in_registers(bytes),
        }
    }

    /// The bytes.
    pub(crate) fn bytes(&self) -> &[u8]
        requires { IsKept self.now }
        ensures { result.now ≡ kept_bytes self.now }
    {
        match self {
            NameBuf::Full(bytes) => bytes,
            NameBuf::Short { len, bytes } => &bytes[..*len as usize],
            NameBuf::Long(bytes) => bytes.as_slice(),
        }
    }

    /// The bytes with zero bytes behind them, 16 together, if they are fewer.
    #[inline(always)]
    pub(crate) fn padded(&self) -> Option<&[u8; 16]>
        requires { IsKept self.now }
        ensures fewer { OnSome result (length (kept_bytes self.now) < 16) }
        ensures padded { IfSome result (λ bytes.
            bytes.now ≡ kept_bytes self.now ++ replicate (16 - length (kept_bytes self.now)) 0) }
    {
        match self {
            NameBuf::Short { len, bytes } if *len < 16 => bytes.first_chunk::<16>(),
            _ => None,
        }
    }

    /// The first eight bytes as a number, the first one worth most, as if zero bytes stood behind fewer. Where those of
    /// two names differ, the names are ordered as they are.
    #[inline(always)]
    pub(crate) fn front(&self) -> u64
        requires { IsKept self.now }
        ensures { result ≡ front_of (kept_bytes self.now) }
    {
        match self {
            NameBuf::Full(bytes) => BigEndian::read_u64(bytes),
            NameBuf::Short { bytes, .. } => BigEndian::read_u64(bytes),
            NameBuf::Long(bytes) => BigEndian::read_u64(bytes.as_slice()),
        }
    }

    /// The order of two names whose first eight bytes are the same.
    ///
    /// Zero bytes stand behind a short name, and a name has none: so two short ones are ordered as the numbers of the
    /// bytes behind.
    #[inline(never)]
    pub(crate) fn cmp_behind(&self, other: &NameBuf) -> Ordering
        requires name { IsKeptName self.now }
        requires other { IsKeptName other.now }
        requires fronts { front_of (kept_bytes self.now) ≡ front_of (kept_bytes other.now) }
        ensures { result ≡ slice_cmp nat_cmp (kept_bytes self.now) (kept_bytes other.now) }
    {
        let (
            NameBuf::Short { bytes, .. },
            NameBuf::Short {
                bytes: other_bytes,
                ..
            },
        ) = (self, other)
        else {
            return self.bytes().cmp(other.bytes());
        };
        let middle = BigEndian::read_u128(&bytes[FRONT_LEN..]);
        let other_middle = BigEndian::read_u128(&other_bytes[FRONT_LEN..]);
        if middle != other_middle {
            return middle.cmp(&other_middle);
        }
        let back = BigEndian::read_u64(&bytes[BACK_START..]);
        let other_back = BigEndian::read_u64(&other_bytes[BACK_START..]);
        back.cmp(&other_back)
    }

    /// A copy of the bytes. At most [`NAME_IN_PLACE`] take no memory.
    #[inline(always)]
    pub(crate) fn copy(&self) -> Result<NameBuf, AllocError>
        requires { IsKept self.now }
        ensures short { length (kept_bytes self.now) ≤ NAME_IN_PLACE → IsOk result }
        ensures kept { IfOk result (λ kept. kept_bytes kept ≡ kept_bytes self.now) }
        ensures sound { IfOk result IsKept }
    {
        match self {
            NameBuf::Full(bytes) => Ok(NameBuf::Full(*bytes)),
            NameBuf::Short { len, bytes } => Ok(NameBuf::Short {
                len: *len,
                bytes: *bytes,
            }),
            NameBuf::Long(bytes) => in_memory(*bytes.allocator(), bytes.as_slice()),
        }
    }
}

/// These bytes in memory.
#[cold]
#[inline(never)]
fn in_memory(alloc: Global, bytes: &[u8]) -> Result<NameBuf, AllocError>
    requires { NAME_IN_PLACE < length bytes.now }
    ensures kept { IfOk result (λ kept. kept_bytes kept ≡ bytes.now) }
    ensures sound { IfOk result IsKept }
{
    let bytes = Vec::from_slice(alloc, bytes)?;
    Ok(NameBuf::Long(Box::new(alloc, bytes)?))
}
