//! Short texts with zero bytes behind them, copied in blocks of a constant size, for which LLVM calls no `memcpy`.

ghost use Rattle.std.specs.Prelude.{◌≡◌, ◌≤◌, ◌<◌, ◌+◌, ◌-◌, ◌++◌, drop, length, replicate, take};
ghost use Rattle.record_codec.specs.declared.name.TheConstants.{NAME_IN_PLACE};

use crate::name::NAME_IN_PLACE;

/// The bytes, fewer than [`NAME_IN_PLACE`], and zero bytes behind them.
#[inline(always)]
pub fn zero_padded(bytes: &[u8]) -> [u8; NAME_IN_PLACE - 1]
    requires { length bytes.now < NAME_IN_PLACE }
    ensures { result ≡ bytes.now ++ replicate (NAME_IN_PLACE - 1 - length bytes.now) 0 }
{
    let mut padded = [0; NAME_IN_PLACE - 1];
    put_short(&mut padded, bytes);
    padded
}

/// The same as [`zero_padded`], with no copy in memory where it is called.
#[inline(always)]
pub fn zero_padded_in_registers(bytes: &[u8]) -> [u8; NAME_IN_PLACE - 1]
    requires { length bytes.now < NAME_IN_PLACE }
    ensures { result ≡ bytes.now ++ replicate (NAME_IN_PLACE - 1 - length bytes.now) 0 }
{
    in_registers(&zero_padded(bytes))
}

/// Writes fewer than [`NAME_IN_PLACE`] bytes at the front of a buffer, as two blocks that may overlap.
#[inline(always)]
fn put_short(buffer: &mut [u8; NAME_IN_PLACE - 1], bytes: &[u8])
    requires { length bytes.now < NAME_IN_PLACE }
    ensures { buffer.new ≡ bytes.now ++ drop (length bytes.now) buffer.old }
{
    let len = bytes.len();
    if len < 2 {
        if len == 1 {
            buffer[0] = bytes[0];
        }
    } else if len < 4 {
        put_ends::<2>(buffer, bytes);
    } else if len < 8 {
        put_ends::<4>(buffer, bytes);
    } else if len < 16 {
        put_ends::<8>(buffer, bytes);
    } else {
        put_ends::<16>(buffer, bytes);
    }
}

/// Writes `N` to `2 * N` bytes at the front of a buffer: the first `N`, and then the last `N`, some of which may be
/// the same ones.
#[inline(always)]
fn put_ends<const N: usize>(buffer: &mut [u8; NAME_IN_PLACE - 1], bytes: &[u8])
    requires short { length bytes.now < NAME_IN_PLACE }
    requires enough { N ≤ length bytes.now }
    requires few { length bytes.now ≤ N + N }
    ensures { buffer.new ≡ bytes.now ++ drop (length bytes.now) buffer.old }
{
    let last = bytes.len() - N;
    buffer[..N].copy_from_slice(&bytes[..N]);
    buffer[last..last + N].copy_from_slice(&bytes[last..]);
}

/// The same bytes, copied in parts that each fit in a register. LLVM then writes them where they are to be, with no
/// copy in memory on the way.
#[inline(always)]
fn in_registers(from: &[u8; NAME_IN_PLACE - 1]) -> [u8; NAME_IN_PLACE - 1]
    ensures { result ≡ from.now }
{
    let mut bytes = [0; NAME_IN_PLACE - 1];
    copy_part::<8>(&mut bytes, from, 0);
    copy_part::<8>(&mut bytes, from, 8);
    copy_part::<8>(&mut bytes, from, 16);
    copy_part::<4>(&mut bytes, from, 24);
    copy_part::<2>(&mut bytes, from, 28);
    bytes
}

/// Copies `N` bytes from an index on, where those before it are the same already.
#[inline(always)]
fn copy_part<const N: usize>(
    bytes: &mut [u8; NAME_IN_PLACE - 1],
    from: &[u8; NAME_IN_PLACE - 1],
    at: usize,
)
    requires within { at + N ≤ NAME_IN_PLACE - 1 }
    requires front { take at bytes.old ≡ take at from.now }
    ensures { take (at + N) bytes.new ≡ take (at + N) from.now }
{
    bytes[at..at + N].copy_from_slice(&from[at..at + N]);
}
