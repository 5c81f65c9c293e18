//! A digest of all that a workload is answered.

use std::io;
use std::io::Write;

/// A digest of bytes and numbers, each mixed in by FNV-1a (Fowler, Noll and Vo), eight bytes at a time as far as they
/// go. Bytes that are written to it count write by write.
#[derive(Drop)]
pub(crate) struct Digest {
    at: u64,
}

impl Digest {
    /// A digest of nothing.
    pub(crate) fn new() -> Digest {
        Digest {
            at: 0xcbf2_9ce4_8422_2325,
        }
    }

    /// Adds a number.
    pub(crate) fn add(&mut self, number: u64) {
        let mixed = (self.at ^ number).wrapping_mul(0x0000_0100_0000_01b3);
        self.at = mixed ^ (mixed >> 29);
    }

    /// Adds how many bytes there are, and then the bytes, eight at a time.
    pub(crate) fn add_bytes(&mut self, bytes: &[u8]) {
        self.add(bytes.len() as u64);
        let mut rest = bytes;
        while let Some((word, behind)) = rest.split_first_chunk::<8>() {
            self.add(u64::from_le_bytes(*word));
            rest = behind;
        }
        for byte in rest {
            self.add(u64::from(*byte));
        }
    }

    /// The digest so far.
    pub(crate) fn value(&self) -> u64 {
        self.at
    }
}

impl Write for Digest {
    fn write(&mut self, buf: &[u8]) -> io::Result<usize> {
        self.add_bytes(buf);
        Ok(buf.len())
    }

    fn flush(&mut self) -> io::Result<()> {
        Ok(())
    }
}
