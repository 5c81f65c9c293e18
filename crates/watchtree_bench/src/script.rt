//! A script as it is written.

use crate::digest::Digest;
use crate::fault::BenchFault;
use itoa::Buffer;
use record_codec::Port;
use std::alloc::Global;
use std::io;
use std::io::Read;
use watchtree_script::run_script;

/// The limit of instances that name none.
const QUEUE: u32 = 16_384;

/// The text of a script. Once memory ran out as it was written, it is not whole, and can't be run.
#[derive(Drop)]
pub(crate) struct Script {
    text: Vec<u8>,
    /// Whether there was memory for all of it.
    is_whole: bool,
}

impl Script {
    /// An empty script.
    pub(crate) fn new(alloc: Global) -> Script {
        Script {
            text: Vec::new(alloc),
            is_whole: true,
        }
    }

    /// How many bytes it has.
    pub(crate) fn len(&self) -> usize {
        self.text.len()
    }

    /// Its bytes.
    pub(crate) fn as_slice(&self) -> &[u8] {
        self.text.as_slice()
    }

    /// Whether there was memory for all of it.
    pub(crate) fn is_whole(&self) -> bool {
        self.is_whole
    }

    /// Notes that the script is not whole, unless `is_met`.
    pub(crate) fn need(&mut self, is_met: bool) {
        self.is_whole &= is_met;
    }

    /// Adds text as it is.
    pub(crate) fn text(&mut self, text: &str) {
        self.bytes(text.as_bytes());
    }

    /// Adds bytes as they are.
    #[inline(always)]
    pub(crate) fn bytes(&mut self, bytes: &[u8]) {
        if self.text.extend_from_slice(bytes).is_err() {
            self.is_whole = false;
        }
    }

    /// Takes all of it away. A script that is not whole stays so.
    pub(crate) fn clear(&mut self) {
        self.text.clear();
    }

    /// Adds a number in decimal.
    pub(crate) fn number(&mut self, number: u64) {
        let mut digits = Buffer::new();
        self.bytes(digits.format(number).as_bytes());
    }

    /// Adds `count` pairs of hexadecimal digits.
    pub(crate) fn pairs(&mut self, bits: u64, count: u64) {
        let mut left = bits;
        for _ in 0..count {
            self.bytes(pair_of(left));
            left = left.rotate_right(5);
        }
    }

    /// Runs the script on a new tree, and adds what it prints to the digest: the reply of each call. It is a fault
    /// where the script is not whole, or the run ends before it.
    pub(crate) fn run(&self, alloc: Global, digest: Digest) -> Result<Digest, BenchFault> {
        if !self.is_whole {
            return Err(BenchFault::Memory);
        }
        let mut input = Port::new(Source {
            rest: self.text.as_slice(),
        });
        let mut output = Port::new(digest);
        run_script(alloc, &mut input, &mut output, QUEUE)?;
        let mut digest = Digest::new();
        digest.add(output.inner().value());
        Ok(digest)
    }
}

/// Two hexadecimal digits.
fn pair_of(bits: u64) -> &'static [u8] {
    match bits % 8 {
        0 => b"00",
        1 => b"61",
        2 => b"7f",
        3 => b"C3",
        4 => b"a9",
        5 => b"20",
        6 => b"0a",
        _ => b"fE",
    }
}

/// A reader of bytes.
#[derive(Drop)]
struct Source<'a> {
    rest: &'a [u8],
}

impl Read for Source<'_> {
    fn read(&mut self, buf: &mut [u8]) -> io::Result<usize> {
        let count = self.rest.len().min(buf.len());
        buf[..count].copy_from_slice(&self.rest[..count]);
        self.rest = &self.rest[count..];
        Ok(count)
    }
}
