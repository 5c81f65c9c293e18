//! Text that is collected, and written whole.

ghost use Rattle.std.specs.Prelude.{◌≡◌, ◌≤◌, ◌+◌, ◌-◌, ◌++◌, [], length, vec_len, vec_capacity, IfOk, OnOk, OnErr};
ghost use Rattle.std.specs.Prelude.{IfErr};
ghost use Rattle.std.specs.Io.KnownBytes.{Appends};
ghost use Rattle.record_codec.specs.Ports.{inner_of, faults_of};
ghost use Rattle.watchtree_script.specs.Script.{write_faults};
ghost use Rattle.watchtree_script.specs.Running.{Passes, IsFrontWritten};

use crate::fault::RunFault;
use record_codec::Port;
use std::alloc::{AllocError, Global};
use std::io::Write;

/// How many bytes are collected at most.
const PAGE_SIZE: usize = 65_536;

/// Text that waits to be written. Its buffer is allocated at the start, so that no text is refused as out of memory.
#[derive(Drop)]
pub(crate) struct Page {
    text: Vec<u8>,
}

impl Page {
    pub fn new(alloc: Global) -> Result<Page, AllocError>
        ensures { IfOk result (λ page. page.text.items ≡ []) }
    {
        Ok(Page {
            text: Vec::with_capacity(alloc, PAGE_SIZE)?,
        })
    }

    /// Takes a text. What waits is written first if the buffer is too small for both.
    pub fn take<W: Write>(&mut self, output: &mut Port<W>, text: &[u8]) -> Result<(), RunFault>
        ensures ok { OnOk result (Passes self.old.text.items text.now self.new.text.items
            (W.contents (inner_of output.old)) (W.contents (inner_of output.new))) }
        ensures err { OnErr result (IsFrontWritten (self.old.text.items ++ text.now) (W.contents (inner_of output.old))
            (W.contents (inner_of output.new))) }
        ensures fault { IfErr result (λ fault. fault ≡ RunFault.Write) }
        ensures faults { faults_of output.new ≡ write_faults result (faults_of output.old) }
    {
        if text.len() <= self.room() {
            self.add(text);
            return Ok(());
        }
        self.write(output)?;
        if text.len() <= self.room() {
            self.add(text);
            return Ok(());
        }
        write(output, text)
    }

    /// Writes what waits.
    pub fn write<W: Write>(&mut self, output: &mut Port<W>) -> Result<(), RunFault>
        ensures ok { OnOk result ((self.new.text.items ≡ [])
            × Appends (W.contents (inner_of output.old)) (W.contents (inner_of output.new)) self.old.text.items) }
        ensures err { OnErr result
            (IsFrontWritten self.old.text.items (W.contents (inner_of output.old)) (W.contents (inner_of output.new))) }
        ensures fault { IfErr result (λ fault. fault ≡ RunFault.Write) }
        ensures faults { faults_of output.new ≡ write_faults result (faults_of output.old) }
    {
        write(output, &self.text)?;
        self.text.clear();
        Ok(())
    }

    fn room(&self) -> usize
        ensures { result ≡ vec_capacity self.now.text - vec_len self.now.text }
    {
        self.text.capacity() - self.text.len()
    }

    fn add(&mut self, text: &[u8])
        requires { vec_len self.old.text + length text.now ≤ vec_capacity self.old.text }
        ensures { self.new.text.items ≡ self.old.text.items ++ text.now }
    {
        self.text.extend_from_slice(text).unwrap();
    }
}

/// Writes all of a text.
fn write<W: Write>(output: &mut Port<W>, text: &[u8]) -> Result<(), RunFault>
    ensures ok { OnOk result (Appends (W.contents (inner_of output.old)) (W.contents (inner_of output.new)) text.now) }
    ensures err { OnErr result
        (IsFrontWritten text.now (W.contents (inner_of output.old)) (W.contents (inner_of output.new))) }
    ensures fault { IfErr result (λ fault. fault ≡ RunFault.Write) }
    ensures faults { faults_of output.new ≡ write_faults result (faults_of output.old) }
{
    match output.write_all(text) {
        Ok(()) => Ok(()),
        Err(_) => Err(RunFault::Write),
    }
}
