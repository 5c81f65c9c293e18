//! A sink that writes lines.

ghost use Rattle.std.specs.Prelude.{◌≡◌, ◌≢◌, ◌++◌, [], ◌∷◌, true, false, length, Err, OnOk, OnErr};
ghost use Rattle.record_codec.specs.Ports.{inner_of, faults_of};
ghost use Rattle.event_sinks.specs.Lines.{line_of, closing_line, PutsLine, WritesAll, WritesClosing, WritesFront};
ghost use Rattle.event_sinks.specs.declared.fault.SinkFault.TheVariants.{Full};
ghost use Rattle.event_sinks.specs.Writing.{is_open_of, page_of, port_of, records_of};

use crate::fault::SinkFault;
use crate::sink::Sink;
use itoa::Buffer;
use record_codec::{Event, Port, append_record_line};
use std::alloc::Global;
use std::io;
use std::io::Write;

/// Keeps a copy of each record, and writes it as a line. Its close, or its drop while it is open, writes `closed` and
/// how many records it took.
pub struct LineSink<W: Write + Send + Drop> {
    port: Port<W>,
    records: Vec<Event>,
    line: Vec<u8>,
    is_open: bool,
}

impl<W: Write + Send + Drop> LineSink<W> {
    /// An open sink that took nothing, and wrote nothing. It takes no memory yet.
    pub fn new(alloc: Global, writer: W) -> LineSink<W>
        ensures list { records_of result ≡ [] }
        ensures is_open { is_open_of result ≡ true }
        ensures writer { inner_of (port_of result) ≡ writer }
        ensures faults { faults_of (port_of result) ≡ 0 }
    {
        LineSink {
            port: Port::new(writer),
            records: Vec::new(alloc),
            line: Vec::new(alloc),
            is_open: true,
        }
    }
}

impl<W: Write + Send + Drop> Sink for LineSink<W> {
    ghost record_list = { λ s. records_of s };

    ghost is_open = { λ s. is_open_of s };

    ghost may_answer = { λ _ _ _ answer. answer ≢ Err Full };

    ghost page = { λ s. page_of W.contents s };

    fn put(&mut self, event: &Event) -> Result<(), SinkFault>
        requires { is_open_of self.old ≡ true }
        ensures ok { OnOk result (records_of self.new ≡ records_of self.old ++ event.now ∷ []) }
        ensures err { OnErr result (records_of self.new ≡ records_of self.old) }
        ensures stays { is_open_of self.new ≡ true }
        ensures written { PutsLine W.contents (port_of self.old) (line_of event.now) result (port_of self.new) }
    {
        let copy = event.copy()?;
        self.records.reserve(1)?;
        self.line.clear();
        append_record_line(event, &mut self.line)?;
        self.line.push(b'\n')?;
        match self.port.write_all(&self.line) {
            Ok(()) => {
                self.records.push_reserved(copy);
                Ok(())
            }
            Err(_) => Err(SinkFault::Write),
        }
    }

    fn close(&mut self)
        requires { is_open_of self.old ≡ true }
        ensures list { records_of self.new ≡ records_of self.old }
        ensures closed { is_open_of self.new ≡ false }
        ensures written { WritesClosing W.contents (port_of self.old) (closing_line (length (records_of self.old)))
            (port_of self.new) }
    {
        self.is_open = false;
        let _ = write_closing(&mut self.port, self.records.len());
    }

    fn is_open(&self) -> bool {
        self.is_open
    }

    fn taken(&self) -> u64 {
        self.records.len() as u64
    }
}

impl<W: Write + Send + Drop> Drop for LineSink<W> {
    fn drop(self) {
        let LineSink {
            mut port,
            records,
            line: _,
            is_open,
        } = self;
        if is_open {
            let _ = write_closing(&mut port, records.len());
        }
    }
}

/// Writes the closing line of a sink that took `taken` records, up to a write that fails.
fn write_closing<W: Write>(port: &mut Port<W>, taken: usize) -> io::Result<()>
    ensures ok { OnOk result (WritesAll W.contents port.old (closing_line taken) port.new) }
    ensures err { OnErr result (WritesFront W.contents port.old (closing_line taken) port.new) }
{
    let mut digits = Buffer::new();
    port.write_all(b"closed ")?;
    port.write_all(digits.format(taken).as_bytes())?;
    port.write_all(b"\n")
}
