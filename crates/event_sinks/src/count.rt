//! A sink that keeps the records that it took, up to a count of them.

ghost use Rattle.std.specs.Prelude.{◌≡◌, ◌≢◌, ◌↔◌, ◌++◌, [], ◌∷◌, ◌+◌, Err, true, false, length, OnOk, OnErr};
ghost use Rattle.event_sinks.specs.Pages.{blank};
ghost use Rattle.event_sinks.specs.Sinks.{counting};
ghost use Rattle.event_sinks.specs.declared.fault.SinkFault.TheVariants.{Full, Write};

use crate::fault::SinkFault;
use crate::sink::Sink;
use record_codec::Event;
use std::alloc::Global;
use std::marker::Model;

/// Keeps a copy of each record, up to a count of them: it is full exactly where it took that many.
pub struct CountSink {
    most: u64,
    records: Vec<Event>,
    is_open: bool,
}

impl Drop for CountSink {
    fn drop(self) {
        let CountSink {
            most: _,
            records: _,
            is_open: _,
        } = self;
    }
}

impl Model for CountSink {
    ghost use Rattle.std.specs.Prelude.{◌≤◌, length};
    ghost use Rattle.event_sinks.specs.Sinks.{Counting, counting};

    ghost Value = { Counting };

    ghost view = { λ s. counting s.most s.records.items s.is_open };

    ghost invariant = { λ s. length s.records.items ≤ s.most };
}

impl CountSink {
    /// An open sink that took nothing, and takes `most` records. It takes no memory yet.
    pub fn new(alloc: Global, most: u64) -> CountSink
        ensures { result ≡ counting most [] true }
    {
        CountSink {
            most,
            records: Vec::new(alloc),
            is_open: true,
        }
    }
}

impl Sink for CountSink {
    ghost record_list = { λ s. s.records };

    ghost is_open = { λ s. s.is_open };

    ghost may_answer = { λ s before _ answer.
        ((answer ≡ Err Full) ↔ (length s.records + length before ≡ s.most)) × (answer ≢ Err Write) };

    ghost page = { λ _. blank };

    fn put(&mut self, event: &Event) -> Result<(), SinkFault>
        requires { self.old.is_open ≡ true }
        ensures ok { OnOk result (self.new ≡ counting self.old.most (self.old.records ++ event.now ∷ []) true) }
        ensures err { OnErr result (self.new ≡ self.old) }
        ensures full { (result ≡ Err Full) ↔ (length self.old.records ≡ self.old.most) }
        ensures no_write { result ≢ Err Write }
    {
        if self.records.len() as u64 == self.most {
            return Err(SinkFault::Full);
        }
        let copy = event.copy()?;
        self.records.push(copy)?;
        Ok(())
    }

    fn close(&mut self)
        requires { self.old.is_open ≡ true }
        ensures { self.new ≡ counting self.old.most self.old.records false }
    {
        self.is_open = false;
    }

    fn is_open(&self) -> bool {
        self.is_open
    }

    fn taken(&self) -> u64 {
        self.records.len() as u64
    }
}
