//! A sink that keeps the records that it took.

ghost use Rattle.std.specs.Prelude.{◌≡◌, ◌++◌, [], ◌∷◌, true, false, IfErr, OnOk, OnErr};
ghost use Rattle.event_sinks.specs.Pages.{blank};
ghost use Rattle.event_sinks.specs.Sinks.{taking};
ghost use Rattle.event_sinks.specs.declared.fault.SinkFault.TheVariants.{Memory};

use crate::fault::SinkFault;
use crate::sink::Sink;
use record_codec::Event;
use std::alloc::Global;
use std::marker::Model;

/// Keeps a copy of each record.
pub struct MemorySink {
    records: Vec<Event>,
    is_open: bool,
}

impl Drop for MemorySink {
    fn drop(self) {
        let MemorySink {
            records: _,
            is_open: _,
        } = self;
    }
}

impl Model for MemorySink {
    ghost use Rattle.event_sinks.specs.Sinks.{Taking, taking};

    ghost Value = { Taking };

    ghost view = { λ s. taking s.records.items s.is_open };
}

impl MemorySink {
    /// An open sink that took nothing. It takes no memory yet.
    pub fn new(alloc: Global) -> MemorySink
        ensures { result ≡ taking [] true }
    {
        MemorySink {
            records: Vec::new(alloc),
            is_open: true,
        }
    }
}

impl Sink for MemorySink {
    ghost record_list = { λ s. s.records };

    ghost is_open = { λ s. s.is_open };

    ghost may_answer = { λ _ _ _ answer. IfErr answer (λ fault. fault ≡ Memory) };

    ghost page = { λ _. blank };

    fn put(&mut self, event: &Event) -> Result<(), SinkFault>
        requires { self.old.is_open ≡ true }
        ensures ok { OnOk result (self.new ≡ taking (self.old.records ++ event.now ∷ []) true) }
        ensures err { OnErr result (self.new ≡ self.old) }
        ensures memory { IfErr result (λ fault. fault ≡ Memory) }
    {
        let copy = event.copy()?;
        self.records.push(copy)?;
        Ok(())
    }

    fn close(&mut self) {
        self.is_open = false;
    }

    fn is_open(&self) -> bool {
        self.is_open
    }

    fn taken(&self) -> u64 {
        self.records.len() as u64
    }
}
