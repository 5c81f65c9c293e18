//! What takes records.

ghost use Rattle.std.specs.Prelude.{◌≡◌, ◌++◌, [], ◌∷◌, Bool, true, false, List, Result, length, OnOk, OnErr};
ghost use Rattle.record_codec.specs.declared.event.Event.{Event};
ghost use Rattle.event_sinks.specs.declared.fault.SinkFault.{SinkFault};
ghost use Rattle.event_sinks.specs.Pages.{ClosesText, Page, PutsText};
ghost use Rattle.event_sinks.specs.Sinks.{Foretells};

use crate::fault::SinkFault;
use record_codec::Event;

/// What takes records, one after another, until it is closed.
///
/// A sink that is dropped while it is open closes.
pub trait Sink: Send + Drop {
    /// The records that it took, the oldest first.
    ghost record_list: { Self → List Event };

    /// Whether it is open.
    ghost is_open: { Self → Bool };

    /// What it may answer where it is put this record, once it has taken those before it.
    ghost may_answer: { Self → List Event → Event → Result (Unit {0}) SinkFault → Type 0 };

    /// What it wrote, as far as that can be known, and what it writes for a record and at its close.
    ghost page: { Self → Page };

    /// Takes a copy of the record.
    ///
    /// # Errors
    /// The sink's own; `Full` where it takes no more records. It has then taken nothing, and is still open.
    fn put(&mut self, event: &Event) -> Result<(), SinkFault>
        requires { is_open self.old ≡ true }
        ensures ok { OnOk result (record_list self.new ≡ record_list self.old ++ event.now ∷ []) }
        ensures err { OnErr result (record_list self.new ≡ record_list self.old) }
        ensures stays { is_open self.new ≡ true }
        ensures answer { may_answer self.old [] event.now result }
        ensures page { PutsText (page self.old) event.now result (page self.new) }

        // What it may answer from now on was known before.
        ensures later { OnOk result (Foretells (may_answer self.old) (event.now ∷ []) (may_answer self.new)) };

    /// Ends it: it takes no more records.
    fn close(&mut self)
        requires { is_open self.old ≡ true }
        ensures list { record_list self.new ≡ record_list self.old }
        ensures closed { is_open self.new ≡ false }
        ensures page { ClosesText (page self.old) (length (record_list self.old)) (page self.new) };

    /// Whether it is open.
    fn is_open(&self) -> bool
        ensures { result ≡ is_open self.now };

    /// How many records it took.
    fn taken(&self) -> u64
        ensures { result ≡ length (record_list self.now) };
}
