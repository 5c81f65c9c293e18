//! A sink that takes records up to a limit.

ghost use Rattle.std.specs.Prelude.{◌≡◌, ◌++◌, [], ◌∷◌, ◌+◌, Err, true, MatchResult, OnOk, OnErr};
ghost use Rattle.event_sinks.specs.Pages.{PutsText};
ghost use Rattle.event_sinks.specs.Sinks.{Foretells};
ghost use Rattle.event_sinks.specs.Stopping.{StopsAt, inner_of, left_of};
ghost use Rattle.event_sinks.specs.declared.fault.SinkFault.TheVariants.{Full};

use crate::fault::SinkFault;
use crate::sink::Sink;
use record_codec::Event;

/// Passes records on to another sink, up to a count of them.
#[derive(Drop)]
pub struct StopSink<S: Sink> {
    inner: S,
    left: u64,
}

impl<S: Sink> StopSink<S> {
    /// A sink that passes on to `inner`, until that took `most` records through it.
    pub fn new(inner: S, most: u64) -> StopSink<S>
        requires { S.is_open inner ≡ true }
        ensures inner { inner_of result ≡ inner }
        ensures left { left_of result ≡ most }
    {
        StopSink { inner, left: most }
    }
}

impl<S: Sink> Sink for StopSink<S> {
    ghost record_list = { λ s. S.record_list (inner_of s) };

    ghost is_open = { λ s. S.is_open (inner_of s) };

    ghost may_answer = { λ s. StopsAt (left_of s) (S.may_answer (inner_of s)) };

    ghost page = { λ s. S.page (inner_of s) };

    fn put(&mut self, event: &Event) -> Result<(), SinkFault>
        requires { S.is_open (inner_of self.old) ≡ true }
        ensures ok { OnOk result
            (S.record_list (inner_of self.new) ≡ S.record_list (inner_of self.old) ++ event.now ∷ []) }
        ensures err { OnErr result (S.record_list (inner_of self.new) ≡ S.record_list (inner_of self.old)) }
        ensures stays { S.is_open (inner_of self.new) ≡ true }

        ensures page { PutsText (S.page (inner_of self.old)) event.now result (S.page (inner_of self.new)) }

        // What was passed on counts, and nothing is where none is left.
        ensures left { MatchResult result (λ _. left_of self.old ≡ left_of self.new + 1)
            (λ _. left_of self.new ≡ left_of self.old) }
        ensures stopped { left_of self.old ≡ 0 → (result ≡ Err Full) × (self.new ≡ self.old) }

        // Where some are left, it is an answer that the other sink may give.
        ensures answer { StopsAt (left_of self.old) (S.may_answer (inner_of self.old)) [] event.now result }
        ensures later { OnOk result
            (Foretells (StopsAt (left_of self.old) (S.may_answer (inner_of self.old))) (event.now ∷ [])
            (StopsAt (left_of self.new) (S.may_answer (inner_of self.new)))) }
    {
        if self.left == 0 {
            return Err(SinkFault::Full);
        }
        self.inner.put(event)?;
        self.left -= 1;
        Ok(())
    }

    fn close(&mut self) {
        self.inner.close();
    }

    fn is_open(&self) -> bool {
        self.inner.is_open()
    }

    fn taken(&self) -> u64 {
        self.inner.taken()
    }
}
