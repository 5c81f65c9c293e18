//! Laws of the definitions.

ghost use Rattle.std.specs.Prelude.{ℕ, List};
ghost use Rattle.record_codec.specs.declared.event.Event.{Event};
ghost use Rattle.event_queue.specs.Backlogs.{Backlog, offered};
ghost use Rattle.event_queue.specs.Fates.{HasFate, KeepsBounds};
ghost use Rattle.event_queue.specs.Histories.{History, Holds, FollowsHistory};
ghost use Rattle.event_queue.specs.Reads.{fitting, IsGreatestFit};

/// A queue is the list of all records that ever joined it, from the count of those that were read on. What becomes of
/// an event, and what is read, follows from that list and that count alone.
pub fn follows_its_history()
    ensures { (b : Backlog) (h : History) → Holds h b.waiting → FollowsHistory b h }
{}

/// As many records are read as fit.
#[tactic(auto, using(crate::proofs::ReadLemmas::fitting_is_greatest))]
pub fn fitting_is_greatest()
    ensures { (n : ℕ) (records : List Event) → IsGreatestFit n records (fitting n records) }
{}

/// An event is kept, or merged into the last record that waits, or lost, and then a mark waits: of any event, also one
/// that is itself the mark.
pub fn nothing_is_lost_unsaid()
    ensures { (b : Backlog) (e : Event) → HasFate b e (offered b.limit b.waiting e) }
{}

/// At most one record more than the limit waits, and at most one of them is a mark, as long as no event that is offered
/// is itself the mark. No watch raises one.
pub fn bounds_are_kept()
    ensures { (b : Backlog) → KeepsBounds b }
{}
