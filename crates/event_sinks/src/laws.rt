//! Laws of what is settled, and of what is written. Each is a function that does nothing, and its contract is the law.

ghost use Rattle.event_sinks.specs.Audited.{AuditsAgree, FaultsContradictTheAudit, FrontsAreWhole};
ghost use Rattle.event_sinks.specs.Pages.{UnfailingTextsAreWhole};

use shared_tree::{cuts_part_batches, end_batches_come_last};

/// A law: if a book, the logs of its seats and the listeners that ended agree, no fault but out of memory holds of
/// them. So [`settle`](crate::settle) settles a book exactly if they agree, unless it is out of memory.
pub fn faults_contradict_the_audit()
    ensures { FaultsContradictTheAudit }
{}

/// A law: where they agree, each entry of the journal was kept by exactly one call of the seats.
pub fn audits_agree()
    ensures { AuditsAgree }
{}

/// A law: a listener that was handed a prefix of what its pipe was sent, up to an end batch, was handed all of it. So
/// [`settle`](crate::settle) never reports for it that it was handed other batches, at a sequence number above 0.
pub fn fronts_are_whole()
    ensures { FrontsAreWhole }
{
    end_batches_come_last();
    cuts_part_batches();
}

/// A law: what a listener's sink wrote, where no write failed, is the line of each record that it took and then what it
/// writes at its close, all of it. So the text after [`Listening::run`](crate::Listening::run) is known.
pub fn unfailing_texts_are_whole()
    ensures { UnfailingTextsAreWhole }
{}
