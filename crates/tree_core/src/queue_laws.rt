//! Laws of what is raised for an instance, what joins its queue, and what is read of it. Each is a function that does
//! nothing, and its contract is the law. Some need a sound tree or a lawful journal to begin with, which the contract
//! says.

ghost use Rattle.tree_core.specs.QueueLaws.{BytesAreOfRecords, ClosedInstancesHearNothing, EventsAreAccountedFor};
ghost use Rattle.tree_core.specs.QueueLaws.{EventsFindTheUnread, ReadsAreInOrder, UnmadeInstancesHearNothing};

use event_queue::nothing_is_lost_unsaid;
use event_rules::{events_are_of_watches, other_watches_stay};
use watch_table::{descriptors_tell_files, watches_stay_sound};

/// A law: what was read of an open instance, followed by what waits, is all that joined its queue, in order. Of a
/// closed one it is the front of that.
pub fn reads_are_in_order()
    ensures { ReadsAreInOrder }
{}

/// A law: the bytes that the reads of an instance answered are the records that were read.
pub fn bytes_are_of_records()
    ensures { BytesAreOfRecords }
{}

/// A law: each event that is raised is kept, merged into an equal record that waits last, or lost behind a mark that
/// waits; a mark joins where none waits; and what joined, without marks, is what was kept, in order. The queue that an
/// event finds is what had joined and was not read yet.
pub fn events_are_accounted_for()
    ensures fates { EventsAreAccountedFor }
    ensures found { EventsFindTheUnread }
{
    nothing_is_lost_unsaid();
    events_are_of_watches();
    other_watches_stay();
    descriptors_tell_files();
    watches_stay_sound();
}

/// A law: an instance that was never made, or is closed, receives no events and gives nothing to read.
pub fn closed_instances_hear_nothing()
    ensures unmade { UnmadeInstancesHearNothing }
    ensures closed { ClosedInstancesHearNothing }
{}
