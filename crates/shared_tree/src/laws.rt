//! Laws of what a journal hands over. Each is a function that does nothing, and its contract is the law.

ghost use Rattle.shared_tree.specs.Handed.{BatchesAreAnswered, CutsPartBatches, EndBatchesComeLast, SentIsRead};

use tree_core::replies_tell;

/// A law: a pump that hands a batch over answers the bytes of its records, and a close that hands the end batch over is
/// done.
pub fn batches_are_answered()
    ensures { BatchesAreAnswered }
{}

/// A law: nothing follows the end batch. Of what an instance is handed, every batch but the last has records.
pub fn end_batches_come_last()
    ensures { EndBatchesComeLast }
{
    replies_tell();
}

/// A law: the records that a lawful journal hands to an instance with a pipe, one batch after another, are those that
/// it reads of that instance.
pub fn sent_is_read()
    ensures { SentIsRead }
{
    replies_tell();
}

/// A law: a state and its past hand an instance first what the past hands it, with sequence numbers up to the cut, and
/// then what the entries since hand it, with later ones. If an end batch is among the first, it is their last, and the
/// instance is closed at the cut.
pub fn cuts_part_batches()
    ensures { CutsPartBatches }
{
    replies_tell();
}
