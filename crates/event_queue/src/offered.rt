//! What becomes of an event.

/// What became of an event that was offered to a queue.
#[derive(Clone, Copy, Debug, PartialEq, Eq)]
pub enum Offered {
    /// It waits behind all others.
    Kept,
    /// It is identical to the last record that waits, which stands for both.
    Merged,
    /// It is lost, since the queue is full, and an overflow mark now waits behind all others.
    Marked,
    /// It is lost, since the queue is full, and an overflow mark that waits already says so.
    Lost,
}
