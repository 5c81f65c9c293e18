//! A tree of files behind a lock, the seats that make its calls, and the pipes that hand its records on.
//!
//! Threads share a [`Tree`]: each takes the lock itself, and makes the calls of [`Held`] on the guard. No function here
//! takes the lock, or waits.
#![tactic(auto)]

mod book;
mod held;
mod laws;
mod pipe;
mod pipes;
mod seat;

pub use book::Book;
pub use held::{Held, Tree};
pub use laws::{batches_are_answered, cuts_part_batches, end_batches_come_last, sent_is_read};
pub use pipe::{Batch, Feed};
pub use seat::{KeptCalls, Pass, Seat, SeatLog};
