//! The queue of an inotify instance: the events that were raised and not read yet, up to a limit.
//!
//! An event that is identical to the last one waiting is merged into it. A full queue loses events, and an
//! overflow mark in it says so, once until that mark is read. Nothing else is ever dropped.
#![tactic(auto)]

mod bytes;
mod fit;
mod laws;
mod offered;
mod queue;

pub use fit::Fit;
pub use laws::{bounds_are_kept, fitting_is_greatest, follows_its_history, nothing_is_lost_unsaid};
pub use offered::Offered;
pub use queue::Queue;
