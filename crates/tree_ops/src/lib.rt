//! The calls on files: which are refused, what the others do to the table, and what they answer.
//!
//! [`check`] finds the first row that refuses a call, and does not allocate. What it lets through is a [`Ready`], and
//! [`carry_out`] makes the change of its [`Plan`]. Contracts see the table as its world of files.
#![tactic(auto)]

mod answer;
mod call;
mod carrying;
mod checking;
mod laws;
mod lookup;
mod moves;
mod opening;
mod paths;
mod peeking;
mod plan;

pub use answer::Answer;
pub use call::{Counts, FileCall, MAX_MODE, RENAME_EXCHANGE, RENAME_NOREPLACE};
pub use carrying::carry_out;
pub use checking::check;
pub use laws::{files_get_numbers, worlds_stay_worlds};
pub use lookup::Lookup;
pub use moves::Moves;
pub use opening::opening_table;
pub use paths::{CallPaths, Paths};
pub use peeking::{peek_bytes, peek_names, peek_stat};
pub use plan::{Plan, Ready};
