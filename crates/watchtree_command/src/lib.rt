//! The program `watchtree` but for its input and output: what the words of its command line ask for, what is printed of
//! a storm, and the exit status where it ends before its work is done.
#![tactic(auto)]

mod command_line;
mod fault;
mod lines;

pub use command_line::{Invocation, invocation_from};
pub use fault::Fault;
pub use lines::{report, write_report};
