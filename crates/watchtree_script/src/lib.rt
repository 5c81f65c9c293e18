//! Scripts of calls on a tree of files, and what they print.
//!
//! [`run_script`] reads a whole script, runs it line by line on a new tree, and prints each call's reply.
#![tactic(auto)]

mod calls;
mod fault;
mod laws;
mod line;
mod lines;
mod numbers;
mod page;
mod pieces;
mod print;
mod rows;
mod run;
mod words;

pub use calls::{append_call_line, append_entry};
pub use fault::{RunFault, ScriptFault};
pub use laws::{
    calls_are_read_back, entries_are_read_back, journals_are_lawful, lines_ask_for_script_calls,
    texts_are_one,
};
pub use run::{SCRIPT_MAX, print_line, run_script};
