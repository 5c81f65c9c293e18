//! The instances that watch a file, each with its watch, in little memory.
#![tactic(auto)]

mod few;
mod ids;
mod several;
mod watchers;

pub use watchers::Watchers;
