//! Two writers and two listeners at once, on one tree, and the books settled at the end.
//!
//! [`storm`] is the whole. Its steps are functions of their own: [`begin`], [`ReadyStorm::run`] with [`Writer::write`]
//! and [`close_both`], and [`FinishedStorm::settle`]; [`run`] is the first two.
#![tactic(auto)]

mod beginning;
mod course;
mod fault;
mod gates;
mod threads;
mod writer;

pub use beginning::{ReadyStorm, begin};
pub use course::{FinishedStorm, Stormed, run, storm};
pub use fault::StormFault;
pub use gates::OpenGate;
pub use writer::{Writer, close_both};
