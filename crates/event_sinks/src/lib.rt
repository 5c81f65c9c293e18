//! What takes the records that a listener is handed: it keeps them, up to a count of them, or writes each as a line.
#![tactic(auto)]

mod audit;
mod boxed;
mod count;
mod fault;
mod gate;
mod laws;
mod line;
mod listener;
mod memory;
mod served;
mod sink;
mod stop;
mod strays;

pub use audit::{SettleFault, Settled, settle};
pub use count::CountSink;
pub use fault::SinkFault;
pub use gate::Gate;
pub use laws::{
    audits_agree, faults_contradict_the_audit, fronts_are_whole, unfailing_texts_are_whole,
};
pub use line::LineSink;
pub use listener::{Cause, Ended, Listener, Listening, Step};
pub use memory::MemorySink;
pub use sink::Sink;
pub use stop::StopSink;
