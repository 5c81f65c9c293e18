//! A tree of files in memory, its instances of inotify(7), and the journal of its calls.
#![tactic(auto)]

mod call;
mod cut_laws;
mod file_system;
mod queue_laws;
mod reply;
mod snapshot;
mod state;
mod turn_laws;

pub use call::Call;
pub use cut_laws::{cuts_keep_answers, forks_answer_alike, pasts_make_whole, snapshots_tell_all};
pub use queue_laws::{
    bytes_are_of_records, closed_instances_hear_nothing, events_are_accounted_for,
    reads_are_in_order,
};
pub use reply::{Entry, Kept, Receipt, Reply};
pub use snapshot::Snapshot;
pub use state::State;
pub use turn_laws::{
    cookies_are_in_turn, numbers_are_in_turn, replies_tell, trees_are_sound, watches_end_once,
};
