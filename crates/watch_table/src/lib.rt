//! The watches of an instance of inotify(7): which files it watches, and for which events.
#![tactic(auto)]

mod laws;
mod mask;
mod rows;
mod watch;
mod watches;

pub use laws::{descriptors_end_for_good, descriptors_tell_files, watches_stay_sound};
pub use mask::Mask;
pub use rows::WatchRows;
pub use watch::Watch;
pub use watches::Watches;
