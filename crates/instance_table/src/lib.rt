//! The open instances of inotify(7): what each watches, what waits in its queue, and who watches a file.
#![tactic(auto)]

mod filter;
mod index;
mod instance;
mod instances;
mod laws;
mod opened;
mod recent_row;
mod row;
mod rows;
mod staging;

pub use filter::WatchFilter;
pub use instance::Instance;
pub use instances::Instances;
pub use laws::{unwatched_files_need_no_telling, unwatched_instances_stay};
pub use rows::InstanceRow;
pub use staging::Staging;
