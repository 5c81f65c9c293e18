//! The notices of a call on files, and the events that they raise for the watches of an instance of inotify(7).
#![tactic(auto)]

mod audience;
mod ended;
mod laws;
mod notice;
mod recent_watch;
mod staged;
mod subject;
mod telling;

pub use audience::Audience;
pub use ended::EndedWatches;
pub use laws::{
    cookies_tie_moves, events_are_of_watches, lost_files_are_gone, nothing_follows_ignored,
    notices_tell_one_event, other_watches_stay, removals_leave_the_rest,
    removed_watches_are_left_out, unwatched_files_need_no_notices, unwatched_files_raise_nothing,
};
pub use notice::{NO_COOKIE, Notice, Notices};
pub use staged::{Staged, StagedEnd, StagedEvent, ignored, stage, stage_watch};
pub use telling::notices;
