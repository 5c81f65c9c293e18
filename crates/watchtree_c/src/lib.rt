//! What C calls: a tree of files in memory with its instances of inotify(7).
//!
//! Each function answers as the system call of its name does, and a negative errno where that would set `errno`.
#![tactic(auto)]

mod answers;
mod files;
mod instances;
mod journal;
mod life;
mod line;
mod meanings;
mod opened;
mod parts;
mod peeking;
mod tree;

pub use files::{
    Stat, wt_chmod, wt_create, wt_link, wt_list, wt_mkdir, wt_pread, wt_rename, wt_rename2,
    wt_rmdir, wt_stat, wt_truncate, wt_unlink, wt_write,
};
pub use instances::{
    wt_inotify_add_watch, wt_inotify_close, wt_inotify_init, wt_inotify_rm_watch, wt_read,
    wt_waiting,
};
pub use journal::{wt_entry, wt_first_place, wt_last_place};
pub use life::{wt_close, wt_cut, wt_fork, wt_open};
pub use line::{wt_line, wt_text};
pub use meanings::{wt_error_text, wt_version};
pub use opened::Opened;
pub use peeking::{
    wt_bytes_waiting, wt_path_of, wt_peek_list, wt_peek_pread, wt_peek_stat, wt_ready,
};
pub use tree::{OpenTree, TreeHandle};
