//! A watch of a file.

/// A watch of a file, as inotify_add_watch(2) makes it.
#[derive(Clone, Copy, Debug, PartialEq, Eq)]
pub struct Watch {
    /// Its descriptor: what inotify_add_watch(2) answers, and inotify_rm_watch(2) takes.
    pub wd: i32,
    /// The bits that it keeps of the masks of the calls: the events that it asks for, and `IN_ONESHOT`.
    pub mask: u32,
}
