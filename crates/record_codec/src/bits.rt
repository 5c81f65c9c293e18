//! The bits of a mask, with the names and values that inotify(7) gives them under "inotify events".
//!
//! The mask of an event has the bits of what happened. The mask of a watch has the bits of the events that it asks for,
//! and may have bits that say how the watch is made.

/// A file was read, or executed.
pub const IN_ACCESS: u32 = 0x1;
/// A file was written, or cut to a length.
pub const IN_MODIFY: u32 = 0x2;
/// A file's metadata changed, as its mode or its number of links.
pub const IN_ATTRIB: u32 = 0x4;
/// A file that was open for writing was closed.
pub const IN_CLOSE_WRITE: u32 = 0x8;
/// A file or a directory that was not open for writing was closed.
pub const IN_CLOSE_NOWRITE: u32 = 0x10;
/// A file or a directory was opened.
pub const IN_OPEN: u32 = 0x20;
/// A file or a directory was renamed out of the watched directory. The event has its old name.
pub const IN_MOVED_FROM: u32 = 0x40;
/// A file or a directory was renamed into the watched directory. The event has its new name.
pub const IN_MOVED_TO: u32 = 0x80;
/// A file or a directory was made in the watched directory.
pub const IN_CREATE: u32 = 0x100;
/// A file or a directory was removed from the watched directory.
pub const IN_DELETE: u32 = 0x200;
/// The watched file or directory was removed itself.
pub const IN_DELETE_SELF: u32 = 0x400;
/// The watched file or directory was renamed itself.
pub const IN_MOVE_SELF: u32 = 0x800;
/// All of the bits above.
pub const IN_ALL_EVENTS: u32 = 0xfff;

/// Events were lost, since the queue was full. Such an event has the watch descriptor -1.
pub const IN_Q_OVERFLOW: u32 = 0x4000;
/// The watch ended: it was removed, or what it watched was.
pub const IN_IGNORED: u32 = 0x8000;
/// What the event is about is a directory.
pub const IN_ISDIR: u32 = 0x4000_0000;

/// Watch it only if it is a directory.
pub const IN_ONLYDIR: u32 = 0x0100_0000;
/// Do not follow a symbolic link.
pub const IN_DONT_FOLLOW: u32 = 0x0200_0000;
/// Raise no events for files that are no longer in the watched directory.
pub const IN_EXCL_UNLINK: u32 = 0x0400_0000;
/// Watch it only if it is not watched yet.
pub const IN_MASK_CREATE: u32 = 0x1000_0000;
/// Add these bits to those of the watch that is there, in place of putting them for those.
pub const IN_MASK_ADD: u32 = 0x2000_0000;
/// Watch it up to its first event.
pub const IN_ONESHOT: u32 = 0x8000_0000;
