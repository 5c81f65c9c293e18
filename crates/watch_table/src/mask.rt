//! Masks of watch calls.
ghost use Rattle.std.specs.Prelude.{⊤, ◌≡◌};
ghost use Rattle.watch_table.specs.Masks.{flag_rows, known, stored, mask_fault};
ghost use Rattle.watch_table.specs.Watching.{next_bits};

use bitflags::{Flag, Flags, bitflag_items};
use record_codec::bits;
use tree_paths::Refusal;

/// What a watch call asks for: the events to report, and how to watch for them.
///
/// The bits are those of inotify(7).
#[derive(Clone, Copy, PartialEq, Eq, Debug)]
pub struct Mask(u32);

bitflag_items! {
    impl Mask: u32 {
        /// A file was read.
        const ACCESS = bits::IN_ACCESS;
        /// A file was written, or cut to a length.
        const MODIFY = bits::IN_MODIFY;
        /// Metadata changed, as the mode or the number of links.
        const ATTRIB = bits::IN_ATTRIB;
        /// A file that was open for writing was closed.
        const CLOSE_WRITE = bits::IN_CLOSE_WRITE;
        /// A file or a directory that was not open for writing was closed.
        const CLOSE_NOWRITE = bits::IN_CLOSE_NOWRITE;
        /// A file or a directory was opened.
        const OPEN = bits::IN_OPEN;
        /// A name was moved out of the watched directory.
        const MOVED_FROM = bits::IN_MOVED_FROM;
        /// A name was moved into the watched directory.
        const MOVED_TO = bits::IN_MOVED_TO;
        /// A name was made in the watched directory.
        const CREATE = bits::IN_CREATE;
        /// A name was removed from the watched directory.
        const DELETE = bits::IN_DELETE;
        /// What is watched was removed itself.
        const DELETE_SELF = bits::IN_DELETE_SELF;
        /// What is watched was renamed itself.
        const MOVE_SELF = bits::IN_MOVE_SELF;
        /// All of the events above.
        const ALL_EVENTS = bits::IN_ALL_EVENTS;
        /// Watch it only if it is a directory.
        const ONLYDIR = bits::IN_ONLYDIR;
        /// Follow no symbolic link. There are none, so it has no effect.
        const DONT_FOLLOW = bits::IN_DONT_FOLLOW;
        /// Report no events of names that were removed. It has no effect.
        const EXCL_UNLINK = bits::IN_EXCL_UNLINK;
        /// Make a new watch or none: a file that is watched already is refused.
        const MASK_CREATE = bits::IN_MASK_CREATE;
        /// Join the bits with those of the watch that is there.
        const MASK_ADD = bits::IN_MASK_ADD;
        /// Watch it up to its first event.
        const ONESHOT = bits::IN_ONESHOT;
    }
}

impl Flags for Mask {
    type Bits = u32;

    ghost exact = { ⊤ };

    ghost table = { flag_rows };

    ghost set_of = { λ m. m.0 };

    fn flags<'a>() -> &'a [Flag<Mask>] {
        Mask::FLAGS
    }

    fn bits(&self) -> u32 {
        self.0
    }

    fn from_bits_retain(bits: u32) -> Mask {
        Mask(bits)
    }
}

impl Mask {
    /// The known bits of a number. The others mean nothing to a watch call and are ignored.
    pub fn of(bits: u32) -> Mask
        ensures { result.0 ≡ known bits }
    {
        Mask::from_bits_truncate(bits)
    }

    /// The bits that a watch keeps: those of events, and ONESHOT. The others act on the call alone.
    pub fn stored(self) -> u32
        ensures { result ≡ stored self.0 }
    {
        self.0 & (bits::IN_ALL_EVENTS | bits::IN_ONESHOT)
    }

    /// The bits that a watch which has these keeps after another call for its file.
    pub fn next_bits(self, bits: u32) -> u32
        ensures { result ≡ next_bits self.0 bits }
    {
        if self.intersects(Mask::MASK_ADD) {
            bits | self.stored()
        } else {
            self.stored()
        }
    }

    /// Why no watch call takes this mask. `EINVAL` where it has both MASK_CREATE and MASK_ADD, and where it has no
    /// event.
    pub fn fault(self) -> Option<Refusal>
        ensures { result ≡ mask_fault self.0 }
    {
        if self.intersects(Mask::MASK_CREATE) && self.intersects(Mask::MASK_ADD) {
            return Some(Refusal::Einval);
        }
        if !self.intersects(Mask::ALL_EVENTS) {
            return Some(Refusal::Einval);
        }
        None
    }
}
