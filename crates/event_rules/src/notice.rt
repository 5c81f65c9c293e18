//! The notices that files get.

ghost use Rattle.std.specs.Prelude.{◌≡◌, ◌∷◌, ◌++◌, [], OnOk};

use record_codec::Name;
use std::alloc::{AllocError, Global};
use std::marker::Model;

/// The cookie of all events but the two of a move.
pub const NO_COOKIE: u32 = 0;

/// What the watches of a file are notified of.
#[derive(Debug, Drop, PartialEq, Eq)]
pub enum Notice {
    /// An event, of the file or of an object in the directory.
    Told {
        /// The number of the file.
        number: u32,
        /// The event's bit, and `IN_ISDIR` where the event is about a directory.
        bits: u32,
        /// What ties the two events of a move together, and [`NO_COOKIE`] in all others.
        cookie: u32,
        /// The object's name in the directory.
        name: Option<Name>,
    },
    /// The file lost its last path, so that its watches end.
    Gone {
        /// The number of the file.
        number: u32,
    },
}

impl Notice {
    ghost use Rattle.event_rules.specs.Raised.{told_number};

    /// The number of the file whose watches are notified.
    pub fn number(&self) -> u32
        ensures { result ≡ told_number self.now }
    {
        match self {
            Notice::Told { number, .. } => *number,
            Notice::Gone { number } => *number,
        }
    }
}

/// Notices, which contracts see as a list. `clear` keeps the capacity for reuse.
pub struct Notices {
    notices: Vec<Notice>,
}

impl Drop for Notices {
    fn drop(self) {
        let Notices { notices: _ } = self;
    }
}

impl Model for Notices {
    ghost use Rattle.std.specs.Prelude.{List};
    ghost use Rattle.event_rules.specs.declared.notice.Notice.{Notice};

    ghost Value = { List Notice };

    ghost view = { λ list. list.notices.items };
}

impl Notices {
    /// No notices. It takes no memory.
    pub fn new(alloc: Global) -> Notices
        ensures { result ≡ [] }
    {
        Notices {
            notices: Vec::new(alloc),
        }
    }

    /// Empties it.
    pub fn clear(&mut self)
        ensures { self.new ≡ [] }
    {
        self.notices.clear();
    }

    /// Puts one more behind the others.
    #[inline(always)]
    pub(crate) fn push(&mut self, notice: Notice) -> Result<(), AllocError>
        ensures { OnOk result (self.new ≡ self.old ++ notice ∷ []) }
    {
        self.notices.push(notice)?;
        Ok(())
    }

    /// The notices, to read.
    pub fn as_slice(&self) -> &[Notice]
        ensures { result.now ≡ self.now }
    {
        self.notices.as_slice()
    }
}
