//! Answers of calls on files.

ghost use Rattle.std.specs.Prelude.{◌≡◌, ◌↔◌, IfOk, IfErr, IsTrue};

use inode_table::Kind;
use record_codec::Bytes;
use tree_paths::{Names, Refusal};

/// What an accepted call answers.
#[derive(Debug, Drop, PartialEq, Eq)]
pub enum Answer {
    /// It was done: the answer of all calls that have no other one.
    Done,
    /// The number of the new file or directory.
    Number(u32),
    /// How many bytes were written.
    Count(u64),
    /// The bytes that were read.
    Bytes(Bytes),
    /// The names in a directory, in the order of their bytes.
    Names(Names),
    /// What stands at a path. A directory has 1 link and a size of 0 bytes.
    Stat {
        number: u32,
        kind: Kind,
        mode: u32,
        links: u64,
        size: u64,
    },
}

impl Answer {
    ghost use Rattle.tree_paths.specs.declared.refusal.Refusal.TheVariants.{Enomem};

    /// A copy of the answer. `Err` means out of memory.
    pub fn copy(&self) -> Result<Answer, Refusal>
        ensures ok { IfOk result (λ answer. answer ≡ self.now) }
        ensures err { IfErr result (λ refusal. refusal ≡ Enomem) }
    {
        Ok(match self {
            Answer::Done => Answer::Done,
            Answer::Number(number) => Answer::Number(*number),
            Answer::Count(count) => Answer::Count(*count),
            Answer::Bytes(bytes) => Answer::Bytes(bytes.copy()?),
            Answer::Names(names) => Answer::Names(names.copy()?),
            Answer::Stat {
                number,
                kind,
                mode,
                links,
                size,
            } => Answer::Stat {
                number: *number,
                kind: *kind,
                mode: *mode,
                links: *links,
                size: *size,
            },
        })
    }

    /// Whether the other answer is the same one.
    pub fn is_same(&self, other: &Answer) -> bool
        ensures { IsTrue result ↔ (self.now ≡ other.now) }
    {
        self == other
    }
}
