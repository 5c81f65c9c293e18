//! Why a script is not run to its end.

use std::alloc::AllocError;
use thiserror::Error;

/// What is wrong with a line.
///
/// The fault of a line is the first of these that holds. Of the faults of its words it is that of the leftmost word.
#[derive(Clone, Copy, Debug, PartialEq, Eq, Error)]
pub enum ScriptFault {
    /// A byte is neither a space nor from `!` to `~`.
    #[error("bad byte")]
    BadByte,
    /// The first word is no command.
    #[error("unknown command")]
    UnknownCommand,
    /// The command takes more words, or fewer.
    #[error("wrong number of words")]
    WrongNumber,
    /// A `%` of a path is not followed by two hexadecimal digits.
    #[error("bad escape")]
    BadEscape,
    /// A mode is not 1 to 6 octal digits.
    #[error("bad mode")]
    BadMode,
    /// Bytes are not an even number of hexadecimal digits.
    #[error("bad hex")]
    BadHex,
    /// A mask is not `0x` and 1 to 8 hexadecimal digits.
    #[error("bad mask")]
    BadMask,
    /// A number is not 1 to 20 decimal digits, or too large for what it counts.
    #[error("bad number")]
    BadNumber,
}

/// Why a run ends before its script.
#[derive(Clone, Copy, Debug, PartialEq, Eq, Error)]
pub enum RunFault {
    /// A line has a fault. What the lines before it print was written.
    #[error("line {line}: {fault}")]
    Script {
        /// The line's number: all lines are counted, from 1.
        line: u64,
        fault: ScriptFault,
    },
    /// The script has more bytes than [`crate::SCRIPT_MAX`]. None of it was run.
    #[error("script too long")]
    TooLong,
    /// A read of the script failed. None of it was run.
    #[error("read fault")]
    Read,
    /// A write failed. What was written is a front of the script's text.
    #[error("write fault")]
    Write,
    /// There was no memory outside of a call. What was written is a front of the script's text.
    #[error("out of memory")]
    Memory,
}

impl From<AllocError> for RunFault {
    ghost use Rattle.std.specs.Prelude.{◌≡◌};
    ghost use Rattle.watchtree_script.specs.declared.fault.RunFault.TheVariants as faults;

    ghost from_gives = { λ _ fault. fault ≡ faults.Memory };

    fn from(_error: AllocError) -> RunFault {
        RunFault::Memory
    }
}
