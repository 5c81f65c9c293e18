//! Why the program ends before its work is done.

ghost use Rattle.std.specs.Prelude.{◌≡◌, ◌≢◌};
ghost use Rattle.watchtree_command.specs.Statuses.{status_of};

use event_sinks::SettleFault;
use std::alloc::{AllocError, AllocFailed};
use std::io::ErrorKind;
use thiserror::Error;
use watchtree_script::RunFault;
use watchtree_storm::StormFault;

/// Why the program ends before its work is done.
#[derive(Clone, Copy, Debug, PartialEq, Eq, Error)]
pub enum Fault {
    /// The words of the command line are not those of a subcommand.
    #[error("bad command line")]
    CommandLine,
    /// There is no memory to read the command line.
    #[error("out of memory")]
    Memory,
    /// The run of a script ended early.
    #[error("{0}")]
    Run(RunFault),
    /// The book of a storm was not settled. Out of memory while settling it is [`Fault::Memory`].
    #[error("settle: {0}")]
    Settle(SettleFault),
}

impl Fault {
    /// The exit status: 1 for a book that was not settled, 2 for wrong input, 3 for a failed read or write and for out
    /// of memory.
    pub fn status(self) -> u8
        ensures { result ≡ status_of self }
    {
        match self {
            Fault::CommandLine | Fault::Run(RunFault::Script { .. } | RunFault::TooLong) => 2,
            Fault::Memory | Fault::Run(RunFault::Read | RunFault::Write | RunFault::Memory) => 3,
            Fault::Settle(SettleFault::Memory) => 3,
            Fault::Settle(_) => 1,
        }
    }

    /// The fault of words that could not be had: they are no UTF-8, if memory is not spent.
    pub fn of_words(kind: ErrorKind) -> Fault
        ensures memory { kind ≡ ErrorKind.OutOfMemory → result ≡ Fault.Memory }
        ensures words { kind ≢ ErrorKind.OutOfMemory → result ≡ Fault.CommandLine }
    {
        match kind {
            ErrorKind::OutOfMemory => Fault::Memory,
            _ => Fault::CommandLine,
        }
    }
}

impl From<AllocError> for Fault {
    ghost use Rattle.watchtree_command.specs.declared.fault.Fault.TheVariants.{Memory};

    ghost from_gives = { λ _ fault. fault ≡ Memory };

    fn from(_error: AllocError) -> Fault {
        Fault::Memory
    }
}

impl From<RunFault> for Fault {
    fn from(fault: RunFault) -> Fault {
        Fault::Run(fault)
    }
}

impl<T: Drop> From<AllocFailed<T>> for Fault {
    fn from(_error: AllocFailed<T>) -> Fault {
        Fault::Memory
    }
}

impl From<StormFault> for Fault {
    fn from(_fault: StormFault) -> Fault {
        Fault::Memory
    }
}
