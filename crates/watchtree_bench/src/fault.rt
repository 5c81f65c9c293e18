//! Why a workload ends early.

use event_sinks::SettleFault;
use std::alloc::{AllocError, AllocFailed};
use tree_paths::Refusal;
use watchtree_script::RunFault;

/// Why a workload ends early.
#[derive(Clone, Copy, Debug, PartialEq, Eq)]
pub(crate) enum BenchFault {
    /// The words are not a workload, a seed and a count of rounds.
    Words,
    /// Out of memory.
    Memory,
    /// A script was not run to its end.
    Script(RunFault),
    /// A book is not settled.
    Unsettled(SettleFault),
    /// A call that the workload needs was refused.
    Refused(Refusal),
}

impl From<AllocError> for BenchFault {
    fn from(_error: AllocError) -> BenchFault {
        BenchFault::Memory
    }
}

impl<T: Drop> From<AllocFailed<T>> for BenchFault {
    fn from(_error: AllocFailed<T>) -> BenchFault {
        BenchFault::Memory
    }
}

impl From<Refusal> for BenchFault {
    fn from(refusal: Refusal) -> BenchFault {
        BenchFault::Refused(refusal)
    }
}

impl From<RunFault> for BenchFault {
    fn from(fault: RunFault) -> BenchFault {
        BenchFault::Script(fault)
    }
}
