//! Why a sink refuses a record.

ghost use Rattle.std.specs.Prelude.{◌≡◌};
ghost use Rattle.event_sinks.specs.declared.fault.SinkFault.TheVariants.{Memory};

use std::alloc::{AllocError, AllocFailed};
use thiserror::Error;

/// Why a sink did not take a record.
#[derive(Clone, Copy, Debug, PartialEq, Eq, Error)]
pub enum SinkFault {
    /// There is no memory for a copy of the record.
    #[error("out of memory")]
    Memory,
    /// The record could not be written.
    #[error("write fault")]
    Write,
    /// The sink takes no more records.
    #[error("full")]
    Full,
}

impl From<AllocError> for SinkFault {
    ghost from_gives = { λ _ e. e ≡ Memory };

    fn from(_e: AllocError) -> SinkFault {
        SinkFault::Memory
    }
}

impl<T: Drop> From<AllocFailed<T>> for SinkFault {
    ghost from_gives = { λ _ e. e ≡ Memory };

    fn from(_e: AllocFailed<T>) -> SinkFault {
        SinkFault::Memory
    }
}
