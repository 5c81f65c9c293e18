//! Why there was no storm.

use std::alloc::{AllocError, AllocFailed};
use thiserror::Error;
use tree_paths::Refusal;

/// Why there was no storm. Each sink has been closed.
#[derive(Clone, Copy, Debug, PartialEq, Eq, Error)]
pub enum StormFault {
    /// There is no memory for the tree, its pipes or the report, or one of the four threads could not be started.
    #[error("out of memory")]
    Memory,
}

impl From<AllocError> for StormFault {
    fn from(_error: AllocError) -> StormFault {
        StormFault::Memory
    }
}

impl<T: Drop> From<AllocFailed<T>> for StormFault {
    fn from(_error: AllocFailed<T>) -> StormFault {
        StormFault::Memory
    }
}

// With the limits of a full tree nothing but memory can be wanting at the beginning.
impl From<Refusal> for StormFault {
    fn from(_refusal: Refusal) -> StormFault {
        StormFault::Memory
    }
}
