//! Why a trace was not replayed.
use kc_types::Memory;
use std::alloc::{AllocError, AllocFailed};
use thiserror::Error;

/// Why a replay has no outcome.
#[derive(Clone, Copy, Debug, PartialEq, Eq, Error)]
pub enum ReplayFault {
    /// The number of workers is 0 or above 64.
    #[error("bad number of workers")]
    BadWorkers,
    /// Memory could not be had.
    #[error("out of memory")]
    Memory,
    /// A worker could not be started.
    #[error("a worker could not be started")]
    Start,
    /// An earlier segment of the trace failed.
    #[error("an earlier segment failed")]
    Broken,
}

impl From<Memory> for ReplayFault {
    fn from(_refused: Memory) -> ReplayFault {
        ReplayFault::Memory
    }
}

impl From<AllocError> for ReplayFault {
    fn from(_refused: AllocError) -> ReplayFault {
        ReplayFault::Memory
    }
}

impl<T: Drop> From<AllocFailed<T>> for ReplayFault {
    fn from(_refused: AllocFailed<T>) -> ReplayFault {
        ReplayFault::Memory
    }
}
