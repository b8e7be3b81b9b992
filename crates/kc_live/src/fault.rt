//! Why a live call was not made.
ghost use Rattle.std.specs.Prelude.{◌≡◌};

use kc_types::Memory;
use std::alloc::AllocError;
use thiserror::Error;

/// Why a live call was not made. The first that applies is given, and then nothing has changed.
#[derive(Clone, Copy, Debug, PartialEq, Eq, Error)]
pub enum LiveFault {
    /// The call's actor is not the seat's.
    #[error("the call is another actor's")]
    NotYours,
    /// The volume has 65,536 calls.
    #[error("the history is full")]
    HistoryFull,
    /// Memory could not be had.
    #[error("out of memory")]
    Memory,
}

impl From<Memory> for LiveFault {
    ghost use Rattle.kc_live.specs.declared.fault.LiveFault.TheVariants.{Memory};

    ghost from_gives = { λ _ fault. fault ≡ Memory };

    fn from(_refused: Memory) -> LiveFault {
        LiveFault::Memory
    }
}

impl From<AllocError> for LiveFault {
    ghost use Rattle.kc_live.specs.declared.fault.LiveFault.TheVariants.{Memory};

    ghost from_gives = { λ _ fault. fault ≡ Memory };

    fn from(_refused: AllocError) -> LiveFault {
        LiveFault::Memory
    }
}
