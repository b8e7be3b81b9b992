//! Why a trace text is refused.
ghost use Rattle.std.specs.Prelude.{◌≡◌, ◌≤◌, length};
ghost use Rattle.kc_trace.specs.Faults.{trace_fault_words};
ghost use Rattle.kc_trace.specs.declared.fault.TraceFault.TheVariants.{Memory};

use crate::expected::HeaderFault;
use kc_types::Memory as NoMemory;
use std::alloc::{AllocError, AllocFailed};
use std::error::Error;
use std::fmt;

/// Why a text is not a trace. Lines are read in order, and the first fault counts.
#[derive(Clone, Copy, Debug, PartialEq, Eq)]
pub enum TraceFault {
    /// The text does not begin with the header and its newline.
    NoHeader,
    /// The line of this number, counted from 1 with the header as the first, is not a call.
    BadLine(u32),
    /// There are bytes after the last newline.
    NoNewline,
    /// There are bytes after 65,536 calls.
    TooManyCalls,
    /// The text is a trace, and its header is not the one that is expected.
    Misplaced(HeaderFault),
    /// Memory could not be had.
    Memory,
}

impl TraceFault {
    /// What is wrong; for a bad line, what is said before its number.
    pub const fn words(&self) -> &'static str
        ensures text { result.now ≡ trace_fault_words self.now }
        ensures short { length result.now ≤ 40 }
    {
        match self {
            TraceFault::NoHeader => "no trace header",
            TraceFault::BadLine(_) => "bad trace line ",
            TraceFault::NoNewline => "last trace line has no newline",
            TraceFault::TooManyCalls => "too many calls",
            TraceFault::Misplaced(fault) => fault.words(),
            TraceFault::Memory => "out of memory",
        }
    }
}

impl fmt::Display for TraceFault {
    fn fmt<W: fmt::Write>(&self, f: &mut fmt::Formatter<W>) -> fmt::Result {
        f.write_str(self.words())?;
        match self {
            TraceFault::BadLine(number) => write!(f, "{number}"),
            _ => Ok(()),
        }
    }
}

impl Error for TraceFault {}

impl From<AllocError> for TraceFault {
    ghost from_gives = { λ _ fault. fault ≡ Memory };

    fn from(_refused: AllocError) -> TraceFault {
        TraceFault::Memory
    }
}

impl<T: Drop> From<AllocFailed<T>> for TraceFault {
    ghost from_gives = { λ _ fault. fault ≡ Memory };

    fn from(_refused: AllocFailed<T>) -> TraceFault {
        TraceFault::Memory
    }
}

impl From<NoMemory> for TraceFault {
    ghost from_gives = { λ _ fault. fault ≡ Memory };

    fn from(_refused: NoMemory) -> TraceFault {
        TraceFault::Memory
    }
}
