//! Why a text is not a state's.
ghost use Rattle.std.specs.Prelude.{◌≡◌, ◌≤◌, length};
ghost use Rattle.kc_state_text.specs.Faults.{state_fault_words, state_fault_number, state_fault_end};
ghost use Rattle.kc_state_text.specs.declared.fault.StateFault.TheVariants.{Memory};

use kc_audit::Finding;
use kc_types::Memory as Want;
use std::alloc::AllocFailed;

/// Why a text is not a lawful state's. Lines are read in order, and the first fault counts.
#[derive(Clone, Copy, Debug, PartialEq, Eq)]
pub enum StateFault {
    /// The text begins with neither header and its newline.
    NoHeader,
    /// The line of this number, counted from 1 with that of the header as the first, may not be there.
    BadLine(u32),
    /// In the dump, the line of this frame is due, and another frame's line is there, or none.
    Missing(u32),
    /// There is no configuration of these numbers, or the lines before the dump are of other slots or frames than its
    /// own.
    Sizes,
    /// What an audit of the dump finds first.
    Found(Finding),
    /// No lawful state has this slot.
    Slot(u32),
    /// No lawful state has this frame: its digest is not that of its page, it is free and not zero, or it is shared by a VM
    /// that is not active.
    Frame(u32),
    /// Memory could not be had.
    Memory,
}

impl StateFault {
    /// What is wrong; for a line, a frame or a slot, what is said before its number, and for what an audit finds,
    /// before its text.
    pub const fn words(&self) -> &'static str
        ensures text { result.now ≡ state_fault_words self.now }
        ensures short { length result.now ≤ 40 }
    {
        match self {
            StateFault::NoHeader => "no state header",
            StateFault::BadLine(_) => "bad state line ",
            StateFault::Missing(_) => "dump frame ",
            StateFault::Sizes => "state of no configuration",
            StateFault::Found(_) => "state with finding ",
            StateFault::Slot(_) => "bad slot ",
            StateFault::Frame(_) => "bad frame ",
            StateFault::Memory => "out of memory",
        }
    }

    /// The number, if it has one.
    pub const fn number(&self) -> Option<usize>
        ensures { result ≡ state_fault_number self.now }
    {
        match self {
            StateFault::BadLine(number)
            | StateFault::Missing(number)
            | StateFault::Slot(number)
            | StateFault::Frame(number) => Some(*number as usize),
            _ => None,
        }
    }

    /// What is said after the number.
    pub const fn end(&self) -> &'static str
        ensures text { result.now ≡ state_fault_end self.now }
        ensures short { length result.now ≤ 20 }
    {
        match self {
            StateFault::Missing(_) => " missing or doubled",
            _ => "",
        }
    }
}

impl From<Want> for StateFault {
    ghost from_gives = { λ _ fault. fault ≡ Memory };

    fn from(_refused: Want) -> StateFault {
        StateFault::Memory
    }
}

impl<T: Drop> From<AllocFailed<T>> for StateFault {
    ghost from_gives = { λ _ fault. fault ≡ Memory };

    fn from(_refused: AllocFailed<T>) -> StateFault {
        StateFault::Memory
    }
}
