//! Why a text is not a dump.
ghost use Rattle.std.specs.Prelude.{◌≡◌, ◌≤◌, length};
ghost use Rattle.kc_dump_text.specs.Faults.{dump_fault_words, dump_fault_end};
ghost use Rattle.kc_dump_text.specs.declared.fault.DumpFault.TheVariants.{Memory};

use kc_types::Memory as Want;
use std::error::Error;
use std::fmt;

/// Why a text is not a dump. Lines are read in order, and the first fault counts.
#[derive(Clone, Copy, Debug, PartialEq, Eq)]
pub enum DumpFault {
    /// The text does not begin with the header and its newline.
    NoHeader,
    /// The line of this number may not come there. The header is line 1.
    BadLine(u32),
    /// The line of this frame should come next, but it is missing or belongs to another frame.
    Frame(u32),
    /// Memory could not be had.
    Memory,
}

impl DumpFault {
    /// What is wrong; for a line or a frame, the text before its number.
    pub const fn words(&self) -> &'static str
        ensures text { result.now ≡ dump_fault_words self.now }
        ensures short { length result.now ≤ 40 }
    {
        match self {
            DumpFault::NoHeader => "no dump header",
            DumpFault::BadLine(_) => "bad dump line ",
            DumpFault::Frame(_) => "dump frame ",
            DumpFault::Memory => "out of memory",
        }
    }

    /// The text after the number.
    pub const fn end(&self) -> &'static str
        ensures text { result.now ≡ dump_fault_end self.now }
        ensures short { length result.now ≤ 20 }
    {
        match self {
            DumpFault::Frame(_) => " missing or doubled",
            _ => "",
        }
    }
}

impl fmt::Display for DumpFault {
    fn fmt<W: fmt::Write>(&self, f: &mut fmt::Formatter<W>) -> fmt::Result {
        f.write_str(self.words())?;
        if let DumpFault::BadLine(number) | DumpFault::Frame(number) = self {
            write!(f, "{number}")?;
        }
        f.write_str(self.end())
    }
}

impl Error for DumpFault {}

impl From<Want> for DumpFault {
    ghost from_gives = { λ _ fault. fault ≡ Memory };

    fn from(_refused: Want) -> DumpFault {
        DumpFault::Memory
    }
}
