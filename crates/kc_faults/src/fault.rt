//! What can go wrong between the sources and the sink.
ghost use Rattle.std.specs.Prelude.{◌≡◌, ◌≤◌, length};
ghost use Rattle.kc_faults.specs.Faults.{read_fault, text_fault, config_fault, dump_fault, state_fault, status_of, fault_words, fault_number, fault_end};

use kc_config_text::ConfigTextFault;
use kc_dump_text::DumpFault;
use kc_state_text::StateFault;
use kc_texts::{ReadFault, StreamFault};
use kc_trace::TraceFault;
use std::error::Error;
use std::fmt;

/// Why an engine over texts ended without a result.
#[derive(Clone, Copy, Debug, PartialEq, Eq)]
pub enum TextFault {
    /// The configuration's text is refused.
    Config(ConfigTextFault),
    /// The trace is refused.
    Trace(TraceFault),
    /// The dump's text is refused.
    Dump(DumpFault),
    /// The text of the state that the calls start from is refused.
    State(StateFault),
    /// The number of workers is 0 or above 64.
    Workers,
    /// Memory could not be had.
    Memory,
    /// A thread could not be started.
    Start,
    /// The receipts of a live run are not those of its history.
    Unsettled,
    /// The actor of this program, counted from 0, is not one of the core's.
    BadActor(usize),
    /// The machine has no slot of this number.
    NoSlot(u32),
    /// The version of the machine has no dump and no text of a state.
    NoText,
    /// A source failed, or had too many bytes.
    Read,
    /// A sink failed.
    Write,
}

impl From<ReadFault> for TextFault {
    ghost from_gives = { λ fault made. made ≡ read_fault fault };

    fn from(fault: ReadFault) -> TextFault {
        match fault {
            ReadFault::Memory => TextFault::Memory,
            ReadFault::Read => TextFault::Read,
        }
    }
}

impl From<StreamFault> for TextFault {
    ghost from_gives = { λ fault made. made ≡ text_fault fault };

    fn from(fault: StreamFault) -> TextFault {
        match fault {
            StreamFault::Trace(fault) => TextFault::Trace(fault),
            StreamFault::Memory => TextFault::Memory,
            StreamFault::Read => TextFault::Read,
        }
    }
}

impl From<ConfigTextFault> for TextFault {
    ghost from_gives = { λ fault made. made ≡ config_fault fault };

    fn from(fault: ConfigTextFault) -> TextFault {
        match fault {
            ConfigTextFault::Memory => TextFault::Memory,
            _ => TextFault::Config(fault),
        }
    }
}

impl From<DumpFault> for TextFault {
    ghost from_gives = { λ fault made. made ≡ dump_fault fault };

    fn from(fault: DumpFault) -> TextFault {
        match fault {
            DumpFault::Memory => TextFault::Memory,
            _ => TextFault::Dump(fault),
        }
    }
}

impl From<StateFault> for TextFault {
    ghost from_gives = { λ fault made. made ≡ state_fault fault };

    fn from(fault: StateFault) -> TextFault {
        match fault {
            StateFault::Memory => TextFault::Memory,
            _ => TextFault::State(fault),
        }
    }
}

impl TextFault {
    /// The exit status: 2 if the input is refused, 3 if memory, a thread, a source or the sink failed.
    pub const fn status(&self) -> u8
        ensures { result ≡ status_of self.now }
    {
        match self {
            TextFault::Config(ConfigTextFault::Memory)
            | TextFault::Trace(TraceFault::Memory)
            | TextFault::Dump(DumpFault::Memory)
            | TextFault::State(StateFault::Memory) => 3,
            TextFault::Config(_)
            | TextFault::Trace(_)
            | TextFault::Dump(_)
            | TextFault::State(_)
            | TextFault::Workers
            | TextFault::BadActor(_)
            | TextFault::NoSlot(_)
            | TextFault::NoText => 2,
            TextFault::Memory
            | TextFault::Start
            | TextFault::Unsettled
            | TextFault::Read
            | TextFault::Write => 3,
        }
    }

    /// What is wrong, up to a number, if it has one.
    pub(crate) const fn words(&self) -> &'static str
        ensures text { result.now ≡ fault_words self.now }
        ensures short { length result.now ≤ 40 }
    {
        match self {
            TextFault::Config(fault) => fault.words(),
            TextFault::Trace(fault) => fault.words(),
            TextFault::Dump(fault) => fault.words(),
            TextFault::State(fault) => fault.words(),
            TextFault::Workers => "bad number of workers",
            TextFault::Memory => "out of memory",
            TextFault::Start => "a worker could not be started",
            TextFault::Unsettled => "history not settled",
            TextFault::BadActor(_) => "bad actor of program ",
            TextFault::NoSlot(_) => "the machine has no slot ",
            TextFault::NoText => "version 3 has no dump and no state",
            TextFault::Read => "read failed",
            TextFault::Write => "write failed",
        }
    }

    /// The number, if it has one.
    pub(crate) const fn number(&self) -> Option<usize>
        ensures { result ≡ fault_number self.now }
    {
        match self {
            TextFault::Trace(TraceFault::BadLine(number)) => Some(*number as usize),
            TextFault::Dump(DumpFault::BadLine(number)) => Some(*number as usize),
            TextFault::Dump(DumpFault::Frame(frame)) => Some(*frame as usize),
            TextFault::State(fault) => fault.number(),
            TextFault::BadActor(program) => Some(*program),
            TextFault::NoSlot(slot) => Some(*slot as usize),
            _ => None,
        }
    }

    /// What is said after the number.
    pub(crate) const fn end(&self) -> &'static str
        ensures text { result.now ≡ fault_end self.now }
        ensures short { length result.now ≤ 20 }
    {
        match self {
            TextFault::Dump(fault) => fault.end(),
            TextFault::State(fault) => fault.end(),
            _ => "",
        }
    }
}

impl fmt::Display for TextFault {
    fn fmt<W: fmt::Write>(&self, f: &mut fmt::Formatter<W>) -> fmt::Result {
        f.write_str(self.words())?;
        if let Some(number) = self.number() {
            write!(f, "{number}")?;
        }
        f.write_str(self.end())
    }
}

impl Error for TextFault {}
