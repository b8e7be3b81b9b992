//! What a function returns to C.
ghost use Rattle.std.specs.Prelude.{◌≡◌};
ghost use Rattle.kcore_c.specs.Status.{code_of};

use kc_config_text::ConfigTextFault;
use kc_session::AskFault;
use kc_state_text::StateFault;
use kc_types::ConfigFault;

/// What a function returns to C.
#[derive(Clone, Copy, Debug, PartialEq, Eq)]
pub enum Status {
    /// It is done.
    Done,
    /// The session is not open.
    Closed,
    /// A session is open already.
    AlreadyOpen,
    /// Memory could not be had.
    Memory,
    /// The buffer is too short.
    NoRoom,
    /// The trace has no such line.
    NoSuchLine,
    /// There is no such frame, or none at this place.
    NoSuchFrame,
    /// The last call changed fewer frames.
    NoSuchChange,
    /// There is no such call.
    NoSuchCall,
    /// The line was not answered.
    Ask(AskFault),
    /// The text is not a configuration.
    Config(ConfigTextFault),
    /// The text has more than 1,073,741,824 bytes.
    TooLong,
    /// The text is not a lawful state's.
    State(StateFault),
    /// The version of the machine has no dump and no text of a state.
    NoText,
}

impl Status {
    /// Its number in `kcore.h`.
    pub fn code(self) -> u32
        ensures { result ≡ code_of self }
    {
        match self {
            Status::Done => 0,
            Status::Closed => 1,
            Status::AlreadyOpen => 2,
            Status::Memory => 3,
            Status::NoRoom => 4,
            Status::NoSuchLine => 5,
            Status::NoSuchFrame => 15,
            Status::NoSuchChange => 16,
            Status::NoSuchCall => 17,
            Status::Ask(AskFault::BadLine) => 6,
            Status::Ask(AskFault::NotYours) => 14,
            Status::Ask(AskFault::HistoryFull) => 7,
            Status::Ask(AskFault::Memory) => 3,
            Status::Config(ConfigTextFault::NotJson) => 8,
            Status::Config(ConfigTextFault::BadShape) => 9,
            Status::Config(ConfigTextFault::Config(ConfigFault::Frames)) => 10,
            Status::Config(ConfigTextFault::Config(ConfigFault::CoreHost)) => 11,
            Status::Config(ConfigTextFault::Config(ConfigFault::Leaves)) => 12,
            Status::Config(ConfigTextFault::Config(ConfigFault::TooManyDigests)) => 13,
            Status::Config(ConfigTextFault::Memory) => 3,
            Status::TooLong => 18,
            Status::State(StateFault::NoHeader) => 19,
            Status::State(StateFault::BadLine(_)) => 20,
            Status::State(StateFault::Missing(_)) => 21,
            Status::State(StateFault::Sizes) => 22,
            Status::State(StateFault::Found(_)) => 23,
            Status::State(StateFault::Slot(_)) => 24,
            Status::State(StateFault::Frame(_)) => 25,
            Status::State(StateFault::Memory) => 3,
            Status::NoText => 26,
        }
    }
}
