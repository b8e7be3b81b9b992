//! Which header the trace has to have that goes on from a state, and what is wrong with another one.
ghost use Rattle.std.specs.Prelude.{◌≡◌, ◌≢◌, ◌≤◌, ◌+◌, ◌^◌, length, MatchOption};
ghost use Rattle.kc_trace.specs.Faults.{header_fault_words};
ghost use Rattle.std.specs.Bool.{Decides};
ghost use Rattle.kc_trace.specs.declared.header.Position.TheVariants as position;
ghost use Rattle.kc_trace.specs.Expected.{DiffersIn, number_of, position_after, expected_after, MayHave, IsPositionFault, IsHeaderFault};

use crate::header::{Header, Position};
use kc_types::Config;

/// Which headers a trace may have.
#[derive(Clone, Copy, Debug, PartialEq, Eq)]
pub enum Expected {
    /// Header 1 or 2: nothing is known of where the trace comes.
    Bare,
    /// Header 1 or 2, or a head that says that the trace is the first volume.
    First,
    /// A head with this position.
    At(Position),
    /// A head of the volume after the one of this number, whose redacted text has this SHA-256 digest.
    After { number: u32, digest: [u8; 32] },
    /// A head of the volume after the one of this number, whose digest is not known.
    AfterNumber(u32),
}

/// The first part in which the machine that a head names differs.
#[derive(Clone, Copy, Debug, PartialEq, Eq)]
pub enum MachinePart {
    Version,
    Frames,
    Core,
    Host,
    Leaves,
    /// The approved digests: how many there are, or one of them.
    Approved,
}

/// Why the header of a trace is not the one that is expected.
#[derive(Clone, Copy, Debug, PartialEq, Eq)]
pub enum HeaderFault {
    /// The machine that the head names differs.
    Machine(MachinePart),
    /// The head says that the trace is a later volume, and the first one is expected.
    NotFirst,
    /// The number of the volume differs.
    Number,
    /// The digest of the volume before it differs.
    Digest,
    /// There is no head, and one is expected.
    Missing,
    /// There is a head, and none is expected.
    Unexpected,
}

impl HeaderFault {
    /// What is wrong.
    pub const fn words(&self) -> &'static str
        ensures text { result.now ≡ header_fault_words self.now }
        ensures short { length result.now ≤ 40 }
    {
        match self {
            HeaderFault::Machine(MachinePart::Version) => "machine of the trace differs: version",
            HeaderFault::Machine(MachinePart::Frames) => "machine of the trace differs: frames",
            HeaderFault::Machine(MachinePart::Core) => "machine of the trace differs: core",
            HeaderFault::Machine(MachinePart::Host) => "machine of the trace differs: host",
            HeaderFault::Machine(MachinePart::Leaves) => "machine of the trace differs: leaves",
            HeaderFault::Machine(MachinePart::Approved) => "machine of the trace differs: approved",
            HeaderFault::NotFirst => "trace is not the first volume",
            HeaderFault::Number => "volume of the trace differs: number",
            HeaderFault::Digest => "volume of the trace differs: digest",
            HeaderFault::Missing => "trace has no head, and one is expected",
            HeaderFault::Unexpected => "trace has a head, and none is expected",
        }
    }
}

/// Whether two lists of digests are the same.
fn are_same(digests: &[[u8; 32]], others: &[[u8; 32]]) -> bool
    ensures { Decides result (digests.now ≡ others.now) }
{
    digests == others
}

/// The first part in which two machines differ.
fn machine_difference(config: &Config, other: &Config) -> Option<MachinePart>
    ensures { MatchOption result (config.now ≡ other.now) (λ part. DiffersIn part config.now other.now) }
{
    if config.version() != other.version() {
        Some(MachinePart::Version)
    } else if config.frames() != other.frames() {
        Some(MachinePart::Frames)
    } else if config.core() != other.core() {
        Some(MachinePart::Core)
    } else if config.host() != other.host() {
        Some(MachinePart::Host)
    } else if config.leaves() != other.leaves() {
        Some(MachinePart::Leaves)
    } else if !are_same(config.approved(), other.approved()) {
        Some(MachinePart::Approved)
    } else {
        None
    }
}

impl Position {
    /// The number of the volume, counted from 1.
    pub fn number(self) -> u32
        ensures { result ≡ number_of self }
    {
        match self {
            Position::First => 1,
            Position::Later { number, .. } => number,
        }
    }

    /// Where the next volume comes, by the header of this one and the SHA-256 digest of its redacted text, if it has a
    /// head; `None` if it has no head, or the last number, 4,294,967,295, or lacks bytes that the host wrote.
    pub fn after(header: &Header, digest: Option<[u8; 32]>) -> Option<Position>
        ensures { result ≡ position_after header.now digest }
    {
        match (header, digest) {
            (Header::Three(head), Some(digest)) => {
                if head.is_host_redacted {
                    return None;
                }
                Some(Position::Later {
                    number: head.position.number().checked_add(1)?,
                    after: digest,
                })
            },
            _ => None,
        }
    }
}

/// What is wrong with a position that is to be this one.
fn position_fault(expected: Position, position: Position) -> Option<HeaderFault>
    ensures { MatchOption result (position ≡ expected) (λ fault. IsPositionFault expected position fault) }
{
    if position.number() != expected.number() {
        Some(HeaderFault::Number)
    } else if position != expected {
        Some(HeaderFault::Digest)
    } else {
        None
    }
}

/// What is wrong with a position that is to be of the volume after the one of this number.
fn number_fault(number: u32, place: Position) -> Option<HeaderFault>
    ensures { MatchOption result (number_of place ≡ number + 1)
        (λ fault. (fault ≡ HeaderFault.Number) × (number_of place ≢ number + 1)) }
{
    if place.number() as u64 == number as u64 + 1 {
        None
    } else {
        Some(HeaderFault::Number)
    }
}

/// What is wrong with a position that is to be the one after a volume of this number and digest.
fn follower_fault(number: u32, digest: [u8; 32], place: Position) -> Option<HeaderFault>
    ensures { MatchOption result (place ≡ position.Later (number + 1) digest)
        (λ fault. IsPositionFault (position.Later (number + 1) digest) place fault) }
{
    if let Some(fault) = number_fault(number, place) {
        return Some(fault);
    }
    match place {
        Position::Later { after, .. } if after == digest => None,
        _ => Some(HeaderFault::Digest),
    }
}

impl Expected {
    /// Which header may follow in the next volume, by the header of this one and the SHA-256 digest of its redacted
    /// text, if it has a head.
    pub fn after(header: &Header, digest: Option<[u8; 32]>) -> Expected
        ensures { result ≡ expected_after header.now digest }
    {
        match (header, digest) {
            (Header::Three(head), Some(digest)) => {
                let number = head.position.number();
                if head.is_host_redacted {
                    Expected::AfterNumber(number)
                } else {
                    Expected::After { number, digest }
                }
            },
            _ => Expected::Bare,
        }
    }

    /// What is wrong with the header of a trace that is to be of this machine.
    pub fn fault(self, config: &Config, header: &Header) -> Option<HeaderFault>
        ensures { MatchOption result (MayHave config.now self header.now) (λ fault. IsHeaderFault config.now self header.now fault) }
    {
        let head = match header {
            Header::Three(head) => head,
            _ => {
                return match self {
                    Expected::At(_) | Expected::After { .. } | Expected::AfterNumber(_) => {
                        Some(HeaderFault::Missing)
                    },
                    _ => None,
                };
            },
        };
        if self == Expected::Bare {
            return Some(HeaderFault::Unexpected);
        }
        if let Some(part) = machine_difference(config, &head.config) {
            return Some(HeaderFault::Machine(part));
        }
        match self {
            Expected::At(position) => position_fault(position, head.position),
            Expected::After { number, digest } => follower_fault(number, digest, head.position),
            Expected::AfterNumber(number) => number_fault(number, head.position),
            _ => match head.position {
                Position::First => None,
                Position::Later { .. } => Some(HeaderFault::NotFirst),
            },
        }
    }
}
