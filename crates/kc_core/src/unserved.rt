//! Why a call is not carried out.
ghost use Rattle.std.specs.Prelude.{◌≡◌};
ghost use Rattle.kc_core.specs.declared.unserved.Unserved.TheVariants.{Refused, OutOfMemory};

use kc_types::{Memory, Refusal};

/// Why a call is not carried out.
#[derive(Clone, Copy, Debug, PartialEq, Eq)]
pub enum Unserved {
    /// It is refused, and its reply says why.
    Refused(Refusal),
    /// Memory runs out, and there is no reply.
    OutOfMemory(Memory),
}

impl From<Refusal> for Unserved {
    ghost from_gives = { λ refusal unserved. unserved ≡ Refused refusal };

    fn from(refusal: Refusal) -> Unserved {
        Unserved::Refused(refusal)
    }
}

impl From<Memory> for Unserved {
    ghost from_gives = { λ memory unserved. unserved ≡ OutOfMemory memory };

    fn from(memory: Memory) -> Unserved {
        Unserved::OutOfMemory(memory)
    }
}
