//! A call with the parts that it may touch, and what it leaves.

use kc_parts::Parts;
use kc_types::Reply;

/// A call with parts on which it can be made, or which it left.
#[derive(Drop)]
pub(crate) struct Task {
    /// The call's place in the trace.
    pub(crate) number: usize,
    pub(crate) parts: Parts,
}

impl Task {
    ghost use Rattle.std.specs.Prelude.{◌≡◌};

    /// Takes the task apart into the call's place in the trace and the parts.
    pub(crate) fn into_parts(self) -> (usize, Parts)
        ensures number { result.0 ≡ self.number }
        ensures parts { result.1 ≡ self.parts }
    {
        let Task { number, parts } = self;
        (number, parts)
    }
}

/// A call that was made.
#[derive(Drop)]
pub(crate) struct Finished {
    pub(crate) reply: Reply,
    pub(crate) left: Task,
}
