//! Replies to calls.
ghost use Rattle.std.specs.Prelude.{◌≡◌, IfOk};

use crate::{Data, Memory, Refusal};

/// The reply to a call. Replies are equal if they say the same, with the same bytes.
#[derive(Debug, Drop, PartialEq)]
pub enum Reply {
    /// The call took effect.
    Done,
    /// The frame that became the host's.
    Frame(u32),
    /// The number of the new image.
    Image(u32),
    /// The bytes read.
    Data(Data),
    /// The guest frame that the virtual processor now waits for.
    Fault(u32),
    /// The first image that is not approved.
    Rejected(u32),
    /// The call changed nothing, for this reason.
    Refused(Refusal),
}

impl Reply {
    /// Copies the reply; `Memory` if memory runs out.
    pub fn copy(&self) -> Result<Reply, Memory>
        // No clause can rule out that memory runs out: a test makes a copy.
        ensures { IfOk result (λ made. made ≡ self.now) }
    {
        Ok(match self {
            Reply::Done => Reply::Done,
            Reply::Frame(frame) => Reply::Frame(*frame),
            Reply::Image(image) => Reply::Image(*image),
            Reply::Data(data) => Reply::Data(data.copy()?),
            Reply::Fault(gfn) => Reply::Fault(*gfn),
            Reply::Rejected(image) => Reply::Rejected(*image),
            Reply::Refused(refusal) => Reply::Refused(*refusal),
        })
    }
}
