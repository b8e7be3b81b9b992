//! Lists of frames, linked through the records of the frames.
ghost use Rattle.std.specs.Prelude.{◌≡◌, None};

use crate::FrameNo;

/// The neighbours of a frame in its list; both `None` for a frame in no list.
#[derive(Clone, Copy, Debug, PartialEq, Eq)]
pub struct Link {
    pub prev: Option<FrameNo>,
    pub next: Option<FrameNo>,
}

/// The ends of a list of frames, and the number of its frames.
#[derive(Clone, Copy, Debug, PartialEq, Eq)]
pub struct Ends {
    pub head: Option<FrameNo>,
    pub tail: Option<FrameNo>,
    pub count: u32,
}

impl Link {
    /// The link of a frame in no list.
    pub const UNLINKED: Link = Link {
        prev: None,
        next: None,
    };
}

impl Ends {
    /// Returns the ends of an empty list.
    pub fn empty() -> Ends
        ensures { result ≡ record { head = None; tail = None; count = 0 } }
    {
        Ends {
            head: None,
            tail: None,
            count: 0,
        }
    }
}
