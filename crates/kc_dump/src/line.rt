//! What a dump says about one frame.
use kc_types::{FrameNo, Gfn, Owner};

/// The record of a frame, and the SHA-256 digest (FIPS 180-4) of its page.
#[derive(Debug, Drop, PartialEq, Eq)]
pub struct FrameLine {
    pub owner: Owner,
    /// How often its VM has granted the host access, 0 to 100.
    pub share: u32,
    /// The guest frame at which its VM sees it.
    pub gfn: Option<Gfn>,
    /// Whether the host's access is mapped.
    pub present: bool,
    /// The frame before it in the list of its owner.
    pub prev: Option<FrameNo>,
    /// The frame after it in the list of its owner.
    pub next: Option<FrameNo>,
    pub digest: [u8; 32],
}
