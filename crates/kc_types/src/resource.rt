//! What a call may touch.
use crate::{FrameNo, VmId};

/// One thing that calls read and change, and that one worker at a time holds: a frame, a VM slot, or the ends of the
/// free list.
#[derive(Clone, Copy, Debug, PartialEq, Eq)]
pub enum Resource {
    Frame(FrameNo),
    Vm(VmId),
    Free,
}
