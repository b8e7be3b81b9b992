//! What an audit may find.
use kc_types::{FrameNo, Gfn, VmId};

/// Something in a dump that a core in order never shows.
#[derive(Clone, Copy, Debug, PartialEq, Eq)]
pub enum Finding {
    /// A frame past the core's is the core's, or one of the core's is not.
    CoreOwner(FrameNo),
    /// A frame of the core's or of the host's has neighbours.
    Linked(FrameNo),
    /// The ends of the free list and the links do not spell a sequence of exactly the free frames, each once.
    FreeChain,
    /// The ends of a slot's list and the links do not spell a sequence of exactly its frames, each once.
    Chain(VmId),
    /// A guest frame of a slot is mapped to a frame that is not the slot's, or that has another guest frame.
    Entry(VmId, Gfn),
    /// A VM's frame is not mapped by its VM's table where the frame says, or a frame that is not a VM's has a guest
    /// frame.
    Gfn(FrameNo),
    /// A frame that is not a VM's is shared.
    Share(FrameNo),
    /// The host reaches a frame that is neither its own nor shared.
    Present(FrameNo),
    /// A slot's root slots with leaves: one is there twice, there are too many, or that of a mapped guest frame is
    /// missing.
    Leaves(VmId),
    /// A slot is empty, and its list, leaves or entries are not.
    Empty(VmId),
    /// The digest of a free frame is not that of a page of zero bytes.
    Bytes(FrameNo),
}
