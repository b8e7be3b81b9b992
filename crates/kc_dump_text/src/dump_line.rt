//! A line of a dump after its header.
use kc_dump::FrameLine;
use kc_types::{Ends, FrameNo, Gfn, Phase};

/// What a line says. Its numbers are in the range of their types; whether it may come where it does depends on the
/// lines before it.
#[derive(Debug, Drop)]
pub enum DumpLine {
    /// The number of frames, the number of the core's, and the most leaves that a table can have.
    SizeOf(u32, u32, u32),
    /// The ends of the free list.
    FreeOf(Ends),
    /// A slot, its phase, and the ends of its list.
    VmOf(u32, Phase, Ends),
    /// A slot, the place of a leaf among its leaves, and the leaf's root slot.
    LeafOf(u32, u32, u32),
    /// A slot, and a guest frame with its frame.
    EntryOf(u32, (Gfn, FrameNo)),
    /// A frame and its record.
    FrameOf(u32, FrameLine),
}
