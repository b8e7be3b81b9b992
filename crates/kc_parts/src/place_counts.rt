//! The numbers of places in a store.

/// The numbers of pages and slots that a store has places for.
#[derive(Clone, Copy, Debug, PartialEq, Eq)]
pub struct PlaceCounts {
    /// Places for frames, filled or empty.
    pub frames: usize,
    /// Places for VM slots, filled or empty.
    pub slots: usize,
}
