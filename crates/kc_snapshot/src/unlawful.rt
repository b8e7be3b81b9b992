//! Why a description is that of no lawful state.
use kc_audit::Finding;

/// Why a description is that of no lawful state; the first reason that applies.
#[derive(Clone, Copy, Debug, PartialEq, Eq)]
pub enum Unlawful {
    /// There is no configuration of these numbers, or not all of its slots and frames are described.
    Sizes,
    /// What an audit of the dump finds first.
    Found(Finding),
    /// No lawful state has this slot.
    Slot(u32),
    /// No lawful state has this frame.
    Frame(u32),
    /// Memory could not be had.
    Memory,
}
