//! Dumps of the core: what a dump shows, and when it is sound.
//!
//! - what a dump shows: `specs/Dump.antt`; which numbers it holds: `specs/Ranges.antt`
//! - when it is sound: `specs/Sound.antt`, `specs/Lists.antt`
//! - how a core is dumped: `kc_snapshot/specs/Dumping.antt`, `kc_snapshot/src/dumping.rt`
#![tactic(auto)]

mod dumped;
mod line;
mod slot;

pub use dumped::Dump;
pub use line::FrameLine;
pub use slot::SlotDump;
