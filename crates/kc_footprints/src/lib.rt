//! What each call of a trace may touch, and the waves in which the calls are made.
//!
//! - what the calls of a trace may touch: `specs/Footprints.antt`; what a call names: `src/names.rt`; what slots and
//!   the free list may have: `src/reaches.rt` over `src/reach_sets.rt`; a footprint and its members:
//!   `src/footprints.rt`
//! - their waves: `src/planner.rt`; the calls of a wave: `src/plan.rt`
//! - why the order within a wave changes nothing: `specs/Commuting.antt`, `specs/Stepping.antt`,
//!   `specs/Reordering.antt`, over laws of calls in waves that hold for any resources and parts: `specs/Order.antt`,
//!   `specs/Reorder.antt`, `specs/Planned.antt`
#![tactic(auto)]

mod footprints;
pub mod laws;
mod names;
mod plan;
mod planner;
mod reach_set;
mod reach_sets;
mod reaches;
mod trace;

pub use footprints::Footprints;
pub use plan::Plan;
pub use trace::footprints_from;
