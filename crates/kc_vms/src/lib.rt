//! VM slots: phases, virtual processors, boot images and how they are measured, the ends of the list of frames, and
//! the table in two levels, whose leaves come from a pool.
//!
//! - a slot as a value, why it refuses a call, and how it changes: `specs/Vm.antt`, `specs/Refusals.antt`, `src/vm.rt`
//! - a table as a value, and as it is in memory: `specs/Stage2.antt`, `specs/TwoLevels.antt`, `src/table.rt`; its pool:
//!   `src/pool.rt`
//! - how an image is measured: `src/measure.rt`
#![tactic(auto)]

mod approved;
mod entries;
mod judging;
mod leaf;
mod levels;
mod measure;
mod pages;
mod pool;
mod table;
mod vm;

pub use approved::Approved;
pub use judging::is_slot;
pub use measure::Measure;
pub use pages::pages_of;
pub use table::{MapFault, Stage2};
pub use vm::Vm;
