//! How an engine over texts ends without a result: its fault, the line and the exit status of that, and what its
//! outcome says of its sources and its sink.
//!
//! - each fault: `src/fault.rt`; its line and its exit status: `specs/Faults.antt`, `src/telling.rt`
//! - what the outcome says of the sources and the sink: `specs/Outcomes.antt`
//! - where the calls begin, by what the first source holds: `specs/Origins.antt`
#![tactic(auto)]

mod fault;
mod telling;

pub use fault::TextFault;
pub use telling::{tell, tell_volume};
