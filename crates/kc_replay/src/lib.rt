//! What each call of a trace from a core on may touch, the waves in which the calls are made, and workers that make
//! them wave after wave, with the results of one thread that makes them in order.
//!
//! - how a trace is replayed, whole or in segments: `src/replayer.rt`, `specs/Replayer.antt`; from a state: `from_core`
//! - one segment, in order or wave after wave: `src/segment.rt`; what is left of one that failed: `src/failed.rt`
//! - one wave, parts out, calls made, parts back: `src/wave.rt`, `specs/Wave.antt`
//! - the workers: `src/work.rt`, `specs/Working.antt`; which worker has which call: `src/dealing.rt`,
//!   `specs/Dealing.antt`, `src/crew.rt`
//! - footprints and waves from a core, with its owners at the start: `src/trace.rt`; what may be spent on plans:
//!   `src/budget.rt`
#![tactic(auto)]

mod budget;
mod crew;
mod dealing;
mod failed;
mod fault;
pub mod laws;
mod owned;
mod replayer;
mod segment;
mod task;
mod trace;
mod wave;
mod work;

pub use fault::ReplayFault;
pub use replayer::{Replayer, replay};
pub use segment::Outcome;
pub use trace::footprints;
