//! The engines that redact a trace or give it a head, over any sources and any sink.
//!
//! - what virtual processors write: `src/engine.rt`; how the trace is read and written: `src/reading.rt`,
//!   `specs/Redacts.antt`
//! - whose writes are blanked, and by which state, with `--host`: `specs/Made.antt`, `src/next.rt`, `src/host.rt`
//! - a trace without a head is given one: `specs/Converts.antt`, `src/convert.rt`; which one: `src/heads.rt`
#![tactic(auto)]

mod calls;
mod convert;
mod engine;
mod heads;
mod host;
mod next;
mod reading;

pub use convert::{Converted, convert_after_text, convert_text};
pub use engine::redact_text;
pub use host::redact_host_text;
