//! What an auditor may want to see beside custody: each call that was refused or rejected, and each read and write of
//! the host that a VM's frame served; never bytes.
//!
//! - what is noted of a call beside its events: `specs/Remarks.antt`, `src/remark.rt`, `src/telling.rt`
//! - what is refused at a page of a VM, and in which of its lives: `specs/Attempts.antt`, `src/attempt.rt`
//! - how many calls are refused, and for what: `specs/Denials.antt`, `src/denials.rt`; how many are noted so: `src/laws.rt`
#![tactic(auto)]

mod attempt;
mod denials;
pub mod laws;
mod owner;
mod remark;
mod telling;

pub use attempt::{Attempt, attempt_told, attempts_in_life, count_attempts, refusals};
pub use denials::{Answered, Denials};
pub use owner::is_owned_by;
pub use remark::{Access, CallKind, Denial, Denied, NamedFrame, Note, Remarks};
pub use telling::{note_events, remark_told};
