//! Traces without the bytes that virtual processors write, and that the host writes to frames of active VMs, and the
//! digest of such a trace as it grows.
//!
//! - which text is a redacted trace, and how it is written: `specs/Redacted.antt`, `src/redacting.rt`; that it says the
//!   same: `kc_model/specs/Redaction.antt`
//! - the digest of a redacted trace as it grows: `specs/Witness.antt`, `src/witness.rt`
#![tactic(auto)]

mod redacting;
mod witness;

pub use redacting::{Target, Written, push_redacted, push_written};
pub use witness::Witness;
