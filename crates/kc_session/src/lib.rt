//! A core that is asked line by line, the trace of what it was asked, and the digest of that trace without secrets.
//!
//! - what a session answers to a line or a call, who may ask it, why it does not answer, what the last call changed,
//!   and the trace that it gives, whole and redacted: `specs/Session.antt`, `src/session.rt`
//! - what a call changes, noted before it and compared after it: `kc_custody/src/watching.rt`; the digest:
//!   `kc_redact/src/witness.rt`
#![tactic(auto)]

mod session;

pub use session::{AskFault, Form, Session};
