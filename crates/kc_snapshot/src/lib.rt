//! A core as a dump, a state as its dump and what that leaves out, and a core that is made from these again.
//!
//! A dump has the core's records with their neighbours, its slots, and the digest of each page, whole or with zero pages
//! in place of those of active VMs:
//! - what the dump of a state is: `specs/Dumping.antt`; how a core is dumped: `src/dumping.rt`
//! - in which form a state is described: `src/form.rt`, `specs/Form.antt`
//! - digests that are computed on the calling thread alone: `src/digesting.rt`
//!
//! A state is a dump and what that leaves out:
//! - what a dump leaves out of a state, and when a description is that of no lawful state: `specs/Told.antt`,
//!   `specs/Unlawful.antt`
//! - how a core is made from a description, and what is judged first: `src/making.rt`, `src/judging.rt`,
//!   `src/slots.rt`, `src/frames.rt`
#![tactic(auto)]

mod digesting;
mod dumping;
mod form;
mod frames;
mod judging;
pub mod laws;
mod making;
mod slots;
mod told;
mod unlawful;

pub use digesting::bytes_digests_alone;
pub use dumping::{dump, dump_alone};
pub use form::{StateForm, bytes_in};
pub use making::{core_alone, core_of};
pub use told::{SlotRest, Told};
pub use unlawful::Unlawful;
