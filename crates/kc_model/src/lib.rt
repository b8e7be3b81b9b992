//! What the core's calls mean: the state as a value, what each call answers, and the state that it leaves.
//!
//! - what the core keeps: `specs/State.antt`, `specs/Slot.antt`, `specs/Boot.antt`
//! - why a call is refused, and what is asked first: `specs/Refusals.antt`
//! - what a call does: `specs/Effects.antt`, `specs/Next.antt`
//! - when the host reaches a frame (*present*): `specs/State.antt`; what every state keeps of that:
//!   `specs/Lawful.antt`, `reached`
//! - what every state keeps: `specs/Lawful.antt`
//! - what every trace keeps: `specs/Promises.antt`, and the files that it names: `specs/Safety.antt`,
//!   `specs/Passing.antt`, `specs/OwnMemory.antt`, `specs/Starting.antt`, `specs/Availability.antt`,
//!   `specs/Blind.antt`, `specs/Undisturbed.antt`
//! - that a launch measurement is of one boot: `specs/Launches.antt`
//! - what custody is, and which changes a call and a trace make: `specs/Custody.antt`; what the changes say of the
//!   calls between them: `specs/CustodyLaws.antt`
//! - what is reported of a VM's life: `specs/Events.antt`, `specs/Lives.antt`; what states and replies say of the keys
//!   of a summary: `specs/Summaries.antt`; what is so before the first call: `specs/Before.antt`
//! - which bars a picture has: `specs/Bars.antt`
//! - what a call may touch: `specs/Resources.antt`, `specs/Footprints.antt`, `specs/Local.antt`, `specs/Linked.antt`
//! - what a live history is: `specs/Histories.antt`; when volumes, each replayed by itself, are one run:
//!   `specs/Volumes.antt`
//! - that a redacted trace says the same: `specs/Redaction.antt`; states without secrets: `specs/Blanking.antt`
//! - the same in words: `docs/RULES.md`; how to read a definition: `docs/CONTRACTS.md`
#![tactic(auto)]

pub mod laws;
