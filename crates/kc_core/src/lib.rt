//! One call on the parts that it needs; the core, which has all parts and runs on one thread; and the gate around each
//! call.
//!
//! - where a call is answered, refused or carried out, a function for each: the host's calls on frames `src/host.rt`,
//!   on slots alone `src/slots.rt` (refused by the slot, `kc_vms/src/vm.rt`), a frame handed to a slot `src/hand.rt`,
//!   measuring `src/verify.rt`, a virtual processor's reads and writes `src/guest.rt`, granting and revoking
//!   `src/shares.rt`, what is given back `src/freeing.rt`
//! - which call is which, and how a refusal becomes a reply: `src/dispatch.rt`; what a virtual processor's call names:
//!   `src/naming.rt`
//! - what a call takes of memory: `src/dispatch.rt`, `apply`; before the lock `kc_live/src/ready.rt`
//! - what a call does with parts of a state: `specs/Locality.antt`, `IsLocalityOfParts`
//! - what runs around each call: `src/gate.rt`
//! - what `verify` measured: `src/verify.rt`, `Verified`
//! - the pages of active VMs zeroed, for states that are passed on: `src/kcore.rt`, `blank`
#![tactic(auto)]

mod dispatch;
mod freeing;
mod gate;
mod guest;
mod hand;
mod host;
mod kcore;
pub mod laws;
mod look_ups;
mod naming;
mod shares;
mod slots;
mod unserved;
mod verify;

pub use dispatch::{answer, apply};
pub use gate::{Gate, OpenGate};
pub use kcore::{KCore, RunStop};
pub use verify::Verified;
