//! What happened to each frame and slot: every change of custody that a call makes, and each read and write of the host
//! that a VM's frame served; the lives of VMs, by these events; and notes on calls, which are these events and what was
//! refused and served.
//!
//! - which frames a call may move: `specs/Movable.antt`, `src/movable.rt`
//! - marks before a call, changes after it: `specs/Marks.antt`, `src/telling.rt`; of a call that somebody else makes:
//!   `src/watching.rt`
//! - what is so before the first call: `src/before.rt`
//! - one VM's changes: `specs/Selected.antt`, `src/selected.rt`
//! - calls made, and noted or summarized: `src/noting.rt`; the frame that a call names: `src/naming.rt`; which notes are written:
//!   `specs/Chosen.antt`, `src/chosen.rt`
//! - lives that grow event by event: one life, `specs/Growing.antt`, `src/open_life.rt`; all of them, `specs/Grown.antt`,
//!   `src/register.rt`, `src/growing.rt`; where the sharing of frames ends: `specs/Endings.antt`, `src/endings.rt`
#![tactic(auto)]

mod before;
mod chosen;
mod endings;
mod growing;
mod look_ups;
mod movable;
mod naming;
mod noting;
mod open_life;
mod register;
mod selected;
mod selected_lives;
mod telling;
mod watching;

pub use before::events_before;
pub use chosen::choose;
pub use growing::Lives;
pub use look_ups::custody_at;
pub use noting::{note_call, note_calls, summarize_call, summarize_calls};
pub use selected::select;
pub use selected_lives::select_lives;
pub use telling::{tell_call, tell_calls};
pub use watching::{note_marks, tell_marks};
