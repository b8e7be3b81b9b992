//! Lists of frames, linked by index through the records of a store. No call takes memory.
//!
//! - when links and ends spell a list: `specs/Chain.antt`, `specs/Ending.antt`
//! - how frames are put into lists and taken out: `src/list.rt`; how a list is followed: `src/walking.rt`
#![tactic(auto)]

mod list;
mod store;
mod walking;

pub use kc_types::{Ends, Link};
pub use list::{append, pop_front, splice, unlink};
pub use store::LinkStore;
pub use walking::{FrameWalk, walk};
