//! States as text.
//!
//! - how a state is spelled, with the position of the volume that goes on from it or without one:
//!   `specs/StateText.antt`; why a text is not a state: `specs/Refused.antt`
//! - how a state's text is read: `src/reader.rt`, `src/header.rt`, `src/front.rt`; how it is written a piece at a time:
//!   `src/pieces.rt`
//! - where a text differs from that of a core's state: `specs/Differences.antt`, `src/comparing.rt`
//! - that state texts are enough for volumes to be one run: `src/laws.rt`
#![tactic(auto)]

mod comparing;
mod fault;
mod front;
mod header;
pub mod laws;
mod line_reader;
mod pages;
mod pieces;
mod reader;
mod sizes;
mod whole;
mod words;
mod writing;

pub use comparing::difference_from_state;
pub use fault::StateFault;
pub use pieces::StatePieces;
pub use reader::{ReadState, read_state, read_state_alone};
pub use whole::{state_digest, whole_text};
