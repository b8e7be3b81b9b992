//! Dumps as text.
//!
//! - how a dump is spelled: `specs/DumpText.antt`, `specs/Grammar.antt`; why a text is not a dump:
//!   `specs/Refused.antt`, `src/fault.rt`
//! - how one is read: `src/reader.rt` over `src/next.rt`; which line may come after which: `specs/Places.antt`,
//!   `src/place.rt`; a line's words: `specs/Lines.antt`, `src/line_reader.rt`
#![tactic(auto)]

mod begun;
mod dump_line;
mod fault;
mod line_reader;
mod lines;
mod next;
mod place;
mod ranges;
mod reader;
mod words;
mod writer;

pub use fault::DumpFault;
pub use reader::read_dump;
pub use writer::write_dump;
