//! What the engines read and write: sources and sinks, traces read from them and lines given to them a piece at a time,
//! and texts read whole.
//!
//! - what bytes come from and go to: `src/source.rt`; a reader or a writer of std, or memory, as that:
//!   `src/standard.rt`, `src/mem.rt`; a source whose head is seen before it is read: `src/ahead.rt`, `specs/Headed.antt`
//! - a trace, as it comes: `src/stream.rt`, `specs/Streamed.antt`; all that a source has: `src/whole.rt`; how a source
//!   may fail: `specs/Ends.antt`
//! - what an engine is asked for: `src/order.rt`
//! - what has a line: `src/line.rt`; the number of its volume before it: `src/placed.rt`; how lines are written in
//!   pieces: `src/lines.rt`
#![tactic(auto)]

mod ahead;
mod line;
mod lines;
mod mem;
mod order;
mod placed;
mod source;
mod standard;
mod stream;
mod whole;

pub use ahead::{Ahead, Headed};
pub use line::Line;
pub use lines::{
    empty_piece, give_answers, give_lines, give_placed, give_replies, give_trace, write_whole,
};
pub use mem::Mem;
pub use order::{CustodyForm, Named, Origin, ReplayForm, Scope};
pub use placed::Placed;
pub use source::{Failed, PIECE, Sink, Source};
pub use standard::Std;
pub use stream::{CallStream, NextCalls, StreamFault, Trace, read_whole_trace};
pub use whole::{ReadFault, read_secret, read_whole};
