//! The text of a page for a browser, without the lines of custody that it shows: what comes before them, and what comes
//! after them.
//!
//! - `src/head.rt`, `src/tail.rt`; the whole page: `specs/Html.antt`
//! - the parts of the script, in their order: `src/reading.rt` (the lines), `src/answering.rt` (who owned a frame),
//!   `src/drawing.rt`, `src/viewing.rt`, `src/tables.rt`, `src/controls.rt`
//!
//! The page runs only its own script and applies only its own style, by their digests in its policy, and has nothing
//! from elsewhere: whoever changes either must write its new digest there, which `tests/html` prints.
#![tactic(auto)]

mod answering;
mod controls;
mod drawing;
mod head;
mod reading;
mod tables;
mod tail;
mod viewing;

pub use head::HEAD;
pub use tail::TAIL;
