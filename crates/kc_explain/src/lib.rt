//! What is said after a fault's line: why a line is not a call, or not one of a dump or of a state's text; what a text
//! that is not a trace looks like; which key of a configuration is wrong; and how far a long read has come. What is
//! said is tested, and no clause is about it; what is read through its sources is what their own sources give.
//!
//! - what may be shown of a bad line: `src/withheld.rt`; the number of words of each call: `src/trace_line.rt`; lines of dumps and states: `src/dump_line.rt`; the keys of
//!   a configuration: `src/config_key.rt`
//! - who asks, and over which files: `kc_run/src/explaining.rt`, `kc_run/src/folder.rt`
//! - how far a long read has come: `src/progress.rt`, `src/shown.rt`
#![tactic(auto)]

mod config_key;
mod dump_line;
mod finder;
mod look;
mod masked;
mod noted;
mod progress;
mod shown;
mod trace_line;
mod withheld;

pub use config_key::explain_config;
pub use dump_line::fault_of_text_line;
pub use finder::LineFinder;
pub use look::{Header, Look, look_of};
pub use masked::Masked;
pub use noted::Noted;
pub use progress::Progress;
pub use shown::{Awaited, Erasing, Shown};
pub use trace_line::{LineFault, fault_of_line};
pub use withheld::{TextLine, TraceLine};
