//! The command line, and what it asks for.
//!
//! - the program's command, as `clap` has it: `specs/Commands.antt`, `src/commands.rt`
//! - which job a command line asks for, with which files after its input, and which command lines are refused: `specs/Arguments.antt`,
//!   `src/arguments.rt`; the options as they are given: `specs/Options.antt`, `src/options.rt`; what they ask for
//!   together: `specs/Jobs.antt`, `src/judging.rt`, `src/job.rt`; which contradict each other: `specs/Clashes.antt`,
//!   `src/clash.rt`
//! - the boot images that are to be measured: `specs/Images.antt`, `src/images.rt`
#![tactic(auto)]

mod arguments;
mod clash;
mod commands;
mod images;
mod job;
mod judging;
mod options;

pub use arguments::{ArgFault, request_of};
pub use clash::Clash;
pub use job::{Action, ImageFile, Job, Measuring, Request, Start, Wanted};
