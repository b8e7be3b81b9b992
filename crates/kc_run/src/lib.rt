//! The program: the command line, the files and standard streams of a run, the engine that its job asks for, and the
//! exit status.
//!
//! - the command line, and what is reported at the end: `src/running.rt`; what may have been meant by a wrong one:
//!   `src/arguments.rt`
//! - all that a job leaves: `specs/Run.antt`, `src/job.rt`; the engine over the files: `src/engines.rt`; those that read
//!   one volume after another: `specs/Reports.antt`, `src/reporting.rt`
//! - a run that measures boot images: `specs/Measures.antt`, `src/measuring.rt`
//! - the files that a job opens: `src/files.rt`, `src/folder.rt`; what each is to the job: `src/asked.rt`
//! - the exit status, and what is reported on the error sink: `specs/Endings.antt`, `src/ending.rt`; what is said after
//!   a fault's line: `src/explaining.rt`; of refused calls: `src/denials.rt`
#![tactic(auto)]

mod arguments;
mod asked;
mod beginning;
mod denials;
mod ending;
mod engines;
mod explaining;
mod files;
mod folder;
mod job;
mod measuring;
mod reporting;
mod running;

pub use ending::{Ending, Exit, refuse};
pub use engines::System;
pub use files::{Files, Unopened};
pub use job::run_job;
pub use measuring::run_measure;
pub use running::run;
