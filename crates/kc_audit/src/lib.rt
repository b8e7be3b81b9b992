//! The audit of dumps: findings, which a core in order never shows, and the lines that report them. Dumps are
//! re-exported from `kc_dump`, the digests of pages from `kc_digests`.
//!
//! - what an audit finds, and in which order: `specs/Findings.antt`, `specs/Verdicts.antt`
//! - how a list is decided in linear time: `src/chain.rt`, `src/counts.rt`; which frames the tables map: `src/marks.rt`
//! - what an audit reports: `specs/Report.antt`, `src/line.rt`
#![tactic(auto)]

mod auditing;
mod chain;
mod collect;
mod counts;
mod finding;
mod frames;
mod judgement;
mod leaves;
mod line;
mod lists;
mod marks;
mod parallel;
mod verdict;

pub use auditing::audit;
pub use finding::Finding;
pub use line::{finding_text, written};
pub use parallel::audit_parallel;
