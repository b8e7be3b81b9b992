//! The engines that replay a trace, into replies, a dump or the text of a state, that write its custody, that make its
//! calls live, and that audit a dump. Re-exports `kc_texts` and `kc_faults`.
//!
//! - a trace replayed as it is read: `src/replaying.rt`, `specs/Engine.antt`; what it begins in: `src/starting.rt`;
//!   what is written of it, and how the state left is compared: `src/giving.rt`
//! - how custody is written as changes, summary, picture or page: `specs/Custody.antt`, `src/account.rt`; its lines and
//!   the page around them: `src/lined.rt`
//! - what an account of a trace is, or of one volume after another: `specs/Kinds.antt`, `src/life.rt`; which volumes
//!   were read, and which may come next: `src/sequence.rt`
//! - how that of custody comes to be: `specs/Volumes.antt`, `src/custody.rt`; how a trace is read for it:
//!   `src/telling.rt`; what is kept of the calls until it is written: `specs/Ledgers.antt`, `src/ledger.rt`; how many
//!   were refused: `specs/Answers.antt`
//! - that of each call with its reply: `specs/Lines.antt`, `src/answering.rt`; how it is written: `src/placing.rt`
//! - a live run: `specs/Live.antt`, `src/live.rt`; what it reads: `src/reading.rt`, `specs/Reading.antt`; its history
//!   replayed: `src/history.rt`
//! - the launch measurement of boot images: `specs/Measuring.antt`, `src/measuring.rt`
//! - an audit of a dump: `specs/Audit.antt`, `src/auditing.rt`
#![tactic(auto)]

mod account;
mod answering;
mod auditing;
mod custody;
mod giving;
mod history;
pub mod laws;
mod ledger;
mod life;
mod lined;
mod live;
mod measuring;
mod order;
mod placing;
mod reading;
mod replaying;
mod sequence;
mod starting;
mod telling;

pub use answering::{LinesOrder, ReplayAccount};
pub use auditing::audit_text;
pub use custody::{CustodyAccount, CustodyOrder};
pub use history::replay_history;
pub use life::Account;
pub use live::live_text;
pub use measuring::LaunchMeasure;
pub use order::ReplayOrder;
pub use reading::{DEFAULT_CONFIG, read_both, read_configuration};
pub use replaying::{Compared, replay_text, replay_to_text};
pub use starting::{Start, read_start};
