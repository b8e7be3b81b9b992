//! The core under one lock with the history of its calls: books, seats, receipts, and whether receipts are those of a
//! history. The core run live: programs, a thread for each, and the history that they leave with its receipts.
//!
//! - what a book keeps, seats, settling: `specs/Book.antt`, `specs/Seat.antt`, `specs/Settling.antt`; a history:
//!   `kc_model/specs/Histories.antt`
//! - programs, and runs of them: `specs/Program.antt`, `specs/Plans.antt`, `specs/Threads.antt`, `specs/Stops.antt`,
//!   `specs/Cuts.antt`
//! - a core with the calls of one volume and their digest: `src/journal.rt`; the same from a boot state on, and a volume that
//!   is handed out: `src/book.rt`; a call under the lock, with its receipt: `src/seat.rt`; the lock itself:
//!   `src/live_core.rt`; what is made before it: `src/ready.rt`
//! - a thread for each program: `src/threads.rt`; a whole run: `src/run.rt`; a history replayed:
//!   `kc_cli/src/history.rt`
#![tactic(auto)]

mod book;
mod cut;
mod early;
mod fault;
mod journal;
mod live_core;
mod program;
mod ready;
mod receipt;
mod run;
mod seat;
mod settling;
mod stop;
mod threads;

pub use book::{History, Volume};
pub use cut::{programs_of, run_trace};
pub use fault::LiveFault;
pub use journal::{Journal, VolumeDigest};
pub use live_core::LiveCore;
pub use program::Program;
pub use ready::Ready;
pub use receipt::{Entry, Receipt};
pub use run::run_live;
pub use seat::Seat;
pub use settling::settle;
pub use stop::{LiveCause, LiveStop};
