//! Pages of 4,096 bytes: their records and their bytes.
//!
//! - the memory of a page, fresh or filled, and its one end: `src/page_memory.rt`
//! - what a page holds, and who zeroes it: `src/page.rt` has `scrub` and `zero_from`, and a page's `Drop`
//!   zeroes it too. They are called in `kc_core/src/host.rt` (`give`), `kc_core/src/freeing.rt` and
//!   `kc_core/src/verify.rt`, in `kc_parts/src/emptying.rt` (a cleared slot), and by `KCore::wipe`
#![tactic(auto)]

mod page;
mod page_memory;

pub use page::{Page, PageBytes, PageRecord, scrub_all, scrub_each};
