//! Parts of the core: frames, VM slots and the free list, as far as one holder has them.
//!
//! - how parts of a core are a state: `specs/Parts.antt`, `specs/States.antt`; those at boot: `src/boot.rt`
//! - pages in chunks, which are made when one of them is first changed: `specs/Chunks.antt`, `src/page_list.rt`,
//!   `src/chunk.rt`; the records of frames at boot: `src/layout.rt`
//! - numbers and flags that are not in memory as long as no page is taken out: `src/frame_numbers.rt`, `src/flags.rt`
//! - the pages of VMs whose slots are marked, zeroed: `src/marks.rt`
//! - how parts are taken out and put back: `specs/Cuts.antt`, `src/parts.rt`
//! - what is left in the place of a page that is taken out: `specs/Parts.antt`, `blank_page`; `src/blank.rt`
//! - when parts are a state's, with its links and ends: `specs/Restricted.antt`
//! - what calls look up by number: `src/look_ups.rt`
//! - the lists, linked through the records: `src/lists.rt`; a slot that is emptied: `src/emptying.rt`
#![tactic(auto)]

mod blank;
mod boot;
mod chunk;
mod emptying;
mod flags;
mod frame_numbers;
mod layout;
mod links;
mod lists;
mod look_ups;
mod marks;
mod page_list;
mod parts;
mod place;
mod place_counts;
mod slots;
mod wanted;

pub use chunk::PageRef;
pub use marks::Marks;
pub use parts::Parts;
pub use place_counts::PlaceCounts;
pub use wanted::sort_once;
