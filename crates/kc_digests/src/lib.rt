//! SHA-256 (FIPS 180-4) of several messages at once: the digests of pages, with several threads, and of four messages
//! of one length.
//!
//! - how many pages are hashed at once: `src/pages.rt`, chosen in `kcore/src/main.rt`
//! - a lane for each message: `specs/Lanes.antt`, `src/compress.rt`, `src/measure.rt`
#![tactic(auto)]

mod bytes;
mod compress;
mod constants;
mod measure;
mod pages;
mod state;
mod vector;
mod words;

pub use measure::MeasureFour;
pub use pages::{Lanes, bytes_digests, frame_digests, zero_digest};
