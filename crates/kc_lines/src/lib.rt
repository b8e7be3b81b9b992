//! What texts share: cutting off lines and words, numbers in their one spelling, bytes as lower case digits, and
//! appending bytes without growing memory.
//!
//! - how lines and words are cut, and numbers read: `specs/Lines.antt`, `specs/Words.antt`, `src/reading.rt`,
//!   `src/line_words.rt`
//! - how they are written: `src/room.rt`
#![tactic(auto)]

mod line_words;
mod reading;
mod room;

pub use line_words::LineWords;
pub use reading::{
    decode_into, read_blanked, read_data, read_digest, read_number, split_line, split_number,
    split_word,
};
pub use room::{push_bytes, push_digits, push_number};
