//! Configurations as text: a JSON object of the sizes of a core and the digests that are approved.
//!
//! - what a text spells, and when it is refused: `specs/ConfigText.antt`; how it is read: `src/config_text.rt`
//! - what is kept of the text meanwhile: `src/config_value.rt`, `specs/ConfigValue.antt`
//! - why a text is refused, and what the program says of that: `src/config_text.rt`, `specs/Faults.antt`
#![tactic(auto)]

mod config_text;
mod config_value;

pub use config_text::{ConfigTextFault, read_config};
