//! What comes after the lines: the script, which reads them and draws.
use crate::answering::ANSWERING;
use crate::controls::CONTROLS;
use crate::drawing::DRAWING;
use crate::reading::READING;
use crate::tables::TABLES;
use crate::viewing::VIEWING;

/// What comes after the lines, in the parts of the script.
pub const TAIL: [&str; 6] = [READING, ANSWERING, DRAWING, VIEWING, TABLES, CONTROLS];
