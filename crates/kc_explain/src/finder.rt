//! A line of a text, found by its number.
use std::alloc::Global;

/// The most bytes that are kept of a line.
pub(crate) const MOST_OF_LINE: usize = 16_384;

/// Appends a beginning of some bytes, so that no more than `most` are kept. Nothing is appended if memory cannot be
/// had.
pub(crate) fn keep(text: &mut Vec<u8>, bytes: &[u8], most: usize) {
    let count = most.saturating_sub(text.len()).min(bytes.len());
    let _ = text.extend_from_slice(&bytes[..count]);
}

/// Finds a line of a text by its number, from 1, and the line before it: up to 16,384 bytes of each.
#[derive(Drop)]
pub struct LineFinder {
    wanted: u64,
    /// The number of lines that ended.
    ended: u64,
    before: Vec<u8>,
    line: Vec<u8>,
}

impl LineFinder {
    /// Makes a finder that has read nothing yet.
    pub fn new(alloc: Global, wanted: u64) -> LineFinder {
        LineFinder {
            wanted,
            ended: 0,
            before: Vec::new(alloc),
            line: Vec::new(alloc),
        }
    }

    /// Takes the next bytes of the text, and returns whether more are wanted.
    pub fn feed(&mut self, piece: &[u8]) -> bool {
        let mut is_first = true;
        for part in piece.split(|byte| *byte == b'\n') {
            if !is_first {
                self.ended = self.ended.saturating_add(1);
            }
            is_first = false;
            let number = self.ended.saturating_add(1);
            if number == self.wanted {
                keep(&mut self.line, part, MOST_OF_LINE);
            } else if number.saturating_add(1) == self.wanted {
                keep(&mut self.before, part, MOST_OF_LINE);
            }
        }
        self.ended < self.wanted
    }

    /// The line, without its newline; empty if the text ends before it.
    pub fn line(&self) -> &[u8] {
        self.line.as_slice()
    }

    /// The line before it.
    pub fn before(&self) -> &[u8] {
        self.before.as_slice()
    }
}
