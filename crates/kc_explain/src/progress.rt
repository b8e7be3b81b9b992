//! The line that shows how much was read.
use std::cell::Cell;
use std::io::Eprint;
use std::time::{Clock, Instant};

/// The line is shown anew after each further 16 MB.
const STEP: u64 = 16_000_000;

/// If there is no clock, the line is not shown before this many bytes.
const FIRST: u64 = 64_000_000;

/// A line on a terminal that shows how much was read. It overwrites itself, and is erased before anything else is
/// written.
#[derive(Drop)]
pub struct Progress<'a, P: Eprint + Clock> {
    to: &'a P,
    start: Option<Instant>,
    /// The number of bytes that it showed last, 0 if there is no line.
    shown: Cell<u64>,
}

impl<'a, P: Eprint + Clock> Progress<'a, P> {
    /// Makes a `Progress` without a line.
    pub fn new(to: &'a P) -> Progress<'a, P> {
        Progress {
            to,
            start: Instant::now(to).ok(),
            shown: Cell::new(0),
        }
    }

    /// Whether this many bytes are worth a line: not in the first second.
    fn is_due(&self, read: u64) -> bool {
        if read.saturating_sub(self.shown.get()) < STEP {
            return false;
        }
        match self.start {
            Some(start) => match Instant::now(self.to) {
                Ok(now) => now.duration_since(start).as_secs() >= 1,
                Err(_) => read >= FIRST,
            },
            None => read >= FIRST,
        }
    }

    /// Shows that this many bytes were read, if that is due.
    pub(crate) fn show(&self, read: u64) {
        if self.is_due(read) {
            self.shown.set(read);
            let megabytes = read / 1_000_000;
            let _ = eprint!(self.to; "\rkcore: {megabytes} MB read");
        }
    }

    /// Erases the line, if there is one.
    pub fn erase(&self) {
        if self.shown.get() > 0 {
            self.shown.set(0);
            let _ = self.to.eprint("\r                               \r");
        }
    }
}
