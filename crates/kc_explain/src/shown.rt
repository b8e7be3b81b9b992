//! The ends of a run on a terminal: a source that shows how much of it was read, one that says what it waits for, and a
//! sink that erases the line of progress first.
ghost use Rattle.std.specs.Prelude.{◌≡◌};

use crate::progress::Progress;
use kc_texts::{Failed, Sink, Source};
use std::io::Eprint;
use std::mem::take;
use std::time::Clock;

/// A source, and the line that shows how much of it was read, if it is shown.
#[derive(Drop)]
pub struct Shown<'a, S: Source + Drop, P: Eprint + Clock> {
    pub inner: S,
    progress: Option<&'a Progress<'a, P>>,
    read: u64,
}

impl<'a, S: Source + Drop, P: Eprint + Clock> Shown<'a, S, P> {
    /// Makes a source of which nothing was read.
    pub fn new(inner: S, progress: Option<&'a Progress<'a, P>>) -> Shown<'a, S, P>
        ensures { result.inner ≡ inner }
    {
        Shown {
            inner,
            progress,
            read: 0,
        }
    }
}

impl<'a, S: Source + Drop, P: Eprint + Clock> Source for Shown<'a, S, P> {
    ghost left = { λ s. S.left s.inner };

    ghost failed = { λ s. S.failed s.inner };

    fn read(&mut self, buffer: &mut [u8]) -> Result<usize, Failed> {
        let count = self.inner.read(buffer)?;
        self.read = self.read.saturating_add(count as u64);
        if let Some(progress) = self.progress {
            progress.show(self.read);
        }
        Ok(count)
    }

    fn size_hint(&self) -> usize {
        self.inner.size_hint()
    }
}

/// A source that says what it waits for before it is first read, if that is to be said.
#[derive(Drop)]
pub struct Awaited<'a, S: Source + Drop, P: Eprint> {
    pub inner: S,
    to: &'a P,
    what: Option<&'static str>,
}

impl<'a, S: Source + Drop, P: Eprint> Awaited<'a, S, P> {
    /// Makes a source of which nothing was read.
    pub fn new(inner: S, to: &'a P, what: Option<&'static str>) -> Awaited<'a, S, P>
        ensures { result.inner ≡ inner }
    {
        Awaited { inner, to, what }
    }
}

impl<'a, S: Source + Drop, P: Eprint> Source for Awaited<'a, S, P> {
    ghost left = { λ s. S.left s.inner };

    ghost failed = { λ s. S.failed s.inner };

    fn read(&mut self, buffer: &mut [u8]) -> Result<usize, Failed> {
        if let Some(what) = take(&mut self.what) {
            let _ = eprintln!(self.to; "kcore: reading a {what}; Ctrl-D ends it");
        }
        self.inner.read(buffer)
    }

    fn size_hint(&self) -> usize {
        self.inner.size_hint()
    }
}

/// A sink that erases the line of progress before it writes.
#[derive(Drop)]
pub struct Erasing<'a, K: Sink + Drop, P: Eprint + Clock> {
    pub inner: K,
    progress: &'a Progress<'a, P>,
}

impl<'a, K: Sink + Drop, P: Eprint + Clock> Erasing<'a, K, P> {
    /// Makes a sink to which nothing was written.
    pub fn new(inner: K, progress: &'a Progress<'a, P>) -> Erasing<'a, K, P>
        ensures { result.inner ≡ inner }
    {
        Erasing { inner, progress }
    }
}

impl<'a, K: Sink + Drop, P: Eprint + Clock> Sink for Erasing<'a, K, P> {
    ghost taken = { λ s. K.taken s.inner };

    ghost failed = { λ s. K.failed s.inner };

    fn write(&mut self, bytes: &[u8]) -> Result<usize, Failed> {
        self.progress.erase();
        self.inner.write(bytes)
    }
}
