//! The readers and writers of std as sources and sinks.
ghost use Rattle.std.specs.Prelude.{◌≡◌, false};

use crate::{Failed, Sink, Source};
use std::io::{ErrorKind, Read, Write};

/// A reader of std as a source, or a writer as a sink, which reports what the reader or writer reports. A call that was
/// interrupted is repeated.
#[derive(Drop)]
pub struct Std<E: Drop> {
    pub inner: E,
    /// Whether a read or a write has failed.
    pub failed: bool,
    /// About how many bytes the reader had at first, 0 if that is not known.
    size: usize,
}

impl<E: Drop> Std<E> {
    /// Makes a source of a reader, or a sink of a writer.
    pub fn new(inner: E) -> Std<E>
        ensures inner { result.inner ≡ inner }
        ensures mark { result.failed ≡ false }
    {
        Std::with_size(inner, 0)
    }

    /// Makes a source of a reader of about this many bytes.
    pub fn with_size(inner: E, size: usize) -> Std<E>
        ensures inner { result.inner ≡ inner }
        ensures mark { result.failed ≡ false }
    {
        Std {
            inner,
            failed: false,
            size,
        }
    }
}

impl<R: Read + Drop> Source for Std<R> {
    ghost left = { λ s. R.remaining s.inner };

    ghost failed = { λ s. s.failed };

    fn read(&mut self, buffer: &mut [u8]) -> Result<usize, Failed> {
        for _ in 0..u64::MAX {
            match self.inner.read(buffer) {
                Ok(n) => return Ok(n),
                Err(error) => {
                    if error.kind() != ErrorKind::Interrupted {
                        break;
                    }
                }
            }
        }
        self.failed = true;
        Err(Failed)
    }

    fn size_hint(&self) -> usize {
        self.size
    }
}

impl<W: Write + Drop> Sink for Std<W> {
    ghost taken = { λ s. W.contents s.inner };

    ghost failed = { λ s. s.failed };

    fn write(&mut self, bytes: &[u8]) -> Result<usize, Failed> {
        for _ in 0..u64::MAX {
            match self.inner.write(bytes) {
                Ok(n) => {
                    if n == 0 && !bytes.is_empty() {
                        break;
                    }
                    return Ok(n);
                }
                Err(error) => {
                    if error.kind() != ErrorKind::Interrupted {
                        break;
                    }
                }
            }
        }
        self.failed = true;
        Err(Failed)
    }
}
