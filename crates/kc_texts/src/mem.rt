//! Sources and sinks in memory.
ghost use Rattle.std.specs.Prelude.{◌≡◌, ◌≤◌, [], drop, length, Some, false, IfOk, IsOk, is_err};
ghost use Rattle.std.specs.Io.KnownBytes.{ReadConsumes};

use crate::{Failed, Sink, Source};
use std::alloc::Global;

/// Bytes in memory. As a source, those from `position` on are left; as a sink, it appends.
#[derive(Debug, Drop)]
pub struct Mem {
    pub bytes: Vec<u8>,
    pub position: usize,
    /// Whether a write was refused since memory ran out.
    pub failed: bool,
}

impl Mem {
    /// Makes a `Mem` without bytes.
    pub fn new(alloc: Global) -> Mem
        ensures bytes { result.bytes.items ≡ [] }
        ensures start { result.position ≡ 0 }
        ensures mark { result.failed ≡ false }
    {
        Mem::with_bytes(Vec::new(alloc))
    }

    /// Makes a `Mem` of these bytes, all of which are left.
    pub fn with_bytes(bytes: Vec<u8>) -> Mem
        ensures bytes { result.bytes.items ≡ bytes.items }
        ensures start { result.position ≡ 0 }
        ensures mark { result.failed ≡ false }
    {
        Mem {
            bytes,
            position: 0,
            failed: false,
        }
    }
}

impl Source for Mem {
    ghost left = { λ m. Some (drop m.position m.bytes.items) };

    ghost failed = { λ m. m.failed };

    fn read(&mut self, buffer: &mut [u8]) -> Result<usize, Failed>
        requires { self.old.failed ≡ false }
        ensures bytes { ReadConsumes (Some (drop self.old.position self.old.bytes.items))
            (Some (drop self.new.position self.new.bytes.items)) result buffer.new }
        ensures bound { IfOk result (λ n. n ≤ length buffer.new) }
        ensures mark { self.new.failed ≡ is_err result }
        // Bytes in memory can always be read.
        ensures steady { IsOk result }
    {
        if self.position >= self.bytes.len() {
            return Ok(0);
        }
        let (_, rest) = self.bytes.as_slice().split_at(self.position);
        let n = rest.len().min(buffer.len());
        let (front, _) = rest.split_at(n);
        buffer[..n].copy_from_slice(front);
        self.position += n;
        Ok(n)
    }

    fn size_hint(&self) -> usize {
        self.bytes.len().saturating_sub(self.position)
    }
}

impl Sink for Mem {
    ghost taken = { λ m. Some m.bytes.items };

    ghost failed = { λ m. m.failed };

    fn write(&mut self, bytes: &[u8]) -> Result<usize, Failed> {
        if self.bytes.extend_from_slice(bytes).is_err() {
            self.failed = true;
            return Err(Failed);
        }
        Ok(bytes.len())
    }
}
