//! Sources of traces whose head can be seen before they are read.
ghost use Rattle.std.specs.Prelude.{◌≡◌, ◌≤◌, ◌<◌, ◌⊎◌, [], false, true, length, drop, vec_len, IfOk, OnOk, Err};
ghost use Rattle.std.specs.Io.KnownBytes.{IsAtEnd, Keeps, prepend_known};
ghost use Rattle.kc_trace.specs.Spelling.{longest_call};
ghost use Rattle.kc_texts.specs.Headed.{IsHeadOf};

use crate::source::{Failed, Source};
use crate::whole::ReadFault;
use kc_trace::{Head, Header, LONGEST_CALL, read_header};
use std::alloc::Global;

/// A source of a trace.
pub trait Headed: Source {
    /// Returns the head that the trace begins with, if it has one. All bytes stay left. After an `Err` the source is of
    /// no use.
    fn head(&mut self, alloc: Global) -> Result<Option<Head>, ReadFault>
        requires { Self.failed self.old ≡ false }
        ensures head { IfOk result (IsHeadOf (Self.left self.new)) }
        ensures same { OnOk result (Keeps (Self.left self.old) (Self.left self.new)) }
        ensures ready { OnOk result (Self.failed self.new ≡ false) }
        ensures memory { result ≡ Err ReadFault.Memory → Self.failed self.new ≡ false }
        ensures read { result ≡ Err ReadFault.Read → Self.failed self.new ≡ true };
}

/// A source of which bytes may have been read ahead: at least as many as the longest line of a call has, since no header
/// has more, and less than twice as many.
#[derive(Drop)]
pub struct Ahead<S: Source + Drop> {
    pub inner: S,
    /// What was read ahead. The bytes from `position` on are left.
    ahead: Vec<u8>,
    position: usize,
    ghost within: { position ≤ vec_len ahead },
}

impl<S: Source + Drop> Ahead<S> {
    /// Makes a source of which nothing was read ahead.
    pub fn new(alloc: Global, inner: S) -> Ahead<S>
        ensures inner { result.inner ≡ inner }
        ensures nothing { result.ahead.items ≡ [] }
    {
        Ahead {
            inner,
            ahead: Vec::new(alloc),
            position: 0,
        }
    }

    /// Reads ahead until a whole header is there, if there is one, or the source is at its end.
    fn fill(&mut self) -> Result<(), ReadFault>
        requires { S.failed self.old.inner ≡ false }
        ensures enough { OnOk result ((longest_call ≤ length (drop self.new.position self.new.ahead.items))
            ⊎ IsAtEnd (S.left self.new.inner)) }
        ensures same { OnOk result (Keeps
            (prepend_known (drop self.old.position self.old.ahead.items) (S.left self.old.inner))
            (prepend_known (drop self.new.position self.new.ahead.items) (S.left self.new.inner))) }
        ensures ready { OnOk result (S.failed self.new.inner ≡ false) }
        ensures memory { result ≡ Err ReadFault.Memory → S.failed self.new.inner ≡ false }
        ensures read { result ≡ Err ReadFault.Read → S.failed self.new.inner ≡ true }
    {
        let mut buffer = [0u8; LONGEST_CALL];
        while self.ahead.len() - self.position < LONGEST_CALL {
            let Ok(n) = self.inner.read(&mut buffer) else {
                return Err(ReadFault::Read);
            };
            if n == 0 {
                return Ok(());
            }
            if self.ahead.extend_from_slice(&buffer[..n]).is_err() {
                return Err(ReadFault::Memory);
            }
        }
        Ok(())
    }
}

impl<S: Source + Drop> Source for Ahead<S> {
    ghost left = { λ source. prepend_known (drop source.position source.ahead.items) (S.left source.inner) };

    ghost failed = { λ source. S.failed source.inner };

    fn read(&mut self, buffer: &mut [u8]) -> Result<usize, Failed> {
        if self.position == self.ahead.len() {
            return self.inner.read(buffer);
        }
        let (_, rest) = self.ahead.as_slice().split_at(self.position);
        let n = rest.len().min(buffer.len());
        let (front, _) = rest.split_at(n);
        buffer[..n].copy_from_slice(front);
        self.position += n;
        Ok(n)
    }

    fn size_hint(&self) -> usize {
        (self.ahead.len() - self.position).saturating_add(self.inner.size_hint())
    }
}

impl<S: Source + Drop> Headed for Ahead<S> {
    fn head(&mut self, alloc: Global) -> Result<Option<Head>, ReadFault> {
        self.fill()?;
        let (_, rest) = self.ahead.as_slice().split_at(self.position);
        match read_header(alloc, rest) {
            Ok(Some((Header::Three(head), _))) => Ok(Some(head)),
            Ok(Some((Header::One | Header::Two, _))) => Ok(None),
            Ok(None) => Ok(None),
            Err(_) => Err(ReadFault::Memory),
        }
    }
}
