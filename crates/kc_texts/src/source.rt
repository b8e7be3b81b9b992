//! What bytes come from and go to.
ghost use Rattle.std.specs.Prelude.{◌≡◌, ◌<◌, ◌≤◌, Bool, false, List, ℕ, length, Option, IfOk, is_err};
ghost use Rattle.std.specs.Io.KnownBytes.{ReadConsumes, WriteAppends};

use thiserror::Error;

/// The number of bytes of text that are read or written at once.
pub const PIECE: usize = 65_536;

/// A read or a write failed.
#[derive(Clone, Copy, Debug, PartialEq, Eq, Error)]
#[error("a read or a write failed")]
pub struct Failed;

/// What bytes come from. After the first `Failed` it is not read again.
pub trait Source {
    /// The bytes that are left, if the source reports them.
    ghost left: { Self → Option (List ℕ) };

    /// Whether a read has failed.
    ghost failed: { Self → Bool };

    /// Moves bytes to the front of the buffer and returns their number, 0 only at the end or if the buffer is empty. An
    /// `Err` moves none.
    fn read(&mut self, buffer: &mut [u8]) -> Result<usize, Failed>
        requires { failed self.old ≡ false }
        ensures bytes { ReadConsumes (left self.old) (left self.new) result buffer.new }
        ensures bound { IfOk result (λ n. n ≤ length buffer.new) }
        ensures mark { failed self.new ≡ is_err result };

    /// About how many bytes are left, so that room for them can be made at once; 0 if that is not known. No promise
    /// depends on it.
    fn size_hint(&self) -> usize;
}

/// What bytes go to. After the first `Failed` it is not written again.
pub trait Sink {
    /// The bytes that it has taken, if the sink reports them.
    ghost taken: { Self → Option (List ℕ) };

    /// Whether a write has failed.
    ghost failed: { Self → Bool };

    /// Takes a beginning of the bytes and returns its length, 0 only if there are none. An `Err` takes none.
    fn write(&mut self, bytes: &[u8]) -> Result<usize, Failed>
        requires { failed self.old ≡ false }
        ensures bytes { WriteAppends (taken self.old) (taken self.new) result bytes.now }
        ensures bound { IfOk result (λ n. n ≤ length bytes.now) }
        ensures some { IfOk result (λ n. 0 < length bytes.now → 0 < n) }
        ensures mark { failed self.new ≡ is_err result };
}
