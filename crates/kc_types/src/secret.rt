//! Bytes whose memory is zeroed before it is freed.
ghost use Rattle.std.specs.Prelude.{◌≡◌, ℕ, ◌-◌, ◌≤◌, ◌++◌, length, take, replicate, IfOk};
ghost use Rattle.std.specs.Borrow.{sem};
ghost use Rattle.kc_types.specs.Secret.{LendsBytes};

use crate::Memory;
use crate::filled::Filled;
use std::alloc::Global;
use std::marker::Model;

/// Bytes that must not be found in memory later, seen as a list. All their memory is zeroed before it is freed,
/// whoever frees it. They never grow in place: more room is new memory, and the old memory is zeroed and freed.
#[derive(Debug)]
pub struct SecretBytes {
    memory: Filled,
}

impl Model for SecretBytes {
    ghost use Rattle.std.specs.Prelude.{ℕ, List};

    ghost Value = { List ℕ };

    ghost view = { λ s. s.memory };
}

impl Drop for SecretBytes {
    fn drop(self) {
        let SecretBytes { mut memory } = self;
        memory.zero();
        memory.end();
    }
}

impl SecretBytes {
    /// Takes over these bytes, and zeroes the memory that they do not use.
    pub fn new(bytes: Vec<u8>) -> SecretBytes
        ensures { result ≡ bytes.items }
    {
        let len = bytes.len();
        let mut memory = Filled::taking(bytes);
        memory.cut(len);
        SecretBytes { memory }
    }

    /// The bytes.
    pub fn as_slice(&self) -> &[u8]
        ensures { result.now ≡ self.now }
    {
        self.memory.as_slice()
    }

    /// Lends the bytes, to be changed.
    pub fn as_mut_slice(&mut self) -> &mut [u8]
        ensures* writes_back { sem 𝓛 (LendsBytes self.entry result) }
        ensures value { result.now ≡ self.old }
    {
        self.memory.as_mut_slice()
    }

    /// Makes an equal value; `Memory` if memory runs out.
    pub fn copy(&self) -> Result<SecretBytes, Memory>
        // No clause can rule out that memory runs out: a test makes a copy.
        ensures { IfOk result (λ made. made ≡ self.now) }
    {
        Ok(SecretBytes {
            memory: self.memory.copy()?,
        })
    }

    /// Makes a longer value in new memory: the same bytes and then zeros, `len` in all; `Memory` if memory runs out.
    pub fn longer(&self, alloc: Global, len: usize) -> Result<SecretBytes, Memory>
        requires { length self.now ≤ len }
        // No clause can rule out that memory runs out: tests read texts.
        ensures { IfOk result (λ made. made ≡ self.now ++ replicate (len - length self.now) 0) }
    {
        Ok(SecretBytes {
            memory: Filled::holding(alloc, self.as_slice(), len)?,
        })
    }

    /// Keeps the first `len` bytes, or all if there are fewer; zeroes the others.
    pub fn truncate(&mut self, len: usize)
        ensures { self.new ≡ take len self.old }
    {
        let len = len.min(self.as_slice().len());
        self.memory.as_mut_slice()[len..].fill(0);
        self.memory.cut(len);
    }
}
