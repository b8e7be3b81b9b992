//! Memory that may hold secrets, until it is given back.
ghost use Rattle.std.specs.Prelude.{◌≡◌, ◌-◌, ◌≤◌, ◌++◌, All, length, take, drop, replicate, IfOk, vec_capacity};
ghost use Rattle.std.specs.Borrow.{sem};
ghost use Rattle.kc_types.specs.Secret.{LendsMemory};

use crate::Memory;
use std::alloc::Global;
use std::marker::Model;

/// Memory that was filled, and may hold secrets. It never grows, so that it is never moved, it gets shorter only by
/// zeros, and it is given back by `end` alone, once it is zero.
#[derive(Debug)]
pub(crate) struct Filled {
    bytes: Vec<u8>,
}

impl Model for Filled {
    ghost use Rattle.std.specs.Prelude.{ℕ, List};

    ghost Value = { List ℕ };

    ghost view = { λ f. f.bytes.items };
}

/// Zeroes these bytes where they are: their memory is not exchanged for more.
fn zero_all(bytes: &mut Vec<u8>)
    ensures zero { bytes.new.items ≡ replicate (length bytes.old.items) 0 }
    ensures same { vec_capacity bytes.new ≡ vec_capacity bytes.old }
{
    bytes.fill(0);
}

impl Filled {
    /// Makes memory of `len` bytes, which begin with these and are zero after them; `Memory` if memory runs out.
    pub(crate) fn holding(alloc: Global, bytes: &[u8], len: usize) -> Result<Filled, Memory>
        requires { length bytes.now ≤ len }
        // No clause can rule out that memory runs out: tests read texts.
        ensures { IfOk result (λ made. made ≡ bytes.now ++ replicate (len - length bytes.now) 0) }
    {
        let mut filled = Vec::with_capacity(alloc, len)?;
        filled.resize(bytes.len(), 0).unwrap();
        filled.copy_from_slice(bytes);
        filled.resize(len, 0).unwrap();
        Ok(Filled { bytes: filled })
    }

    /// Makes equal memory; `Memory` if memory runs out.
    pub(crate) fn copy(&self) -> Result<Filled, Memory>
        // No clause can rule out that memory runs out: a test makes a copy.
        ensures { IfOk result (λ made. made ≡ self.now) }
    {
        Ok(Filled {
            bytes: self.bytes.clone()?,
        })
    }

    /// Takes over the memory of these bytes, and fills the rest of it with zeros.
    pub(crate) fn taking(bytes: Vec<u8>) -> Filled
        ensures items { result ≡ bytes.items ++ replicate (length result - length bytes.items) 0 }
        ensures whole { vec_capacity bytes ≤ length result }
    {
        let mut bytes = bytes;
        let room = bytes.capacity();
        bytes.resize(room, 0).unwrap();
        Filled { bytes }
    }

    /// The bytes.
    pub(crate) fn as_slice(&self) -> &[u8]
        ensures { result.now ≡ self.now }
    {
        self.bytes.as_slice()
    }

    /// Lends the bytes, to be changed.
    pub(crate) fn as_mut_slice(&mut self) -> &mut [u8]
        ensures* writes_back { sem 𝓛 (LendsMemory self.entry result) }
        ensures value { result.now ≡ self.old }
    {
        self.bytes.as_mut_slice()
    }

    /// Keeps the first `len` bytes; those after them are zero.
    pub(crate) fn cut(&mut self, len: usize)
        requires { All (λ b. b ≡ 0) (drop len self.old) }
        ensures { self.new ≡ take len self.old }
    {
        self.bytes.truncate(len);
    }

    /// Zeroes all bytes.
    pub(crate) fn zero(&mut self)
        ensures { self.new ≡ replicate (length self.old) 0 }
    {
        zero_all(&mut self.bytes);
    }

    /// Gives the memory back, which is zero; no other function does.
    pub(crate) fn end(self)
        requires { All (λ b. b ≡ 0) self }
    {
        let Filled { bytes: _ } = self;
    }
}
