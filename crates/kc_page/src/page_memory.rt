//! The memory of a page.
ghost use Rattle.std.specs.Prelude.{◌≡◌, ◌+◌, ◌<◌, ◌≤◌, [], true, false, length, IfOk, IsOk, OnOk, OnErr, vec_capacity};
ghost use Rattle.kc_types.specs.Limits.{page_size};
ghost use Rattle.kc_model.specs.State.{zero_page, overwritten};
ghost use Rattle.kc_page.specs.PageBytes.{filled_from, zeroed_from};

use kc_types::{CallBuffer, Memory, PAGE_SIZE};
use std::alloc::Global;
use std::marker::Model;
use std::mem::replace;

/// The bytes of each page that was never written.
pub(crate) const ZEROS: &[u8; 4096] = &[0; 4096];

/// Memory for a page, or none, seen as its bytes, and whether it has room for a page: no bytes while it is fresh, and
/// 4,096 once it is filled. It never becomes fresh again, and it is given back by `end` alone, fresh or zero.
pub(crate) struct PageMemory {
    bytes: Vec<u8>,
}

impl Model for PageMemory {
    ghost use Rattle.std.specs.Prelude.{nat_le, vec_capacity};
    ghost use Rattle.kc_types.specs.Limits.{page_size};
    ghost use Rattle.kc_page.specs.PageBytes.{Room};

    ghost Value = { Room };

    ghost view = { λ m. record { bytes = m.bytes.items; has_room = nat_le page_size (vec_capacity m.bytes) } };
}

impl PageMemory {
    /// No memory.
    pub(crate) fn none(alloc: Global) -> PageMemory
        ensures { result ≡ record { bytes = []; has_room = false } }
    {
        PageMemory {
            bytes: Vec::new(alloc),
        }
    }

    /// Allocates fresh memory; `Memory` if memory runs out.
    pub(crate) fn fresh(alloc: Global) -> Result<PageMemory, Memory>
        // No clause can rule out that memory runs out: tests make pages.
        ensures { IfOk result (λ memory. memory ≡ record { bytes = []; has_room = true }) }
    {
        Ok(PageMemory {
            bytes: Vec::with_capacity(alloc, PAGE_SIZE as usize)?,
        })
    }

    /// Takes over memory with room for a page, as fresh memory.
    pub(crate) fn taking(room: Vec<u8>) -> PageMemory
        requires empty { room.items ≡ [] }
        requires enough { page_size ≤ vec_capacity room }
        ensures { result ≡ record { bytes = []; has_room = true } }
    {
        PageMemory { bytes: room }
    }

    /// Takes over the memory of the buffer if there is no room for a page, and then holds a page of zeros. `Memory` if the
    /// buffer is too small and memory runs out, and then nothing changes.
    pub(crate) fn make_room(&mut self, buffer: CallBuffer) -> Result<(), Memory>
        requires { self.old.has_room ≡ false → filled_from self.old.bytes ≡ zero_page }
        // No clause can rule out that memory runs out: tests write sparse pages.
        ensures same { OnOk result (filled_from self.new.bytes ≡ filled_from self.old.bytes) }
        ensures room { OnOk result (self.new.has_room ≡ true) }
        ensures err { OnErr result (self.new ≡ self.old) }
        ensures had_room { self.old.has_room ≡ true → IsOk result }
        ensures fits { page_size ≤ buffer → IsOk result }
    {
        if self.bytes.capacity() < PAGE_SIZE as usize {
            let room = PageMemory::taking(buffer.into_room()?);
            replace(self, room).end();
        }
        Ok(())
    }

    /// Gives the memory back, which is fresh or zero, and leaves none.
    pub(crate) fn give_back(&mut self)
        requires { filled_from self.old.bytes ≡ zero_page }
        ensures { self.new ≡ record { bytes = []; has_room = false } }
    {
        let none = PageMemory::none(*self.bytes.allocator());
        replace(self, none).end();
    }

    /// Fills fresh memory with zeros, and leaves other memory as it is. Takes no memory.
    pub(crate) fn fill(&mut self)
        requires { self.old.has_room ≡ true }
        ensures { self.new ≡ record self.old { bytes = filled_from self.old.bytes } }
    {
        if self.bytes.is_empty() {
            self.bytes.resize(PAGE_SIZE as usize, 0).unwrap();
        }
    }

    /// The page that it holds: zeros while it is fresh.
    pub(crate) fn as_slice(&self) -> &[u8]
        ensures { result.now ≡ filled_from self.now.bytes }
    {
        if self.bytes.is_empty() {
            ZEROS
        } else {
            self.bytes.as_slice()
        }
    }

    /// Writes these bytes from `offset` on.
    pub(crate) fn write(&mut self, offset: usize, bytes: &[u8])
        requires whole { length self.old.bytes ≡ page_size }
        requires some { 0 < length bytes.now }
        requires within { offset + length bytes.now ≤ page_size }
        ensures { self.new ≡ record self.old { bytes = overwritten self.old.bytes offset bytes.now } }
    {
        self.bytes[offset..offset + bytes.len()].copy_from_slice(bytes);
    }

    /// Zeroes the bytes from place `n` on, and keeps those before it.
    pub(crate) fn zero_from(&mut self, n: usize)
        requires whole { length self.old.bytes ≡ page_size }
        requires within { n ≤ page_size }
        ensures { self.new ≡ record self.old { bytes = zeroed_from self.old.bytes n } }
    {
        self.bytes[n..].fill(0);
    }

    /// Gives the memory back, which is fresh or zero; no other function does.
    pub(crate) fn end(self)
        requires { filled_from self.bytes ≡ zero_page }
    {
        let PageMemory { bytes: _ } = self;
    }
}
