//! The bytes of a page, the page, and many of them.
ghost use Rattle.std.specs.Prelude.{◌≡◌, ℕ, ◌+◌, ◌<◌, ◌≤◌, ◌↔◌, List, length, map, replicate, slice_range, true, false, IsTrue, IfOk, IsOk, OnOk, OnErr};
ghost use Rattle.kc_types.specs.Limits.{page_size};
ghost use Rattle.kc_model.specs.State.{zero_page, overwritten};
ghost use Rattle.kc_page.specs.Page.{scrubbed_page};
ghost use Rattle.kc_page.specs.PageBytes.{zeroed, zeroed_from};

use crate::page_memory::{PageMemory, ZEROS};
use kc_types::{CallBuffer, Data, MaybeFrame, MaybeGfn, Memory, OwnerCode};
use rayon::prelude::par_chunks_mut_for_each;
use std::alloc::Global;
use std::marker::Model;
use std::thread::Threads;

/// The 4,096 bytes of a page, reserved or sparse. They lie on the heap, so that a page moves as a few words.
///
/// A reserved page always has memory. A sparse one has none while its bytes are zero: it takes the buffer of the call that
/// first writes others, and gives it back when it is scrubbed. Until the first write the memory is fresh and the page counts
/// as zero, so a page that is never written is never zeroed; nor is one that is known to be zero. Bytes that were written are
/// zeroed before their memory is given back, even if the page is dropped.
pub struct PageBytes {
    memory: PageMemory,
    is_zero: bool,
    is_reserved: bool,
}

impl Model for PageBytes {
    ghost use Rattle.kc_page.specs.PageBytes.{Content, filled_from, IsHeld};

    ghost Value = { Content };

    ghost view = { λ p. record { bytes = filled_from p.memory.bytes; is_reserved = p.is_reserved } };

    ghost invariant = { λ p. IsHeld p.is_zero p.is_reserved p.memory };
}

/// Whether all bytes, at most a page of them, are zero.
fn are_zero(bytes: &[u8]) -> bool
    requires { length bytes.now ≤ page_size }
    ensures { IsTrue result ↔ (bytes.now ≡ replicate (length bytes.now) 0) }
{
    bytes == &ZEROS[..bytes.len()]
}

impl Drop for PageBytes {
    fn drop(self) {
        let mut page = self;
        page.scrub();
        page.let_go();
    }
}

impl PageBytes {
    /// Frees a page whose bytes are zero; no other function frees one.
    fn let_go(self)
        requires { self.bytes ≡ zero_page }
    {
        let PageBytes {
            memory,
            is_zero: _,
            is_reserved: _,
        } = self;
        memory.end();
    }

    /// Makes a reserved page of zero bytes; `Memory` if memory runs out.
    pub fn reserved(alloc: Global) -> Result<PageBytes, Memory>
        // No clause can rule out that memory runs out: tests make pages.
        ensures { IfOk result (λ page. page ≡ record { bytes = zero_page; is_reserved = true }) }
    {
        Ok(PageBytes {
            memory: PageMemory::fresh(alloc)?,
            is_zero: true,
            is_reserved: true,
        })
    }

    /// Makes a sparse page of zero bytes, which takes no memory.
    pub fn sparse(alloc: Global) -> PageBytes
        ensures { result ≡ record { bytes = zero_page; is_reserved = false } }
    {
        PageBytes {
            memory: PageMemory::none(alloc),
            is_zero: true,
            is_reserved: false,
        }
    }

    /// All bytes.
    pub fn as_slice(&self) -> &[u8]
        ensures value { result.now ≡ self.now.bytes }
        ensures whole { length self.now.bytes ≡ page_size }
    {
        self.memory.as_slice()
    }

    /// Whether all bytes are known to be zero. If zeros were written, they are not known to be.
    pub fn is_known_zero(&self) -> bool
        ensures { result ≡ true → self.now.bytes ≡ zero_page }
    {
        self.is_zero
    }

    /// Whether all bytes are zero; they are not read if that is known.
    pub fn is_zero(&self) -> bool
        ensures { IsTrue result ↔ (self.now.bytes ≡ zero_page) }
    {
        self.is_known_zero() || are_zero(self.as_slice())
    }

    /// Copies `len` bytes from `offset` on into a buffer made before, which takes no memory.
    pub fn read(&self, offset: usize, len: usize, buffer: CallBuffer) -> Data
        requires some { 0 < len }
        requires within { offset + len ≤ page_size }
        requires fits { len ≤ buffer }
        ensures { result ≡ slice_range self.now.bytes offset (offset + len) }
    {
        buffer.filled(&self.as_slice()[offset..offset + len])
    }

    /// Writes these bytes from `offset` on. A page that is known to be zero stays so if they are zeros. A sparse page that has
    /// no memory takes that of the buffer: `Memory` if it is too small and memory runs out, and then nothing changes.
    pub fn write(&mut self, offset: usize, bytes: &[u8], buffer: CallBuffer) -> Result<(), Memory>
        requires some { 0 < length bytes.now }
        requires within { offset + length bytes.now ≤ page_size }
        // No clause can rule out that memory runs out: tests write sparse pages.
        ensures ok { OnOk result (self.new ≡ record self.old { bytes = overwritten self.old.bytes offset bytes.now }) }
        ensures err { OnErr result (self.new ≡ self.old) }
        ensures reserved { self.old.is_reserved ≡ true → IsOk result }
        ensures fits { page_size ≤ buffer → IsOk result }
    {
        if self.is_zero && are_zero(bytes) {
            return Ok(());
        }
        self.memory.make_room(buffer)?;
        self.memory.fill();
        self.is_zero = false;
        self.memory.write(offset, bytes);
        Ok(())
    }

    /// Zeroes all bytes. A sparse page gives their memory back.
    pub fn scrub(&mut self)
        ensures { self.new ≡ zeroed self.old }
    {
        if self.is_zero {
            return;
        }
        self.memory.zero_from(0);
        self.is_zero = true;
        if !self.is_reserved {
            self.memory.give_back();
        }
    }

    /// Zeroes the bytes from place `n` on, and keeps those before it.
    pub fn zero_from(&mut self, n: usize)
        requires { n ≤ page_size }
        ensures { self.new ≡ record self.old { bytes = zeroed_from self.old.bytes n } }
    {
        if !self.is_zero {
            self.memory.zero_from(n);
        }
    }
}

/// What the core records of a frame besides its bytes, in 16 bytes.
#[derive(Clone, Copy, Debug, PartialEq, Eq)]
pub struct PageRecord {
    pub owner: OwnerCode,
    /// How often its VM has granted the host access, 0 to 100.
    pub share: u8,
    /// Whether the host's access is mapped.
    pub present: bool,
    /// The guest frame at which its VM sees it.
    pub gfn: MaybeGfn,
    /// The frame before it in the list of its owner.
    pub prev: MaybeFrame,
    /// The frame after it in the list of its owner.
    pub next: MaybeFrame,
}

const _: () = prove!(size_of::<PageRecord>() == 16);

/// A page: the record of a frame, and its bytes.
#[derive(Drop)]
pub struct Page {
    pub meta: PageRecord,
    pub bytes: PageBytes,
}

/// Zeroes the bytes of all pages, and keeps their records.
pub fn scrub_each(pages: &mut [Page])
    ensures { pages.new ≡ map scrubbed_page pages.old }
{
    for page in pages.iter_mut() {
        page.bytes.scrub();
    }
}

/// The pages of a chunk: about 100 microseconds of work for a thread.
const PAGES_A_CHUNK: usize = 256;

/// From this many pages to zero on, several threads are worth starting.
const MANY_PAGES: usize = 2_048;

/// The number of pages that are not known to be zero.
fn to_scrub(pages: &[Page]) -> usize {
    pages
        .iter()
        .filter(|page| !page.bytes.is_known_zero())
        .count()
}

/// Zeroes the bytes of all pages, and keeps their records; with several threads if 2,048 pages or more are not known
/// to be zero. It cannot fail: if no thread can be started, this one does everything.
pub fn scrub_all(rt: &(impl Threads + Sync), pages: &mut [Page])
    ensures { pages.new ≡ map scrubbed_page pages.old }
{
    if to_scrub(pages) < MANY_PAGES {
        return scrub_each(pages);
    }
    par_chunks_mut_for_each(
        rt,
        pages,
        PAGES_A_CHUNK,
        |_start: usize, chunk: &mut [Page]|
            ensures { chunk.exit.now ≡ map scrubbed_page chunk.entry.now }
        { scrub_each(chunk) },
    );
}
