//! Pages in chunks.
ghost use Rattle.std.specs.Prelude.{◌≡◌, ◌++◌, map, slice_get, IfOk, IsSome, ◌↔◌, ◌<◌, length};
ghost use Rattle.std.specs.Option.{option_copied_mut, option_to_list};
ghost use Rattle.std.specs.List.{range_with_len};
ghost use Rattle.std.specs.Borrow.{sem};
ghost use Rattle.kc_page.specs.Page.{scrubbed_page};
ghost use Rattle.kc_parts.specs.Booting.{boot_page};
ghost use Rattle.kc_parts.specs.Chunks.{page_read};
ghost use Rattle.kc_parts.specs.Lending.{LendsOfList};
ghost use Rattle.kc_parts.specs.Marks.{scrubbed_if_marked};

use crate::boot::boot_chunk;
use crate::chunk::{CHUNK_SIZE, Chunk, PageRef};
use crate::marks::Marks;
use kc_page::{Page, PageBytes};
use kc_types::{Config, Memory};
use std::alloc::Global;
use std::marker::Model;
use std::mem::replace;
use std::thread::Threads;

/// Pages, seen as the list of them, in chunks of 16,384; the last may have fewer. A chunk none of whose pages was changed
/// since boot takes room, and no memory.
#[derive(Drop)]
pub(crate) struct PageList {
    chunks: Vec<Chunk>,
    /// What is lent for the bytes of a page that is not made.
    zeros: PageBytes,
}

impl Model for PageList {
    ghost use Rattle.std.specs.Prelude.{List, ◌≡◌};
    ghost use Rattle.kc_page.specs.declared.page.Page.{Page};
    ghost use Rattle.kc_parts.specs.Chunks.{all_pages, sparse_zeros, AreChunks};

    ghost Value = { List Page };

    ghost view = { λ p. all_pages p.chunks.items };

    ghost invariant = { λ p. AreChunks p.chunks.items × (p.zeros ≡ sparse_zeros) };
}

/// Zeroes the bytes of the pages of all chunks.
fn scrub_chunks(rt: &(impl Threads + Sync), chunks: &mut [Chunk])
    ensures { chunks.new ≡ map (map scrubbed_page) chunks.old }
{
    for chunk in chunks.iter_mut() {
        chunk.scrub(rt);
    }
}

/// Zeroes the bytes of the pages that VMs whose slots are marked own.
fn scrub_marked_chunks(chunks: &mut [Chunk], marks: &Marks)
    ensures { chunks.new ≡ map (map (scrubbed_if_marked marks.now)) chunks.old }
{
    for chunk in chunks.iter_mut() {
        chunk.scrub_marked(marks);
    }
}

impl PageList {
    /// Makes the pages of all frames at boot, reserved or sparse. `Memory` if there is no room for them.
    pub(crate) fn at_boot(
        alloc: Global,
        config: &Config,
        is_reserved: bool,
    ) -> Result<PageList, Memory>
        ensures { IfOk result (λ pages. pages ≡ map (boot_page is_reserved config.now) (range_with_len 0 config.now.frames)) }
    {
        let frames = config.frames();
        let mut chunks = Vec::new(alloc);
        let mut first = 0;
        while first < frames {
            let count = (frames - first).min(CHUNK_SIZE as u32);
            chunks.push(boot_chunk(alloc, config, is_reserved, first, count)?)?;
            first += count;
        }
        Ok(PageList {
            chunks,
            zeros: PageBytes::sparse(alloc),
        })
    }

    /// Puts these pages in chunks; `Memory` if memory for these runs out.
    pub(crate) fn of(alloc: Global, pages: Vec<Page>) -> Result<PageList, Memory>
        ensures { IfOk result (λ made. made ≡ pages.items) }
    {
        let mut chunks = Vec::new(alloc);
        let mut pages = pages;
        while !pages.is_empty() {
            let rest = pages.split_off(pages.len().min(CHUNK_SIZE))?;
            chunks.push(Chunk::of(alloc, replace(&mut pages, rest)))?;
        }
        Ok(PageList {
            chunks,
            zeros: PageBytes::sparse(alloc),
        })
    }

    /// A page by its place; `None` if there are fewer.
    pub(crate) fn get(&self, at: usize) -> Option<PageRef<'_>>
        ensures { page_read result ≡ slice_get self.now at }
    {
        let number = at / CHUNK_SIZE;
        if number >= self.chunks.len() {
            return None;
        }
        self.chunks[number].get(at % CHUNK_SIZE, &self.zeros)
    }

    /// Lends a page for writing; `None` if there are fewer. It takes no memory.
    pub(crate) fn get_mut(&mut self, at: usize) -> Option<&mut Page>
        ensures value { option_copied_mut result ≡ slice_get self.old at }
        ensures* writes_back { sem 𝓛 (LendsOfList self.entry at result) }
    {
        let number = at / CHUNK_SIZE;
        if number >= self.chunks.len() {
            return None;
        }
        self.chunks[number].get_mut(at % CHUNK_SIZE)
    }

    /// Takes the last page away; `None` if there is none.
    pub(crate) fn pop(&mut self) -> Option<Page>
        ensures items { self.old ≡ self.new ++ option_to_list result }
        ensures some { IsSome result ↔ (0 < length self.old) }
    {
        let mut last = self.chunks.pop()?;
        let page = last.pop();
        if !last.is_empty() {
            self.chunks.push_reserved(last);
        }
        page
    }

    /// Zeroes the bytes of all pages.
    pub(crate) fn scrub(&mut self, rt: &(impl Threads + Sync))
        ensures { self.new ≡ map scrubbed_page self.old }
    {
        scrub_chunks(rt, self.chunks.as_mut_slice());
    }

    /// Zeroes the bytes of the pages that VMs whose slots are marked own.
    pub(crate) fn scrub_marked(&mut self, marks: &Marks)
        ensures { self.new ≡ map (scrubbed_if_marked marks.now) self.old }
    {
        scrub_marked_chunks(self.chunks.as_mut_slice(), marks);
    }
}
