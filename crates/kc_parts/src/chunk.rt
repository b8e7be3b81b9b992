//! A chunk of pages, which are made when one of them is first changed.
ghost use Rattle.std.specs.Prelude.{◌≡◌, ◌↔◌, ◌+◌, ◌≤◌, ◌++◌, [], length, map, slice_get, vec_capacity, IfOk, IsTrue, IsSome, ◌<◌};
ghost use Rattle.std.specs.Option.{option_copied_mut, option_to_list};
ghost use Rattle.std.specs.Borrow.{sem};
ghost use Rattle.kc_types.specs.Limits.{frame_limit};
ghost use Rattle.kc_page.specs.Page.{scrubbed_page};
ghost use Rattle.kc_parts.specs.Chunks.{pages_at_boot, pages_of, sparse_zeros, chunk_size, page_read, IsChunk};
ghost use Rattle.kc_parts.specs.Lending.{LendsOfChunk};
ghost use Rattle.kc_parts.specs.Marks.{scrubbed_if_marked};

use crate::layout::Layout;
use crate::marks::{Marks, scrub_each_marked};
use kc_page::{Page, PageBytes, PageRecord, scrub_all};
use kc_types::Memory;
use std::alloc::Global;
use std::marker::Model;
use std::thread::Threads;

/// The most pages of a chunk.
pub(crate) const CHUNK_SIZE: usize = 16_384;

/// A page that is lent for reading.
#[derive(Clone, Copy)]
pub struct PageRef<'a> {
    pub meta: PageRecord,
    pub bytes: &'a PageBytes,
}

/// Up to 16,384 pages, seen as the list of them, whether they are made or not. Those that are not made are as at boot, and
/// sparse. The room for them is taken at the start, so that making them takes no memory; the system gives memory for it
/// when they are made.
#[derive(Drop)]
pub(crate) struct Chunk {
    alloc: Global,
    layout: Layout,
    first: u32,
    count: u32,
    pages: Vec<Page>,
}

impl Model for Chunk {
    ghost use Rattle.std.specs.Prelude.{List, vec_capacity};
    ghost use Rattle.kc_page.specs.declared.page.Page.{Page};
    ghost use Rattle.kc_parts.specs.Chunks.{pages_of, IsChunk};

    ghost Value = { List Page };

    ghost view = { λ c. pages_of c.layout c.first c.count c.pages.items };

    ghost invariant = { λ c. IsChunk c.layout c.first c.count c.pages.items (vec_capacity c.pages) };
}

/// Makes the pages of this many frames from this one on, as they are at boot. It takes no memory.
fn push_pages(alloc: Global, pages: &mut Vec<Page>, layout: Layout, first: u32, count: u32)
    requires few { layout.frames ≤ frame_limit }
    requires within { first + count ≤ layout.frames }
    requires nothing { pages.old.items ≡ [] }
    requires room { count ≤ vec_capacity pages.old }
    ensures items { pages.new.items ≡ pages_at_boot layout first count }
    ensures capacity { vec_capacity pages.new ≡ vec_capacity pages.old }
{
    for i in 0..count {
        pages.push_reserved(Page {
            meta: layout.record(first + i),
            bytes: PageBytes::sparse(alloc),
        });
    }
}

/// Makes the pages of a chunk, if they are not made. What is seen of it stays.
fn make(alloc: Global, pages: &mut Vec<Page>, layout: Layout, first: u32, count: u32)
    requires { IsChunk layout first count pages.old.items (vec_capacity pages.old) }
    ensures items { pages.new.items ≡ pages_of layout first count pages.old.items }
    ensures capacity { vec_capacity pages.new ≡ vec_capacity pages.old }
{
    if pages.is_empty() {
        push_pages(alloc, pages, layout, first, count);
    }
}

impl Chunk {
    /// Makes the chunk of this many frames from this one on, as they are at boot; `Memory` if there is no room for their
    /// pages.
    pub(crate) fn at_boot(
        alloc: Global,
        layout: Layout,
        first: u32,
        count: u32,
    ) -> Result<Chunk, Memory>
        requires few { layout.frames ≤ frame_limit }
        requires within { first + count ≤ layout.frames }
        requires small { count ≤ chunk_size }
        ensures { IfOk result (λ chunk. chunk ≡ pages_at_boot layout first count) }
    {
        Ok(Chunk {
            alloc,
            layout,
            first,
            count,
            pages: Vec::with_capacity(alloc, count as usize)?,
        })
    }

    /// Makes a chunk of these pages.
    pub(crate) fn of(alloc: Global, pages: Vec<Page>) -> Chunk
        requires { length pages.items ≤ chunk_size }
        ensures { result ≡ pages.items }
    {
        let count = pages.len() as u32;
        let layout = Layout {
            frames: count,
            host: 0,
            free: 0,
        };
        Chunk {
            alloc,
            layout,
            first: 0,
            count,
            pages,
        }
    }

    /// Whether the chunk has no page.
    pub(crate) fn is_empty(&self) -> bool
        ensures { IsTrue result ↔ (self.now ≡ []) }
    {
        self.count == 0
    }

    /// A page; `None` if the chunk is shorter. Zeros are lent for the bytes of one that is not made.
    pub(crate) fn get<'a>(&'a self, at: usize, zeros: &'a PageBytes) -> Option<PageRef<'a>>
        requires { zeros.now ≡ sparse_zeros }
        ensures { page_read result ≡ slice_get self.now at }
    {
        if at >= self.count as usize {
            return None;
        }
        if self.pages.is_empty() {
            return Some(PageRef {
                meta: self.layout.record(self.first + at as u32),
                bytes: zeros,
            });
        }
        let page = &self.pages[at];
        Some(PageRef {
            meta: page.meta,
            bytes: &page.bytes,
        })
    }

    /// Lends a page for writing, once all are made; `None` if the chunk is shorter.
    pub(crate) fn get_mut(&mut self, at: usize) -> Option<&mut Page>
        ensures value { option_copied_mut result ≡ slice_get self.old at }
        ensures* writes_back { sem 𝓛 (LendsOfChunk self.entry at result) }
    {
        make(
            self.alloc,
            &mut self.pages,
            self.layout,
            self.first,
            self.count,
        );
        self.pages.get_mut(at)
    }

    /// Takes the last page away; `None` if there is none.
    pub(crate) fn pop(&mut self) -> Option<Page>
        ensures items { self.old ≡ self.new ++ option_to_list result }
        ensures some { IsSome result ↔ (0 < length self.old) }
    {
        make(
            self.alloc,
            &mut self.pages,
            self.layout,
            self.first,
            self.count,
        );
        let page = self.pages.pop()?;
        self.count -= 1;
        Some(page)
    }

    /// Zeroes the bytes of all pages, with several threads if many are not known to be zero.
    pub(crate) fn scrub(&mut self, rt: &(impl Threads + Sync))
        ensures { self.new ≡ map scrubbed_page self.old }
    {
        scrub_all(rt, self.pages.as_mut_slice());
    }

    /// Zeroes the bytes of the pages that VMs whose slots are marked own.
    pub(crate) fn scrub_marked(&mut self, marks: &Marks)
        ensures { self.new ≡ map (scrubbed_if_marked marks.now) self.old }
    {
        scrub_each_marked(self.pages.as_mut_slice(), marks);
    }
}
