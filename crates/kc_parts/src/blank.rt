//! Blank pages, which take the place of missing ones.
ghost use Rattle.std.specs.Prelude.{◌≡◌, replicate, IfOk};
ghost use Rattle.kc_parts.specs.Parts.{blank_page};

use kc_page::{Page, PageBytes, PageRecord};
use kc_types::{MaybeFrame, MaybeGfn, Memory, Owner, OwnerCode};
use std::alloc::Global;

/// Makes a blank page, which takes no memory: its record says nothing, and its bytes are zero.
fn blank_page(alloc: Global) -> Page
    ensures { result ≡ blank_page }
{
    let meta = PageRecord {
        owner: OwnerCode::of(Owner::Core),
        share: 0,
        present: false,
        gfn: MaybeGfn::of(None),
        prev: MaybeFrame::of(None),
        next: MaybeFrame::of(None),
    };
    let bytes = PageBytes::sparse(alloc);
    Page { meta, bytes }
}

/// Makes this many blank pages; `Memory` if memory for their list runs out.
pub(crate) fn blank_pages(alloc: Global, count: usize) -> Result<Vec<Page>, Memory>
    // No clause can rule out that memory runs out: tests take parts out.
    ensures { IfOk result (λ pages. pages.items ≡ replicate count blank_page) }
{
    let mut pages = Vec::with_capacity(alloc, count)?;
    for _ in 0..count {
        pages.push(blank_page(alloc))?;
    }
    Ok(pages)
}
