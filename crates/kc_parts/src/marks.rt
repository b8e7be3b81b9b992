//! Zeroing the pages of VMs whose slots are marked.
ghost use Rattle.std.specs.Prelude.{◌≡◌, map};
ghost use Rattle.kc_parts.specs.Marks.{is_marked, scrubbed_if_marked};

use kc_page::Page;
use kc_types::Owner;

/// A mark for each possible slot.
pub type Marks = [bool; 1_024];

/// Whether the owner is a VM whose slot is marked.
fn is_marked(marks: &Marks, owner: Owner) -> bool
    ensures { result ≡ is_marked marks.now owner }
{
    match owner {
        Owner::Vm(vm) => marks[vm.index()],
        _ => false,
    }
}

/// Zeroes a page if a VM whose slot is marked owns it.
fn scrub_if_marked(page: &mut Page, marks: &Marks)
    ensures { page.new ≡ scrubbed_if_marked marks.now page.old }
{
    if is_marked(marks, page.meta.owner.get()) {
        page.bytes.scrub();
    }
}

/// Zeroes the pages of VMs whose slots are marked, and keeps all other pages and all records.
pub(crate) fn scrub_each_marked(pages: &mut [Page], marks: &Marks)
    ensures { pages.new ≡ map (scrubbed_if_marked marks.now) pages.old }
{
    for page in pages.iter_mut() {
        scrub_if_marked(page, marks);
    }
}
