//! A store of pages, slots and the ends of the free list, which can be taken out and put back.
ghost use Rattle.std.specs.Prelude.{◌≡◌, ◌↔◌, ℕ, ◌<◌, ◌≤◌, IsTrue, is_some, length, get_or, slice_get, IsSome, IfOk, OnOk, OnErr, Option, Some, None, map, cond, true, false, replicate};
ghost use Rattle.std.specs.Option.{option_copied, option_copied_mut};
ghost use Rattle.std.specs.Borrow.{sem};
ghost use Rattle.kc_types.specs.Limits.{frame_limit, slot_limit};
ghost use Rattle.kc_page.specs.Page.{scrubbed_page};
ghost use Rattle.kc_parts.specs.Parts.{IsRising};
ghost use Rattle.kc_parts.specs.Chunks.{page_of, page_read};
ghost use Rattle.kc_parts.specs.Marks.{scrubbed_if_marked};

use crate::PlaceCounts;
use crate::blank::blank_pages;
use crate::boot::{boot_ends, boot_vms};
use crate::chunk::PageRef;
use crate::flags::Flags;
use crate::frame_numbers::FrameNumbers;
use crate::marks::Marks;
use crate::page_list::PageList;
use crate::slots::VmSlots;
use crate::wanted::{wanted_frames, wanted_slots, wants_free};
use kc_page::Page;
use kc_types::{Config, Ends, FrameNo, Memory, Resource, VmId};
use kc_vms::Vm;
use std::alloc::Global;
use std::marker::Model;
use std::mem::swap;
use std::thread::Threads;

/// A store of pages, VM slots and the ends of the free list. Each page and each slot has a place of its own, in the
/// order of the numbers. The place stays when the page or slot is taken out, with a blank page in it, so that putting
/// it back takes no memory. Parts are reserved or sparse: each page of reserved parts always has memory for its bytes, and
/// blanks have none.
#[derive(Drop)]
pub struct Parts {
    numbers: FrameNumbers,
    filled: Flags,
    pages: PageList,
    vms: VmSlots,
    free: Option<Ends>,
    is_reserved: bool,
}

impl Model for Parts {
    ghost use Rattle.std.specs.Coded.{codes, coded_ℕ};
    ghost use Rattle.std.specs.Ordering.{nat_cmp};
    ghost use Rattle.std.specs.FinMap as map;
    ghost use Rattle.kc_parts.specs.Parts.{Held, IsHeld};

    ghost Value = { Held };

    ghost coded = { Prim.hlevel (codes, map.code {R = nat_cmp} coded_ℕ coded_ℕ) };

    ghost view = { λ p. record { numbers = p.numbers; filled = p.filled; pages = p.pages; vms = p.vms; free = p.free; is_reserved = p.is_reserved } };

    ghost invariant = { λ p. IsHeld p.numbers p.filled p.pages };
}

impl Parts {
    ghost use Rattle.kc_types.specs.Configuration.{IsConfiguration};
    ghost use Rattle.kc_parts.specs.Parts.{IsHeld, blank_page, place_in, page_at, held_slot, vm_at};
    ghost use Rattle.kc_parts.specs.Booting.{IsBooted, parts_of};
    ghost use Rattle.kc_parts.specs.Lending.{LendsPage, LendsPageHere, LendsVm, LendsVmHere, LendsFree};
    ghost use Rattle.kc_model.specs.Resources.{is_wanted};
    ghost use Rattle.kc_parts.specs.Cuts.{AreHere, IsSplit, AreSlotsFor, FitsInto, IsJoin, IsFull, held_at};
    ghost use Rattle.kc_parts.specs.Moves.{IsWrite, IsLifted, IsLaid, IsEmptyPlace, AreMoved, WithSlots, only_at, page_among};

    /// Makes all parts of the boot state, reserved: every frame of the configuration, zeroed; every slot, empty; and the free
    /// list, in ascending order. `Memory` if memory runs out.
    pub fn boot(alloc: Global, config: &Config) -> Result<Parts, Memory>
        // No clause can rule out that memory runs out: a test boots parts.
        ensures parts { IfOk result (IsBooted config.now true) }
        ensures config { OnOk result (IsConfiguration config.now) }
    {
        Parts::boot_as(alloc, config, true)
    }

    /// Makes all parts of the boot state, sparse: frames of zeros have no memory. `Memory` if memory runs out.
    pub fn boot_sparse(alloc: Global, config: &Config) -> Result<Parts, Memory>
        // No clause can rule out that memory runs out: a test boots parts.
        ensures parts { IfOk result (IsBooted config.now false) }
        ensures config { OnOk result (IsConfiguration config.now) }
    {
        Parts::boot_as(alloc, config, false)
    }

    /// Makes all parts of the boot state, reserved or sparse.
    fn boot_as(alloc: Global, config: &Config, is_reserved: bool) -> Result<Parts, Memory>
        ensures parts { IfOk result (IsBooted config.now is_reserved) }
        ensures config { OnOk result (IsConfiguration config.now) }
    {
        let pages = PageList::at_boot(alloc, config, is_reserved)?;
        let vms = boot_vms(alloc, config)?;
        let frames = config.frames();
        Parts::in_places(alloc, frames, pages, vms, boot_ends(config), is_reserved)
    }

    /// Makes parts of the pages of this many frames and of slots, each in the place of its number.
    fn in_places(
        alloc: Global,
        frames: u32,
        pages: PageList,
        vms: Vec<Option<Vm>>,
        free: Ends,
        is_reserved: bool,
    ) -> Result<Parts, Memory>
        requires count { length pages ≡ frames }
        requires frames { length pages ≤ frame_limit }
        requires slots { length vms.items ≤ slot_limit }
        ensures { IfOk result (λ parts. parts ≡ parts_of pages vms.items free is_reserved) }
    {
        Ok(Parts {
            numbers: FrameNumbers::below(frames),
            filled: Flags::all_set(alloc, frames as usize)?,
            pages,
            vms: VmSlots::whole(alloc, vms)?,
            free: Some(free),
            is_reserved,
        })
    }

    /// Makes parts of pages and slots, each in the place of its number, and the ends of the free list. They count as reserved
    /// or as sparse. `Memory` if memory runs out, and then the pages are wiped.
    pub fn whole(
        alloc: Global,
        pages: Vec<Page>,
        vms: Vec<Option<Vm>>,
        free: Ends,
        is_reserved: bool,
    ) -> Result<Parts, Memory>
        requires frames { length pages.items ≤ frame_limit }
        requires slots { length vms.items ≤ slot_limit }
        // No clause can rule out that memory runs out: a test boots parts.
        ensures { IfOk result (λ parts. parts ≡ parts_of pages.items vms.items free is_reserved) }
    {
        let frames = pages.len() as u32;
        let pages = PageList::of(alloc, pages)?;
        Parts::in_places(alloc, frames, pages, vms, free, is_reserved)
    }

    /// The place of a frame's page, or the number of pages if it is not here.
    fn place_in(&self, frame: FrameNo) -> usize
        ensures { result ≡ place_in self.now frame }
    {
        let at = self.numbers.place_of(frame.number());
        let count = self.numbers.len();
        if at < count && self.filled.get(at) {
            at
        } else {
            count
        }
    }

    /// The page of a frame; `None` if it is not here.
    pub fn try_page(&self, frame: FrameNo) -> Option<PageRef<'_>>
        ensures { page_read result ≡ page_at self.now frame }
    {
        let at = self.place_in(frame);
        self.pages.get(at)
    }

    /// Lends the page of a frame for writing; `None` if it is not here.
    pub fn try_page_mut(&mut self, frame: FrameNo) -> Option<&mut Page>
        ensures value { option_copied_mut result ≡ page_at self.old frame }
        ensures* writes_back { sem 𝓛 (LendsPage self.entry frame result) }
    {
        let at = self.place_in(frame);
        self.pages.get_mut(at)
    }

    /// The page of a frame that is here.
    pub fn page(&self, frame: FrameNo) -> PageRef<'_>
        requires { IsSome (page_at self.now frame) }
        ensures { page_at self.now frame ≡ Some (page_of result) }
    {
        let Some(page) = self.try_page(frame) else {
            unreachable!()
        };
        page
    }

    /// Lends the page of a frame that is here for writing.
    pub fn page_mut(&mut self, frame: FrameNo) -> &mut Page
        requires { IsSome (page_at self.old frame) }
        ensures value { page_at self.old frame ≡ Some result.now }
        ensures* writes_back { sem 𝓛 (LendsPageHere self.entry frame result) }
    {
        self.try_page_mut(frame).unwrap()
    }

    /// A VM slot; `None` if it is not here.
    pub fn try_slot(&self, vm: VmId) -> Option<&Vm>
        ensures { option_copied result ≡ vm_at self.now vm }
    {
        self.vms.get(vm)
    }

    /// Lends a VM slot for writing; `None` if it is not here.
    pub fn try_slot_mut(&mut self, vm: VmId) -> Option<&mut Vm>
        ensures value { option_copied_mut result ≡ vm_at self.old vm }
        ensures* writes_back { sem 𝓛 (LendsVm self.entry vm result) }
    {
        self.vms.get_mut(vm)
    }

    /// A VM slot that is here.
    pub fn slot(&self, vm: VmId) -> &Vm
        requires { IsSome (vm_at self.now vm) }
        ensures { vm_at self.now vm ≡ Some result.now }
    {
        self.try_slot(vm).unwrap()
    }

    /// Lends a VM slot that is here for writing.
    pub fn slot_mut(&mut self, vm: VmId) -> &mut Vm
        requires { IsSome (vm_at self.old vm) }
        ensures value { vm_at self.old vm ≡ Some result.now }
        ensures* writes_back { sem 𝓛 (LendsVmHere self.entry vm result) }
    {
        self.try_slot_mut(vm).unwrap()
    }

    /// The ends of the free list; `None` if they are not here.
    pub fn free(&self) -> Option<&Ends>
        ensures { option_copied result ≡ self.now.free }
    {
        self.free.as_ref()
    }

    /// Lends the ends of the free list for writing; `None` if they are not here.
    pub fn free_mut(&mut self) -> Option<&mut Ends>
        ensures value { option_copied_mut result ≡ self.old.free }
        ensures* writes_back { sem 𝓛 (LendsFree self.entry result) }
    {
        self.free.as_mut()
    }

    /// The number of frames and slots that fit in without taking memory.
    pub fn place_counts(&self) -> PlaceCounts
        ensures { result ≡ record { frames = length self.now.numbers; slots = length self.now.vms.numbers } }
    {
        PlaceCounts {
            frames: self.numbers.len(),
            slots: self.vms.count(),
        }
    }

    /// Zeroes the bytes of all pages, with several threads if many are not known to be zero, and changes nothing else. It
    /// cannot fail: if no thread can be started, this one does everything.
    pub fn wipe(&mut self, rt: &(impl Threads + Sync))
        ensures { self.new ≡ record self.old { pages = map scrubbed_page self.old.pages } }
    {
        self.pages.scrub(rt);
    }

    /// Zeroes the bytes of the pages that VMs whose slots are marked own, and changes nothing else.
    pub fn scrub_marked(&mut self, marks: &Marks)
        ensures { self.new ≡ record self.old { pages = map (scrubbed_if_marked marks.now) self.old.pages } }
    {
        self.pages.scrub_marked(marks);
    }

    /// Takes these resources out, all of which are here. What comes out has room for just these: a place for each
    /// frame and for each slot. A resource may be named more than once. `Memory` if memory runs out, and then
    /// nothing changes.
    pub fn take_out(&mut self, alloc: Global, wanted: &[Resource]) -> Result<Parts, Memory>
        requires { AreHere self.old wanted.now }
        // No clause can rule out that memory runs out: tests take parts out.
        ensures ok { IfOk result (λ taken. IsSplit self.old (is_wanted wanted.now) self.new taken) }
        ensures full { IfOk result IsFull }
        ensures fits { IfOk result (FitsInto self.new) }
        ensures slots { IfOk result (λ taken. AreSlotsFor (is_wanted wanted.now) taken.vms.numbers) }
        ensures err { OnErr result (self.new ≡ self.old) }
    {
        let numbers = wanted_frames(alloc, wanted)?;
        let filled = Flags::all_set(alloc, numbers.len())?;
        let slots = wanted_slots(alloc, wanted)?;
        let mut vms = VmSlots::places(alloc, slots)?;
        let mut pages = PageList::of(alloc, blank_pages(alloc, numbers.len())?)?;
        self.lift_slots(&mut vms);
        let free = self.lift_free(wants_free(wanted));
        self.lift_pages(numbers.as_slice(), &mut pages);
        Ok(Parts {
            numbers: FrameNumbers::listed(numbers),
            filled,
            pages,
            vms,
            free,
            is_reserved: self.is_reserved,
        })
    }

    /// Puts parts back into their places, which are empty. It takes no memory. What is left is reserved if both are.
    pub fn put_back(&mut self, other: Parts)
        requires { FitsInto self.old other }
        ensures joined { IsJoin self.old other self.new }
        ensures places { self.new.numbers ≡ self.old.numbers }
        ensures slots { self.new.vms.numbers ≡ self.old.vms.numbers }
    {
        let Parts {
            numbers,
            filled,
            pages,
            vms,
            free,
            is_reserved,
        } = other;
        self.is_reserved = self.is_reserved && is_reserved;
        self.vms.put_back(vms);
        if free.is_some() {
            self.free = free;
        }
        self.lay_pages(numbers, filled, pages);
    }

    /// Takes out the slots for which these places, which are empty, are made.
    fn lift_slots(&mut self, vms: &mut VmSlots)
        requires { (v : ℕ) → held_slot vms.old v ≡ None }
        ensures moved { AreMoved vms.old.numbers self.old.vms vms.old self.new.vms vms.new }
        ensures rest { WithSlots self.old self.new }
    {
        vms.take_from(&mut self.vms);
    }

    /// Takes the ends of the free list, if asked.
    fn lift_free(&mut self, asked: bool) -> Option<Ends>
        ensures ends { result ≡ cond asked self.old.free None }
        ensures rest { self.new ≡ record self.old { free = cond asked None self.old.free } }
    {
        if asked { self.free.take() } else { None }
    }

    /// Takes the pages of these frames, which are here, in exchange for as many blanks.
    fn lift_pages(&mut self, numbers: &[u32], pages: &mut PageList)
        requires rising { IsRising numbers.now }
        requires blank { pages.old ≡ replicate (length numbers.now) blank_page }
        requires here { (i : ℕ) → i < length numbers.now → IsSome (page_at self.old (get_or numbers.now i 0)) }
        ensures taken { map Some pages.new ≡ map (page_at self.old) numbers.now }
        ensures rest { IsLifted numbers.now self.old self.new }
    {
        for at in 0..numbers.len() {
            self.lift_page(numbers[at], pages.get_mut(at).unwrap());
        }
    }

    /// Takes the page of a frame, which is here, in exchange for a blank.
    fn lift_page(&mut self, number: u32, page: &mut Page)
        requires here { IsSome (page_at self.old number) }
        requires blank { page.old ≡ blank_page }
        ensures taken { Some page.new ≡ page_at self.old number }
        ensures rest { IsWrite number None self.old self.new }
    {
        let at = self.numbers.place_of(number);
        swap(self.pages.get_mut(at).unwrap(), page);
        self.filled.set(at, false);
    }

    /// Lays pages into their places, which are empty.
    fn lay_pages(&mut self, mut numbers: FrameNumbers, mut filled: Flags, mut pages: PageList)
        requires held { IsHeld numbers filled pages }
        requires fits { (f : ℕ) (page : Page) → page_among numbers filled pages f ≡ Some page → IsEmptyPlace self.old f }
        ensures { IsLaid (page_among numbers filled pages) self.old self.new }
    {
        while let Some(number) = numbers.pop() {
            let (Some(flag), Some(page)) = (filled.pop(), pages.pop()) else {
                unreachable!()
            };
            self.lay_back(number, flag, page);
        }
    }

    /// Lays a page into its place, which is empty, if `filled`; otherwise the page is a blank.
    fn lay_back(&mut self, number: u32, filled: bool, page: Page)
        requires { filled ≡ true → IsEmptyPlace self.old number }
        ensures { IsLaid (only_at number (cond filled (Some page) None)) self.old self.new }
    {
        if filled {
            self.lay_page(number, page);
        }
    }

    /// Lays a page into its place, which is empty.
    fn lay_page(&mut self, number: u32, page: Page)
        requires { IsEmptyPlace self.old number }
        ensures { IsWrite number (Some page) self.old self.new }
    {
        let at = self.numbers.place_of(number);
        *self.pages.get_mut(at).unwrap() = page;
        self.filled.set(at, true);
    }
}
