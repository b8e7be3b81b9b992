//! Making a core from its description.
ghost use Rattle.std.specs.Prelude.{◌≡◌, ◌≤◌, ◌<◌, ℕ, [], length, map, vec_capacity, IfOk, IfErr};
ghost use Rattle.std.specs.List.{range_with_len};
ghost use Rattle.kc_types.specs.Limits.{leaf_limit, share_limit};
ghost use Rattle.kc_vms.specs.Stage2.{AreMappings};
ghost use Rattle.kc_types.specs.Configuration.{roots_of};
ghost use Rattle.kc_vms.specs.Vm.{IsSlot, capacity_for};
ghost use Rattle.kc_dump.specs.Dump.{line_at};
ghost use Rattle.kc_dump.specs.Sound.{IsSound};
ghost use Rattle.kc_snapshot.specs.Told.{config_of, told_of};
ghost use Rattle.kc_snapshot.specs.Unlawful.{IsSized, IsUnlawful, AreSlotsOf};
ghost use Rattle.kc_snapshot.specs.Making.{IsJudged, IsVmTold, AreVmsTold, content_of, page_told};

use crate::judging::{judge, judge_alone, sized};
use crate::told::{SlotRest, Told};
use crate::unlawful::Unlawful;
use arrayvec::ArrayVec;
use kc_core::KCore;
use kc_digests::Lanes;
use kc_dump::{Dump, FrameLine, SlotDump};
use kc_page::{Page, PageBytes, PageRecord};
use kc_parts::Parts;
use kc_types::{Config, MaybeFrame, MaybeGfn, Memory, OwnerCode, Version};
use kc_vms::{Stage2, Vm};
use std::alloc::Global;
use std::thread::Threads;

/// Makes a slot that a lawful state of this version may have.
fn make_slot(
    alloc: Global,
    version: Version,
    leaves: u32,
    slot: &SlotDump,
    rest: &SlotRest,
) -> Result<Vm, Memory>
    requires room { leaves ≤ leaf_limit }
    requires kept { IsSlot version slot.now.phase rest.now.vcpus rest.now.images }
    requires mappings { AreMappings (roots_of version) leaves slot.now.leaves slot.now.entries }
    ensures { IfOk result (IsVmTold (capacity_for version leaves) slot.now rest.now) }
{
    let table = Stage2::with_entries(alloc, version, leaves, slot.leaves(), slot.entries())?;
    let vcpus = Vec::from_slice(alloc, rest.vcpus.as_slice())?;
    let mut images = ArrayVec::new();
    images
        .try_extend_from_slice(rest.images.as_slice())
        .unwrap();
    let phase = slot.phase();
    Ok(Vm::with(version, phase, vcpus, images, *slot.list(), table))
}

/// Makes all slots.
fn make_slots(alloc: Global, dump: &Dump, rests: &[SlotRest]) -> Result<Vec<Option<Vm>>, Memory>
    requires count { length rests.now ≡ length dump.now.slots }
    requires sound { IsSound dump.now }
    requires slots { AreSlotsOf dump.now rests.now (length dump.now.slots) }
    ensures count { IfOk result (λ vms. length vms.items ≡ length dump.now.slots) }
    ensures each { IfOk result (λ vms. AreVmsTold dump.now rests.now vms.items (length dump.now.slots)) }
{
    let mut vms = Vec::with_capacity(alloc, dump.slots().len())?;
    let version = dump.version();
    for vm in 0..dump.slots().len() {
        let made = make_slot(alloc, version, dump.leaves(), &dump.slots()[vm], &rests[vm])?;
        vms.push(Some(made))?;
    }
    Ok(vms)
}

/// Makes the page of these bytes, with the record that the dump shows.
fn make_page(line: &FrameLine, bytes: PageBytes) -> Page
    requires { line.now.share ≤ share_limit }
    ensures { result ≡ page_told line.now bytes }
{
    let meta = PageRecord {
        owner: OwnerCode::of(line.owner),
        share: line.share as u8,
        present: line.present,
        gfn: MaybeGfn::of(line.gfn),
        prev: MaybeFrame::of(line.prev),
        next: MaybeFrame::of(line.next),
    };
    Page { meta, bytes }
}

/// Makes all pages, in a vector that has room for them.
fn make_pages(lines: &[FrameLine], bytes: Vec<PageBytes>, mut pages: Vec<Page>) -> Vec<Page>
    requires count { length bytes.items ≡ length lines.now }
    requires none { pages.items ≡ [] }
    requires room { length lines.now ≤ vec_capacity pages }
    requires shares { (f : ℕ) → f < length lines.now → (line_at lines.now f).share ≤ share_limit }
    ensures { result.items ≡ map (λ f. page_told (line_at lines.now f) (content_of bytes.items f)) (range_with_len 0 (length lines.now)) }
{
    let mut rest = bytes.into_iter();
    for line in lines {
        let page = make_page(line, rest.next().unwrap());
        pages.push(page).unwrap();
    }
    pages
}

/// Makes a sparse core from what was judged; `Memory` if memory runs out.
fn make_core(alloc: Global, config: Config, told: Told) -> Result<KCore, Memory>
    requires config { config ≡ config_of told }
    requires sized { IsSized told }
    requires judged { IsJudged told }
    ensures { IfOk result (λ core. told_of core.state ≡ told) }
{
    let vms = make_slots(alloc, &told.dump, told.slots.as_slice())?;
    let room = Vec::with_capacity(alloc, told.pages.len())?;
    let (pages, dump) = told.into_parts();
    let pages = make_pages(dump.frames(), pages, room);
    let parts = Parts::whole(alloc, pages, vms, *dump.free(), false)?;
    Ok(KCore::from_parts(alloc, config, parts))
}

/// Makes a core from what was judged, or returns `Memory`, which says nothing about it.
fn made(alloc: Global, config: Config, told: Told) -> Result<KCore, Unlawful>
    requires config { config ≡ config_of told }
    requires sized { IsSized told }
    requires judged { IsJudged told }
    ensures told { IfOk result (λ core. told_of core.state ≡ told) }
    ensures unlawful { IfErr result (IsUnlawful told) }
{
    match make_core(alloc, config, told) {
        Ok(core) => Ok(core),
        Err(_) => Err(Unlawful::Memory),
    }
}

/// Makes the core that has exactly this description; else returns the first reason why there is none. The dump is
/// audited, and the pages are hashed, by several threads, this many pages side by side.
pub fn core_of(
    rt: &(impl Threads + Sync),
    alloc: Global,
    told: Told,
    lanes: Lanes,
) -> Result<KCore, Unlawful>
    ensures told { IfOk result (λ core. told_of core.state ≡ told) }
    ensures unlawful { IfErr result (IsUnlawful told) }
{
    let config = match sized(&told) {
        Ok(config) => config,
        Err(why) => return Err(why),
    };
    if let Err(why) = judge(rt, alloc, &told, lanes) {
        return Err(why);
    }
    made(alloc, config, told)
}

/// Does what `core_of` does, on this thread alone, which hashes page by page.
pub fn core_alone(alloc: Global, told: Told) -> Result<KCore, Unlawful>
    ensures told { IfOk result (λ core. told_of core.state ≡ told) }
    ensures unlawful { IfErr result (IsUnlawful told) }
{
    let config = match sized(&told) {
        Ok(config) => config,
        Err(why) => return Err(why),
    };
    if let Err(why) = judge_alone(alloc, &told) {
        return Err(why);
    }
    made(alloc, config, told)
}
