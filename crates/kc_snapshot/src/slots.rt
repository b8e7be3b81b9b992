//! Whether a lawful state may have a slot.
ghost use Rattle.std.specs.Prelude.{◌≡◌, ◌+◌, ◌<◌, ◌==◌, ◌↔◌, ℕ, All, length, true, IsTrue, IfSome, None};
ghost use Rattle.std.specs.List.{list_any};
ghost use Rattle.kc_model.specs.Lawful.{holds};
ghost use Rattle.kc_dump.specs.Dump.{slot_dump_at};
ghost use Rattle.kc_dump.specs.Ranges.{IsDump};
ghost use Rattle.kc_snapshot.specs.Unlawful.{IsSlotOf, AreSlotsOf, slot_rest_at};

use crate::told::SlotRest;
use kc_dump::{Dump, SlotDump};
use kc_types::{FrameNo, Gfn, Image, Phase, Version};
use kc_vms::is_slot;

/// Whether the guest frame is one of the image's pages so far.
fn holds(gfn: u64, image: &Image) -> bool
    ensures { result ≡ holds gfn image.now }
{
    let base = u64::from(image.base);
    base <= gfn && gfn < base + u64::from(image.pages)
}

fn any_holds(gfn: u64, images: &[Image]) -> bool
    ensures { result ≡ list_any (holds gfn) images.now }
{
    images.iter().any(|image| holds(gfn, image))
}

/// Whether the guest frame is mapped.
fn has_entry(entries: &[(Gfn, FrameNo)], gfn: u64) -> bool
    ensures { result ≡ list_any (λ (e : ℕ × ℕ). e.0 == gfn) entries.now }
{
    entries
        .iter()
        .any(|entry| u64::from(entry.0.number()) == gfn)
}

/// Whether each mapped guest frame is a page of an image so far.
fn are_held(entries: &[(Gfn, FrameNo)], images: &[Image]) -> bool
    ensures { IsTrue result ↔ All (λ (e : ℕ × ℕ). list_any (holds e.0) images.now ≡ true) entries.now }
{
    for entry in entries {
        if !any_holds(u64::from(entry.0.number()), images) {
            return false;
        }
    }
    true
}

/// Whether each page of the image so far is mapped.
fn is_mapped(entries: &[(Gfn, FrameNo)], image: &Image) -> bool
    ensures { IsTrue result ↔ ((k : ℕ) → k < image.now.pages → list_any (λ (e : ℕ × ℕ). e.0 == image.now.base + k) entries.now ≡ true) }
{
    for page in 0..image.pages {
        if !has_entry(entries, u64::from(image.base) + u64::from(page)) {
            return false;
        }
    }
    true
}

fn are_mapped(entries: &[(Gfn, FrameNo)], images: &[Image]) -> bool
    ensures { IsTrue result ↔ All (λ image. (k : ℕ) → k < image.pages → list_any (λ (e : ℕ × ℕ). e.0 == image.base + k) entries.now ≡ true) images.now }
{
    for image in images {
        if !is_mapped(entries, image) {
            return false;
        }
    }
    true
}

/// Whether the images' pages so far are mapped and nothing else.
fn maps_images(entries: &[(Gfn, FrameNo)], images: &[Image]) -> bool
    ensures { IsTrue result ↔ ((g : ℕ) → list_any (λ (e : ℕ × ℕ). e.0 == g) entries.now ≡ list_any (holds g) images.now) }
{
    if !are_held(entries, images) {
        return false;
    }
    are_mapped(entries, images)
}

/// Whether a lawful state may have this slot, as far as the slot itself shows.
fn is_slot_of(version: Version, slot: &SlotDump, rest: &SlotRest) -> bool
    ensures { IsTrue result ↔ IsSlotOf version slot.now rest.now }
{
    let (vcpus, images) = (rest.vcpus.as_slice(), rest.images.as_slice());
    if !is_slot(version, slot.phase(), vcpus, images) {
        return false;
    }
    if slot.phase() != Phase::Booting {
        return true;
    }
    maps_images(slot.entries(), images)
}

/// The first slot that no lawful state has.
pub(crate) fn first_wrong_slot(dump: &Dump, rests: &[SlotRest]) -> Option<u32>
    requires { length rests.now ≡ length dump.now.slots }
    ensures range { IsDump dump.now }
    ensures none { result ≡ None → AreSlotsOf dump.now rests.now (length dump.now.slots) }
    ensures some { IfSome result (λ v. (v < length dump.now.slots) × AreSlotsOf dump.now rests.now v × (IsSlotOf dump.now.version (slot_dump_at dump.now v) (slot_rest_at rests.now v) → ⊥)) }
{
    for vm in 0..dump.slots().len() {
        if !is_slot_of(dump.version(), &dump.slots()[vm], &rests[vm]) {
            return Some(vm as u32);
        }
    }
    None
}
