//! Whether a lawful state may have a frame.
ghost use Rattle.std.specs.Prelude.{◌≡◌, ◌<◌, ◌↔◌, ℕ, length, map, slice_index_or, IsTrue, IfSome, None};
ghost use Rattle.sha2.specs.Sha256.{sha256};
ghost use Rattle.kc_model.specs.Lawful.{IsPage};
ghost use Rattle.kc_dump.specs.Dump.{empty_dump, line_at};
ghost use Rattle.kc_snapshot.specs.Told.{bytes_of};
ghost use Rattle.kc_snapshot.specs.Unlawful.{IsFrameOf, AreFramesOf, page_of};

use kc_dump::{Dump, FrameLine, SlotDump};
use kc_page::PageBytes;
use kc_types::{Owner, Phase};

/// Shows that a page has 4,096 bytes, each of which is one.
fn check_page(bytes: &PageBytes)
    ensures { IsPage bytes.now.bytes }
{
    for byte in bytes.as_slice() {
        let _byte = *byte;
    }
}

/// Whether the slot is there and active.
fn is_active(slots: &[SlotDump], vm: usize) -> bool
    ensures { IsTrue result ↔ ((slice_index_or slots.now vm empty_dump).phase ≡ Phase.Active) }
{
    match slots.get(vm) {
        Some(slot) => slot.phase() == Phase::Active,
        None => false,
    }
}

/// Whether a lawful state may have this frame, as far as the frame and the phase of its slot show.
fn is_frame_of(dump: &Dump, line: &FrameLine, bytes: &PageBytes, digest: &[u8; 32]) -> bool
    requires { digest.now ≡ sha256 bytes.now.bytes }
    ensures value { IsTrue result ↔ IsFrameOf dump.now line.now bytes.now.bytes }
    ensures page { IsPage bytes.now.bytes }
{
    check_page(bytes);
    if line.digest != *digest {
        return false;
    }
    match line.owner {
        Owner::Free => bytes.is_zero(),
        Owner::Vm(vm) => line.share == 0 || is_active(dump.slots(), vm.index()),
        Owner::Core | Owner::Host => true,
    }
}

/// The first frame that no lawful state has, given the digests of all pages.
pub(crate) fn first_wrong_frame(
    dump: &Dump,
    pages: &[PageBytes],
    digests: &[[u8; 32]],
) -> Option<u32>
    requires count { length pages.now ≡ length dump.now.frames }
    requires digests { digests.now ≡ map sha256 (bytes_of pages.now) }
    ensures none { result ≡ None → AreFramesOf dump.now (bytes_of pages.now) (length dump.now.frames) }
    ensures pages { result ≡ None → (f : ℕ) → f < length dump.now.frames → IsPage (page_of (bytes_of pages.now) f) }
    ensures some { IfSome result (λ f. (f < length dump.now.frames) × AreFramesOf dump.now (bytes_of pages.now) f × (IsFrameOf dump.now (line_at dump.now.frames f) (page_of (bytes_of pages.now) f) → ⊥)) }
{
    for frame in 0..dump.frames().len() {
        let line = &dump.frames()[frame];
        if !is_frame_of(dump, line, &pages[frame], &digests[frame]) {
            return Some(frame as u32);
        }
    }
    None
}
