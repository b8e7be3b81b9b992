//! A state as text, piece by piece.
ghost use Rattle.std.specs.Prelude.{ℕ, ◌≡◌, ◌<◌, ◌≤◌, ◌+◌, ◌++◌, ◌∷◌, [], map, vec_len, vec_capacity, IfOk, OnOk};
ghost use Rattle.std.specs.List.{flat_map};
ghost use Rattle.kc_types.specs.Configuration.{slot_count};
ghost use Rattle.kc_model.specs.State.{slot_at};
ghost use Rattle.kc_dump_text.specs.DumpText.{spaced};
ghost use Rattle.kc_snapshot.specs.Told.{slot_rest, rest_of};
ghost use Rattle.kc_state_text.specs.StateText.{header_of, placed_text, sizes_of, sizes_line, approved_line, vcpu_words, vcpus_words, image_words, images_words, slot_line, page_line, front_begin};

use crate::sizes::Sizes;
use kc_core::KCore;
use kc_lines::{push_bytes, push_digits, push_number};
use kc_page::PageBytes;
use kc_trace::{Position, push_position};
use kc_types::{Image, Memory, Vcpu};
use std::alloc::Global;

/// The bytes of the longest line of a page, with its newline.
pub const LONGEST_PAGE_LINE: usize = 8_198;

/// Appends the line of a page, for which there is room.
pub fn push_page(text: &mut Vec<u8>, page: &PageBytes)
    requires { vec_len text.old + 8198 ≤ vec_capacity text.old }
    ensures items { text.new.items ≡ text.old.items ++ page_line page.now.bytes }
    ensures len { vec_len text.new ≤ vec_len text.old + 8198 }
    ensures capacity { vec_capacity text.old ≤ vec_capacity text.new }
{
    push_bytes(text, b"page ");
    if page.is_zero() {
        push_bytes(text, b"-");
    } else {
        push_digits(text, page.as_slice());
    }
    push_bytes(text, b"\n");
}

fn push_vcpu(text: &mut Vec<u8>, vcpu: Vcpu) -> Result<(), Memory>
    ensures { OnOk result (text.new.items ≡ text.old.items ++ spaced (vcpu_words vcpu)) }
{
    text.reserve(11)?;
    if !vcpu.registered {
        push_bytes(text, b" -");
        return Ok(());
    }
    match vcpu.fault {
        Some(gfn) => push_number(text, gfn),
        None => push_bytes(text, b" ."),
    }
    Ok(())
}

fn push_vcpus(text: &mut Vec<u8>, core: &KCore, vm: u32) -> Result<(), Memory>
    requires { vm < slot_count core.now.state.config }
    ensures { OnOk result (text.new.items ≡ text.old.items ++ flat_map (λ vcpu. spaced (vcpu_words vcpu)) (slot_at core.now.state vm).vcpus) }
{
    let vcpus = core.config().version().vcpus();
    for number in 0..vcpus {
        let vcpu = core.vcpu(vm, number).unwrap();
        push_vcpu(text, vcpu)?;
    }
    Ok(())
}

fn push_image(text: &mut Vec<u8>, image: &Image) -> Result<(), Memory>
    ensures { OnOk result (text.new.items ≡ text.old.items ++ spaced (image_words image.now)) }
{
    text.reserve(33)?;
    push_number(text, image.base);
    push_number(text, image.len);
    push_number(text, image.pages);
    Ok(())
}

fn push_images(text: &mut Vec<u8>, images: &[Image]) -> Result<(), Memory>
    ensures { OnOk result (text.new.items ≡ text.old.items ++ flat_map (λ image. spaced (image_words image)) images.now) }
{
    for image in images {
        push_image(text, image)?;
    }
    Ok(())
}

pub fn push_short(text: &mut Vec<u8>, bytes: &[u8]) -> Result<(), Memory>
    ensures { OnOk result (text.new.items ≡ text.old.items ++ bytes.now) }
{
    text.reserve(bytes.len())?;
    push_bytes(text, bytes);
    Ok(())
}

/// Appends the line of a slot.
fn push_slot(text: &mut Vec<u8>, core: &KCore, vm: u32) -> Result<(), Memory>
    requires { vm < slot_count core.now.state.config }
    ensures { OnOk result (text.new.items ≡ text.old.items ++ slot_line (slot_rest (slot_at core.now.state vm))) }
{
    push_short(text, b"slot")?;
    push_vcpus(text, core, vm)?;
    push_images(text, core.images(vm).unwrap())?;
    push_short(text, b"\n")
}

fn push_slots(text: &mut Vec<u8>, core: &KCore) -> Result<(), Memory>
    ensures { OnOk result (text.new.items ≡ text.old.items ++ flat_map slot_line (map slot_rest core.now.state.slots)) }
{
    for vm in 0..core.config().slots() {
        push_slot(text, core, vm)?;
    }
    Ok(())
}

/// Appends the line of an approved digest.
fn push_digest(text: &mut Vec<u8>, digest: &[u8; 32]) -> Result<(), Memory>
    ensures { OnOk result (text.new.items ≡ text.old.items ++ approved_line digest.now) }
{
    text.reserve(74)?;
    push_bytes(text, b"approved ");
    push_digits(text, digest);
    push_bytes(text, b"\n");
    Ok(())
}

fn push_approved(text: &mut Vec<u8>, digests: &[[u8; 32]]) -> Result<(), Memory>
    ensures { OnOk result (text.new.items ≡ text.old.items ++ flat_map approved_line digests.now) }
{
    for digest in digests {
        push_digest(text, digest)?;
    }
    Ok(())
}

/// The sizes of a core's state.
fn sizes_of(core: &KCore) -> Sizes
    ensures { result ≡ sizes_of (rest_of core.now.state) }
{
    let config = core.config();
    let host = config.host();
    Sizes {
        slots: config.slots(),
        frames: config.frames(),
        host,
        approved: config.approved().len() as u32,
    }
}

/// Appends the header, and the line of the position if there is one.
fn push_header(text: &mut Vec<u8>, position: Option<Position>) -> Result<(), Memory>
    ensures { OnOk result (text.new.items ≡ text.old.items ++ header_of position) }
{
    text.reserve(97)?;
    match position {
        None => push_bytes(text, b"kcore-state 1\n"),
        Some(position) => {
            push_bytes(text, b"kcore-state 2\n");
            push_position(text, position);
        }
    }
    Ok(())
}

/// Appends the line of sizes.
fn push_sizes(text: &mut Vec<u8>, sizes: Sizes) -> Result<(), Memory>
    ensures { OnOk result (text.new.items ≡ text.old.items ++ sizes_line sizes) }
{
    text.reserve(51)?;
    push_bytes(text, b"config");
    push_number(text, sizes.slots);
    push_number(text, sizes.frames);
    push_number(text, sizes.host);
    push_number(text, sizes.approved);
    push_bytes(text, b"\n");
    Ok(())
}

/// Makes the lines of a core's state, with this position or none, before those of its pages: at most 300,000 bytes.
/// `Memory` if memory runs out.
pub fn write_front(
    alloc: Global,
    core: &KCore,
    position: Option<Position>,
) -> Result<Vec<u8>, Memory>
    // No clause can rule out that memory runs out: a test writes states.
    ensures { IfOk result (λ text. text.items ≡ placed_text position (front_begin core.now.state)) }
{
    let mut text = Vec::new(alloc);
    push_header(&mut text, position)?;
    push_sizes(&mut text, sizes_of(core))?;
    push_approved(&mut text, core.config().approved())?;
    push_slots(&mut text, core)?;
    Ok(text)
}
