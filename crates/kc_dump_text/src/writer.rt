//! A dump as text.
ghost use Rattle.std.specs.Prelude.{◌≡◌, ◌≤◌, ◌+◌, ◌++◌, ℕ, true, length, slice_index_or, IfOk, OnOk};
ghost use Rattle.std.specs.List.{flat_map};
ghost use Rattle.kc_types.specs.Configuration.{has_dump};
ghost use Rattle.kc_types.specs.Limits.{byte_limit, frame_limit, slot_limit};
ghost use Rattle.kc_dump.specs.Dump.{empty_dump};
ghost use Rattle.kc_dump.specs.Ranges.{IsDump};
ghost use Rattle.kc_dump_text.specs.Grammar.{IsDumpText};
ghost use Rattle.kc_dump_text.specs.DumpText.{dump_text, dump_header, spell, made, vm_of, leaves_of, entries_of};
ghost use Rattle.kc_dump_text.specs.declared.dump_line.DumpLine.TheVariants.{SizeOf, FreeOf, LeafOf, EntryOf, FrameOf};

use crate::lines::{LONGEST_LINE, push_frame_line, push_free_line, push_three, push_vm_line};
use kc_dump::{Dump, FrameLine, SlotDump};
use kc_lines::push_bytes;
use kc_types::{FrameNo, Gfn, Memory, Version};
use std::alloc::Global;

fn push_vms(text: &mut Vec<u8>, slots: &[SlotDump]) -> Result<(), Memory>
    requires { length slots.now ≤ slot_limit }
    ensures { OnOk result (text.new.items ≡ text.old.items ++ flat_map spell (made vm_of 0 slots.now)) }
{
    for i in 0..slots.len() {
        text.reserve(LONGEST_LINE)?;
        push_vm_line(text, i as u32, &slots[i]);
    }
    Ok(())
}

fn push_frames(text: &mut Vec<u8>, frames: &[FrameLine]) -> Result<(), Memory>
    requires { length frames.now ≤ frame_limit }
    ensures { OnOk result (text.new.items ≡ text.old.items ++ flat_map spell (made FrameOf 0 frames.now)) }
{
    for i in 0..frames.len() {
        text.reserve(LONGEST_LINE)?;
        push_frame_line(text, i as u32, &frames[i]);
    }
    Ok(())
}

fn push_leaves(text: &mut Vec<u8>, vm: u32, leaves: &[u32]) -> Result<(), Memory>
    requires { length leaves.now ≤ byte_limit }
    ensures { OnOk result (text.new.items ≡ text.old.items ++ flat_map spell (made (LeafOf vm) 0 leaves.now)) }
{
    for i in 0..leaves.len() {
        text.reserve(LONGEST_LINE)?;
        push_three(text, b"leaf", vm, i as u32, leaves[i]);
    }
    Ok(())
}

fn push_all_leaves(text: &mut Vec<u8>, slots: &[SlotDump]) -> Result<(), Memory>
    requires few { length slots.now ≤ slot_limit }
    requires leaves { (v : ℕ) → length (slice_index_or slots.now v empty_dump).leaves ≤ byte_limit }
    ensures { OnOk result (text.new.items ≡ text.old.items ++ flat_map spell (leaves_of 0 slots.now)) }
{
    for i in 0..slots.len() {
        push_leaves(text, i as u32, slots[i].leaves())?;
    }
    Ok(())
}

fn push_entries(text: &mut Vec<u8>, vm: u32, entries: &[(Gfn, FrameNo)]) -> Result<(), Memory>
    ensures { OnOk result (text.new.items ≡ text.old.items ++ flat_map spell (made (λ i entry. EntryOf vm entry) 0 entries.now)) }
{
    for i in 0..entries.len() {
        text.reserve(LONGEST_LINE)?;
        let (gfn, frame) = entries[i];
        push_three(text, b"entry", vm, gfn.number(), frame.number());
    }
    Ok(())
}

fn push_all_entries(text: &mut Vec<u8>, slots: &[SlotDump]) -> Result<(), Memory>
    requires { length slots.now ≤ slot_limit }
    ensures { OnOk result (text.new.items ≡ text.old.items ++ flat_map spell (entries_of 0 slots.now)) }
{
    for i in 0..slots.len() {
        push_entries(text, i as u32, slots[i].entries())?;
    }
    Ok(())
}

/// Appends the line of sizes.
fn push_size(text: &mut Vec<u8>, dump: &Dump) -> Result<(), Memory>
    ensures { OnOk result (text.new.items ≡ text.old.items ++ spell (SizeOf (length dump.now.frames) dump.now.core dump.now.leaves)) }
{
    text.reserve(LONGEST_LINE)?;
    let frames = dump.frames().len() as u32;
    push_three(text, b"size", frames, dump.core(), dump.leaves());
    Ok(())
}

/// Appends the line of the free list.
fn push_free(text: &mut Vec<u8>, dump: &Dump) -> Result<(), Memory>
    ensures { OnOk result (text.new.items ≡ text.old.items ++ spell (FreeOf dump.now.free)) }
{
    text.reserve(LONGEST_LINE)?;
    push_free_line(text, dump.free());
    Ok(())
}

/// Appends the first line.
fn push_header(text: &mut Vec<u8>, version: Version) -> Result<(), Memory>
    ensures { OnOk result (text.new.items ≡ text.old.items ++ dump_header version) }
{
    text.reserve(LONGEST_LINE)?;
    match version {
        Version::One => push_bytes(text, b"kcore-dump 1\n"),
        Version::Two => push_bytes(text, b"kcore-dump 2\n"),
        Version::Three => push_bytes(text, b"kcore-dump 3\n"),
    }
    Ok(())
}

/// Writes the text of a dump, whose numbers are in range.
fn text_of(alloc: Global, dump: &Dump) -> Result<Vec<u8>, Memory>
    ensures text { IfOk result (λ text. text.items ≡ dump_text dump.now) }
    ensures kept { OnOk result (IsDump dump.now) }
{
    let mut text = Vec::new(alloc);
    push_header(&mut text, dump.version())?;
    push_size(&mut text, dump)?;
    push_free(&mut text, dump)?;
    push_vms(&mut text, dump.slots())?;
    push_all_leaves(&mut text, dump.slots())?;
    push_all_entries(&mut text, dump.slots())?;
    push_frames(&mut text, dump.frames())?;
    Ok(text)
}

/// Writes the one text of a dump, which is read as that dump if it is of version 1 or 2. `Memory` if memory runs out.
pub fn write_dump(alloc: Global, dump: &Dump) -> Result<Vec<u8>, Memory>
    // No clause can rule out that memory runs out: a test writes dumps.
    ensures text { IfOk result (λ text. text.items ≡ dump_text dump.now) }
    ensures read { IfOk result (λ text. has_dump dump.now.version ≡ true → IsDumpText text.items dump.now) }
{
    let text = text_of(alloc, dump)?;
    Ok(text)
}
