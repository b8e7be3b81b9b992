//! A place in a dump's text, and which line may come there.
ghost use Rattle.std.specs.Prelude.{◌≡◌, true, false, MatchOption};
ghost use Rattle.kc_dump_text.specs.Places.{start, section, in_range, comes, may, place_after};

use crate::dump_line::DumpLine;
use crate::ranges::{are_ends, are_sizes, is_entry, is_frame};
use kc_types::{BYTE_LIMIT, Version};

/// The version, and the number of frames that there should be.
#[derive(Clone, Copy, Debug)]
pub struct Sizes {
    pub version: Version,
    pub frames: u32,
}

/// What was read of a dump after its first two lines.
#[derive(Clone, Copy, Debug)]
pub struct Place {
    /// The section of the last line: slots, leaves, entries, frames, from 0 on.
    pub section: u32,
    /// The number of slots.
    pub vm: u32,
    /// The slot of the last leaf, and the number of its leaves.
    pub leaf: (u32, u32),
    /// The slot of the last entry, and the lowest guest frame that may follow.
    pub entry: (u32, u32),
    /// The number of frames.
    pub frame: u32,
}

/// The section of a line after the first two.
fn section(line: &DumpLine) -> u32
    ensures { result ≡ section line.now }
{
    match line {
        DumpLine::LeafOf(..) => 1,
        DumpLine::EntryOf(..) => 2,
        DumpLine::FrameOf(..) => 3,
        _ => 0,
    }
}

/// Whether the numbers of a line are in range.
fn in_range(sizes: Sizes, line: &DumpLine) -> bool
    ensures { result ≡ in_range sizes.version sizes.frames line.now }
{
    let slots = sizes.version.slots();
    match line {
        DumpLine::SizeOf(frames, core, leaves) => {
            are_sizes(sizes.version, *frames, *core, *leaves)
        }
        DumpLine::FreeOf(ends) => are_ends(sizes.frames, ends),
        DumpLine::VmOf(vm, _, ends) => *vm < slots && are_ends(sizes.frames, ends),
        DumpLine::LeafOf(vm, number, root) => {
            *vm < slots && (*number as usize) < BYTE_LIMIT && *root < sizes.version.roots()
        }
        DumpLine::EntryOf(vm, (gfn, frame)) => {
            is_entry(sizes.version, sizes.frames, *vm, *gfn, *frame)
        }
        DumpLine::FrameOf(number, frame) => {
            *number < sizes.frames && is_frame(sizes.version, sizes.frames, frame)
        }
    }
}

impl Place {
    /// The place before all slots.
    pub fn start() -> Place
        ensures { result ≡ start }
    {
        Place {
            section: 0,
            vm: 0,
            leaf: (0, 0),
            entry: (0, 0),
            frame: 0,
        }
    }

    /// Whether a line is the next of its section.
    fn comes(self, version: Version, line: &DumpLine) -> bool
        ensures { result ≡ comes version self line.now }
    {
        let all_slots = self.vm == version.slots();
        match line {
            DumpLine::VmOf(vm, _, _) => *vm == self.vm,
            DumpLine::LeafOf(vm, number, _) => {
                let (last, count) = self.leaf;
                all_slots && ((*vm == last && *number == count) || (last < *vm && *number == 0))
            }
            DumpLine::EntryOf(vm, (gfn, _)) => {
                let (last, least) = self.entry;
                all_slots && (last < *vm || (*vm == last && least <= gfn.number()))
            }
            DumpLine::FrameOf(number, _) => all_slots && *number == self.frame,
            _ => false,
        }
    }

    /// Whether a line may come here.
    fn may(self, sizes: Sizes, line: &DumpLine) -> bool
        ensures { result ≡ may sizes.version sizes.frames self line.now }
    {
        self.section <= section(line) && self.comes(sizes.version, line) && in_range(sizes, line)
    }

    /// The place after a line, if the line may come at this one.
    pub fn after(self, sizes: Sizes, line: &DumpLine) -> Option<Place>
        ensures { MatchOption result (may sizes.version sizes.frames self line.now ≡ false) (λ next. (may sizes.version sizes.frames self line.now ≡ true) × (next ≡ place_after self line.now)) }
    {
        if !self.may(sizes, line) {
            return None;
        }
        let mut next = self;
        match line {
            DumpLine::VmOf(vm, _, _) => {
                next.vm = *vm + 1;
            }
            DumpLine::LeafOf(vm, number, _) => {
                next.section = 1;
                next.leaf = (*vm, *number + 1);
            }
            DumpLine::EntryOf(vm, (gfn, _)) => {
                next.section = 2;
                next.entry = (*vm, gfn.number() + 1);
            }
            DumpLine::FrameOf(number, _) => {
                next.section = 3;
                next.frame = *number + 1;
            }
            _ => {}
        }
        Some(next)
    }
}
