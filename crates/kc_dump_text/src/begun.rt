//! A dump of which some lines have been read.
ghost use Rattle.std.specs.Prelude.{◌≡◌, OnOk};
ghost use Rattle.kc_dump.specs.Ranges.{IsDump};
ghost use Rattle.kc_dump_text.specs.Begun.{nothing, with_line, HasSlot};

use crate::dump_line::DumpLine;
use kc_dump::{Dump, FrameLine, SlotDump};
use kc_types::{Ends, Memory, Version};
use std::alloc::Global;
use std::marker::Model;

/// The parts of the dump so far.
#[derive(Drop)]
pub struct Begun {
    version: Version,
    core: u32,
    leaves: u32,
    free: Ends,
    slots: Vec<SlotDump>,
    frames: Vec<FrameLine>,
}

impl Model for Begun {
    ghost use Rattle.kc_dump.specs.Dump.{Dumped};

    ghost Value = { Dumped };

    ghost view = { λ d. record { version = d.version; core = d.core; leaves = d.leaves; free = d.free; slots = d.slots.items; frames = d.frames.items } };
}

impl Begun {
    /// Begins a dump without slots and frames.
    pub fn new(alloc: Global, version: Version, core: u32, leaves: u32, free: Ends) -> Begun
        ensures { result ≡ nothing version core leaves free }
    {
        Begun {
            version,
            core,
            leaves,
            free,
            slots: Vec::new(alloc),
            frames: Vec::new(alloc),
        }
    }

    /// Adds what a line says. `Memory` if memory runs out.
    pub fn push(&mut self, alloc: Global, line: DumpLine) -> Result<(), Memory>
        requires { HasSlot self.old.slots line }
        ensures { OnOk result (self.new ≡ with_line self.old line) }
    {
        match line {
            DumpLine::VmOf(_, phase, ends) => {
                let slot = SlotDump::new(phase, ends, Vec::new(alloc), Vec::new(alloc));
                self.slots.push(slot)?;
            }
            DumpLine::LeafOf(vm, _, root) => self.slots[vm as usize].push_leaf(root)?,
            DumpLine::EntryOf(vm, (gfn, frame)) => {
                self.slots[vm as usize].push_entry(gfn, frame)?
            }
            DumpLine::FrameOf(_, frame) => self.frames.push(frame)?,
            _ => {}
        }
        Ok(())
    }

    /// Makes a dump of these parts.
    pub fn into_dump(self) -> Dump
        requires { IsDump self }
        ensures { result ≡ self }
    {
        Dump::new(
            self.version,
            self.core,
            self.leaves,
            self.free,
            self.slots,
            self.frames,
        )
    }
}
