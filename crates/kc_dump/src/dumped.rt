//! A dump of the core.
ghost use Rattle.std.specs.Prelude.{◌≡◌, ◌≤◌, length};
ghost use Rattle.kc_types.specs.Limits.{frame_limit, slot_limit};
ghost use Rattle.kc_dump.specs.Ranges.{IsDump};

use crate::{FrameLine, SlotDump};
use kc_types::{Ends, Version};
use std::marker::Model;

/// Every record, list and table of a core, and the digest of each page in place of its bytes.
#[derive(Debug, Drop)]
pub struct Dump {
    version: Version,
    core: u32,
    leaves: u32,
    free: Ends,
    slots: Vec<SlotDump>,
    frames: Vec<FrameLine>,
}

impl Model for Dump {
    ghost use Rattle.kc_dump.specs.Dump.{Dumped};
    ghost use Rattle.kc_dump.specs.Ranges.{IsDump};

    ghost Value = { Dumped };

    ghost view = { λ d. record { version = d.version; core = d.core; leaves = d.leaves; free = d.free; slots = d.slots.items; frames = d.frames.items } };

    ghost invariant = { λ d. IsDump (record { version = d.version; core = d.core; leaves = d.leaves; free = d.free; slots = d.slots.items; frames = d.frames.items }) };
}

impl Dump {
    /// Makes a dump of these parts, whose numbers are in range.
    pub fn new(
        version: Version,
        core: u32,
        leaves: u32,
        free: Ends,
        slots: Vec<SlotDump>,
        frames: Vec<FrameLine>,
    ) -> Dump
        requires { IsDump (record { version = version; core = core; leaves = leaves; free = free; slots = slots.items; frames = frames.items }) }
        ensures { result ≡ record { version = version; core = core; leaves = leaves; free = free; slots = slots.items; frames = frames.items } }
    {
        Dump {
            version,
            core,
            leaves,
            free,
            slots,
            frames,
        }
    }

    /// The version of the configuration.
    pub fn version(&self) -> Version
        ensures { result ≡ self.now.version }
    {
        self.version
    }

    /// The number of the core's frames, which are the first.
    pub fn core(&self) -> u32
        ensures { result ≡ self.now.core }
    {
        self.core
    }

    /// The most leaves that a table can have.
    pub fn leaves(&self) -> u32
        ensures { result ≡ self.now.leaves }
    {
        self.leaves
    }

    /// The ends of the free list.
    pub fn free(&self) -> &Ends
        ensures { result.now ≡ self.now.free }
    {
        &self.free
    }

    /// The VM slots, in the order of their numbers: 16 (in version 2, 64).
    pub fn slots(&self) -> &[SlotDump]
        ensures value { result.now ≡ self.now.slots }
        ensures few { length self.now.slots ≤ slot_limit }
        ensures kept { IsDump self.now }
    {
        self.slots.as_slice()
    }

    /// The frames, in the order of their numbers: at most 8,192 (in version 2, 65,536).
    pub fn frames(&self) -> &[FrameLine]
        ensures value { result.now ≡ self.now.frames }
        ensures few { length self.now.frames ≤ frame_limit }
        ensures kept { IsDump self.now }
    {
        self.frames.as_slice()
    }
}
