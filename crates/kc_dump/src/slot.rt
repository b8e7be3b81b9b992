//! What a dump says about one VM slot.
ghost use Rattle.std.specs.Prelude.{◌≡◌, ◌++◌, ◌∷◌, [], OnOk};

use kc_types::{Ends, FrameNo, Gfn, Memory, Phase};
use std::marker::Model;

/// A VM slot: its phase, the ends of the list of its frames, the root slots of its table that have leaves, in the
/// order in which they took them, and its mapped guest frames with their frames, ascending.
#[derive(Debug, Drop)]
pub struct SlotDump {
    phase: Phase,
    list: Ends,
    leaves: Vec<u32>,
    entries: Vec<(Gfn, FrameNo)>,
}

impl Model for SlotDump {
    ghost use Rattle.kc_dump.specs.Dump.{SlotDump as Value_of_slot};

    ghost Value = { Value_of_slot };

    ghost view = { λ s. record { phase = s.phase; list = s.list; leaves = s.leaves.items; entries = s.entries.items } };
}

impl SlotDump {
    ghost use Rattle.kc_dump.specs.Dump.{SlotDump as Value_of_slot};

    /// Makes a slot of these parts.
    pub fn new(phase: Phase, list: Ends, leaves: Vec<u32>, entries: Vec<(Gfn, FrameNo)>) -> SlotDump
        ensures { result ≡ record { phase = phase; list = list; leaves = leaves.items; entries = entries.items } }
    {
        SlotDump {
            phase,
            list,
            leaves,
            entries,
        }
    }

    /// The phase.
    pub fn phase(&self) -> Phase
        ensures { result ≡ self.now.phase }
    {
        self.phase
    }

    /// The ends of the list of its frames.
    pub fn list(&self) -> &Ends
        ensures { result.now ≡ self.now.list }
    {
        &self.list
    }

    /// The root slots that have leaves, 0 to 511, in the order in which they took them.
    pub fn leaves(&self) -> &[u32]
        ensures { result.now ≡ self.now.leaves }
    {
        self.leaves.as_slice()
    }

    /// The mapped guest frames with their frames, ascending.
    pub fn entries(&self) -> &[(Gfn, FrameNo)]
        ensures { result.now ≡ self.now.entries }
    {
        self.entries.as_slice()
    }

    /// Adds a root slot that has a leaf.
    pub fn push_leaf(&mut self, root: u32) -> Result<(), Memory>
        ensures { OnOk result (self.new ≡ record self.old { leaves = self.old.leaves ++ root ∷ [] }) }
    {
        self.leaves.push(root)?;
        Ok(())
    }

    /// Adds a mapped guest frame with its frame.
    pub fn push_entry(&mut self, gfn: Gfn, frame: FrameNo) -> Result<(), Memory>
        ensures { OnOk result (self.new ≡ record self.old { entries = self.old.entries ++ (gfn, frame) ∷ [] }) }
    {
        self.entries.push((gfn, frame))?;
        Ok(())
    }
}
