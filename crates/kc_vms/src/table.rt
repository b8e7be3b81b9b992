//! The two levels, seen as a finite map.
ghost use Rattle.std.specs.Prelude.{◌≡◌, ◌/◌, ◌<◌, ◌≤◌, ◌∷◌, ◌++◌, [], false, length, IfOk, OnOk, OnErr};
ghost use Rattle.std.specs.FinMap as finite;
ghost use Rattle.kc_types.specs.Configuration.{roots_of};
ghost use Rattle.kc_types.specs.Limits.{leaf_entries, leaf_limit};
ghost use Rattle.kc_types.specs.Refusals.{Answers};
ghost use Rattle.kc_vms.specs.Stage2.{Table, AreMappings, new_table, with_mapping, fits, has_slot};
ghost use Rattle.kc_vms.specs.Faults.{map_fault};

use crate::entries::entries_of;
use crate::levels::Levels;
use kc_types::{FrameNo, Gfn, LEAF_ENTRIES, Memory, Version};
use std::alloc::Global;
use std::marker::Model;

/// Why a guest frame cannot be mapped. The table is then left as it was.
#[derive(Clone, Copy, Debug, PartialEq, Eq)]
pub enum MapFault {
    Mapped,
    TablesFull,
}

/// A VM's table, from guest frames to frames, and the root slots that have leaves, in the order in which they took
/// them. Once made, it takes no more memory.
#[derive(Drop)]
pub struct Stage2 {
    levels: Levels,
}

impl Model for Stage2 {
    ghost use Rattle.kc_vms.specs.Stage2.{Table, table_code};

    ghost Value = { Table };

    ghost coded = { table_code };

    ghost use Rattle.kc_vms.specs.TwoLevels.{IsLevels, table_of};

    ghost view = { λ t. table_of t.levels };

    ghost invariant = { λ t. IsLevels t.levels };
}

impl Stage2 {
    /// Makes an empty table for the guest frames of a version, with room for this many leaves of 512 entries; `Memory` if
    /// memory runs out.
    pub fn try_new(alloc: Global, version: Version, leaves: u32) -> Result<Stage2, Memory>
        requires { leaves ≤ leaf_limit }
        ensures { IfOk result (λ table. table ≡ new_table (roots_of version) leaves) }
    {
        Ok(Stage2 {
            levels: Levels::try_new(alloc, version.roots(), leaves)?,
        })
    }

    /// Makes a table for the guest frames of a version, with room for this many leaves, in which these root slots have
    /// taken leaves in this order and these guest frames, ascending, are mapped; `Memory` if memory runs out.
    pub fn with_entries(
        alloc: Global,
        version: Version,
        leaves: u32,
        roots: &[u32],
        entries: &[(Gfn, FrameNo)],
    ) -> Result<Stage2, Memory>
        requires room { leaves ≤ leaf_limit }
        requires mappings { AreMappings (roots_of version) leaves roots.now entries.now }
        ensures leaves { IfOk result (λ table. table.leaves ≡ roots.now) }
        ensures entries { IfOk result (λ table. finite.entries table.mapped ≡ entries.now) }
        ensures roots { IfOk result (λ table. table.roots ≡ roots_of version) }
        ensures capacity { IfOk result (λ table. table.capacity ≡ leaves) }
    {
        let mut table = Stage2::try_new(alloc, version, leaves)?;
        table.take_leaves(roots);
        table.map_all(entries);
        Ok(table)
    }

    /// Takes a leaf for a root slot that has none.
    fn take_leaf(&mut self, root: u32)
        requires low { root < self.old.roots }
        requires none { has_slot self.old.leaves root ≡ false }
        requires room { length self.old.leaves < self.old.capacity }
        ensures { self.new ≡ record self.old { leaves = self.old.leaves ++ root ∷ [] } }
    {
        let _leaf = self.levels.leaf_for(root as usize);
    }

    /// Takes leaves for root slots, in this order.
    fn take_leaves(&mut self, roots: &[u32])
        requires none { self.old.leaves ≡ [] }
        requires roots { AreMappings self.old.roots self.old.capacity roots.now [] }
        ensures { self.new ≡ record self.old { leaves = roots.now } }
    {
        for root in roots {
            self.take_leaf(*root);
        }
    }

    /// Maps these guest frames, whose root slots have leaves, in an empty table.
    fn map_all(&mut self, entries: &[(Gfn, FrameNo)])
        requires empty { self.old.mapped ≡ finite.empty }
        requires mappings { AreMappings self.old.roots self.old.capacity self.old.leaves entries.now }
        ensures entries { finite.entries self.new.mapped ≡ entries.now }
        ensures leaves { self.new.leaves ≡ self.old.leaves }
        ensures roots { self.new.roots ≡ self.old.roots }
        ensures capacity { self.new.capacity ≡ self.old.capacity }
    {
        for entry in entries {
            self.map(entry.0, entry.1).unwrap();
        }
    }

    /// The frame at a guest frame.
    pub fn get(&self, gfn: Gfn) -> Option<FrameNo>
        ensures { result ≡ finite.get self.now.mapped gfn }
    {
        let number = gfn.number() as usize;
        let leaf = self.levels.leaf_at(number / LEAF_ENTRIES)?;
        self.levels.pool.entry(leaf, number % LEAF_ENTRIES)
    }

    /// The root slots that have leaves, in the order in which they took them.
    pub fn leaves(&self) -> &[u32]
        ensures { result.now ≡ self.now.leaves }
    {
        self.levels.leaves.as_slice()
    }

    /// Lists all mapped guest frames with their frames, by ascending guest frame; `Memory` if memory runs out.
    /// Only the leaves that are taken are read.
    pub fn entries(&self, alloc: Global) -> Result<Vec<(Gfn, FrameNo)>, Memory>
        // No clause can rule out that memory runs out: a test lists entries.
        ensures { IfOk result (λ entries. entries.items ≡ finite.entries self.now.mapped) }
    {
        entries_of(alloc, &self.levels)
    }

    /// Whether the guest frame's root slot has a leaf or can take one.
    pub fn fits(&self, gfn: Gfn) -> bool
        ensures { result ≡ fits self.now gfn }
    {
        let slot = gfn.number() as usize / LEAF_ENTRIES;
        self.levels.leaf_at(slot).is_some()
            || self.levels.leaves.len() < self.levels.pool.capacity() as usize
    }

    /// Maps a guest frame of the version. `Mapped` if it is mapped already; otherwise `TablesFull` if its root slot has
    /// no leaf and the pool has none left.
    pub fn map(&mut self, gfn: Gfn, frame: FrameNo) -> Result<(), MapFault>
        requires { gfn / leaf_entries < self.old.roots }
        ensures answer { Answers result (map_fault self.old gfn) }
        ensures ok { OnOk result (self.new ≡ with_mapping self.old gfn frame) }
        ensures err { OnErr result (self.new ≡ self.old) }
    {
        if self.get(gfn).is_some() {
            return Err(MapFault::Mapped);
        }
        let number = gfn.number() as usize;
        let Some(leaf) = self.levels.leaf_for(number / LEAF_ENTRIES) else {
            return Err(MapFault::TablesFull);
        };
        let at = number % LEAF_ENTRIES;
        self.levels.pool.set_entry(leaf, at, Some(frame));
        Ok(())
    }

    /// Unmaps a guest frame, and returns the frame that was there. Its leaf stays taken.
    pub fn unmap(&mut self, gfn: Gfn) -> Option<FrameNo>
        ensures value { result ≡ finite.get self.old.mapped gfn }
        ensures table { self.new ≡ record self.old { mapped = finite.remove self.old.mapped gfn } }
    {
        let number = gfn.number() as usize;
        let leaf = self.levels.leaf_at(number / LEAF_ENTRIES)?;
        let at = number % LEAF_ENTRIES;
        let frame = self.levels.pool.entry(leaf, at);
        self.levels.pool.set_entry(leaf, at, None);
        frame
    }

    /// Returns all leaves to the pool.
    pub fn clear(&mut self)
        ensures { self.new ≡ new_table self.old.roots self.old.capacity }
    {
        self.levels.clear();
    }
}
