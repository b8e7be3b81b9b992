//! The pool of a VM's leaf tables.
ghost use Rattle.std.specs.Prelude.{◌≡◌, ◌+◌, ◌*◌, ◌<◌, ◌≤◌, Option, Some, None, IfOk, MatchOption};
ghost use Rattle.kc_types.specs.Limits.{leaf_entries, leaf_limit};
ghost use Rattle.kc_vms.specs.TablePool.{Pool, IsPool, new_pool, entry_at, with_cell, with_taken_leaf};

use crate::leaf::LeafNo;
use kc_types::{FrameNo, LEAF_ENTRIES, MaybeFrame, Memory};
use std::alloc::Global;
use std::marker::Model;

/// Leaf tables of 512 entries each. They are handed out in order, and come back only all together.
#[derive(Drop)]
pub struct TablePool {
    /// Those of the leaves that are taken, one leaf after another. There is room for all, of which nothing is touched
    /// before it is taken.
    entries: Vec<MaybeFrame>,
    taken: u32,
    capacity: u32,
}

impl Model for TablePool {
    ghost use Rattle.std.specs.Prelude.{◌*◌, ◌≤◌, vec_capacity};
    ghost use Rattle.kc_types.specs.Limits.{leaf_entries};
    ghost use Rattle.kc_vms.specs.TablePool.{Pool, IsPool};

    ghost Value = { Pool };

    ghost view = { λ p. record { entries = p.entries.items; taken = p.taken; capacity = p.capacity } };

    ghost invariant = { λ p. IsPool (record { entries = p.entries.items; taken = p.taken; capacity = p.capacity })
        × (p.capacity * leaf_entries ≤ vec_capacity p.entries) };
}

impl TablePool {
    /// Makes a pool of this many leaves, none of them taken; `Memory` if memory runs out. Nothing else takes
    /// memory.
    pub fn try_new(alloc: Global, leaves: u32) -> Result<TablePool, Memory>
        requires { leaves ≤ leaf_limit }
        ensures value { IfOk result (λ pool. pool ≡ new_pool leaves) }
        ensures kept { IfOk result IsPool }
    {
        Ok(TablePool {
            entries: Vec::with_capacity(alloc, leaves as usize * LEAF_ENTRIES)?,
            taken: 0,
            capacity: leaves,
        })
    }

    /// The number of leaves, taken or not.
    pub fn capacity(&self) -> u32
        ensures value { result ≡ self.now.capacity }
        ensures kept { IsPool self.now }
    {
        self.capacity
    }

    /// Takes the next leaf, which has no entries.
    pub fn take_leaf(&mut self) -> Option<LeafNo>
        ensures leaf { MatchOption result ((self.old.taken ≡ self.old.capacity) × (self.new ≡ self.old)) (λ leaf. (leaf ≡ self.old.taken) × (self.old.taken < self.old.capacity) × (self.new ≡ with_taken_leaf self.old)) }
        ensures kept { IsPool self.new }
    {
        if self.taken == self.capacity {
            return None;
        }
        let leaf = LeafNo::of(self.taken);
        self.taken += 1;
        self.entries
            .resize(self.taken as usize * LEAF_ENTRIES, MaybeFrame::of(None))
            .unwrap();
        Some(leaf)
    }

    /// The entry at a place of a leaf that is taken.
    pub fn entry(&self, leaf: LeafNo, at: usize) -> Option<FrameNo>
        requires taken { leaf < self.now.taken }
        requires within { at < leaf_entries }
        ensures { result ≡ entry_at self.now leaf at }
    {
        self.entries[leaf.index() * LEAF_ENTRIES + at].get()
    }

    /// Sets the entry at a place of a leaf that is taken.
    pub fn set_entry(&mut self, leaf: LeafNo, at: usize, frame: Option<FrameNo>)
        requires taken { leaf < self.old.taken }
        requires within { at < leaf_entries }
        ensures value { self.new ≡ with_cell self.old leaf at frame }
        ensures kept { IsPool self.new }
    {
        self.entries[leaf.index() * LEAF_ENTRIES + at] = MaybeFrame::of(frame);
    }

    /// Takes all leaves back.
    pub fn reset(&mut self)
        ensures value { self.new ≡ new_pool self.old.capacity }
        ensures kept { IsPool self.new }
    {
        self.entries.clear();
        self.taken = 0;
    }
}
