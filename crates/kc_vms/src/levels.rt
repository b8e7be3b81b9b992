//! The root and the leaves as they are in memory.
ghost use Rattle.std.specs.Prelude.{◌≡◌, ℕ, ◌<◌, ◌≤◌, IfOk, length, slice_index_or, vec_capacity, None};
ghost use Rattle.kc_types.specs.Limits.{leaf_limit};
ghost use Rattle.kc_vms.specs.Stage2.{new_table};
ghost use Rattle.kc_vms.specs.TwoLevels.{IsLevels, table_of, Led};

use crate::leaf::{LeafNo, MaybeLeaf};
use crate::pool::TablePool;
use kc_types::Memory;
use std::alloc::Global;

/// The root, as long as its last slot that has a leaf, the root slots in the order in which they took leaves, and the pool.
#[derive(Drop)]
pub struct Levels {
    pub root: Vec<MaybeLeaf>,
    /// How many root slots there can be. There is room for all.
    pub roots: u32,
    pub leaves: Vec<u32>,
    pub pool: TablePool,
}

impl Levels {
    /// Makes levels with room for this many root slots and leaves, none of them taken; `Memory` if memory runs out.
    pub fn try_new(alloc: Global, roots: u32, leaves: u32) -> Result<Levels, Memory>
        requires roots { roots ≤ leaf_limit }
        requires leaves { leaves ≤ leaf_limit }
        ensures kept { IfOk result IsLevels }
        ensures value { IfOk result (λ levels. table_of levels ≡ new_table roots leaves) }
    {
        Ok(Levels {
            root: Vec::with_capacity(alloc, roots as usize)?,
            roots,
            leaves: Vec::with_capacity(alloc, leaves as usize)?,
            pool: TablePool::try_new(alloc, leaves)?,
        })
    }

    /// The leaf of a root slot.
    pub fn leaf_at(&self, slot: usize) -> Option<LeafNo>
        requires kept { IsLevels self.now }
        ensures { result ≡ slice_index_or self.now.root.items slot None }
    {
        self.root.get(slot)?.get()
    }

    /// Returns the leaf of a root slot, which takes one if it has none; `None` if no leaf is left.
    pub fn leaf_for(&mut self, slot: usize) -> Option<LeafNo>
        requires kept { IsLevels self.old }
        requires within { slot < self.old.roots }
        ensures kept { IsLevels self.new }
        ensures leaf { Led self.old self.new slot result }
    {
        if let Some(leaf) = self.leaf_at(slot) {
            return Some(leaf);
        }
        let leaf = self.pool.take_leaf()?;
        widen(&mut self.root, slot);
        self.root[slot] = MaybeLeaf::of(Some(leaf));
        self.leaves.push(slot as u32).unwrap();
        Some(leaf)
    }

    /// Returns all leaves to the pool, so that nothing is mapped.
    pub fn clear(&mut self)
        requires { IsLevels self.old }
        ensures kept { IsLevels self.new }
        ensures value { table_of self.new ≡ new_table self.old.roots (table_of self.old).capacity }
    {
        self.root.clear();
        self.leaves.clear();
        self.pool.reset();
    }
}

/// Makes a root so long that it has this slot. The room is there.
fn widen(root: &mut Vec<MaybeLeaf>, slot: usize)
    requires { slot < vec_capacity root.old }
    ensures same { (s : ℕ) → slice_index_or root.new.items s None ≡ slice_index_or root.old.items s None }
    ensures here { slot < length root.new.items }
    ensures few { (most : ℕ) → slot < most → length root.old.items ≤ most → length root.new.items ≤ most }
    ensures room { vec_capacity root.old ≤ vec_capacity root.new }
{
    if root.len() <= slot {
        root.resize(slot + 1, MaybeLeaf::of(None)).unwrap();
    }
}
