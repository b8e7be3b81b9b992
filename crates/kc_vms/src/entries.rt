//! All that a table maps, leaf by leaf.
ghost use Rattle.std.specs.Prelude.{◌≡◌, ◌+◌, ◌*◌, ◌<◌, Some, None, OnOk, IfOk, slice_index_or};
ghost use Rattle.kc_types.specs.Limits.{gfn_limit, leaf_entries, leaf_limit};
ghost use Rattle.kc_vms.specs.TwoLevels.{IsLevels, entries_below};

use crate::leaf::LeafNo;
use crate::levels::Levels;
use kc_types::{FrameNo, Gfn, LEAF_ENTRIES, Memory};
use std::alloc::Global;

/// Appends the entries of the leaf of a root slot to those of the root slots before it.
fn push_leaf(
    levels: &Levels,
    slot: usize,
    leaf: LeafNo,
    entries: &mut Vec<(Gfn, FrameNo)>,
) -> Result<(), Memory>
    requires kept { IsLevels levels.now }
    requires within { slot < leaf_limit }
    requires led { slice_index_or levels.now.root.items slot None ≡ Some leaf }
    requires so_far { entries.old.items ≡ entries_below levels.now (slot * leaf_entries) }
    ensures { OnOk result (entries.new.items ≡ entries_below levels.now (slot * leaf_entries + leaf_entries)) }
{
    for at in 0..LEAF_ENTRIES {
        if let Some(frame) = levels.pool.entry(leaf, at) {
            let gfn = Gfn::try_new((slot * LEAF_ENTRIES + at) as u32).unwrap();
            entries.push((gfn, frame))?;
        }
    }
    Ok(())
}

/// Lists all entries, by ascending guest frame.
pub fn entries_of(alloc: Global, levels: &Levels) -> Result<Vec<(Gfn, FrameNo)>, Memory>
    requires { IsLevels levels.now }
    // No clause can rule out that memory runs out: a test lists entries.
    ensures { IfOk result (λ entries. entries.items ≡ entries_below levels.now gfn_limit) }
{
    let mut entries = Vec::new(alloc);
    for slot in 0..levels.root.len() {
        if let Some(leaf) = levels.leaf_at(slot) {
            push_leaf(levels, slot, leaf, &mut entries)?;
        }
    }
    Ok(entries)
}
