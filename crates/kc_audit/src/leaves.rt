//! What is wrong with a slot alone.
ghost use Rattle.std.specs.Prelude.{◌≡◌, ◌||◌, false, true};
ghost use Rattle.kc_model.specs.Resources.{is_in};
ghost use Rattle.kc_audit.specs.Findings.{wrong_leaves, wrong_empty, has_double, all_rooted};

use kc_dump::SlotDump;
use kc_types::{FrameNo, Gfn, LEAF_ENTRIES, Phase};

fn is_in(numbers: &[u32], number: u32) -> bool
    ensures { result ≡ is_in numbers.now number }
{
    for i in 0..numbers.len() {
        if numbers[i] == number {
            return true;
        }
    }
    false
}

/// Whether a root slot is there twice.
fn has_double(leaves: &[u32]) -> bool
    ensures { result ≡ has_double leaves.now }
{
    for i in 0..leaves.len() {
        if is_in(&leaves[i + 1..], leaves[i]) {
            return true;
        }
    }
    false
}

/// Whether each mapped guest frame's root slot has a leaf.
fn all_rooted(leaves: &[u32], entries: &[(Gfn, FrameNo)]) -> bool
    ensures { result ≡ all_rooted leaves.now entries.now }
{
    for i in 0..entries.len() {
        if !is_in(leaves, entries[i].0.number() / LEAF_ENTRIES as u32) {
            return false;
        }
    }
    true
}

/// Whether a root slot is there twice, there are more than the limit, or that of a mapped guest frame is missing. If
/// there are not too many, looking each up takes a bounded time.
pub fn wrong_leaves(limit: u32, slot: &SlotDump) -> bool
    ensures { result ≡ wrong_leaves limit slot.now }
{
    slot.leaves().len() > limit as usize
        || has_double(slot.leaves())
        || !all_rooted(slot.leaves(), slot.entries())
}

/// Whether the slot is empty, and its list, leaves or entries are not.
pub fn wrong_empty(slot: &SlotDump) -> bool
    ensures { result ≡ wrong_empty slot.now }
{
    let list = slot.list();
    slot.phase() == Phase::Empty
        && (list.head.is_some()
            || list.tail.is_some()
            || list.count != 0
            || !slot.leaves().is_empty()
            || !slot.entries().is_empty())
}
