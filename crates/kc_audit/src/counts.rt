//! How many frames each list should hold.
ghost use Rattle.std.specs.Prelude.{◌≡◌, ◌<◌, ◌≤◌, ◌+◌, length, IfOk, IfSome};
ghost use Rattle.kc_types.specs.Limits.{frame_limit, slot_limit};
ghost use Rattle.kc_audit.specs.Counts.{list_place, AreOwnerCounts};

use kc_dump::{Dump, FrameLine};
use kc_types::{Memory, Owner, SLOT_LIMIT};
use std::alloc::Global;

/// The place of an owner's list: 0 for the free list, a slot's number plus one for its list; `None` for the core and
/// the host, which have none.
fn place_of(owner: &Owner) -> Option<usize>
    ensures value { result ≡ list_place owner.now }
    ensures low { IfSome result (λ place. place ≤ slot_limit) }
{
    match owner {
        Owner::Core | Owner::Host => None,
        Owner::Free => Some(0),
        Owner::Vm(vm) => Some(vm.index() + 1),
    }
}

/// Counts the frames of each owner that has a list, in one pass.
fn count(lines: &[FrameLine], counts: &mut [u32])
    requires few { length lines.now ≤ frame_limit }
    requires none { AreOwnerCounts lines.now 0 (slot_limit + 1) counts.old }
    ensures { AreOwnerCounts lines.now (length lines.now) (slot_limit + 1) counts.new }
{
    for i in 0..lines.len() {
        if let Some(place) = place_of(&lines[i].owner) {
            counts[place] += 1;
        }
    }
}

/// Counts the frames that each list should hold.
pub fn counts(alloc: Global, dump: &Dump) -> Result<Vec<u32>, Memory>
    // No clause can rule out that memory runs out: a test audits dumps.
    ensures { IfOk result (λ counts. AreOwnerCounts dump.now.frames (length dump.now.frames) (slot_limit + 1) counts.items) }
{
    let mut counts = vec![in alloc; 0u32; SLOT_LIMIT as usize + 1]?;
    count(dump.frames(), counts.as_mut_slice());
    Ok(counts)
}
