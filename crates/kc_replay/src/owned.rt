//! Which frames each slot and the free list own at the start of a trace.
ghost use Rattle.std.specs.Prelude.{◌≡◌, ◌+◌, ◌<◌, IfOk};
ghost use Rattle.kc_types.specs.Configuration.{slot_count};
ghost use Rattle.kc_footprints.specs.Owned.{IsOwned, principal_of};
ghost use Rattle.kc_footprints.specs.Planner.{AreBelow, HaveFramesBelow, HasOneOwnerEach};

use kc_core::KCore;
use kc_types::{Memory, Owner};
use std::alloc::Global;

/// The number of an owner: a slot's is its own, that of the free list comes after them, and others have none.
fn principal_of(owner: Owner, slots: usize) -> Option<usize>
    ensures { result ≡ principal_of slots owner }
{
    match owner {
        Owner::Vm(vm) if vm.index() < slots => Some(vm.index()),
        Owner::Free => Some(slots),
        _ => None,
    }
}

/// Lists the frames of the slots and of the free list, each with the number of its owner.
pub(crate) fn owned_frames(alloc: Global, core: &KCore) -> Result<Vec<(usize, u32)>, Memory>
    ensures owned { IfOk result (λ pairs. IsOwned core.now.state pairs.items) }
    ensures one { IfOk result (λ pairs. HasOneOwnerEach pairs.items) }
    ensures principals { IfOk result (λ pairs. AreBelow (slot_count core.now.state.config + 1) pairs.items) }
    ensures frames { IfOk result (λ pairs. HaveFramesBelow core.now.state.config.frames pairs.items) }
{
    let slots = core.config().slots() as usize;
    let mut pairs = Vec::new(alloc);
    for frame in 0..core.config().frames() {
        let Some(record) = core.page_record(frame) else {
            unreachable!()
        };
        if let Some(principal) = principal_of(record.owner.get(), slots) {
            pairs.push((principal, frame))?;
        }
    }
    Ok(pairs)
}
