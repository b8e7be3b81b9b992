//! Which lists are spelled by their ends and links.
ghost use Rattle.std.specs.Prelude.{◌≡◌, ◌<◌, ◌≤◌, ◌+◌, ◌↔◌, length, IsTrue};
ghost use Rattle.kc_types.specs.Limits.{slot_limit};
ghost use Rattle.kc_dump.specs.Lists.{HasList};
ghost use Rattle.kc_audit.specs.Counts.{AreOwnerCounts};
ghost use Rattle.kc_audit.specs.Findings.{list_owner, list_ends, AreListsFrom};

use crate::chain::has_list;
use kc_dump::Dump;
use kc_types::{Owner, VmId};

/// Whether ends and links spell a list: at place 0 the free list, after it those of the slots.
fn judge_list(dump: &Dump, counts: &[u32], place: usize) -> bool
    requires place { place < length dump.now.slots + 1 }
    requires counts { AreOwnerCounts dump.now.frames (length dump.now.frames) (slot_limit + 1) counts.now }
    ensures { IsTrue result ↔ HasList dump.now.frames (list_owner place) (list_ends dump.now place) }
{
    if place == 0 {
        return has_list(dump.frames(), &Owner::Free, dump.free(), counts[0]);
    }
    let slot = &dump.slots()[place - 1];
    let vm = VmId::try_new(place as u32 - 1).unwrap();
    has_list(dump.frames(), &Owner::Vm(vm), slot.list(), counts[place])
}

/// Judges each list from a place on: whether ends and links spell it.
pub fn judge_lists(dump: &Dump, counts: &[u32], start: usize, out: &mut [bool])
    requires within { start + length out.old ≤ length dump.now.slots + 1 }
    requires few { length dump.now.slots ≤ slot_limit }
    requires counts { AreOwnerCounts dump.now.frames (length dump.now.frames) (slot_limit + 1) counts.now }
    ensures count { length out.new ≡ length out.old }
    ensures each { AreListsFrom dump.now start out.new }
{
    for i in 0..out.len() {
        out[i] = judge_list(dump, counts, start + i);
    }
}
