//! The findings, one kind after another.
ghost use Rattle.std.specs.Prelude.{◌≡◌, ◌++◌, ◌+◌, ◌≤◌, ◌<◌, length, IfOk, OnOk};
ghost use Rattle.kc_types.specs.Limits.{frame_limit, slot_limit};
ghost use Rattle.kc_audit.specs.Findings.{frames_named, lists_named, entries_named, all_entries_named, leaves_named, empty_named, list_name, findings_by, verdicts_of};

use crate::Finding;
use crate::leaves::{wrong_empty, wrong_leaves};
use crate::marks::says;
use crate::verdict::{FrameKind, FrameVerdict};
use kc_dump::{Dump, FrameLine, SlotDump};
use kc_types::{FrameNo, Gfn, Memory, VmId};
use std::alloc::Global;

/// Names the frames whose verdicts show a kind.
fn push_frames(
    found: &mut Vec<Finding>,
    kind: FrameKind,
    verdicts: &[FrameVerdict],
) -> Result<(), Memory>
    requires { length verdicts.now ≤ frame_limit }
    ensures { OnOk result (found.new.items ≡ found.old.items ++ frames_named kind 0 verdicts.now) }
{
    for i in 0..verdicts.len() {
        if kind.shows(&verdicts[i]) {
            let frame = FrameNo::try_new(i as u32).unwrap();
            found.push(kind.finding(frame))?;
        }
    }
    Ok(())
}

/// The finding that names a list: at place 0 the free list, after it those of the slots.
fn list_name(place: usize) -> Finding
    requires { place ≤ slot_limit }
    ensures { result ≡ list_name place }
{
    if place == 0 {
        Finding::FreeChain
    } else {
        Finding::Chain(VmId::try_new(place as u32 - 1).unwrap())
    }
}

/// Names the lists that are not good.
fn push_lists(found: &mut Vec<Finding>, lists: &[bool]) -> Result<(), Memory>
    requires { length lists.now ≤ slot_limit + 1 }
    ensures { OnOk result (found.new.items ≡ found.old.items ++ lists_named 0 lists.now) }
{
    for i in 0..lists.len() {
        if !lists[i] {
            found.push(list_name(i))?;
        }
    }
    Ok(())
}

/// Names the entries of a slot with which their frames do not agree.
fn push_entries(
    found: &mut Vec<Finding>,
    lines: &[FrameLine],
    vm: VmId,
    entries: &[(Gfn, FrameNo)],
) -> Result<(), Memory>
    ensures { OnOk result (found.new.items ≡ found.old.items ++ entries_named lines.now vm entries.now) }
{
    for i in 0..entries.len() {
        let (gfn, frame) = entries[i];
        if !says(lines, vm, gfn, frame) {
            found.push(Finding::Entry(vm, gfn))?;
        }
    }
    Ok(())
}

/// Names the entries of all slots with which their frames do not agree.
fn push_all_entries(
    found: &mut Vec<Finding>,
    lines: &[FrameLine],
    slots: &[SlotDump],
) -> Result<(), Memory>
    requires { length slots.now ≤ slot_limit }
    ensures { OnOk result (found.new.items ≡ found.old.items ++ all_entries_named lines.now 0 slots.now) }
{
    for i in 0..slots.len() {
        let vm = VmId::try_new(i as u32).unwrap();
        push_entries(found, lines, vm, slots[i].entries())?;
    }
    Ok(())
}

/// Names the slots whose root slots with leaves are wrong.
fn push_leaves(found: &mut Vec<Finding>, limit: u32, slots: &[SlotDump]) -> Result<(), Memory>
    requires { length slots.now ≤ slot_limit }
    ensures { OnOk result (found.new.items ≡ found.old.items ++ leaves_named limit 0 slots.now) }
{
    for i in 0..slots.len() {
        if wrong_leaves(limit, &slots[i]) {
            found.push(Finding::Leaves(VmId::try_new(i as u32).unwrap()))?;
        }
    }
    Ok(())
}

/// Names the empty slots that have a list, leaves or entries.
fn push_empty(found: &mut Vec<Finding>, slots: &[SlotDump]) -> Result<(), Memory>
    requires { length slots.now ≤ slot_limit }
    ensures { OnOk result (found.new.items ≡ found.old.items ++ empty_named 0 slots.now) }
{
    for i in 0..slots.len() {
        if wrong_empty(&slots[i]) {
            found.push(Finding::Empty(VmId::try_new(i as u32).unwrap()))?;
        }
    }
    Ok(())
}

/// Lists the findings of a dump, from the verdicts on its frames and lists.
pub fn findings(
    alloc: Global,
    dump: &Dump,
    verdicts: &[FrameVerdict],
    lists: &[bool],
) -> Result<Vec<Finding>, Memory>
    requires verdicts { verdicts.now ≡ verdicts_of dump.now }
    requires few { length verdicts.now ≤ frame_limit }
    requires lists { length lists.now ≤ slot_limit + 1 }
    ensures { IfOk result (λ found. found.items ≡ findings_by dump.now lists.now) }
{
    let mut found = Vec::new(alloc);
    push_frames(&mut found, FrameKind::CoreOwner, verdicts)?;
    push_frames(&mut found, FrameKind::Linked, verdicts)?;
    push_lists(&mut found, lists)?;
    push_all_entries(&mut found, dump.frames(), dump.slots())?;
    push_frames(&mut found, FrameKind::Gfn, verdicts)?;
    push_frames(&mut found, FrameKind::Share, verdicts)?;
    push_frames(&mut found, FrameKind::Present, verdicts)?;
    push_leaves(&mut found, dump.leaves(), dump.slots())?;
    push_empty(&mut found, dump.slots())?;
    push_frames(&mut found, FrameKind::Bytes, verdicts)?;
    Ok(found)
}
