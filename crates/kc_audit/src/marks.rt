//! Which frames the tables map where the frames' records say.
ghost use Rattle.std.specs.Prelude.{◌≡◌, ℕ, ◌<◌, ◌||◌, true, false, length, IsTrue, IfOk, slice_index_or};
ghost use Rattle.kc_types.specs.declared.owner.Owner.TheVariants.{Vm};
ghost use Rattle.kc_model.specs.Lawful.{same_owner};
ghost use Rattle.kc_dump.specs.Dump.{line_owner};
ghost use Rattle.kc_audit.specs.Findings.{says};
ghost use Rattle.kc_audit.specs.Marks.{has_entry, AreMarks};

use kc_dump::{Dump, FrameLine};
use kc_types::{FrameNo, Gfn, Memory, Owner, VmId};
use std::alloc::Global;

/// Whether a frame is the slot's and has this guest frame.
pub fn says(lines: &[FrameLine], vm: VmId, gfn: Gfn, frame: FrameNo) -> bool
    ensures value { result ≡ says lines.now vm gfn frame }
    ensures within { IsTrue result → frame < length lines.now }
{
    match lines.get(frame.index()) {
        Some(line) => line.owner == Owner::Vm(vm) && line.gfn == Some(gfn),
        None => false,
    }
}

/// Marks the frames of a slot that its table maps where their records say.
fn mark_slot(lines: &[FrameLine], vm: VmId, entries: &[(Gfn, FrameNo)], marks: &mut [bool])
    requires { length marks.old ≡ length lines.now }
    ensures count { length marks.new ≡ length marks.old }
    ensures mine { (f g : ℕ) → says lines.now vm g f ≡ true → slice_index_or marks.new f false ≡ (slice_index_or marks.old f false || has_entry entries.now g f) }
    ensures others { (f : ℕ) → same_owner (line_owner lines.now f) (Vm vm) ≡ false → slice_index_or marks.new f false ≡ slice_index_or marks.old f false }
{
    for i in 0..entries.len() {
        let (gfn, frame) = entries[i];
        if says(lines, vm, gfn, frame) {
            marks[frame.index()] = true;
        }
    }
}

/// Marks the frames of all slots that their tables map where their records say.
fn mark_slots(dump: &Dump, marks: &mut [bool])
    requires count { length marks.old ≡ length dump.now.frames }
    requires none { (f : ℕ) → slice_index_or marks.old f false ≡ false }
    ensures count { length marks.new ≡ length marks.old }
    ensures marks { AreMarks dump.now marks.new }
{
    let slots = dump.slots();
    for i in 0..slots.len() {
        let vm = VmId::try_new(i as u32).unwrap();
        mark_slot(dump.frames(), vm, slots[i].entries(), marks);
    }
}

/// Marks the frames of VMs that their VM's table maps where their record says, in time linear in frames and entries.
pub fn marks(alloc: Global, dump: &Dump) -> Result<Vec<bool>, Memory>
    // No clause can rule out that memory runs out: a test audits dumps.
    ensures { IfOk result (λ marks. AreMarks dump.now marks.items) }
{
    let mut marks = vec![in alloc; false; dump.frames().len()]?;
    mark_slots(dump, marks.as_mut_slice());
    Ok(marks)
}
