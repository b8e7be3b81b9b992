//! Which notes are reported, and what of them in a report of one VM.
ghost use Rattle.std.specs.Prelude.{◌≡◌, filter, map};
ghost use Rattle.kc_custody.specs.Chosen.{is_slot, is_frame_of, is_denied_at, is_access_of, is_chosen, own_slot, is_other_vm, own_frame, foreign_frame, own_denied, own_note, chosen};

use crate::selected::is_selected;
use kc_remarks::{Access, Denied, NamedFrame, Note, Remarks, is_owned_by};
use kc_types::Owner;

/// Whether it is this slot that is named.
fn is_slot(slot: Option<u32>, vm: u32) -> bool
    ensures { result ≡ is_slot vm slot }
{
    match slot {
        Some(slot) => slot == vm,
        None => false,
    }
}

/// Whether it is a frame of this slot's VM that is named.
fn is_frame_of(named: &Option<NamedFrame>, vm: u32) -> bool
    ensures { result ≡ is_frame_of vm named.now }
{
    match named {
        Some(named) => is_owned_by(named.owner, vm),
        None => false,
    }
}

/// Whether the call names the slot that is given, or a frame of its VM.
fn is_denied_at(denied: &Denied, vm: Option<u32>) -> bool
    ensures { result ≡ is_denied_at vm denied.now }
{
    match vm {
        Some(vm) => is_slot(denied.slot, vm) || is_frame_of(&denied.named, vm),
        None => true,
    }
}

/// Whether it was a frame of the VM of the slot that is given.
fn is_access_of(access: &Access, vm: Option<u32>) -> bool
    ensures { result ≡ is_access_of vm access.now }
{
    match vm {
        Some(vm) => access.vm == vm,
        None => true,
    }
}

fn is_chosen(note: &Note, vm: Option<u32>, remarks: Remarks) -> bool
    ensures { result ≡ is_chosen vm remarks note.now }
{
    match note {
        Note::Denied(denied) => remarks.refused && is_denied_at(denied, vm),
        Note::Access(access) => remarks.accesses && is_access_of(access, vm),
        Note::Event(event) => is_selected(event, vm),
    }
}

/// The slot that is named, if it is this one.
fn own_slot(slot: Option<u32>, vm: u32) -> Option<u32>
    ensures { result ≡ own_slot vm slot }
{
    match slot {
        Some(slot) if slot == vm => Some(slot),
        _ => None,
    }
}

/// Whether the owner is another VM than that of this slot.
fn is_other_vm(owner: Owner, vm: u32) -> bool
    ensures { result ≡ is_other_vm vm owner }
{
    match owner {
        Owner::Vm(owner) => owner.index() as u32 != vm,
        Owner::Core | Owner::Host | Owner::Free => false,
    }
}

/// The frame that is named, if it is not another VM's.
fn own_frame(named: Option<NamedFrame>, vm: u32) -> Option<NamedFrame>
    ensures { result ≡ own_frame vm named }
{
    match named {
        Some(named) if !is_other_vm(named.owner, vm) => Some(named),
        _ => None,
    }
}

/// The number of the frame that is named, if it is another VM's.
fn foreign_frame(named: Option<NamedFrame>, vm: u32) -> Option<u32>
    ensures { result ≡ foreign_frame vm named }
{
    match named {
        Some(named) if is_other_vm(named.owner, vm) => Some(named.frame),
        _ => None,
    }
}

/// The denied call without what belongs to other VMs than that of this slot.
fn own_denied(denied: &Denied, vm: u32) -> Denied
    ensures { result ≡ own_denied vm denied.now }
{
    Denied {
        slot: own_slot(denied.slot, vm),
        named: own_frame(denied.named, vm),
        foreign: foreign_frame(denied.named, vm),
        ..*denied
    }
}

/// Leaves out of a note what belongs to other VMs.
fn conceal(note: &mut Note, vm: u32)
    ensures { note.new ≡ own_note vm note.old }
{
    if let Note::Denied(denied) = note {
        *denied = own_denied(denied, vm);
    }
}

/// Leaves out of each note what belongs to other VMs.
fn conceal_each(notes: &mut [Note], vm: u32)
    ensures { notes.new ≡ map (own_note vm) notes.old }
{
    for note in notes.iter_mut() {
        conceal(note, vm);
    }
}

/// Keeps only the changes and what else is asked for, in their order, of one slot if one is given.
fn keep_chosen(notes: &mut Vec<Note>, vm: Option<u32>, remarks: Remarks)
    ensures { notes.new.items ≡ filter (is_chosen vm remarks) notes.old.items }
{
    notes.retain(|note| is_chosen(note, vm, remarks));
}

/// Keeps only the changes and what else is asked for, in their order; of one slot if one is given, and then without what
/// belongs to other VMs.
pub fn choose(notes: &mut Vec<Note>, vm: Option<u32>, remarks: Remarks)
    ensures { notes.new.items ≡ chosen vm remarks notes.old.items }
{
    keep_chosen(notes, vm, remarks);
    if let Some(vm) = vm {
        conceal_each(notes.as_mut_slice(), vm);
    }
}
