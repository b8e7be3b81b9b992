//! The remark on a call, by the frame that it names and its reply, and events among remarks.
ghost use Rattle.std.specs.Prelude.{◌≡◌, ◌++◌, map, take, IfOk, OnOk};
ghost use Rattle.kc_remarks.specs.declared.remark.Note.TheVariants as note;
ghost use Rattle.kc_remarks.specs.Remarks.{kind_of, access_at, access_to, read_told, write_told, remark_told};

use crate::remark::{Access, CallKind, Denial, Denied, NamedFrame, Note};
use kc_types::{Call, Event, Memory, Reply, slot_of, vm_of};
use std::alloc::Global;

/// A call without its numbers.
fn kind_of(call: &Call) -> CallKind
    ensures { result ≡ kind_of call.now }
{
    match call {
        Call::Take => CallKind::Take,
        Call::Give { .. } => CallKind::Give,
        Call::HostFault { .. } => CallKind::HostFault,
        Call::HostRead { .. } => CallKind::HostRead,
        Call::HostWrite { .. } => CallKind::HostWrite,
        Call::RegisterVm { .. } => CallKind::RegisterVm,
        Call::RegisterVcpu { .. } => CallKind::RegisterVcpu,
        Call::SetBoot { .. } => CallKind::SetBoot,
        Call::Remap { .. } => CallKind::Remap,
        Call::Verify { .. } => CallKind::Verify,
        Call::Map { .. } => CallKind::Map,
        Call::GuestRead { .. } => CallKind::GuestRead,
        Call::GuestWrite { .. } => CallKind::GuestWrite,
        Call::Grant { .. } => CallKind::Grant,
        Call::Revoke { .. } => CallKind::Revoke,
        Call::GrantRange { .. } => CallKind::GrantRange,
        Call::RevokeRange { .. } => CallKind::RevokeRange,
        Call::Drop { .. } => CallKind::Drop,
        Call::Clear { .. } => CallKind::Clear,
    }
}

/// An access to a frame, if a VM owns it.
fn access_at(
    line: u32,
    call: CallKind,
    offset: u32,
    len: u32,
    named: NamedFrame,
    vm: Option<u32>,
) -> Option<Note>
    ensures { result ≡ access_at line call offset len named vm }
{
    match vm {
        Some(vm) => Some(Note::Access(Access {
            line,
            call,
            frame: named.frame,
            vm,
            gfn: named.gfn,
            offset,
            len,
        })),
        None => None,
    }
}

fn access_to(
    line: u32,
    call: CallKind,
    offset: u32,
    len: u32,
    named: Option<NamedFrame>,
) -> Option<Note>
    ensures { result ≡ access_to line call offset len named }
{
    match named {
        Some(named) => access_at(line, call, offset, len, named, vm_of(named.owner)),
        None => None,
    }
}

/// The remark on a call that was answered with bytes.
fn read_told(line: u32, named: Option<NamedFrame>, call: &Call) -> Option<Note>
    ensures { result ≡ read_told line named call.now }
{
    match call {
        Call::HostRead { offset, len, .. } => access_to(
            line,
            CallKind::HostRead,
            *offset,
            *len,
            named,
        ),
        _ => None,
    }
}

/// The remark on a call that was done.
fn write_told(line: u32, named: Option<NamedFrame>, call: &Call) -> Option<Note>
    ensures { result ≡ write_told line named call.now }
{
    match call {
        Call::HostWrite { offset, data, .. } => access_to(
            line,
            CallKind::HostWrite,
            *offset,
            data.as_slice().len() as u32,
            named,
        ),
        _ => None,
    }
}

/// The remark on the call on this line of a trace, by the frame that it names, as it was before the call, and its reply.
pub fn remark_told(line: u32, named: Option<NamedFrame>, call: &Call, reply: &Reply) -> Option<Note>
    ensures { result ≡ remark_told line named call.now reply.now }
{
    let reason = match reply {
        Reply::Refused(reason) => Denial::Refused(*reason),
        Reply::Rejected(image) => Denial::Rejected(*image),
        Reply::Data(_) => return read_told(line, named, call),
        Reply::Done => return write_told(line, named, call),
        Reply::Frame(_) | Reply::Image(_) | Reply::Fault(_) => return None,
    };
    Some(Note::Denied(Denied {
        line,
        call: kind_of(call),
        reason,
        slot: slot_of(call),
        named,
        foreign: None,
    }))
}

/// Appends some events to notes. After `Memory`, if memory runs out, the notes may be others.
pub fn note_events(alloc: Global, events: Vec<Event>, notes: &mut Vec<Note>) -> Result<(), Memory>
    ensures { OnOk result (notes.new.items ≡ notes.old.items ++ map note.Event events.items) }
{
    let mut told = events
        .into_iter()
        .map(|event| Note::Event(event))
        .collect(alloc)?;
    notes.append(&mut told)?;
    Ok(())
}
