//! What is read from a handle's session.
ghost use Rattle.std.specs.Prelude.{◌≡◌};
ghost use Rattle.kcore_c.specs.Status.{ChangeSays, ChangesSays, RecordSays, FrameSays, NextSays, SizesSays, AreSizes};

use crate::handle::Handle;
use crate::record::{Change, Record, Sizes, change_of, next_of, record_of, tell_changes};
use crate::status::Status;
use kc_custody::custody_at;
use kc_session::Session;
use std::alloc::Global;

/// Reports a change of a frame's custody by the last call that was answered.
pub fn change(alloc: Global, core: &mut Handle, number: usize, out: &mut Change) -> Status
    ensures says { ChangeSays core.old.held.session number out.old out.new result }
    ensures same { core.new.held.session ≡ core.old.held.session }
{
    let Some(session) = core.take(alloc) else {
        return Status::Closed;
    };
    let status = match session.changes().get(number) {
        Some(change) => {
            *out = change_of(change);
            Status::Done
        }
        None => Status::NoSuchChange,
    };
    core.put(session);
    status
}

/// Reports the custody of a frame.
pub fn record(alloc: Global, core: &mut Handle, frame: u32, out: &mut Record) -> Status
    ensures says { RecordSays core.old.held.session frame out.old out.new result }
    ensures same { core.new.held.session ≡ core.old.held.session }
{
    let Some(session) = core.take(alloc) else {
        return Status::Closed;
    };
    let status = if frame < session.core().config().frames() {
        *out = record_of(&custody_at(session.core(), frame));
        Status::Done
    } else {
        Status::NoSuchFrame
    };
    core.put(session);
    status
}

/// Reports the frame at a guest frame of a slot.
pub fn frame(alloc: Global, core: &mut Handle, vm: u32, gfn: u32, out: &mut u32) -> Status
    ensures says { FrameSays core.old.held.session vm gfn out.old out.new result }
    ensures same { core.new.held.session ≡ core.old.held.session }
{
    let Some(session) = core.take(alloc) else {
        return Status::Closed;
    };
    let status = match session.core().lookup(vm, gfn) {
        Some(frame) => {
            *out = frame.number();
            Status::Done
        }
        None => Status::NoSuchFrame,
    };
    core.put(session);
    status
}

/// Reports the first frame from a number on whose record has this owner.
pub fn next(
    alloc: Global,
    core: &mut Handle,
    owner: u32,
    vm: u32,
    from: u32,
    out: &mut u32,
) -> Status
    ensures says { NextSays core.old.held.session owner vm from out.old out.new result }
    ensures same { core.new.held.session ≡ core.old.held.session }
{
    let Some(session) = core.take(alloc) else {
        return Status::Closed;
    };
    let status = match next_of(session.core(), owner, vm, from) {
        Some(frame) => {
            *out = frame;
            Status::Done
        }
        None => Status::NoSuchFrame,
    };
    core.put(session);
    status
}

/// Reports all changes of frames' custody by the last call that was answered.
pub fn changes(alloc: Global, core: &mut Handle, out: &mut [Change], count: &mut usize) -> Status
    ensures says { ChangesSays core.old.held.session out.old out.new count.new result }
    ensures same { core.new.held.session ≡ core.old.held.session }
{
    *count = 0;
    let Some(session) = core.take(alloc) else {
        return Status::Closed;
    };
    let changes = session.changes();
    *count = changes.len();
    let status = if changes.len() <= out.len() {
        tell_changes(changes, out);
        Status::Done
    } else {
        Status::NoRoom
    };
    core.put(session);
    status
}

fn sizes_of(session: &Session) -> Sizes
    ensures { AreSizes session.now result }
{
    let config = session.core().config();
    Sizes {
        frames: config.frames(),
        core: config.core(),
        host: config.host(),
        slots: config.slots(),
        left: session.left(),
    }
}

/// Reports how large the session's core is, and how many more calls its volume can hold.
pub fn sizes(alloc: Global, core: &mut Handle, out: &mut Sizes) -> Status
    ensures says { SizesSays core.old.held.session out.old out.new result }
    ensures same { core.new.held.session ≡ core.old.held.session }
{
    let Some(session) = core.take(alloc) else {
        return Status::Closed;
    };
    *out = sizes_of(&session);
    core.put(session);
    Status::Done
}
