//! The events of a call, and of calls in order.
ghost use Rattle.std.specs.Prelude.{◌≡◌, ◌≤◌, ◌+◌, ◌^◌, ◌++◌, ◌<◌, List, length, map, filter, vec_len, vec_capacity, IfOk, IfSome, OnOk, OnErr, None, option_map};
ghost use Rattle.kc_types.specs.declared.call.Call.TheVariants.{Verify};
ghost use Rattle.kc_types.specs.declared.reply.Reply.{Reply};
ghost use Rattle.kc_model.specs.Next.{next, replies_from, state_after};
ghost use Rattle.kc_model.specs.Custody.{measurement_by};
ghost use Rattle.kc_model.specs.Events.{events_by, events_from};
ghost use Rattle.kc_remarks.specs.Remarks.{notes_from};
ghost use Rattle.kc_remarks.specs.Denials.{is_denied, Counts};
ghost use Rattle.kc_custody.specs.Marks.{mark_of, settled, differs, frame_event, turning, phase_mark, phase_told, accessed, access_told};

use crate::look_ups::{custody_at, phase_at, same_custody, same_phase};
use crate::movable::movable;
use kc_core::KCore;
use kc_parts::sort_once;
use kc_remarks::Denials;
use kc_types::{
    Call, Change, Event, FrameChange, IMAGE_LIMIT, Launch, MeasuredImages, Measurement, Memory,
    PhaseChange, Reply, vm_of,
};
use std::alloc::Global;

/// The slot whose phase a call may change.
fn turning(call: &Call) -> Option<u32>
    ensures { result ≡ turning call.now }
{
    match call {
        Call::RegisterVm { vm } | Call::Verify { vm } | Call::Clear { vm } => Some(*vm),
        _ => None,
    }
}

/// The custody of some frames before a call, in their order: changes of nothing yet.
pub(crate) fn marks_of(
    alloc: Global,
    core: &KCore,
    line: u32,
    frames: &[u32],
) -> Result<Vec<FrameChange>, Memory>
    ensures { IfOk result (λ marks. marks.items ≡ map (mark_of line core.now.state) frames.now) }
{
    let mut marks = Vec::with_capacity(alloc, frames.len())?;
    for frame in frames {
        let before = custody_at(core, *frame);
        let after = before;
        marks.push(FrameChange {
            line,
            frame: *frame,
            before,
            after,
        })?;
    }
    Ok(marks)
}

/// The slot whose phase a call may change, before it.
fn phase_mark(alloc: Global, core: &KCore, line: u32, call: &Call) -> Option<PhaseChange>
    ensures { result ≡ option_map (phase_mark line core.now.state) (turning call.now) }
{
    let vm = turning(call)?;
    Some(PhaseChange {
        line,
        vm,
        phase: phase_at(core, vm),
        measurement: Measurement::none(alloc),
    })
}

/// The VM whose frame the host reads or writes.
fn accessed(core: &KCore, call: &Call) -> Option<u32>
    ensures { result ≡ accessed core.now.state call.now }
{
    match call {
        Call::HostRead { frame, .. } | Call::HostWrite { frame, .. } => vm_of(
            custody_at(core, *frame).owner,
        ),
        _ => None,
    }
}

/// Reports the host's read or write of this VM's frame, if it was served. There is room for it.
fn tell_access(call: &Call, vm: Option<u32>, reply: &Reply, told: &mut Vec<Event>)
    requires { vec_len told.old + 1 ≤ vec_capacity told.old }
    ensures items { told.new.items ≡ told.old.items ++ access_told call.now vm reply.now }
    ensures len { vec_len told.new ≤ vec_len told.old + 1 }
    ensures capacity { vec_capacity told.old ≤ vec_capacity told.new }
{
    let Some(vm) = vm else {
        return;
    };
    match (call, reply) {
        (Call::HostRead { .. }, Reply::Data(_)) => told.push(Event::Read { vm }).unwrap(),
        (Call::HostWrite { .. }, Reply::Done) => told.push(Event::Write { vm }).unwrap(),
        _ => (),
    }
}

/// Tells of each mark whose frame's custody differs now. There is room for all of them.
fn tell_frames(core: &KCore, marks: &[FrameChange], told: &mut Vec<Event>)
    requires { vec_len told.old + length marks.now ≤ vec_capacity told.old }
    ensures items { told.new.items ≡ told.old.items ++ map frame_event (filter differs (map (settled core.now.state) marks.now)) }
    ensures len { vec_len told.new ≤ vec_len told.old + length marks.now }
    ensures capacity { vec_capacity told.old ≤ vec_capacity told.new }
{
    for mark in marks {
        let change = FrameChange {
            after: custody_at(core, mark.frame),
            ..*mark
        };
        if !same_custody(&change.before, &change.after) {
            told.push(Event::Change(Change::Frame(change))).unwrap();
        }
    }
}

/// Reports a mark whose slot's phase differs now, with what the call measured. There is room for it.
fn tell_phase(
    core: &KCore,
    mark: Option<PhaseChange>,
    measurement: Measurement,
    told: &mut Vec<Event>,
)
    requires { vec_len told.old + 1 ≤ vec_capacity told.old }
    ensures { told.new.items ≡ told.old.items ++ phase_told core.now.state measurement mark }
{
    let Some(mut change) = mark else {
        return;
    };
    let phase = phase_at(core, change.vm);
    if !same_phase(change.phase, phase) {
        change.phase = phase;
        change.measurement = measurement;
        told.push(Event::Change(Change::Phase(change))).unwrap();
    }
}

/// Makes a call: its reply, and what it measured, which is nothing but for `verify`.
fn make(alloc: Global, core: &mut KCore, call: &Call) -> Result<(Reply, Measurement), Memory>
    ensures reply { IfOk result (λ made. made.0 ≡ (next core.old.state call.now).0) }
    ensures measurement { IfOk result (λ made. made.1 ≡ measurement_by core.old.state call.now) }
    ensures state { OnOk result (core.new.state ≡ (next core.old.state call.now).1) }
    ensures err { OnErr result (core.new ≡ core.old) }
{
    match call {
        Call::Verify { vm } => {
            let mut images = Vec::with_capacity(alloc, IMAGE_LIMIT)?;
            let room = Box::new(alloc, [0u8; 32])?;
            let verified = core.verify(*vm);
            images
                .extend_from_slice(verified.images.as_slice())
                .unwrap();
            let measurement = Measurement {
                images: MeasuredImages::of(images),
                launch: Launch::of(room, verified.launch),
            };
            Ok((verified.reply, measurement))
        },
        _ => Ok((core.call(call)?, Measurement::none(alloc))),
    }
}

/// Makes a call, and adds its events; the call has this line in its trace. After `Memory`, if memory runs out,
/// neither core nor events are other than before.
pub fn tell_call(
    alloc: Global,
    core: &mut KCore,
    call: &Call,
    line: u32,
    told: &mut Vec<Event>,
) -> Result<Reply, Memory>
    ensures reply { IfOk result (λ reply. reply ≡ (next core.old.state call.now).0) }
    ensures state { OnOk result (core.new.state ≡ (next core.old.state call.now).1) }
    ensures told { OnOk result (told.new.items ≡ told.old.items ++ events_by line core.old.state call.now) }
    ensures err { OnErr result ((core.new ≡ core.old) × (told.new.items ≡ told.old.items)) }
{
    let mut frames = movable(alloc, core, call)?;
    sort_once(&mut frames);
    let marks = marks_of(alloc, core, line, &frames)?;
    let mark = phase_mark(alloc, core, line, call);
    let accessed = accessed(core, call);
    told.reserve(marks.len() + 2)?;
    let (reply, measurement) = make(alloc, core, call)?;
    tell_access(call, accessed, &reply, told);
    tell_frames(core, &marks, told);
    tell_phase(core, mark, measurement, told);
    Ok(reply)
}

/// Makes some calls in order, of which the first has this line in the trace, adds their events, and counts those that are
/// refused or rejected. After `Memory`, if memory runs out, some calls are done.
pub fn tell_calls(
    alloc: Global,
    core: &mut KCore,
    calls: &[Call],
    first: u32,
    told: &mut Vec<Event>,
    denials: &mut Denials,
) -> Result<(), Memory>
    requires lines { first + length calls.now < 2 ^ 32 }
    requires counts { denials.old.total + length calls.now < 2 ^ 32 }
    ensures told { OnOk result (told.new.items ≡ told.old.items ++ events_from first core.old.state calls.now) }
    ensures state { OnOk result (core.new.state ≡ state_after core.old.state calls.now) }
    ensures denied { OnOk result (denials.new.total ≡ denials.old.total + length (filter is_denied (notes_from first core.old.state calls.now))) }
    ensures few { OnOk result (denials.new.total ≤ denials.old.total + length calls.now) }
    ensures counted { OnOk result ((replies : List Reply) → Counts replies denials.old → Counts (replies ++ replies_from core.old.state calls.now) denials.new) }
{
    for (i, call) in calls.iter().enumerate() {
        let reply = tell_call(alloc, core, call, first + i as u32, told)?;
        denials.note(&reply);
    }
    Ok(())
}
