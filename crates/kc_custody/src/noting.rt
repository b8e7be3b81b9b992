//! The notes on a call, and on calls in order.
ghost use Rattle.std.specs.Prelude.{◌≡◌, ◌≤◌, ◌+◌, ◌^◌, ◌++◌, ◌<◌, List, length, filter, IfOk, OnOk};
ghost use Rattle.kc_types.specs.declared.reply.Reply.{Reply};
ghost use Rattle.kc_model.specs.Next.{next, replies_from, state_after};
ghost use Rattle.kc_model.specs.Events.{events_by, events_from};
ghost use Rattle.kc_remarks.specs.Attempts.{attempts_in};
ghost use Rattle.kc_remarks.specs.Remarks.{notes_by, notes_from};
ghost use Rattle.kc_remarks.specs.Denials.{is_denied, Counts};
ghost use Rattle.kc_custody.specs.Grown.{NotesAll};

use crate::growing::Lives;
use crate::naming::named_by;
use crate::telling::tell_call;
use kc_core::KCore;
use kc_remarks::{Attempt, Denials, Note, attempt_told, note_events, remark_told};
use kc_types::{Call, Memory, Reply};
use std::alloc::Global;

/// Makes a call, and adds its notes; the call has this line in its trace. After `Memory`, if memory runs out, the call
/// may be done, and its notes lacking.
pub fn note_call(
    alloc: Global,
    core: &mut KCore,
    call: &Call,
    line: u32,
    notes: &mut Vec<Note>,
) -> Result<Reply, Memory>
    ensures reply { IfOk result (λ reply. reply ≡ (next core.old.state call.now).0) }
    ensures state { OnOk result (core.new.state ≡ (next core.old.state call.now).1) }
    ensures notes { OnOk result (notes.new.items ≡ notes.old.items ++ notes_by line core.old.state call.now) }
{
    let named = named_by(core, call);
    let mut events = Vec::new(alloc);
    let reply = tell_call(alloc, core, call, line, &mut events)?;
    if let Some(remark) = remark_told(line, named, call, &reply) {
        notes.push(remark)?;
    }
    note_events(alloc, events, notes)?;
    Ok(reply)
}

/// Makes some calls in order, of which the first has this line in the trace, adds their notes, and counts those that are
/// refused or rejected. After `Memory`, if memory runs out, some calls are done.
pub fn note_calls(
    alloc: Global,
    core: &mut KCore,
    calls: &[Call],
    first: u32,
    notes: &mut Vec<Note>,
    denials: &mut Denials,
) -> Result<(), Memory>
    requires lines { first + length calls.now < 2 ^ 32 }
    requires counts { denials.old.total + length calls.now < 2 ^ 32 }
    ensures notes { OnOk result (notes.new.items ≡ notes.old.items ++ notes_from first core.old.state calls.now) }
    ensures state { OnOk result (core.new.state ≡ state_after core.old.state calls.now) }
    ensures denied { OnOk result (denials.new.total ≡ denials.old.total + length (filter is_denied (notes_from first core.old.state calls.now))) }
    ensures few { OnOk result (denials.new.total ≤ denials.old.total + length calls.now) }
    ensures counted { OnOk result ((replies : List Reply) → Counts replies denials.old → Counts (replies ++ replies_from core.old.state calls.now) denials.new) }
{
    for (i, call) in calls.iter().enumerate() {
        let reply = note_call(alloc, core, call, first + i as u32, notes)?;
        denials.note(&reply);
    }
    Ok(())
}

/// Makes a call, and adds what a summary is made of: its events, which lives take in, and the attempt, if the call is refused
/// at a page of a VM. The call has this line in its trace. After `Memory`, if memory runs out, the call may be done, the attempt
/// lacking, and the lives of no use.
pub fn summarize_call(
    alloc: Global,
    core: &mut KCore,
    call: &Call,
    line: u32,
    lives: &mut Lives,
    attempts: &mut Vec<Attempt>,
) -> Result<Reply, Memory>
    ensures reply { IfOk result (λ reply. reply ≡ (next core.old.state call.now).0) }
    ensures state { OnOk result (core.new.state ≡ (next core.old.state call.now).1) }
    ensures lives { OnOk result (NotesAll (events_by line core.old.state call.now) lives.old lives.new) }
    ensures attempts { OnOk result (attempts.new.items ≡ attempts.old.items ++ attempts_in (notes_by line core.old.state call.now)) }
{
    let named = named_by(core, call);
    let mut events = Vec::new(alloc);
    let reply = tell_call(alloc, core, call, line, &mut events)?;
    lives.note_all(alloc, events)?;
    if let Some(attempt) = attempt_told(line, named, &reply) {
        attempts.push(attempt)?;
    }
    Ok(reply)
}

/// Makes some calls in order, of which the first has this line in the trace, adds their events to lives, and their attempts, and
/// counts those that are refused or rejected. After `Memory`, if memory runs out, some calls are done, and the lives are of no
/// use.
pub fn summarize_calls(
    alloc: Global,
    core: &mut KCore,
    calls: &[Call],
    first: u32,
    lives: &mut Lives,
    attempts: &mut Vec<Attempt>,
    denials: &mut Denials,
) -> Result<(), Memory>
    requires lines { first + length calls.now < 2 ^ 32 }
    requires counts { denials.old.total + length calls.now < 2 ^ 32 }
    ensures lives { OnOk result (NotesAll (events_from first core.old.state calls.now) lives.old lives.new) }
    ensures attempts { OnOk result (attempts.new.items ≡ attempts.old.items ++ attempts_in (notes_from first core.old.state calls.now)) }
    ensures state { OnOk result (core.new.state ≡ state_after core.old.state calls.now) }
    ensures denied { OnOk result (denials.new.total ≡ denials.old.total + length (filter is_denied (notes_from first core.old.state calls.now))) }
    ensures few { OnOk result (denials.new.total ≤ denials.old.total + length calls.now) }
    ensures counted { OnOk result ((replies : List Reply) → Counts replies denials.old → Counts (replies ++ replies_from core.old.state calls.now) denials.new) }
{
    for (i, call) in calls.iter().enumerate() {
        let reply = summarize_call(alloc, core, call, first + i as u32, lives, attempts)?;
        denials.note(&reply);
    }
    Ok(())
}
