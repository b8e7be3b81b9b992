//! The changes of frames by a call that somebody else makes: their custody is noted before it, and compared after it.
ghost use Rattle.std.specs.Prelude.{◌≡◌, ◌≤◌, ◌+◌, ◌++◌, ◌∷◌, [], length, vec_len, vec_capacity, IfSome, IfOk, OnOk};
ghost use Rattle.std.specs.Option.{option_to_list};
ghost use Rattle.kc_model.specs.Lawful.{IsLawful};
ghost use Rattle.kc_model.specs.Next.{next};
ghost use Rattle.kc_model.specs.Custody.{frame_changes_by};
ghost use Rattle.kc_custody.specs.Marks.{mark_of, changed_from};
ghost use Rattle.kc_custody.specs.Movable.{movable};

use crate::look_ups::{custody_at, same_custody};
use crate::movable::movable;
use crate::telling::marks_of;
use kc_core::KCore;
use kc_parts::sort_once;
use kc_types::{Call, FrameChange, FrameNo, Memory};
use std::alloc::Global;

fn number_of(frame: Option<FrameNo>) -> Option<u32>
    ensures { result ≡ frame }
{
    match frame {
        Some(frame) => Some(frame.number()),
        None => None,
    }
}

/// The frame that a call may change, or none, of a call that may change one at most; `None` of a call that may change
/// several. So most calls need no vector of frames.
fn only_frame(core: &KCore, call: &Call) -> Option<Option<u32>>
    ensures only { IfSome result (λ frame. movable core.now.state call.now ≡ option_to_list frame) }
    ensures lawful { IsLawful core.now.state }
{
    let _config = core.config();
    match call {
        Call::Take => Some(number_of(core.free_ends().head)),
        Call::Give { frame }
        | Call::HostFault { frame }
        | Call::Remap { frame, .. }
        | Call::Map { frame, .. } => Some(Some(*frame)),
        Call::Grant { vm, gfn, .. } | Call::Revoke { vm, gfn, .. } | Call::Drop { vm, gfn, .. } =>
            Some(number_of(core.lookup(*vm, *gfn))),
        Call::GrantRange { .. } | Call::RevokeRange { .. } | Call::Clear { .. } => None,
        Call::HostRead { .. }
        | Call::HostWrite { .. }
        | Call::RegisterVm { .. }
        | Call::RegisterVcpu { .. }
        | Call::SetBoot { .. }
        | Call::Verify { .. }
        | Call::GuestRead { .. }
        | Call::GuestWrite { .. } => Some(None),
    }
}

/// Notes the custody of a frame.
fn note_frame(
    core: &KCore,
    line: u32,
    frame: u32,
    marks: &mut Vec<FrameChange>,
) -> Result<(), Memory>
    ensures { OnOk result (marks.new.items ≡ marks.old.items ++ mark_of line core.now.state frame ∷ []) }
{
    let before = custody_at(core, frame);
    let after = before;
    marks.push(FrameChange {
        line,
        frame,
        before,
        after,
    })?;
    Ok(())
}

/// The marks of a call that may change several frames.
fn several_marks(
    alloc: Global,
    core: &KCore,
    call: &Call,
    line: u32,
) -> Result<Vec<FrameChange>, Memory>
    ensures { IfOk result (λ marks. changed_from (next core.now.state call.now).1 marks.items ≡ frame_changes_by line core.now.state (next core.now.state call.now).1) }
{
    let mut frames = movable(alloc, core, call)?;
    sort_once(&mut frames);
    marks_of(alloc, core, line, &frames)
}

/// Notes, before a call, the custody of the frames that it may change: those that differ after it are its changes of
/// frames, and no others. The call has this line in its trace. After `Memory`, if memory runs out, what
/// is noted means nothing.
pub fn note_marks(
    alloc: Global,
    core: &KCore,
    call: &Call,
    line: u32,
    marks: &mut Vec<FrameChange>,
) -> Result<(), Memory>
    requires { marks.old.items ≡ [] }
    ensures { OnOk result (changed_from (next core.now.state call.now).1 marks.new.items ≡ frame_changes_by line core.now.state (next core.now.state call.now).1) }
{
    match only_frame(core, call) {
        Some(Some(frame)) => note_frame(core, line, frame, marks),
        Some(None) => Ok(()),
        None => {
            *marks = several_marks(alloc, core, call, line)?;
            Ok(())
        },
    }
}

/// Adds the marks whose frame's custody differs now, with what it is now. There is room for all of them.
pub fn tell_marks(core: &KCore, marks: &[FrameChange], told: &mut Vec<FrameChange>)
    requires { vec_len told.old + length marks.now ≤ vec_capacity told.old }
    ensures { told.new.items ≡ told.old.items ++ changed_from core.now.state marks.now }
{
    for mark in marks {
        let change = FrameChange {
            after: custody_at(core, mark.frame),
            ..*mark
        };
        if !same_custody(&change.before, &change.after) {
            told.push_reserved(change);
        }
    }
}
