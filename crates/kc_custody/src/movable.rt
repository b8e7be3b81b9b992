//! The frames whose custody a call may change, by what it names: none is looked for among all frames.
ghost use Rattle.std.specs.Prelude.{◌≡◌, ◌≤◌, map, IfOk};
ghost use Rattle.std.specs.List.{range_with_len, filter_map};
ghost use Rattle.std.specs.Option.{option_to_list};
ghost use Rattle.kc_types.specs.Limits.{range_limit};
ghost use Rattle.kc_model.specs.State.{slot_at, mapped_at};
ghost use Rattle.kc_model.specs.Lawful.{IsLawful};
ghost use Rattle.kc_custody.specs.Movable.{movable, listed_of, mapped_in};

use kc_core::KCore;
use kc_types::{Call, Config, FrameNo, Memory, Owner, RANGE_LIMIT};
use std::alloc::Global;

/// A frame, or none.
fn one(alloc: Global, frame: Option<FrameNo>) -> Result<Vec<u32>, Memory>
    ensures { IfOk result (λ frames. frames.items ≡ option_to_list frame) }
{
    let mut frames = Vec::new(alloc);
    if let Some(frame) = frame {
        frames.push(frame.number())?;
    }
    Ok(frames)
}

/// A frame by the number that a call names, whether it exists or not.
fn named(alloc: Global, frame: u32) -> Result<Vec<u32>, Memory>
    ensures { IfOk result (λ frames. frames.items ≡ option_to_list (Some frame)) }
{
    let mut frames = Vec::new(alloc);
    frames.push(frame)?;
    Ok(frames)
}

/// The frames that are mapped at some guest frames.
fn in_range(alloc: Global, core: &KCore, vm: u32, gfn: u32, count: u32) -> Result<Vec<u32>, Memory>
    ensures { IfOk result (λ frames. frames.items ≡ mapped_in core.now.state vm gfn count) }
{
    let mut frames = Vec::new(alloc);
    let gfns = core.config().version().gfns();
    if count > RANGE_LIMIT || gfn >= gfns {
        return Ok(frames);
    }
    for i in 0..count {
        if let Some(frame) = core.lookup(vm, gfn + i) {
            frames.push(frame.number())?;
        }
    }
    Ok(frames)
}

/// The frames of a slot that exists.
fn of_slot(alloc: Global, core: &KCore, config: &Config, vm: u32) -> Result<Vec<u32>, Memory>
    requires { config.now ≡ core.now.state.config }
    ensures { IfOk result (λ frames. frames.items ≡ listed_of core.now.state vm) }
{
    match config.vm(vm) {
        Some(vm) => {
            let listed = core.frames_of(Owner::Vm(vm))?;
            Ok(listed.iter().map(|frame| frame.number()).collect(alloc)?)
        },
        None => Ok(Vec::new(alloc)),
    }
}

/// The frames whose custody a call may change; some may not exist, or be there twice.
pub(crate) fn movable(alloc: Global, core: &KCore, call: &Call) -> Result<Vec<u32>, Memory>
    ensures frames { IfOk result (λ frames. frames.items ≡ movable core.now.state call.now) }
    ensures lawful { IsLawful core.now.state }
{
    let config = core.config();
    match call {
        Call::Take => one(alloc, core.free_ends().head),
        Call::Give { frame }
        | Call::HostFault { frame }
        | Call::Remap { frame, .. }
        | Call::Map { frame, .. } => named(alloc, *frame),
        Call::Grant { vm, gfn, .. } | Call::Revoke { vm, gfn, .. } | Call::Drop { vm, gfn, .. } =>
            one(alloc, core.lookup(*vm, *gfn)),
        Call::GrantRange { vm, gfn, count, .. } | Call::RevokeRange { vm, gfn, count, .. } =>
            in_range(alloc, core, *vm, *gfn, *count),
        Call::Clear { vm } => of_slot(alloc, core, config, *vm),
        Call::HostRead { .. }
        | Call::HostWrite { .. }
        | Call::RegisterVm { .. }
        | Call::RegisterVcpu { .. }
        | Call::SetBoot { .. }
        | Call::Verify { .. }
        | Call::GuestRead { .. }
        | Call::GuestWrite { .. } => Ok(Vec::new(alloc)),
    }
}
