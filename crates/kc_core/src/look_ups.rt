//! What the core shows of its parts.
ghost use Rattle.std.specs.Prelude.{◌≡◌, ◌<◌, IsSome, IfOk};
ghost use Rattle.kc_model.specs.Lawful.{same_owner};
ghost use Rattle.kc_model.specs.Links.{frames_of, owned_by};
ghost use Rattle.kc_model.specs.State.{frame_at, slot_at};
ghost use Rattle.kc_links.specs.Ending.{listed};
ghost use Rattle.kc_parts.specs.Parts.{links_of, page_at};
ghost use Rattle.kc_parts.specs.States.{state_of};
ghost use Rattle.kc_core.specs.KCore.{ShowsRecord};

use kc_links::walk;
use kc_page::PageRecord;
use kc_parts::Parts;
use kc_types::{Config, Ends, FrameNo, MaybeFrame, Memory, Owner, VmId};
use std::alloc::Global;

/// The record of a frame that is here, with its neighbours in the list of its owner; the core's and the host's frames
/// are in no list.
pub fn page_record(parts: &Parts, frame: FrameNo) -> PageRecord
    requires { IsSome (page_at parts.now frame) }
    ensures { ShowsRecord parts.now frame result }
{
    let meta = parts.page(frame).meta;
    match meta.owner.get() {
        Owner::Core | Owner::Host => PageRecord {
            prev: MaybeFrame::of(None),
            next: MaybeFrame::of(None),
            ..meta
        },
        Owner::Free | Owner::Vm(_) => meta,
    }
}

/// Lists the frames of a list, in its order.
fn listed(alloc: Global, parts: &Parts, ends: &Ends) -> Result<Vec<FrameNo>, Memory>
    // No clause can rule out that memory runs out, here and below: a test lists frames.
    ensures { IfOk result (λ frames. frames.items ≡ listed (links_of parts.now) ends.now) }
{
    let mut frames = Vec::new(alloc);
    for frame in walk(parts, ends) {
        frames.push(frame)?;
    }
    Ok(frames)
}

/// The owner of a frame that exists; the core if the frame is not here.
fn owner_at(parts: &Parts, config: &Config, frame: u32) -> Owner
    requires { frame < config.now.frames }
    ensures { result ≡ (frame_at (state_of config.now parts.now) frame).owner }
{
    match parts.try_page(config.frame(frame).unwrap()) {
        Some(page) => page.meta.owner.get(),
        None => Owner::Core,
    }
}

fn is_owned_by(parts: &Parts, config: &Config, frame: u32, owner: &Owner) -> bool
    requires { frame < config.now.frames }
    ensures { result ≡ same_owner (frame_at (state_of config.now parts.now) frame).owner owner.now }
{
    owner_at(parts, config, frame) == *owner
}

/// Lists the frames of an owner, in ascending order.
fn owned_by(
    alloc: Global,
    parts: &Parts,
    config: &Config,
    owner: &Owner,
) -> Result<Vec<FrameNo>, Memory>
    ensures { IfOk result (λ frames. frames.items ≡ owned_by (state_of config.now parts.now) owner.now) }
{
    let mut frames = Vec::new(alloc);
    for number in 0..config.frames() {
        if is_owned_by(parts, config, number, owner) {
            frames.push(config.frame(number).unwrap())?;
        }
    }
    Ok(frames)
}

/// Lists the frames of an owner: free frames and a VM's in the order of their list, others in ascending order.
pub fn frames_of(
    alloc: Global,
    parts: &Parts,
    config: &Config,
    owner: Owner,
) -> Result<Vec<FrameNo>, Memory>
    ensures { IfOk result (λ frames. frames.items ≡ frames_of (state_of config.now parts.now) owner) }
{
    match owner {
        Owner::Core | Owner::Host => owned_by(alloc, parts, config, &owner),
        Owner::Free => match parts.free() {
            Some(ends) => listed(alloc, parts, ends),
            None => Ok(Vec::new(alloc)),
        },
        Owner::Vm(vm) => vm_frames(alloc, parts, config, vm),
    }
}

/// Lists the frames of a VM, in the order of its list.
fn vm_frames(
    alloc: Global,
    parts: &Parts,
    config: &Config,
    vm: VmId,
) -> Result<Vec<FrameNo>, Memory>
    ensures { IfOk result (λ frames. frames.items ≡ (slot_at (state_of config.now parts.now) vm).frames) }
{
    if vm.index() >= config.slots() as usize {
        return Ok(Vec::new(alloc));
    }
    match parts.try_slot(vm) {
        Some(vm) => listed(alloc, parts, vm.list()),
        None => Ok(Vec::new(alloc)),
    }
}
