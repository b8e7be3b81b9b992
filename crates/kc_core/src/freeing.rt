//! The calls that free frames of a slot: it gives up one, or is cleared and gives up all.
ghost use Rattle.std.specs.Prelude.{◌≡◌, ◌<◌, false, IsSome, IfOk};
ghost use Rattle.kc_types.specs.declared.call.Call.TheVariants.{Drop, Clear};
ghost use Rattle.kc_types.specs.Refusals.{Answers};
ghost use Rattle.kc_model.specs.Refusals.{refusal};
ghost use Rattle.kc_model.specs.Effects.{freed};
ghost use Rattle.kc_parts.specs.Parts.{page_at};
ghost use Rattle.kc_parts.specs.States.{state_of, IsLinked, IsLoose, is_away};
ghost use Rattle.kc_core.specs.Applying.{IsAble, IsAnswer, KeepsPlaces, reply_of};
ghost use Rattle.kc_core.specs.Guests.{IsMapping};

use crate::naming::{Mapping, grants_of, mapped_frame};
use kc_parts::Parts;
use kc_types::{Config, FrameNo, MaybeGfn, Owner, OwnerCode, Phase, Refusal, Reply, VmId};

/// The frame at a guest frame that may be given up.
fn unshared_frame(
    parts: &Parts,
    config: &Config,
    vm: u32,
    vcpu: u32,
    gfn: u32,
) -> Result<Mapping, Refusal>
    ensures answer { Answers result (refusal (state_of config.now parts.now) (Drop vm vcpu gfn)) }
    ensures mapped { IfOk result (IsMapping (state_of config.now parts.now) vm gfn) }
{
    let found = mapped_frame(parts, config, vm, vcpu, gfn)?;
    if grants_of(parts, config, found.frame.number()) > 0 {
        return Err(Refusal::Shared);
    }
    Ok(found)
}

/// Frees a frame that left its owner's list, whose ends are here: it becomes the last of the free ones, with zero
/// bytes.
fn free_frame(parts: &mut Parts, config: &Config, frame: FrameNo)
    requires linked { IsLinked config.now parts.old }
    requires here { IsSome (page_at parts.old frame) }
    requires loose { IsLoose parts.old frame }
    requires near { is_away parts.old frame ≡ false }
    requires free { IsSome parts.old.free }
    ensures state { state_of config.now parts.new ≡ freed (state_of config.now parts.old) frame }
    ensures linked { IsLinked config.now parts.new }
    ensures places { KeepsPlaces parts.old parts.new }
{
    let page = parts.page_mut(frame);
    page.meta.owner = OwnerCode::of(Owner::Free);
    page.meta.gfn = MaybeGfn::of(None);
    page.meta.present = false;
    page.bytes.scrub();
    parts.append_free(frame);
}

/// Gives up a guest frame of a slot: its frame goes to the end of the free list.
pub fn drop_page(
    parts: &mut Parts,
    config: &Config,
    vm: u32,
    vcpu: u32,
    gfn: u32,
) -> Result<Reply, Refusal>
    requires { IsAble config.now parts.old (Drop vm vcpu gfn) }
    ensures { IsAnswer config.now parts.old parts.new (Drop vm vcpu gfn) (reply_of result) }
{
    let found = unshared_frame(parts, config, vm, vcpu, gfn)?;
    let slot = parts.slot_mut(found.vm);
    slot.table_mut().unmap(found.gfn);
    let list = *slot.list();
    parts.unlink_vm(found.vm, list, found.frame);
    free_frame(parts, config, found.frame);
    Ok(Reply::Done)
}

/// The slot of this number, if it has a VM.
fn used_slot(parts: &Parts, config: &Config, vm: u32) -> Result<VmId, Refusal>
    ensures answer { Answers result (refusal (state_of config.now parts.now) (Clear vm)) }
    ensures slot { IfOk result (λ slot. slot ≡ vm) }
{
    let Some(slot) = config.vm(vm) else {
        return Err(Refusal::BadVm);
    };
    match parts.phase_of(config, slot) {
        Phase::Empty => Err(Refusal::NoVm),
        Phase::Booting | Phase::Active | Phase::Dead => Ok(slot),
    }
}

/// Empties a slot: its frames, with zero bytes, go to the end of the free list in the order in which they came.
pub fn clear(parts: &mut Parts, config: &Config, vm: u32) -> Result<Reply, Refusal>
    requires { IsAble config.now parts.old (Clear vm) }
    ensures { IsAnswer config.now parts.old parts.new (Clear vm) (reply_of result) }
{
    let slot = used_slot(parts, config, vm)?;
    let list = parts.empty_slot(slot);
    parts.append_list(list);
    Ok(Reply::Done)
}
