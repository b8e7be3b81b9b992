//! The calls that hand a frame of the host's to a slot.
ghost use Rattle.std.specs.Prelude.{◌≡◌, ◌<◌, None, [], ◌∷◌, IsSome, IfOk};
ghost use Rattle.kc_types.specs.Configuration.{gfns_of, slot_count};
ghost use Rattle.kc_types.specs.declared.owner.Owner.TheVariants.{Host};
ghost use Rattle.kc_types.specs.declared.call.Call.TheVariants.{Remap, Map};
ghost use Rattle.kc_types.specs.Refusals.{Answers};
ghost use Rattle.kc_model.specs.State.{mapped_at};
ghost use Rattle.kc_model.specs.Refusals.{refusal, first_of_these, not_host, tables_full};
ghost use Rattle.kc_model.specs.Effects.{hand};
ghost use Rattle.kc_parts.specs.Parts.{page_at, vm_at};
ghost use Rattle.kc_parts.specs.States.{state_of, owner_at, IsLinked};
ghost use Rattle.kc_core.specs.Applying.{IsAble, IsAnswer, KeepsPlaces, reply_of};
ghost use Rattle.kc_core.specs.Hands.{IsNextPage, IsAwaited};

use crate::guest::spend_fault;
use crate::naming::{expect_vcpu, named_vcpu};
use kc_parts::Parts;
use kc_types::{Config, FrameNo, Gfn, MaybeGfn, Owner, OwnerCode, Refusal, Reply, VcpuId, VmId};

/// Checks that a frame can be handed to a slot at a guest frame, or returns why not.
fn expect_room(
    parts: &Parts,
    config: &Config,
    vm: VmId,
    gfn: Gfn,
    frame: FrameNo,
) -> Result<(), Refusal>
    requires low { vm < slot_count config.now }
    requires linked { IsLinked config.now parts.now }
    ensures { Answers result (first_of_these (not_host (state_of config.now parts.now) frame ∷ tables_full (state_of config.now parts.now) vm gfn ∷ [])) }
{
    if parts.record_of(frame).owner.get() != Owner::Host {
        return Err(Refusal::NotHost);
    }
    if !parts.fits_in(config, vm, gfn) {
        return Err(Refusal::TablesFull);
    }
    Ok(())
}

/// Hands a frame of the host's to a slot, which sees it at a guest frame and has it last in its list.
fn hand(parts: &mut Parts, config: &Config, vm: VmId, gfn: Gfn, frame: FrameNo)
    requires linked { IsLinked config.now parts.old }
    requires slot { IsSome (vm_at parts.old vm) }
    requires exists { vm < slot_count config.now }
    requires within { gfn < gfns_of config.now.version }
    requires page { IsSome (page_at parts.old frame) }
    requires host { owner_at parts.old frame ≡ Host }
    requires unmapped { mapped_at (state_of config.now parts.old) vm gfn ≡ None }
    requires fits { tables_full (state_of config.now parts.old) vm gfn ≡ None }
    ensures state { state_of config.now parts.new ≡ hand (state_of config.now parts.old) vm gfn frame }
    ensures linked { IsLinked config.now parts.new }
    ensures places { KeepsPlaces parts.old parts.new }
{
    let slot = parts.slot_mut(vm);
    slot.table_mut().map(gfn, frame).unwrap();
    let owner = OwnerCode::of(Owner::Vm(vm));
    let place = MaybeGfn::of(Some(gfn));
    let page = parts.page_mut(frame);
    page.meta.owner = owner;
    page.meta.gfn = place;
    page.meta.present = false;
    parts.append_vm(vm, frame);
}

/// A frame of the host's, and where in a slot it goes as the next page of a boot image.
#[derive(Clone, Copy)]
pub struct NextPage {
    pub vm: VmId,
    pub gfn: Gfn,
    pub frame: FrameNo,
}

/// The frame of this number, which may become the next page of the image.
fn next_page(
    parts: &Parts,
    config: &Config,
    vm: u32,
    image: u32,
    frame: u32,
) -> Result<NextPage, Refusal>
    requires { IsLinked config.now parts.now }
    ensures answer { Answers result (refusal (state_of config.now parts.now) (Remap vm image frame)) }
    ensures found { IfOk result (IsNextPage (state_of config.now parts.now) vm image frame) }
{
    let Some(vm) = config.vm(vm) else {
        return Err(Refusal::BadVm);
    };
    let Some(found) = config.frame(frame) else {
        return Err(Refusal::BadFrame);
    };
    let gfn = parts.next_page_of(config, vm, image)?;
    expect_room(parts, config, vm, gfn, found)?;
    Ok(NextPage {
        vm,
        gfn,
        frame: found,
    })
}

/// Hands over a frame of the host's as the next page of a boot image.
pub fn remap(
    parts: &mut Parts,
    config: &Config,
    vm: u32,
    image: u32,
    frame: u32,
) -> Result<Reply, Refusal>
    requires { IsAble config.now parts.old (Remap vm image frame) }
    ensures { IsAnswer config.now parts.old parts.new (Remap vm image frame) (reply_of result) }
{
    let page = next_page(parts, config, vm, image, frame)?;
    hand(parts, config, page.vm, page.gfn, page.frame);
    parts.slot_mut(page.vm).add_page(image);
    Ok(Reply::Done)
}

/// A frame of the host's, and the guest frame for which a virtual processor waits.
#[derive(Clone, Copy)]
pub struct Awaited {
    pub vm: VmId,
    pub vcpu: VcpuId,
    pub gfn: Gfn,
    pub frame: FrameNo,
}

/// The frame of this number, which may go where the virtual processor waits for one.
fn awaited_frame(
    parts: &Parts,
    config: &Config,
    vm: u32,
    vcpu: u32,
    frame: u32,
) -> Result<Awaited, Refusal>
    requires { IsLinked config.now parts.now }
    ensures answer { Answers result (refusal (state_of config.now parts.now) (Map vm vcpu frame)) }
    ensures found { IfOk result (IsAwaited (state_of config.now parts.now) vm vcpu frame) }
{
    let (vm, vcpu) = named_vcpu(config, vm, vcpu)?;
    let Some(found) = config.frame(frame) else {
        return Err(Refusal::BadFrame);
    };
    let slot = expect_vcpu(parts, config, vm, vcpu)?;
    let Some(gfn) = parts.pending_of(config, vm, vcpu) else {
        return Err(Refusal::NoFault);
    };
    if slot.table().get(gfn).is_some() {
        return Err(Refusal::Mapped);
    }
    expect_room(parts, config, vm, gfn, found)?;
    Ok(Awaited {
        vm,
        vcpu,
        gfn,
        frame: found,
    })
}

/// Maps a frame of the host's where a virtual processor waits for one.
pub fn map(
    parts: &mut Parts,
    config: &Config,
    vm: u32,
    vcpu: u32,
    frame: u32,
) -> Result<Reply, Refusal>
    requires { IsAble config.now parts.old (Map vm vcpu frame) }
    ensures { IsAnswer config.now parts.old parts.new (Map vm vcpu frame) (reply_of result) }
{
    let page = awaited_frame(parts, config, vm, vcpu, frame)?;
    hand(parts, config, page.vm, page.gfn, page.frame);
    spend_fault(parts, config, page.vm, page.vcpu);
    Ok(Reply::Done)
}
