//! What a virtual processor's call names, looked up once.
ghost use Rattle.std.specs.Prelude.{◌≡◌, ◌<◌, nat_le, [], ◌∷◌, Some, IfOk};
ghost use Rattle.kc_types.specs.Configuration.{gfns_of, slot_count, vcpus_of};
ghost use Rattle.kc_types.specs.Limits.{gfn_limit};
ghost use Rattle.kc_types.specs.Refusals.{Answers};
ghost use Rattle.kc_types.specs.declared.refusal.Refusal.TheVariants.{BadVm, BadVcpu, BadGfn};
ghost use Rattle.kc_model.specs.State.{frame_at, slot_at, mapped_at};
ghost use Rattle.kc_model.specs.Refusals.{first_of_these, when, no_vm, not_active, no_vcpu};
ghost use Rattle.kc_parts.specs.Parts.{links_of};
ghost use Rattle.kc_parts.specs.States.{state_of, slot_in};
ghost use Rattle.kc_core.specs.Guests.{IsAt, AnswersMapped};

use kc_parts::Parts;
use kc_types::{Config, FrameNo, Gfn, Phase, Refusal, VcpuId, VmId};
use kc_vms::Vm;

/// A guest frame, and the virtual processor whose call names it: the numbers of all three exist.
#[derive(Clone, Copy)]
pub struct GuestFrame {
    pub vm: VmId,
    pub vcpu: VcpuId,
    pub gfn: Gfn,
}

/// A guest frame of a slot, and the frame that is mapped there.
#[derive(Clone, Copy)]
pub struct Mapping {
    pub vm: VmId,
    pub gfn: Gfn,
    pub frame: FrameNo,
}

/// The slot and the virtual processor of these numbers, registered or not.
pub fn named_vcpu(config: &Config, vm: u32, vcpu: u32) -> Result<(VmId, VcpuId), Refusal>
    ensures answer { Answers result (first_of_these (when (nat_le (slot_count config.now) vm) BadVm ∷ when (nat_le (vcpus_of config.now.version) vcpu) BadVcpu ∷ [])) }
    ensures named { IfOk result (λ named. (named.0 ≡ vm) × (named.1 ≡ vcpu)) }
    ensures exists { IfOk result (λ named. named.0 < slot_count config.now) }
{
    let Some(vm) = config.vm(vm) else {
        return Err(Refusal::BadVm);
    };
    let Some(vcpu) = config.vcpu(vcpu) else {
        return Err(Refusal::BadVcpu);
    };
    Ok((vm, vcpu))
}

/// The guest frame of these numbers, mapped or not.
pub fn guest_frame(config: &Config, vm: u32, vcpu: u32, gfn: u32) -> Result<GuestFrame, Refusal>
    ensures answer { Answers result (first_of_these (when (nat_le (slot_count config.now) vm) BadVm ∷ when (nat_le (vcpus_of config.now.version) vcpu) BadVcpu ∷ when (nat_le (gfns_of config.now.version) gfn) BadGfn ∷ [])) }
    ensures named { IfOk result (IsAt vm vcpu gfn) }
    ensures exists { IfOk result (λ at. at.vm < slot_count config.now) }
    ensures within { IfOk result (λ at. at.gfn < gfns_of config.now.version) }
{
    let (vm, vcpu) = named_vcpu(config, vm, vcpu)?;
    let Some(gfn) = config.gfn(gfn) else {
        return Err(Refusal::BadGfn);
    };
    Ok(GuestFrame { vm, vcpu, gfn })
}

/// The slot in which a virtual processor makes its call, if it is active and the virtual processor is registered in
/// it.
pub fn expect_vcpu<'a>(
    parts: &'a Parts,
    config: &Config,
    vm: VmId,
    vcpu: VcpuId,
) -> Result<&'a Vm, Refusal>
    requires { vm < slot_count config.now }
    ensures answer { Answers result (first_of_these (no_vm (state_of config.now parts.now) vm ∷ not_active (state_of config.now parts.now) vm ∷ no_vcpu (state_of config.now parts.now) vm vcpu ∷ [])) }
    ensures slot { IfOk result (λ slot. slot_at (state_of config.now parts.now) vm ≡ slot_in (links_of parts.now) (Some slot.now)) }
{
    let Some(slot) = parts.try_slot(vm) else {
        return Err(Refusal::NoVm);
    };
    match slot.phase() {
        Phase::Empty => Err(Refusal::NoVm),
        Phase::Booting | Phase::Dead => Err(Refusal::WrongPhase),
        Phase::Active => if slot.vcpu(vcpu).registered {
            Ok(slot)
        } else {
            Err(Refusal::NoVcpu)
        },
    }
}

/// The frame at a guest frame of a slot, by its number; `None` if nothing is mapped there.
pub fn mapped_at(parts: &Parts, config: &Config, vm: VmId, gfn: u32) -> Option<FrameNo>
    requires exists { vm < slot_count config.now }
    requires low { gfn < gfn_limit }
    ensures { result ≡ mapped_at (state_of config.now parts.now) vm gfn }
{
    parts.mapping_of(config, vm, Gfn::try_new(gfn).unwrap())
}

/// The number of grants of the frame of this number; 0 if there is none.
pub fn grants_of(parts: &Parts, config: &Config, frame: u32) -> u32
    ensures { result ≡ (frame_at (state_of config.now parts.now) frame).share }
{
    match config.frame(frame) {
        Some(frame) => u32::from(parts.record_of(frame).share),
        None => 0,
    }
}

/// The frame at the guest frame of these numbers.
pub fn mapped_frame(
    parts: &Parts,
    config: &Config,
    vm: u32,
    vcpu: u32,
    gfn: u32,
) -> Result<Mapping, Refusal>
    ensures { AnswersMapped (state_of config.now parts.now) vm vcpu gfn result }
{
    let at = guest_frame(config, vm, vcpu, gfn)?;
    let slot = expect_vcpu(parts, config, at.vm, at.vcpu)?;
    let Some(frame) = slot.table().get(at.gfn) else {
        return Err(Refusal::NotMapped);
    };
    Ok(Mapping {
        vm: at.vm,
        gfn: at.gfn,
        frame,
    })
}
