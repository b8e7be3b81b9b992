//! The calls that change only a slot: it is registered, gets virtual processors, and its boot images are described.
ghost use Rattle.kc_types.specs.declared.call.Call.TheVariants.{RegisterVm, RegisterVcpu, SetBoot};
ghost use Rattle.kc_core.specs.Applying.{IsAble, IsAnswer, reply_of};

use kc_parts::Parts;
use kc_types::{Config, Refusal, Reply};
use kc_vms::pages_of;

/// Registers a VM: an empty slot becomes booting.
pub fn register_vm(parts: &mut Parts, config: &Config, vm: u32) -> Result<Reply, Refusal>
    requires { IsAble config.now parts.old (RegisterVm vm) }
    ensures { IsAnswer config.now parts.old parts.new (RegisterVm vm) (reply_of result) }
{
    let Some(vm) = config.vm(vm) else {
        return Err(Refusal::BadVm);
    };
    let slot = parts.slot_mut(vm);
    slot.register()?;
    Ok(Reply::Done)
}

/// Registers a virtual processor of a booting slot.
pub fn register_vcpu(
    parts: &mut Parts,
    config: &Config,
    vm: u32,
    vcpu: u32,
) -> Result<Reply, Refusal>
    requires { IsAble config.now parts.old (RegisterVcpu vm vcpu) }
    ensures { IsAnswer config.now parts.old parts.new (RegisterVcpu vm vcpu) (reply_of result) }
{
    let Some(vm) = config.vm(vm) else {
        return Err(Refusal::BadVm);
    };
    let Some(vcpu) = config.vcpu(vcpu) else {
        return Err(Refusal::BadVcpu);
    };
    let slot = parts.slot_mut(vm);
    slot.add_vcpu(vcpu)?;
    Ok(Reply::Done)
}

/// Sets a boot image of `len` bytes from guest frame `base` on for a booting slot; its pages are still to come.
pub fn set_boot(
    parts: &mut Parts,
    config: &Config,
    vm: u32,
    base: u32,
    len: u32,
) -> Result<Reply, Refusal>
    requires { IsAble config.now parts.old (SetBoot vm base len) }
    ensures { IsAnswer config.now parts.old parts.new (SetBoot vm base len) (reply_of result) }
{
    let Some(vm) = config.vm(vm) else {
        return Err(Refusal::BadVm);
    };
    let version = config.version();
    let gfns = version.gfns();
    if base >= gfns || pages_of(len) > gfns - base {
        return Err(Refusal::BadGfn);
    }
    let most_bytes = version.most_image_bytes();
    if len == 0 || len > most_bytes {
        return Err(Refusal::BadRange);
    }
    let slot = parts.slot_mut(vm);
    let image = slot.add_image(base, len)?;
    Ok(Reply::Image(image))
}
