//! Making a call, by its kind.
ghost use Rattle.std.specs.Prelude.{◌≡◌, ◌≤◌, true, IfOk, IsOk, IsErr, OnOk, OnErr};
ghost use Rattle.kc_types.specs.ReplyBytes.{is_data, may_lack, most_bytes};
ghost use Rattle.kc_model.specs.Next.{next};
ghost use Rattle.kc_parts.specs.States.{state_of, IsLinked};
ghost use Rattle.kc_core.specs.Applying.{IsAble, IsAnswer, KeepsPlaces, answer_of};

use crate::freeing::{clear, drop_page};
use crate::guest::{guest_read, guest_write};
use crate::hand::{map, remap};
use crate::host::{give, host_fault, host_read, host_write, take};
use crate::shares::{grant, grant_range, revoke, revoke_range};
use crate::slots::{register_vcpu, register_vm, set_boot};
use crate::unserved::Unserved;
use crate::verify::verify_slot;
use kc_parts::Parts;
use kc_types::{Call, CallBuffer, Config, Memory, Reply};

/// Carries out a call, or returns why not. The buffer is for the bytes of the reply, or for those of a page that the call is
/// the first to write, and grows if it is too small for them.
fn serve(
    parts: &mut Parts,
    config: &Config,
    call: &Call,
    buffer: CallBuffer,
) -> Result<Reply, Unserved>
    requires { IsAble config.now parts.old call.now }
    ensures answer { IfOk (answer_of result) (IsAnswer config.now parts.old parts.new call.now) }
    ensures err { OnErr (answer_of result) (parts.new ≡ parts.old) }
    ensures memory { parts.old.is_reserved ≡ true → IsErr (answer_of result) → is_data (next (state_of config.now parts.old) call.now).0 ≡ true }
    ensures sparse { IsErr (answer_of result) → may_lack call.now (next (state_of config.now parts.old) call.now).0 ≡ true }
    ensures fits { most_bytes call.now ≤ buffer → IsOk (answer_of result) }
{
    match call {
        Call::Take => Ok(take(parts, config)?),
        Call::Give { frame } => Ok(give(parts, config, *frame)?),
        Call::HostFault { frame } => Ok(host_fault(parts, config, *frame)?),
        Call::HostRead { frame, offset, len } => {
            host_read(parts, config, *frame, *offset, *len, buffer)
        },
        Call::HostWrite {
            frame,
            offset,
            data,
        } => host_write(parts, config, *frame, *offset, data, buffer),
        Call::RegisterVm { vm } => Ok(register_vm(parts, config, *vm)?),
        Call::RegisterVcpu { vm, vcpu } => Ok(register_vcpu(parts, config, *vm, *vcpu)?),
        Call::SetBoot { vm, base, len } => Ok(set_boot(parts, config, *vm, *base, *len)?),
        Call::Remap { vm, image, frame } => Ok(remap(parts, config, *vm, *image, *frame)?),
        Call::Verify { vm } => Ok(verify_slot(parts, config, *vm)?),
        Call::Map { vm, vcpu, frame } => Ok(map(parts, config, *vm, *vcpu, *frame)?),
        Call::GuestRead {
            vm,
            vcpu,
            gfn,
            offset,
            len,
        } => guest_read(parts, config, *vm, *vcpu, *gfn, *offset, *len, buffer),
        Call::GuestWrite {
            vm,
            vcpu,
            gfn,
            offset,
            data,
        } => guest_write(parts, config, *vm, *vcpu, *gfn, *offset, data, buffer),
        Call::Grant { vm, vcpu, gfn } => Ok(grant(parts, config, *vm, *vcpu, *gfn)?),
        Call::Revoke { vm, vcpu, gfn } => Ok(revoke(parts, config, *vm, *vcpu, *gfn)?),
        Call::GrantRange {
            vm,
            vcpu,
            gfn,
            count,
        } => Ok(grant_range(parts, config, *vm, *vcpu, *gfn, *count)?),
        Call::RevokeRange {
            vm,
            vcpu,
            gfn,
            count,
        } => Ok(revoke_range(parts, config, *vm, *vcpu, *gfn, *count)?),
        Call::Drop { vm, vcpu, gfn } => Ok(drop_page(parts, config, *vm, *vcpu, *gfn)?),
        Call::Clear { vm } => Ok(clear(parts, config, *vm)?),
    }
}

/// Answers a call on parts that hold what it needs, and leaves everything else as it was. The reply is the first
/// refusal that applies, and then nothing changes, or that of the call's effect. The buffer is for the bytes of the
/// reply, or for those of a page that the call is the first to write, and grows if it is too small for them: `Memory` if
/// memory runs out, and then nothing changes. That only happens if the reply would be bytes, or, if the parts are sparse,
/// if bytes would be written.
pub fn apply(
    parts: &mut Parts,
    config: &Config,
    call: &Call,
    buffer: CallBuffer,
) -> Result<Reply, Memory>
    requires { IsAble config.now parts.old call.now }
    ensures reply { IfOk result (λ reply. reply ≡ (next (state_of config.now parts.old) call.now).0) }
    ensures state { OnOk result (state_of config.now parts.new ≡ (next (state_of config.now parts.old) call.now).1) }
    ensures linked { IsLinked config.now parts.new }
    ensures places { KeepsPlaces parts.old parts.new }
    ensures err { OnErr result (parts.new ≡ parts.old) }
    ensures memory { parts.old.is_reserved ≡ true → IsErr result → is_data (next (state_of config.now parts.old) call.now).0 ≡ true }
    ensures sparse { IsErr result → may_lack call.now (next (state_of config.now parts.old) call.now).0 ≡ true }
    ensures fits { most_bytes call.now ≤ buffer → IsOk result }
{
    match serve(parts, config, call, buffer) {
        Ok(reply) => Ok(reply),
        Err(Unserved::Refused(refusal)) => Ok(Reply::Refused(refusal)),
        Err(Unserved::OutOfMemory(memory)) => Err(memory),
    }
}

/// Does what `apply` does, with room for all bytes that the call may need, so that nothing takes memory.
pub fn answer(parts: &mut Parts, config: &Config, call: &Call, buffer: CallBuffer) -> Reply
    requires able { IsAble config.now parts.old call.now }
    requires fits { most_bytes call.now ≤ buffer }
    ensures reply { result ≡ (next (state_of config.now parts.old) call.now).0 }
    ensures state { state_of config.now parts.new ≡ (next (state_of config.now parts.old) call.now).1 }
    ensures linked { IsLinked config.now parts.new }
    ensures places { KeepsPlaces parts.old parts.new }
{
    apply(parts, config, call, buffer).unwrap()
}
