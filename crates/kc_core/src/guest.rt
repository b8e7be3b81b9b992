//! The calls of a virtual processor that read and write its guest frames.
ghost use Rattle.std.specs.Prelude.{◌≡◌, ◌≤◌, ◌<◌, Some, None, true, IsSome, IsOk, IsErr, IfOk, OnErr};
ghost use Rattle.kc_types.specs.Configuration.{gfns_of, slot_count};
ghost use Rattle.kc_types.specs.Limits.{page_size};
ghost use Rattle.kc_types.specs.ReplyBytes.{is_data, may_lack, readable};
ghost use Rattle.kc_types.specs.declared.call.Call.TheVariants.{GuestRead, GuestWrite};
ghost use Rattle.kc_types.specs.declared.slot.Phase.TheVariants.{Active};
ghost use Rattle.kc_types.specs.Refusals.{Answers};
ghost use Rattle.kc_model.specs.State.{slot_at, vcpu_at, mapped_at};
ghost use Rattle.kc_model.specs.Refusals.{refusal};
ghost use Rattle.kc_model.specs.Effects.{with_fault};
ghost use Rattle.kc_model.specs.Next.{next};
ghost use Rattle.kc_parts.specs.Parts.{vm_at};
ghost use Rattle.kc_parts.specs.States.{state_of, IsLinked};
ghost use Rattle.kc_core.specs.Applying.{IsAble, IsAnswer, KeepsPlaces, answer_of};
ghost use Rattle.kc_core.specs.Guests.{IsAt};

use crate::host::write_frame;
use crate::naming::{GuestFrame, expect_vcpu, guest_frame};
use crate::unserved::Unserved;
use kc_parts::Parts;
use kc_types::{CallBuffer, Config, Data, FrameNo, PAGE_SIZE, Refusal, Reply, VcpuId, VmId};

/// The guest frame of which a virtual processor may read or write `len` bytes from `offset` on, and the frame that is
/// mapped there, if one is.
fn accessed(
    parts: &Parts,
    config: &Config,
    vm: u32,
    vcpu: u32,
    gfn: u32,
    offset: u32,
    len: u32,
) -> Result<(GuestFrame, Option<FrameNo>), Refusal>
    ensures answer { Answers result (refusal (state_of config.now parts.now) (GuestRead vm vcpu gfn offset len)) }
    ensures named { IfOk result (λ found. IsAt vm vcpu gfn found.0) }
    ensures within { IfOk result (λ found. found.0.gfn < gfns_of config.now.version) }
    ensures mapped { IfOk result (λ found. found.1 ≡ mapped_at (state_of config.now parts.now) vm gfn) }
{
    let at = guest_frame(config, vm, vcpu, gfn)?;
    if len == 0 || len > PAGE_SIZE || offset > PAGE_SIZE - len {
        return Err(Refusal::BadRange);
    }
    let slot = expect_vcpu(parts, config, at.vm, at.vcpu)?;
    Ok((at, slot.table().get(at.gfn)))
}

/// Lets a registered virtual processor of an active slot wait for a guest frame.
fn set_fault(parts: &mut Parts, config: &Config, at: GuestFrame)
    requires exists { at.vm < slot_count config.now }
    requires here { IsSome (vm_at parts.old at.vm) }
    requires linked { IsLinked config.now parts.old }
    requires active { (slot_at (state_of config.now parts.old) at.vm).phase ≡ Active }
    requires registered { (vcpu_at (state_of config.now parts.old) at.vm at.vcpu).registered ≡ true }
    requires within { at.gfn < gfns_of config.now.version }
    ensures state { state_of config.now parts.new ≡ with_fault (state_of config.now parts.old) at.vm at.vcpu (Some at.gfn) }
    ensures linked { IsLinked config.now parts.new }
    ensures places { KeepsPlaces parts.old parts.new }
{
    parts.slot_mut(at.vm).set_fault(at.vcpu, at.gfn);
}

/// Lets a virtual processor wait for nothing.
pub fn spend_fault(parts: &mut Parts, config: &Config, vm: VmId, vcpu: VcpuId)
    requires exists { vm < slot_count config.now }
    requires here { IsSome (vm_at parts.old vm) }
    requires linked { IsLinked config.now parts.old }
    ensures state { state_of config.now parts.new ≡ with_fault (state_of config.now parts.old) vm vcpu None }
    ensures linked { IsLinked config.now parts.new }
    ensures places { KeepsPlaces parts.old parts.new }
{
    parts.slot_mut(vm).spend_fault(vcpu);
}

/// Reads bytes of a guest frame that is mapped; if it is not, the virtual processor waits for it. `OutOfMemory` if
/// memory for the bytes runs out.
pub fn guest_read(
    parts: &mut Parts,
    config: &Config,
    vm: u32,
    vcpu: u32,
    gfn: u32,
    offset: u32,
    len: u32,
    buffer: CallBuffer,
) -> Result<Reply, Unserved>
    requires { IsAble config.now parts.old (GuestRead vm vcpu gfn offset len) }
    ensures answer { IfOk (answer_of result) (IsAnswer config.now parts.old parts.new (GuestRead vm vcpu gfn offset len)) }
    ensures err { OnErr (answer_of result) (parts.new ≡ parts.old) }
    ensures memory { IsErr (answer_of result) → is_data (next (state_of config.now parts.old) (GuestRead vm vcpu gfn offset len)).0 ≡ true }
    ensures fits { readable len ≤ buffer → IsOk (answer_of result) }
{
    let (at, mapped) = accessed(parts, config, vm, vcpu, gfn, offset, len)?;
    let Some(frame) = mapped else {
        set_fault(parts, config, at);
        return Ok(Reply::Fault(gfn));
    };
    let buffer = buffer.at_least(len as usize)?;
    let page = parts.page(frame);
    let bytes = page.bytes.read(offset as usize, len as usize, buffer);
    spend_fault(parts, config, at.vm, at.vcpu);
    Ok(Reply::Data(bytes))
}

/// Writes bytes to a guest frame that is mapped; if it is not, the virtual processor waits for it. `OutOfMemory` if memory for
/// a sparse page runs out.
pub fn guest_write(
    parts: &mut Parts,
    config: &Config,
    vm: u32,
    vcpu: u32,
    gfn: u32,
    offset: u32,
    bytes: &Data,
    buffer: CallBuffer,
) -> Result<Reply, Unserved>
    requires { IsAble config.now parts.old (GuestWrite vm vcpu gfn offset bytes.now) }
    ensures answer { IfOk (answer_of result) (IsAnswer config.now parts.old parts.new (GuestWrite vm vcpu gfn offset bytes.now)) }
    ensures err { OnErr (answer_of result) (parts.new ≡ parts.old) }
    ensures reserved { parts.old.is_reserved ≡ true → IsOk (answer_of result) }
    ensures sparse { IsErr (answer_of result) → may_lack (GuestWrite vm vcpu gfn offset bytes.now) (next (state_of config.now parts.old) (GuestWrite vm vcpu gfn offset bytes.now)).0 ≡ true }
    ensures fits { page_size ≤ buffer → IsOk (answer_of result) }
{
    let size = bytes.as_slice().len() as u32;
    let (at, mapped) = accessed(parts, config, vm, vcpu, gfn, offset, size)?;
    let Some(frame) = mapped else {
        set_fault(parts, config, at);
        return Ok(Reply::Fault(gfn));
    };
    write_frame(parts, config, frame, offset, bytes, buffer)?;
    spend_fault(parts, config, at.vm, at.vcpu);
    Ok(Reply::Done)
}
