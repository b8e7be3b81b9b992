//! The host's calls on frames: taking and giving them, mapping, reading and writing.
ghost use Rattle.std.specs.Prelude.{◌≡◌, ◌+◌, ◌≤◌, true, length, IsSome, IsOk, IsErr, IfOk, OnOk, OnErr};
ghost use Rattle.kc_types.specs.Limits.{page_size};
ghost use Rattle.kc_types.specs.ReplyBytes.{is_data, may_lack, readable};
ghost use Rattle.kc_types.specs.declared.call.Call.TheVariants.{Take, Give, HostFault, HostRead, HostWrite};
ghost use Rattle.kc_types.specs.Refusals.{Answers};
ghost use Rattle.kc_model.specs.Refusals.{refusal};
ghost use Rattle.kc_model.specs.Effects.{written};
ghost use Rattle.kc_model.specs.Next.{next};
ghost use Rattle.kc_parts.specs.Parts.{page_at};
ghost use Rattle.kc_parts.specs.States.{state_of, IsLinked};
ghost use Rattle.kc_core.specs.Applying.{IsAble, IsAnswer, KeepsPlaces, reply_of, answer_of};

use crate::unserved::Unserved;
use kc_parts::Parts;
use kc_types::{
    CallBuffer, Config, Data, FrameNo, Memory, Owner, OwnerCode, PAGE_SIZE, Refusal, Reply,
};

/// Gives the host the first free frame.
pub fn take(parts: &mut Parts, config: &Config) -> Result<Reply, Refusal>
    requires { IsAble config.now parts.old Take }
    ensures { IsAnswer config.now parts.old parts.new Take (reply_of result) }
{
    let Some(frame) = parts.pop_free() else {
        return Err(Refusal::NoFree);
    };
    let page = parts.page_mut(frame);
    page.meta.owner = OwnerCode::of(Owner::Host);
    page.meta.present = false;
    Ok(Reply::Frame(frame.number()))
}

/// The frame of this number, if it is the host's.
fn host_frame(parts: &Parts, config: &Config, frame: u32) -> Result<FrameNo, Refusal>
    ensures answer { Answers result (refusal (state_of config.now parts.now) (Give frame)) }
    ensures frame { IfOk result (λ found. found ≡ frame) }
{
    let Some(found) = config.frame(frame) else {
        return Err(Refusal::BadFrame);
    };
    if parts.record_of(found).owner.get() != Owner::Host {
        return Err(Refusal::NotHost);
    }
    Ok(found)
}

/// Frees a frame of the host's.
pub fn give(parts: &mut Parts, config: &Config, frame: u32) -> Result<Reply, Refusal>
    requires { IsAble config.now parts.old (Give frame) }
    ensures { IsAnswer config.now parts.old parts.new (Give frame) (reply_of result) }
{
    let frame = host_frame(parts, config, frame)?;
    let page = parts.page_mut(frame);
    page.meta.owner = OwnerCode::of(Owner::Free);
    page.meta.present = false;
    page.bytes.scrub();
    parts.append_free(frame);
    Ok(Reply::Done)
}

/// The frame of this number, if the host may reach it: it is the host's own, or shared.
fn reachable_frame(parts: &Parts, config: &Config, frame: u32) -> Result<FrameNo, Refusal>
    ensures answer { Answers result (refusal (state_of config.now parts.now) (HostFault frame)) }
    ensures frame { IfOk result (λ found. found ≡ frame) }
{
    let Some(found) = config.frame(frame) else {
        return Err(Refusal::BadFrame);
    };
    let record = parts.record_of(found);
    if record.owner.get() != Owner::Host && record.share == 0 {
        return Err(Refusal::Protected);
    }
    Ok(found)
}

/// Marks a frame as present.
pub fn host_fault(parts: &mut Parts, config: &Config, frame: u32) -> Result<Reply, Refusal>
    requires { IsAble config.now parts.old (HostFault frame) }
    ensures { IsAnswer config.now parts.old parts.new (HostFault frame) (reply_of result) }
{
    let frame = reachable_frame(parts, config, frame)?;
    let page = parts.page_mut(frame);
    page.meta.present = true;
    Ok(Reply::Done)
}

/// The frame of this number, if the host may read or write `len` bytes of it from `offset` on.
fn present_frame(
    parts: &Parts,
    config: &Config,
    frame: u32,
    offset: u32,
    len: u32,
) -> Result<FrameNo, Refusal>
    ensures answer { Answers result (refusal (state_of config.now parts.now) (HostRead frame offset len)) }
    ensures frame { IfOk result (λ found. found ≡ frame) }
{
    let Some(found) = config.frame(frame) else {
        return Err(Refusal::BadFrame);
    };
    if len == 0 || len > PAGE_SIZE || offset > PAGE_SIZE - len {
        return Err(Refusal::BadRange);
    }
    if !parts.record_of(found).present {
        return Err(Refusal::NotPresent);
    }
    Ok(found)
}

/// Reads `len` bytes of a frame from `offset` on. `OutOfMemory` if memory for them runs out.
pub fn host_read(
    parts: &Parts,
    config: &Config,
    frame: u32,
    offset: u32,
    len: u32,
    buffer: CallBuffer,
) -> Result<Reply, Unserved>
    requires { IsAble config.now parts.now (HostRead frame offset len) }
    ensures answer { IfOk (answer_of result) (IsAnswer config.now parts.now parts.now (HostRead frame offset len)) }
    ensures memory { IsErr (answer_of result) → is_data (next (state_of config.now parts.now) (HostRead frame offset len)).0 ≡ true }
    ensures fits { readable len ≤ buffer → IsOk (answer_of result) }
{
    let frame = present_frame(parts, config, frame, offset, len)?;
    let buffer = buffer.at_least(len as usize)?;
    let page = parts.page(frame);
    Ok(Reply::Data(page.bytes.read(offset as usize, len as usize, buffer)))
}

/// Writes bytes to a frame, from `offset` on. `Memory` if memory for a sparse page runs out, and then nothing changes.
pub fn write_frame(
    parts: &mut Parts,
    config: &Config,
    frame: FrameNo,
    offset: u32,
    bytes: &Data,
    buffer: CallBuffer,
) -> Result<(), Memory>
    requires here { IsSome (page_at parts.old frame) }
    requires within { offset + length bytes.now ≤ page_size }
    requires linked { IsLinked config.now parts.old }
    ensures state { OnOk result (state_of config.now parts.new ≡ written (state_of config.now parts.old) frame offset bytes.now) }
    ensures linked { IsLinked config.now parts.new }
    ensures places { KeepsPlaces parts.old parts.new }
    ensures err { OnErr result (parts.new ≡ parts.old) }
    ensures reserved { parts.old.is_reserved ≡ true → IsOk result }
    ensures fits { page_size ≤ buffer → IsOk result }
{
    let page = parts.page_mut(frame);
    page.bytes.write(offset as usize, bytes.as_slice(), buffer)?;
    Ok(())
}

/// Writes bytes to a frame, from `offset` on. `OutOfMemory` if memory for a sparse page runs out.
pub fn host_write(
    parts: &mut Parts,
    config: &Config,
    frame: u32,
    offset: u32,
    bytes: &Data,
    buffer: CallBuffer,
) -> Result<Reply, Unserved>
    requires { IsAble config.now parts.old (HostWrite frame offset bytes.now) }
    ensures answer { IfOk (answer_of result) (IsAnswer config.now parts.old parts.new (HostWrite frame offset bytes.now)) }
    ensures err { OnErr (answer_of result) (parts.new ≡ parts.old) }
    ensures reserved { parts.old.is_reserved ≡ true → IsOk (answer_of result) }
    ensures sparse { IsErr (answer_of result) → may_lack (HostWrite frame offset bytes.now) (next (state_of config.now parts.old) (HostWrite frame offset bytes.now)).0 ≡ true }
    ensures fits { page_size ≤ buffer → IsOk (answer_of result) }
{
    let frame = present_frame(parts, config, frame, offset, bytes.as_slice().len() as u32)?;
    write_frame(parts, config, frame, offset, bytes, buffer)?;
    Ok(Reply::Done)
}
