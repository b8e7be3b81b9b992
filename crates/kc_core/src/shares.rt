//! Granting the host access to one guest frame or to a range of them, and taking it back.
ghost use Rattle.std.specs.Prelude.{◌≡◌, ◌+◌, ◌-◌, ◌<◌, ◌==◌, false, if◌then◌else◌, IsSome, IfOk, ◌≤◌, nat_le, is_none};
ghost use Rattle.kc_types.specs.declared.call.Call.TheVariants.{Grant, Revoke, GrantRange, RevokeRange};
ghost use Rattle.kc_model.specs.State.{frame_at, mapped_at, with_frame};
ghost use Rattle.kc_model.specs.Refusals.{refusal, any_from, share_at};
ghost use Rattle.kc_model.specs.Effects.{granted, revoked};
ghost use Rattle.kc_parts.specs.Parts.{page_at};
ghost use Rattle.kc_parts.specs.States.{state_of, IsLinked};
ghost use Rattle.kc_core.specs.Applying.{IsAble, IsAnswer, KeepsPlaces, reply_of};
ghost use Rattle.kc_core.specs.Guests.{AnswersRange};
ghost use Rattle.kc_types.specs.Configuration.{slot_count};
ghost use Rattle.kc_types.specs.Limits.{gfn_limit, share_limit};
ghost use Rattle.kc_types.specs.Refusals.{Answers};

use crate::naming::{expect_vcpu, grants_of, mapped_at, mapped_frame, named_vcpu};
use kc_page::PageRecord;
use kc_parts::Parts;
use kc_types::{Config, FrameNo, RANGE_LIMIT, Refusal, Reply, SHARE_LIMIT, VmId};

/// The frame at a guest frame to which the host may be granted access once more.
fn grantable_frame(
    parts: &Parts,
    config: &Config,
    vm: u32,
    vcpu: u32,
    gfn: u32,
) -> Result<FrameNo, Refusal>
    ensures answer { Answers result (refusal (state_of config.now parts.now) (Grant vm vcpu gfn)) }
    ensures mapped { IfOk result (λ frame. mapped_at (state_of config.now parts.now) vm gfn ≡ Some frame) }
{
    let found = mapped_frame(parts, config, vm, vcpu, gfn)?;
    if grants_of(parts, config, found.frame.number()) >= SHARE_LIMIT {
        return Err(Refusal::ShareFull);
    }
    Ok(found.frame)
}

/// The frame at a guest frame, if the host has a grant of it that may be taken back.
fn shared_frame(
    parts: &Parts,
    config: &Config,
    vm: u32,
    vcpu: u32,
    gfn: u32,
) -> Result<FrameNo, Refusal>
    ensures answer { Answers result (refusal (state_of config.now parts.now) (Revoke vm vcpu gfn)) }
    ensures mapped { IfOk result (λ frame. mapped_at (state_of config.now parts.now) vm gfn ≡ Some frame) }
{
    let found = mapped_frame(parts, config, vm, vcpu, gfn)?;
    if grants_of(parts, config, found.frame.number()) == 0 {
        return Err(Refusal::NotShared);
    }
    Ok(found.frame)
}

/// Grants the host access to a frame once more.
pub fn grant_frame(parts: &mut Parts, config: &Config, frame: FrameNo)
    requires here { IsSome (page_at parts.old frame) }
    requires few { (frame_at (state_of config.now parts.old) frame).share < 255 }
    requires linked { IsLinked config.now parts.old }
    ensures state { state_of config.now parts.new ≡ with_frame (state_of config.now parts.old) frame (granted (frame_at (state_of config.now parts.old) frame)) }
    ensures linked { IsLinked config.now parts.new }
    ensures places { KeepsPlaces parts.old parts.new }
{
    let page = parts.page_mut(frame);
    page.meta.share += 1;
}

/// The record of a frame with one grant less, which the host no longer reaches if that was the last.
fn revoked(meta: PageRecord) -> PageRecord
    ensures { result ≡ record meta { share = meta.share - 1; present = if meta.share == 1 then false else meta.present } }
{
    PageRecord {
        share: meta.share.saturating_sub(1),
        present: meta.share != 1 && meta.present,
        ..meta
    }
}

/// Takes back one grant of a frame from the host.
pub fn revoke_frame(parts: &mut Parts, config: &Config, frame: FrameNo)
    requires here { IsSome (page_at parts.old frame) }
    requires linked { IsLinked config.now parts.old }
    ensures state { state_of config.now parts.new ≡ with_frame (state_of config.now parts.old) frame (revoked (frame_at (state_of config.now parts.old) frame)) }
    ensures linked { IsLinked config.now parts.new }
    ensures places { KeepsPlaces parts.old parts.new }
{
    let page = parts.page_mut(frame);
    page.meta = revoked(page.meta);
}

/// Grants the host access to a guest frame once more.
pub fn grant(
    parts: &mut Parts,
    config: &Config,
    vm: u32,
    vcpu: u32,
    gfn: u32,
) -> Result<Reply, Refusal>
    requires { IsAble config.now parts.old (Grant vm vcpu gfn) }
    ensures { IsAnswer config.now parts.old parts.new (Grant vm vcpu gfn) (reply_of result) }
{
    let frame = grantable_frame(parts, config, vm, vcpu, gfn)?;
    grant_frame(parts, config, frame);
    Ok(Reply::Done)
}

/// Takes back one grant of a guest frame from the host.
pub fn revoke(
    parts: &mut Parts,
    config: &Config,
    vm: u32,
    vcpu: u32,
    gfn: u32,
) -> Result<Reply, Refusal>
    requires { IsAble config.now parts.old (Revoke vm vcpu gfn) }
    ensures { IsAnswer config.now parts.old parts.new (Revoke vm vcpu gfn) (reply_of result) }
{
    let frame = shared_frame(parts, config, vm, vcpu, gfn)?;
    revoke_frame(parts, config, frame);
    Ok(Reply::Done)
}

/// Whether one of `count` guest frames from `gfn` on is not mapped.
fn any_unmapped(parts: &Parts, config: &Config, vm: VmId, gfn: u32, count: u32) -> bool
    requires exists { vm < slot_count config.now }
    requires low { gfn + count ≤ gfn_limit }
    ensures { result ≡ any_from gfn count (λ h. is_none (mapped_at (state_of config.now parts.now) vm h)) }
{
    (gfn..gfn + count).any(|at| mapped_at(parts, config, vm, at).is_none())
}

/// The number of grants of the frame at a guest frame; those of frame 0 if nothing is mapped there.
fn share_of(parts: &Parts, config: &Config, vm: VmId, gfn: u32) -> u32
    requires exists { vm < slot_count config.now }
    requires low { gfn < gfn_limit }
    ensures { result ≡ share_at (state_of config.now parts.now) vm gfn }
{
    let frame = match mapped_at(parts, config, vm, gfn) {
        Some(frame) => frame.number(),
        None => 0,
    };
    grants_of(parts, config, frame)
}

/// Whether one of the frames is granted 100 times.
fn any_full(parts: &Parts, config: &Config, vm: VmId, gfn: u32, count: u32) -> bool
    requires exists { vm < slot_count config.now }
    requires low { gfn + count ≤ gfn_limit }
    ensures { result ≡ any_from gfn count (λ h. nat_le share_limit (share_at (state_of config.now parts.now) vm h)) }
{
    (gfn..gfn + count).any(|at| share_of(parts, config, vm, at) >= SHARE_LIMIT)
}

/// Whether one of the frames is not granted.
fn any_unshared(parts: &Parts, config: &Config, vm: VmId, gfn: u32, count: u32) -> bool
    requires exists { vm < slot_count config.now }
    requires low { gfn + count ≤ gfn_limit }
    ensures { result ≡ any_from gfn count (λ h. share_at (state_of config.now parts.now) vm h == 0) }
{
    (gfn..gfn + count).any(|at| share_of(parts, config, vm, at) == 0)
}

/// The slot in which a virtual processor may make a call on `count` guest frames from `gfn` on, all of which are
/// mapped.
fn expect_range(
    parts: &Parts,
    config: &Config,
    vm: u32,
    vcpu: u32,
    gfn: u32,
    count: u32,
) -> Result<VmId, Refusal>
    ensures answer { AnswersRange (state_of config.now parts.now) vm vcpu gfn count result }
    ensures slot { IfOk result (λ slot. slot ≡ vm) }
    ensures exists { IfOk result (λ slot. slot < slot_count config.now) }
{
    let (slot, vcpu) = named_vcpu(config, vm, vcpu)?;
    let gfns = config.version().gfns();
    if gfn >= gfns || count > gfns - gfn {
        return Err(Refusal::BadGfn);
    }
    if count == 0 || count > RANGE_LIMIT {
        return Err(Refusal::BadRange);
    }
    expect_vcpu(parts, config, slot, vcpu)?;
    if any_unmapped(parts, config, slot, gfn, count) {
        return Err(Refusal::NotMapped);
    }
    Ok(slot)
}

/// The slot, if the host may be granted access once more to each of `count` guest frames from `gfn` on.
fn grantable_range(
    parts: &Parts,
    config: &Config,
    vm: u32,
    vcpu: u32,
    gfn: u32,
    count: u32,
) -> Result<VmId, Refusal>
    ensures answer { Answers result (refusal (state_of config.now parts.now) (GrantRange vm vcpu gfn count)) }
    ensures slot { IfOk result (λ slot. slot ≡ vm) }
    ensures exists { IfOk result (λ slot. slot < slot_count config.now) }
{
    let slot = expect_range(parts, config, vm, vcpu, gfn, count)?;
    if any_full(parts, config, slot, gfn, count) {
        return Err(Refusal::ShareFull);
    }
    Ok(slot)
}

/// The slot, if the host has a grant of each of `count` guest frames from `gfn` on that may be taken back.
fn shared_range(
    parts: &Parts,
    config: &Config,
    vm: u32,
    vcpu: u32,
    gfn: u32,
    count: u32,
) -> Result<VmId, Refusal>
    ensures answer { Answers result (refusal (state_of config.now parts.now) (RevokeRange vm vcpu gfn count)) }
    ensures slot { IfOk result (λ slot. slot ≡ vm) }
    ensures exists { IfOk result (λ slot. slot < slot_count config.now) }
{
    let slot = expect_range(parts, config, vm, vcpu, gfn, count)?;
    if any_unshared(parts, config, slot, gfn, count) {
        return Err(Refusal::NotShared);
    }
    Ok(slot)
}

/// Grants the host access to each of `count` guest frames from `gfn` on once more.
pub fn grant_range(
    parts: &mut Parts,
    config: &Config,
    vm: u32,
    vcpu: u32,
    gfn: u32,
    count: u32,
) -> Result<Reply, Refusal>
    requires { IsAble config.now parts.old (GrantRange vm vcpu gfn count) }
    ensures { IsAnswer config.now parts.old parts.new (GrantRange vm vcpu gfn count) (reply_of result) }
{
    let slot = grantable_range(parts, config, vm, vcpu, gfn, count)?;
    for at in gfn..gfn + count {
        let frame = mapped_at(parts, config, slot, at).unwrap();
        grant_frame(parts, config, frame);
    }
    Ok(Reply::Done)
}

/// Takes back from the host one grant of each of `count` guest frames from `gfn` on.
pub fn revoke_range(
    parts: &mut Parts,
    config: &Config,
    vm: u32,
    vcpu: u32,
    gfn: u32,
    count: u32,
) -> Result<Reply, Refusal>
    requires { IsAble config.now parts.old (RevokeRange vm vcpu gfn count) }
    ensures { IsAnswer config.now parts.old parts.new (RevokeRange vm vcpu gfn count) (reply_of result) }
{
    let slot = shared_range(parts, config, vm, vcpu, gfn, count)?;
    for at in gfn..gfn + count {
        let frame = mapped_at(parts, config, slot, at).unwrap();
        revoke_frame(parts, config, frame);
    }
    Ok(Reply::Done)
}
