//! Whether a description is that of a lawful state.
ghost use Rattle.std.specs.Prelude.{OnOk, IfOk, IfErr, ◌≡◌, ◌↔◌, [], length, map};
ghost use Rattle.sha2.specs.Sha256.{sha256};
ghost use Rattle.kc_dump.specs.Sound.{IsSound};
ghost use Rattle.kc_audit.specs.Findings.{AreFindings};
ghost use Rattle.kc_snapshot.specs.Told.{config_of};
ghost use Rattle.kc_snapshot.specs.Unlawful.{IsSized, IsUnlawful, AreSlotsTold};
ghost use Rattle.kc_snapshot.specs.Making.{IsJudged};

use crate::digesting::bytes_digests_alone;
use crate::frames::first_wrong_frame;
use crate::slots::first_wrong_slot;
use crate::told::Told;
use crate::unlawful::Unlawful;
use kc_audit::{Finding, audit, audit_parallel};
use kc_digests::{Lanes, bytes_digests};
use kc_types::{Config, Memory};
use std::alloc::Global;
use std::thread::Threads;

/// Copies the approved digests.
fn approved_of(told: &Told) -> Result<Vec<[u8; 32]>, Memory>
    ensures { IfOk result (λ approved. approved.items ≡ told.now.rest.approved) }
{
    Ok(told.approved.clone()?)
}

/// The configuration, if there is one like this and each of its slots and frames is described.
pub(crate) fn sized(told: &Told) -> Result<Config, Unlawful>
    ensures config { IfOk result (λ config. config ≡ config_of told.now) }
    ensures sized { OnOk result (IsSized told.now) }
    ensures unlawful { IfErr result (IsUnlawful told.now) }
{
    let dump = &told.dump;
    if told.pages.len() != dump.frames().len() || told.slots.len() != dump.slots().len() {
        return Err(Unlawful::Sizes);
    }
    let Ok(approved) = approved_of(told) else {
        return Err(Unlawful::Memory);
    };
    let frames = dump.frames().len() as u32;
    match Config::with_version(
        dump.version(),
        frames,
        dump.core(),
        told.host,
        dump.leaves(),
        approved,
    ) {
        Ok(config) => Ok(config),
        Err(_) => Err(Unlawful::Sizes),
    }
}

/// Judges a description by what an audit of the dump finds and by the slots; returns the first reason why it is that of
/// no lawful state.
fn judge_found(told: &Told, found: &[Finding]) -> Result<(), Unlawful>
    requires sized { IsSized told.now }
    requires found { AreFindings told.now.dump found.now }
    requires sound { (found.now ≡ []) ↔ IsSound told.now.dump }
    ensures sound { OnOk result (IsSound told.now.dump) }
    ensures slots { OnOk result (AreSlotsTold told.now (length told.now.dump.slots)) }
    ensures unlawful { IfErr result (IsUnlawful told.now) }
{
    if let Some(first) = found.first() {
        return Err(Unlawful::Found(*first));
    }
    match first_wrong_slot(&told.dump, told.slots.as_slice()) {
        Some(vm) => Err(Unlawful::Slot(vm)),
        None => Ok(()),
    }
}

/// Judges the frames of a description, given the digests of all pages; returns the first frame that no lawful state
/// has. The dump and the slots are in order.
fn judge_frames(told: &Told, digests: &[[u8; 32]]) -> Result<(), Unlawful>
    requires sized { IsSized told.now }
    requires sound { IsSound told.now.dump }
    requires slots { AreSlotsTold told.now (length told.now.dump.slots) }
    requires digests { digests.now ≡ map sha256 told.now.rest.pages }
    ensures judged { OnOk result (IsJudged told.now) }
    ensures unlawful { IfErr result (IsUnlawful told.now) }
{
    let _in_range = told.dump.slots();
    match first_wrong_frame(&told.dump, told.pages.as_slice(), digests) {
        Some(frame) => Err(Unlawful::Frame(frame)),
        None => Ok(()),
    }
}

/// Judges a description: returns the first reason why it is that of no lawful state. The pages are hashed, and the
/// frames audited, by several threads.
#[tactic(auto, using(crate::proofs::Pages::digests_of))]
pub(crate) fn judge(
    rt: &(impl Threads + Sync),
    alloc: Global,
    told: &Told,
    lanes: Lanes,
) -> Result<(), Unlawful>
    requires { IsSized told.now }
    ensures judged { OnOk result (IsJudged told.now) }
    ensures unlawful { IfErr result (IsUnlawful told.now) }
{
    let Ok(found) = audit_parallel(rt, alloc, &told.dump) else {
        return Err(Unlawful::Memory);
    };
    judge_found(told, found.as_slice())?;
    let Ok(digests) = bytes_digests(rt, alloc, told.pages.as_slice(), lanes) else {
        return Err(Unlawful::Memory);
    };
    judge_frames(told, digests.as_slice())
}

/// Does what `judge` does, on this thread alone.
#[tactic(auto, using(crate::proofs::Pages::digests_of))]
pub(crate) fn judge_alone(alloc: Global, told: &Told) -> Result<(), Unlawful>
    requires { IsSized told.now }
    ensures judged { OnOk result (IsJudged told.now) }
    ensures unlawful { IfErr result (IsUnlawful told.now) }
{
    let Ok(found) = audit(alloc, &told.dump) else {
        return Err(Unlawful::Memory);
    };
    judge_found(told, found.as_slice())?;
    let Ok(digests) = bytes_digests_alone(alloc, told.pages.as_slice()) else {
        return Err(Unlawful::Memory);
    };
    judge_frames(told, digests.as_slice())
}
