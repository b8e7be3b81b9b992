//! What each slot and the free list may have, and which of them may have a frame in common.
ghost use Rattle.std.specs.Prelude.{◌≡◌, ℕ, ◌<◌, ◌^◌, ◌&&◌, true, length, IfOk, OnOk, IfSome, eqb};
ghost use Rattle.kc_footprints.specs.Reach.{has_member, is_at, reach_of};
ghost use Rattle.kc_footprints.specs.Spans.{span_of, footprint_of};
ghost use Rattle.kc_footprints.specs.Planner.{is_near, is_hit, members_of, IsExact, IsJoined, AreGained, IsStart, AreBelow, HasOneOwnerEach, IsRelated, IsWider};

use crate::footprints::{Footprint, Span};
use crate::names::{Gain, Names};
use crate::reach_set::ReachSet;
use crate::reach_sets::ReachSets;
use std::alloc::{AllocError, Global};
use std::marker::Model;

/// What each principal may have, which principals may have a frame in common, and how many of each slot's frames the
/// free list may have.
#[derive(Drop)]
pub(crate) struct Reaches {
    sets: ReachSets,
    near: ReachSets,
    freed: Vec<usize>,
}

impl Model for Reaches {
    ghost use Rattle.kc_footprints.specs.Planner.{Reached};

    ghost Value = { Reached };

    ghost view = { λ r. record { sets = r.sets; near = r.near; freed = r.freed.items } };
}

impl Reaches {
    /// Whether a principal may have a frame.
    pub(crate) fn contains(&self, principal: usize, frame: u32) -> bool
        requires { principal < length self.now.sets }
        ensures { result ≡ has_member (members_of self.now principal) frame }
    {
        self.sets.contains(principal, frame)
    }

    /// Whether two principals are the same, or may have a frame in common.
    #[tactic(auto, unfolding(crate::specs::Planner::is_near))]
    fn is_near(&self, principal: usize, other: u32) -> bool
        requires principal { principal < length self.now.near }
        requires other { other < length self.now.near }
        requires few { length self.now.near < 2 ^ 32 }
        ensures { result ≡ is_near self.now principal other }
    {
        principal == other as usize
            || self.near.contains(principal, other)
            || self.near.contains(other as usize, principal as u32)
    }

    /// Whether a call touches a principal or what it may have.
    pub(crate) fn is_touched(&self, free: usize, names: &Names, principal: usize) -> bool
        requires sets { principal < length self.now.sets }
        requires near { principal < length self.now.near }
        requires few { length self.now.near < 2 ^ 32 }
        requires slot { IfSome names.now.slot (λ v. v < free) }
        requires free { free < length self.now.near }
        ensures { result ≡ is_hit free names.now self.now principal }
    {
        let by_frame = match names.frame {
            Some(frame) => self.sets.contains(principal, frame),
            None => false,
        };
        let by_slot = match names.slot {
            Some(slot) => self.is_near(principal, slot),
            None => false,
        };
        let by_free = names.free && self.is_near(principal, free as u32);
        by_frame || by_slot || by_free
    }

    /// Returns what each principal may have.
    pub(crate) fn into_sets(self) -> Vec<ReachSet>
        ensures { result.items ≡ self.sets }
    {
        self.sets.into_sets()
    }

    fn span(&self, principal: u32) -> Span
        requires { principal < length self.now.sets }
        ensures { result ≡ span_of self.now.sets principal }
    {
        Span {
            principal,
            length: self.sets.of(principal as usize).len(),
        }
    }

    /// What a call with these names may touch.
    pub(crate) fn footprint(&self, free: usize, names: &Names) -> Footprint
        requires free { free < length self.now.sets }
        requires few { free < 2 ^ 32 }
        requires slot { IfSome names.now.slot (λ v. v < length self.now.sets) }
        ensures { result ≡ footprint_of self.now.sets free names.now }
    {
        let slot = match names.slot {
            Some(slot) => Some(self.span(slot)),
            None => None,
        };
        let free = if names.free {
            Some(self.span(free as u32))
        } else {
            None
        };
        Footprint {
            frame: names.frame,
            slot,
            free,
        }
    }

    /// Relates a principal that may have the frame to each that may have it too.
    fn relate(&mut self, principal: usize, frame: u32) -> Result<(), AllocError>
        requires sets { principal < length self.old.sets }
        requires near { length self.old.near ≡ length self.old.sets }
        requires has { has_member (members_of self.old principal) frame ≡ true }
        ensures { OnOk result (IsRelated (length self.old.sets) principal frame self.old self.new) }
    {
        for other in 0..self.sets.len() {
            if self.sets.contains(other, frame) {
                self.near.add(principal, other as u32)?;
            }
        }
        Ok(())
    }

    /// Lets a principal have a frame.
    pub(crate) fn join(
        &mut self,
        principal: usize,
        frame: u32,
        free: usize,
    ) -> Result<(), AllocError>
        requires principal { principal < length self.old.sets }
        requires free { free < length self.old.sets }
        requires exact { IsExact (length self.old.sets) free self.old }
        ensures { OnOk result (IsJoined (length self.old.sets) free principal frame self.old self.new) }
    {
        self.sets.add(principal, frame)?;
        self.relate(principal, frame)?;
        Ok(())
    }

    /// Lets the free list have what a slot may have.
    pub(crate) fn join_all(&mut self, slot: usize, free: usize) -> Result<(), AllocError>
        requires slot { slot < free }
        requires free { free < length self.old.sets }
        requires exact { IsExact (length self.old.sets) free self.old }
        ensures { let gained = λ (p f : ℕ). eqb free p && has_member (members_of self.old slot) f in
            OnOk result (IsWider (length self.old.sets) free gained self.old self.new) }
    {
        let count = self.sets.of(slot).len();
        for place in self.freed[slot]..count {
            let Some(frame) = self.sets.of(slot).at(place) else {
                unreachable!()
            };
            self.join(free, frame, free)?;
        }
        self.freed[slot] = count;
        Ok(())
    }

    /// Lets principals have what they gain by a call.
    pub(crate) fn gain(&mut self, free: usize, names: &Names) -> Result<(), AllocError>
        requires free { free < length self.old.sets }
        requires slot { IfSome names.now.slot (λ v. v < free) }
        requires exact { IsExact (length self.old.sets) free self.old }
        ensures { OnOk result (AreGained (length self.old.sets) free names.now self.old self.new) }
    {
        match names.gain {
            Gain::Nothing => Ok(()),
            Gain::SlotTakesFrame => self.join_named(names.slot, names.frame, free),
            Gain::FreeTakesFrame => self.join_free(names.free, names.frame, free),
            Gain::FreeTakesReach => self.join_reach(names.free, names.slot, free),
        }
    }

    /// Lets a slot have a frame, if both are named.
    pub(crate) fn join_named(
        &mut self,
        slot: Option<u32>,
        frame: Option<u32>,
        free: usize,
    ) -> Result<(), AllocError>
        requires free { free < length self.old.sets }
        requires slot { IfSome slot (λ v. v < free) }
        requires exact { IsExact (length self.old.sets) free self.old }
        ensures { OnOk result (IsWider (length self.old.sets) free (λ p f. is_at slot p && is_at frame f) self.old self.new) }
    {
        if let (Some(slot), Some(frame)) = (slot, frame) {
            self.join(slot as usize, frame, free)?;
        }
        Ok(())
    }

    /// Lets the free list have a frame, if both are named.
    pub(crate) fn join_free(
        &mut self,
        named: bool,
        frame: Option<u32>,
        free: usize,
    ) -> Result<(), AllocError>
        requires free { free < length self.old.sets }
        requires exact { IsExact (length self.old.sets) free self.old }
        ensures { OnOk result (IsWider (length self.old.sets) free (λ p f. (named && eqb free p) && is_at frame f) self.old self.new) }
    {
        if let (true, Some(frame)) = (named, frame) {
            self.join(free, frame, free)?;
        }
        Ok(())
    }

    /// Lets the free list have what a slot may have, if both are named.
    pub(crate) fn join_reach(
        &mut self,
        named: bool,
        slot: Option<u32>,
        free: usize,
    ) -> Result<(), AllocError>
        requires free { free < length self.old.sets }
        requires slot { IfSome slot (λ v. v < free) }
        requires exact { IsExact (length self.old.sets) free self.old }
        ensures { let reach = λ (q g : ℕ). has_member (members_of self.old q) g in
            let gained = λ (p f : ℕ). (named && eqb free p) && reach_of reach slot f in
            OnOk result (IsWider (length self.old.sets) free gained self.old self.new) }
    {
        if let (true, Some(slot)) = (named, slot) {
            self.join_all(slot as usize, free)?;
        }
        Ok(())
    }
}

/// Sets what the principals may have at the start, with room for this many frames. No frame has two owners.
pub(crate) fn start(
    alloc: Global,
    frames: usize,
    principals: usize,
    free: usize,
    pairs: &[(usize, u32)],
) -> Result<Reaches, AllocError>
    requires free { free < principals }
    requires few { principals < 2 ^ 32 }
    requires pairs { AreBelow principals pairs.now }
    requires one { HasOneOwnerEach pairs.now }
    ensures { IfOk result (λ h. IsStart principals free pairs.now h) }
{
    let mut sets = ReachSets::new(alloc, principals, frames)?;
    for (principal, frame) in pairs {
        sets.add(*principal, *frame)?;
    }
    Ok(Reaches {
        sets,
        near: ReachSets::new(alloc, principals, principals)?,
        freed: vec![in alloc; 0usize; principals]?,
    })
}
