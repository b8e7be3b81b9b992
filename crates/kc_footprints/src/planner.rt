//! A planner that takes the same time for a call, whatever the call may touch.
ghost use Rattle.std.specs.Prelude.{◌≡◌, ℕ, ◌+◌, ◌<◌, ◌≤◌, ◌^◌, length, get_or, set, replicate, [], eqb};
ghost use Rattle.std.specs.Prelude.{IfOk, IfSome, MatchOption, ◌⊎◌, if◌then◌else◌};
ghost use Rattle.std.specs.List.{IsDistinct};
ghost use Rattle.kc_footprints.specs.Reach.{names_at};
ghost use Rattle.kc_footprints.specs.Spans.{AreFootprintsOf};
ghost use Rattle.kc_footprints.specs.Planner.{IsLastOf, IsHigh, IsTop, IsWritten, IsExact, IsInRange, set_at};
ghost use Rattle.kc_footprints.specs.Planner.{AreBelow, HasOneOwnerEach, has_pair, ArePlanned, AreReached};

use crate::footprints::Footprint;
use crate::names::Names;
use crate::reach_set::ReachSet;
use crate::reaches::{Reaches, start};
use std::alloc::{AllocError, Global};
use std::marker::Model;

/// The last wave of a call that named a frame, the last of a call that named a principal, and the highest of a call
/// that touched a principal or what it may have.
#[derive(Drop)]
pub(crate) struct Planner {
    // By frame; the others are by principal. 0 means no wave.
    frame_waves: Vec<u32>,
    principal_waves: Vec<u32>,
    reach_waves: Vec<u32>,
}

impl Model for Planner {
    ghost use Rattle.kc_footprints.specs.Planner.{Stamps};

    ghost Value = { Stamps };

    ghost view = { λ p. record {
      frame_waves = p.frame_waves.items;
      principal_waves = p.principal_waves.items;
      reach_waves = p.reach_waves.items;
    } };
}

/// The larger of two numbers.
fn larger(a: u32, b: u32) -> u32
    ensures left { a ≤ result }
    ensures right { b ≤ result }
    ensures one { (result ≡ a) ⊎ (result ≡ b) }
{
    if a < b { b } else { a }
}

impl Planner {
    pub(crate) fn new(
        alloc: Global,
        frames: usize,
        principals: usize,
    ) -> Result<Planner, AllocError>
        ensures frame_waves { IfOk result (λ p. p.frame_waves ≡ replicate frames 0) }
        ensures principal_waves { IfOk result (λ p. p.principal_waves ≡ replicate principals 0) }
        ensures reach_waves { IfOk result (λ p. p.reach_waves ≡ replicate principals 0) }
    {
        Ok(Planner {
            frame_waves: vec![in alloc; 0u32; frames]?,
            principal_waves: vec![in alloc; 0u32; principals]?,
            reach_waves: vec![in alloc; 0u32; principals]?,
        })
    }

    /// The last wave of a call that touched a frame.
    pub(crate) fn last_of(&self, reaches: &Reaches, frame: u32) -> u32
        requires frame { frame < length self.now.frame_waves }
        requires sets { length reaches.now.sets ≡ length self.now.principal_waves }
        ensures { IsLastOf (length self.now.principal_waves) frame reaches.now self.now result }
    {
        let mut highest = self.frame_waves[frame as usize];
        for principal in 0..self.principal_waves.len() {
            if reaches.contains(principal, frame) {
                highest = larger(highest, self.principal_waves[principal]);
            }
        }
        highest
    }

    /// The highest wave of a call that shares something with a call with these names.
    pub(crate) fn highest(&self, reaches: &Reaches, free: usize, names: &Names) -> u32
        requires range { IsInRange (length self.now.frame_waves) free names.now }
        requires free { free < length self.now.reach_waves }
        requires principal_waves { length self.now.principal_waves ≡ length self.now.reach_waves }
        requires sets { length reaches.now.sets ≡ length self.now.reach_waves }
        ensures { IsHigh (length self.now.reach_waves) free names.now reaches.now self.now result }
    {
        let by_frame = self.by_frame(reaches, names.frame);
        let by_slot = self.by_slot(names.slot);
        let by_free = self.by_free(free, names.free);
        larger(by_frame, larger(by_slot, by_free))
    }

    pub(crate) fn by_frame(&self, reaches: &Reaches, frame: Option<u32>) -> u32
        requires frame { IfSome frame (λ f. f < length self.now.frame_waves) }
        requires sets { length reaches.now.sets ≡ length self.now.principal_waves }
        ensures { MatchOption frame (result ≡ 0) (λ f. IsLastOf (length self.now.principal_waves) f reaches.now self.now result) }
    {
        match frame {
            Some(frame) => self.last_of(reaches, frame),
            None => 0,
        }
    }

    pub(crate) fn by_slot(&self, slot: Option<u32>) -> u32
        requires { IfSome slot (λ v. v < length self.now.reach_waves) }
        ensures { MatchOption slot (result ≡ 0) (λ v. result ≡ get_or self.now.reach_waves v 0) }
    {
        match slot {
            Some(slot) => self.reach_waves[slot as usize],
            None => 0,
        }
    }

    pub(crate) fn by_free(&self, free: usize, named: bool) -> u32
        requires { free < length self.now.reach_waves }
        ensures { result ≡ (if named then get_or self.now.reach_waves free 0 else 0) }
    {
        if named { self.reach_waves[free] } else { 0 }
    }

    /// Raises the highest wave of each principal if a call touches it or what it may have.
    pub(crate) fn raise(&mut self, reaches: &Reaches, free: usize, names: &Names, wave: u32)
        requires slot { IfSome names.now.slot (λ v. v < free) }
        requires free { free < length self.old.reach_waves }
        requires exact { IsExact (length self.old.reach_waves) free reaches.now }
        ensures reach_waves { let before = self.old.reach_waves in
            IsTop (length before) free wave names.now reaches.now before self.new.reach_waves }
        ensures frame_waves { self.new.frame_waves ≡ self.old.frame_waves }
        ensures principal_waves { self.new.principal_waves ≡ self.old.principal_waves }
        ensures len { length self.new.reach_waves ≡ length self.old.reach_waves }
    {
        for principal in 0..self.reach_waves.len() {
            if self.reach_waves[principal] < wave && reaches.is_touched(free, names, principal) {
                self.reach_waves[principal] = wave;
            }
        }
    }

    /// Records the wave of a call with these names.
    pub(crate) fn note(&mut self, reaches: &Reaches, free: usize, names: &Names, wave: u32)
        requires range { IsInRange (length self.old.frame_waves) free names.now }
        requires free { free < length self.old.reach_waves }
        requires principal_waves { length self.old.principal_waves ≡ length self.old.reach_waves }
        requires exact { IsExact (length self.old.reach_waves) free reaches.now }
        ensures written { IsWritten (length self.old.reach_waves) free names.now wave reaches.now self.old self.new }
        ensures frame_waves { length self.new.frame_waves ≡ length self.old.frame_waves }
        ensures principal_waves { length self.new.principal_waves ≡ length self.old.principal_waves }
        ensures reach_waves { length self.new.reach_waves ≡ length self.old.reach_waves }
    {
        self.raise(reaches, free, names, wave);
        self.note_frame(names.frame, wave);
        self.note_slot(names.slot, wave);
        self.note_free(names.free, free, wave);
    }

    pub(crate) fn note_frame(&mut self, frame: Option<u32>, wave: u32)
        requires { IfSome frame (λ f. f < length self.old.frame_waves) }
        ensures { self.new ≡ record self.old { frame_waves = set_at frame wave self.old.frame_waves } }
    {
        if let Some(frame) = frame {
            self.frame_waves[frame as usize] = wave;
        }
    }

    pub(crate) fn note_slot(&mut self, slot: Option<u32>, wave: u32)
        requires { IfSome slot (λ v. v < length self.old.principal_waves) }
        ensures { self.new ≡ record self.old { principal_waves = set_at slot wave self.old.principal_waves } }
    {
        if let Some(slot) = slot {
            self.principal_waves[slot as usize] = wave;
        }
    }

    pub(crate) fn note_free(&mut self, named: bool, free: usize, wave: u32)
        requires { free < length self.old.principal_waves }
        ensures { let waves = self.old.principal_waves in
            self.new ≡ record self.old { principal_waves = (if named then set waves free wave else waves) } }
    {
        if named {
            self.principal_waves[free] = wave;
        }
    }
}

/// What a walk over the calls of a trace finds: what each principal may have at its end, what each call touches, and
/// the wave of each call.
#[derive(Drop)]
pub(crate) struct Walk {
    pub(crate) sets: Vec<ReachSet>,
    pub(crate) footprints: Vec<Footprint>,
    pub(crate) waves: Vec<u32>,
}

/// Walks over the calls of a trace.
pub(crate) fn walk_calls(
    alloc: Global,
    frames: usize,
    free: usize,
    pairs: &[(usize, u32)],
    calls: &[Names],
) -> Result<Walk, AllocError>
    requires range { (k : ℕ) → k < length calls.now → IsInRange frames free (names_at calls.now k) }
    requires free { free + 1 < 2 ^ 32 }
    requires few { length calls.now < 2 ^ 32 }
    requires pairs { AreBelow (free + 1) pairs.now }
    requires one { HasOneOwnerEach pairs.now }
    ensures len { IfOk result (λ w. length w.waves.items ≡ length calls.now) }
    ensures plan { IfOk result (λ w. ArePlanned free pairs.now calls.now w.waves.items) }
    ensures count { IfOk result (λ w. length w.footprints.items ≡ length calls.now) }
    ensures footprints { IfOk result (λ w. AreFootprintsOf free (has_pair pairs.now) calls.now w.sets.items w.footprints.items) }
    ensures sets { IfOk result (λ w. AreReached free pairs.now calls.now w.sets.items) }
    ensures size { IfOk result (λ w. length w.sets.items ≡ free + 1) }
    ensures once { IfOk result (λ w. (p : ℕ) → IsDistinct eqb (get_or w.sets.items p [])) }
{
    let mut reaches = start(alloc, frames, free + 1, free, pairs)?;
    let mut planner = Planner::new(alloc, frames, free + 1)?;
    let mut waves = Vec::with_capacity(alloc, calls.len())?;
    let mut footprints = Vec::with_capacity(alloc, calls.len())?;
    for names in calls {
        let wave = planner.highest(&reaches, free, names) + 1;
        planner.note(&reaches, free, names, wave);
        let footprint = reaches.footprint(free, names);
        reaches.gain(free, names)?;
        waves.push(wave)?;
        footprints.push(footprint)?;
    }
    Ok(Walk {
        sets: reaches.into_sets(),
        footprints,
        waves,
    })
}
