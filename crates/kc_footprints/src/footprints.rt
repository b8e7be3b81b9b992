//! What each call of a trace may touch, kept as lengths of what slots and the free list may have.
ghost use Rattle.std.specs.Prelude.{◌≡◌, ℕ, ◌<◌, ◌||◌, ◌++◌, [], eqb, get_or, length, IfOk, OnOk, IfSome};
ghost use Rattle.kc_types.specs.Limits.{frame_limit, slot_limit};
ghost use Rattle.kc_types.specs.declared.resource.Resource.TheVariants as resource;
ghost use Rattle.std.specs.List.{IsDistinct};
ghost use Rattle.kc_model.specs.Resources.{is_wanted, same_resource};
ghost use Rattle.kc_footprints.specs.Reach.{is_at};
ghost use Rattle.kc_footprints.specs.Spans.{has_frame, footprint_has, footprint_at, AreThere, IsThere, IsSpan, frames_of, frame_part, slot_part, free_part};

use crate::planner::Walk;
use crate::reach_set::ReachSet;
use kc_types::{FrameNo, Memory, Resource, VmId};
use std::alloc::{AllocError, Global};
use std::marker::Model;

/// A principal, which is a slot or the free list, and how many of the frames that it may have at the end it may have
/// now.
#[derive(Clone, Copy)]
pub(crate) struct Span {
    pub(crate) principal: u32,
    pub(crate) length: usize,
}

/// What a call may touch.
#[derive(Clone, Copy)]
pub(crate) struct Footprint {
    pub(crate) frame: Option<u32>,
    pub(crate) slot: Option<Span>,
    pub(crate) free: Option<Span>,
}

/// What each call of a trace may touch.
#[derive(Drop)]
pub struct Footprints {
    sets: Vec<ReachSet>,
    calls: Vec<Footprint>,
    waves: Vec<u32>,
}

impl Model for Footprints {
    ghost use Rattle.kc_footprints.specs.Spans.{Footprints, AreThere};

    ghost Value = { Footprints };

    ghost view = { λ f. record { sets = f.sets.items; calls = f.calls.items; waves = f.waves.items } };

    ghost invariant = { λ f. AreThere f.sets.items f.calls.items };
}

fn is_frame(frame: Option<u32>, number: u32) -> bool
    ensures { result ≡ is_at frame number }
{
    match frame {
        Some(frame) => frame == number,
        None => false,
    }
}

fn frame_of(number: u32) -> Resource
    requires { number < frame_limit }
    ensures { result ≡ resource.Frame number }
{
    let Some(frame) = FrameNo::try_new(number) else {
        unreachable!()
    };
    Resource::Frame(frame)
}

fn slot_of(number: u32) -> Resource
    requires { number < slot_limit }
    ensures { result ≡ resource.Vm number }
{
    let Some(vm) = VmId::try_new(number) else {
        unreachable!()
    };
    Resource::Vm(vm)
}

impl Footprints {
    /// Takes over what a walk over the calls has found.
    pub(crate) fn of_walk(walk: Walk) -> Footprints
        requires { AreThere walk.sets.items walk.footprints.items }
        ensures sets { result.sets ≡ walk.sets.items }
        ensures calls { result.calls ≡ walk.footprints.items }
        ensures waves { result.waves ≡ walk.waves.items }
    {
        Footprints {
            sets: walk.sets,
            calls: walk.footprints,
            waves: walk.waves,
        }
    }

    /// The wave of each call, from 1 on.
    pub(crate) fn waves(&self) -> &[u32]
        ensures { result.now ≡ self.now.waves }
    {
        self.waves.as_slice()
    }

    /// The number of calls.
    pub fn len(&self) -> usize
        ensures { result ≡ length self.now.calls }
    {
        self.calls.len()
    }

    /// What a call may touch, in the form in which it is kept.
    fn footprint(&self, number: usize) -> Footprint
        requires { number < length self.now.calls }
        ensures value { result ≡ footprint_at self.now number }
        ensures there { IsThere self.now.sets result }
        ensures once { (p : ℕ) → IsDistinct eqb (get_or self.now.sets p []) }
    {
        self.calls[number]
    }

    /// The most parts that a call may touch; a frame that it names, and that a slot or the free list may have too,
    /// counts twice. Takes the same time for any number of parts.
    pub fn count_at_most(&self, number: usize) -> u32
        // No clause: it is used to decide if threads are worth starting, and any number would do.
        requires { number < length self.now.calls }
    {
        let footprint = self.footprint(number);
        let slot = Footprints::count_of(footprint.slot);
        slot.saturating_add(Footprints::count_of(footprint.free))
            .saturating_add(1)
    }

    /// The number of parts of a principal: itself and what it may have.
    fn count_of(span: Option<Span>) -> u32 {
        match span {
            Some(span) => u32::try_from(span.length)
                .unwrap_or(u32::MAX)
                .saturating_add(1),
            None => 0,
        }
    }

    /// Whether a frame is among the first of what a principal may have.
    #[tactic(auto, using(crate::proofs::Listed::places))]
    fn has(&self, span: Option<Span>, frame: u32) -> bool
        requires { IfSome span (λ s. IsSpan self.now.sets s) }
        ensures { result ≡ has_frame self.now.sets span frame }
    {
        match span {
            Some(span) => match self.sets[span.principal as usize].place_of(frame) {
                Some(place) => place < span.length,
                None => false,
            },
            None => false,
        }
    }

    /// Whether this is the frame, or among the first of what a principal may have.
    fn has_either(&self, frame: Option<u32>, span: Option<Span>, number: u32) -> bool
        requires { IfSome span (IsSpan self.now.sets) }
        ensures { result ≡ (is_at frame number || has_frame self.now.sets span number) }
    {
        is_frame(frame, number) || self.has(span, number)
    }

    /// Lists the first of what a principal may have, except the frame and what the other principal has.
    fn list(
        &self,
        members: &mut Vec<Resource>,
        span: Span,
        frame: Option<u32>,
        other: Option<Span>,
    ) -> Result<(), AllocError>
        requires span { IsSpan self.now.sets span }
        requires other { IfSome other (IsSpan self.now.sets) }
        ensures { OnOk result (members.new.items ≡ members.old.items ++ frames_of self.now.sets frame other span) }
    {
        let set = &self.sets[span.principal as usize];
        for place in 0..span.length {
            let Some(member) = set.at(place) else {
                unreachable!()
            };
            if !self.has_either(frame, other, member) {
                members.push(frame_of(member))?;
            }
        }
        Ok(())
    }

    /// Lists a slot and the first of what it may have, if the frame is listed already.
    fn list_slot(
        &self,
        members: &mut Vec<Resource>,
        slot: Option<Span>,
        frame: Option<u32>,
    ) -> Result<(), AllocError>
        requires slot { IfSome slot (IsSpan self.now.sets) }
        requires low { IfSome slot (λ s. s.principal < slot_limit) }
        ensures { OnOk result (members.new.items ≡ members.old.items ++ slot_part self.now.sets frame slot) }
    {
        if let Some(span) = slot {
            members.push(slot_of(span.principal))?;
            self.list(members, span, frame, None)?;
        }
        Ok(())
    }

    /// Lists the free list and the first of what it may have, if the frame and what the slot may have are listed
    /// already.
    fn list_free(
        &self,
        members: &mut Vec<Resource>,
        free: Option<Span>,
        frame: Option<u32>,
        slot: Option<Span>,
    ) -> Result<(), AllocError>
        requires free { IfSome free (IsSpan self.now.sets) }
        requires slot { IfSome slot (IsSpan self.now.sets) }
        ensures { OnOk result (members.new.items ≡ members.old.items ++ free_part self.now.sets frame slot free) }
    {
        if let Some(span) = free {
            members.push(Resource::Free)?;
            self.list(members, span, frame, slot)?;
        }
        Ok(())
    }

    fn list_frame(members: &mut Vec<Resource>, frame: Option<u32>) -> Result<(), AllocError>
        requires frame { IfSome frame (λ f. f < frame_limit) }
        ensures { OnOk result (members.new.items ≡ members.old.items ++ frame_part frame) }
    {
        if let Some(frame) = frame {
            members.push(frame_of(frame))?;
        }
        Ok(())
    }

    /// Lists the resources that a call may touch, each once, in no particular order. A call's number is its place in
    /// the trace, from 0. `Memory` if memory runs out.
    pub fn of(&self, alloc: Global, number: usize) -> Result<Vec<Resource>, Memory>
        requires { number < length self.now.calls }
        ensures members { IfOk result (λ members. (r : _) → is_wanted members.items r ≡ footprint_has self.now.sets (footprint_at self.now number) r) }
        ensures once { IfOk result (λ members. IsDistinct same_resource members.items) }
    {
        let footprint = self.footprint(number);
        let mut members = Vec::new(alloc);
        Footprints::list_frame(&mut members, footprint.frame)?;
        self.list_slot(&mut members, footprint.slot, footprint.frame)?;
        self.list_free(
            &mut members,
            footprint.free,
            footprint.frame,
            footprint.slot,
        )?;
        Ok(members)
    }
}
