//! The calls of a trace, or of a segment of one, from a core on.
ghost use Rattle.std.specs.Prelude.{◌≡◌, ◌≢◌, ◌<◌, ◌≤◌, length, OnOk, IfOk, IfErr};
ghost use Rattle.kc_types.specs.Limits.{call_limit};
ghost use Rattle.kc_model.specs.Promises.{KeepsPromises};
ghost use Rattle.kc_model.specs.Lawful.{IsLawful};
ghost use Rattle.kc_model.specs.Next.{replies_from, state_after};
ghost use Rattle.kc_model.specs.Footprints.{state_at};
ghost use Rattle.kc_footprints.specs.Footprints.{AreFootprints};
ghost use Rattle.kc_replay.specs.declared.fault.ReplayFault.TheVariants.{Start};
ghost use Rattle.kc_replay.specs.Replayer.{IsReplayOf};
ghost use Rattle.kc_replay.specs.Wave.{IsWave, IsWiped, AreReplied, wave_calls, footprint_of};
ghost use Rattle.kc_footprints.specs.Plan.{AreCallNumbers};

use crate::budget::Budget;
use crate::crew::{Crew, WaveCalls};
use crate::failed::Failed;
use crate::trace::footprints;
use crate::wave::run_wave;
use kc_core::{Gate, KCore};
use kc_footprints::{Footprints, Plan};
use kc_types::{Call, Memory, Reply};
use std::alloc::Global;
use std::sync::Wait;
use std::thread::Threads;

/// The replies to some calls, in their order, and the core that they leave.
#[derive(Drop)]
pub struct Outcome {
    pub replies: Vec<Reply>,
    pub core: KCore,
}

/// Makes the calls of a wave one after another, on this thread.
fn answer_wave<G: Gate>(
    core: &mut KCore,
    calls: &[Call],
    members: &[usize],
    replies: &mut [Reply],
    gate: &G,
) -> Result<(), Memory>
    requires members { AreCallNumbers (length calls.now) members.now }
    requires long { length replies.old ≡ length calls.now }
    ensures replies { OnOk result (AreReplied core.old.state calls.now members.now replies.old replies.new) }
    ensures state { OnOk result (core.new.state ≡ state_at core.old.state (wave_calls calls.now members.now) (length members.now)) }
    ensures config { core.new.state.config ≡ core.old.state.config }
{
    for place in 0..members.len() {
        let number = members[place];
        gate.before(number);
        let reply = core.call(&calls[number])?;
        gate.after(number);
        replies[number] = reply;
    }
    Ok(())
}

/// Has the calls of a wave made by workers.
fn share_wave<R: Threads + Wait + Sync, G: Gate + Sync>(
    crew: &Crew<R, G>,
    core: KCore,
    wave: &WaveCalls,
    workers: usize,
    replies: &mut [Reply],
) -> Result<KCore, Failed>
    requires wave { IsWave core.state wave.now.calls.now (footprint_of wave.now.footprints.now) wave.now.members.now }
    requires footprints { length wave.now.footprints.now.calls ≡ length wave.now.calls.now }
    requires long { length replies.old ≡ length wave.now.calls.now }
    requires workers { 0 < workers }
    ensures replies { OnOk result (AreReplied core.state wave.now.calls.now wave.now.members.now replies.old replies.new) }
    ensures state { IfOk result (λ left. left.state ≡ state_at core.state (wave_calls wave.now.calls.now wave.now.members.now) (length wave.now.members.now)) }
    ensures wiped { IfErr result (λ failed. IsWiped core.state.config failed.left) }
{
    let (config, mut parts) = core.into_parts();
    match run_wave(crew, &config, &mut parts, wave, workers, replies) {
        Ok(()) => Ok(KCore::from_parts(crew.alloc, config, parts)),
        Err(fault) => Err(Failed { fault, left: parts }),
    }
}

/// The number of frames to hash that is worth a thread. SHA-256 takes about 12 to 15 µs for a frame (8,192 frames take
/// 94 to 124 ms on one thread), so these take 0.4 ms or more; starting a thread takes 0.02 to 0.03 ms.
const FRAMES_WORTH_A_THREAD: u32 = 32;

/// The number of parts that may be taken out for each frame that is hashed beside others. Taking a part out and
/// putting it back takes about 0.1 to 1 µs, most of it for the blank page that takes its place, so these take at most
/// a third of what is gained. What other calls do costs no more than taking parts out.
const PARTS_FOR_A_FRAME: u32 = 4;

/// The number of parts that may be out at once, besides one for every five frames of the core: a part that is out takes a
/// place in a task, besides its place in the core.
const PARTS_OUT: u32 = 512;

const FRAMES_FOR_A_PART: u32 = 5;

/// The number of frames that a call hashes.
fn hashed(core: &KCore, call: &Call) -> u32 {
    match call {
        Call::Verify { vm } => core.frames_to_hash(*vm),
        _ => 0,
    }
}

/// What the calls of a wave hash, and what they take out.
#[derive(Clone, Copy)]
struct Work {
    /// The number of calls that hash frames.
    hashing: usize,
    /// The number of frames that all of them hash.
    frames: u32,
    /// The number of frames that they hash, except the longest of them.
    beside: u32,
    /// The most parts that the calls may touch.
    parts: u32,
}

impl Work {
    fn of(core: &KCore, wave: &WaveCalls) -> Work
        requires members { AreCallNumbers (length wave.now.calls.now) wave.now.members.now }
        requires footprints { length wave.now.footprints.now.calls ≡ length wave.now.calls.now }
    {
        let mut hashing: usize = 0;
        let mut frames: u32 = 0;
        let mut longest = 0;
        let mut parts: u32 = 0;
        for place in 0..wave.members.len() {
            let number = wave.members[place];
            let one = hashed(core, &wave.calls[number]);
            hashing = hashing.saturating_add(usize::from(one > 0));
            frames = frames.saturating_add(one);
            longest = longest.max(one);
            parts = parts.saturating_add(wave.footprints.count_at_most(number));
        }
        Work {
            hashing,
            frames,
            beside: frames.saturating_sub(longest),
            parts,
        }
    }

    /// The number of threads that this is worth in a core of this many frames: one for the longest call, and one more
    /// for each group of frames worth a thread, if all that the calls may touch may be taken out for that.
    fn threads(&self, frames: u32) -> usize {
        let most_out = PARTS_OUT + frames / FRAMES_FOR_A_PART;
        if self.parts > most_out || self.parts / PARTS_FOR_A_FRAME > self.beside {
            return 1;
        }
        let more = self.beside / FRAMES_WORTH_A_THREAD;
        self.hashing.min(more as usize + 1)
    }
}

/// Makes the calls of a wave: by workers if a call may wait for another, or if they are worth starting.
fn take_wave<R: Threads + Wait + Sync, G: Gate + Sync>(
    crew: &Crew<R, G>,
    core: KCore,
    wave: &WaveCalls,
    replies: &mut [Reply],
    budget: &mut Budget,
) -> Result<KCore, Failed>
    requires wave { IsWave core.state wave.now.calls.now (footprint_of wave.now.footprints.now) wave.now.members.now }
    requires footprints { length wave.now.footprints.now.calls ≡ length wave.now.calls.now }
    requires members { AreCallNumbers (length wave.now.calls.now) wave.now.members.now }
    requires long { length replies.old ≡ length wave.now.calls.now }
    ensures replies { OnOk result (AreReplied core.state wave.now.calls.now wave.now.members.now replies.old replies.new) }
    ensures state { IfOk result (λ left. left.state ≡ state_at core.state (wave_calls wave.now.calls.now wave.now.members.now) (length wave.now.members.now)) }
    ensures wiped { IfErr result (λ failed. IsWiped core.state.config failed.left) }
{
    let work = Work::of(&core, wave);
    let worth = if crew.gate.may_wait() {
        wave.members.len()
    } else {
        work.threads(core.config().frames())
    };
    let workers = crew.workers.min(worth);
    if workers > 1 {
        budget.add_frames(work.frames);
        return share_wave(crew, core, wave, workers, replies);
    }
    let mut core = core;
    if answer_wave(&mut core, wave.calls, wave.members, replies, crew.gate).is_err() {
        return Err(Failed::for_memory(crew.rt, core));
    }
    Ok(core)
}

/// Makes a reply for each call, to be replaced.
fn no_replies(alloc: Global, count: usize) -> Result<Vec<Reply>, Memory>
    ensures { IfOk result (λ replies. length replies.items ≡ count) }
{
    let mut replies = Vec::with_capacity(alloc, count)?;
    for _ in 0..count {
        replies.push(Reply::Done)?;
    }
    Ok(replies)
}

/// What waves need before their first call: the footprints, the plan, and room for the replies.
#[derive(Drop)]
struct Prepared {
    footprints: Footprints,
    plan: Plan,
    replies: Vec<Reply>,
}

fn prepare(alloc: Global, core: &KCore, calls: &[Call]) -> Result<Prepared, Memory>
    requires { length calls.now ≤ call_limit }
    ensures footprints { IfOk result (λ prepared. AreFootprints core.now.state calls.now prepared.footprints) }
    ensures plan { IfOk result (λ prepared. prepared.plan ≡ prepared.footprints.waves) }
    ensures long { IfOk result (λ prepared. length prepared.replies.items ≡ length calls.now) }
{
    let footprints = footprints(alloc, core, calls)?;
    let plan = Plan::make(alloc, &footprints)?;
    let replies = no_replies(alloc, calls.len())?;
    Ok(Prepared {
        footprints,
        plan,
        replies,
    })
}

/// Makes some calls, wave after wave.
fn replay_waves<R: Threads + Wait + Sync, G: Gate + Sync>(
    crew: &Crew<R, G>,
    core: KCore,
    calls: &[Call],
    prepared: Prepared,
    budget: &mut Budget,
) -> Result<Outcome, Failed>
    requires lawful { IsLawful core.state }
    requires footprints { AreFootprints core.state calls.now prepared.footprints }
    requires plan { prepared.plan ≡ prepared.footprints.waves }
    requires long { length prepared.replies.items ≡ length calls.now }
    ensures replayed { IfOk result (IsReplayOf core.state calls.now) }
    ensures wiped { IfErr result (λ failed. IsWiped core.state.config failed.left) }
{
    let Prepared {
        footprints,
        plan,
        mut replies,
    } = prepared;
    let mut store = core;
    for done in 0..plan.waves() {
        let wave = WaveCalls {
            calls,
            footprints: &footprints,
            members: plan.calls_in(done + 1),
        };
        store = take_wave(crew, store, &wave, &mut replies, budget)?;
    }
    Ok(Outcome {
        replies,
        core: store,
    })
}

/// Makes some calls by workers. If that fails, all pages are wiped.
fn answer_by_waves<R: Threads + Wait + Sync, G: Gate + Sync>(
    crew: &Crew<R, G>,
    core: KCore,
    calls: &[Call],
    budget: &mut Budget,
) -> Result<Outcome, Failed>
    requires lawful { IsLawful core.state }
    requires short { length calls.now ≤ call_limit }
    ensures replayed { IfOk result (IsReplayOf core.state calls.now) }
    ensures wiped { IfErr result (λ failed. IsWiped core.state.config failed.left) }
{
    let Ok(prepared) = prepare(crew.alloc, &core, calls) else {
        return Err(Failed::for_memory(crew.rt, core));
    };
    replay_waves(crew, core, calls, prepared, budget)
}

/// Makes some calls in order on this thread, passing each through the gate. If that fails, all pages are wiped.
fn answer_in_order<R: Threads + Sync, G: Gate>(
    crew: &Crew<R, G>,
    core: KCore,
    calls: &[Call],
) -> Result<Outcome, Failed>
    requires lawful { IsLawful core.state }
    ensures replayed { IfOk result (IsReplayOf core.state calls.now) }
    ensures wiped { IfErr result (λ failed. IsWiped core.state.config failed.left) }
    ensures alone { IfErr result (λ failed. failed.fault ≢ Start) }
{
    let mut core = core;
    let Ok(mut replies) = Vec::with_capacity(crew.alloc, calls.len()) else {
        return Err(Failed::for_memory(crew.rt, core));
    };
    for number in 0..calls.len() {
        crew.gate.before(number);
        let Ok(reply) = core.call(&calls[number]) else {
            return Err(Failed::for_memory(crew.rt, core));
        };
        crew.gate.after(number);
        let Ok(()) = replies.push(reply) else {
            return Err(Failed::for_memory(crew.rt, core));
        };
    }
    Ok(Outcome { replies, core })
}

/// Whether at least two of the calls are `verify`, which hashes frames.
fn hash_twice(calls: &[Call]) -> bool {
    let mut hashing = 0;
    for call in calls {
        if let Call::Verify { .. } = call {
            if hashing > 0 {
                return true;
            }
            hashing += 1;
        }
    }
    false
}

/// Whether some calls are worth a plan, and the plan is paid for.
fn is_planned<G: Gate>(core: &KCore, calls: &[Call], gate: &G, budget: &mut Budget) -> bool {
    let config = core.config();
    gate.may_wait() || hash_twice(calls) && budget.pay(config.frames(), config.slots(), calls.len())
}

/// Answers one segment. Uses workers if there are at least two workers and two calls, and if either the gate may wait,
/// or at least two calls hash frames and the budget pays for a plan. No other segment would start a thread, so no plan
/// is made for it. If that fails, all pages are wiped.
pub(crate) fn answer_segment<R: Threads + Wait + Sync, G: Gate + Sync>(
    crew: &Crew<R, G>,
    core: KCore,
    calls: &[Call],
    budget: &mut Budget,
) -> Result<Outcome, Failed>
    requires lawful { IsLawful core.state }
    requires short { length calls.now ≤ call_limit }
    ensures replayed { IfOk result (IsReplayOf core.state calls.now) }
    ensures wiped { IfErr result (λ failed. IsWiped core.state.config failed.left) }
    ensures promises { KeepsPromises core.state calls.now }
    ensures started { IfErr result (λ failed. failed.fault ≡ Start → 1 < crew.now.workers) }
{
    budget.add_calls(calls.len());
    if crew.workers > 1 && calls.len() > 1 && is_planned(&core, calls, crew.gate, budget) {
        return answer_by_waves(crew, core, calls, budget);
    }
    answer_in_order(crew, core, calls)
}
