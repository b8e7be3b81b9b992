//! A replay, whole or in segments.
ghost use Rattle.std.specs.Prelude.{◌≡◌, ◌≢◌, ◌+◌, ◌-◌, ◌<◌, ◌≤◌, ◌⊎◌, ◌↔◌, length, option_map, Some, None, Err, OnOk, OnErr, IfOk, IfErr, IsErrOf};
ghost use Rattle.kc_types.specs.Limits.{call_limit, worker_limit};
ghost use Rattle.kc_model.specs.State.{State};
ghost use Rattle.kc_model.specs.Promises.{KeepsPromises};
ghost use Rattle.kc_model.specs.Blind.{ShowsNothing, ShowsNothingFromBoot};
ghost use Rattle.kc_model.specs.Boot.{boot};
ghost use Rattle.kc_model.specs.Lawful.{IsLawful};
ghost use Rattle.kc_model.specs.Next.{replies_from, state_after};
ghost use Rattle.kc_replay.specs.Replayer.{IsFed};
ghost use Rattle.kc_replay.specs.declared.fault.ReplayFault.TheVariants.{BadWorkers, Broken};

use crate::budget::Budget;
use crate::crew::Crew;
use crate::fault::ReplayFault;
use crate::segment::{Outcome, answer_segment};
use kc_core::{Gate, KCore};
use kc_types::{CALL_LIMIT, Call, Config, Reply, WORKER_LIMIT};
use std::alloc::Global;
use std::marker::Model;
use std::sync::Wait;
use std::thread::Threads;

/// The gate of a segment, which gives calls the numbers of their places in the whole trace.
#[derive(Drop)]
struct SegmentGate<'a, G: Gate> {
    gate: &'a G,
    /// The number of calls before the segment.
    fed: usize,
}

impl<'a, G: Gate> Gate for SegmentGate<'a, G> {
    fn before(&self, number: usize) {
        self.gate.before(self.fed.saturating_add(number));
    }

    fn after(&self, number: usize) {
        self.gate.after(self.fed.saturating_add(number));
    }

    fn may_wait(&self) -> bool {
        self.gate.may_wait()
    }
}

/// A replay whose trace comes in segments, cut anywhere. Between two segments it is the core that the calls so far
/// leave; what each call may touch is worked out anew in each segment, so that no segment costs more because of
/// earlier ones.
#[derive(Drop)]
pub struct Replayer {
    /// The core; `None` after a segment that failed.
    core: Option<KCore>,
    workers: usize,
    /// The number of calls so far.
    fed: usize,
    budget: Budget,
}

impl Model for Replayer {
    ghost use Rattle.std.specs.Prelude.{◌<◌, ◌≤◌};
    ghost use Rattle.std.specs.Coded.{codes, coded_ℕ};
    ghost use Rattle.std.specs.FinMap as map;
    ghost use Rattle.std.specs.Ordering.{nat_cmp};
    ghost use Rattle.kc_types.specs.Limits.{call_limit, worker_limit};
    ghost use Rattle.kc_core.specs.KCore.{state_in};
    ghost use Rattle.kc_replay.specs.Replayer.{Replaying};

    ghost Value = { Replaying };

    ghost coded = { Prim.hlevel (codes, map.code {R = nat_cmp} coded_ℕ coded_ℕ) };

    ghost view = { λ r. record { state = state_in r.core; fed = r.fed; workers = r.workers } };

    ghost invariant = { λ r. (0 < r.workers) × (r.workers ≤ worker_limit) × (r.fed ≤ call_limit) };
}

impl Replayer {
    /// Starts a replay in the boot state, by 1 to 64 workers: `BadWorkers` for any other number, which is judged
    /// first, and `Memory` if memory runs out.
    pub fn new(alloc: Global, config: Config, workers: usize) -> Result<Replayer, ReplayFault>
        ensures start { IfOk result (λ replayer. replayer ≡ record { state = Some (boot config); fed = 0; workers = workers }) }
        ensures lawful { OnOk result (IsLawful (boot config)) }
        ensures workers { OnOk result ((0 < workers) × (workers ≤ worker_limit)) }
        ensures bad_workers { IfErr result (λ fault. (fault ≡ BadWorkers) ↔ ((workers ≡ 0) ⊎ (worker_limit < workers))) }
        ensures fault { IfErr result (λ fault. (fault ≡ BadWorkers) ⊎ (fault ≡ ReplayFault.Memory)) }
    {
        if workers == 0 || workers > WORKER_LIMIT {
            return Err(ReplayFault::BadWorkers);
        }
        match KCore::boot_sparse(alloc, config) {
            Ok(core) => Replayer::from_core(core, workers),
            Err(_) => Err(ReplayFault::Memory),
        }
    }

    /// Starts a replay from a core on, by 1 to 64 workers: `BadWorkers` for any other number, and no other fault.
    pub fn from_core(core: KCore, workers: usize) -> Result<Replayer, ReplayFault>
        ensures start { IfOk result (λ replayer. replayer ≡ record { state = Some core.state; fed = 0; workers = workers }) }
        ensures workers { OnOk result ((0 < workers) × (workers ≤ worker_limit)) }
        ensures bad_workers { IfErr result (λ fault. (fault ≡ BadWorkers) × ((workers ≡ 0) ⊎ (worker_limit < workers))) }
    {
        if workers == 0 || workers > WORKER_LIMIT {
            return Err(ReplayFault::BadWorkers);
        }
        Ok(Replayer {
            core: Some(core),
            workers,
            fed: 0,
            budget: Budget::new(),
        })
    }

    /// The number of calls that may still come: 65,536 less those that came.
    pub fn left(&self) -> usize
        ensures value { result ≡ call_limit - self.now.fed }
        ensures few { self.now.fed ≤ call_limit }
    {
        CALL_LIMIT - self.fed
    }

    /// Makes the calls of a segment, and returns their replies in its order: replies, page records, lists, tables and
    /// bytes are those of one thread that makes all calls in the order of the trace. The gate is given each call's
    /// place in the whole trace.
    ///
    /// `Start` if a worker could not be started, otherwise `Memory` if memory runs out; then all pages are wiped,
    /// and every further answer is `Broken`.
    pub fn feed<R: Threads + Wait + Sync, G: Gate + Sync>(
        &mut self,
        rt: &R,
        alloc: Global,
        calls: &[Call],
        gate: &G,
    ) -> Result<Vec<Reply>, ReplayFault>
        requires { self.old.fed + length calls.now ≤ call_limit }
        ensures fed { IfOk result (λ replies. IsFed self.old self.new calls.now replies.items) }
        ensures blind { IfOk result (λ replies. (start : State) → self.old.state ≡ Some start → ShowsNothing start calls.now replies.items (state_after start calls.now)) }
        ensures promises { OnOk result ((start : State) → self.old.state ≡ Some start → KeepsPromises start calls.now) }
        ensures fails { OnErr result (self.new ≡ record self.old { state = None }) }
        ensures broken { IsErrOf result Broken ↔ (self.old.state ≡ None) }
        ensures workers { result ≢ Err BadWorkers }
        ensures started { result ≡ Err ReplayFault.Start → 1 < self.old.workers }
    {
        let Some(core) = self.core.take() else {
            return Err(ReplayFault::Broken);
        };
        let gate = SegmentGate {
            gate,
            fed: self.fed,
        };
        let crew = Crew {
            rt,
            alloc,
            gate: &gate,
            workers: self.workers,
        };
        match answer_segment(&crew, core, calls, &mut self.budget) {
            Ok(outcome) => {
                let Outcome { replies, core } = outcome;
                self.core = Some(core);
                self.fed += calls.len();
                Ok(replies)
            },
            Err(failed) => match failed.fault {
                ReplayFault::Start => Err(ReplayFault::Start),
                _ => Err(ReplayFault::Memory),
            },
        }
    }

    /// The core that the calls so far leave; `None` if a segment failed.
    pub fn core(&self) -> Option<&KCore>
        ensures { option_map (λ core. core.now.state) result ≡ self.now.state }
    {
        self.core.as_ref()
    }

    /// Begins the next volume with the core as it is: 65,536 calls may come again.
    pub fn turn(&mut self)
        ensures { self.new ≡ record self.old { fed = 0 } }
    {
        self.fed = 0;
    }

    /// Returns the core that all calls leave; `Broken` if a segment failed.
    pub fn finish(self) -> Result<KCore, ReplayFault>
        ensures core { IfOk result (λ core. self.state ≡ Some core.state) }
        ensures broken { IfErr result (λ fault. (fault ≡ Broken) × (self.state ≡ None)) }
    {
        match self.core {
            Some(core) => Ok(core),
            None => Err(ReplayFault::Broken),
        }
    }
}

/// Makes the calls of a trace from the boot state on, by 1 to 64 workers: the replies, in the order of the trace, and
/// the core with its page records, lists, tables and bytes are those of one thread that makes the calls in that order.
/// `BadWorkers` for any other number of workers; `Start` if a worker could not be started, otherwise `Memory` if
/// memory runs out, and then all pages are wiped.
pub fn replay<R: Threads + Wait + Sync, G: Gate + Sync>(
    rt: &R,
    alloc: Global,
    config: Config,
    calls: &[Call],
    workers: usize,
    gate: &G,
) -> Result<Outcome, ReplayFault>
    requires { length calls.now ≤ call_limit }
    ensures blind { IfOk result (λ outcome. ShowsNothing (boot config) calls.now outcome.replies.items outcome.core.state) }
    ensures blind_from_boot { IfOk result (λ outcome. ShowsNothingFromBoot config calls.now outcome.replies.items outcome.core.state) }
    ensures promises { OnOk result (KeepsPromises (boot config) calls.now) }
    ensures replies { IfOk result (λ outcome. outcome.replies.items ≡ replies_from (boot config) calls.now) }
    ensures state { IfOk result (λ outcome. outcome.core.state ≡ state_after (boot config) calls.now) }
    ensures workers { OnOk result ((0 < workers) × (workers ≤ worker_limit)) }
    ensures bad_workers { IfErr result (λ fault. (fault ≡ BadWorkers) ↔ ((workers ≡ 0) ⊎ (worker_limit < workers))) }
    ensures whole { result ≢ Err Broken }
    ensures started { result ≡ Err ReplayFault.Start → 1 < workers }
{
    let mut replayer = Replayer::new(alloc, config, workers)?;
    let replies = replayer.feed(rt, alloc, calls, gate)?;
    let core = replayer.finish()?;
    Ok(Outcome { replies, core })
}
