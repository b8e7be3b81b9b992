//! A history that is replayed.
ghost use Rattle.std.specs.Prelude.{◌≡◌, ◌≢◌, ◌<◌, ◌≤◌, ◌⊎◌, ◌↔◌, Err, OnOk, IfOk, IfErr};
ghost use Rattle.kc_types.specs.Limits.{worker_limit};
ghost use Rattle.kc_model.specs.Boot.{boot};
ghost use Rattle.kc_model.specs.Next.{state_after};
ghost use Rattle.kc_live.specs.Book.{IsMadeFrom, calls_of, replies_of};
ghost use Rattle.kc_replay.specs.declared.fault.ReplayFault.TheVariants.{BadWorkers, Broken};

use kc_core::Gate;
use kc_live::{Entry, Volume};
use kc_replay::{Outcome, ReplayFault, replay};
use kc_types::{Call, Config, Memory, WORKER_LIMIT};
use std::alloc::Global;
use std::sync::Wait;
use std::thread::Threads;

/// Copies of the calls of some entries.
fn copied_calls(alloc: Global, entries: &[Entry]) -> Result<Vec<Call>, Memory>
    ensures { IfOk result (λ calls. calls.items ≡ calls_of entries.now) }
{
    let mut calls = Vec::with_capacity(alloc, entries.len())?;
    for entry in entries {
        calls.push(entry.call.copy()?)?;
    }
    Ok(calls)
}

/// Makes the calls of a history of one volume once more, on a core of their own with this configuration, by 1 to 64
/// workers: the replies and the core are those of the history. The gate is given each call by its place in the history.
///
/// `BadWorkers` for any other number of workers, which is judged first; `Start` if a worker could not be started, else
/// `Memory` if a growth was refused.
pub fn replay_history<R: Threads + Wait + Sync, G: Gate + Sync>(
    rt: &R,
    alloc: Global,
    config: Config,
    volume: &Volume,
    workers: usize,
    gate: &G,
) -> Result<Outcome, ReplayFault>
    requires { IsMadeFrom (boot config) volume.now.entries }
    ensures replies { IfOk result (λ outcome. outcome.replies.items ≡ replies_of volume.now.entries) }
    ensures state { IfOk result (λ outcome. outcome.core.state ≡ state_after (boot config) (calls_of volume.now.entries)) }
    ensures workers { OnOk result ((0 < workers) × (workers ≤ worker_limit)) }
    ensures bad_workers { IfErr result (λ fault. (fault ≡ BadWorkers) ↔ ((workers ≡ 0) ⊎ (worker_limit < workers))) }
    ensures whole { result ≢ Err Broken }
    ensures started { result ≡ Err ReplayFault.Start → 1 < workers }
{
    if workers == 0 || workers > WORKER_LIMIT {
        return Err(ReplayFault::BadWorkers);
    }
    let Ok(calls) = copied_calls(alloc, volume.entries()) else {
        return Err(ReplayFault::Memory);
    };
    replay(rt, alloc, config, calls.as_slice(), workers, gate)
}
