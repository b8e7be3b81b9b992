//! Calls on parts of their own, by workers.
ghost use Rattle.std.specs.Prelude.{◌≡◌, ◌<◌, ◌≤◌, [], ◌∷◌, ◌++◌, vec_len, vec_capacity, IfOk, All};
ghost use Rattle.std.specs.List.{AllZip};
ghost use Rattle.std.specs.Prelude.{List};
ghost use Rattle.kc_types.specs.Configuration.{Configuration};
ghost use Rattle.kc_types.specs.declared.call.Call.{Call};
ghost use Rattle.kc_replay.specs.Working.{Finishes, AnswersAll, IsTaskOf, no_config};

use crate::crew::Crew;
use crate::fault::ReplayFault;
use crate::task::{Finished, Task};
use kc_core::{Gate, apply};
use kc_types::{Call, CallBuffer, Config, Memory};
use std::alloc::Global;
use std::marker::{Brand, PhantomData};
use std::snapshot::Snapshot;
use std::sync::Wait;
use std::thread;
use std::thread::{Promise, PromisedHandle, Scope, Threads};

/// Makes one call on its parts.
fn finish<G: Gate>(
    alloc: Global,
    config: &Config,
    calls: &[Call],
    task: Task,
    gate: &G,
) -> Result<Finished, Memory>
    requires { IsTaskOf config.now calls.now task }
    ensures { IfOk result (Finishes config.now calls.now task) }
{
    let mut left = task;
    gate.before(left.number);
    let call = &calls[left.number];
    let reply = apply(&mut left.parts, config, call, CallBuffer::none(alloc));
    gate.after(left.number);
    Ok(Finished {
        reply: reply?,
        left,
    })
}

/// Makes the calls of the tasks in their order.
fn work<G: Gate>(
    alloc: Global,
    config: &Config,
    calls: &[Call],
    tasks: Vec<Task>,
    gate: &G,
) -> Result<Vec<Finished>, Memory>
    requires { All (IsTaskOf config.now calls.now) tasks.items }
    ensures { IfOk result (λ done. AnswersAll config.now calls.now tasks.items done.items) }
{
    let mut done = Vec::with_capacity(alloc, tasks.len())?;
    for task in tasks {
        let finished = finish(alloc, config, calls, task, gate)?;
        done.push(finished)?;
    }
    Ok(done)
}

/// The configuration and the trace that workers are given, as their promise names them.
pub(crate) trait Setting {
    ghost config: { Configuration };

    ghost calls: { List Call };
}

impl Setting for Brand {
    ghost config = { no_config };

    ghost calls = { [] };
}

/// What a worker promises of its tasks.
#[derive(Drop)]
struct TasksOf<S: Setting>(Snapshot<Vec<Task>>, PhantomData<S>);

impl<S: Setting> Promise<Result<Vec<Finished>, Memory>> for TasksOf<S> {
    ghost kept_by = { λ p r. IfOk r (λ done. AnswersAll S.config S.calls p.0.value.items done.items) };
}

/// A running worker.
type Running<S> = PromisedHandle<Result<Vec<Finished>, Memory>, TasksOf<S>>;

/// Waits for all workers.
fn join_workers<R: Threads, S: Setting>(
    rt: &R,
    handles: Vec<Running<S>>,
    all: Vec<Vec<Finished>>,
) -> Result<Vec<Vec<Finished>>, Memory>
    requires empty { all.items ≡ [] }
    requires room { vec_len handles < vec_capacity all }
    ensures done { IfOk result (λ v. AllZip (λ h f. AnswersAll S.config S.calls h.promise.0.value.items f.items) handles.items v.items) }
    ensures room { IfOk result (λ v. vec_len v < vec_capacity v) }
{
    let mut all = all;
    let mut short = false;
    for handle in handles {
        match handle.join(rt) {
            Ok(done) => all.push_reserved(done),
            Err(_) => short = true,
        }
    }
    if short { Err(Memory) } else { Ok(all) }
}

/// Has the calls of each list made by a worker of its own, those of the last list by the calling thread, and waits for
/// all. `Start` if a worker could not be started, otherwise `Memory` if memory runs out.
pub(crate) fn run_workers<R: Threads + Wait + Sync, G: Gate + Sync>(
    crew: &Crew<R, G>,
    config: &Config,
    calls: &[Call],
    lists: Vec<Vec<Task>>,
) -> Result<Vec<Vec<Finished>>, ReplayFault>
    requires { All (λ list. All (IsTaskOf config.now calls.now) list.items) lists.items }
    ensures { IfOk result (λ done. AllZip (λ list f. AnswersAll config.now calls.now list.items f.items) lists.items done.items) }
{
    let mut lists = lists;
    let Some(mine) = lists.pop() else {
        return Ok(Vec::new(crew.alloc));
    };
    run_beside::<R, G, Brand>(crew, config, calls, lists, mine)
}

/// Starts a worker for a list of tasks.
fn start_worker<'s, E, G: Gate + Sync, S: Setting>(
    scope: &Scope<'s, E>,
    alloc: Global,
    config: &'s Config,
    calls: &'s [Call],
    list: Vec<Task>,
    gate: &'s G,
) -> Result<Running<S>, ReplayFault>
    requires setting { (S.config ≡ config.now) × (S.calls ≡ calls.now) }
    requires tasks { All (IsTaskOf config.now calls.now) list.items }
    ensures { IfOk result (λ h. h.promise.0.value ≡ list) }
{
    let promise = TasksOf(Snapshot::of(&list), PhantomData);
    match scope.spawn_with(promise, move || work(alloc, config, calls, list, gate)) {
        Ok(handle) => Ok(handle),
        Err(_) => Err(ReplayFault::Start),
    }
}

/// Has the calls of each list made by a worker of its own, and those of one by the calling thread, and waits for all.
fn run_beside<R: Threads + Wait + Sync, G: Gate + Sync, S: Setting>(
    crew: &Crew<R, G>,
    config: &Config,
    calls: &[Call],
    lists: Vec<Vec<Task>>,
    mine: Vec<Task>,
) -> Result<Vec<Vec<Finished>>, ReplayFault>
    requires setting { (S.config ≡ config.now) × (S.calls ≡ calls.now) }
    requires lists { All (λ list. All (IsTaskOf config.now calls.now) list.items) lists.items }
    requires mine { All (IsTaskOf config.now calls.now) mine.items }
    ensures { IfOk result (λ done. AllZip (λ list f. AnswersAll config.now calls.now list.items f.items) (lists.items ++ mine ∷ []) done.items) }
{
    let Crew {
        rt,
        alloc,
        gate,
        workers: _,
    } = *crew;
    let handles = Vec::with_capacity(alloc, lists.len())?;
    let all = Vec::with_capacity(alloc, lists.len() + 1)?;
    thread::scope(
        thread::scope_env(),
        rt,
        |scope| -> Result<Vec<Vec<Finished>>, ReplayFault>
            requires setting { (S.config ≡ config.now) × (S.calls ≡ calls.now) }
            requires lists { All (λ list. All (IsTaskOf config.now calls.now) list.items) lists.items }
            requires mine { All (IsTaskOf config.now calls.now) mine.items }
            requires empty { (all.items ≡ []) × (handles.items ≡ []) }
            requires room { (vec_len lists ≤ vec_capacity handles) × (vec_len lists < vec_capacity all) }
            ensures { IfOk result (λ done. AllZip (λ list f. AnswersAll config.entry.now calls.entry.now list.items f.items) (lists.items ++ mine ∷ []) done.items) }
        {
            let mut handles: Vec<Running<S>> = handles;
            let mut refused = false;
            for list in lists {
                if !refused {
                    match start_worker(scope, alloc, config, calls, list, gate) {
                        Ok(handle) => handles.push_reserved(handle),
                        Err(_) => refused = true,
                    }
                }
            }
            if refused {
                let _ = join_workers(rt, handles, all);
                return Err(ReplayFault::Start);
            }
            let own = work(alloc, config, calls, mine, gate);
            let mut joined = join_workers(rt, handles, all)?;
            joined.push_reserved(own?);
            Ok(joined)
        },
    )
}
