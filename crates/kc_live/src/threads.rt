//! One thread for each program.
ghost use Rattle.std.specs.Prelude.{◌≡◌, ◌≤◌, [], length, map, vec_capacity, None, IfOk, IfSome};
ghost use Rattle.kc_live.specs.Program.{receipt_calls};
ghost use Rattle.kc_live.specs.Threads.{IsRun, AreBeginnings, graver};

use crate::fault::LiveFault;
use crate::live_core::LiveCore;
use crate::program::{MakesCalls, Program, Ran, ThreadStop, run_program};
use crate::receipt::Receipt;
use kc_core::Gate;
use kc_types::Memory;
use std::alloc::Global;
use std::marker::Model;
use std::sync::Wait;
use std::thread;
use std::thread::{PromisedHandle, Threads};

/// The thread of a program, if it could be started. Seen as the calls that it is to make.
#[derive(Drop)]
struct Running {
    promise: MakesCalls,
    handle: Option<PromisedHandle<Ran, MakesCalls>>,
}

impl Model for Running {
    ghost use Rattle.std.specs.Prelude.{◌≡◌, List, IfSome};
    ghost use Rattle.kc_types.specs.declared.call.Call.{Call as Made};

    ghost Value = { List Made };

    ghost view = { λ r. r.promise.0.value.items };

    ghost invariant = { λ r. IfSome r.handle (λ h. h.promise.0.value.items ≡ r.promise.0.value.items) };
}

impl Running {
    fn new(promise: MakesCalls, handle: Option<PromisedHandle<Ran, MakesCalls>>) -> Running
        requires { IfSome handle (λ h. h.promise.0.value.items ≡ promise.0.value.items) }
        ensures { result ≡ promise.0.value.items }
    {
        Running { promise, handle }
    }

    /// Waits for the thread's end.
    fn join<R: Threads>(self, rt: &R, alloc: Global) -> Ran
        ensures { IsRun self result.receipts.items result.stop }
    {
        let Running { promise: _, handle } = self;
        match handle {
            Some(handle) => handle.join(rt),
            None => Ran {
                receipts: Vec::new(alloc),
                stop: Some(ThreadStop::Start),
            },
        }
    }
}

/// Places for the threads of a run and for their receipts, made before the run begins.
#[derive(Drop)]
pub struct Places {
    threads: Vec<Running>,
    rows: Vec<Vec<Receipt>>,
}

impl Model for Places {
    ghost use Rattle.std.specs.Prelude.{◌≡◌, ℕ, [], min, vec_capacity};

    ghost Value = { ℕ };

    ghost view = { λ p. min (vec_capacity p.threads) (vec_capacity p.rows) };

    ghost invariant = { λ p. (p.threads.items ≡ []) × (p.rows.items ≡ []) };
}

impl Places {
    /// Makes places for this many programs; `Memory` if memory runs out.
    pub fn with_room(alloc: Global, programs: usize) -> Result<Places, Memory>
        // No clause can rule out that memory runs out: tests run programs.
        ensures { IfOk result (λ places. programs ≤ places) }
    {
        Ok(Places {
            threads: Vec::with_capacity(alloc, programs)?,
            rows: Vec::with_capacity(alloc, programs)?,
        })
    }

    fn into_parts(self) -> (Vec<Running>, Vec<Vec<Receipt>>)
        ensures none { (result.0.items ≡ []) × (result.1.items ≡ []) }
        ensures room { (self ≤ vec_capacity result.0) × (self ≤ vec_capacity result.1) }
    {
        let Places { threads, rows } = self;
        (threads, rows)
    }
}

/// What the threads of a run made: each program's receipts, and why not all calls were made, if they were not.
#[derive(Drop)]
pub struct Made {
    pub rows: Vec<Vec<Receipt>>,
    pub stop: Option<ThreadStop>,
}

/// Chooses what is reported of two threads: a start that was refused goes first, then out of memory.
fn graver(met: Option<ThreadStop>, stop: Option<ThreadStop>) -> Option<ThreadStop>
    ensures { result ≡ graver met stop }
{
    match (met, stop) {
        (Some(ThreadStop::Start), _) | (_, Some(ThreadStop::Start)) => Some(ThreadStop::Start),
        (Some(ThreadStop::Fault(LiveFault::Memory)), _) => met,
        (_, Some(_)) => stop,
        (_, None) => met,
    }
}

/// Waits for all threads.
fn join_all<R: Threads>(
    rt: &R,
    alloc: Global,
    threads: Vec<Running>,
    rows: Vec<Vec<Receipt>>,
) -> Made
    requires empty { rows.items ≡ [] }
    requires room { length threads.items ≤ vec_capacity rows }
    ensures begun { AreBeginnings (map (λ row. receipt_calls row.items) result.rows.items) threads.items }
    ensures whole { result.stop ≡ None → map (λ row. receipt_calls row.items) result.rows.items ≡ threads.items }
{
    let mut rows = rows;
    let mut stop = None;
    for thread in threads {
        let ran = thread.join(rt, alloc);
        rows.push_reserved(ran.receipts);
        stop = graver(stop, ran.stop);
    }
    Made { rows, stop }
}

/// Makes the calls of each program in a thread of its own. Each thread that starts runs to its end and is joined; a
/// program whose thread could not be started makes no calls.
pub fn make_calls<G: Gate + Sync, R: Threads + Wait + Sync>(
    rt: &R,
    alloc: Global,
    core: &LiveCore,
    gate: &G,
    programs: Vec<Program>,
    places: Places,
) -> Made
    requires { length programs.items ≤ places }
    ensures begun { AreBeginnings (map (λ row. receipt_calls row.items) result.rows.items) (map (λ p. p.calls) programs.items) }
    ensures whole { result.stop ≡ None → map (λ row. receipt_calls row.items) result.rows.items ≡ map (λ p. p.calls) programs.items }
{
    thread::scope(
        thread::scope_env(),
        rt,
        |scope| -> Made
            requires { length programs.items ≤ places }
            ensures begun { AreBeginnings (map (λ row. receipt_calls row.items) result.rows.items) (map (λ p. p.calls) programs.items) }
            ensures whole { result.stop ≡ None → map (λ row. receipt_calls row.items) result.rows.items ≡ map (λ p. p.calls) programs.items }
        {
            let (mut threads, rows) = places.into_parts();
            let mut first = 0usize;
            for program in programs {
                let number = first;
                first = first.wrapping_add(program.calls().len());
                let promise = program.promise();
                let started = scope.spawn_with(program.promise(), move || {
                    run_program(rt, alloc, core, gate, number, program)
                });
                threads.push_reserved(Running::new(promise, started.ok()));
            }
            join_all(rt, alloc, threads, rows)
        },
    )
}
