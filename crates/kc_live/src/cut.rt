//! A trace that is cut into programs and run.
ghost use Rattle.std.specs.Prelude.{◌≡◌, ◌↔◌, [], ◌∷◌, is_some, IfSome, IfOk, IfErr, OnOk, MatchOption, IsTrue};
ghost use Rattle.kc_types.specs.Actors.{actor as actor_made};
ghost use Rattle.kc_live.specs.Book.{IsWholeFrom, calls_of};
ghost use Rattle.kc_live.specs.Program.{NoneIs, actors_of};
ghost use Rattle.kc_live.specs.Plans.{AreActors};
ghost use Rattle.kc_live.specs.Cuts.{IsCut, IsFirstUnknown, IsJudgedPart, IsLeftOf, IsPlaceOf, KeepsOrders, MayRun, StopsTrace, callers, with_call};
ghost use Rattle.kc_live.specs.Stops.{FitsHistory};

use crate::book::History;
use crate::early::is_actor;
use crate::program::Program;
use crate::receipt::Receipt;
use crate::run::{refused, run_live};
use crate::stop::{LiveCause, LiveStop};
use kc_core::Gate;
use kc_types::{Actor, Call, Config, Memory, actor_of};
use std::alloc::Global;
use std::sync::Wait;
use std::thread::Threads;

/// Whether the program is the actor's.
fn is_of(program: &Program, actor: Actor) -> bool
    ensures { IsTrue result ↔ (program.now.actor ≡ actor) }
{
    program.actor() == actor
}

/// The place of the actor's program, if it has one.
fn place_of(programs: &[Program], actor: Actor) -> Option<usize>
    ensures { MatchOption result (NoneIs actor (actors_of programs.now)) (IsPlaceOf programs.now actor) }
{
    for i in 0..programs.len() {
        if is_of(&programs[i], actor) {
            return Some(i);
        }
    }
    None
}

/// Makes a program of one call.
fn begun(alloc: Global, call: Call) -> Result<Program, Memory>
    ensures { IfOk result (λ program. program ≡ record { actor = actor_made call; calls = call ∷ [] }) }
{
    let mut program = Program::new(actor_of(&call), Vec::new(alloc));
    program.add(call)?;
    Ok(program)
}

/// Adds a call to the program of its actor, or to a new one.
fn add_call(alloc: Global, programs: &mut Vec<Program>, call: Call) -> Result<(), Memory>
    ensures { OnOk result (programs.new.items ≡ with_call call programs.old.items) }
{
    match place_of(programs.as_slice(), actor_of(&call)) {
        Some(at) => programs[at].add(call)?,
        None => programs.push(begun(alloc, call)?)?,
    }
    Ok(())
}

/// Cuts a trace into one program for each actor, in the order in which the actors first appear.
pub fn programs_of(alloc: Global, calls: Vec<Call>) -> Result<Vec<Program>, Memory>
    ensures { IfOk result (λ programs. IsCut calls.items programs.items) }
{
    let mut programs = Vec::new(alloc);
    for call in calls {
        add_call(alloc, &mut programs, call)?;
    }
    Ok(programs)
}

/// Finds the first call whose actor the core does not have.
fn first_unknown(config: &Config, calls: &[Call]) -> Option<usize>
    ensures { MatchOption result (AreActors config.now (callers calls.now)) (IsFirstUnknown config.now calls.now) }
{
    for at in 0..calls.len() {
        if !is_actor(config, actor_of(&calls[at])) {
            return Some(at);
        }
    }
    None
}

/// Keeps the calls up to the first whose actor the core does not have, and this one: the trace is refused for it, and its
/// actor's program is the last into which these calls are cut.
fn judged_part(config: &Config, calls: Vec<Call>) -> Vec<Call>
    ensures { IsJudgedPart config.now calls.items result.items }
{
    let mut calls = calls;
    if let Some(at) = first_unknown(config, calls.as_slice()) {
        calls.truncate(at + 1);
    }
    calls
}

fn history_of(answer: (History, Vec<Vec<Receipt>>)) -> History
    ensures { result ≡ answer.0 }
{
    answer.0
}

/// Cuts a trace into one program for each actor, in the order in which the actors first appear, and runs them live.
/// The history has each actor's calls in the trace's order. A run that began and gave no answer hands back the
/// history that it left.
pub fn run_trace<G: Gate + Sync, R: Threads + Wait + Sync>(
    rt: &R,
    alloc: Global,
    config: Config,
    calls: Vec<Call>,
    gate: &G,
) -> Result<History, LiveStop>
    // The trace may run, or the cause is what is wrong with it, or shows only in a run.
    ensures sound { OnOk result (MayRun config calls.items) }
    ensures stop { IfErr result (λ stop. StopsTrace config calls.items stop.cause) }
    ensures history { IfErr result (λ stop. FitsHistory stop.cause (is_some stop.history)) }
    ensures left { IfErr result (λ stop. IfSome stop.history (IsLeftOf config calls.items stop.is_settled)) }

    // One thread could have made the history from the boot state of the configuration on, it keeps the promises, and it
    // has each actor's calls in order.
    ensures whole { IfOk result (λ history. IsWholeFrom config history.log) }
    ensures order { IfOk result (λ history. KeepsOrders (calls_of history.log.entries) calls.items) }
{
    let part = judged_part(&config, calls);
    let Ok(programs) = programs_of(alloc, part) else {
        return Err(refused(LiveCause::Memory));
    };
    match run_live(rt, alloc, config, programs, gate) {
        Ok(answer) => Ok(history_of(answer)),
        Err(stop) => Err(stop),
    }
}
