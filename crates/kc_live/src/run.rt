//! A whole live run: from programs to a closed history with its receipts.
ghost use Rattle.std.specs.Prelude.{◌≡◌, ◌↔◌, ◌≤◌, map, true, false, is_some, IfOk, IfErr, OnOk, IfSome, MatchOption, IsTrue};
ghost use Rattle.kc_types.specs.Limits.{call_limit};
ghost use Rattle.kc_live.specs.Book.{IsWholeFrom, volume_in};
ghost use Rattle.kc_live.specs.Program.{receipt_calls, HasCalls, HasNoOthers};
ghost use Rattle.kc_live.specs.Settling.{IsSettled, IsAnswer};
ghost use Rattle.kc_live.specs.Plans.{MayRunTogether};
ghost use Rattle.kc_live.specs.Stops.{IsCauseOf, IsLate, IsLeftHistory, FitsHistory, run_cause, thread_cause};

use crate::book::History;
use crate::early::{first_bad, first_stranger, has_too_many};
use crate::fault::LiveFault;
use crate::live_core::LiveCore;
use crate::program::{Program, ThreadStop};
use crate::receipt::Receipt;
use crate::settling::Marks;
use crate::stop::{LiveCause, LiveStop};
use crate::threads::{Made, Places, make_calls};
use kc_core::Gate;
use kc_types::{CALL_LIMIT, Config, Memory};
use std::alloc::Global;
use std::sync::Wait;
use std::thread::Threads;

/// Gives the stop of a run that was refused before it began.
pub fn refused(cause: LiveCause) -> LiveStop
    ensures { result ≡ record { cause = cause; history = None; is_settled = false } }
{
    LiveStop {
        cause,
        history: None,
        is_settled: false,
    }
}

/// Gives the stop of a run that left a history.
fn stopped(cause: LiveCause, history: History, is_settled: bool) -> LiveStop
    ensures { result ≡ record { cause = cause; history = Some history; is_settled = is_settled } }
{
    LiveStop {
        cause,
        history: Some(history),
        is_settled,
    }
}

/// Takes all memory that a run needs beside its calls, before it begins: a copy of the configuration, the core, room
/// to settle its history, and places for the threads of this many programs.
fn open(
    alloc: Global,
    config: Config,
    programs: usize,
) -> Result<(Config, LiveCore, Marks, Places), Memory>
    ensures config { IfOk result (λ r. r.0 ≡ config) }
    ensures marks { IfOk result (λ r. r.2 ≡ call_limit) }
    ensures places { IfOk result (λ r. programs ≤ r.3) }
{
    let kept = config.copy()?;
    let core = LiveCore::new(alloc, config)?;
    let marks = Marks::with_room(alloc, CALL_LIMIT)?;
    let places = Places::with_room(alloc, programs)?;
    Ok((kept, core, marks, places))
}

/// Judges the programs: what is wrong with them, if anything is.
fn early_stop(config: &Config, programs: &[Program]) -> Option<LiveCause>
    ensures cause { MatchOption result (MayRunTogether config.now programs.now) (IsCauseOf config.now programs.now) }
    ensures early { IfSome result (λ cause. FitsHistory cause false) }
{
    if let Some(program) = first_bad(config, programs) {
        return Some(LiveCause::BadActor(program));
    }
    if let Some((program, call)) = first_stranger(programs) {
        return Some(LiveCause::NotYours(program, call));
    }
    if has_too_many(programs) {
        return Some(LiveCause::HistoryFull);
    }
    None
}

/// The cause of a run whose threads did not make all calls.
fn cause_of(stop: ThreadStop) -> LiveCause
    ensures cause { result ≡ thread_cause stop }
    ensures late { IsLate result }
    ensures begun { FitsHistory result true }
{
    match stop {
        ThreadStop::Start => LiveCause::Start,
        ThreadStop::Fault(LiveFault::Memory) => LiveCause::Memory,
        ThreadStop::Fault(_) => LiveCause::Unsettled,
    }
}

/// Why a run gives no answer, if it does not: what stopped a thread goes before receipts that are not the history's.
fn run_cause(stop: Option<ThreadStop>, is_settled: bool) -> Option<LiveCause>
    ensures cause { result ≡ run_cause stop is_settled }
    ensures late { IfSome result IsLate }
    ensures begun { IfSome result (λ cause. FitsHistory cause true) }
{
    match stop {
        Some(stop) => Some(cause_of(stop)),
        None if is_settled => None,
        None => Some(LiveCause::Unsettled),
    }
}

fn is_same_config(config: &Config, other: &Config) -> bool
    ensures { IsTrue result ↔ (config.now ≡ other.now) }
{
    config == other
}

/// Whether the rows are those of the history, and this is of the configuration and has one volume.
fn is_answer(config: &Config, history: &History, marks: Marks, rows: &[Vec<Receipt>]) -> bool
    requires { marks ≡ call_limit }
    ensures { IsTrue result ↔ IsAnswer config.now history.now (map (λ v. v.items) rows.now) }
{
    is_same_config(history.core().config(), config)
        && history.volume().number() == 0
        && marks.settle(history.volume(), rows)
}

/// Runs each program in a thread of its own, and gives the closed history and each program's receipts.
///
/// Before the run the programs are judged: `BadActor`, `NotYours` and `HistoryFull` come in this order. Each thread is
/// joined, whatever happens; a program that is out of memory makes no more calls, one whose thread could not be
/// started makes none, and the others go on to their ends. Then the receipts are settled with the history. `Start` goes
/// before `Memory`, and both before `Unsettled`, if the receipts are not the history's. For call `j` of program `p` the
/// gate is given `j` plus the lengths of the programs before `p`, outside the lock.
pub fn run_live<G: Gate + Sync, R: Threads + Wait + Sync>(
    rt: &R,
    alloc: Global,
    config: Config,
    programs: Vec<Program>,
    gate: &G,
) -> Result<(History, Vec<Vec<Receipt>>), LiveStop>
    // The programs were in order, or the cause is what is wrong with them, or shows only in a run.
    ensures sound { OnOk result (MayRunTogether config programs.items) }
    ensures stop { IfErr result (λ stop. IsCauseOf config programs.items stop.cause) }
    ensures history { IfErr result (λ stop. FitsHistory stop.cause (is_some stop.history)) }
    ensures left { IfErr result (λ stop. IfSome stop.history (IsLeftHistory config programs.items stop.is_settled)) }

    // One thread could have made the history from the boot state of the configuration on, it keeps the promises, and the
    // receipts are just those of it.
    ensures whole { IfOk result (λ r. IsWholeFrom config r.0.log) }
    ensures settled { IfOk result (λ r. IsSettled (volume_in r.0) (map (λ v. v.items) r.1.items)) }

    // Row by row the receipts are of the programs' calls, and so is the history, actor by actor.
    ensures rows { IfOk result (λ r. map (λ row. receipt_calls row.items) r.1.items ≡ map (λ p. p.calls) programs.items) }
    ensures calls { IfOk result (λ r. HasCalls r.0.log.entries programs.items) }
    ensures others { IfOk result (λ r. HasNoOthers r.0.log.entries programs.items) }
{
    if let Some(cause) = early_stop(&config, programs.as_slice()) {
        return Err(refused(cause));
    }
    let Ok((config, core, marks, places)) = open(alloc, config, programs.len()) else {
        return Err(refused(LiveCause::Memory));
    };
    let Made { rows, stop } = make_calls(rt, alloc, &core, gate, programs, places);
    let history = core.close();
    let is_settled = is_answer(&config, &history, marks, rows.as_slice());
    match run_cause(stop, is_settled) {
        Some(cause) => Err(stopped(cause, history, is_settled)),
        None => Ok((history, rows)),
    }
}
