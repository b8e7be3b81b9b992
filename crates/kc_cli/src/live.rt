//! The engine that runs a trace live, over any sources and any sink.
ghost use Rattle.std.specs.Prelude.{◌≡◌, ◌≢◌, ◌<◌, ◌≤◌, ◌⊎◌, ◌↔◌, ◌∷◌, [], ℕ, false, IfOk, IfErr, OnOk, Err, IsErrOf};
ghost use Rattle.std.specs.Io.KnownBytes.{Appends};
ghost use Rattle.kc_types.specs.Limits.{worker_limit};
ghost use Rattle.kc_model.specs.Boot.{boot};
ghost use Rattle.kc_model.specs.Promises.{KeepsPromises};
ghost use Rattle.kc_live.specs.Cuts.{KeepsOrders, MayRun};
ghost use Rattle.kc_live.specs.Book.{IsMadeFrom, calls_of, volume_in};
ghost use Rattle.kc_trace.specs.Spelling.{trace_of};
ghost use Rattle.kc_texts.specs.Written.{AppendsBeginning, Writes, Begins};
ghost use Rattle.kc_texts.specs.Ends.{seen};
ghost use Rattle.kc_faults.specs.Outcomes.{TellsSources, TellsTexts, TellsSink};
ghost use Rattle.kc_cli.specs.Live.{live_fault, IsLiveFault, CouldRun, IsLiveText, HasBadActor};

use crate::history::replay_history;
use crate::reading::read_both;
use kc_core::{Gate, OpenGate};
use kc_faults::TextFault;
use kc_live::{Entry, History, LiveCause, LiveStop, Volume, run_trace};
use kc_replay::{Outcome, ReplayFault};
use kc_texts::{Origin, Sink, Source, empty_piece, give_trace};
use kc_trace::TraceFault;
use kc_types::{Call, Config, Memory, WORKER_LIMIT};
use std::alloc::Global;
use std::sync::Wait;
use std::thread::Threads;

/// The fault that the cause of a live run is.
fn fault_of(cause: LiveCause) -> TextFault
    ensures { result ≡ live_fault cause }
{
    match cause {
        LiveCause::BadActor(program) => TextFault::BadActor(program),
        LiveCause::HistoryFull => TextFault::Trace(TraceFault::TooManyCalls),
        LiveCause::Memory => TextFault::Memory,
        LiveCause::Start => TextFault::Start,
        LiveCause::Unsettled | LiveCause::NotYours(_, _) => TextFault::Unsettled,
    }
}

/// The calls of some entries.
fn calls_in(alloc: Global, entries: Vec<Entry>) -> Result<Vec<Call>, Memory>
    ensures { IfOk result (λ calls. calls.items ≡ calls_of entries.items) }
{
    let mut calls = Vec::new(alloc);
    for entry in entries {
        let Entry { call, reply: _ } = entry;
        calls.push(call)?;
    }
    Ok(calls)
}

/// The cause of a run that gave no answer. The core that it left, if any, is wiped.
fn wiped(rt: &(impl Threads + Sync), stop: LiveStop) -> LiveCause
    ensures { result ≡ stop.cause }
{
    let LiveStop {
        cause,
        history,
        is_settled: _,
    } = stop;
    if let Some(history) = history {
        let _volume = volume_of(rt, history);
    }
    cause
}

/// The volume of a history, whose core is wiped and gone.
fn volume_of(rt: &(impl Threads + Sync), history: History) -> Volume
    ensures { result ≡ volume_in history }
{
    let (volume, mut core) = history.into_parts();
    core.wipe(rt);
    volume
}

/// Has this many workers replay the volume of a history, and wipes the core that they leave.
fn replay_wiped<R: Threads + Wait + Sync>(
    rt: &R,
    alloc: Global,
    config: Config,
    volume: &Volume,
    workers: u32,
) -> Result<(), LiveCause>
    requires made { IsMadeFrom (boot config) volume.now.entries }
    requires workers { (0 < workers) × (workers ≤ worker_limit) }
    ensures { IfErr result (λ cause. (cause ≡ LiveCause.Memory) ⊎ (cause ≡ LiveCause.Start)) }
{
    match replay_history(rt, alloc, config, volume, workers as usize, &OpenGate) {
        Ok(outcome) => {
            let Outcome { mut core, .. } = outcome;
            core.wipe(rt);
            Ok(())
        },
        Err(ReplayFault::Start) => Err(LiveCause::Start),
        Err(_) => Err(LiveCause::Memory),
    }
}

/// The calls of the volume of a history, which this many workers replay first. The core that they leave is wiped.
fn replayed<R: Threads + Wait + Sync>(
    rt: &R,
    alloc: Global,
    config: Config,
    volume: Volume,
    workers: u32,
) -> Result<Vec<Call>, LiveCause>
    requires made { IsMadeFrom (boot config) volume.entries }
    requires workers { (0 < workers) × (workers ≤ worker_limit) }
    ensures calls { IfOk result (λ calls. calls.items ≡ calls_of volume.entries) }
    ensures cause { IfErr result (λ cause. (cause ≡ LiveCause.Memory) ⊎ (cause ≡ LiveCause.Start)) }
{
    replay_wiped(rt, alloc, config, &volume, workers)?;
    let Ok(calls) = calls_in(alloc, volume.into_entries()) else {
        return Err(LiveCause::Memory);
    };
    Ok(calls)
}

/// The calls of the history of a live run of some calls, which this many workers replay. The cores are wiped before
/// they are dropped, whatever the outcome, and that of the run before the replay makes its own.
fn made_live<G: Gate + Sync, R: Threads + Wait + Sync>(
    rt: &R,
    alloc: Global,
    config: Config,
    calls: Vec<Call>,
    workers: u32,
    gate: &G,
) -> Result<Vec<Call>, TextFault>
    requires { (0 < workers) × (workers ≤ worker_limit) }
    ensures sound { OnOk result (MayRun config calls.items) }
    ensures made { IfOk result (λ made. KeepsOrders made.items calls.items × KeepsPromises (boot config) made.items) }
    ensures fault { IfErr result (IsLiveFault config calls.items) }
{
    let Ok(kept) = config.copy() else {
        return Err(TextFault::Memory);
    };
    let history = match run_trace(rt, alloc, config, calls, gate) {
        Ok(history) => history,
        Err(stop) => return Err(fault_of(wiped(rt, stop))),
    };
    let volume = volume_of(rt, history);
    match replayed(rt, alloc, kept, volume, workers) {
        Ok(made) => Ok(made),
        Err(cause) => Err(fault_of(cause)),
    }
}

/// Gives the trace of some calls.
fn give_made<K: Sink>(alloc: Global, made: Vec<Call>, out: &mut K) -> Result<(), TextFault>
    requires { K.failed out.old ≡ false }
    ensures ok { OnOk result (Appends (K.taken out.old) (K.taken out.new) (trace_of made.items)) }
    ensures sink { TellsSink (K.failed out.new)
        (AppendsBeginning (K.taken out.old) (K.taken out.new) (trace_of made.items)) (out.new ≡ out.old) result }
    ensures fault { IfErr result (λ fault. (fault ≡ TextFault.Memory) ⊎ (fault ≡ TextFault.Write)) }
{
    // All memory that writing takes is there before the first byte is written.
    let Ok(piece) = empty_piece(alloc) else {
        return Err(TextFault::Memory);
    };
    match give_trace(out, piece, made) {
        Ok(()) => Ok(()),
        Err(_) => Err(TextFault::Write),
    }
}

/// Reads a configuration and a trace, each to its end, makes the trace's calls live, each actor's in a thread of its
/// own, has 1 to 64 workers replay the history, and writes it as a trace. The number of workers is judged before
/// anything is read.
///
/// Nothing is written before the whole run is done. A source that fails, or that has more than 1,073,741,824 bytes, is
/// `Read`, even if its bytes so far are refused already.
pub fn live_text<C: Source, T: Source, K: Sink, G: Gate + Sync, R: Threads + Wait + Sync>(
    rt: &R,
    alloc: Global,
    config: &mut C,
    trace: &mut T,
    out: &mut K,
    workers: u32,
    gate: &G,
) -> Result<(), TextFault>
    requires config { C.failed config.old ≡ false }
    requires trace { T.failed trace.old ≡ false }
    requires out { K.failed out.old ≡ false }

    // What is written is the trace read, which may run, in an order that keeps each actor's.
    ensures ok { OnOk result
        (Writes IsLiveText (C.left config.old) (T.left trace.old) (K.taken out.old) (K.taken out.new)) }
    ensures sources { TellsSources
        (seen C.failed C.left config.old config.new ∷ seen T.failed T.left trace.old trace.new ∷ []) result }
    ensures texts { TellsTexts Origin.Boot (seen C.failed C.left config.old config.new)
        (seen T.failed T.left trace.old trace.new) (trace.new ≡ trace.old) result }
    ensures sink { TellsSink (K.failed out.new)
        (Begins IsLiveText (C.left config.old) (T.left trace.old) (K.taken out.old) (K.taken out.new))
        (out.new ≡ out.old) result }

    // The run comes only after both texts, and only of a trace that may run.
    ensures workers { IsErrOf result TextFault.Workers ↔ ((workers ≡ 0) ⊎ (worker_limit < workers)) }
    ensures actor { (program : ℕ) → result ≡ Err (TextFault.BadActor program)
        → HasBadActor (C.left config.old) (T.left trace.old) program }
    ensures slot { (number : ℕ) → result ≢ Err (TextFault.NoSlot number) }
    ensures text { result ≢ Err TextFault.NoText }
    ensures started { result ≡ Err TextFault.Start → CouldRun (C.left config.old) (T.left trace.old) }
    ensures unsettled { result ≡ Err TextFault.Unsettled → CouldRun (C.left config.old) (T.left trace.old) }
{
    if workers == 0 || workers as usize > WORKER_LIMIT {
        return Err(TextFault::Workers);
    }
    let (config, calls) = read_both(alloc, config, trace)?;
    let made = made_live(rt, alloc, config, calls, workers, gate)?;
    give_made(alloc, made, out)
}
