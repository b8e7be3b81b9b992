//! The engine that replays a trace, over any sources and any sink.
ghost use Rattle.std.specs.Prelude.{◌≡◌, ◌≢◌, ◌<◌, ◌≤◌, ◌⊎◌, ◌∷◌, [], List, length, true, false, IfOk, IfErr, IfSome, OnOk, Err, IsSome};
ghost use Rattle.std.specs.Io.KnownBytes.{IsAtEnd};
ghost use Rattle.kc_types.specs.Configuration.{has_dump};
ghost use Rattle.kc_types.specs.Limits.{call_limit};
ghost use Rattle.kc_types.specs.declared.call.Call.{Call};
ghost use Rattle.kc_trace.specs.declared.fault.TraceFault.{TraceFault};
ghost use Rattle.kc_trace.specs.Trace.{IsTraceUnder, IsRefused};
ghost use Rattle.kc_state_text.specs.StateText.{placed_state_text};
ghost use Rattle.kc_state_text.specs.Differences.{IsDifference};
ghost use Rattle.kc_texts.specs.Ends.{ReadFailed, seen};
ghost use Rattle.kc_texts.specs.Written.{Writes, Begins};
ghost use Rattle.kc_faults.specs.Outcomes.{TellsSources, TellsTexts, TellsReplay, TellsSink};
ghost use Rattle.kc_replay.specs.Replayer.{IsFed};
ghost use Rattle.kc_cli.specs.Traced.{IsDigested};
ghost use Rattle.kc_cli.specs.Engine.{is_placed, wants_text, AreReplayed, IsKept, IsReplayFault, IsReplayText, DiffersFromLeft, kept_more, left_as};
ghost use Rattle.kc_cli.specs.Answers.{AreAnswered};

use crate::giving::{Replayed, give_replayed};
use crate::order::ReplayOrder;
use crate::starting::{Start, read_start};
use crate::telling::{digest_of, witness_more};
use kc_core::{KCore, OpenGate};
use kc_digests::Lanes;
use kc_faults::TextFault;
use kc_remarks::Answered;
use kc_replay::{ReplayFault, Replayer};
use kc_state_text::difference_from_state;
use kc_texts::{CallStream, PIECE, ReplayForm, Sink, Source, read_secret};
use kc_trace::{Header, Position, TraceFault};
use kc_types::{Call, Memory, Reply, WORKER_LIMIT};
use std::alloc::Global;
use std::sync::Wait;
use std::thread::Threads;

/// What came of a trace's calls, as it was read.
#[derive(Drop)]
pub(crate) struct Fed {
    pub header: Header,
    /// The calls, if they are written too.
    pub calls: Vec<Call>,
    pub replies: Vec<Reply>,
    /// The SHA-256 digest of its redacted text, if it has a head and where the next volume comes is asked for.
    pub digest: Option<[u8; 32]>,
}

/// Whether a state's text is written, which says where the next volume comes.
fn is_placed(form: ReplayForm) -> bool
    ensures { result ≡ is_placed form }
{
    form == ReplayForm::State
}

/// Whether the text of a dump or of a state is written.
fn wants_text(form: ReplayForm) -> bool
    ensures { result ≡ wants_text form }
{
    match form {
        ReplayForm::Replies | ReplayForm::Lines => false,
        ReplayForm::Dump | ReplayForm::State => true,
    }
}

/// Whether a text is wanted that machines of the core's version do not have.
fn lacks_text(core: &KCore, wants_text: bool) -> bool
    ensures lacks { result ≡ true → (wants_text ≡ true) × (has_dump core.now.state.config.version ≡ false) }
    ensures has { result ≡ false → wants_text ≡ true → has_dump core.now.state.config.version ≡ true }
{
    wants_text && !core.config().version().has_dump()
}

/// Keeps more calls, if they are written too.
fn keep(calls: &mut Vec<Call>, more: Vec<Call>, form: ReplayForm) -> Result<(), Memory>
    ensures { OnOk result (calls.new.items ≡ kept_more form calls.old.items more.items) }
{
    let mut more = more;
    if form == ReplayForm::Lines {
        calls.append(&mut more)?;
    }
    Ok(())
}

/// Makes the calls of the trace that a source has left, as it is read; perhaps also finds out where the next volume
/// comes.
pub(crate) fn feed_source<T: Source, R: Threads + Wait + Sync>(
    rt: &R,
    alloc: Global,
    replayer: &mut Replayer,
    trace: &mut T,
    form: ReplayForm,
    is_placed: bool,
) -> Result<Fed, TextFault>
    requires trace { T.failed trace.old ≡ false }
    requires start { replayer.old.fed ≡ 0 }
    requires whole { IsSome replayer.old.state }
    ensures ok { IfOk result (λ fed. (calls : List Call)
        × IfSome (T.left trace.old) (λ text. IsTraceUnder fed.header text calls)
        × IsFed replayer.old replayer.new calls fed.replies.items × IsKept form fed.calls.items calls
        × IsDigested is_placed false (record { header = fed.header; calls = calls }) fed.digest) }
    ensures few { IfOk result (λ fed. length fed.replies.items ≤ call_limit) }
    ensures ended { OnOk result (IsAtEnd (T.left trace.new)) }
    ensures trace { (fault : TraceFault) → result ≡ Err (TextFault.Trace fault)
        → IfSome (T.left trace.old) (λ text. IsRefused text fault) × IsAtEnd (T.left trace.new) }
    ensures read { result ≡ Err TextFault.Read → ReadFailed (T.failed trace.new) (T.left trace.old) (T.left trace.new) }
    ensures source { T.failed trace.new ≡ true → result ≡ Err TextFault.Read }
    ensures started { result ≡ Err TextFault.Start → 1 < replayer.old.workers }
    ensures fault { IfErr result IsReplayFault }
{
    let mut buffer = [0u8; PIECE];
    let mut stream = CallStream::new();
    let mut calls = Vec::new(alloc);
    let mut replies = Vec::new(alloc);
    let mut witness = None;
    loop {
        let part = stream.next(alloc, trace, &mut buffer)?;
        witness = witness_more(
            alloc,
            witness,
            is_placed,
            false,
            stream.header(),
            &part.calls,
        )?;
        match replayer.feed(rt, alloc, &part.calls, &OpenGate) {
            Ok(mut more) => {
                if replies.append(&mut more).is_err() {
                    return Err(TextFault::Memory);
                }
            },
            Err(ReplayFault::Start) => return Err(TextFault::Start),
            Err(_) => return Err(TextFault::Memory),
        }
        let Ok(()) = keep(&mut calls, part.calls, form) else {
            return Err(TextFault::Memory);
        };
        if part.is_last {
            break;
        }
    }
    match stream.finish() {
        Ok(header) => Ok(Fed {
            header,
            calls,
            replies,
            digest: digest_of(&witness),
        }),
        Err(fault) => Err(TextFault::Trace(fault)),
    }
}

/// Wipes the core that a replay left, if it left one.
pub(crate) fn wipe_left(rt: &(impl Threads + Sync), replayer: Replayer) {
    if let Ok(core) = replayer.finish() {
        let mut core = core;
        core.wipe(rt);
    }
}

/// Reads what the calls begin with to its end and a trace as it is replayed by this many workers, and returns the
/// replies and the core, and where the next volume comes if that is asked for. The number of workers, 1 to 64, is judged
/// before anything is read. If the text of a dump or of a state is wanted and the version of the machine has none, it is
/// `NoText`, and the trace is not read. If there is no outcome, the core is wiped.
fn replay_texts<C: Source, T: Source, R: Threads + Wait + Sync>(
    rt: &R,
    alloc: Global,
    start: &mut C,
    trace: &mut T,
    order: ReplayOrder,
    is_placed: bool,
    wants_text: bool,
) -> Result<Replayed, TextFault>
    requires start { C.failed start.old ≡ false }
    requires trace { T.failed trace.old ≡ false }
    ensures ok { IfOk result (λ made. AreReplayed order.origin order.form is_placed (C.left start.old)
        (T.left trace.old) made.calls.items made.replies.items made.core.state made.next) }
    ensures answered { IfOk result
        (λ made. AreAnswered order.origin (C.left start.old) (T.left trace.old) made.answered) }
    ensures sources { TellsSources
        (seen C.failed C.left start.old start.new ∷ seen T.failed T.left trace.old trace.new ∷ []) result }
    ensures texts { TellsTexts order.origin (seen C.failed C.left start.old start.new)
        (seen T.failed T.left trace.old trace.new) (trace.new ≡ trace.old) result }
    ensures replay { TellsReplay wants_text order.workers order.origin (C.left start.old)
        (trace.new ≡ trace.old) result }
    ensures write { result ≢ Err TextFault.Write }
{
    if order.workers == 0 || order.workers as usize > WORKER_LIMIT {
        return Err(TextFault::Workers);
    }
    let Start { core, expected } = read_start(rt, alloc, start, order.origin, order.lanes)?;
    if lacks_text(&core, wants_text) {
        let mut core = core;
        core.wipe(rt);
        return Err(TextFault::NoText);
    }
    let Ok(replayer) = Replayer::from_core(core, order.workers as usize) else {
        return Err(TextFault::Memory);
    };
    let mut replayer = replayer;
    match feed_source(rt, alloc, &mut replayer, trace, order.form, is_placed) {
        Ok(
            Fed {
                header,
                calls,
                replies,
                digest,
            },
        ) => {
            let answered = Answered::of(&replies);
            let Ok(core) = replayer.finish() else {
                return Err(TextFault::Memory);
            };
            if let Some(wrong) = expected.fault(core.config(), &header) {
                let mut core = core;
                core.wipe(rt);
                return Err(TextFault::Trace(TraceFault::Misplaced(wrong)));
            }
            let next = Position::after(&header, digest);
            Ok(Replayed {
                calls,
                replies,
                answered,
                core,
                next,
            })
        },
        Err(fault) => {
            wipe_left(rt, replayer);
            Err(fault)
        },
    }
}

/// The replay, with the pages of active VMs zeroed if that is asked for.
fn left_as(made: Replayed, is_blank: bool) -> Replayed
    ensures { result ≡ record made { core = record made.core { state = left_as is_blank made.core.state } } }
{
    let mut made = made;
    if is_blank {
        made.core.blank();
    }
    made
}

/// Reads what the calls begin with and a trace, each to its end, has 1 to 64 workers make the trace's calls as they are
/// read, and writes what is wanted: the reply text, each call with its reply, the dump of the core that the trace
/// leaves, or the text of its state; the result counts the calls, and those that were refused or rejected. The number
/// of workers is judged before anything is read.
///
/// Nothing is written before the whole trace was read and answered. A source that fails, or that has more than
/// 1,073,741,824 bytes, is `Read`, even if its bytes so far are refused already. Out of memory or a worker that cannot
/// be started is reported before a fault of the trace that is further on, and that its header is not one that may come
/// there after everything else. If the text of a dump or of a state is wanted and the version of the machine has none, it
/// is `NoText`, and the trace is not read.
pub fn replay_text<C: Source, T: Source, K: Sink, R: Threads + Wait + Sync>(
    rt: &R,
    alloc: Global,
    start: &mut C,
    trace: &mut T,
    out: &mut K,
    order: ReplayOrder,
) -> Result<Answered, TextFault>
    requires start { C.failed start.old ≡ false }
    requires trace { T.failed trace.old ≡ false }
    requires out { K.failed out.old ≡ false }

    // What is written is the text wanted for what the sources held, and the result counts the trace's replies.
    ensures answered { IfOk result (AreAnswered order.origin (C.left start.old) (T.left trace.old)) }
    ensures ok { OnOk result (Writes (IsReplayText order.origin order.form order.is_blank)
        (C.left start.old) (T.left trace.old) (K.taken out.old) (K.taken out.new)) }
    ensures sources { TellsSources
        (seen C.failed C.left start.old start.new ∷ seen T.failed T.left trace.old trace.new ∷ []) result }
    ensures texts { TellsTexts order.origin (seen C.failed C.left start.old start.new)
        (seen T.failed T.left trace.old trace.new) (trace.new ≡ trace.old) result }
    ensures replay { TellsReplay (wants_text order.form) order.workers order.origin (C.left start.old)
        (trace.new ≡ trace.old) result }
    ensures sink { TellsSink (K.failed out.new) (Begins (IsReplayText order.origin order.form order.is_blank)
        (C.left start.old) (T.left trace.old) (K.taken out.old) (K.taken out.new)) (out.new ≡ out.old) result }
{
    let wants_text = wants_text(order.form);
    let made = replay_texts(
        rt,
        alloc,
        start,
        trace,
        order,
        is_placed(order.form),
        wants_text,
    )?;
    let answered = made.answered;
    give_replayed(rt, alloc, left_as(made, order.is_blank), order, out)?;
    Ok(answered)
}

/// The number, from 1, of the first line of what a source has left that differs from the text of a core's state, which
/// says where the next volume comes if that is known; `None` if it is that text.
fn difference_in<S: Source>(
    rt: &(impl Threads + Sync),
    alloc: Global,
    core: &KCore,
    next: Option<Position>,
    to: &mut S,
    lanes: Lanes,
) -> Result<Option<usize>, TextFault>
    requires { S.failed to.old ≡ false }
    ensures ok { IfOk result (λ line. IfSome (S.left to.old) (λ text. IsDifference line text (placed_state_text next core.now.state))) }
    ensures ended { OnOk result (IsAtEnd (S.left to.new)) }
    ensures read { result ≡ Err TextFault.Read → ReadFailed (S.failed to.new) (S.left to.old) (S.left to.new) }
    ensures source { S.failed to.new ≡ true → result ≡ Err TextFault.Read }
    ensures fault { IfErr result (λ fault. (fault ≡ TextFault.Memory) ⊎ (fault ≡ TextFault.Read)) }
{
    let text = read_secret(alloc, to)?;
    match difference_from_state(rt, alloc, core, next, text.as_slice(), lanes) {
        Ok(line) => Ok(line),
        Err(_) => Err(TextFault::Memory),
    }
}

/// What comes of a replay whose last state is compared with a text.
#[derive(Clone, Copy, Debug, PartialEq, Eq)]
pub struct Compared {
    /// How the calls were answered.
    pub answered: Answered,
    /// The number, from 1, of the first line of that text that differs from the state's; `None` if they are the same.
    pub difference: Option<usize>,
}

/// Does what `replay_text` does, and also compares what a third source holds, which is read to its end, with the text
/// of the state that the trace leaves. That source is read after the trace and before anything is written. The text of a
/// state is wanted, whatever is written.
pub fn replay_to_text<C: Source, T: Source, S: Source, K: Sink, R: Threads + Wait + Sync>(
    rt: &R,
    alloc: Global,
    start: &mut C,
    trace: &mut T,
    to: &mut S,
    out: &mut K,
    order: ReplayOrder,
) -> Result<Compared, TextFault>
    requires start { C.failed start.old ≡ false }
    requires trace { T.failed trace.old ≡ false }
    requires to { S.failed to.old ≡ false }
    requires out { K.failed out.old ≡ false }

    // What is written is the text wanted for what the sources held, and a difference is that of the third one.
    ensures answered { IfOk result
        (λ made. AreAnswered order.origin (C.left start.old) (T.left trace.old) made.answered) }
    ensures ok { OnOk result (Writes (IsReplayText order.origin order.form order.is_blank)
        (C.left start.old) (T.left trace.old) (K.taken out.old) (K.taken out.new)) }
    ensures difference { IfOk result (λ made. DiffersFromLeft order.origin order.is_blank
        (C.left start.old) (T.left trace.old) (S.left to.old) made.difference) }
    ensures sources { TellsSources (seen C.failed C.left start.old start.new
        ∷ seen T.failed T.left trace.old trace.new ∷ seen S.failed S.left to.old to.new ∷ []) result }
    ensures texts { TellsTexts order.origin (seen C.failed C.left start.old start.new)
        (seen T.failed T.left trace.old trace.new) (trace.new ≡ trace.old) result }
    ensures replay { TellsReplay true order.workers order.origin (C.left start.old) (trace.new ≡ trace.old) result }
    ensures sink { TellsSink (K.failed out.new) (Begins (IsReplayText order.origin order.form order.is_blank)
        (C.left start.old) (T.left trace.old) (K.taken out.old) (K.taken out.new)) (out.new ≡ out.old) result }
{
    let made = replay_texts(rt, alloc, start, trace, order, true, true)?;
    let answered = made.answered;
    let made = left_as(made, order.is_blank);
    let difference = match difference_in(rt, alloc, &made.core, made.next, to, order.lanes) {
        Ok(difference) => difference,
        Err(fault) => {
            let mut core = made.core;
            core.wipe(rt);
            return Err(fault);
        },
    };
    give_replayed(rt, alloc, made, order, out)?;
    Ok(Compared {
        answered,
        difference,
    })
}
