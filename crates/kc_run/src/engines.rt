//! The engines, over the files that a job names, an input and a sink.
ghost use Rattle.std.specs.Prelude.{◌≡◌, false, None};
ghost use Rattle.kc_texts.specs.Ends.{seen};
ghost use Rattle.kc_args.specs.Jobs.{origin_at, path_of};
ghost use Rattle.kc_run.specs.Opening.{Held};
ghost use Rattle.kc_run.specs.Endings.{took, done_as, answered_as, compared_as, converted_as, ending_of, judged_as};
ghost use Rattle.kc_run.specs.Ends.{ends_of};
ghost use Rattle.kc_run.specs.Run.{BeginsAt, ReplaysTo, RunsLive, AuditsDump, RedactsTrace, RedactsHostAt, ConvertsFirst, ConvertsAfter, OverFile};

use crate::beginning::{StartText, header_text, open, unnamed_text};
use crate::ending::Ending;
use crate::files::Files;
use kc_args::Start;
use kc_cli::{Compared, ReplayOrder, audit_text, live_text, replay_text, replay_to_text};
use kc_core::OpenGate;
use kc_digests::Lanes;
use kc_faults::TextFault;
use kc_redact_text::{Converted, convert_after_text, convert_text, redact_host_text, redact_text};
use kc_remarks::Answered;
use kc_texts::{Headed, Sink, Source};
use kc_trace::{HeaderFault, TraceFault};
use std::alloc::Global;
use std::sync::Wait;
use std::thread::Threads;

/// What an engine needs of the system that it runs on.
#[derive(Drop)]
pub struct System<'a, R: Threads + Wait + Sync> {
    pub threads: &'a R,
    pub alloc: Global,
    /// How many pages are hashed at once.
    pub lanes: Lanes,
}

/// The ending of an engine that has no answer.
fn done(answer: Result<(), TextFault>) -> Result<Ending, TextFault>
    ensures { result ≡ done_as answer }
{
    match answer {
        Ok(()) => Ok(Ending::Done),
        Err(fault) => Err(fault),
    }
}

/// The ending of an engine that counts how calls were answered.
pub(crate) fn counted(answer: Result<Answered, TextFault>) -> Result<Ending, TextFault>
    ensures { result ≡ answered_as answer }
{
    match answer {
        Ok(answered) => Ok(Ending::Answered(answered)),
        Err(fault) => Err(fault),
    }
}

/// The ending of a replay whose last state is compared.
fn compared(answer: Result<Compared, TextFault>) -> Result<Ending, TextFault>
    ensures { result ≡ compared_as answer }
{
    match answer {
        Ok(made) => match made.difference {
            Some(line) => Ok(Ending::Another {
                answered: made.answered,
                line,
            }),
            None => Ok(Ending::Answered(made.answered)),
        },
        Err(fault) => Err(fault),
    }
}

/// The ending of a conversion after a volume: that volume is the first of two, and the trace the second.
fn converted(answer: Result<Converted, TextFault>) -> Result<Ending, TextFault>
    ensures { result ≡ converted_as answer }
{
    match answer {
        Ok(Converted::Written) => Ok(Ending::Done),
        Ok(Converted::VolumeRefused(fault)) => Ok(Ending::Refused { volume: 1, fault }),
        Ok(Converted::TraceRefused(fault)) => Ok(Ending::Refused { volume: 2, fault }),
        Err(fault) => Err(fault),
    }
}

/// `Done` if it is so, else another ending.
fn ending_of(so: bool, other: Ending) -> Ending
    ensures { result ≡ ending_of so other }
{
    if so { Ending::Done } else { other }
}

/// The ending of an engine that answers yes or no.
fn judged(answer: Result<bool, TextFault>, other: Ending) -> Result<Ending, TextFault>
    ensures { result ≡ judged_as answer other }
{
    match answer {
        Ok(so) => Ok(ending_of(so, other)),
        Err(fault) => Err(fault),
    }
}

/// Replays the trace from an open start, and compares the state that it leaves with what the file `to` holds, if it is
/// named.
// (Here and below: not inlined, or the buffers of all engines would be in one frame.)
#[inline(never)]
fn replay_to<F: Files, C: Source, T: Source, K: Sink, R: Threads + Wait + Sync>(
    system: &System<'_, R>,
    files: &mut F,
    start: &mut C,
    input: &mut T,
    to: Option<&str>,
    out: &mut K,
    order: ReplayOrder,
) -> Result<Ending, TextFault>
    requires files { F.refused files.old ≡ None }
    requires start { C.failed start.old ≡ false }
    requires input { T.failed input.old ≡ false }
    requires out { K.failed out.old ≡ false }
    ensures { ReplaysTo F.File.left F.File.failed order.origin order.form order.is_blank order.workers to.entry
        (seen C.failed C.left start.old start.new)
        (ends_of (F.held files.old) (F.refused files.new) (seen T.failed T.left input.old input.new)
        (input.new ≡ input.old) (took K.failed K.taken out.old out.new) (out.new ≡ out.old)) result }
{
    let Some(path) = to else {
        return counted(replay_text(system.threads, system.alloc, start, input, out, order));
    };
    let mut state = open(files, path)?;
    let answer = replay_to_text(
        system.threads,
        system.alloc,
        start,
        input,
        &mut state,
        out,
        order,
    );
    files.close(state);
    compared(answer)
}

/// Replays the trace from where calls begin.
pub(crate) fn replay<F: Files, T: Headed, K: Sink, R: Threads + Wait + Sync>(
    system: &System<'_, R>,
    files: &mut F,
    start: Start<'_>,
    to: Option<&str>,
    input: &mut T,
    out: &mut K,
    order: ReplayOrder,
) -> Result<Ending, TextFault>
    requires files { F.refused files.old ≡ None }
    requires input { T.failed input.old ≡ false }
    requires out { K.failed out.old ≡ false }
    ensures { BeginsAt F.File.left F.File.failed (path_of start.entry)
        (ReplaysTo F.File.left F.File.failed order.origin order.form order.is_blank order.workers to.entry)
        (ends_of (F.held files.old) (F.refused files.new) (seen T.failed T.left input.old input.new)
        (input.new ≡ input.old) (took K.failed K.taken out.old out.new) (out.new ≡ out.old)) result }
{
    let Some(path) = start.path() else {
        let text = unnamed_text(system.alloc, input)?;
        let mut start = StartText::new(&text);
        return replay_to(system, files, &mut start, input, to, out, order);
    };
    let mut file = open(files, path)?;
    let ended = replay_to(system, files, &mut file, input, to, out, order);
    files.close(file);
    ended
}

/// Runs the trace live.
#[inline(never)]
pub(crate) fn live<F: Files, T: Headed, K: Sink, R: Threads + Wait + Sync>(
    system: &System<'_, R>,
    files: &mut F,
    config: Option<&str>,
    workers: u32,
    input: &mut T,
    out: &mut K,
) -> Result<Ending, TextFault>
    requires files { F.refused files.old ≡ None }
    requires input { T.failed input.old ≡ false }
    requires out { K.failed out.old ≡ false }
    ensures { BeginsAt F.File.left F.File.failed config.entry (RunsLive workers)
        (ends_of (F.held files.old) (F.refused files.new) (seen T.failed T.left input.old input.new)
        (input.new ≡ input.old) (took K.failed K.taken out.old out.new) (out.new ≡ out.old)) result }
{
    let (threads, alloc) = (system.threads, system.alloc);
    let Some(path) = config else {
        let text = unnamed_text(alloc, input)?;
        let mut start = StartText::new(&text);
        return done(live_text(threads, alloc, &mut start, input, out, workers, &OpenGate));
    };
    let mut file = open(files, path)?;
    let answer = live_text(threads, alloc, &mut file, input, out, workers, &OpenGate);
    files.close(file);
    done(answer)
}

/// Audits the dump.
#[inline(never)]
pub(crate) fn audit<T: Source, K: Sink, R: Threads + Wait + Sync>(
    system: &System<'_, R>,
    all: bool,
    input: &mut T,
    out: &mut K,
) -> Result<Ending, TextFault>
    requires input { T.failed input.old ≡ false }
    requires out { K.failed out.old ≡ false }
    ensures { (held : Held) → AuditsDump all (ends_of held None (seen T.failed T.left input.old input.new)
        (input.new ≡ input.old) (took K.failed K.taken out.old out.new) (out.new ≡ out.old)) result }
{
    judged(
        audit_text(system.threads, system.alloc, input, all, out),
        Ending::Unsound,
    )
}

/// Redacts the trace.
#[inline(never)]
pub(crate) fn redact<T: Source, K: Sink>(
    alloc: Global,
    input: &mut T,
    out: &mut K,
) -> Result<Ending, TextFault>
    requires input { T.failed input.old ≡ false }
    requires out { K.failed out.old ≡ false }
    ensures { (held : Held) → RedactsTrace (ends_of held None (seen T.failed T.left input.old input.new)
        (input.new ≡ input.old) (took K.failed K.taken out.old out.new) (out.new ≡ out.old)) result }
{
    done(redact_text(alloc, input, out))
}

/// Redacts the trace from where calls begin, also of what the host writes to frames of active VMs. If no file is named
/// for that, the trace has to have a head: on the default machine the writes that are blanked might be others.
#[inline(never)]
pub(crate) fn redact_host<F: Files, T: Headed, K: Sink, R: Threads + Wait + Sync>(
    system: &System<'_, R>,
    files: &mut F,
    start: Start<'_>,
    input: &mut T,
    out: &mut K,
) -> Result<Ending, TextFault>
    requires files { F.refused files.old ≡ None }
    requires input { T.failed input.old ≡ false }
    requires out { K.failed out.old ≡ false }
    ensures { RedactsHostAt F.File.left F.File.failed (path_of start.entry) (origin_at start.entry)
        (ends_of (F.held files.old) (F.refused files.new) (seen T.failed T.left input.old input.new)
        (input.new ≡ input.old) (took K.failed K.taken out.old out.new) (out.new ≡ out.old)) result }
{
    let (threads, alloc, lanes) = (system.threads, system.alloc, system.lanes);
    let origin = start.origin();
    let Some(path) = start.path() else {
        let Some(text) = header_text(alloc, input)? else {
            return Err(TextFault::Trace(TraceFault::Misplaced(HeaderFault::Missing)));
        };
        let mut start = StartText::new(&text);
        return counted(redact_host_text(threads, alloc, &mut start, input, out, origin, lanes));
    };
    let mut file = open(files, path)?;
    let answer = redact_host_text(threads, alloc, &mut file, input, out, origin, lanes);
    files.close(file);
    counted(answer)
}

/// Gives the trace the head of the first volume on the machine that is in a file.
#[inline(never)]
pub(crate) fn convert<F: Files, T: Source, K: Sink>(
    alloc: Global,
    files: &mut F,
    config: &str,
    input: &mut T,
    out: &mut K,
) -> Result<Ending, TextFault>
    requires files { F.refused files.old ≡ None }
    requires input { T.failed input.old ≡ false }
    requires out { K.failed out.old ≡ false }
    ensures { OverFile F.File.left F.File.failed config.entry ConvertsFirst
        (ends_of (F.held files.old) (F.refused files.new) (seen T.failed T.left input.old input.new)
        (input.new ≡ input.old) (took K.failed K.taken out.old out.new) (out.new ≡ out.old)) result }
{
    let mut file = open(files, config)?;
    let answer = convert_text(alloc, &mut file, input, out);
    files.close(file);
    done(answer)
}

/// Gives the trace the head of the volume after the one that is in a file.
#[inline(never)]
pub(crate) fn convert_after<F: Files, T: Source, K: Sink>(
    alloc: Global,
    files: &mut F,
    volume: &str,
    input: &mut T,
    out: &mut K,
) -> Result<Ending, TextFault>
    requires files { F.refused files.old ≡ None }
    requires input { T.failed input.old ≡ false }
    requires out { K.failed out.old ≡ false }
    ensures { OverFile F.File.left F.File.failed volume.entry ConvertsAfter
        (ends_of (F.held files.old) (F.refused files.new) (seen T.failed T.left input.old input.new)
        (input.new ≡ input.old) (took K.failed K.taken out.old out.new) (out.new ≡ out.old)) result }
{
    let mut file = open(files, volume)?;
    let answer = convert_after_text(alloc, &mut file, input, out);
    files.close(file);
    converted(answer)
}
