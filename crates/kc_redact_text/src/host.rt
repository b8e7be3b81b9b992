//! Reading a trace, making its calls as they are read, redacting and writing it.
ghost use Rattle.std.specs.Prelude.{◌≡◌, ◌∷◌, [], false, true, Some, IfOk, IfErr, IfSome, OnOk, Err, MatchOption};
ghost use Rattle.std.specs.Io.KnownBytes.{IsAtEnd};
ghost use Rattle.kc_model.specs.State.{State};
ghost use Rattle.kc_model.specs.Lawful.{IsLawful};
ghost use Rattle.kc_trace.specs.declared.fault.TraceFault.{TraceFault};
ghost use Rattle.kc_trace.specs.declared.expected.Expected.{Expected};
ghost use Rattle.kc_trace.specs.Expected.{MayHave, IsHeaderFault, IsRefusedThere};
ghost use Rattle.kc_texts.specs.Ends.{ReadFailed, seen};
ghost use Rattle.kc_faults.specs.Origins.{BeginsIn};
ghost use Rattle.kc_texts.specs.Written.{Writes, Begins};
ghost use Rattle.kc_cli.specs.Answers.{AreAnswered};
ghost use Rattle.kc_faults.specs.Outcomes.{TellsSources, TellsTexts, TellsSink};
ghost use Rattle.kc_core.specs.KCore.{state_in};
ghost use Rattle.kc_redact_text.specs.Reading.{IsHeaderAndCalls, IsReadingFault};
ghost use Rattle.kc_redact_text.specs.Redacts.{IsHostRedacted, IsHostRedactFault, IsHostReadingFault};

use crate::calls::RedactedCall;
use crate::engine::give_redacted;
use crate::reading::read_redacted;
use kc_cli::{Start, read_start};
use kc_core::KCore;
use kc_digests::Lanes;
use kc_faults::TextFault;
use kc_remarks::{Answered, Denials};
use kc_texts::{Origin, Sink, Source};
use kc_trace::{Expected, Header, HeaderFault, TraceFault};
use std::alloc::Global;
use std::thread::Threads;

/// What is wrong with the header of a trace whose calls were made on a core.
fn header_fault(core: &Option<KCore>, expected: Expected, header: &Header) -> Option<HeaderFault>
    ensures { IfSome (state_in core.now) (λ m. MatchOption result (MayHave m.config expected header.now)
        (λ wrong. IsHeaderFault m.config expected header.now wrong)) }
{
    match core {
        Some(core) => expected.fault(core.config(), header),
        None => None,
    }
}

/// Reads a trace and makes its calls on a core as they are read, and then judges its header; returns the header, the
/// calls, redacted, and the counts of their replies.
fn read_placed<T: Source>(
    alloc: Global,
    core: &mut Option<KCore>,
    expected: Expected,
    trace: &mut T,
) -> Result<(Header, Vec<RedactedCall>, Denials), TextFault>
    requires { T.failed trace.old ≡ false }
    ensures ok { IfOk result
        (λ read. IfSome (T.left trace.old) (λ text. IsHeaderAndCalls (state_in core.old) text read.0 read.1.items read.2)) }
    ensures placed { IfOk result (λ read. IfSome (state_in core.old) (λ m. MayHave m.config expected read.0)) }
    ensures ended { OnOk result (IsAtEnd (T.left trace.new)) }
    ensures trace { (fault : TraceFault) → result ≡ Err (TextFault.Trace fault) → IfSome (state_in core.old)
        (λ m. IfSome (T.left trace.old) (λ text. IsRefusedThere m.config expected text fault)) × IsAtEnd (T.left trace.new) }
    ensures read { result ≡ Err TextFault.Read → ReadFailed (T.failed trace.new) (T.left trace.old) (T.left trace.new) }
    ensures failed { T.failed trace.new ≡ true → result ≡ Err TextFault.Read }
    ensures fault { IfErr result IsReadingFault }
{
    let (header, calls, denials) = read_redacted(alloc, core, trace)?;
    match header_fault(core, expected, &header) {
        Some(wrong) => Err(TextFault::Trace(TraceFault::Misplaced(wrong))),
        None => Ok((header, calls, denials)),
    }
}

/// Does the same from a start on. Its core is wiped before it is dropped, whatever the outcome.
fn read_made<T: Source>(
    rt: &(impl Threads + Sync),
    alloc: Global,
    start: Start,
    trace: &mut T,
) -> Result<(Header, Vec<RedactedCall>, Denials), TextFault>
    requires { T.failed trace.old ≡ false }
    ensures ok { IfOk result
        (λ read. IfSome (T.left trace.old) (λ text. IsHeaderAndCalls (Some start.core.state) text read.0 read.1.items read.2)) }
    ensures placed { IfOk result (λ read. MayHave start.core.state.config start.expected read.0) }
    ensures ended { OnOk result (IsAtEnd (T.left trace.new)) }
    ensures trace { (fault : TraceFault) → result ≡ Err (TextFault.Trace fault)
        → IfSome (T.left trace.old) (λ text. IsRefusedThere start.core.state.config start.expected text fault)
        × IsAtEnd (T.left trace.new) }
    ensures read { result ≡ Err TextFault.Read → ReadFailed (T.failed trace.new) (T.left trace.old) (T.left trace.new) }
    ensures failed { T.failed trace.new ≡ true → result ≡ Err TextFault.Read }
    ensures fault { IfErr result IsReadingFault }
{
    let Start { core, expected } = start;
    let mut core = Some(core);
    let read = read_placed(alloc, &mut core, expected, trace);
    if let Some(mut core) = core {
        core.wipe(rt);
    }
    read
}

/// Reads the text of the start to its end, and then a trace as its calls are made; returns the trace's header, which is
/// one that may come there, its calls, redacted, and the counts of their replies.
fn read_both<C: Source, T: Source>(
    rt: &(impl Threads + Sync),
    alloc: Global,
    start: &mut C,
    trace: &mut T,
    origin: Origin,
    lanes: Lanes,
) -> Result<(Header, Vec<RedactedCall>, Denials), TextFault>
    requires start { C.failed start.old ≡ false }
    requires trace { T.failed trace.old ≡ false }
    ensures ok { IfOk result (λ read. (m : State) × (expected : Expected) × IsLawful m
        × IfSome (C.left start.old) (λ text. BeginsIn origin text m expected) × MayHave m.config expected read.0
        × IfSome (T.left trace.old) (λ text. IsHeaderAndCalls (Some m) text read.0 read.1.items read.2)) }
    ensures sources { TellsSources
        (seen C.failed C.left start.old start.new ∷ seen T.failed T.left trace.old trace.new ∷ []) result }
    ensures texts { TellsTexts origin (seen C.failed C.left start.old start.new)
        (seen T.failed T.left trace.old trace.new) (trace.new ≡ trace.old) result }
    ensures fault { IfErr result IsHostReadingFault }
{
    let begun = read_start(rt, alloc, start, origin, lanes)?;
    read_made(rt, alloc, begun, trace)
}

/// Reads the text of the start and a trace, each to its end; makes the trace's calls on one thread as they are read;
/// and writes the trace with zeros in place of the bytes that virtual processors write, and that the host writes to a
/// frame of a VM that is active at that point: the same lines, each as long as it was, and the same header, but a head
/// says that these bytes are redacted. The result counts the calls, and those that were refused or rejected.
///
/// Nothing is written before the whole trace has been read and answered. A source that fails, or that has more than
/// 1,073,741,824 bytes, is `Read`, even if its bytes so far are refused already. Running out of memory is reported
/// before a fault of the trace that is further on, and a header that may not come there after every other fault of the
/// trace.
pub fn redact_host_text<C: Source, T: Source, K: Sink>(
    rt: &(impl Threads + Sync),
    alloc: Global,
    start: &mut C,
    trace: &mut T,
    out: &mut K,
    origin: Origin,
    lanes: Lanes,
) -> Result<Answered, TextFault>
    requires start { C.failed start.old ≡ false }
    requires trace { T.failed trace.old ≡ false }
    requires out { K.failed out.old ≡ false }

    // What is written is the redacted trace of the trace, which may go on from the state that the start's text
    // describes, and the result counts the trace's replies.
    ensures answered { IfOk result (AreAnswered origin (C.left start.old) (T.left trace.old)) }
    ensures ok { OnOk result
        (Writes (IsHostRedacted origin) (C.left start.old) (T.left trace.old) (K.taken out.old) (K.taken out.new)) }
    ensures sources { TellsSources
        (seen C.failed C.left start.old start.new ∷ seen T.failed T.left trace.old trace.new ∷ []) result }
    ensures texts { TellsTexts origin (seen C.failed C.left start.old start.new)
        (seen T.failed T.left trace.old trace.new) (trace.new ≡ trace.old) result }
    ensures sink { TellsSink (K.failed out.new)
        (Begins (IsHostRedacted origin) (C.left start.old) (T.left trace.old) (K.taken out.old) (K.taken out.new))
        (out.new ≡ out.old) result }
    // There are no other faults.
    ensures others { IfErr result IsHostRedactFault }
{
    let (header, calls, denials) = read_both(rt, alloc, start, trace, origin, lanes)?;
    let answered = Answered {
        calls: calls.len(),
        denials,
    };
    give_redacted(alloc, &header.host_redacted(), calls, out)?;
    Ok(answered)
}
