//! Giving a trace its head.
ghost use Rattle.std.specs.Prelude.{◌≡◌, ◌⊎◌, ◌++◌, ◌∷◌, [], ℕ, List, Option, false, true, is_err, IfOk, IfErr, IfSome, OnOk, OnErr, Err};
ghost use Rattle.std.specs.Io.KnownBytes.{Appends, IsAtEnd};
ghost use Rattle.kc_types.specs.declared.call.Call.{Call};
ghost use Rattle.kc_config_text.specs.declared.config_text.ConfigTextFault.{ConfigTextFault};
ghost use Rattle.kc_config_text.specs.ConfigText.{config_in};
ghost use Rattle.kc_trace.specs.declared.fault.TraceFault.{TraceFault};
ghost use Rattle.kc_trace.specs.declared.header.Header.TheVariants as header;
ghost use Rattle.kc_trace.specs.Header.{trace_header};
ghost use Rattle.kc_trace.specs.Trace.{IsTrace, IsRefused};
ghost use Rattle.kc_texts.specs.Ends.{ReadFailed, HasFailedRead, HasFailed, seen};
ghost use Rattle.kc_texts.specs.Written.{AppendsBeginning, Writes, Begins};
ghost use Rattle.kc_faults.specs.Outcomes.{TellsSources, TellsSink};
ghost use Rattle.kc_redact_text.specs.Converts.{IsFirstVolume, IsNextVolume, AreLines, TookUnder, BegunUnder, IsRefusedBare, IsConversion, volume_refused, trace_refused, IsTextFault, IsSystemFault, IsUnderFault, IsConvertFault};

use crate::heads::{read_first_head, read_next_head};
use kc_faults::TextFault;
use kc_texts::{Failed, Sink, Source, read_secret, write_whole};
use kc_trace::{
    Head, Header, HeaderFault, LONGEST_CALL, TraceFault, push_header, read_header, read_trace,
};
use std::alloc::Global;

/// What comes of a trace that is to be the volume after another.
#[derive(Clone, Copy, Debug, PartialEq, Eq)]
pub enum Converted {
    /// It is written with its head.
    Written,
    /// The volume before it is refused, and nothing is written.
    VolumeRefused(TraceFault),
    /// It is refused, and nothing is written.
    TraceRefused(TraceFault),
}

/// Whether a text is a trace; if not, why.
fn judge(alloc: Global, text: &[u8]) -> Result<(), TextFault>
    ensures ok { OnOk result ((calls : List Call) × IsTrace text.now calls) }
    ensures trace { (fault : TraceFault) → result ≡ Err (TextFault.Trace fault)
        → IsRefused text.now fault }
    ensures fault { IfErr result IsTextFault }
{
    match read_trace(alloc, text) {
        Ok(_) => Ok(()),
        Err(TraceFault::Memory) => Err(TextFault::Memory),
        Err(fault) => Err(TextFault::Trace(fault)),
    }
}

/// The lines of the calls of a trace, if it has no head.
fn bare_lines(alloc: Global, text: &[u8]) -> Result<&[u8], TextFault>
    ensures ok { IfOk result (λ lines. AreLines text.now lines.now) }
    ensures trace { (fault : TraceFault) → result ≡ Err (TextFault.Trace fault) → IsRefusedBare text.now fault }
    ensures fault { IfErr result IsTextFault }
{
    judge(alloc, text)?;
    match read_header(alloc, text) {
        Ok(Some((Header::One | Header::Two, lines))) => Ok(lines),
        Ok(Some((Header::Three(_), _))) => Err(TextFault::Trace(TraceFault::Misplaced(
            HeaderFault::Unexpected,
        ))),
        // (A trace begins with a header.)
        Ok(None) => Err(TextFault::Trace(TraceFault::NoHeader)),
        Err(_) => Err(TextFault::Memory),
    }
}

/// Gives two texts to a sink, one after the other. After an `Err` it has taken a beginning of them.
fn write_both<K: Sink>(out: &mut K, first: &[u8], second: &[u8]) -> Result<(), Failed>
    requires { K.failed out.old ≡ false }
    ensures ok { OnOk result (Appends (K.taken out.old) (K.taken out.new) (first.now ++ second.now)) }
    ensures begun { OnErr result (AppendsBeginning (K.taken out.old) (K.taken out.new) (first.now ++ second.now)) }
    ensures mark { K.failed out.new ≡ is_err result }
{
    write_whole(out, first)?;
    write_whole(out, second)
}

/// Writes the header with this head, and then the lines of calls. The bytes of the lines are not copied.
fn give_under<K: Sink>(
    alloc: Global,
    head: Head,
    lines: &[u8],
    out: &mut K,
) -> Result<(), TextFault>
    requires { K.failed out.old ≡ false }
    ensures ok { OnOk result
        (Appends (K.taken out.old) (K.taken out.new) (trace_header (header.Three head) ++ lines.now)) }
    ensures sink { TellsSink (K.failed out.new)
        (AppendsBeginning (K.taken out.old) (K.taken out.new) (trace_header (header.Three head) ++ lines.now))
        (out.new ≡ out.old) result }
    ensures fault { IfErr result (λ fault. (fault ≡ TextFault.Memory) ⊎ (fault ≡ TextFault.Write)) }
{
    let Ok(mut front) = Vec::with_capacity(alloc, LONGEST_CALL) else {
        return Err(TextFault::Memory);
    };
    push_header(&mut front, &Header::Three(head));
    match write_both(out, &front, lines) {
        Ok(()) => Ok(()),
        Err(_) => Err(TextFault::Write),
    }
}

/// Reads a trace without a head to its end, and writes it with this head. The memory of what was read is zeroed before
/// it is freed.
fn convert_under<T: Source, K: Sink>(
    alloc: Global,
    head: Head,
    trace: &mut T,
    out: &mut K,
) -> Result<(), TextFault>
    requires trace { T.failed trace.old ≡ false }
    requires out { K.failed out.old ≡ false }
    ensures ok { OnOk result (TookUnder head (T.left trace.old) (K.taken out.old) (K.taken out.new)) }
    ensures ended { OnOk result (IsAtEnd (T.left trace.new)) }
    ensures trace { (fault : TraceFault) → result ≡ Err (TextFault.Trace fault)
        → IfSome (T.left trace.old) (λ text. IsRefusedBare text fault) × IsAtEnd (T.left trace.new) }
    ensures read { result ≡ Err TextFault.Read → ReadFailed (T.failed trace.new) (T.left trace.old) (T.left trace.new) }
    ensures failed { T.failed trace.new ≡ true → result ≡ Err TextFault.Read }
    ensures sink { TellsSink (K.failed out.new) (BegunUnder head (T.left trace.old) (K.taken out.old) (K.taken out.new))
        (out.new ≡ out.old) result }
    ensures fault { IfErr result IsUnderFault }
{
    let text = read_secret(alloc, trace)?;
    let lines = bare_lines(alloc, text.as_slice())?;
    give_under(alloc, head, lines, out)
}

/// Reads the text of a machine and a trace without a head, each to its end, and writes the trace with the head of the
/// first volume on that machine: the same calls, with all their bytes. The calls are not made.
///
/// Nothing is written before the whole trace has been read. A source that fails, or that has more than 1,073,741,824
/// bytes, is `Read`, even if its bytes so far are refused already. The machine is judged before the trace is read.
pub fn convert_text<C: Source, T: Source, K: Sink>(
    alloc: Global,
    config: &mut C,
    trace: &mut T,
    out: &mut K,
) -> Result<(), TextFault>
    requires config { C.failed config.old ≡ false }
    requires trace { T.failed trace.old ≡ false }
    requires out { K.failed out.old ≡ false }

    // What is written is the trace with the head of the first volume.
    ensures ok { OnOk result
        (Writes IsFirstVolume (C.left config.old) (T.left trace.old) (K.taken out.old) (K.taken out.new)) }
    ensures sources { TellsSources
        (seen C.failed C.left config.old config.new ∷ seen T.failed T.left trace.old trace.new ∷ []) result }
    ensures sink { TellsSink (K.failed out.new)
        (Begins IsFirstVolume (C.left config.old) (T.left trace.old) (K.taken out.old) (K.taken out.new))
        (out.new ≡ out.old) result }

    // A fault of a text is that of all the bytes that its source held, and there are no other faults.
    ensures config { (fault : ConfigTextFault) → result ≡ Err (TextFault.Config fault)
        → IfSome (C.left config.old) (λ text. config_in text ≡ Err fault) × IsAtEnd (C.left config.new) × (trace.new ≡ trace.old) }
    ensures trace { (fault : TraceFault) → result ≡ Err (TextFault.Trace fault)
        → IfSome (T.left trace.old) (λ text. IsRefusedBare text fault) × IsAtEnd (T.left trace.new) }
    ensures others { IfErr result IsConvertFault }
{
    let head = read_first_head(alloc, config)?;
    convert_under(alloc, head, trace, out)
}

/// What a fault of reading the volume before comes to: a fault of its text refuses it.
fn volume_refused(fault: TextFault) -> Result<Converted, TextFault>
    ensures { result ≡ volume_refused fault }
{
    match fault {
        TextFault::Trace(fault) => Ok(Converted::VolumeRefused(fault)),
        fault => Err(fault),
    }
}

/// The same of the trace.
fn trace_refused(fault: TextFault) -> Result<Converted, TextFault>
    ensures { result ≡ trace_refused fault }
{
    match fault {
        TextFault::Trace(fault) => Ok(Converted::TraceRefused(fault)),
        fault => Err(fault),
    }
}

/// Reads a volume and a trace without a head, each to its end, and writes the trace with the head of the volume after
/// that one: the same calls, with all their bytes. The calls are not made.
///
/// Nothing is written before the whole trace has been read. A source that fails, or that has more than 1,073,741,824
/// bytes, is `Read`, even if its bytes so far are refused already. The volume is judged before the trace is read.
pub fn convert_after_text<B: Source, T: Source, K: Sink>(
    alloc: Global,
    before: &mut B,
    trace: &mut T,
    out: &mut K,
) -> Result<Converted, TextFault>
    requires before { B.failed before.old ≡ false }
    requires trace { T.failed trace.old ≡ false }
    requires out { K.failed out.old ≡ false }

    // What is written is the trace with the head that comes after the volume, unless one of the two is refused.
    ensures ok { IfOk result (IsConversion (seen B.failed B.left before.old before.new)
        (seen T.failed T.left trace.old trace.new) (K.taken out.old) (K.taken out.new) (trace.new ≡ trace.old)
        (out.new ≡ out.old)) }
    ensures read { result ≡ Err TextFault.Read → HasFailedRead
        (seen B.failed B.left before.old before.new ∷ seen T.failed T.left trace.old trace.new ∷ []) }
    ensures failed { HasFailed (seen B.failed B.left before.old before.new ∷ seen T.failed T.left trace.old trace.new ∷ [])
        → result ≡ Err TextFault.Read }
    ensures sink { TellsSink (K.failed out.new)
        (Begins IsNextVolume (B.left before.old) (T.left trace.old) (K.taken out.old) (K.taken out.new))
        (out.new ≡ out.old) result }
    // There are no other faults.
    ensures others { IfErr result IsSystemFault }
{
    let head = match read_next_head(alloc, before) {
        Ok(head) => head,
        Err(fault) => return volume_refused(fault),
    };
    match convert_under(alloc, head, trace, out) {
        Ok(()) => Ok(Converted::Written),
        Err(fault) => trace_refused(fault),
    }
}
