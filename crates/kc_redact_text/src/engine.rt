//! Reading a trace, redacting it and writing it.
ghost use Rattle.std.specs.Prelude.{◌≡◌, ◌⊎◌, ◌∷◌, [], false, IfErr, IfSome, OnOk, Err};
ghost use Rattle.std.specs.Io.KnownBytes.{Appends, IsAtEnd};
ghost use Rattle.kc_trace.specs.declared.fault.TraceFault.{TraceFault};
ghost use Rattle.kc_trace.specs.Spelling.{text_of};
ghost use Rattle.kc_trace.specs.Trace.{IsRefused};
ghost use Rattle.kc_texts.specs.Written.{AppendsBeginning};
ghost use Rattle.kc_texts.specs.Ends.{seen};
ghost use Rattle.kc_faults.specs.Outcomes.{TellsSources, TellsSink};
ghost use Rattle.kc_redact_text.specs.Redacts.{Redacts, BeginsRedaction, IsRedactFault};

use crate::calls::RedactedCall;
use crate::reading::read_redacted;
use kc_faults::TextFault;
use kc_texts::{Sink, Source, give_lines};
use kc_trace::{Header, push_header};
use std::alloc::Global;

/// How many bytes are written at once: no more than a processor's nearest cache holds, since most are zeros that were
/// put there just before.
const PIECE: usize = 32_768;

/// Writes the header of a trace and its calls. All memory that this needs is taken before the first byte is written.
pub(crate) fn give_redacted<K: Sink>(
    alloc: Global,
    header: &Header,
    calls: Vec<RedactedCall>,
    out: &mut K,
) -> Result<(), TextFault>
    requires { K.failed out.old ≡ false }
    ensures ok { OnOk result (Appends (K.taken out.old) (K.taken out.new) (text_of header.now calls.items)) }
    ensures sink { TellsSink (K.failed out.new)
        (AppendsBeginning (K.taken out.old) (K.taken out.new) (text_of header.now calls.items))
        (out.new ≡ out.old) result }
    ensures fault { IfErr result (λ fault. (fault ≡ TextFault.Memory) ⊎ (fault ≡ TextFault.Write)) }
{
    let Ok(mut piece) = Vec::with_capacity(alloc, PIECE) else {
        return Err(TextFault::Memory);
    };
    push_header(&mut piece, header);
    match give_lines(out, piece, calls) {
        Ok(()) => Ok(()),
        Err(_) => Err(TextFault::Write),
    }
}

/// Reads a trace to its end, and writes it with zeros in place of the bytes that virtual processors write: the same
/// header and the same lines, each as long as it was.
///
/// Nothing is written before the whole trace has been read. A source that fails, or that has more than 1,073,741,824
/// bytes, is `Read`, even if its bytes so far are refused already. Running out of memory is reported before a fault of
/// the trace that is further on.
pub fn redact_text<T: Source, K: Sink>(
    alloc: Global,
    trace: &mut T,
    out: &mut K,
) -> Result<(), TextFault>
    requires trace { T.failed trace.old ≡ false }
    requires out { K.failed out.old ≡ false }

    // What is written is the redacted trace of the trace that the source held.
    ensures ok { OnOk result (Redacts (T.left trace.old) (K.taken out.old) (K.taken out.new)) }
    ensures sources { TellsSources (seen T.failed T.left trace.old trace.new ∷ []) result }
    ensures sink { TellsSink (K.failed out.new) (BeginsRedaction (T.left trace.old) (K.taken out.old) (K.taken out.new))
        (out.new ≡ out.old) result }

    // A fault of the trace is that of all the bytes that the source held, and there are no other faults.
    ensures trace { (fault : TraceFault) → result ≡ Err (TextFault.Trace fault)
        → IfSome (T.left trace.old) (λ text. IsRefused text fault) × IsAtEnd (T.left trace.new) }
    ensures others { IfErr result IsRedactFault }
{
    let mut core = None;
    let (header, calls, _) = read_redacted(alloc, &mut core, trace)?;
    give_redacted(alloc, &header, calls, out)
}
