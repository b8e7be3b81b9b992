//! The engine that audits a dump, over any source and any sink.
ghost use Rattle.std.specs.Prelude.{◌≡◌, ◌≤◌, ◌⊎◌, ◌↔◌, ◌∷◌, [], length, false, IsTrue, IfOk, IfErr, IfSome, Err};
ghost use Rattle.std.specs.Io.KnownBytes.{IsAtEnd};
ghost use Rattle.kc_dump_text.specs.declared.fault.DumpFault.{DumpFault};
ghost use Rattle.kc_dump_text.specs.Refused.{IsRefusedDump};
ghost use Rattle.kc_types.specs.Limits.{byte_limit};
ghost use Rattle.kc_cli.specs.Audit.{IsAudited, Audits, BeginsAudit, IsDumpFault};
ghost use Rattle.kc_texts.specs.Ends.{seen};
ghost use Rattle.kc_faults.specs.Outcomes.{TellsSources, TellsSink};

use kc_audit::{Finding, audit_parallel, written};
use kc_dump_text::read_dump;
use kc_faults::TextFault;
use kc_texts::{Sink, Source, read_whole, write_whole};
use std::alloc::Global;
use std::thread::Threads;

fn is_nothing(found: &[Finding]) -> bool
    ensures { IsTrue result ↔ (found.now ≡ []) }
{
    found.is_empty()
}

/// Audits the dump that a text is: whether nothing is found in it, and what is written of it.
fn audited(
    rt: &(impl Threads + Sync),
    alloc: Global,
    all: bool,
    text: &[u8],
) -> Result<(bool, Vec<u8>), TextFault>
    requires { length text.now ≤ byte_limit }
    ensures ok { IfOk result (λ audit. IsAudited all text.now audit.0 audit.1.items) }
    ensures fault { IfErr result IsDumpFault }
    ensures dump { (fault : DumpFault) → result ≡ Err (TextFault.Dump fault) → IsRefusedDump text.now fault }
{
    let dump = read_dump(alloc, text)?;
    let Ok(found) = audit_parallel(rt, alloc, &dump) else {
        return Err(TextFault::Memory);
    };
    let Ok(lines) = written(alloc, all, &found, dump.frames().len()) else {
        return Err(TextFault::Memory);
    };
    Ok((is_nothing(&found), lines))
}

/// Reads a dump to its end and writes the report of what an audit finds in it, after a line for each finding if `all`
/// is set. Returns whether nothing is found.
///
/// Nothing is written before the whole audit is done. A source that fails, or that has more than 1,073,741,824 bytes,
/// is `Read`, even if its bytes so far are refused already.
pub fn audit_text<D: Source, K: Sink>(
    rt: &(impl Threads + Sync),
    alloc: Global,
    dump: &mut D,
    all: bool,
    out: &mut K,
) -> Result<bool, TextFault>
    requires dump { D.failed dump.old ≡ false }
    requires out { K.failed out.old ≡ false }

    // What is written is of the dump that the source held.
    ensures ok { IfOk result (λ sound. Audits all (D.left dump.old) sound (K.taken out.old) (K.taken out.new)) }
    ensures sources { TellsSources (seen D.failed D.left dump.old dump.new ∷ []) result }
    ensures sink { TellsSink (K.failed out.new) (BeginsAudit all (D.left dump.old) (K.taken out.old) (K.taken out.new))
        (out.new ≡ out.old) result }

    // A fault of the dump is that of all the bytes that the source held, and there is no other fault.
    ensures dump { (fault : DumpFault) → result ≡ Err (TextFault.Dump fault)
        → IfSome (D.left dump.old) (λ text. IsRefusedDump text fault) × IsAtEnd (D.left dump.new) }
    ensures others { IfErr result
        (λ fault. IsDumpFault fault ⊎ ((fault ≡ TextFault.Read) ⊎ (fault ≡ TextFault.Write))) }
{
    let text = read_whole(alloc, dump)?;
    let (sound, lines) = audited(rt, alloc, all, &text)?;
    match write_whole(out, &lines) {
        Ok(()) => Ok(sound),
        Err(_) => Err(TextFault::Write),
    }
}
