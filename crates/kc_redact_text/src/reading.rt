//! Redacting a trace as it is read.
ghost use Rattle.std.specs.Prelude.{◌≡◌, ◌≢◌, ◌<◌, ◌≤◌, ◌+◌, ◌++◌, [], ℕ, List, Option, Some, None, false, true, length, IfOk, IfErr, IfSome, OnOk, OnErr, Err, MatchResult};
ghost use Rattle.std.specs.Io.KnownBytes.{IsAtEnd};
ghost use Rattle.kc_types.specs.Limits.{byte_limit};
ghost use Rattle.kc_types.specs.declared.call.Call.{Call};
ghost use Rattle.kc_trace.specs.Machine.{Fails, fed};
ghost use Rattle.kc_trace.specs.Trace.{IsRefused};
ghost use Rattle.kc_trace.specs.declared.fault.TraceFault.{TraceFault};
ghost use Rattle.kc_texts.specs.Ends.{ReadFailed};
ghost use Rattle.kc_texts.specs.Streamed.{HasRead};
ghost use Rattle.kc_core.specs.KCore.{state_in};
ghost use Rattle.kc_redact_text.specs.Made.{redacted_by, core_after, config_of, replies_by, CountsMore};
ghost use Rattle.kc_remarks.specs.Denials.{AreCounts};
ghost use Rattle.kc_redact_text.specs.Reading.{AreRead, stream_of, HasTaken, HasGoneOn, IsHeaderAndCalls, IsReadingFault};

use crate::calls::RedactedCall;
use crate::next::redact_next;
use kc_core::KCore;
use kc_faults::TextFault;
use kc_remarks::Denials;
use kc_texts::{PIECE, ReadFault, Source};
use kc_trace::{Header, TraceFault, TraceReader};
use kc_types::{BYTE_LIMIT, Call, Memory, SecretBytes};
use std::alloc::Global;

/// Appends some calls as a redacted trace has them. If there is a core, they are made on it, and its replies counted.
/// The memory of the bytes that are left out is zeroed.
fn push_each(
    calls: &mut Vec<RedactedCall>,
    core: &mut Option<KCore>,
    more: Vec<Call>,
    denials: &mut Denials,
) -> Result<(), Memory>
    ensures calls { OnOk result (calls.new.items ≡ calls.old.items ++ redacted_by (state_in core.old) more.items) }
    ensures core { OnOk result (state_in core.new ≡ core_after (state_in core.old) more.items) }
    ensures counted { OnOk result (CountsMore (replies_by (state_in core.old) more.items) denials.old denials.new) }
{
    calls.reserve(more.len())?;
    for call in more {
        let redacted = redact_next(core, call, denials)?;
        calls.push(redacted)?;
    }
    Ok(())
}

/// Reads the calls whose lines a piece ends. If there is a core, which is to make them, they come whole; otherwise the
/// bytes that virtual processors write are only checked, since zeros take their place.
fn read_calls(
    reader: &mut TraceReader,
    alloc: Global,
    core: &Option<KCore>,
    piece: &[u8],
) -> Result<Vec<Call>, TraceFault>
    ensures answer { MatchResult result
        (λ calls. AreRead (state_in core.now) (fed reader.old piece.now) reader.new.progress calls.items)
        (λ fault. Fails fault (fed reader.old piece.now)) }
    ensures ok { OnOk result (reader.new.fault ≡ None) }
    ensures fault { IfErr result (λ fault. fault ≢ TraceFault.Memory → reader.new.fault ≡ Some fault) }
    ensures kept { OnErr result (reader.new.progress ≡ reader.old.progress) }
{
    match core {
        Some(_) => reader.feed(alloc, piece),
        None => reader.feed_redacted(alloc, piece),
    }
}

/// What was read of a trace: how far, the calls so far, redacted, and the counts of the replies to them.
#[derive(Drop)]
struct Redacting {
    reader: TraceReader,
    total: usize,
    calls: Vec<RedactedCall>,
    denials: Denials,
}

impl Redacting {
    /// Starts before the header.
    fn new(alloc: Global) -> Redacting
        ensures read { (first : Option (List ℕ)) → HasRead (stream_of result) [] [] first first }
        ensures calls { result.calls.items ≡ [] }
        ensures total { result.total ≡ 0 }
        ensures counted { AreCounts [] result.denials }
    {
        Redacting {
            reader: TraceReader::new(),
            total: 0,
            calls: Vec::new(alloc),
            denials: Denials::none(),
        }
    }

    /// Takes the next bytes. After a fault of the trace, which the reader reports at its end, bytes are only counted.
    fn take(
        &mut self,
        alloc: Global,
        core: &mut Option<KCore>,
        piece: &[u8],
    ) -> Result<(), ReadFault>
        requires { self.old.total ≤ byte_limit }
        ensures ok { OnOk result (HasTaken (state_in core.old) (state_in core.new) self.old self.new piece.now) }
        ensures total { OnOk result (self.new.total ≡ self.old.total + length piece.now) }
        ensures few { OnOk result (self.new.total ≤ byte_limit) }
        ensures read { result ≡ Err ReadFault.Read → byte_limit < self.old.total + length piece.now }
    {
        if piece.len() > BYTE_LIMIT - self.total {
            return Err(ReadFault::Read);
        }
        self.total += piece.len();
        match read_calls(&mut self.reader, alloc, core, piece) {
            Ok(more) => match push_each(&mut self.calls, core, more, &mut self.denials) {
                Ok(()) => Ok(()),
                Err(_) => Err(ReadFault::Memory),
            },
            Err(TraceFault::Memory) => Err(ReadFault::Memory),
            Err(_) => Ok(()),
        }
    }

    /// Takes the rest of a source. The memory of a piece is zeroed before it is freed.
    fn take_rest<T: Source>(
        &mut self,
        alloc: Global,
        core: &mut Option<KCore>,
        source: &mut T,
    ) -> Result<(), ReadFault>
        requires few { self.old.total ≤ byte_limit }
        requires whole { T.failed source.old ≡ false }
        ensures ok { OnOk result
            (HasGoneOn (state_in core.old) (state_in core.new) self.old self.new (T.left source.old) (T.left source.new)) }
        ensures ended { OnOk result (IsAtEnd (T.left source.new)) }
        ensures mark { OnOk result (T.failed source.new ≡ false) }
        ensures read { result ≡ Err ReadFault.Read → (bytes : List ℕ) (calls : List Call) (first : Option (List ℕ))
            → HasRead (stream_of self.old) bytes calls first (T.left source.old)
            → ReadFailed (T.failed source.new) first (T.left source.new) }
        // A read that failed is never reported as out of memory.
        ensures memory { result ≡ Err ReadFault.Memory → T.failed source.new ≡ false }
    {
        let Ok(piece) = vec![in alloc; 0u8; PIECE] else {
            return Err(ReadFault::Memory);
        };
        let mut buffer = SecretBytes::new(piece);
        'pieces: loop {
            let Ok(n) = source.read(buffer.as_mut_slice()) else {
                return Err(ReadFault::Read);
            };
            if n == 0 {
                return Ok(());
            }
            self.take(alloc, core, &buffer.as_slice()[..n])?;
        }
    }
}

/// Reads the rest of a source as a trace; returns its header, and its calls, redacted. If there is a core, the calls
/// are made on it as they are read, and the counts of its replies are returned too; its configuration stays as it is.
pub fn read_redacted<T: Source>(
    alloc: Global,
    core: &mut Option<KCore>,
    source: &mut T,
) -> Result<(Header, Vec<RedactedCall>, Denials), TextFault>
    requires { T.failed source.old ≡ false }
    ensures ok { IfOk result
        (λ read. IfSome (T.left source.old) (λ text. IsHeaderAndCalls (state_in core.old) text read.0 read.1.items read.2)) }
    ensures config { OnOk result (config_of (state_in core.new) ≡ config_of (state_in core.old)) }
    ensures ended { OnOk result (IsAtEnd (T.left source.new)) }
    ensures trace { (fault : TraceFault) → result ≡ Err (TextFault.Trace fault)
        → IfSome (T.left source.old) (λ text. IsRefused text fault) × IsAtEnd (T.left source.new) }
    ensures read { result ≡ Err TextFault.Read
        → ReadFailed (T.failed source.new) (T.left source.old) (T.left source.new) }
    ensures failed { T.failed source.new ≡ true → result ≡ Err TextFault.Read }
    ensures fault { IfErr result IsReadingFault }
{
    let mut redacting = Redacting::new(alloc);
    redacting.take_rest(alloc, core, source)?;
    let Redacting {
        reader,
        total: _,
        calls,
        denials,
    } = redacting;
    match reader.finish() {
        Ok(header) => Ok((header, calls, denials)),
        Err(fault) => Err(TextFault::Trace(fault)),
    }
}
