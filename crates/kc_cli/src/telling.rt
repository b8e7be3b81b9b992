//! The calls of a trace, made as it is read, and what is kept of them until what is reported of them is written.
ghost use Rattle.std.specs.Prelude.{◌≡◌, ◌≢◌, ◌<◌, ◌≤◌, ◌+◌, ◌^◌, ◌++◌, ◌||◌, [], Bool, List, Option, None, Some, option_map, length, false, true, IfOk, IfErr, IfSome, OnOk, Err};
ghost use Rattle.std.specs.Io.KnownBytes.{IsAtEnd};
ghost use Rattle.kc_types.specs.Limits.{call_limit};
ghost use Rattle.kc_types.specs.declared.call.Call.{Call};
ghost use Rattle.kc_model.specs.State.{State};
ghost use Rattle.kc_model.specs.Lawful.{IsLawful};
ghost use Rattle.kc_trace.specs.declared.fault.TraceFault.{TraceFault};
ghost use Rattle.kc_trace.specs.declared.header.Header.{Header as AnyHeader};
ghost use Rattle.kc_trace.specs.Trace.{IsTraceUnder, IsRefused};
ghost use Rattle.kc_texts.specs.Ends.{ReadFailed};
ghost use Rattle.kc_redact.specs.Witness.{HasSeen};
ghost use Rattle.kc_cli.specs.Engine.{IsReplayFault};
ghost use Rattle.kc_cli.specs.Traced.{Traced, has_witness, HasWitnessed, MayHaveWitnessed, IsDigested, digest_if};
ghost use Rattle.kc_cli.specs.Ledgers.{HasKept};

use crate::account::FIRST_LINE;
use crate::ledger::Ledger;
use kc_core::KCore;
use kc_faults::TextFault;
use kc_redact::Witness;
use kc_remarks::Denials;
use kc_texts::{CallStream, CustodyForm, PIECE, Source};
use kc_trace::Header;
use kc_types::{Call, Memory};
use std::alloc::Global;

/// Whether a trace with this header has a witness: if it is named, or if the head of the next one has its digest.
fn has_witness(is_named: bool, header: &Header) -> bool
    ensures { result ≡ has_witness is_named header.now }
{
    is_named || header.has_head()
}

/// Whether the digest of a trace is needed: if the trace is named, or another volume may follow.
fn is_needed(is_named: bool, is_followed: bool) -> bool
    ensures { result ≡ (is_named || is_followed) }
{
    is_named || is_followed
}

/// The witness, or a new one that has seen no calls, if the trace has this header now and is to have one.
fn witness_under(
    alloc: Global,
    witness: Option<Witness>,
    is_named: bool,
    header: Option<&Header>,
) -> Result<Option<Witness>, TextFault>
    ensures seen { IfOk result (λ made. (before : Option AnyHeader) (calls : List Call)
        → ((found : AnyHeader) → before ≡ Some found → option_map (λ header. header.now) header.entry ≡ Some found)
        → HasWitnessed is_named before witness calls
        → HasWitnessed is_named (option_map (λ header. header.now) header.entry) made calls) }
    ensures fault { IfErr result (λ fault. fault ≡ TextFault.Memory) }
{
    if witness.is_some() {
        return Ok(witness);
    }
    match header {
        Some(header) if has_witness(is_named, header) => match Witness::new(alloc, header) {
            Ok(witness) => Ok(Some(witness)),
            Err(_) => Err(TextFault::Memory),
        },
        _ => Ok(None),
    }
}

/// Has a witness see some calls.
fn note_each(witness: &mut Witness, calls: &[Call])
    ensures { (header : AnyHeader) (before : List Call) → HasSeen witness.old header before
        → HasSeen witness.new header (before ++ calls.now) }
{
    for call in calls {
        witness.note(call);
    }
}

/// The same, if there is a witness.
fn note_all(witness: &mut Option<Witness>, calls: &[Call])
    ensures { (asked : Bool) (header : Option AnyHeader) (before : List Call) → (header ≡ None → calls.now ≡ [])
        → HasWitnessed asked header witness.old before
        → HasWitnessed asked header witness.new (before ++ calls.now) }
{
    if let Some(witness) = witness {
        note_each(witness, calls);
    }
}

/// The witness of a trace that has this header now, after these calls more, if its digest is needed: since the trace is
/// to be named, or since another volume may follow.
pub(crate) fn witness_more(
    alloc: Global,
    witness: Option<Witness>,
    is_needed: bool,
    is_named: bool,
    header: Option<&Header>,
    calls: &[Call],
) -> Result<Option<Witness>, TextFault>
    ensures seen { IfOk result (λ made. (before : Option AnyHeader) (first : List Call)
        → ((found : AnyHeader) → before ≡ Some found → option_map (λ header. header.now) header.entry ≡ Some found)
        → (option_map (λ header. header.now) header.entry ≡ None → calls.now ≡ [])
        → MayHaveWitnessed is_needed is_named before witness first
        → MayHaveWitnessed is_needed is_named (option_map (λ header. header.now) header.entry) made (first ++ calls.now)) }
    ensures fault { IfErr result (λ fault. fault ≡ TextFault.Memory) }
{
    if !is_needed {
        return Ok(None);
    }
    let mut witness = witness_under(alloc, witness, is_named, header)?;
    note_all(&mut witness, calls);
    Ok(witness)
}

/// The digest of what a witness has seen, if there is one.
pub(crate) fn digest_of(witness: &Option<Witness>) -> Option<[u8; 32]>
    ensures { (asked : Bool) (volume : Traced) → HasWitnessed asked (Some volume.header) witness.now volume.calls
        → result ≡ digest_if asked volume }
{
    match witness {
        Some(witness) => Some(witness.digest()),
        None => None,
    }
}

/// What is known of a trace that was read: its header, and the SHA-256 digest of its redacted text if it was hashed.
#[derive(Drop)]
pub(crate) struct Volume {
    pub header: Header,
    pub digest: Option<[u8; 32]>,
}

/// What is kept of the calls so far.
#[derive(Drop)]
pub(crate) struct Kept {
    pub ledger: Ledger,
    /// How many were refused or rejected, and for what.
    pub denials: Denials,
    /// The line of the next call.
    pub line: u32,
}

impl Kept {
    /// Keeps nothing yet, for this form, perhaps of one slot's VM alone, of calls that begin in this core.
    pub(crate) fn new(
        alloc: Global,
        core: &KCore,
        form: CustodyForm,
        vm: Option<u32>,
    ) -> Result<Kept, Memory>
        ensures { IfOk result (HasKept form core.now.state [] core.now.state) }
    {
        Ok(Kept {
            ledger: Ledger::new(alloc, core, form, vm)?,
            denials: Denials::none(),
            line: FIRST_LINE,
        })
    }

    /// Makes the calls of the trace that a source has left, as it is read, and keeps of them what is reported. The trace
    /// is hashed if it is named, or has a head and is followed by another volume. After an `Err` some of the calls are
    /// done.
    pub(crate) fn tell<T: Source>(
        &mut self,
        alloc: Global,
        core: &mut KCore,
        trace: &mut T,
        is_named: bool,
        is_followed: bool,
    ) -> Result<Volume, TextFault>
        requires trace { T.failed trace.old ≡ false }
        requires lines { self.old.line + call_limit < 2 ^ 32 }
        requires counts { self.old.denials.total ≤ self.old.line }
        ensures ok { IfOk result (λ volume. (calls : List Call)
            × IfSome (T.left trace.old) (λ text. IsTraceUnder volume.header text calls)
            × (length calls ≤ call_limit) × (self.new.line ≡ self.old.line + length calls)
            × IsDigested (is_named || is_followed) is_named (record { header = volume.header; calls = calls }) volume.digest
            × ((form : CustodyForm) (start : State) (before : List Call) → IsLawful start
            → HasKept form start before core.old.state self.old
            → HasKept form start (before ++ calls) core.new.state self.new)) }
        ensures config { OnOk result (core.new.state.config ≡ core.old.state.config) }
        ensures ended { OnOk result (IsAtEnd (T.left trace.new)) }
        ensures trace { (fault : TraceFault) → result ≡ Err (TextFault.Trace fault)
            → IfSome (T.left trace.old) (λ text. IsRefused text fault) × IsAtEnd (T.left trace.new) }
        ensures read { result ≡ Err TextFault.Read
            → ReadFailed (T.failed trace.new) (T.left trace.old) (T.left trace.new) }
        ensures source { T.failed trace.new ≡ true → result ≡ Err TextFault.Read }
        ensures started { result ≢ Err TextFault.Start }
        ensures fault { IfErr result IsReplayFault }
    {
        let is_needed = is_needed(is_named, is_followed);
        let mut witness = None;
        let mut buffer = [0u8; PIECE];
        let mut stream = CallStream::new();
        loop {
            let part = stream.next(alloc, trace, &mut buffer)?;
            witness = witness_more(
                alloc,
                witness,
                is_needed,
                is_named,
                stream.header(),
                &part.calls,
            )?;
            let Ok(()) = self
                .ledger
                .note(alloc, core, &part.calls, self.line, &mut self.denials)
            else {
                return Err(TextFault::Memory);
            };
            self.line += part.calls.len() as u32;
            if part.is_last {
                break;
            }
        }
        match stream.finish() {
            Ok(header) => Ok(Volume {
                header,
                digest: digest_of(&witness),
            }),
            Err(fault) => Err(TextFault::Trace(fault)),
        }
    }
}
