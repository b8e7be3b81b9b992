//! The core that the calls of a trace begin with.
ghost use Rattle.std.specs.Prelude.{◌≡◌, ◌≢◌, ◌≤◌, ℕ, List, Option, false, true, length, is_some, IfOk, IfErr, IfSome, OnOk, Ok, Err};
ghost use Rattle.std.specs.Io.KnownBytes.{IsAtEnd};
ghost use Rattle.sha2.specs.Sha256.{sha256};
ghost use Rattle.kc_types.specs.Limits.{byte_limit};
ghost use Rattle.kc_model.specs.Lawful.{IsLawful};
ghost use Rattle.kc_config_text.specs.ConfigText.{config_in};
ghost use Rattle.kc_config_text.specs.declared.config_text.ConfigTextFault.{ConfigTextFault};
ghost use Rattle.kc_state_text.specs.Refused.{IsRefusedPlaced};
ghost use Rattle.kc_texts.specs.Ends.{ReadFailed};
ghost use Rattle.kc_faults.specs.Origins.{BeginsIn, expected_at, position_at};
ghost use Rattle.kc_faults.specs.Outcomes.{IsConfigFault, IsStartFault};
ghost use Rattle.kc_cli.specs.Engine.{IsStateFault};
ghost use Rattle.kc_cli.specs.Custody.{NamesStart};

use crate::reading::machine_in;
use kc_core::KCore;
use kc_digests::Lanes;
use kc_faults::TextFault;
use kc_snapshot::StateForm;
use kc_state_text::{StateFault, read_state, state_digest};
use kc_texts::{Origin, Source, read_secret, read_whole};
use kc_trace::{Expected, Position};
use sha2::{Digest, Sha256};
use std::alloc::Global;
use std::thread::Threads;

/// A core, and which header the trace of the calls that go on from it may have.
#[derive(Drop)]
pub struct Start {
    pub core: KCore,
    pub expected: Expected,
}

/// The same, and the SHA-256 digest by which what it was made of is named, if that was asked for.
#[derive(Drop)]
pub(crate) struct Begun {
    pub core: KCore,
    pub expected: Expected,
    pub digest: Option<[u8; 32]>,
}

/// The digest of a configuration's text, if it is asked for.
fn text_digest(text: &[u8], is_named: bool) -> Option<[u8; 32]>
    ensures { (is_some result ≡ is_named) × IfSome result (λ digest. digest ≡ sha256 text.now) }
{
    if !is_named {
        return None;
    }
    let mut hasher = Sha256::new();
    hasher.update(text);
    Some(hasher.finalize())
}

/// The position of a state from which the trace with this header goes on, if it has one.
fn position_at(expected: Expected) -> Option<Position>
    ensures { result ≡ position_at expected }
{
    match expected {
        Expected::At(position) => Some(position),
        _ => None,
    }
}

/// The digest of a core's state with the pages of active VMs zeroed and with its position, if it is asked for: the text
/// that it is of is made a piece at a time, and the core stays as it is.
fn blank_digest(
    alloc: Global,
    core: &KCore,
    expected: Expected,
    is_named: bool,
) -> Result<Option<[u8; 32]>, TextFault>
    ensures digest { IfOk result (λ digest. (source : Option (List ℕ))
        → NamesStart is_named Origin.State source core.now.state expected digest) }
    ensures fault { IfErr result (λ fault. fault ≡ TextFault.Memory) }
{
    if !is_named {
        return Ok(None);
    }
    match state_digest(alloc, core, position_at(expected), StateForm::Blank) {
        Ok(digest) => Ok(Some(digest)),
        Err(_) => Err(TextFault::Memory),
    }
}

/// A sparse core in the boot state of the machine that a text spells.
fn boot_of(alloc: Global, text: &[u8]) -> Result<KCore, TextFault>
    ensures ok { IfOk result (λ core. BeginsIn Origin.Boot text.now core.state Expected.First) }
    ensures lawful { IfOk result (λ core. IsLawful core.state) }
    ensures config { (fault : ConfigTextFault) → result ≡ Err (TextFault.Config fault)
        → config_in text.now ≡ Err fault }
    ensures read { result ≢ Err TextFault.Read }
    ensures fault { IfErr result IsConfigFault }
{
    let config = machine_in(alloc, text)?;
    match KCore::boot_sparse(alloc, config) {
        Ok(core) => Ok(core),
        Err(_) => Err(TextFault::Memory),
    }
}

/// Reads the text of a machine to its end: the core in its boot state.
fn boot_core<C: Source>(alloc: Global, start: &mut C, is_named: bool) -> Result<Begun, TextFault>
    requires { C.failed start.old ≡ false }
    ensures ok { IfOk result
        (λ begun. IfSome (C.left start.old) (λ text. BeginsIn Origin.Boot text begun.core.state begun.expected)) }
    ensures digest { IfOk result
        (λ begun. NamesStart is_named Origin.Boot (C.left start.old) begun.core.state begun.expected begun.digest) }
    ensures lawful { IfOk result (λ begun. IsLawful begun.core.state) }
    ensures ended { OnOk result (IsAtEnd (C.left start.new)) }
    ensures mark { OnOk result (C.failed start.new ≡ false) }
    ensures config { (fault : ConfigTextFault) → result ≡ Err (TextFault.Config fault)
        → IfSome (C.left start.old) (λ text. config_in text ≡ Err fault) × IsAtEnd (C.left start.new) }
    ensures read { result ≡ Err TextFault.Read → ReadFailed (C.failed start.new) (C.left start.old) (C.left start.new) }
    ensures source { C.failed start.new ≡ true → result ≡ Err TextFault.Read }
    ensures fault { IfErr result IsConfigFault }
{
    let text = read_whole(alloc, start)?;
    let core = boot_of(alloc, &text)?;
    let digest = text_digest(&text, is_named);
    Ok(Begun {
        core,
        expected: Expected::First,
        digest,
    })
}

/// The header that the trace may have which goes on from a state with this position.
fn expected_at(position: Option<Position>) -> Expected
    ensures { result ≡ expected_at position }
{
    match position {
        None => Expected::Bare,
        Some(position) => Expected::At(position),
    }
}

/// The core in the state of a text, and which header the trace may have that goes on from it.
fn start_in(
    rt: &(impl Threads + Sync),
    alloc: Global,
    text: &[u8],
    lanes: Lanes,
) -> Result<Start, TextFault>
    requires { length text.now ≤ byte_limit }
    ensures ok { IfOk result (λ start. BeginsIn Origin.State text.now start.core.state start.expected) }
    ensures lawful { IfOk result (λ start. IsLawful start.core.state) }
    ensures state { (fault : StateFault) → result ≡ Err (TextFault.State fault) → IsRefusedPlaced text.now fault }
    ensures fault { IfErr result IsStateFault }
{
    let read = read_state(rt, alloc, text, lanes)?;
    Ok(Start {
        core: read.core,
        expected: expected_at(read.position),
    })
}

/// Reads the text of a state to its end: the core in that state.
fn read_core<C: Source>(
    rt: &(impl Threads + Sync),
    alloc: Global,
    start: &mut C,
    lanes: Lanes,
    is_named: bool,
) -> Result<Begun, TextFault>
    requires { C.failed start.old ≡ false }
    ensures ok { IfOk result
        (λ begun. IfSome (C.left start.old) (λ text. BeginsIn Origin.State text begun.core.state begun.expected)) }
    ensures digest { IfOk result
        (λ begun. NamesStart is_named Origin.State (C.left start.old) begun.core.state begun.expected begun.digest) }
    ensures lawful { IfOk result (λ begun. IsLawful begun.core.state) }
    ensures ended { OnOk result (IsAtEnd (C.left start.new)) }
    ensures mark { OnOk result (C.failed start.new ≡ false) }
    ensures state { (fault : StateFault) → result ≡ Err (TextFault.State fault)
        → IfSome (C.left start.old) (λ text. IsRefusedPlaced text fault) × IsAtEnd (C.left start.new) }
    ensures read { result ≡ Err TextFault.Read → ReadFailed (C.failed start.new) (C.left start.old) (C.left start.new) }
    ensures source { C.failed start.new ≡ true → result ≡ Err TextFault.Read }
    ensures fault { IfErr result IsStartFault }
    ensures config { (fault : ConfigTextFault) → result ≡ Err (TextFault.Config fault) → ⊥ }
{
    let text = read_secret(alloc, start)?;
    let Start { core, expected } = start_in(rt, alloc, text.as_slice(), lanes)?;
    // (its memory is given back before the state is hashed)
    let _wiped = text;
    let digest = blank_digest(alloc, &core, expected, is_named)?;
    Ok(Begun {
        core,
        expected,
        digest,
    })
}

/// Reads what the calls begin with to its end: the core in the boot state of a machine, or in the state of a text, and the digest by which this is named, if that is asked for. A source that fails, or that has more than
/// 1,073,741,824 bytes, is `Read`.
pub(crate) fn begin<C: Source>(
    rt: &(impl Threads + Sync),
    alloc: Global,
    start: &mut C,
    origin: Origin,
    lanes: Lanes,
    is_named: bool,
) -> Result<Begun, TextFault>
    requires { C.failed start.old ≡ false }
    ensures ok { IfOk result
        (λ begun. IfSome (C.left start.old) (λ text. BeginsIn origin text begun.core.state begun.expected)) }
    ensures digest { IfOk result
        (λ begun. NamesStart is_named origin (C.left start.old) begun.core.state begun.expected begun.digest) }
    ensures lawful { IfOk result (λ begun. IsLawful begun.core.state) }
    ensures ended { OnOk result (IsAtEnd (C.left start.new)) }
    ensures mark { OnOk result (C.failed start.new ≡ false) }
    // The fault is of what the bytes are read as.
    ensures config { (fault : ConfigTextFault) → result ≡ Err (TextFault.Config fault) → (origin ≡ Origin.Boot)
        × IfSome (C.left start.old) (λ text. config_in text ≡ Err fault) × IsAtEnd (C.left start.new) }
    ensures state { (fault : StateFault) → result ≡ Err (TextFault.State fault) → (origin ≡ Origin.State)
        × IfSome (C.left start.old) (λ text. IsRefusedPlaced text fault) × IsAtEnd (C.left start.new) }
    ensures read { result ≡ Err TextFault.Read → ReadFailed (C.failed start.new) (C.left start.old) (C.left start.new) }
    ensures source { C.failed start.new ≡ true → result ≡ Err TextFault.Read }
    ensures fault { IfErr result IsStartFault }
{
    match origin {
        Origin::Boot => boot_core(alloc, start, is_named),
        Origin::State => read_core(rt, alloc, start, lanes, is_named),
    }
}

/// Reads what `begin` reads, without the digest.
pub fn read_start<C: Source>(
    rt: &(impl Threads + Sync),
    alloc: Global,
    start: &mut C,
    origin: Origin,
    lanes: Lanes,
) -> Result<Start, TextFault>
    requires { C.failed start.old ≡ false }
    ensures ok { IfOk result
        (λ begun. IfSome (C.left start.old) (λ text. BeginsIn origin text begun.core.state begun.expected)) }
    ensures lawful { IfOk result (λ begun. IsLawful begun.core.state) }
    ensures ended { OnOk result (IsAtEnd (C.left start.new)) }
    ensures mark { OnOk result (C.failed start.new ≡ false) }
    // The fault is of what the bytes are read as.
    ensures config { (fault : ConfigTextFault) → result ≡ Err (TextFault.Config fault) → (origin ≡ Origin.Boot)
        × IfSome (C.left start.old) (λ text. config_in text ≡ Err fault) × IsAtEnd (C.left start.new) }
    ensures state { (fault : StateFault) → result ≡ Err (TextFault.State fault) → (origin ≡ Origin.State)
        × IfSome (C.left start.old) (λ text. IsRefusedPlaced text fault) × IsAtEnd (C.left start.new) }
    ensures read { result ≡ Err TextFault.Read → ReadFailed (C.failed start.new) (C.left start.old) (C.left start.new) }
    ensures source { C.failed start.new ≡ true → result ≡ Err TextFault.Read }
    ensures fault { IfErr result IsStartFault }
{
    match begin(rt, alloc, start, origin, lanes, false) {
        Ok(begun) => Ok(Start {
            core: begun.core,
            expected: begun.expected,
        }),
        Err(fault) => Err(fault),
    }
}
