//! The configuration and the trace that an engine starts from.
ghost use Rattle.std.specs.Prelude.{◌≡◌, ◌≢◌, ◌≤◌, ◌∷◌, [], length, false, true, IfOk, IfErr, IfSome, OnOk, Ok, Err};
ghost use Rattle.std.specs.Io.KnownBytes.{IsAtEnd};
ghost use Rattle.kc_types.specs.Limits.{call_limit};
ghost use Rattle.kc_config_text.specs.declared.config_text.ConfigTextFault.{ConfigTextFault};
ghost use Rattle.kc_config_text.specs.ConfigText.{config_in};
ghost use Rattle.kc_texts.specs.Ends.{ReadFailed, seen};
ghost use Rattle.kc_cli.specs.Reading.{HaveRead};
ghost use Rattle.kc_faults.specs.Origins.{SpellsMachine};
ghost use Rattle.kc_faults.specs.Outcomes.{IsReadingFault, IsConfigFault, TellsSources, TellsTexts};

use kc_config_text::read_config;
use kc_faults::TextFault;
use kc_texts::{Origin, Source, read_whole, read_whole_trace};
use kc_trace::{Expected, Header, TraceFault, read_header};
use kc_types::{Call, Config};
use std::alloc::Global;

/// The configuration if no other is named: 8 frames, of which the first is the core's and the next four are the host's,
/// one leaf table for each VM, and the digest of `abc` approved (from the examples of FIPS 180-4).
pub const DEFAULT_CONFIG: &str =
    "{\"frames\":8,\"core\":1,\"host\":4,\"leaves\":1,\"approved\":[\"ba7816bf8f01cfea414140de5dae2223b00361a396177a9cb410ff61f20015ad\"]}";

/// The machine that a text spells: that in the header of a trace, if the text is one with a head, and otherwise that of a
/// configuration.
pub(crate) fn machine_in(alloc: Global, text: &[u8]) -> Result<Config, TextFault>
    ensures ok { IfOk result (SpellsMachine text.now) }
    ensures config { (fault : ConfigTextFault) → result ≡ Err (TextFault.Config fault) → config_in text.now ≡ Err fault }
    ensures read { result ≢ Err TextFault.Read }
    ensures fault { IfErr result IsConfigFault }
{
    let Ok(found) = read_header(alloc, text) else {
        return Err(TextFault::Memory);
    };
    if let Some((header, rest)) = found
        && rest.is_empty()
        && let Header::Three(head) = header
    {
        return Ok(head.config);
    }
    let config = read_config(alloc, text)?;
    Ok(config)
}

/// Reads the text of a machine to its end.
pub fn read_configuration<C: Source>(alloc: Global, source: &mut C) -> Result<Config, TextFault>
    requires { C.failed source.old ≡ false }
    ensures ok { IfOk result (λ config. IfSome (C.left source.old) (λ text. SpellsMachine text config)) }
    ensures ended { OnOk result (IsAtEnd (C.left source.new)) }
    ensures mark { OnOk result (C.failed source.new ≡ false) }
    ensures config { (fault : ConfigTextFault) → result ≡ Err (TextFault.Config fault)
        → IfSome (C.left source.old) (λ text. config_in text ≡ Err fault) × IsAtEnd (C.left source.new) }
    ensures read { result ≡ Err TextFault.Read
        → ReadFailed (C.failed source.new) (C.left source.old) (C.left source.new) }
    ensures source { C.failed source.new ≡ true → result ≡ Err TextFault.Read }
    ensures fault { IfErr result IsConfigFault }
{
    let text = read_whole(alloc, source)?;
    machine_in(alloc, &text)
}

/// Reads the text of a machine and then a trace of calls that go on from its boot state, each to its end; the trace only if
/// the machine is accepted.
pub fn read_both<C: Source, T: Source>(
    alloc: Global,
    config: &mut C,
    trace: &mut T,
) -> Result<(Config, Vec<Call>), TextFault>
    requires config { C.failed config.old ≡ false }
    requires trace { T.failed trace.old ≡ false }
    ensures ok { IfOk result (λ read. HaveRead (C.left config.old) (T.left trace.old) read.0 read.1.items) }
    ensures short { IfOk result (λ read. length read.1.items ≤ call_limit) }
    ensures sources { TellsSources
        (seen C.failed C.left config.old config.new ∷ seen T.failed T.left trace.old trace.new ∷ []) result }
    ensures texts { TellsTexts Origin.Boot (seen C.failed C.left config.old config.new)
        (seen T.failed T.left trace.old trace.new) (trace.new ≡ trace.old) result }
    ensures fault { IfErr result IsReadingFault }
{
    let config = read_configuration(alloc, config)?;
    let read = read_whole_trace(alloc, trace)?;
    if let Some(wrong) = Expected::First.fault(&config, &read.header) {
        return Err(TextFault::Trace(TraceFault::Misplaced(wrong)));
    }
    Ok((config, read.calls))
}
