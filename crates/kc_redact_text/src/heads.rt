//! The head that a trace is given: that of a first volume, or of the volume after another.
ghost use Rattle.std.specs.Prelude.{◌≡◌, ◌≤◌, ◌++◌, ◌∷◌, [], ℕ, List, Some, None, false, true, vec_len, vec_capacity, IfOk, IfErr, IfSome, OnOk, Err, MatchResult};
ghost use Rattle.std.specs.Io.KnownBytes.{IsAtEnd};
ghost use Rattle.sha2.specs.Sha256.{sha256};
ghost use Rattle.sha2.specs.Hashers.{Holds256};
ghost use Rattle.kc_config_text.specs.declared.config_text.ConfigTextFault.{ConfigTextFault};
ghost use Rattle.kc_config_text.specs.ConfigText.{config_in};
ghost use Rattle.kc_trace.specs.declared.fault.TraceFault.{TraceFault};
ghost use Rattle.kc_trace.specs.Expected.{position_after};
ghost use Rattle.kc_trace.specs.Spelling.{line_of, lines_of, text_of, longest_call};
ghost use Rattle.kc_texts.specs.Ends.{ReadFailed};
ghost use Rattle.kc_faults.specs.Outcomes.{IsConfigFault};
ghost use Rattle.kc_redact_text.specs.Reading.{IsReadingFault};
ghost use Rattle.kc_redact_text.specs.Converts.{IsFirstHead, IsHeadAfter, IsRefusedLast, IsNextOf, why_last};

use crate::calls::RedactedCall;
use crate::reading::read_redacted;
use kc_cli::read_configuration;
use kc_faults::TextFault;
use kc_texts::{Line, Source};
use kc_trace::{Head, Header, HeaderFault, LONGEST_CALL, Position, TraceFault, push_header};
use kc_types::Memory;
use sha2::{Digest, Sha256};
use std::alloc::Global;

/// Reads the text of a machine to its end, and returns the head of the first volume on it.
pub(crate) fn read_first_head<C: Source>(alloc: Global, config: &mut C) -> Result<Head, TextFault>
    requires { C.failed config.old ≡ false }
    ensures ok { IfOk result (λ head. IfSome (C.left config.old) (λ text. IsFirstHead text head)) }
    ensures ended { OnOk result (IsAtEnd (C.left config.new)) }
    ensures mark { OnOk result (C.failed config.new ≡ false) }
    ensures config { (fault : ConfigTextFault) → result ≡ Err (TextFault.Config fault)
        → IfSome (C.left config.old) (λ text. config_in text ≡ Err fault) × IsAtEnd (C.left config.new) }
    ensures read { result ≡ Err TextFault.Read
        → ReadFailed (C.failed config.new) (C.left config.old) (C.left config.new) }
    ensures source { C.failed config.new ≡ true → result ≡ Err TextFault.Read }
    ensures fault { IfErr result IsConfigFault }
{
    let config = read_configuration(alloc, config)?;
    // Using the configuration here shows that it keeps its limits.
    let _frames = config.frames();
    Ok(Head {
        config,
        position: Position::First,
        is_host_redacted: false,
    })
}

/// Hashes the line of a redacted call. The buffer is overwritten.
fn hash_line(hasher: &mut Sha256, line: &mut Vec<u8>, call: &RedactedCall)
    requires { longest_call ≤ vec_capacity line.old }
    ensures hashed { (bytes : List ℕ) → Holds256 hasher.old bytes
        → Holds256 hasher.new (bytes ++ (line_of call.now ++ 10 ∷ [])) }
    ensures room { longest_call ≤ vec_capacity line.new }
{
    line.clear();
    call.push(line);
    hasher.update(line.as_slice());
}

/// Hashes the lines of redacted calls. The buffer is overwritten.
fn hash_lines(hasher: &mut Sha256, line: &mut Vec<u8>, calls: &[RedactedCall])
    requires { longest_call ≤ vec_capacity line.old }
    ensures { (bytes : List ℕ) → Holds256 hasher.old bytes → Holds256 hasher.new (bytes ++ lines_of calls.now) }
{
    for call in calls {
        hash_line(hasher, line, call);
    }
}

/// The SHA-256 digest of a redacted trace; `Memory` if memory runs out.
fn digest_of(alloc: Global, header: &Header, calls: &[RedactedCall]) -> Result<[u8; 32], Memory>
    // No clause can rule out that memory runs out: tests ask for digests.
    ensures { IfOk result (λ digest. digest ≡ sha256 (text_of header.now calls.now)) }
{
    let mut line = Vec::with_capacity(alloc, LONGEST_CALL)?;
    push_header(&mut line, header);
    let mut hasher = Sha256::new();
    hasher.update(line.as_slice());
    hash_lines(&mut hasher, &mut line, calls);
    Ok(hasher.finalize())
}

/// The head of the volume after one with this header, whose redacted text has this digest; if none comes after it, why.
fn next_head(header: Header, digest: [u8; 32]) -> Result<Head, HeaderFault>
    ensures { MatchResult result (λ head. IsNextOf header digest head)
        (λ wrong. (position_after header (Some digest) ≡ None) × (wrong ≡ why_last header)) }
{
    let next = Position::after(&header, Some(digest));
    match (header, next) {
        (Header::Three(head), Some(position)) => Ok(Head {
            config: head.config,
            position,
            is_host_redacted: false,
        }),
        (Header::Three(head), None) => {
            if head.is_host_redacted {
                Err(HeaderFault::Digest)
            } else {
                Err(HeaderFault::Number)
            }
        },
        (Header::One | Header::Two, _) => Err(HeaderFault::Missing),
    }
}

/// Reads a trace to its end, and returns the head of the volume after it. A trace that no volume comes after is refused:
/// one without a head, or one that lacks bytes that the host wrote, or that has the last number.
pub(crate) fn read_next_head<B: Source>(alloc: Global, before: &mut B) -> Result<Head, TextFault>
    requires { B.failed before.old ≡ false }
    ensures ok { IfOk result (λ head. IfSome (B.left before.old) (λ text. IsHeadAfter text head)) }
    ensures ended { OnOk result (IsAtEnd (B.left before.new)) }
    ensures trace { (fault : TraceFault) → result ≡ Err (TextFault.Trace fault)
        → IfSome (B.left before.old) (λ text. IsRefusedLast text fault) × IsAtEnd (B.left before.new) }
    ensures read { result ≡ Err TextFault.Read
        → ReadFailed (B.failed before.new) (B.left before.old) (B.left before.new) }
    ensures failed { B.failed before.new ≡ true → result ≡ Err TextFault.Read }
    ensures fault { IfErr result IsReadingFault }
{
    let mut core = None;
    let (header, calls, _) = read_redacted(alloc, &mut core, before)?;
    let Ok(digest) = digest_of(alloc, &header, &calls) else {
        return Err(TextFault::Memory);
    };
    match next_head(header, digest) {
        Ok(head) => Ok(head),
        Err(wrong) => Err(TextFault::Trace(TraceFault::Misplaced(wrong))),
    }
}
