//! The launch measurement of boot images, over any sources and any sink.
ghost use Rattle.std.specs.Prelude.{◌≡◌, ◌⊎◌, ◌<◌, ◌↔◌, ◌++◌, ◌∷◌, [], ℕ, List, length, false, true, IsTrue, IfOk, IfErr, IfSome, OnOk, Ok};
ghost use Rattle.std.specs.Io.KnownBytes.{Appends};
ghost use Rattle.sha2.specs.Sha256.{sha256};
ghost use Rattle.kc_texts.specs.Ends.{seen};
ghost use Rattle.kc_texts.specs.Written.{AppendsBeginning};
ghost use Rattle.kc_faults.specs.Outcomes.{TellsSources, TellsSink};
ghost use Rattle.kc_model.specs.Launches.{Booted, launch_text};
ghost use Rattle.kc_cli.specs.Measuring.{measured_text};

use kc_faults::TextFault;
use kc_lines::{push_bytes, push_digits};
use kc_texts::{Sink, Source, read_whole, write_whole};
use sha2::{Digest, Sha256};
use std::alloc::Global;

/// At least as many bytes as are written.
const LONGEST: usize = 128;

/// What is written of a launch measurement.
fn measured_text(alloc: Global, json: bool, digest: &[u8; 32]) -> Result<Vec<u8>, TextFault>
    ensures ok { IfOk result (λ text. text.items ≡ measured_text json digest.now) }
    ensures fault { IfErr result (λ fault. fault ≡ TextFault.Memory) }
{
    let Ok(mut text) = Vec::with_capacity(alloc, LONGEST) else {
        return Err(TextFault::Memory);
    };
    if json {
        push_bytes(&mut text, b"{\"approved\":[\"");
        push_digits(&mut text, digest);
        push_bytes(&mut text, b"\"]}\n");
    } else {
        push_digits(&mut text, digest);
        push_bytes(&mut text, b"\n");
    }
    Ok(text)
}

/// The measurement of the boot images that were added to it, in order.
#[derive(Drop)]
pub struct LaunchMeasure {
    hasher: Sha256,
}

impl LaunchMeasure {
    ghost use Rattle.kc_cli.specs.Measuring.{HasMeasured};

    /// Makes a measurement of no image.
    pub fn new() -> LaunchMeasure
        ensures { HasMeasured result [] }
    {
        LaunchMeasure {
            hasher: Sha256::new(),
        }
    }

    /// Reads an image to its end and adds it at this guest frame. Returns whether it has a byte; one without is not to
    /// be measured.
    pub fn add<S: Source>(
        &mut self,
        alloc: Global,
        base: u32,
        image: &mut S,
    ) -> Result<bool, TextFault>
        requires { S.failed image.old ≡ false }
        ensures measured { result ≡ Ok true → IfSome (S.left image.old) (λ bytes. (images : List Booted)
            → HasMeasured self.old images → HasMeasured self.new (images ++ record { base = base; bytes = bytes } ∷ [])) }
        ensures some { IfOk result (λ some. IfSome (S.left image.old) (λ bytes. IsTrue some ↔ (0 < length bytes))) }
        ensures sources { TellsSources (seen S.failed S.left image.old image.new ∷ []) result }
        ensures fault { IfErr result (λ fault. (fault ≡ TextFault.Memory) ⊎ (fault ≡ TextFault.Read)) }
    {
        let bytes = read_whole(alloc, image)?;
        self.hasher.update(&u64::from(base).to_le_bytes());
        self.hasher.update(&(bytes.len() as u64).to_le_bytes());
        self.hasher.update(&bytes);
        Ok(!bytes.is_empty())
    }

    /// Writes the measurement: its hexadecimal digits, or the key of a configuration that approves it.
    pub fn give<K: Sink>(self, alloc: Global, json: bool, out: &mut K) -> Result<(), TextFault>
        requires { K.failed out.old ≡ false }
        ensures ok { OnOk result ((images : List Booted) → HasMeasured self images
            → Appends (K.taken out.old) (K.taken out.new) (measured_text json (sha256 (launch_text images)))) }
        ensures sink { TellsSink (K.failed out.new) ((images : List Booted) → HasMeasured self images
            → AppendsBeginning (K.taken out.old) (K.taken out.new) (measured_text json (sha256 (launch_text images))))
            (out.new ≡ out.old) result }
        ensures fault { IfErr result (λ fault. (fault ≡ TextFault.Memory) ⊎ (fault ≡ TextFault.Write)) }
    {
        let text = measured_text(alloc, json, &self.hasher.finalize())?;
        match write_whole(out, &text) {
            Ok(()) => Ok(()),
            Err(_) => Err(TextFault::Write),
        }
    }
}
