//! All that a source has.
ghost use Rattle.std.specs.Prelude.{◌≡◌, ◌<◌, ◌≤◌, false, ℕ, length, take, is_err, IfOk, OnOk};
ghost use Rattle.std.specs.Io.KnownBytes.{Consumes, IsAtEnd};
ghost use Rattle.kc_texts.specs.Ends.{ReadFailed};
ghost use Rattle.kc_types.specs.Limits.{byte_limit};

use crate::{Failed, PIECE, Source};
use kc_types::{BYTE_LIMIT, Memory, SecretBytes};
use std::alloc::Global;
use thiserror::Error;

/// Why the bytes of a source are not all read.
#[derive(Clone, Copy, Debug, PartialEq, Eq, Error)]
pub enum ReadFault {
    /// Memory could not be had.
    #[error("out of memory")]
    Memory,
    /// A read failed, or there are more than 1,073,741,824 bytes.
    #[error("read failed")]
    Read,
}

/// Reads all bytes that a source has left.
pub fn read_whole<S: Source>(alloc: Global, source: &mut S) -> Result<Vec<u8>, ReadFault>
    requires { S.failed source.old ≡ false }
    ensures ok { IfOk result (λ all. Consumes (S.left source.old) (S.left source.new) all.items) }
    ensures few { IfOk result (λ all. length all.items ≤ byte_limit) }
    ensures ended { OnOk result (IsAtEnd (S.left source.new)) }
    ensures mark { OnOk result (S.failed source.new ≡ false) }
    // A read that failed is never reported as out of memory.
    ensures memory { result ≡ Err ReadFault.Memory → S.failed source.new ≡ false }
    ensures read { result ≡ Err ReadFault.Read
        → ReadFailed (S.failed source.new) (S.left source.old) (S.left source.new) }
{
    let mut buffer = [0u8; PIECE];
    let mut all = Vec::new(alloc);
    loop {
        let n = match source.read(&mut buffer) {
            Ok(n) => n,
            Err(Failed) => return Err(ReadFault::Read),
        };
        if n == 0 {
            return Ok(all);
        }
        if n > BYTE_LIMIT - all.len() {
            return Err(ReadFault::Read);
        }
        if all.extend_from_slice(&buffer[..n]).is_err() {
            return Err(ReadFault::Memory);
        }
    }
}

/// Gives a text more room: twice its bytes, at least 65,536 and one more than are expected, and at most 65,536 more
/// than are ever read. An `Err` leaves the text as it was.
fn grow(alloc: Global, text: &mut SecretBytes, awaited: usize) -> Result<(), Memory>
    requires { length text.old ≤ byte_limit }
    ensures kept { (n : ℕ) → n ≤ length text.old → take n text.new ≡ take n text.old }
    ensures more { OnOk result (length text.old < length text.new) }
{
    // (one more, so that the end is seen without growing again)
    let room = (2 * text.as_slice().len())
        .max(PIECE)
        .max(awaited.saturating_add(1))
        .min(BYTE_LIMIT + PIECE);
    *text = text.longer(alloc, room)?;
    Ok(())
}

/// Reads what a source has left into a text. After an `Err`, bytes of it may be anywhere in the text.
fn read_into<S: Source>(
    alloc: Global,
    source: &mut S,
    text: &mut SecretBytes,
) -> Result<(), ReadFault>
    requires { S.failed source.old ≡ false }
    ensures ok { OnOk result (Consumes (S.left source.old) (S.left source.new) text.new) }
    ensures few { OnOk result (length text.new ≤ byte_limit) }
    ensures ended { OnOk result (IsAtEnd (S.left source.new)) }
    ensures mark { OnOk result (S.failed source.new ≡ false) }
    ensures memory { result ≡ Err ReadFault.Memory → S.failed source.new ≡ false }
    ensures read { result ≡ Err ReadFault.Read
        → ReadFailed (S.failed source.new) (S.left source.old) (S.left source.new) }
{
    let awaited = source.size_hint();
    let mut used = 0;
    loop {
        if used == text.as_slice().len() && grow(alloc, text, awaited).is_err() {
            return Err(ReadFault::Memory);
        }
        let Ok(n) = source.read(&mut text.as_mut_slice()[used..]) else {
            return Err(ReadFault::Read);
        };
        if n == 0 {
            text.truncate(used);
            return Ok(());
        }
        if n > BYTE_LIMIT - used {
            return Err(ReadFault::Read);
        }
        used += n;
    }
}

/// Does what `read_whole` does, for bytes that are secret.
pub fn read_secret<S: Source>(alloc: Global, source: &mut S) -> Result<SecretBytes, ReadFault>
    requires { S.failed source.old ≡ false }
    ensures ok { IfOk result (λ all. Consumes (S.left source.old) (S.left source.new) all) }
    ensures few { IfOk result (λ all. length all ≤ byte_limit) }
    ensures ended { OnOk result (IsAtEnd (S.left source.new)) }
    ensures mark { OnOk result (S.failed source.new ≡ false) }
    // A read that failed is never reported as out of memory.
    ensures memory { result ≡ Err ReadFault.Memory → S.failed source.new ≡ false }
    ensures read { result ≡ Err ReadFault.Read
        → ReadFailed (S.failed source.new) (S.left source.old) (S.left source.new) }
{
    let mut text = SecretBytes::new(Vec::new(alloc));
    match read_into(alloc, source, &mut text) {
        Ok(()) => Ok(text),
        Err(fault) => Err(fault),
    }
}
