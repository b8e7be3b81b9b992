//! What calls begin with, as a source.
ghost use Rattle.std.specs.Prelude.{◌≡◌, false, Some, None, Ok, IfOk, IfErr, IfSome, OnOk};
ghost use Rattle.std.specs.Io.KnownBytes.{Keeps};
ghost use Rattle.kc_texts.specs.Headed.{IsHeadOf};
ghost use Rattle.kc_run.specs.Opening.{IsOpenFault, IsHeaderOf, IsUnnamed, IsUnseenFault};

use crate::files::{Files, Unopened};
use kc_cli::DEFAULT_CONFIG;
use kc_faults::TextFault;
use kc_texts::{Failed, Headed, Source};
use kc_trace::{Header, LONGEST_CALL, push_header};
use std::alloc::Global;

/// What is left of a text in memory, of which no read fails.
#[derive(Clone, Copy, Debug)]
pub(crate) struct StartText<'a> {
    rest: &'a [u8],
}

impl<'a> StartText<'a> {
    /// Makes a source of which nothing was read.
    pub(crate) fn new(text: &'a [u8]) -> StartText<'a>
        ensures { result.rest.now ≡ text.now }
    {
        StartText { rest: text }
    }
}

impl<'a> Source for StartText<'a> {
    ghost left = { λ text. Some text.rest.now };

    // Bytes in memory can always be read.
    ghost failed = { λ _. false };

    fn read(&mut self, buffer: &mut [u8]) -> Result<usize, Failed> {
        let count = self.rest.len().min(buffer.len());
        let (front, rest) = self.rest.split_at(count);
        buffer[..count].copy_from_slice(front);
        self.rest = rest;
        Ok(count)
    }

    fn size_hint(&self) -> usize {
        self.rest.len()
    }
}

/// Makes the text of the header of the trace that the input holds, if it has a head.
pub(crate) fn header_text<T: Headed>(
    alloc: Global,
    input: &mut T,
) -> Result<Option<Vec<u8>>, TextFault>
    requires { T.failed input.old ≡ false }
    ensures found { IfOk result (λ found. IfSome found (λ text. IsHeaderOf (T.left input.new) text.items)) }
    ensures none { result ≡ Ok None → IsHeadOf (T.left input.new) None }
    ensures same { OnOk result (Keeps (T.left input.old) (T.left input.new)) }
    ensures ready { OnOk result (T.failed input.new ≡ false) }
    ensures fault { IfErr result (λ fault. IsUnseenFault (T.failed input.new) fault) }
{
    let Some(head) = input.head(alloc)? else {
        return Ok(None);
    };
    let Ok(mut text) = Vec::with_capacity(alloc, LONGEST_CALL) else {
        return Err(TextFault::Memory);
    };
    push_header(&mut text, &Header::Three(head));
    Ok(Some(text))
}

/// Makes the text of what calls begin with if no file is named for it: the header of the trace that the input holds, if
/// it has a head, and otherwise the default configuration.
pub(crate) fn unnamed_text<T: Headed>(alloc: Global, input: &mut T) -> Result<Vec<u8>, TextFault>
    requires { T.failed input.old ≡ false }
    ensures text { IfOk result (λ text. IsUnnamed (T.left input.new) text.items) }
    ensures same { OnOk result (Keeps (T.left input.old) (T.left input.new)) }
    ensures ready { OnOk result (T.failed input.new ≡ false) }
    ensures fault { IfErr result (λ fault. IsUnseenFault (T.failed input.new) fault) }
{
    if let Some(text) = header_text(alloc, input)? {
        return Ok(text);
    }
    match Vec::from_slice(alloc, DEFAULT_CONFIG.as_bytes()) {
        Ok(text) => Ok(text),
        Err(_) => Err(TextFault::Memory),
    }
}

/// Opens the file at a path.
pub(crate) fn open<F: Files>(files: &mut F, path: &str) -> Result<F::File, TextFault>
    requires { F.refused files.old ≡ None }
    ensures bytes { IfOk result (λ file. F.File.left file ≡ F.held files.old path.now) }
    ensures ready { IfOk result (λ file. F.File.failed file ≡ false) }
    ensures opened { OnOk result (F.refused files.new ≡ None) }
    ensures fault { IfErr result (IsOpenFault path.entry (F.refused files.new)) }
    ensures same { F.held files.new ≡ F.held files.old }
{
    match files.open(path) {
        Ok(file) => Ok(file),
        Err(Unopened::Refused) => Err(TextFault::Read),
        Err(Unopened::Memory) => Err(TextFault::Memory),
    }
}
