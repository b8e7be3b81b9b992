//! A trace, read from a source in pieces.
ghost use Rattle.std.specs.Prelude.{◌≡◌, ◌≢◌, ◌<◌, ◌≤◌, ◌++◌, ℕ, [], List, length, Option, IfOk, OnOk, IfSome, Err, true, false, option_map, None, Some};
ghost use Rattle.std.specs.Io.KnownBytes.{IsAtEnd};
ghost use Rattle.kc_types.specs.Limits.{byte_limit, call_limit};
ghost use Rattle.kc_types.specs.declared.call.Call.{Call};
ghost use Rattle.kc_trace.specs.declared.fault.TraceFault.{TraceFault};
ghost use Rattle.kc_trace.specs.declared.header.Header.{Header};
ghost use Rattle.kc_trace.specs.Trace.{IsTraceUnder, IsRefused};
ghost use Rattle.kc_texts.specs.Ends.{ReadFailed};
ghost use Rattle.kc_texts.specs.Streamed.{HasRead, GoesOn};

use crate::source::{Failed, PIECE, Source};
use crate::whole::ReadFault;
use kc_trace::{Header, TraceFault, TraceReader};
use kc_types::{BYTE_LIMIT, Call};
use std::alloc::{AllocError, Global};
use std::marker::Model;
use thiserror::Error;

/// Why the calls of a source are not all read.
#[derive(Clone, Copy, Debug, PartialEq, Eq, Error)]
pub enum StreamFault {
    /// The bytes are not a trace.
    #[error("{0}")]
    Trace(TraceFault),
    /// Memory could not be had.
    #[error("out of memory")]
    Memory,
    /// A read failed, or there are more than 1,073,741,824 bytes.
    #[error("read failed")]
    Read,
}

impl From<ReadFault> for StreamFault {
    ghost use Rattle.std.specs.Prelude.{◌≡◌};
    ghost use Rattle.kc_texts.specs.Streamed.{stream_fault};

    ghost from_gives = { λ fault made. made ≡ stream_fault fault };

    fn from(fault: ReadFault) -> StreamFault {
        match fault {
            ReadFault::Memory => StreamFault::Memory,
            ReadFault::Read => StreamFault::Read,
        }
    }
}

/// The number of calls that are enough to go on with, before more are read.
const CALLS_AT_ONCE: usize = 4_096;

/// The number of bytes of text that are enough, too: calls with whole pages drop their memory before it has to grow.
const TEXT_AT_ONCE: usize = 2 * PIECE;

/// Appends more calls to these; if there were none, takes the others as they are.
fn joined(mut calls: Vec<Call>, mut more: Vec<Call>) -> Result<Vec<Call>, AllocError>
    ensures { IfOk result (λ all. all.items ≡ calls.items ++ more.items) }
{
    if calls.is_empty() {
        return Ok(more);
    }
    calls.append(&mut more)?;
    Ok(calls)
}

/// The next calls of a trace.
#[derive(Drop)]
pub struct NextCalls {
    pub calls: Vec<Call>,
    /// Whether the source has no more bytes.
    pub is_last: bool,
}

/// A trace that is read from a source one part at a time. No more of the text is kept than one piece and the line
/// begun.
#[derive(Drop)]
pub struct CallStream {
    reader: TraceReader,
    total: usize,
}

impl Model for CallStream {
    ghost use Rattle.std.specs.Prelude.{◌≤◌};
    ghost use Rattle.kc_types.specs.Limits.{byte_limit};
    ghost use Rattle.kc_texts.specs.Streamed.{Streamed};

    ghost Value = { Streamed };

    ghost view = { λ s. record { reader = s.reader; total = s.total } };

    ghost invariant = { λ s. s.total ≤ byte_limit };
}

impl CallStream {
    /// Makes a stream that is before the header.
    pub fn new() -> CallStream
        ensures read { (first : Option (List ℕ)) → HasRead result [] [] first first }
        ensures header { result.reader.progress.header ≡ None }
    {
        CallStream {
            reader: TraceReader::new(),
            total: 0,
        }
    }

    /// Reads from the source until there are at least 4,096 calls or 131,072 bytes, or it has no more bytes. After a
    /// fault of the trace, which `finish` reports, the rest of the source is only read to its end. The buffer is
    /// overwritten.
    pub fn next<T: Source>(
        &mut self,
        alloc: Global,
        source: &mut T,
        buffer: &mut [u8; PIECE],
    ) -> Result<NextCalls, ReadFault>
        requires { T.failed source.old ≡ false }
        ensures calls { IfOk result
            (λ part. GoesOn self.old self.new (T.left source.old) (T.left source.new) part.calls.items) }
        ensures last { IfOk result (λ part. part.is_last ≡ true → IsAtEnd (T.left source.new)) }
        ensures more { IfOk result (λ part. part.is_last ≡ false → self.old.total < self.new.total) }
        ensures few { self.new.total ≤ byte_limit }
        // Once the header was read it stays.
        ensures header { OnOk result ((header : Header) → self.old.reader.progress.header ≡ Some header
            → self.new.reader.progress.header ≡ Some header) }
        ensures mark { OnOk result (T.failed source.new ≡ false) }
        ensures read { result ≡ Err ReadFault.Read → (bytes : List ℕ) (calls : List Call) (first : Option (List ℕ))
            → HasRead self.old bytes calls first (T.left source.old)
            → ReadFailed (T.failed source.new) first (T.left source.new) }
        // A read that failed is never reported as out of memory.
        ensures memory { result ≡ Err ReadFault.Memory → T.failed source.new ≡ false }
    {
        let start = self.total;
        let mut calls = Vec::new(alloc);
        while calls.len() < CALLS_AT_ONCE && self.total - start < TEXT_AT_ONCE {
            let n = match source.read(buffer) {
                Ok(n) => n,
                Err(Failed) => return Err(ReadFault::Read),
            };
            if n == 0 {
                return Ok(NextCalls {
                    calls,
                    is_last: true,
                });
            }
            if n > BYTE_LIMIT - self.total {
                return Err(ReadFault::Read);
            }
            self.total += n;
            let (piece, _) = buffer.split_at(n);
            // After a fault the reader returns it again, so the rest is only read to its end.
            match self.reader.feed(alloc, piece) {
                Ok(more) => match joined(calls, more) {
                    Ok(all) => calls = all,
                    Err(_) => return Err(ReadFault::Memory),
                },
                Err(fault) => match fault {
                    TraceFault::Memory => return Err(ReadFault::Memory),
                    _ => {}
                },
            }
        }
        Ok(NextCalls {
            calls,
            is_last: false,
        })
    }

    /// The header of the trace, once all of it was read without a fault.
    pub fn header(&self) -> Option<&Header>
        ensures { option_map (λ header. header.now) result ≡ self.now.reader.progress.header }
    {
        self.reader.header()
    }

    /// Returns the header, if what was read is a trace, once the source has no more bytes.
    pub fn finish(self) -> Result<Header, TraceFault>
        ensures ok { IfOk result (λ header. (bytes : List ℕ) (calls : List Call) (first now : Option (List ℕ))
            → HasRead self bytes calls first now → IsAtEnd now → IfSome first (λ text. IsTraceUnder header text calls)) }
        ensures header { IfOk result (λ header. self.reader.progress.header ≡ Some header) }
        ensures trace { (fault : TraceFault) → result ≡ Err fault
            → (bytes : List ℕ) (calls : List Call) (first now : Option (List ℕ))
            → HasRead self bytes calls first now → IsAtEnd now → IfSome first (λ text. IsRefused text fault) }
        // Out of memory is not a fault of the trace.
        ensures told { result ≢ Err TraceFault.Memory }
    {
        self.reader.finish()
    }
}

/// A trace that was read.
#[derive(Drop)]
pub struct Trace {
    pub header: Header,
    pub calls: Vec<Call>,
}

/// Reads the trace that a source has left. It is read to its end even if the trace is refused.
pub fn read_whole_trace<T: Source>(alloc: Global, source: &mut T) -> Result<Trace, StreamFault>
    requires { T.failed source.old ≡ false }
    ensures ok { IfOk result
        (λ trace. IfSome (T.left source.old) (λ text. IsTraceUnder trace.header text trace.calls.items)) }
    ensures short { IfOk result (λ trace. length trace.calls.items ≤ call_limit) }
    ensures ended { OnOk result (IsAtEnd (T.left source.new)) }
    ensures trace { (fault : TraceFault) → result ≡ Err (StreamFault.Trace fault)
        → IfSome (T.left source.old) (λ text. IsRefused text fault) × IsAtEnd (T.left source.new) }
    ensures read { result ≡ Err StreamFault.Read
        → ReadFailed (T.failed source.new) (T.left source.old) (T.left source.new) }
    // Out of memory is not a fault of the trace.
    ensures told { result ≢ Err (StreamFault.Trace TraceFault.Memory) }
    // A read that failed is reported as nothing else, and too many bytes as nothing else but out of memory.
    ensures failure { T.failed source.new ≡ true → result ≡ Err StreamFault.Read }
    ensures few { result ≢ Err StreamFault.Read → result ≢ Err StreamFault.Memory
        → IfSome (T.left source.old) (λ text. length text ≤ byte_limit) }
{
    let mut buffer = [0u8; PIECE];
    let mut stream = CallStream::new();
    let mut calls = Vec::new(alloc);
    loop {
        let part = stream.next(alloc, source, &mut buffer)?;
        let NextCalls {
            calls: mut more,
            is_last,
        } = part;
        if calls.append(&mut more).is_err() {
            return Err(StreamFault::Memory);
        }
        if is_last {
            break;
        }
    }
    match stream.finish() {
        Ok(header) => Ok(Trace { header, calls }),
        Err(fault) => Err(StreamFault::Trace(fault)),
    }
}
