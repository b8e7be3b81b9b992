//! Reading a trace, whole or in pieces.
ghost use Rattle.std.specs.Prelude.{◌≡◌, ◌≢◌, ◌⊎◌, ◌+◌, ◌<◌, ◌≤◌, List, [], length, Some, None, Ok, Err, IfOk, IfErr, OnOk, OnErr, MatchOption, MatchResult, option_map};
ghost use Rattle.std.specs.Option.{option_to_list};
ghost use Rattle.kc_types.specs.Limits.{call_limit};
ghost use Rattle.kc_types.specs.declared.call.Call.{Call};
ghost use Rattle.kc_trace.specs.declared.header.Header.{Header};
ghost use Rattle.kc_trace.specs.Header.{first_call_line};
ghost use Rattle.kc_trace.specs.Trace.{IsTrace, IsRefused};
ghost use Rattle.kc_trace.specs.Redacting.{call_by, redacted_read, read_by};
ghost use Rattle.kc_trace.specs.Machine.{Gives, Fails, start, longer, begins_first_line, begun, line_ended_by, line_ended, with_front, feed, fed, ended, reading, standing, call_of_kept, call_in, kept};

use crate::fault::TraceFault;
use crate::head_reader::{HeadSoFar, NextLine};
use crate::header::Header;
use crate::line::{GuestData, is_allowed_in, read_call};
use arrayvec::ArrayVec;
use kc_lines::split_line;
use kc_types::{CALL_LIMIT, Call, LINE_LIMIT, Memory};
use std::alloc::{AllocError, Global};
use std::marker::Model;
use std::mem;

/// Whether the first line of a header begins with a line.
fn begins_first_line(line: &[u8]) -> bool
    ensures { result ≡ begins_first_line (Some line.now) }
{
    b"kcore-trace 1".starts_with(line)
        || b"kcore-trace 2".starts_with(line)
        || b"kcore-trace 3".starts_with(line)
}

/// The call, if a trace with this header may have it.
fn standing(header: &Header, call: Option<Call>) -> Option<Call>
    ensures { result ≡ standing header.now call }
{
    match call {
        Some(call) => if is_allowed_in(header, &call) {
            Some(call)
        } else {
            None
        },
        None => None,
    }
}

/// Reads a line as a call, if it is one.
fn call_of_whole(alloc: Global, guests: GuestData, line: &[u8]) -> Result<Option<Call>, AllocError>
    ensures { IfOk result (λ call. call ≡ call_by guests (call_of_kept (kept line.now))) }
{
    if line.len() > LINE_LIMIT {
        return Ok(None);
    }
    read_call(alloc, guests, line)
}

/// The room for the calls in this many bytes: most lines have at least eight.
fn room_for(bytes: usize) -> usize {
    (bytes / 8).min(CALL_LIMIT)
}

/// How far a trace has been read: its header, once all of that was read, and what was read of it before; how many
/// calls there were, and the line begun.
#[derive(Drop)]
struct Progress {
    header: Option<Header>,
    head: HeadSoFar,
    calls: u32,
    line: ArrayVec<u8, LINE_LIMIT>,
    is_too_long: bool,
}

impl Model for Progress {
    ghost use Rattle.std.specs.Prelude.{◌≤◌, if◌then◌else◌, Some, None};
    ghost use Rattle.kc_types.specs.Limits.{call_limit};
    ghost use Rattle.kc_trace.specs.Machine.{Progress as Seen};

    ghost Value = { Seen };

    ghost view = { λ p. record { header = p.header; head = p.head; calls = p.calls; line = if p.is_too_long then None else Some p.line.items } };

    ghost invariant = { λ p. p.calls ≤ call_limit };
}

impl Progress {
    fn new() -> Progress
        ensures { result ≡ start }
    {
        Progress {
            header: None,
            head: HeadSoFar::Nothing,
            calls: 0,
            line: ArrayVec::new(),
            is_too_long: false,
        }
    }

    /// Makes a copy, so that the original stays as it was if memory runs out.
    fn copy(&self) -> Result<Progress, Memory>
        ensures { IfOk result (λ made. made ≡ self.now) }
    {
        let header = match &self.header {
            Some(header) => Some(header.copy()?),
            None => None,
        };
        let mut line = ArrayVec::new();
        line.try_extend_from_slice(self.line.as_slice()).unwrap();
        Ok(Progress {
            header,
            head: self.head.copy()?,
            calls: self.calls,
            line,
            is_too_long: self.is_too_long,
        })
    }

    /// Appends bytes to the line.
    fn push_each(&mut self, run: &[u8])
        ensures { self.new ≡ longer self.old run.now }
    {
        if self.line.remaining_capacity() < run.len() {
            self.is_too_long = true;
        } else {
            self.line.try_extend_from_slice(run).unwrap();
        }
    }

    /// Begins the next line.
    fn begin_line(&mut self)
        ensures { self.new ≡ record self.old { line = Some [] } }
    {
        self.line.clear();
        self.is_too_long = false;
    }

    /// Takes more bytes of a line that has not ended. `NoHeader` if no header begins so, `TooManyCalls` after the last
    /// call that a trace may have.
    fn begin(&mut self, bytes: &[u8]) -> Result<(), TraceFault>
        ensures { MatchResult result (λ nothing. begun (longer self.old bytes.now) ≡ Ok (self.new, [])) (λ fault. Fails fault (begun (longer self.old bytes.now))) }
    {
        self.push_each(bytes);
        match &self.header {
            None => if self.head.is_nothing()
                && (self.is_too_long || !begins_first_line(self.line.as_slice()))
            {
                Err(TraceFault::NoHeader)
            } else {
                Ok(())
            },
            Some(_) => if self.calls >= CALL_LIMIT as u32 {
                Err(TraceFault::TooManyCalls)
            } else {
                Ok(())
            },
        }
    }

    /// Takes the last bytes of a line of the header; a fault if it may not come there.
    fn end_header(&mut self, alloc: Global, last: &[u8]) -> Result<(), TraceFault>
        ensures { MatchResult result (λ nothing. line_ended_by None (longer self.old last.now) ≡ Ok (self.new, [])) (λ fault. Fails fault (line_ended_by None (longer self.old last.now))) }
    {
        self.push_each(last);
        let number = self.head.next_number();
        let head = mem::replace(&mut self.head, HeadSoFar::Nothing);
        let is_first = head.is_nothing();
        let next = if self.is_too_long {
            None
        } else {
            head.next_line(alloc, self.line.as_slice())?
        };
        match next {
            Some(NextLine::More(head)) => self.head = head,
            Some(NextLine::Whole(header)) => self.header = Some(header),
            None => return Err(if is_first {
                TraceFault::NoHeader
            } else {
                TraceFault::BadLine(number)
            }),
        }
        self.begin_line();
        Ok(())
    }

    /// The call, if a trace with the header that was read may have it.
    fn standing(&self, call: Option<Call>) -> Option<Call>
        ensures { (header : Header) → self.now.header ≡ Some header → result ≡ standing header call }
    {
        match &self.header {
            Some(header) => standing(header, call),
            None => None,
        }
    }

    /// The number of the line of the first call, counted from 1.
    fn first_call_line(&self) -> u32
        ensures value { (header : Header) → self.now.header ≡ Some header → result ≡ first_call_line header }
        ensures few { result ≤ 68 }
    {
        match &self.header {
            Some(header) => header.first_call_line(),
            None => 1,
        }
    }

    /// Reads a line as a call, given its last bytes. It is read in place, unless it began in an earlier piece.
    #[tactic(auto, using(crate::proofs::Redacting::standing_by))]
    fn call(
        &mut self,
        alloc: Global,
        guests: GuestData,
        last: &[u8],
    ) -> Result<Option<Call>, AllocError>
        ensures call { (header : Header) → self.old.header ≡ Some header
            → IfOk result (λ call. call ≡ call_by guests (call_in header (longer self.old last.now).line)) }
        ensures others { self.new ≡ record self.old { line = self.new.line } }
    {
        if self.line.is_empty() && !self.is_too_long {
            let call = call_of_whole(alloc, guests, last)?;
            return Ok(self.standing(call));
        }
        self.push_each(last);
        if self.is_too_long {
            return Ok(None);
        }
        let call = read_call(alloc, guests, self.line.as_slice())?;
        Ok(self.standing(call))
    }

    /// Takes the last bytes of a line, and gives the call that it is; a line of the header is not a call.
    fn end_line(
        &mut self,
        alloc: Global,
        guests: GuestData,
        last: &[u8],
    ) -> Result<Option<Call>, TraceFault>
        ensures { MatchResult result (λ call. read_by guests (line_ended (longer self.old last.now)) ≡ Ok (self.new, option_to_list call)) (λ fault. Fails fault (read_by guests (line_ended (longer self.old last.now)))) }
    {
        if self.header.is_none() {
            self.end_header(alloc, last)?;
            return Ok(None);
        }
        if self.calls >= CALL_LIMIT as u32 {
            return Err(TraceFault::TooManyCalls);
        }
        let Some(call) = self.call(alloc, guests, last)? else {
            return Err(TraceFault::BadLine(self.calls + self.first_call_line()));
        };
        self.calls += 1;
        self.begin_line();
        Ok(Some(call))
    }

    /// Takes a line up to its newline and gives the call that it is, or takes what there is of it.
    fn take_line<'a>(
        &mut self,
        alloc: Global,
        guests: GuestData,
        bytes: &'a [u8],
    ) -> Result<(Option<Call>, &'a [u8]), TraceFault>
        requires some { 0 < length bytes.now }
        ensures less { IfOk result (λ taken. length taken.1.now < length bytes.now) }
        ensures same { MatchResult result (λ taken. read_by guests (feed self.old bytes.now) ≡ with_front (option_to_list taken.0) (read_by guests (feed self.new taken.1.now))) (λ fault. Fails fault (read_by guests (feed self.old bytes.now))) }
    {
        let Some((line, rest)) = split_line(bytes) else {
            self.begin(bytes)?;
            return Ok((None, &bytes[bytes.len()..]));
        };
        let call = self.end_line(alloc, guests, line)?;
        Ok((call, rest))
    }

    /// Takes some bytes, and gives the calls that they end.
    fn feed(
        mut self,
        alloc: Global,
        guests: GuestData,
        bytes: &[u8],
    ) -> Result<(Progress, Vec<Call>), TraceFault>
        ensures { Gives (λ fed. (fed.0, fed.1.items)) result (read_by guests (feed self bytes.now)) }
    {
        let mut calls = Vec::with_capacity(alloc, room_for(bytes.len()))?;
        let mut rest = bytes;
        while !rest.is_empty() {
            let (call, left) = self.take_line(alloc, guests, rest)?;
            if let Some(call) = call {
                calls.push(call)?;
            }
            rest = left;
        }
        Ok((self, calls))
    }

    /// The header, if the text may end here.
    fn end(self) -> Result<Header, TraceFault>
        ensures { result ≡ ended self.header self.line }
    {
        let Progress {
            header,
            line,
            is_too_long,
            ..
        } = self;
        let Some(header) = header else {
            return Err(TraceFault::NoHeader);
        };
        if is_too_long || !line.is_empty() {
            return Err(TraceFault::NoNewline);
        }
        Ok(header)
    }
}

#[tactic(auto, unfolding(crate::specs::Machine::reading))]
fn read_all(alloc: Global, text: &[u8]) -> Result<Vec<Call>, TraceFault>
    ensures { Gives (λ calls. calls.items) result (reading text.now) }
{
    let (progress, calls) = Progress::new().feed(alloc, GuestData::Read, text)?;
    progress.end()?;
    Ok(calls)
}

/// Reads the calls of a whole trace, in order. Only `Memory` is a fault that says nothing about the text.
pub fn read_trace(alloc: Global, text: &[u8]) -> Result<Vec<Call>, TraceFault>
    // What is read is a trace, and what is refused is not one, for its first fault.
    ensures found { MatchResult result (λ calls. IsTrace text.now calls.items) (λ fault. IsRefused text.now fault) }

    // A trace is read as its calls, unless memory runs out.
    ensures only { (calls : List Call) → IsTrace text.now calls → Gives (λ calls. calls.items) result (Ok calls) }

    // What reading line by line returns.
    ensures exact { Gives (λ calls. calls.items) result (reading text.now) }
{
    read_all(alloc, text)
}

/// A reader of a trace that comes in pieces, cut anywhere. It keeps the line begun, at most 8,243 bytes, and the fault
/// that it met. The results are those of `read_trace` for the whole text.
#[derive(Drop)]
pub struct TraceReader {
    progress: Progress,
    fault: Option<TraceFault>,
}

impl Model for TraceReader {
    ghost use Rattle.std.specs.Prelude.{◌≢◌, Some};
    ghost use Rattle.kc_trace.specs.declared.fault.TraceFault.TheVariants.{Memory};
    ghost use Rattle.kc_trace.specs.Machine.{Reader};

    ghost Value = { Reader };

    ghost view = { λ r. record { progress = r.progress; fault = r.fault } };

    ghost invariant = { λ r. r.fault ≢ Some Memory };
}

impl TraceReader {
    /// Makes a reader that is before the header.
    pub fn new() -> TraceReader
        ensures { result ≡ record { progress = start; fault = None } }
    {
        TraceReader {
            progress: Progress::new(),
            fault: None,
        }
    }

    /// The header, once all of it was read without a fault.
    pub fn header(&self) -> Option<&Header>
        ensures { option_map (λ header. header.now) result ≡ self.now.progress.header }
    {
        self.progress.header.as_ref()
    }

    /// Reads the calls whose lines this piece ends, in order. A fault comes with the piece whose bytes decide it,
    /// without any call of that piece, and then again with each further piece. After `Memory` the reader is as it was,
    /// so the piece may be fed again. Pieces should not be too small, since the line begun is copied for each.
    pub fn feed(&mut self, alloc: Global, piece: &[u8]) -> Result<Vec<Call>, TraceFault>
        ensures answer { Gives (λ calls. (self.new.progress, calls.items)) result (fed self.old piece.now) }
        ensures ok { OnOk result (self.new.fault ≡ None) }
        ensures fault { IfErr result (λ fault. fault ≢ TraceFault.Memory → self.new.fault ≡ Some fault) }
        ensures memory { result ≡ Err TraceFault.Memory → self.new ≡ self.old }
        ensures kept { OnErr result (self.new.progress ≡ self.old.progress) }
    {
        self.read(alloc, GuestData::Read, piece)
    }

    /// Does what `feed` does, but gives calls with zeros in place of the bytes that virtual processors write: their
    /// digits are only checked.
    pub fn feed_redacted(&mut self, alloc: Global, piece: &[u8]) -> Result<Vec<Call>, TraceFault>
        ensures answer { Gives (λ calls. (self.new.progress, calls.items)) result (redacted_read (fed self.old piece.now)) }
        ensures ok { OnOk result (self.new.fault ≡ None) }
        ensures fault { IfErr result (λ fault. fault ≢ TraceFault.Memory → self.new.fault ≡ Some fault) }
        ensures memory { result ≡ Err TraceFault.Memory → self.new ≡ self.old }
        ensures kept { OnErr result (self.new.progress ≡ self.old.progress) }
    {
        self.read(alloc, GuestData::Blanked, piece)
    }

    /// Reads the calls whose lines this piece ends.
    fn read(
        &mut self,
        alloc: Global,
        guests: GuestData,
        piece: &[u8],
    ) -> Result<Vec<Call>, TraceFault>
        ensures answer { Gives (λ calls. (self.new.progress, calls.items)) result (read_by guests (fed self.old piece.now)) }
        ensures ok { OnOk result (self.new.fault ≡ None) }
        ensures fault { IfErr result (λ fault. fault ≢ TraceFault.Memory → self.new.fault ≡ Some fault) }
        ensures memory { result ≡ Err TraceFault.Memory → self.new ≡ self.old }
        ensures kept { OnErr result (self.new.progress ≡ self.old.progress) }
    {
        if let Some(fault) = self.fault {
            return Err(fault);
        }
        match self.progress.copy()?.feed(alloc, guests, piece) {
            Ok((progress, calls)) => {
                self.progress = progress;
                Ok(calls)
            }
            Err(fault) => match fault {
                TraceFault::Memory => Err(fault),
                _ => {
                    self.fault = Some(fault);
                    Err(fault)
                }
            },
        }
    }

    /// Returns the header, if the text may end here. If not, the fault is the one met before, else `NoHeader` within the
    /// header and `NoNewline` within a line after it.
    pub fn finish(self) -> Result<Header, TraceFault>
        ensures fault { MatchOption self.fault (result ≡ ended self.progress.header self.progress.line) (λ fault. result ≡ Err fault) }
        ensures told { result ≢ Err TraceFault.Memory }
    {
        match self.fault {
            Some(fault) => Err(fault),
            None => self.progress.end(),
        }
    }
}
