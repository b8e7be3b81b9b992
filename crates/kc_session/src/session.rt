//! A core that is asked line by line.
ghost use Rattle.std.specs.Prelude.{◌≡◌, ◌≤◌, ◌+◌, ◌++◌, List, true, false, length, vec_len, vec_capacity, slice_get, option_map, IfOk, IfErr, OnOk, OnErr};
ghost use Rattle.std.specs.List.{concat};
ghost use Rattle.kc_types.specs.Limits.{byte_limit, call_limit};
ghost use Rattle.kc_model.specs.Lawful.{IsLawful};
ghost use Rattle.kc_trace.specs.ReplyText.{longest_reply};
ghost use Rattle.kc_trace.specs.Spelling.{longest_call};
ghost use Rattle.kc_trace.specs.Trace.{IsTraceUnder};
ghost use Rattle.sha2.specs.Sha256.{sha256};
ghost use Rattle.kc_types.specs.declared.call.Call.{Call};
ghost use Rattle.kc_model.specs.Ranged.{IsRanged};
ghost use Rattle.kc_live.specs.Book.{IsServed, MayRecord, calls_of, header_at, reply_to};
ghost use Rattle.kc_redact.specs.Redacted.{IsRedaction};
ghost use Rattle.kc_state_text.specs.Refused.{IsRefusedPlaced};
ghost use Rattle.kc_session.specs.Session.{new_session, begun, turned, onward_of, with_call, GoesOnFrom, IsOf, IsAnothers, IsAnswer, IsUnmade, IsUnanswered, trace_lines, redacted_lines, lines_in, line_in};

use kc_core::KCore;
use kc_custody::{note_marks, tell_marks};
use kc_live::{Entry, Journal, Ready};
use kc_redact::push_redacted;
use kc_state_text::{StateFault, read_state_alone};
use kc_trace::{
    LONGEST_CALL, LONGEST_REPLY, Position, call_of_line, push_call, push_header, push_reply,
};
use kc_types::{Actor, CALL_LIMIT, Call, Config, FrameChange, Memory, Reply, actor_of};
use std::alloc::{AllocError, Global};
use std::marker::Model;

/// The line of a trace's first call, after its header.
const FIRST_LINE: u32 = 2;

/// Why a line was not answered, or a call not made. Nothing has changed then.
#[derive(Clone, Copy, Debug, PartialEq, Eq)]
pub enum AskFault {
    /// The line is not a call.
    BadLine,
    /// The call is not the asker's.
    NotYours,
    /// The volume has 65,536 calls.
    HistoryFull,
    /// Memory could not be had.
    Memory,
}

impl From<Memory> for AskFault {
    ghost use Rattle.kc_session.specs.declared.session.AskFault.TheVariants.{Memory};

    ghost from_gives = { λ _ fault. fault ≡ Memory };

    fn from(_refused: Memory) -> AskFault {
        AskFault::Memory
    }
}

impl From<AllocError> for AskFault {
    ghost use Rattle.kc_session.specs.declared.session.AskFault.TheVariants.{Memory};

    ghost from_gives = { λ _ fault. fault ≡ Memory };

    fn from(_refused: AllocError) -> AskFault {
        AskFault::Memory
    }
}

/// How the lines of a volume's trace are given: as they are, or with zeros in place of the bytes that virtual processors
/// write.
#[derive(Clone, Copy, Debug, PartialEq, Eq)]
pub enum Form {
    Whole,
    Redacted,
}

/// Appends the line of a call and its newline, for which there is room.
fn push_line(text: &mut Vec<u8>, form: Form, call: &Call)
    requires { vec_len text.old + longest_call ≤ vec_capacity text.old }
    ensures { text.new.items ≡ text.old.items ++ line_in form call.now }
{
    match form {
        Form::Whole => push_call(text, call),
        Form::Redacted => push_redacted(text, call),
    }
}

/// Whether a call is the asker's; if nobody is named, it is anybody's.
fn is_of(asker: Option<Actor>, call: &Call) -> bool
    ensures yes { result ≡ true → IsOf asker call.now }
    ensures no { result ≡ false → IsAnothers asker call.now }
{
    match asker {
        Some(asker) => actor_of(call) == asker,
        None => true,
    }
}

/// A core and the volume of the calls that it answered, with what the last of all its calls changed of the custody of
/// frames. Seen as the volume and these changes.
#[derive(Drop)]
pub struct Session {
    alloc: Global,
    journal: Journal,
    changes: Vec<FrameChange>,
    /// Room for what is noted before a call.
    marks: Vec<FrameChange>,
}

impl Model for Session {
    ghost use Rattle.std.specs.Coded.{codes, coded_ℕ};
    ghost use Rattle.std.specs.FinMap as map;
    ghost use Rattle.std.specs.List.{AllByRecursion};
    ghost use Rattle.std.specs.Ordering.{nat_cmp};
    ghost use Rattle.kc_model.specs.Ranged.{IsRanged};
    ghost use Rattle.kc_live.specs.Book.{calls_of};
    ghost use Rattle.kc_session.specs.Session.{Kept, kept_of};

    ghost Value = { Kept };

    ghost coded = { Prim.hlevel (codes, map.code {R = nat_cmp} coded_ℕ coded_ℕ) };

    ghost view = { λ s. kept_of s.journal s.changes.items };

    ghost invariant = { λ s. AllByRecursion IsRanged (calls_of s.journal.log.entries) };
}

impl Session {
    /// Begins with a core that was asked nothing yet, and with this position of the first volume, or none.
    fn of(alloc: Global, core: KCore, position: Option<Position>) -> Result<Session, Memory>
        requires lawful { IsLawful core.state }
        requires header { MayRecord (header_at core.state.config position) }
        ensures { IfOk result (λ session. session ≡ begun position core.state) }
    {
        Ok(Session {
            alloc,
            journal: Journal::of(alloc, core, position)?,
            changes: Vec::new(alloc),
            marks: Vec::new(alloc),
        })
    }

    /// Opens a session with the core in the boot state of its configuration, asked nothing yet; its first volume has a head
    /// with this position, or none. `Memory` if memory runs out.
    pub fn new(alloc: Global, config: Config, position: Option<Position>) -> Result<Session, Memory>
        requires { MayRecord (header_at config position) }
        // No clause can rule out that memory runs out: tests open sessions.
        ensures { IfOk result (λ session. session ≡ new_session position config) }
    {
        Session::of(alloc, KCore::boot(alloc, config)?, position)
    }

    /// Opens a session with the core in the state that a text of up to 1,073,741,824 bytes describes, asked nothing yet; else
    /// gives the text's first fault, or `Memory`, which may come whatever the text is. If the text says which volume goes on
    /// from the state, the session's trace has a head that says so.
    pub fn resume(alloc: Global, text: &[u8]) -> Result<Session, StateFault>
        requires { length text.now ≤ byte_limit }
        // What is read is the state's one text.
        ensures resumed { IfOk result (λ session. GoesOnFrom session text.now) }
        ensures refused { IfErr result (IsRefusedPlaced text.now) }
    {
        let read = read_state_alone(alloc, text)?;
        let core = read.core;
        let position = read.position;
        match Session::of(alloc, core, position) {
            Ok(session) => Ok(session),
            Err(_) => Err(StateFault::Memory),
        }
    }

    /// Makes a call if it is the asker's, or anybody's if nobody is named, and gives its reply. `NotYours` if it is another's,
    /// `HistoryFull` if the volume has 65,536 calls, `Memory` if memory runs out: all memory is taken before the
    /// call, so that nothing has changed then.
    pub fn make(&mut self, asker: Option<Actor>, call: Call) -> Result<Reply, AskFault>
        requires { IsRanged call }
        ensures yours { OnOk result (IsOf asker call) }
        ensures reply { IfOk result (λ reply. reply ≡ reply_to self.old.log call) }
        ensures made { OnOk result (self.new ≡ with_call self.old call) }
        ensures fault { IfErr result (λ fault. IsUnmade asker self.old call fault) }
        ensures err { OnErr result (self.new ≡ self.old) }
    {
        if !is_of(asker, &call) {
            return Err(AskFault::NotYours);
        }
        let line = self.journal.entries().len() as u32 + FIRST_LINE;
        self.marks.clear();
        note_marks(
            self.alloc,
            self.journal.core(),
            &call,
            line,
            &mut self.marks,
        )?;
        self.changes.reserve(self.marks.len())?;
        let ready = Ready::new(self.alloc, call)?;
        let Ok(receipt) = self.journal.step(ready) else {
            return Err(AskFault::HistoryFull);
        };
        self.changes.clear();
        tell_marks(self.journal.core(), &self.marks, &mut self.changes);
        Ok(receipt.reply)
    }

    /// Answers the call that a line is, given without its newline, as `make` does, with the line of its reply and a newline.
    /// `BadLine` if it is not a call, `Memory` if memory runs out, whatever the line is.
    pub fn ask(&mut self, asker: Option<Actor>, line: &[u8]) -> Result<Vec<u8>, AskFault>
        ensures reply { IfOk result (λ told. IsAnswer asker self.old self.new line.now told.items) }
        ensures short { IfOk result (λ told. vec_len told ≤ longest_reply) }
        ensures fault { IfErr result (λ fault. IsUnanswered asker self.old line.now fault) }
        ensures err { OnErr result (self.new ≡ self.old) }
    {
        let mut told = Vec::with_capacity(self.alloc, LONGEST_REPLY)?;
        let Some(call) = call_of_line(self.alloc, line)? else {
            return Err(AskFault::BadLine);
        };
        let reply = self.make(asker, call)?;
        push_reply(&mut told, &reply);
        Ok(told)
    }

    /// What the last call that was answered changed of the custody of frames, in ascending order of frames; nothing if no
    /// call was.
    pub fn changes(&self) -> &[FrameChange]
        ensures { result.now ≡ self.now.changes }
    {
        self.changes.as_slice()
    }

    /// How many further calls the volume has room for.
    pub fn left(&self) -> u32
        ensures { result + length self.now.log.entries ≡ call_limit }
    {
        (CALL_LIMIT - self.journal.entries().len()) as u32
    }

    /// The core as the calls so far left it.
    pub fn core(&self) -> &KCore
        ensures { result.now.state ≡ self.now.log.state }
    {
        self.journal.core()
    }

    /// Where the volume comes that goes on from the core as it is, if it has a head: it is this one if it has no call yet, and
    /// otherwise the next. The calls since the digest was last asked are hashed then. No memory is taken.
    pub fn onward(&mut self) -> Option<Position>
        ensures value { result ≡ onward_of self.old }
        ensures same { self.new ≡ self.old }
    {
        self.journal.onward()
    }

    /// Hands out the calls of the volume with their replies, full or not, and begins the next one with the core as it is:
    /// the lines from then on are of the next one. If this one has a head, the next one's says that it follows. `Memory` if
    /// memory for its calls runs out.
    pub fn turn(&mut self) -> Result<Vec<Entry>, Memory>
        ensures entries { IfOk result (λ entries. entries.items ≡ self.old.log.entries) }
        // One thread gets these replies.
        ensures served { OnOk result (IsServed self.old.log) }
        ensures next { OnOk result (self.new ≡ turned self.old) }
        ensures err { OnErr result (self.new ≡ self.old) }
    {
        let room = Vec::with_capacity(self.alloc, CALL_LIMIT)?;
        Ok(self.journal.turn(room))
    }

    /// Gives the SHA-256 digest of the volume's redacted trace so far: of its redacted lines, one after the other. The calls
    /// since it was last asked are hashed now. No memory is taken.
    pub fn digest(&mut self) -> [u8; 32]
        ensures digest { result ≡ sha256 (concat (redacted_lines self.old)) }
        ensures redaction { IsRedaction (concat (trace_lines self.old)) (concat (redacted_lines self.old)) (calls_of self.old.log.entries) }
        ensures same { self.new ≡ self.old }
    {
        self.journal.digest()
    }

    /// Counts the lines of the volume's trace: the header, where a head counts as one line with it, and a line for each call
    /// that was answered. All of them, one after the other, are the trace of these calls.
    pub fn lines(&self) -> usize
        ensures count { result ≡ length (trace_lines self.now) }
        ensures trace { IsTraceUnder self.now.header (concat (trace_lines self.now)) (calls_of self.now.log.entries) }
    {
        let _header = self.journal.header();
        self.journal.entries().len() + 1
    }

    /// Gives a line of that trace in a form, by its place from 0, with its newline. `None` if it has no such line; `Memory` if
    /// memory runs out.
    pub fn line(&self, form: Form, number: usize) -> Result<Option<Vec<u8>>, Memory>
        ensures { IfOk result (λ told. option_map (λ line. line.items) told ≡ slice_get (lines_in form self.now) number) }
    {
        let mut told = Vec::with_capacity(self.alloc, LONGEST_CALL)?;
        if number == 0 {
            push_header(&mut told, self.journal.header());
            return Ok(Some(told));
        }
        let place = number - 1;
        let Some(entry) = self.journal.entries().get(place) else {
            return Ok(None);
        };
        push_line(&mut told, form, &entry.call);
        Ok(Some(told))
    }
}
