//! What is done with the session of a handle.
ghost use Rattle.std.specs.Prelude.{◌≡◌, ◌≤◌, ◌↔◌, Some, None, false, IsTrue, length, take, drop, IfOk, IfErr, IfSome};
ghost use Rattle.kc_config_text.specs.ConfigText.{config_in, ConfigFails};
ghost use Rattle.kcore_c.specs.Status.{BootSays, CallSays, DoSays, LineSays, DigestSays, ResumeSays, StateSays, DumpSays, BlankDigestSays, IsResumed, TurnSays, EndSays, IsBooted, Puts, place_of};
ghost use Rattle.kc_types.specs.Configuration.{has_dump};
ghost use Rattle.kc_types.specs.Limits.{byte_limit};
ghost use Rattle.kc_trace.specs.Header.{IsPosition};
ghost use Rattle.kc_snapshot.specs.Dumping.{dump_of};
ghost use Rattle.kc_state_text.specs.Refused.{IsRefusedPlaced};
ghost use Rattle.kc_dump_text.specs.DumpText.{dump_text};

use crate::handle::Handle;
use crate::request::{Answer, Request, answer_of, bytes_of, requested};
use crate::status::Status;
use kc_config_text::{ConfigTextFault, read_config};
use kc_core::KCore;
use kc_dump_text::write_dump;
use kc_session::{Form, Session};
use kc_snapshot::{StateForm, dump_alone};
use kc_state_text::{StateFault, state_digest, whole_text};
use kc_trace::{LONGEST_REPLY, Position};
use kc_types::{Actor, BYTE_LIMIT, Memory, PAGE_SIZE};
use std::alloc::Global;

/// The number of bytes of a digest.
const DIGEST: usize = 32;

/// Puts bytes at the front of a buffer that has room for them, and their number in `used`. The bytes after them stay.
fn fill(out: &mut [u8], used: &mut usize, bytes: &[u8])
    requires { length bytes.now ≤ length out.old }
    ensures used { used.new ≡ length bytes.now }
    ensures front { take (length bytes.now) out.new ≡ bytes.now }
    ensures rest { drop (length bytes.now) out.new ≡ drop (length bytes.now) out.old }
    ensures same { length out.new ≡ length out.old }
{
    out[..bytes.len()].copy_from_slice(bytes);
    *used = bytes.len();
}

/// Puts bytes at the front of a buffer if it has room for all of them, and returns whether it has.
fn try_fill(out: &mut [u8], used: &mut usize, bytes: &[u8]) -> bool
    ensures room { IsTrue result ↔ (length bytes.now ≤ length out.old) }
    ensures used { IsTrue result → used.new ≡ length bytes.now }
    ensures front { IsTrue result → take (length bytes.now) out.new ≡ bytes.now }
    ensures rest { IsTrue result → drop (length bytes.now) out.new ≡ drop (length bytes.now) out.old }
    ensures none { result ≡ false → (used.new ≡ used.old) × (out.new ≡ out.old) }
    ensures same { length out.new ≡ length out.old }
{
    if out.len() < bytes.len() {
        return false;
    }
    fill(out, used, bytes);
    true
}

fn opened(
    alloc: Global,
    text: &[u8],
    position: Option<Position>,
) -> Result<Box<Session>, ConfigTextFault>
    requires { IfSome position IsPosition }
    ensures session { IfOk result (λ session. IsBooted position (Some session.value) text.now) }
    ensures fault { IfErr result (λ fault. ConfigFails fault (config_in text.now)) }
{
    let config = read_config(alloc, text)?;
    let _frames = config.frames();
    let Ok(session) = Session::new(alloc, config, position) else {
        return Err(ConfigTextFault::Memory);
    };
    match Box::new(alloc, session) {
        Ok(session) => Ok(session),
        Err(_) => Err(ConfigTextFault::Memory),
    }
}

/// Opens a session with the text of its configuration, and with a head of this position, or none.
pub fn boot(alloc: Global, core: &mut Handle, text: &[u8], position: Option<Position>) -> Status
    requires { IfSome position IsPosition }
    ensures { BootSays position core.old.held.session core.new.held.session text.now result }
{
    if core.is_open() {
        return Status::AlreadyOpen;
    }
    if text.len() > BYTE_LIMIT {
        return Status::TooLong;
    }
    match opened(alloc, text, position) {
        Ok(session) => {
            core.put(session);
            Status::Done
        }
        Err(fault) => Status::Config(fault),
    }
}

/// The number of the line, frame or slot that is at fault, or 0.
fn place_of(fault: &StateFault) -> u32
    ensures { result ≡ place_of fault.now }
{
    match fault {
        StateFault::BadLine(number)
        | StateFault::Missing(number)
        | StateFault::Slot(number)
        | StateFault::Frame(number) => *number,
        StateFault::NoHeader | StateFault::Sizes | StateFault::Found(_) | StateFault::Memory => 0,
    }
}

fn resumed(alloc: Global, text: &[u8]) -> Result<Box<Session>, StateFault>
    requires { length text.now ≤ byte_limit }
    ensures session { IfOk result (λ session. IsResumed (Some session.value) text.now) }
    ensures fault { IfErr result (IsRefusedPlaced text.now) }
{
    let session = Session::resume(alloc, text)?;
    match Box::new(alloc, session) {
        Ok(session) => Ok(session),
        Err(_) => Err(StateFault::Memory),
    }
}

/// Opens a session with the text of a state.
pub fn resume(alloc: Global, core: &mut Handle, text: &[u8], place: &mut u32) -> Status
    ensures { ResumeSays core.old.held.session core.new.held.session text.now place.old place.new result }
{
    if core.is_open() {
        return Status::AlreadyOpen;
    }
    if text.len() > BYTE_LIMIT {
        return Status::TooLong;
    }
    match resumed(alloc, text) {
        Ok(session) => {
            core.put(session);
            Status::Done
        }
        Err(fault) => {
            *place = place_of(&fault);
            Status::State(fault)
        }
    }
}

/// Asks the session by a line, as an actor or as nobody, for a reply into `out`.
pub fn call(
    alloc: Global,
    core: &mut Handle,
    asker: Option<Actor>,
    line: &[u8],
    out: &mut [u8],
    used: &mut usize,
) -> Status
    ensures puts { Puts (CallSays asker core.old.held.session core.new.held.session line.now) out.old out.new used.new result }
{
    *used = 0;
    let Some(session) = core.take(alloc) else {
        return Status::Closed;
    };
    let mut session = session;
    if out.len() < LONGEST_REPLY {
        core.put(session);
        return Status::NoRoom;
    }
    let told = session.ask(asker, line);
    core.put(session);
    match told {
        Ok(told) => {
            fill(out, used, &told);
            Status::Done
        }
        Err(fault) => Status::Ask(fault),
    }
}

/// Makes the call that a request is, as an actor or as nobody: gives the numbers of its reply, and its bytes in `out`.
pub fn make(
    alloc: Global,
    core: &mut Handle,
    asker: Option<Actor>,
    request: &Request,
    bytes: &[u8],
    out: &mut [u8],
    used: &mut usize,
    answer: &mut Answer,
) -> Status
    ensures puts { Puts (DoSays asker core.old.held.session core.new.held.session request.now bytes.now answer.old answer.new) out.old out.new used.new result }
{
    *used = 0;
    let Some(session) = core.take(alloc) else {
        return Status::Closed;
    };
    let mut session = session;
    if out.len() < PAGE_SIZE as usize {
        core.put(session);
        return Status::NoRoom;
    }
    let made = match requested(alloc, *request, bytes) {
        Ok(Some(call)) => session.make(asker, call),
        Ok(None) => {
            core.put(session);
            return Status::NoSuchCall;
        },
        Err(_) => {
            core.put(session);
            return Status::Memory;
        },
    };
    core.put(session);
    match made {
        Ok(reply) => {
            fill(out, used, bytes_of(&reply));
            *answer = answer_of(&reply);
            Status::Done
        },
        Err(fault) => Status::Ask(fault),
    }
}

/// Gives a line of the session's trace in a form, in `out`.
pub fn line(
    alloc: Global,
    core: &mut Handle,
    form: Form,
    number: usize,
    out: &mut [u8],
    used: &mut usize,
) -> Status
    ensures puts { Puts (LineSays form core.old.held.session number) out.old out.new used.new result }
    ensures same { core.new.held.session ≡ core.old.held.session }
{
    *used = 0;
    let Some(session) = core.take(alloc) else {
        return Status::Closed;
    };
    let told = session.line(form, number);
    core.put(session);
    match told {
        Ok(Some(told)) => {
            if !try_fill(out, used, &told) {
                return Status::NoRoom;
            }
            Status::Done
        }
        Ok(None) => Status::NoSuchLine,
        Err(_) => Status::Memory,
    }
}

/// Gives the digest of the session's redacted trace so far, in `out`.
pub fn digest(alloc: Global, core: &mut Handle, out: &mut [u8], used: &mut usize) -> Status
    ensures puts { Puts (DigestSays core.old.held.session) out.old out.new used.new result }
    ensures same { core.new.held.session ≡ core.old.held.session }
{
    *used = 0;
    let Some(session) = core.take(alloc) else {
        return Status::Closed;
    };
    let mut session = session;
    if out.len() < DIGEST {
        core.put(session);
        return Status::NoRoom;
    }
    let told = session.digest();
    core.put(session);
    fill(out, used, &told);
    Status::Done
}

/// Whether there is a text of the session's state.
fn has_state(session: &Session) -> bool
    ensures { result ≡ has_dump session.now.log.state.config.version }
{
    session.core().config().version().has_dump()
}

/// Gives the text of the session's state in a form, in `out`, if its machine has one.
pub fn state(
    alloc: Global,
    core: &mut Handle,
    form: StateForm,
    out: &mut [u8],
    used: &mut usize,
) -> Status
    ensures puts { Puts (StateSays form core.old.held.session) out.old out.new used.new result }
    ensures same { core.new.held.session ≡ core.old.held.session }
{
    *used = 0;
    let Some(session) = core.take(alloc) else {
        return Status::Closed;
    };
    if !has_state(&session) {
        core.put(session);
        return Status::NoText;
    }
    let mut session = session;
    let position = session.onward();
    let told = whole_text(alloc, session.core(), position, form);
    core.put(session);
    match told {
        Ok(text) => {
            if !try_fill(out, used, text.as_slice()) {
                return Status::NoRoom;
            }
            Status::Done
        }
        Err(_) => Status::Memory,
    }
}

/// Makes the text of a core's dump.
fn dumped(alloc: Global, core: &KCore) -> Result<Vec<u8>, Memory>
    ensures { IfOk result (λ text. text.items ≡ dump_text (dump_of core.now.state)) }
{
    let dump = dump_alone(alloc, core, StateForm::Whole)?;
    write_dump(alloc, &dump)
}

/// Gives the dump of the session's core, in `out`, if its machine has one.
pub fn dump(alloc: Global, core: &mut Handle, out: &mut [u8], used: &mut usize) -> Status
    ensures puts { Puts (DumpSays core.old.held.session) out.old out.new used.new result }
    ensures same { core.new.held.session ≡ core.old.held.session }
{
    *used = 0;
    let Some(session) = core.take(alloc) else {
        return Status::Closed;
    };
    if !session.core().config().version().has_dump() {
        core.put(session);
        return Status::NoText;
    }
    let told = dumped(alloc, session.core());
    core.put(session);
    match told {
        Ok(told) => {
            if !try_fill(out, used, &told) {
                return Status::NoRoom;
            }
            Status::Done
        }
        Err(_) => Status::Memory,
    }
}

/// Gives the digest of the text of the session's blank state, in `out`, if its machine has one.
pub fn blank_digest(alloc: Global, core: &mut Handle, out: &mut [u8], used: &mut usize) -> Status
    ensures puts { Puts (BlankDigestSays core.old.held.session) out.old out.new used.new result }
    ensures same { core.new.held.session ≡ core.old.held.session }
{
    *used = 0;
    let Some(session) = core.take(alloc) else {
        return Status::Closed;
    };
    if !has_state(&session) {
        core.put(session);
        return Status::NoText;
    }
    let mut session = session;
    if out.len() < DIGEST {
        core.put(session);
        return Status::NoRoom;
    }
    let position = session.onward();
    let told = state_digest(alloc, session.core(), position, StateForm::Blank);
    core.put(session);
    match told {
        Ok(told) => {
            fill(out, used, &told);
            Status::Done
        }
        Err(_) => Status::Memory,
    }
}

/// Begins the session's next volume.
pub fn turn(alloc: Global, core: &mut Handle) -> Status
    ensures { TurnSays core.old.held.session core.new.held.session result }
{
    let Some(session) = core.take(alloc) else {
        return Status::Closed;
    };
    let mut session = session;
    let turned = session.turn();
    core.put(session);
    match turned {
        Ok(_volume) => Status::Done,
        Err(_refused) => Status::Memory,
    }
}

/// Ends the session.
pub fn end(alloc: Global, core: &mut Handle) -> Status
    ensures says { EndSays core.old.held.session result }
    ensures closed { core.new.held.session ≡ None }
{
    match core.take(alloc) {
        Some(_session) => Status::Done,
        None => Status::Closed,
    }
}
