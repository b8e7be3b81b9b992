//! The core for a program in C: a session behind a handle that C keeps. No proof covers C, so each function checks all
//! that it needs except the pointers themselves; what the C program must obey is in `kcore.h`.
//!
//! - what each function of C says by its status: `specs/Status.antt`, this file over `src/session.rt` and
//!   `src/look_ups.rt`; the numbers: `src/status.rt`, `include/kcore.h`
//! - which numbers are which call and which reply, and what C gets of records and changes: `specs/Request.antt`,
//!   `specs/Record.antt`, `src/request.rt`, `src/record.rt`
//! - what C keeps of a session, and what its pointer owns: `src/handle.rt`, `src/handle/held.rt`, `specs/Handle.antt`
//! - how a monitor makes an MMU follow the records, and compares both: `examples/kvm/mmu.c`; who asks, and what comes
//!   first: `examples/kvm/core.c`, `monitor.c`
//! - how Python calls the C library: `examples/python/kcore.py`
#![tactic(auto)]

ghost use Rattle.std.specs.Prelude.{◌≡◌, Some, None};
ghost use Rattle.kc_trace.specs.ReplyText.{longest_reply};
ghost use Rattle.kc_trace.specs.Spelling.{longest_call};
ghost use Rattle.kc_trace.specs.declared.header.Position.TheVariants.{First};
ghost use Rattle.kc_session.specs.declared.session.Form.TheVariants.{Whole, Redacted};
ghost use Rattle.kc_snapshot.specs.declared.form.StateForm.TheVariants as forms;
ghost use Rattle.kcore_c.specs.Record.{asking};
ghost use Rattle.kcore_c.specs.Status.{IsCode, BootSays, ResumeSays, StateSays, DumpSays, BlankDigestSays, CallSays, DoSays, ChangeSays, ChangesSays, RecordSays, FrameSays, NextSays, SizesSays, LineSays, DigestSays, TurnSays, EndSays, Puts};

mod handle;
mod look_ups;
mod record;
mod request;
mod session;
mod status;

pub use handle::Handle;
use kc_session::Form;
use kc_snapshot::StateForm;
use kc_trace::{LONGEST_CALL, LONGEST_REPLY, Position};
use record::asking;
pub use record::{Change, Record, Sizes};
pub use request::{Answer, Request};
pub use status::Status;
use std::alloc::Global;

/// The number of bytes of the longest reply, with its newline: the room that `kcore_call` needs.
#[unsafe(no_mangle)]
pub extern "C" fn kcore_longest_reply() -> usize
    ensures { result ≡ longest_reply }
{
    LONGEST_REPLY
}

/// The number of bytes of the longest line of a trace, with its newline.
#[unsafe(no_mangle)]
pub extern "C" fn kcore_longest_line() -> usize
    ensures { result ≡ longest_call }
{
    LONGEST_CALL
}

/// Opens a session whose core is in the boot state of the configuration that a text of up to 1,073,741,824 bytes is.
/// If it cannot, the handle stays as it is.
#[unsafe(no_mangle)]
pub extern "C" fn kcore_boot(alloc: Global, core: &mut Handle, config: &[u8]) -> u32
    ensures { IsCode (BootSays None core.old.held.session core.new.held.session config.now) result }
{
    session::boot(alloc, core, config, None).code()
}

/// Opens a session as `kcore_boot` does, whose traces have heads: that of its first volume says that it is the first, and
/// that of each later one its number and the digest of the volume before it.
#[unsafe(no_mangle)]
pub extern "C" fn kcore_boot_history(alloc: Global, core: &mut Handle, config: &[u8]) -> u32
    ensures { IsCode (BootSays (Some First) core.old.held.session core.new.held.session config.now) result }
{
    session::boot(alloc, core, config, Some(Position::First)).code()
}

/// Opens a session whose core is in the state that a text spells, and that was asked nothing yet. If the text says which
/// volume goes on from the state, the session's traces have heads, and the first one's says that. If the text is refused,
/// `place` is the number of the line, frame or slot that is at fault, or 0, and the handle stays as it is.
#[unsafe(no_mangle)]
pub extern "C" fn kcore_resume(
    alloc: Global,
    core: &mut Handle,
    text: &[u8],
    place: &mut u32,
) -> u32
    ensures { IsCode (ResumeSays core.old.held.session core.new.held.session text.now place.old place.new) result }
{
    session::resume(alloc, core, text, place).code()
}

/// Answers the call on a line, which is given without its newline: the first `used` bytes of the buffer are the reply's
/// line, with its newline, and the bytes after them stay. If it is not answered, the session and the buffer stay as
/// they are and `used` is 0.
#[unsafe(no_mangle)]
pub extern "C" fn kcore_call(
    alloc: Global,
    core: &mut Handle,
    line: &[u8],
    out: &mut [u8],
    used: &mut usize,
) -> u32
    ensures puts { IsCode (Puts (CallSays None core.old.held.session core.new.held.session line.now) out.old out.new used.new) result }
{
    session::call(alloc, core, None, line, out, used).code()
}

/// Answers as `kcore_call` does if the line's call is by the one that asks: a virtual processor of a slot, or the host
/// if the slot is 4,294,967,295. A call by another is not answered.
#[unsafe(no_mangle)]
pub extern "C" fn kcore_call_by(
    alloc: Global,
    core: &mut Handle,
    vm: u32,
    vcpu: u32,
    line: &[u8],
    out: &mut [u8],
    used: &mut usize,
) -> u32
    ensures puts { IsCode (Puts (CallSays (Some (asking vm vcpu)) core.old.held.session core.new.held.session line.now) out.old out.new used.new) result }
{
    session::call(alloc, core, Some(asking(vm, vcpu)), line, out, used).code()
}

/// Makes a call that is given by numbers and bytes, and gives the numbers of its reply; the reply's bytes are the first
/// `used` of the buffer, which has room for 4,096, and the others stay. If the call is not made, session, buffer and
/// answer stay as they are and `used` is 0. Who asks is not checked.
#[unsafe(no_mangle)]
pub extern "C" fn kcore_do(
    alloc: Global,
    core: &mut Handle,
    request: &Request,
    bytes: &[u8],
    out: &mut [u8],
    used: &mut usize,
    answer: &mut Answer,
) -> u32
    ensures puts { IsCode (Puts (DoSays None core.old.held.session core.new.held.session request.now bytes.now answer.old answer.new) out.old out.new used.new) result }
{
    session::make(alloc, core, None, request, bytes, out, used, answer).code()
}

/// Makes a call as `kcore_do` does, if it is by the one that asks; who asks is given as in `kcore_call_by`.
#[unsafe(no_mangle)]
pub extern "C" fn kcore_do_by(
    alloc: Global,
    core: &mut Handle,
    vm: u32,
    vcpu: u32,
    request: &Request,
    bytes: &[u8],
    out: &mut [u8],
    used: &mut usize,
    answer: &mut Answer,
) -> u32
    ensures puts { IsCode (Puts (DoSays (Some (asking vm vcpu)) core.old.held.session core.new.held.session request.now bytes.now answer.old answer.new) out.old out.new used.new) result }
{
    session::make(
        alloc,
        core,
        Some(asking(vm, vcpu)),
        request,
        bytes,
        out,
        used,
        answer,
    )
    .code()
}

/// Reports what the last call that was answered changed in the custody of frames: one change, by its place from 0, in
/// rising order of frames. If there is no such change, `change` stays.
#[unsafe(no_mangle)]
pub extern "C" fn kcore_change(
    alloc: Global,
    core: &mut Handle,
    number: usize,
    change: &mut Change,
) -> u32
    ensures says { IsCode (ChangeSays core.old.held.session number change.old change.new) result }
    ensures same { core.new.held.session ≡ core.old.held.session }
{
    look_ups::change(alloc, core, number, change).code()
}

/// Reports all these changes in the first `count` places of the buffer; the others stay. If there is not enough room,
/// `count` is how many changes there are.
#[unsafe(no_mangle)]
pub extern "C" fn kcore_changes(
    alloc: Global,
    core: &mut Handle,
    changes: &mut [Change],
    count: &mut usize,
) -> u32
    ensures says { IsCode (ChangesSays core.old.held.session changes.old changes.new count.new) result }
    ensures same { core.new.held.session ≡ core.old.held.session }
{
    look_ups::changes(alloc, core, changes, count).code()
}

/// Reports the custody of a frame. If it does not exist, `custody` stays.
#[unsafe(no_mangle)]
pub extern "C" fn kcore_record_of(
    alloc: Global,
    core: &mut Handle,
    frame: u32,
    custody: &mut Record,
) -> u32
    ensures says { IsCode (RecordSays core.old.held.session frame custody.old custody.new) result }
    ensures same { core.new.held.session ≡ core.old.held.session }
{
    look_ups::record(alloc, core, frame, custody).code()
}

/// Reports the frame that is mapped at a guest frame of a slot.
#[unsafe(no_mangle)]
pub extern "C" fn kcore_frame_of(
    alloc: Global,
    core: &mut Handle,
    vm: u32,
    gfn: u32,
    frame: &mut u32,
) -> u32
    ensures says { IsCode (FrameSays core.old.held.session vm gfn frame.old frame.new) result }
    ensures same { core.new.held.session ≡ core.old.held.session }
{
    look_ups::frame(alloc, core, vm, gfn, frame).code()
}

/// Reports the first frame, from a number on, that has this owner, and this slot or 4,294,967,295.
#[unsafe(no_mangle)]
pub extern "C" fn kcore_next(
    alloc: Global,
    core: &mut Handle,
    owner: u32,
    vm: u32,
    from: u32,
    frame: &mut u32,
) -> u32
    ensures says { IsCode (NextSays core.old.held.session owner vm from frame.old frame.new) result }
    ensures same { core.new.held.session ≡ core.old.held.session }
{
    look_ups::next(alloc, core, owner, vm, from, frame).code()
}

/// Reports how large the core is, and how many more calls the volume can hold.
#[unsafe(no_mangle)]
pub extern "C" fn kcore_sizes(alloc: Global, core: &mut Handle, size: &mut Sizes) -> u32
    ensures says { IsCode (SizesSays core.old.held.session size.old size.new) result }
    ensures same { core.new.held.session ≡ core.old.held.session }
{
    look_ups::sizes(alloc, core, size).code()
}

/// Gives a line of the volume's trace, by its place from 0, with its newline: the header, with all lines of its head if it
/// has one, then a line for each call that was answered, so that all of them, one after the other, are the trace. The
/// bytes after the first `used` stay; if no line is given, `used` is 0.
#[unsafe(no_mangle)]
pub extern "C" fn kcore_line(
    alloc: Global,
    core: &mut Handle,
    number: usize,
    out: &mut [u8],
    used: &mut usize,
) -> u32
    ensures puts { IsCode (Puts (LineSays Whole core.old.held.session number) out.old out.new used.new) result }
    ensures same { core.new.held.session ≡ core.old.held.session }
{
    session::line(alloc, core, Form::Whole, number, out, used).code()
}

/// Does what `kcore_line` does, with zeros in place of the bytes that virtual processors wrote: all these lines, one
/// after the other, are the volume's redacted trace.
#[unsafe(no_mangle)]
pub extern "C" fn kcore_redacted_line(
    alloc: Global,
    core: &mut Handle,
    number: usize,
    out: &mut [u8],
    used: &mut usize,
) -> u32
    ensures puts { IsCode (Puts (LineSays Redacted core.old.held.session number) out.old out.new used.new) result }
    ensures same { core.new.held.session ≡ core.old.held.session }
{
    session::line(alloc, core, Form::Redacted, number, out, used).code()
}

/// Gives the SHA-256 digest of the volume's redacted trace so far, which has 32 bytes. The calls since it was last
/// asked for are hashed now. The bytes after the first `used` stay; if no digest is given, `used` is 0.
#[unsafe(no_mangle)]
pub extern "C" fn kcore_digest(
    alloc: Global,
    core: &mut Handle,
    out: &mut [u8],
    used: &mut usize,
) -> u32
    ensures puts { IsCode (Puts (DigestSays core.old.held.session) out.old out.new used.new) result }
    ensures same { core.new.held.session ≡ core.old.held.session }
{
    session::digest(alloc, core, out, used).code()
}

/// Gives the text of the core's state, which `kcore_resume` can open again and which `kcore replay --state` writes. If the
/// session's traces have heads, it says which volume goes on from the state: this one if it has no call yet, else the
/// next. A machine whose version has no such text is refused. The bytes after the first `used` stay; if no text is given,
/// `used` is 0.
#[unsafe(no_mangle)]
pub extern "C" fn kcore_state(
    alloc: Global,
    core: &mut Handle,
    out: &mut [u8],
    used: &mut usize,
) -> u32
    ensures puts { IsCode (Puts (StateSays forms.Whole core.old.held.session) out.old out.new used.new) result }
    ensures same { core.new.held.session ≡ core.old.held.session }
{
    session::state(alloc, core, StateForm::Whole, out, used).code()
}

/// Does what `kcore_state` does, with zero pages in place of those of active VMs.
#[unsafe(no_mangle)]
pub extern "C" fn kcore_blank_state(
    alloc: Global,
    core: &mut Handle,
    out: &mut [u8],
    used: &mut usize,
) -> u32
    ensures puts { IsCode (Puts (StateSays forms.Blank core.old.held.session) out.old out.new used.new) result }
    ensures same { core.new.held.session ≡ core.old.held.session }
{
    session::state(alloc, core, StateForm::Blank, out, used).code()
}

/// Gives the SHA-256 digest of the text that `kcore_blank_state` gives, which has 32 bytes. A machine whose version has no
/// such text is refused. The bytes after the first `used` stay; if no digest is given, `used` is 0.
#[unsafe(no_mangle)]
pub extern "C" fn kcore_blank_digest(
    alloc: Global,
    core: &mut Handle,
    out: &mut [u8],
    used: &mut usize,
) -> u32
    ensures puts { IsCode (Puts (BlankDigestSays core.old.held.session) out.old out.new used.new) result }
    ensures same { core.new.held.session ≡ core.old.held.session }
{
    session::blank_digest(alloc, core, out, used).code()
}

/// Gives the dump of the core, as `kcore replay --dump` writes it. A machine whose version has none is refused. The bytes
/// after the first `used` stay; if no dump is given, `used` is 0.
#[unsafe(no_mangle)]
pub extern "C" fn kcore_dump(
    alloc: Global,
    core: &mut Handle,
    out: &mut [u8],
    used: &mut usize,
) -> u32
    ensures puts { IsCode (Puts (DumpSays core.old.held.session) out.old out.new used.new) result }
    ensures same { core.new.held.session ≡ core.old.held.session }
{
    session::dump(alloc, core, out, used).code()
}

/// Begins the session's next volume, with the core as it is; lines from then on are those of the next volume. If this one
/// has a head, so has the next one, with the next number and the digest of this one.
#[unsafe(no_mangle)]
pub extern "C" fn kcore_turn(alloc: Global, core: &mut Handle) -> u32
    ensures { IsCode (TurnSays core.old.held.session core.new.held.session) result }
{
    session::turn(alloc, core).code()
}

/// Ends a session: the core's pages are zeroed before their memory is freed, and the handle is closed.
#[unsafe(no_mangle)]
pub extern "C" fn kcore_end(alloc: Global, core: &mut Handle) -> u32
    ensures says { IsCode (EndSays core.old.held.session) result }
    ensures closed { core.new.held.session ≡ None }
{
    session::end(alloc, core).code()
}
