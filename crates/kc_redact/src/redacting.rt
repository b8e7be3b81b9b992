//! The lines of calls without the bytes that virtual processors or the host write.
ghost use Rattle.std.specs.Prelude.{◌≡◌, ◌≤◌, ◌+◌, ◌*◌, ◌++◌, ◌∷◌, [], replicate, vec_len, vec_capacity};
ghost use Rattle.hex.specs.Hex.{encode_lower};
ghost use Rattle.kc_types.specs.Limits.{page_size};
ghost use Rattle.kc_trace.specs.Spelling.{line_of, longest_call};
ghost use Rattle.kc_redact.specs.Written.{written_call, written_target, written_place};
ghost use Rattle.kc_redact.specs.Redacted.{redacted_line};

use kc_lines::{push_bytes, push_number};
use kc_trace::push_call;
use kc_types::Call;

/// The writer, and the frame that it writes to: a virtual processor names a guest frame, the host a frame.
#[derive(Clone, Copy, Debug)]
pub enum Target {
    Guest { vm: u32, vcpu: u32, gfn: u32 },
    Host { frame: u32 },
}

/// A write without its bytes: where it goes, and how many bytes it has.
#[derive(Clone, Copy, Debug)]
pub struct Written {
    pub target: Target,
    pub offset: u32,
    pub len: usize,
}

/// Appends the digits of this many zero bytes, for which there is room.
fn push_zeros(text: &mut Vec<u8>, len: usize)
    requires { vec_len text.old + 2 * len ≤ vec_capacity text.old }
    ensures items { text.new.items ≡ text.old.items ++ encode_lower (replicate len 0) }
    ensures len { vec_len text.new ≡ vec_len text.old + 2 * len }
    ensures capacity { vec_capacity text.old ≤ vec_capacity text.new }
{
    text.resize(text.len() + 2 * len, b'0').unwrap();
}

/// Appends the name of a write, and the numbers of the writer and the frame.
fn push_target(text: &mut Vec<u8>, target: Target)
    requires { vec_len text.old + 39 ≤ vec_capacity text.old }
    ensures items { text.new.items ≡ text.old.items ++ written_target target }
    ensures len { vec_len text.new ≤ vec_len text.old + 39 }
    ensures capacity { vec_capacity text.old ≤ vec_capacity text.new }
{
    match target {
        Target::Guest { vm, vcpu, gfn } => {
            push_bytes(text, b"gwrite");
            push_number(text, vm);
            push_number(text, vcpu);
            push_number(text, gfn);
        },
        Target::Host { frame } => {
            push_bytes(text, b"hwrite");
            push_number(text, frame);
        },
    }
}

/// Appends the name and the numbers of a write, and a space.
fn push_place(text: &mut Vec<u8>, written: Written)
    requires { vec_len text.old + 51 ≤ vec_capacity text.old }
    ensures items { text.new.items ≡ text.old.items ++ written_place written }
    ensures len { vec_len text.new ≤ vec_len text.old + 51 }
    ensures capacity { vec_capacity text.old ≤ vec_capacity text.new }
{
    push_target(text, written.target);
    push_number(text, written.offset);
    push_bytes(text, b" ");
}

/// Appends the line of a write of zeros and its newline, for which there is room: memory does not grow.
pub fn push_written(text: &mut Vec<u8>, written: Written)
    requires room { vec_len text.old + longest_call ≤ vec_capacity text.old }
    requires page { written.len ≤ page_size }
    ensures line { text.new.items ≡ text.old.items ++ (line_of (written_call written) ++ 10 ∷ []) }
    ensures capacity { vec_capacity text.old ≤ vec_capacity text.new }
{
    push_place(text, written);
    push_zeros(text, written.len);
    push_bytes(text, b"\n");
}

/// Appends the line of a call as a redacted trace has it, and its newline, for which there is room: memory does not
/// grow.
pub fn push_redacted(text: &mut Vec<u8>, call: &Call)
    requires { vec_len text.old + longest_call ≤ vec_capacity text.old }
    ensures line { text.new.items ≡ text.old.items ++ redacted_line call.now }
    ensures capacity { vec_capacity text.old ≤ vec_capacity text.new }
{
    match call {
        Call::GuestWrite {
            vm,
            vcpu,
            gfn,
            offset,
            data,
        } => push_written(
            text,
            Written {
                target: Target::Guest {
                    vm: *vm,
                    vcpu: *vcpu,
                    gfn: *gfn,
                },
                offset: *offset,
                len: data.as_slice().len(),
            },
        ),
        call => push_call(text, call),
    }
}
