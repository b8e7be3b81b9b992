//! Calls as text.
ghost use Rattle.std.specs.Prelude.{◌≡◌, ◌≤◌, ◌+◌, ◌++◌, ◌∷◌, [], length, vec_len, vec_capacity, IfOk};
ghost use Rattle.std.specs.List.{list_any, join_with_byte};
ghost use Rattle.std.specs.Fmt.{decimal};
ghost use Rattle.hex.specs.Hex.{encode_lower};
ghost use Rattle.kc_types.specs.Limits.{call_limit};
ghost use Rattle.kc_types.specs.Bytes.{IsData};
ghost use Rattle.kc_model.specs.Ranged.{IsRanged};
ghost use Rattle.kc_types.specs.Limits.{line_limit};
ghost use Rattle.kc_trace.specs.Trace.{IsTrace};
ghost use Rattle.kc_trace.specs.Spelling.{is_range_call, header_of, line_of, longest_call, trace_of};

use crate::header::Header;
use crate::header_writer::push_header;
use crate::line::is_range_call;
use kc_lines::{push_bytes, push_digits, push_number};
use kc_types::{Call, Data, LINE_LIMIT, Memory};
use std::alloc::Global;

/// The bytes of the longest line of a call, with its newline: `gwrite`, four numbers and 4,096 bytes.
pub const LONGEST_CALL: usize = LINE_LIMIT + 1;

/// Appends a space, and the digits of some bytes.
fn push_data(text: &mut Vec<u8>, bytes: &Data)
    requires { vec_len text.old + 8193 ≤ vec_capacity text.old }
    ensures items { text.new.items ≡ text.old.items ++ (32 ∷ encode_lower bytes.now) }
    ensures len { vec_len text.new ≤ vec_len text.old + 8193 }
    ensures data { IsData bytes.now }
    ensures capacity { vec_capacity text.old ≤ vec_capacity text.new }
{
    push_bytes(text, b" ");
    push_digits(text, bytes.as_slice());
}

/// Appends a name and a number.
fn push_one(text: &mut Vec<u8>, name: &str, number: u32)
    requires { vec_len text.old + (length name.now + 11) ≤ vec_capacity text.old }
    ensures items { text.new.items ≡ text.old.items ++ join_with_byte 32 (name.now ∷ decimal number ∷ []) }
    ensures len { vec_len text.new ≤ vec_len text.old + (length name.now + 11) }
    ensures capacity { vec_capacity text.old ≤ vec_capacity text.new }
{
    push_bytes(text, name.as_bytes());
    push_number(text, number);
}

/// Appends a name and two numbers.
fn push_two(text: &mut Vec<u8>, name: &str, first: u32, second: u32)
    requires { vec_len text.old + (length name.now + 22) ≤ vec_capacity text.old }
    ensures items { text.new.items ≡ text.old.items ++ join_with_byte 32 (name.now ∷ decimal first ∷ decimal second ∷ []) }
    ensures len { vec_len text.new ≤ vec_len text.old + (length name.now + 22) }
    ensures capacity { vec_capacity text.old ≤ vec_capacity text.new }
{
    push_one(text, name, first);
    push_number(text, second);
}

/// Appends a name and three numbers.
fn push_three(text: &mut Vec<u8>, name: &str, first: u32, second: u32, third: u32)
    requires { vec_len text.old + (length name.now + 33) ≤ vec_capacity text.old }
    ensures items { text.new.items ≡ text.old.items ++ join_with_byte 32 (name.now ∷ decimal first ∷ decimal second ∷ decimal third ∷ []) }
    ensures len { vec_len text.new ≤ vec_len text.old + (length name.now + 33) }
    ensures capacity { vec_capacity text.old ≤ vec_capacity text.new }
{
    push_two(text, name, first, second);
    push_number(text, third);
}

/// Appends a name and four numbers.
fn push_four(text: &mut Vec<u8>, name: &str, first: u32, second: u32, third: u32, fourth: u32)
    requires { vec_len text.old + (length name.now + 44) ≤ vec_capacity text.old }
    ensures items { text.new.items ≡ text.old.items ++ join_with_byte 32 (name.now ∷ decimal first ∷ decimal second ∷ decimal third ∷ decimal fourth ∷ []) }
    ensures len { vec_len text.new ≤ vec_len text.old + (length name.now + 44) }
    ensures capacity { vec_capacity text.old ≤ vec_capacity text.new }
{
    push_three(text, name, first, second, third);
    push_number(text, fourth);
}

/// Appends the line of a call, without its newline.
pub(crate) fn push_line(text: &mut Vec<u8>, call: &Call)
    requires { vec_len text.old + line_limit ≤ vec_capacity text.old }
    ensures items { text.new.items ≡ text.old.items ++ line_of call.now }
    ensures len { vec_len text.new ≤ vec_len text.old + line_limit }
    ensures ranged { IsRanged call.now }
    ensures capacity { vec_capacity text.old ≤ vec_capacity text.new }
{
    match call {
        Call::Take => push_bytes(text, b"take"),
        Call::Give { frame } => push_one(text, "give", *frame),
        Call::HostFault { frame } => push_one(text, "hfault", *frame),
        Call::HostRead { frame, offset, len } => push_three(text, "hread", *frame, *offset, *len),
        Call::HostWrite {
            frame,
            offset,
            data,
        } => {
            push_two(text, "hwrite", *frame, *offset);
            push_data(text, data);
        }
        Call::RegisterVm { vm } => push_one(text, "regvm", *vm),
        Call::RegisterVcpu { vm, vcpu } => push_two(text, "regvcpu", *vm, *vcpu),
        Call::SetBoot { vm, base, len } => push_three(text, "setboot", *vm, *base, *len),
        Call::Remap { vm, image, frame } => push_three(text, "remap", *vm, *image, *frame),
        Call::Verify { vm } => push_one(text, "verify", *vm),
        Call::Map { vm, vcpu, frame } => push_three(text, "map", *vm, *vcpu, *frame),
        Call::GuestRead {
            vm,
            vcpu,
            gfn,
            offset,
            len,
        } => {
            push_three(text, "gread", *vm, *vcpu, *gfn);
            push_number(text, *offset);
            push_number(text, *len);
        }
        Call::GuestWrite {
            vm,
            vcpu,
            gfn,
            offset,
            data,
        } => {
            push_three(text, "gwrite", *vm, *vcpu, *gfn);
            push_number(text, *offset);
            push_data(text, data);
        }
        Call::Grant { vm, vcpu, gfn } => push_three(text, "grant", *vm, *vcpu, *gfn),
        Call::Revoke { vm, vcpu, gfn } => push_three(text, "revoke", *vm, *vcpu, *gfn),
        Call::GrantRange {
            vm,
            vcpu,
            gfn,
            count,
        } => push_four(text, "grantr", *vm, *vcpu, *gfn, *count),
        Call::RevokeRange {
            vm,
            vcpu,
            gfn,
            count,
        } => push_four(text, "revoker", *vm, *vcpu, *gfn, *count),
        Call::Drop { vm, vcpu, gfn } => push_three(text, "drop", *vm, *vcpu, *gfn),
        Call::Clear { vm } => push_one(text, "clear", *vm),
    }
}

/// Appends the line of a call and its newline, for which there is room: memory does not grow.
pub fn push_call(text: &mut Vec<u8>, call: &Call)
    requires { vec_len text.old + longest_call ≤ vec_capacity text.old }
    ensures line { text.new.items ≡ text.old.items ++ (line_of call.now ++ 10 ∷ []) }
    ensures ranged { IsRanged call.now }
    ensures capacity { vec_capacity text.old ≤ vec_capacity text.new }
{
    push_line(text, call);
    push_bytes(text, b"\n");
}

fn any_is_range_call(calls: &[Call]) -> bool
    ensures { result ≡ list_any is_range_call calls.now }
{
    calls.iter().any(|call| is_range_call(call))
}

/// The first header that may have all of these calls after it.
#[tactic(auto, unfolding(crate::specs::Spelling::header_of))]
pub fn header_of(calls: &[Call]) -> Header
    ensures { result ≡ header_of calls.now }
{
    if any_is_range_call(calls) {
        Header::Two
    } else {
        Header::One
    }
}

/// Makes the text of at most 65,536 calls: the first header that may have them all after it, and a line
/// for each call. Each line ends with a newline. `read_trace` reads it as these calls.
pub fn write_trace(alloc: Global, calls: &[Call]) -> Result<Vec<u8>, Memory>
    requires { length calls.now ≤ call_limit }
    // No clause can rule out that memory runs out: tests write traces.
    ensures text { IfOk result (λ text. text.items ≡ trace_of calls.now) }
    ensures read { IfOk result (λ text. IsTrace text.items calls.now) }
{
    let mut text = Vec::with_capacity(alloc, LONGEST_CALL)?;
    push_header(&mut text, &header_of(calls));
    for call in calls {
        text.reserve(LONGEST_CALL)?;
        push_call(&mut text, call);
    }
    Ok(text)
}
