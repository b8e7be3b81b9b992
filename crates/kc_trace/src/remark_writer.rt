//! Calls that were denied and accesses by the host, as JSON Lines (RFC 8259): one object on each line.
ghost use Rattle.std.specs.Prelude.{◌≡◌, ◌≤◌, ◌+◌, ◌++◌, ◌∷◌, [], codes, length, vec_len, vec_capacity};
ghost use Rattle.std.specs.Fmt.{decimal};
ghost use Rattle.kc_types.specs.Refusals.{name_of};
ghost use Rattle.kc_trace.specs.CustodyText.{owner_text, number_text, member, longest_change};
ghost use Rattle.kc_trace.specs.RemarkText.{kind_text, head_text, reason_text, slot_text, foreign_text, named_text, denied_line, access_line, longest_head, longest_reason, longest_slot, longest_named};

use crate::custody_writer::{push_gfn, push_member, push_number, push_owner};
use kc_lines::push_bytes;
use kc_remarks::{Access, CallKind, Denial, Denied, NamedFrame};
use kc_types::Refusal;

/// The name of a call, as in traces.
pub fn call_name(kind: CallKind) -> &'static str
    ensures name { result.now ≡ kind_text kind }
    ensures short { length result.now ≤ 7 }
{
    match kind {
        CallKind::Take => "take",
        CallKind::Give => "give",
        CallKind::HostFault => "hfault",
        CallKind::HostRead => "hread",
        CallKind::HostWrite => "hwrite",
        CallKind::RegisterVm => "regvm",
        CallKind::RegisterVcpu => "regvcpu",
        CallKind::SetBoot => "setboot",
        CallKind::Remap => "remap",
        CallKind::Verify => "verify",
        CallKind::Map => "map",
        CallKind::GuestRead => "gread",
        CallKind::GuestWrite => "gwrite",
        CallKind::Grant => "grant",
        CallKind::Revoke => "revoke",
        CallKind::GrantRange => "grantr",
        CallKind::RevokeRange => "revoker",
        CallKind::Drop => "drop",
        CallKind::Clear => "clear",
    }
}

/// Appends the name of a call.
fn push_kind(text: &mut Vec<u8>, kind: CallKind)
    requires { vec_len text.old + 7 ≤ vec_capacity text.old }
    ensures items { text.new.items ≡ text.old.items ++ kind_text kind }
    ensures len { vec_len text.new ≤ vec_len text.old + 7 }
    ensures capacity { vec_capacity text.old ≤ vec_capacity text.new }
{
    push_bytes(text, call_name(kind).as_bytes());
}

/// Appends what the line of each remark begins with: the line of its call, and the call's name.
fn push_head(text: &mut Vec<u8>, line: u32, call: CallKind)
    requires { vec_len text.old + longest_head ≤ vec_capacity text.old }
    ensures items { text.new.items ≡ text.old.items ++ head_text line call }
    ensures len { vec_len text.new ≤ vec_len text.old + longest_head }
    ensures capacity { vec_capacity text.old ≤ vec_capacity text.new }
{
    push_member(text, b"{\"line\":", line as usize);
    push_bytes(text, b",\"call\":\"");
    push_kind(text, call);
    push_bytes(text, b"\"");
}

/// Appends a refusal's name.
pub(crate) fn push_refusal(text: &mut Vec<u8>, refusal: Refusal)
    requires { vec_len text.old + 20 ≤ vec_capacity text.old }
    ensures items { text.new.items ≡ text.old.items ++ name_of refusal }
    ensures len { vec_len text.new ≤ vec_len text.old + 20 }
    ensures capacity { vec_capacity text.old ≤ vec_capacity text.new }
{
    push_bytes(text, refusal.name().as_bytes());
}

/// Appends why the call was denied.
fn push_reason(text: &mut Vec<u8>, reason: Denial)
    requires { vec_len text.old + longest_reason ≤ vec_capacity text.old }
    ensures items { text.new.items ≡ text.old.items ++ reason_text reason }
    ensures len { vec_len text.new ≤ vec_len text.old + longest_reason }
    ensures capacity { vec_capacity text.old ≤ vec_capacity text.new }
{
    match reason {
        Denial::Refused(refusal) => {
            push_bytes(text, b",\"refused\":\"");
            push_refusal(text, refusal);
            push_bytes(text, b"\"");
        },
        Denial::Rejected(image) => push_member(text, b",\"rejected\":", image as usize),
    }
}

/// Appends the slot that a call names, or `null`.
fn push_slot(text: &mut Vec<u8>, slot: Option<u32>)
    requires { vec_len text.old + longest_slot ≤ vec_capacity text.old }
    ensures items { text.new.items ≡ text.old.items ++ slot_text slot }
    ensures len { vec_len text.new ≤ vec_len text.old + longest_slot }
    ensures capacity { vec_capacity text.old ≤ vec_capacity text.new }
{
    push_bytes(text, b",\"slot\":");
    push_number(text, slot);
}

/// Appends a frame that a call names.
fn push_frame(text: &mut Vec<u8>, named: NamedFrame)
    requires { vec_len text.old + longest_named ≤ vec_capacity text.old }
    ensures items { text.new.items ≡ text.old.items ++ (member (codes ",\"frame\":") named.frame ++ (codes ",\"owner\":" ++ (owner_text named.owner ++ (codes ",\"gfn\":" ++ number_text named.gfn)))) }
    ensures len { vec_len text.new ≤ vec_len text.old + longest_named }
    ensures capacity { vec_capacity text.old ≤ vec_capacity text.new }
{
    push_member(text, b",\"frame\":", named.frame as usize);
    push_bytes(text, b",\"owner\":");
    push_owner(text, named.owner);
    push_bytes(text, b",\"gfn\":");
    push_gfn(text, named.gfn);
}

/// Appends the number of a frame that a call names and of which no more is said, or `null`.
fn push_foreign(text: &mut Vec<u8>, foreign: Option<u32>)
    requires { vec_len text.old + longest_named ≤ vec_capacity text.old }
    ensures items { text.new.items ≡ text.old.items ++ foreign_text foreign }
    ensures len { vec_len text.new ≤ vec_len text.old + longest_named }
    ensures capacity { vec_capacity text.old ≤ vec_capacity text.new }
{
    push_bytes(text, b",\"frame\":");
    push_number(text, foreign);
    push_bytes(text, b",\"owner\":null,\"gfn\":null");
}

/// Appends the frame that a call names, if there is one.
fn push_named(text: &mut Vec<u8>, foreign: Option<u32>, named: Option<NamedFrame>)
    requires { vec_len text.old + longest_named ≤ vec_capacity text.old }
    ensures items { text.new.items ≡ text.old.items ++ named_text foreign named }
    ensures len { vec_len text.new ≤ vec_len text.old + longest_named }
    ensures capacity { vec_capacity text.old ≤ vec_capacity text.new }
{
    match named {
        Some(named) => push_frame(text, named),
        None => push_foreign(text, foreign),
    }
}

/// Appends the line of a call that was refused or rejected and its newline, for which there is room: memory does not
/// grow.
pub fn push_denied(text: &mut Vec<u8>, denied: &Denied)
    requires { vec_len text.old + longest_change ≤ vec_capacity text.old }
    ensures line { text.new.items ≡ text.old.items ++ denied_line denied.now }
    ensures capacity { vec_capacity text.old ≤ vec_capacity text.new }
{
    push_head(text, denied.line, denied.call);
    push_reason(text, denied.reason);
    push_slot(text, denied.slot);
    push_named(text, denied.foreign, denied.named);
    push_bytes(text, b"}\n");
}

/// Appends the line of an access by the host and its newline, for which there is room: memory does not grow.
pub fn push_access(text: &mut Vec<u8>, access: &Access)
    requires { vec_len text.old + longest_change ≤ vec_capacity text.old }
    ensures line { text.new.items ≡ text.old.items ++ access_line access.now }
    ensures capacity { vec_capacity text.old ≤ vec_capacity text.new }
{
    push_head(text, access.line, access.call);
    push_member(text, b",\"frame\":", access.frame as usize);
    push_member(text, b",\"vm\":", access.vm as usize);
    push_bytes(text, b",\"gfn\":");
    push_gfn(text, access.gfn);
    push_member(text, b",\"off\":", access.offset as usize);
    push_member(text, b",\"len\":", access.len as usize);
    push_bytes(text, b"}\n");
}
