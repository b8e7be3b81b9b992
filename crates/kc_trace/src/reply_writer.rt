//! Replies as text.
ghost use Rattle.std.specs.Prelude.{◌≡◌, ◌<◌, ◌≤◌, ◌+◌, ◌++◌, ◌∷◌, [], codes, length, vec_len, vec_capacity, IfOk};
ghost use Rattle.std.specs.List.{join_with_byte};
ghost use Rattle.std.specs.Fmt.{decimal};
ghost use Rattle.hex.specs.Hex.{encode_lower};
ghost use Rattle.kc_trace.specs.ReplyText.{longest_reply, reply_line_of, reply_text_of};

use itoa::Buffer;
use kc_lines::{push_bytes, push_digits};
use kc_types::{Data, Memory, Reply};
use std::alloc::Global;

/// The bytes of the longest line of a reply, with its newline: `data`, and 4,096 bytes.
pub const LONGEST_REPLY: usize = 8_198;

/// Appends a name and a word.
fn push_word(text: &mut Vec<u8>, name: &str, word: &str)
    requires { vec_len text.old + (length name.now + (length word.now + 1)) ≤ vec_capacity text.old }
    ensures words { text.new.items ≡ text.old.items ++ join_with_byte 32 (name.now ∷ word.now ∷ []) }
    ensures len { vec_len text.new ≤ vec_len text.old + (length name.now + (length word.now + 1)) }
    ensures capacity { vec_capacity text.old ≤ vec_capacity text.new }
{
    push_bytes(text, name.as_bytes());
    push_bytes(text, b" ");
    push_bytes(text, word.as_bytes());
}

/// Appends a name and a number.
fn push_number(text: &mut Vec<u8>, name: &str, number: u32)
    requires { vec_len text.old + (length name.now + 11) ≤ vec_capacity text.old }
    ensures words { text.new.items ≡ text.old.items ++ join_with_byte 32 (name.now ∷ decimal number ∷ []) }
    ensures len { vec_len text.new ≤ vec_len text.old + (length name.now + 11) }
    ensures capacity { vec_capacity text.old ≤ vec_capacity text.new }
{
    push_word(text, name, Buffer::new().format(number));
}

/// Appends `data` and the digits of some bytes.
fn push_data(text: &mut Vec<u8>, bytes: &Data)
    requires { vec_len text.old + longest_reply ≤ vec_capacity text.old }
    ensures words { text.new.items ≡ text.old.items ++ join_with_byte 32 (codes "data" ∷ encode_lower bytes.now ∷ []) }
    ensures len { vec_len text.new < vec_len text.old + longest_reply }
    ensures capacity { vec_capacity text.old ≤ vec_capacity text.new }
{
    push_bytes(text, b"data ");
    push_digits(text, bytes.as_slice());
}

/// Appends the line of a reply, without its newline, for which there is room too: memory does not grow.
#[inline(always)]
pub(crate) fn push_reply_words(text: &mut Vec<u8>, reply: &Reply)
    requires { vec_len text.old + longest_reply ≤ vec_capacity text.old }
    ensures words { text.new.items ≡ text.old.items ++ reply_line_of reply.now }
    ensures len { vec_len text.new < vec_len text.old + longest_reply }
    ensures capacity { vec_capacity text.old ≤ vec_capacity text.new }
{
    match reply {
        Reply::Done => push_bytes(text, b"done"),
        Reply::Frame(frame) => push_number(text, "frame", *frame),
        Reply::Image(image) => push_number(text, "image", *image),
        Reply::Data(bytes) => push_data(text, bytes),
        Reply::Fault(gfn) => push_number(text, "fault", *gfn),
        Reply::Rejected(image) => push_number(text, "rejected", *image),
        Reply::Refused(refusal) => push_word(text, "refused", refusal.name()),
    }
}

/// Appends the line of a reply and its newline, for which there is room: memory does not grow.
pub fn push_reply(text: &mut Vec<u8>, reply: &Reply)
    requires { vec_len text.old + longest_reply ≤ vec_capacity text.old }
    ensures line { text.new.items ≡ text.old.items ++ (reply_line_of reply.now ++ 10 ∷ []) }
    ensures len { vec_len text.new ≤ vec_len text.old + longest_reply }
    ensures capacity { vec_capacity text.old ≤ vec_capacity text.new }
{
    push_reply_words(text, reply);
    push_bytes(text, b"\n");
}

/// Makes the text of some replies: a line for each, in order, each ended by a newline, with no header.
pub fn write_replies(alloc: Global, replies: &[Reply]) -> Result<Vec<u8>, Memory>
    // No clause can rule out that memory runs out: tests write replies.
    ensures { IfOk result (λ text. text.items ≡ reply_text_of replies.now) }
{
    let mut text = Vec::new(alloc);
    for reply in replies {
        text.reserve(LONGEST_REPLY)?;
        push_reply(&mut text, reply);
    }
    Ok(text)
}
