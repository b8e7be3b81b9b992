//! Calls with their replies, as JSON Lines (RFC 8259): one object on each line.
ghost use Rattle.std.specs.Prelude.{◌≡◌, ◌≤◌, ◌+◌, ◌++◌, vec_len, vec_capacity};
ghost use Rattle.kc_trace.specs.AnswerText.{answer_line, longest_answer};

use crate::custody_writer::push_member;
use crate::reply_writer::{LONGEST_REPLY, push_reply_words};
use crate::writer::{LONGEST_CALL, push_line};
use kc_lines::push_bytes;
use kc_types::{Call, Reply};

/// More bytes than the longest line of a call and its reply, with its newline.
pub const LONGEST_ANSWER: usize = LONGEST_CALL + LONGEST_REPLY + 64;

/// Appends the line of a call and its reply, with its newline, for which there is room: memory does not grow. The call
/// is on line `line` of its trace.
pub fn push_answer(text: &mut Vec<u8>, line: usize, call: &Call, reply: &Reply)
    requires { vec_len text.old + longest_answer ≤ vec_capacity text.old }
    ensures line { text.new.items ≡ text.old.items ++ answer_line line call.now reply.now }
    ensures capacity { vec_capacity text.old ≤ vec_capacity text.new }
{
    push_member(text, b"{\"line\":", line);
    push_bytes(text, b",\"call\":\"");
    push_line(text, call);
    push_bytes(text, b"\",\"reply\":\"");
    push_reply_words(text, reply);
    push_bytes(text, b"\"}\n");
}
