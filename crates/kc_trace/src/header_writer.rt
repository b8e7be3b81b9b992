//! Headers as text.
ghost use Rattle.std.specs.Prelude.{◌≡◌, ◌≤◌, ◌+◌, ◌*◌, ◌++◌, ◌∷◌, [], codes, length, vec_len, vec_capacity};
ghost use Rattle.std.specs.Fmt.{decimal};
ghost use Rattle.std.specs.List.{flat_map, join_with_byte};
ghost use Rattle.kc_trace.specs.Spelling.{longest_call};
ghost use Rattle.kc_trace.specs.Header.{version_number, machine_numbers, position_words, redaction_words, machine_line, approved_line, last_line, position_line, head_lines, ended_lines, trace_header};

use crate::header::{Head, Header, Position};
use kc_lines::{push_bytes, push_digits, push_number};
use kc_types::{Config, Version};

fn version_number(version: Version) -> u32
    ensures value { result ≡ version_number version }
{
    match version {
        Version::One => 1,
        Version::Two => 2,
        Version::Three => 3,
    }
}

/// The numbers in the line of a machine.
fn machine_numbers(config: &Config) -> [u32; 7]
    ensures { result ≡ machine_numbers config.now (length config.now.approved) }
{
    [
        version_number(config.version()),
        config.slots(),
        config.frames(),
        config.core(),
        config.host(),
        config.leaves(),
        config.approved().len() as u32,
    ]
}

/// Appends numbers, each with a space before it.
fn push_numbers(text: &mut Vec<u8>, numbers: &[u32])
    requires { vec_len text.old + 11 * length numbers.now ≤ vec_capacity text.old }
    ensures items { text.new.items ≡ text.old.items ++ flat_map (λ number. 32 ∷ decimal number) numbers.now }
    ensures len { vec_len text.new ≤ vec_len text.old + 11 * length numbers.now }
    ensures capacity { vec_capacity text.old ≤ vec_capacity text.new }
{
    for number in numbers {
        push_number(text, *number);
    }
}

/// Appends the line of a machine and its newline.
#[tactic(auto, using(crate::proofs::HeadWords::numbers_joined), unfolding(crate::specs::Header::machine_line))]
fn push_machine(text: &mut Vec<u8>, config: &Config)
    requires { vec_len text.old + 84 ≤ vec_capacity text.old }
    ensures items { text.new.items ≡ text.old.items ++ (machine_line config.now (length config.now.approved) ++ 10 ∷ []) }
    ensures len { vec_len text.new ≤ vec_len text.old + 84 }
    ensures capacity { vec_capacity text.old ≤ vec_capacity text.new }
{
    push_bytes(text, b"config");
    push_numbers(text, machine_numbers(config).as_slice());
    push_bytes(text, b"\n");
}

/// Appends the line of an approved digest and its newline.
#[tactic(auto, unfolding(crate::specs::Header::approved_line))]
fn push_approved(text: &mut Vec<u8>, digest: &[u8; 32])
    requires { vec_len text.old + 74 ≤ vec_capacity text.old }
    ensures items { text.new.items ≡ text.old.items ++ (approved_line digest.now ++ 10 ∷ []) }
    ensures len { vec_len text.new ≡ vec_len text.old + 74 }
    ensures capacity { vec_capacity text.old ≤ vec_capacity text.new }
{
    push_bytes(text, b"approved ");
    push_digits(text, digest.as_slice());
    push_bytes(text, b"\n");
}

/// Appends the lines of approved digests, each with its newline.
fn push_all_approved(text: &mut Vec<u8>, digests: &[[u8; 32]])
    requires { vec_len text.old + 74 * length digests.now ≤ vec_capacity text.old }
    ensures items { text.new.items ≡ text.old.items ++ flat_map (λ digest. approved_line digest ++ 10 ∷ []) digests.now }
    ensures len { vec_len text.new ≡ vec_len text.old + 74 * length digests.now }
    ensures capacity { vec_capacity text.old ≤ vec_capacity text.new }
{
    for digest in digests {
        push_approved(text, digest);
    }
}

/// Appends the name and the words of a position.
fn push_words(text: &mut Vec<u8>, position: Position)
    requires { vec_len text.old + 82 ≤ vec_capacity text.old }
    ensures items { text.new.items ≡ text.old.items ++ join_with_byte 32 (codes "volume" ∷ position_words position) }
    ensures len { vec_len text.new ≤ vec_len text.old + 82 }
    ensures capacity { vec_capacity text.old ≤ vec_capacity text.new }
{
    match position {
        Position::First => push_bytes(text, b"volume 1 -"),
        Position::Later { number, after } => {
            push_bytes(text, b"volume");
            push_number(text, number);
            push_bytes(text, b" ");
            push_digits(text, after.as_slice());
        },
    }
}

/// Appends the word that may come after them, if the bytes that the host wrote are redacted.
fn push_redaction(text: &mut Vec<u8>, is_host_redacted: bool)
    requires { vec_len text.old + 14 ≤ vec_capacity text.old }
    ensures items { text.new.items ≡ text.old.items ++ flat_map (λ word. 32 ∷ word) (redaction_words is_host_redacted) }
    ensures len { vec_len text.new ≤ vec_len text.old + 14 }
    ensures capacity { vec_capacity text.old ≤ vec_capacity text.new }
{
    if is_host_redacted {
        push_bytes(text, b" host-redacted");
    }
}

/// Appends the last line of a head and its newline.
fn push_last(text: &mut Vec<u8>, position: Position, is_host_redacted: bool)
    requires { vec_len text.old + 97 ≤ vec_capacity text.old }
    ensures items { text.new.items ≡ text.old.items ++ (last_line position is_host_redacted ++ 10 ∷ []) }
    ensures len { vec_len text.new ≤ vec_len text.old + 97 }
    ensures capacity { vec_capacity text.old ≤ vec_capacity text.new }
{
    push_words(text, position);
    push_redaction(text, is_host_redacted);
    push_bytes(text, b"\n");
}

/// Appends the line of a position and its newline, at most 83 bytes, for which there is room: memory does not grow.
pub fn push_position(text: &mut Vec<u8>, position: Position)
    requires { vec_len text.old + 83 ≤ vec_capacity text.old }
    ensures items { text.new.items ≡ text.old.items ++ (position_line position ++ 10 ∷ []) }
    ensures len { vec_len text.new ≤ vec_len text.old + 83 }
    ensures capacity { vec_capacity text.old ≤ vec_capacity text.new }
{
    push_words(text, position);
    push_bytes(text, b"\n");
}

/// Appends the lines of a head, each with its newline.
fn push_head(text: &mut Vec<u8>, head: &Head)
    requires { vec_len text.old + 4917 ≤ vec_capacity text.old }
    ensures items { text.new.items ≡ text.old.items ++ ended_lines (head_lines head.now) }
    ensures capacity { vec_capacity text.old ≤ vec_capacity text.new }
{
    let config = &head.config;
    push_machine(text, config);
    push_all_approved(text, config.approved());
    push_last(text, head.position, head.is_host_redacted);
}

/// Appends the lines of a header, each with its newline, for which there is room: memory does not grow. They are no
/// longer than the longest line of a call.
pub fn push_header(text: &mut Vec<u8>, header: &Header)
    requires { vec_len text.old + longest_call ≤ vec_capacity text.old }
    ensures line { text.new.items ≡ text.old.items ++ trace_header header.now }
    ensures capacity { vec_capacity text.old ≤ vec_capacity text.new }
{
    match header {
        Header::One => push_bytes(text, b"kcore-trace 1\n"),
        Header::Two => push_bytes(text, b"kcore-trace 2\n"),
        Header::Three(head) => {
            push_bytes(text, b"kcore-trace 3\n");
            push_head(text, head);
        },
    }
}
