//! Appending the lines of a dump to a text that has room for them.
ghost use Rattle.std.specs.Prelude.{◌≡◌, ◌≤◌, ◌+◌, ◌++◌, ◌∷◌, [], length, vec_len, vec_capacity};
ghost use Rattle.std.specs.Fmt.{decimal};
ghost use Rattle.kc_dump_text.specs.DumpText.{spaced, or_dash, bit, phase_word, owner_word, ends_words, line, frame_rest, spell};
ghost use Rattle.kc_dump_text.specs.declared.dump_line.DumpLine.TheVariants.{FreeOf, VmOf, FrameOf};

use kc_dump::{FrameLine, SlotDump};
use kc_lines::{push_bytes, push_digits, push_number};
use kc_types::{Ends, FrameNo, Gfn, Owner, Phase};

/// The bytes of the longest line, which is a frame's, with its newline.
pub const LONGEST_LINE: usize = 160;

/// Appends a space and a word.
fn push_word(text: &mut Vec<u8>, word: &[u8])
    requires { vec_len text.old + (length word.now + 1) ≤ vec_capacity text.old }
    ensures items { text.new.items ≡ text.old.items ++ (32 ∷ word.now) }
    ensures len { vec_len text.new ≡ vec_len text.old + (length word.now + 1) }
    ensures capacity { vec_capacity text.old ≤ vec_capacity text.new }
{
    push_bytes(text, b" ");
    push_bytes(text, word);
}

/// Appends a space and a frame, or a dash.
fn push_frame(text: &mut Vec<u8>, frame: Option<FrameNo>)
    requires { vec_len text.old + 11 ≤ vec_capacity text.old }
    ensures items { text.new.items ≡ text.old.items ++ (32 ∷ or_dash frame) }
    ensures len { vec_len text.new ≤ vec_len text.old + 11 }
    ensures capacity { vec_capacity text.old ≤ vec_capacity text.new }
{
    match frame {
        Some(frame) => push_number(text, frame.number()),
        None => push_word(text, b"-"),
    }
}

/// Appends a space and a guest frame, or a dash.
fn push_gfn(text: &mut Vec<u8>, gfn: Option<Gfn>)
    requires { vec_len text.old + 11 ≤ vec_capacity text.old }
    ensures items { text.new.items ≡ text.old.items ++ (32 ∷ or_dash gfn) }
    ensures len { vec_len text.new ≤ vec_len text.old + 11 }
    ensures capacity { vec_capacity text.old ≤ vec_capacity text.new }
{
    match gfn {
        Some(gfn) => push_number(text, gfn.number()),
        None => push_word(text, b"-"),
    }
}

/// Appends the ends of a list.
fn push_ends(text: &mut Vec<u8>, ends: &Ends)
    requires { vec_len text.old + 33 ≤ vec_capacity text.old }
    ensures items { text.new.items ≡ text.old.items ++ spaced (ends_words ends.now) }
    ensures len { vec_len text.new ≤ vec_len text.old + 33 }
    ensures capacity { vec_capacity text.old ≤ vec_capacity text.new }
{
    push_frame(text, ends.head);
    push_frame(text, ends.tail);
    push_number(text, ends.count);
}

fn push_phase(text: &mut Vec<u8>, phase: &Phase)
    requires { vec_len text.old + 8 ≤ vec_capacity text.old }
    ensures items { text.new.items ≡ text.old.items ++ (32 ∷ phase_word phase.now) }
    ensures len { vec_len text.new ≤ vec_len text.old + 8 }
    ensures capacity { vec_capacity text.old ≤ vec_capacity text.new }
{
    match phase {
        Phase::Empty => push_word(text, b"empty"),
        Phase::Booting => push_word(text, b"booting"),
        Phase::Active => push_word(text, b"active"),
        Phase::Dead => push_word(text, b"dead"),
    }
}

fn push_owner(text: &mut Vec<u8>, owner: &Owner)
    requires { vec_len text.old + 11 ≤ vec_capacity text.old }
    ensures items { text.new.items ≡ text.old.items ++ (32 ∷ owner_word owner.now) }
    ensures len { vec_len text.new ≤ vec_len text.old + 11 }
    ensures capacity { vec_capacity text.old ≤ vec_capacity text.new }
{
    match owner {
        Owner::Core => push_word(text, b"core"),
        Owner::Host => push_word(text, b"host"),
        Owner::Free => push_word(text, b"free"),
        Owner::Vm(vm) => push_number(text, vm.index() as u32),
    }
}

fn push_bit(text: &mut Vec<u8>, set: bool)
    requires { vec_len text.old + 2 ≤ vec_capacity text.old }
    ensures items { text.new.items ≡ text.old.items ++ (32 ∷ bit set) }
    ensures len { vec_len text.new ≡ vec_len text.old + 2 }
    ensures capacity { vec_capacity text.old ≤ vec_capacity text.new }
{
    if set {
        push_word(text, b"1")
    } else {
        push_word(text, b"0")
    }
}

/// Appends the line of the free list.
pub fn push_free_line(text: &mut Vec<u8>, ends: &Ends)
    requires { vec_len text.old + 160 ≤ vec_capacity text.old }
    ensures { text.new.items ≡ text.old.items ++ spell (FreeOf ends.now) }
{
    push_bytes(text, b"free");
    push_ends(text, ends);
    push_bytes(text, b"\n");
}

/// Appends a line of a name and three numbers.
pub fn push_three(text: &mut Vec<u8>, name: &[u8], first: u32, second: u32, third: u32)
    requires room { vec_len text.old + 160 ≤ vec_capacity text.old }
    requires short { length name.now ≤ 8 }
    ensures { text.new.items ≡ text.old.items ++ line name.now (decimal first ∷ decimal second ∷ decimal third ∷ []) }
{
    push_bytes(text, name);
    push_number(text, first);
    push_number(text, second);
    push_number(text, third);
    push_bytes(text, b"\n");
}

/// Appends the line of a slot.
pub fn push_vm_line(text: &mut Vec<u8>, vm: u32, slot: &SlotDump)
    requires { vec_len text.old + 160 ≤ vec_capacity text.old }
    ensures { text.new.items ≡ text.old.items ++ spell (VmOf vm slot.now.phase slot.now.list) }
{
    push_bytes(text, b"vm");
    push_number(text, vm);
    push_phase(text, &slot.phase());
    push_ends(text, slot.list());
    push_bytes(text, b"\n");
}

/// Appends what a frame's line has after its share.
fn push_frame_rest(text: &mut Vec<u8>, frame: &FrameLine)
    requires { vec_len text.old + 110 ≤ vec_capacity text.old }
    ensures { text.new.items ≡ text.old.items ++ (spaced (frame_rest frame.now) ++ 10 ∷ []) }
{
    push_gfn(text, frame.gfn);
    push_bit(text, frame.present);
    push_frame(text, frame.prev);
    push_frame(text, frame.next);
    push_bytes(text, b" ");
    push_digits(text, &frame.digest);
    push_bytes(text, b"\n");
}

/// Appends the line of a frame.
pub fn push_frame_line(text: &mut Vec<u8>, number: u32, frame: &FrameLine)
    requires { vec_len text.old + 160 ≤ vec_capacity text.old }
    ensures { text.new.items ≡ text.old.items ++ spell (FrameOf number frame.now) }
{
    push_bytes(text, b"frame");
    push_number(text, number);
    push_owner(text, &frame.owner);
    push_number(text, frame.share);
    push_frame_rest(text, frame);
}
