//! One line of a dump's text.
ghost use Rattle.std.specs.Prelude.{◌≡◌};
ghost use Rattle.kc_dump_text.specs.Lines.{size_line, ends_of, free_line, vm_line, leaf_line, entry_line, record_of, frame_line, line_of_words, line_read};

use crate::dump_line::DumpLine;
use crate::words::{
    read_bit, read_frame, read_frame_or_dash, read_gfn, read_gfn_or_dash, read_owner, read_phase,
};
use kc_dump::FrameLine;
use kc_lines::{LineWords, read_digest, read_number};
use kc_types::Ends;

fn read_size_line(mut words: LineWords) -> Option<DumpLine>
    ensures { result ≡ size_line words.entry }
{
    let frames = read_number(words.next()?)?;
    let core = read_number(words.next()?)?;
    let leaves = read_number(words.next()?)?;
    words.end()?;
    Some(DumpLine::SizeOf(frames, core, leaves))
}

/// The ends of a list, with nothing after them.
fn read_ends(mut words: LineWords) -> Option<Ends>
    ensures { result ≡ ends_of words.entry }
{
    let head = read_frame_or_dash(words.next()?)?;
    let tail = read_frame_or_dash(words.next()?)?;
    let count = read_number(words.next()?)?;
    words.end()?;
    Some(Ends { head, tail, count })
}

fn read_free_line(words: LineWords) -> Option<DumpLine>
    ensures { result ≡ free_line words.entry }
{
    Some(DumpLine::FreeOf(read_ends(words)?))
}

fn read_vm_line(mut words: LineWords) -> Option<DumpLine>
    ensures { result ≡ vm_line words.entry }
{
    let vm = read_number(words.next()?)?;
    let phase = read_phase(words.next()?)?;
    Some(DumpLine::VmOf(vm, phase, read_ends(words)?))
}

fn read_leaf_line(mut words: LineWords) -> Option<DumpLine>
    ensures { result ≡ leaf_line words.entry }
{
    let vm = read_number(words.next()?)?;
    let place = read_number(words.next()?)?;
    let root = read_number(words.next()?)?;
    words.end()?;
    Some(DumpLine::LeafOf(vm, place, root))
}

fn read_entry_line(mut words: LineWords) -> Option<DumpLine>
    ensures { result ≡ entry_line words.entry }
{
    let vm = read_number(words.next()?)?;
    let gfn = read_gfn(words.next()?)?;
    let frame = read_frame(words.next()?)?;
    words.end()?;
    Some(DumpLine::EntryOf(vm, (gfn, frame)))
}

/// The record of a frame, with nothing after it.
fn read_record(mut words: LineWords) -> Option<FrameLine>
    ensures { result ≡ record_of words.entry }
{
    let owner = read_owner(words.next()?)?;
    let share = read_number(words.next()?)?;
    let gfn = read_gfn_or_dash(words.next()?)?;
    let present = read_bit(words.next()?)?;
    let prev = read_frame_or_dash(words.next()?)?;
    let next = read_frame_or_dash(words.next()?)?;
    let digest = read_digest(words.next()?)?;
    words.end()?;
    Some(FrameLine {
        owner,
        share,
        gfn,
        present,
        prev,
        next,
        digest,
    })
}

fn read_frame_line(mut words: LineWords) -> Option<DumpLine>
    ensures { result ≡ frame_line words.entry }
{
    let number = read_number(words.next()?)?;
    Some(DumpLine::FrameOf(number, read_record(words)?))
}

/// The line that these bytes spell, without its newline.
#[tactic(auto, unfolding(crate::specs::Lines::line_of_words))]
pub fn read_line(line: &[u8]) -> Option<DumpLine>
    ensures { result ≡ line_read line.now }
{
    let mut words = LineWords::new(line);
    let name = words.next()?;
    if name == b"frame".as_slice() {
        read_frame_line(words)
    } else if name == b"entry".as_slice() {
        read_entry_line(words)
    } else if name == b"leaf".as_slice() {
        read_leaf_line(words)
    } else if name == b"vm".as_slice() {
        read_vm_line(words)
    } else if name == b"free".as_slice() {
        read_free_line(words)
    } else if name == b"size".as_slice() {
        read_size_line(words)
    } else {
        None
    }
}
