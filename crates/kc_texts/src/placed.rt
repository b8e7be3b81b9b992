//! Lines of several volumes: each begins with the number of its volume.
ghost use Rattle.std.specs.Prelude.{◌≡◌, ◌≤◌, ◌+◌, ◌++◌, ℕ, vec_len, vec_capacity};
ghost use Rattle.kc_trace.specs.CustodyText.{AreInLine, line_of_change, line_of_event, placed_text};
ghost use Rattle.kc_trace.specs.RemarkText.{line_of_note};
ghost use Rattle.kc_texts.specs.Written.{longest_placed};

use crate::line::Line;
use kc_remarks::Note;
use kc_trace::{LONGEST_CALL, LONGEST_PLACE, VolumeEntry, push_place, volume_of};
use kc_types::{Change, Event};

/// The most bytes that a line has with the number of its volume.
pub(crate) const LONGEST_PLACED: usize = LONGEST_CALL + LONGEST_PLACE;

/// What is written on a line of its own, and is of a call of a trace.
pub trait Placed: Line {
    /// The line of its call in the trace, whose header is line 1; 0 if it has no line of its own.
    ghost place: { Self → ℕ };

    /// The line of its call in the trace, whose header is line 1; 0 if it has no line of its own.
    fn place(&self) -> u32
        ensures { result ≡ place self.now };
}

fn line_of_change(change: &Change) -> u32
    ensures { result ≡ line_of_change change.now }
{
    match change {
        Change::Frame(change) => change.line,
        Change::Phase(change) => change.line,
    }
}

impl Placed for Event {
    ghost place = { λ event. line_of_event event };

    fn place(&self) -> u32 {
        match self {
            Event::Change(change) => line_of_change(change),
            Event::Read { .. } | Event::Write { .. } => 0,
        }
    }
}

impl Placed for Note {
    ghost place = { λ note. line_of_note note };

    fn place(&self) -> u32 {
        match self {
            Note::Denied(denied) => denied.line,
            Note::Access(access) => access.line,
            Note::Event(event) => event.place(),
        }
    }
}

/// Appends a line of one of several volumes, with the number of its volume first, for which there is room: memory does
/// not grow. If there are no volumes, it is the line alone.
pub(crate) fn push_placed<L: Placed>(text: &mut Vec<u8>, line: &L, volumes: &[VolumeEntry])
    requires room { vec_len text.old + longest_placed ≤ vec_capacity text.old }
    requires order { AreInLine volumes.now }
    ensures line { text.new.items ≡ text.old.items ++ placed_text volumes.now (L.place line.now) (L.line line.now) }
    ensures capacity { vec_capacity text.old ≤ vec_capacity text.new }
{
    if volumes.is_empty() {
        line.push(text);
        return;
    }
    let before = text.len();
    push_place(text, volume_of(volumes, line.place()));
    let start = text.len();
    line.push(text);
    if text.len() > start {
        // The line is an object: the comma takes the place of its opening brace.
        text[start] = b',';
    } else {
        text.truncate(before);
    }
}
