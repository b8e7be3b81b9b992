//! What is written on a line of its own.
ghost use Rattle.std.specs.Prelude.{◌≡◌, ◌≤◌, ◌+◌, ◌++◌, ◌∷◌, [], ℕ, List, vec_len, vec_capacity};
ghost use Rattle.kc_trace.specs.CustodyText.{event_line};
ghost use Rattle.kc_trace.specs.RemarkText.{note_line};
ghost use Rattle.kc_trace.specs.ReplyText.{reply_line_of};
ghost use Rattle.kc_trace.specs.Spelling.{line_of, longest_call};

use kc_remarks::Note;
use kc_trace::{push_access, push_call, push_change, push_denied, push_reply};
use kc_types::{Call, Event, Reply};

/// What is written on a line of its own.
pub trait Line {
    /// Its line, with the newline.
    ghost line: { Self → List ℕ };

    /// Appends its line, for which there is room: memory does not grow.
    fn push(&self, text: &mut Vec<u8>)
        requires { vec_len text.old + longest_call ≤ vec_capacity text.old }
        ensures line { text.new.items ≡ text.old.items ++ line self.now }
        ensures capacity { vec_capacity text.old ≤ vec_capacity text.new };
}

impl Line for Reply {
    ghost line = { λ reply. reply_line_of reply ++ 10 ∷ [] };

    fn push(&self, text: &mut Vec<u8>) {
        push_reply(text, self);
    }
}

impl Line for Call {
    ghost line = { λ call. line_of call ++ 10 ∷ [] };

    fn push(&self, text: &mut Vec<u8>) {
        push_call(text, self);
    }
}

/// A change of custody has a line; no other event has one.
impl Line for Event {
    ghost line = { λ event. event_line event };

    fn push(&self, text: &mut Vec<u8>) {
        match self {
            Event::Change(change) => push_change(text, change),
            Event::Read { .. } | Event::Write { .. } => (),
        }
    }
}

/// A denied call and an access have a line, and an event has its own, if it has one.
impl Line for Note {
    ghost line = { λ note. note_line note };

    fn push(&self, text: &mut Vec<u8>) {
        match self {
            Note::Denied(denied) => push_denied(text, denied),
            Note::Access(access) => push_access(text, access),
            Note::Event(event) => event.push(text),
        }
    }
}
