//! Where the sharing of frames ends.
ghost use Rattle.std.specs.Prelude.{◌≡◌, ◌<◌, length, OnOk, IfOk, slice_get, slice_index_or};
ghost use Rattle.kc_custody.specs.Endings.{no_endings, AreNone, HasEnding, NotesChange, NumbersStretch, NotesChanges, NumbersStretches, line_of_ending};

use kc_types::{FrameChange, Memory};
use std::alloc::Global;
use std::marker::Model;

/// The lines at which the sharing of one frame ended, in order.
#[derive(Drop)]
pub(crate) struct FrameEndings {
    lines: Vec<u32>,
    /// Whether a stretch of sharing has begun since.
    pending: bool,
}

impl Model for FrameEndings {
    ghost use Rattle.kc_custody.specs.Endings.{FrameEndings as EndingsOfFrame};

    ghost Value = { EndingsOfFrame };

    ghost view = { λ e. record { lines = e.lines.items; pending = e.pending } };
}

impl FrameEndings {
    /// Starts with none.
    fn none(alloc: Global) -> FrameEndings
        ensures { result ≡ no_endings }
    {
        FrameEndings {
            lines: Vec::new(alloc),
            pending: false,
        }
    }

    /// Takes in a change of the frame; returns the number of the ending of a stretch that begins with it. After `Memory`,
    /// if memory runs out, it is as it was.
    fn note(&mut self, told: &FrameChange) -> Result<usize, Memory>
        ensures noted { OnOk result (NotesChange told.now self.old self.new) }
        ensures number { IfOk result (λ number. NumbersStretch told.now self.new number) }
    {
        if told.after.share == 0 {
            if self.pending {
                self.lines.push(told.line)?;
                self.pending = false;
            }
        } else if told.before.share == 0 {
            self.pending = true;
        }
        Ok(self.lines.len())
    }

    /// The line of an ending; none if it is still to come.
    fn line(&self, number: usize) -> Option<u32>
        ensures { result ≡ slice_get self.now.lines number }
    {
        self.lines.get(number).copied()
    }
}

/// The endings of each frame.
#[derive(Drop)]
pub(crate) struct Endings {
    frames: Vec<FrameEndings>,
}

impl Model for Endings {
    ghost use Rattle.std.specs.Prelude.{List};
    ghost use Rattle.kc_custody.specs.Endings.{FrameEndings as EndingsOfFrame};

    ghost Value = { List EndingsOfFrame };

    ghost view = { λ e. e.frames.items };
}

impl Endings {
    /// Starts with none of this many frames; `Memory` if memory runs out.
    pub(crate) fn none(alloc: Global, frames: u32) -> Result<Endings, Memory>
        ensures { IfOk result (λ endings. AreNone frames endings) }
    {
        let mut all = Vec::with_capacity(alloc, frames as usize)?;
        for _ in 0..frames {
            all.push(FrameEndings::none(alloc))?;
        }
        Ok(Endings { frames: all })
    }

    /// Takes in a change of a frame; returns the number of the ending of a stretch that begins with it. After `Memory`, if
    /// memory runs out, all is as it was.
    pub(crate) fn note(&mut self, told: &FrameChange) -> Result<usize, Memory>
        ensures noted { OnOk result (NotesChanges told.now self.old self.new) }
        ensures number { IfOk result (λ number. told.now.frame < length self.old → NumbersStretches told.now self.new number) }
    {
        let Some(frame) = self.frames.get_mut(told.frame as usize) else {
            return Ok(0);
        };
        frame.note(told)
    }

    /// The line of an ending of a frame; none if it is still to come.
    pub(crate) fn line(&self, frame: u32, number: usize) -> Option<u32>
        ensures { result ≡ line_of_ending self.now frame number }
    {
        match self.frames.get(frame as usize) {
            Some(frame) => frame.line(number),
            None => None,
        }
    }
}
