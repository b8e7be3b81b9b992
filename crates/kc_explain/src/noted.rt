//! A source that keeps what explains a fault of its text.
ghost use Rattle.std.specs.Prelude.{◌≡◌};

use crate::finder::{MOST_OF_LINE, keep};
use kc_texts::{Failed, Source};
use kc_trace::{TraceFault, TraceReader};
use kc_types::{Actor, Call, actor_of};
use std::alloc::Global;

/// How many actors are kept: more than a core has.
const MOST_ACTORS: usize = 514;

/// The line of a trace that is being read, or the bad one.
#[derive(Drop)]
struct Lines {
    reader: TraceReader,
    is_bad: bool,
    /// The number of lines that ended before it.
    ended: u64,
    line: Vec<u8>,
    /// The number of calls so far.
    calls: u64,
    /// The first actors, and the line of the first call of each.
    actors: Vec<(Actor, u64)>,
}

impl Lines {
    fn note(&mut self, alloc: Global, piece: &[u8]) {
        if self.is_bad {
            return;
        }
        match self.reader.feed(alloc, piece) {
            Ok(calls) => {
                self.note_actors(calls.as_slice());
                self.pass(piece);
            },
            Err(TraceFault::BadLine(number)) => {
                self.is_bad = true;
                self.find(piece, u64::from(number));
            },
            Err(_) => self.is_bad = true,
        }
    }

    /// Notes who makes these calls. Nothing is kept if memory runs out.
    fn note_actors(&mut self, calls: &[Call]) {
        for call in calls {
            self.calls = self.calls.saturating_add(1);
            let actor = actor_of(call);
            if self.actors.len() < MOST_ACTORS && !self.has(actor) {
                let _ = self.actors.push((actor, self.calls.saturating_add(1)));
            }
        }
    }

    fn has(&self, actor: Actor) -> bool {
        self.actors.iter().any(|(known, _)| *known == actor)
    }

    /// Notes a piece without a bad line.
    fn pass(&mut self, piece: &[u8]) {
        let mut is_first = true;
        for line in piece.split(|byte| *byte == b'\n') {
            if !is_first {
                self.ended = self.ended.saturating_add(1);
                self.line.clear();
            }
            is_first = false;
            keep(&mut self.line, line, MOST_OF_LINE);
        }
    }

    /// Keeps the line of this number, from 1, that ends in the piece or is begun in it.
    fn find(&mut self, piece: &[u8], number: u64) {
        let mut at = self.ended;
        for line in piece.split(|byte| *byte == b'\n') {
            if at > self.ended {
                self.line.clear();
            }
            at = at.saturating_add(1);
            if at == number {
                keep(&mut self.line, line, MOST_OF_LINE);
                return;
            }
        }
    }
}

/// A source, with the first bytes that it gave and, if it is a trace, the line begun or the bad one, and its actors.
/// Memory is bounded, and nothing is kept if nothing is to be explained.
#[derive(Drop)]
pub struct Noted<S: Source + Drop> {
    pub inner: S,
    alloc: Global,
    /// How many of the first bytes are kept.
    most: usize,
    head: Vec<u8>,
    lines: Option<Lines>,
    total: u64,
}

impl<S: Source + Drop> Noted<S> {
    /// Makes a source of which this many of the first bytes are kept.
    pub fn with_head(alloc: Global, inner: S, most: usize) -> Noted<S>
        ensures { result.inner ≡ inner }
    {
        Noted {
            inner,
            alloc,
            most,
            head: Vec::new(alloc),
            lines: None,
            total: 0,
        }
    }

    /// Makes a source of a trace, of which the line begun or the bad one is kept too.
    pub fn with_lines(alloc: Global, inner: S, most: usize) -> Noted<S>
        ensures { result.inner ≡ inner }
    {
        Noted {
            inner,
            alloc,
            most,
            head: Vec::new(alloc),
            lines: Some(Lines {
                reader: TraceReader::new(),
                is_bad: false,
                ended: 0,
                line: Vec::new(alloc),
                calls: 0,
                actors: Vec::new(alloc),
            }),
            total: 0,
        }
    }

    /// The first bytes.
    pub fn head(&self) -> &[u8] {
        self.head.as_slice()
    }

    /// The line begun, or the bad one.
    pub fn line(&self) -> &[u8] {
        match &self.lines {
            Some(lines) => lines.line.as_slice(),
            None => &[],
        }
    }

    /// The actor of this number, from 0 in the order in which they appear, and the line of its first call.
    pub fn actor(&self, number: usize) -> Option<(Actor, u64)> {
        let lines = self.lines.as_ref()?;
        let (actor, line) = lines.actors.get(number)?;
        Some((*actor, *line))
    }

    /// The number of bytes so far.
    pub fn total(&self) -> u64 {
        self.total
    }
}

impl<S: Source + Drop> Source for Noted<S> {
    ghost left = { λ s. S.left s.inner };

    ghost failed = { λ s. S.failed s.inner };

    fn read(&mut self, buffer: &mut [u8]) -> Result<usize, Failed> {
        let count = self.inner.read(buffer)?;
        self.total = self.total.saturating_add(count as u64);
        keep(&mut self.head, &buffer[..count], self.most);
        if let Some(lines) = &mut self.lines {
            lines.note(self.alloc, &buffer[..count]);
        }
        Ok(count)
    }

    fn size_hint(&self) -> usize {
        self.inner.size_hint()
    }
}
