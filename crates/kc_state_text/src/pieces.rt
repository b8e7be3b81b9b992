//! A state's text, a piece at a time, so that it is never in memory as a whole.
ghost use Rattle.std.specs.Prelude.{◌≡◌, ◌<◌, ◌≤◌, ◌+◌, ◌++◌, ◌↔◌, [], length, vec_len, vec_capacity, IsTrue, IfOk};
ghost use Rattle.kc_snapshot.specs.Dumping.{dump_of};
ghost use Rattle.kc_snapshot.specs.Form.{in_form};
ghost use Rattle.kc_state_text.specs.StateText.{placed_state_text};
ghost use Rattle.kc_state_text.specs.Pieces.{longest_page_line, to_come};

use crate::writing::{LONGEST_PAGE_LINE, push_page, write_front};
use kc_core::KCore;
use kc_digests::Lanes;
use kc_dump::Dump;
use kc_dump_text::write_dump;
use kc_lines::push_bytes;
use kc_page::PageBytes;
use kc_snapshot::{StateForm, bytes_in, dump, dump_alone};
use kc_trace::Position;
use kc_types::Memory;
use std::alloc::Global;
use std::marker::Model;
use std::thread::Threads;

/// Bytes of which the first were given; it is seen as the others.
#[derive(Drop)]
struct Left {
    bytes: Vec<u8>,
    given: usize,
}

impl Model for Left {
    ghost use Rattle.std.specs.Prelude.{ℕ, ◌≤◌, List, drop, length};

    ghost Value = { List ℕ };

    ghost view = { λ l. drop l.given l.bytes.items };

    ghost invariant = { λ l. l.given ≤ length l.bytes.items };
}

impl Left {
    /// Takes all these bytes, none of which were given.
    fn all(bytes: Vec<u8>) -> Left
        ensures { result ≡ bytes.items }
    {
        Left { bytes, given: 0 }
    }

    /// The others.
    fn rest(&self) -> &[u8]
        ensures { result.now ≡ self.now }
    {
        &self.bytes[self.given..]
    }

    fn is_empty(&self) -> bool
        ensures { IsTrue result ↔ (self.now ≡ []) }
    {
        self.rest().is_empty()
    }

    /// Gives as many as the piece has room for.
    fn give(&mut self, piece: &mut Vec<u8>)
        requires { vec_len piece.old < vec_capacity piece.old }
        ensures given { piece.new.items ++ self.new ≡ piece.old.items ++ self.old }
        ensures some { piece.new.items ≡ [] → self.old ≡ [] }
        ensures capacity { vec_capacity piece.old ≤ vec_capacity piece.new }
    {
        let room = piece.capacity() - piece.len();
        let left = self.bytes.len() - self.given;
        let count = left.min(room);
        push_bytes(piece, &self.bytes[self.given..self.given + count]);
        self.given += count;
    }
}

/// The text of a core's state in a form, with a position or none, some of which was given already.
#[derive(Drop)]
pub struct StatePieces {
    form: StateForm,
    /// A page of zero bytes.
    zero: PageBytes,
    front: Left,
    /// The next page.
    page: u32,
    dump: Left,
}

impl Model for StatePieces {
    ghost use Rattle.kc_state_text.specs.Pieces.{Pieces};

    ghost Value = { Pieces };

    ghost use Rattle.std.specs.Prelude.{◌≡◌};
    ghost use Rattle.kc_model.specs.State.{zero_page};

    ghost view = { λ p. record { form = p.form; front = p.front; page = p.page; dump = p.dump } };

    ghost invariant = { λ p. p.zero.bytes ≡ zero_page };
}

impl StatePieces {
    /// Makes the whole text of a core with this dump, nothing of which was given.
    fn begun(
        alloc: Global,
        core: &KCore,
        position: Option<Position>,
        form: StateForm,
        dump: &Dump,
    ) -> Result<StatePieces, Memory>
        requires { dump.now ≡ dump_of (in_form form core.now.state) }
        ensures { IfOk result (λ pieces. to_come core.now.state pieces ≡ placed_state_text position (in_form form core.now.state)) }
    {
        let front = write_front(alloc, core, position)?;
        let dump = write_dump(alloc, dump)?;
        Ok(StatePieces {
            form,
            zero: PageBytes::sparse(alloc),
            front: Left::all(front),
            page: 0,
            dump: Left::all(dump),
        })
    }

    /// Makes the whole text, with this position or none, nothing of which was given. All memory that it needs is taken
    /// here: `Memory` if memory runs out. The pages are hashed by several threads, this many side by side.
    pub fn new(
        rt: &(impl Threads + Sync),
        alloc: Global,
        core: &KCore,
        position: Option<Position>,
        lanes: Lanes,
    ) -> Result<StatePieces, Memory>
        ensures { IfOk result (λ pieces. to_come core.now.state pieces ≡ placed_state_text position core.now.state) }
    {
        let dumped = dump(rt, alloc, core, lanes)?;
        StatePieces::begun(alloc, core, position, StateForm::Whole, &dumped)
    }

    /// Makes the whole text in a form, as `new` does, on this thread alone.
    pub fn alone(
        alloc: Global,
        core: &KCore,
        position: Option<Position>,
        form: StateForm,
    ) -> Result<StatePieces, Memory>
        ensures { IfOk result (λ pieces. to_come core.now.state pieces ≡ placed_state_text position (in_form form core.now.state)) }
    {
        let dumped = dump_alone(alloc, core, form)?;
        StatePieces::begun(alloc, core, position, form, &dumped)
    }

    /// An upper bound for the number of bytes that are still to come.
    pub(crate) fn most(&self, core: &KCore) -> usize {
        let pages = LONGEST_PAGE_LINE.saturating_mul(core.config().frames() as usize);
        let ends = self
            .front
            .rest()
            .len()
            .saturating_add(self.dump.rest().len());
        pages.saturating_add(ends)
    }

    /// Appends the lines of the next pages, at least one, as many as there is room for.
    fn give_pages(&mut self, core: &KCore, piece: &mut Vec<u8>)
        requires room { vec_len piece.old + longest_page_line ≤ vec_capacity piece.old }
        requires front { self.old.front ≡ [] }
        requires page { self.old.page < core.now.state.config.frames }
        ensures given { piece.new.items ++ to_come core.now.state self.new ≡ piece.old.items ++ to_come core.now.state self.old }
        ensures some { 0 < length piece.new.items }
        ensures capacity { vec_capacity piece.old ≤ vec_capacity piece.new }
    {
        let count = core.config().frames();
        'pages: loop {
            push_page(piece, bytes_in(core, self.form, self.page, &self.zero));
            self.page += 1;
            if self.page == count || piece.capacity() - piece.len() < LONGEST_PAGE_LINE {
                return;
            }
        }
    }

    /// Replaces the piece by the next piece of the text: as much as it has room for, at least 8,198 bytes. It is empty
    /// only if nothing is left.
    pub fn fill(&mut self, core: &KCore, piece: &mut Vec<u8>)
        requires { longest_page_line ≤ vec_capacity piece.old }
        ensures given { piece.new.items ++ to_come core.now.state self.new ≡ to_come core.now.state self.old }
        ensures some { piece.new.items ≡ [] → to_come core.now.state self.old ≡ [] }
        ensures capacity { longest_page_line ≤ vec_capacity piece.new }
    {
        piece.clear();
        if !self.front.is_empty() {
            self.front.give(piece);
        } else if self.page < core.config().frames() {
            self.give_pages(core, piece);
        } else {
            self.dump.give(piece);
        }
    }
}
