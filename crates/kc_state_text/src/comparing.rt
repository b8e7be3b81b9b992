//! A text compared with that of a core's state, a piece at a time.
ghost use Rattle.std.specs.Prelude.{ℕ, List, MatchOption, MatchResult, ◌≡◌, ◌≢◌, ◌==◌, ◌<◌, ◌≤◌, ◌++◌, length, slice_index, take, vec_capacity, IfOk};
ghost use Rattle.std.specs.List.{count_by};
ghost use Rattle.kc_state_text.specs.StateText.{placed_state_text};
ghost use Rattle.kc_state_text.specs.Pieces.{longest_page_line, to_come};
ghost use Rattle.kc_state_text.specs.Differences.{PartAfter, IsDifference};

use crate::pieces::StatePieces;
use kc_core::KCore;
use kc_digests::Lanes;
use kc_trace::Position;
use kc_types::{Memory, SecretBytes};
use std::alloc::Global;
use std::thread::Threads;

/// How much of a text is compared at once, in bytes.
const PIECE: usize = 65_536;

/// How many bytes two texts have in common at their beginning.
fn common(text: &[u8], bytes: &[u8]) -> usize
    ensures text { result ≤ length text.now }
    ensures bytes { result ≤ length bytes.now }
    ensures same { take result text.now ≡ take result bytes.now }
    ensures apart { result < length text.now → result < length bytes.now → slice_index text.now result ≢ slice_index bytes.now result }
{
    let most = text.len().min(bytes.len());
    for i in 0..most {
        if text[i] != bytes[i] {
            return i;
        }
    }
    most
}

/// What follows some bytes, if the text begins with them; else how many bytes both have in common at their beginning.
fn after<'a>(text: &'a [u8], bytes: &[u8]) -> Result<&'a [u8], usize>
    ensures { MatchResult result (λ rest. text.now ≡ bytes.now ++ rest.now) (λ n. (more : List ℕ) → PartAfter n text.now (bytes.now ++ more)) }
{
    if bytes.len() <= text.len() {
        let (head, rest) = text.split_at(bytes.len());
        if head == bytes {
            return Ok(rest);
        }
    }
    Err(common(text, bytes))
}

/// How many bytes a text has in common with these pieces at its beginning; `None` if it is just these pieces.
fn difference(core: &KCore, pieces: StatePieces, piece: &mut Vec<u8>, text: &[u8]) -> Option<usize>
    requires { longest_page_line ≤ vec_capacity piece.old }
    ensures { MatchOption result (text.now ≡ to_come core.now.state pieces) (λ n. PartAfter n text.now (to_come core.now.state pieces)) }
{
    let mut pieces = pieces;
    let mut rest = text;
    'pieces: loop {
        pieces.fill(core, piece);
        let given = text.len() - rest.len();
        if piece.is_empty() {
            return if rest.is_empty() { None } else { Some(given) };
        }
        match after(rest, piece.as_slice()) {
            Ok(more) => rest = more,
            Err(count) => return Some(given + count),
        }
    }
}

/// The number of newlines among some bytes.
fn newlines(bytes: &[u8]) -> usize
    ensures number { result ≡ count_by (λ b. b == 10) bytes.now }
    ensures few { result ≤ length bytes.now }
{
    let mut count = 0;
    for byte in bytes {
        if *byte == b'\n' {
            count += 1;
        }
    }
    count
}

/// The number of the first line of a text, from 1, that differs from the text of a core's state with this position or
/// none; `None` if it is that text. The state's text is written piece by piece and compared, and the memory that held a
/// piece is wiped. `Memory` if memory runs out.
pub fn difference_from_state(
    rt: &(impl Threads + Sync),
    alloc: Global,
    core: &KCore,
    position: Option<Position>,
    text: &[u8],
    lanes: Lanes,
) -> Result<Option<usize>, Memory>
    // No clause can rule out that memory runs out: a test compares states.
    ensures { IfOk result (λ line. IsDifference line text.now (placed_state_text position core.now.state)) }
{
    let pieces = StatePieces::new(rt, alloc, core, position, lanes)?;
    let mut piece = Vec::with_capacity(alloc, PIECE)?;
    let difference = difference(core, pieces, &mut piece, text);
    let _zeroed = SecretBytes::new(piece);
    match difference {
        Some(count) => Ok(Some(1 + newlines(&text[..count]))),
        None => Ok(None),
    }
}
