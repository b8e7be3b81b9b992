//! The whole text of a core's state, made by the calling thread, and its digest.
ghost use Rattle.std.specs.Prelude.{◌≡◌, ◌≤◌, ◌++◌, ℕ, List, vec_capacity, IfOk, OnOk};
ghost use Rattle.sha2.specs.Sha256.{sha256};
ghost use Rattle.sha2.specs.Hashers.{Holds256};
ghost use Rattle.kc_snapshot.specs.Form.{in_form};
ghost use Rattle.kc_state_text.specs.StateText.{placed_state_text};
ghost use Rattle.kc_state_text.specs.Pieces.{longest_page_line, to_come};

use crate::pieces::StatePieces;
use crate::writing::push_short;
use kc_core::KCore;
use kc_snapshot::StateForm;
use kc_trace::Position;
use kc_types::{Memory, SecretBytes};
use sha2::{Digest, Sha256};
use std::alloc::Global;

/// How much of a text is appended or hashed at once, in bytes.
const PIECE: usize = 65_536;

/// Appends all that is still to come.
fn push_pieces(
    text: &mut Vec<u8>,
    core: &KCore,
    pieces: StatePieces,
    piece: &mut Vec<u8>,
) -> Result<(), Memory>
    requires { longest_page_line ≤ vec_capacity piece.old }
    ensures { OnOk result (text.new.items ≡ text.old.items ++ to_come core.now.state pieces) }
{
    let mut pieces = pieces;
    'pieces: loop {
        pieces.fill(core, piece);
        if piece.is_empty() {
            return Ok(());
        }
        push_short(text, piece.as_slice())?;
    }
}

/// Makes the text of a core's state in a form, with this position or none; memory for it is taken once. `Memory` if
/// memory runs out. What held pieces of it is wiped, and so is the text when it is dropped.
pub fn whole_text(
    alloc: Global,
    core: &KCore,
    position: Option<Position>,
    form: StateForm,
) -> Result<SecretBytes, Memory>
    // No clause can rule out that memory runs out: tests ask for states.
    ensures { IfOk result (λ text. text ≡ placed_state_text position (in_form form core.now.state)) }
{
    let pieces = StatePieces::alone(alloc, core, position, form)?;
    let mut piece = Vec::with_capacity(alloc, PIECE)?;
    let mut text = Vec::with_capacity(alloc, pieces.most(core))?;
    let pushed = push_pieces(&mut text, core, pieces, &mut piece);
    let _zeroed = SecretBytes::new(piece);
    let text = SecretBytes::new(text);
    match pushed {
        Ok(()) => Ok(text),
        Err(_) => Err(Memory),
    }
}

/// Hashes all that is still to come.
fn hash_pieces(hasher: &mut Sha256, core: &KCore, pieces: StatePieces, piece: &mut Vec<u8>)
    requires { longest_page_line ≤ vec_capacity piece.old }
    ensures { (bytes : List ℕ) → Holds256 hasher.old bytes
        → Holds256 hasher.new (bytes ++ to_come core.now.state pieces) }
{
    let mut pieces = pieces;
    'pieces: loop {
        pieces.fill(core, piece);
        if piece.is_empty() {
            return;
        }
        hasher.update(piece.as_slice());
    }
}

/// Computes the SHA-256 digest of the text of a core's state in a form, with this position or none: what `sha256sum`
/// prints for it. The text is made a piece at a time, and never in memory as a whole. `Memory` if memory runs out. What
/// held pieces of it is wiped.
pub fn state_digest(
    alloc: Global,
    core: &KCore,
    position: Option<Position>,
    form: StateForm,
) -> Result<[u8; 32], Memory>
    // No clause can rule out that memory runs out: tests ask for digests.
    ensures { IfOk result (λ digest. digest ≡ sha256 (placed_state_text position (in_form form core.now.state))) }
{
    let pieces = StatePieces::alone(alloc, core, position, form)?;
    let mut piece = Vec::with_capacity(alloc, PIECE)?;
    let mut hasher = Sha256::new();
    hash_pieces(&mut hasher, core, pieces, &mut piece);
    let _zeroed = SecretBytes::new(piece);
    Ok(hasher.finalize())
}
