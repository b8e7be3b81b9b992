//! The header of a state's text, and the position that may follow it.
ghost use Rattle.std.specs.Prelude.{ℕ, List, ◌≡◌, ◌++◌, MatchOption, MatchResult};
ghost use Rattle.kc_trace.specs.Header.{IsPosition};
ghost use Rattle.kc_state_text.specs.StateText.{volume_line};
ghost use Rattle.kc_state_text.specs.Refused.{HasNone, HasHeader, LacksHeader};
ghost use Rattle.kc_state_text.specs.Reading.{BeginsAs};

use crate::fault::StateFault;
use kc_lines::split_line;
use kc_trace::{Position, read_position};

/// What follows these bytes, if the text begins with them.
fn after<'a>(text: &'a [u8], bytes: &[u8]) -> Option<&'a [u8]>
    ensures { MatchOption result ((rest : List ℕ) → text.now ≡ bytes.now ++ rest → ⊥) (λ rest. text.now ≡ bytes.now ++ rest.now) }
{
    text.strip_prefix(bytes)
}

/// Reads a position, if the text begins with the line of one; also returns what follows it.
fn position_at(text: &[u8]) -> Option<(Position, &[u8])>
    ensures { MatchOption result (HasNone IsPosition volume_line text.now) (λ cut. BeginsAs IsPosition volume_line text.now cut.0 cut.1.now) }
{
    let (line, rest) = split_line(text)?;
    Some((read_position(line)?, rest))
}

/// Reads the header, with the position that the second one says; also returns what follows them. `NoHeader` if the text
/// begins with neither header, and `BadLine` if the second line of the second header is not that of a position.
pub fn read_header(text: &[u8]) -> Result<(Option<Position>, &[u8]), StateFault>
    ensures { MatchResult result (λ read. HasHeader text.now read.0 read.1.now) (LacksHeader text.now) }
{
    if let Some(rest) = after(text, b"kcore-state 1\n") {
        return Ok((None, rest));
    }
    let Some(rest) = after(text, b"kcore-state 2\n") else {
        return Err(StateFault::NoHeader);
    };
    let Some((position, rest)) = position_at(rest) else {
        return Err(StateFault::BadLine(2));
    };
    Ok((Some(position), rest))
}
