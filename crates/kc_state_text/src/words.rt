//! Words of a line before the dump.
ghost use Rattle.std.specs.Prelude.{◌≡◌, ◌∷◌, List, ℕ, MatchOption};
ghost use Rattle.std.specs.Fmt.{decimal};
ghost use Rattle.kc_state_text.specs.Reading.{IsNumber, IsAtMost, number_words, LacksFirst, BeginsAs};

use kc_lines::{LineWords, read_number};

/// Takes the next word, if it is this one.
pub fn take_name(words: &mut LineWords, name: &[u8]) -> Option<()>
    ensures { MatchOption result ((more : List (List ℕ)) → words.old ≡ name.now ∷ more → ⊥) (λ done. words.old ≡ name.now ∷ words.new) }
{
    if words.next()? == name {
        Some(())
    } else {
        None
    }
}

/// Takes the next word as a number.
pub fn take_number(words: &mut LineWords) -> Option<u32>
    ensures { MatchOption result (LacksFirst IsNumber number_words words.old) (λ n. words.old ≡ decimal n ∷ words.new) }
{
    read_number(words.next()?)
}

/// Takes the next word as a number that is at most this.
pub fn take_number_to(words: &mut LineWords, most: u32) -> Option<u32>
    ensures { MatchOption result (LacksFirst (IsAtMost most) number_words words.old) (λ n. BeginsAs (IsAtMost most) number_words words.old n words.new) }
{
    let number = take_number(words)?;
    if number <= most { Some(number) } else { None }
}
