//! The words of a line, taken one after another.
ghost use Rattle.std.specs.Prelude.{◌≡◌, ◌==◌, ◌∷◌, [], false, IsTrue, MatchOption};
ghost use Rattle.std.specs.List.{slice_split};
ghost use Rattle.kc_lines.specs.Words.{at_end};

use crate::reading::split_word;
use std::marker::Model;

/// The words of a line that are still to be read, seen as a list.
#[derive(Drop)]
pub struct LineWords<'a> {
    rest: Option<&'a [u8]>,
}

impl<'a> Model for LineWords<'a> {
    ghost use Rattle.std.specs.Prelude.{ℕ, List, option_map};
    ghost use Rattle.kc_lines.specs.Words.{words_left};

    ghost Value = { List (List ℕ) };

    ghost view = { λ w. words_left (option_map (λ text. text.now) w.rest) };
}

impl<'a> LineWords<'a> {
    /// Takes all words of a line.
    pub fn new(line: &'a [u8]) -> LineWords<'a>
        ensures { result ≡ slice_split (λ b. b == 32) line.now }
    {
        LineWords { rest: Some(line) }
    }

    /// Takes the next word; `None` if there is none.
    pub fn next(&mut self) -> Option<&'a [u8]>
        ensures { MatchOption result ((self.old ≡ []) × (self.new ≡ [])) (λ word. self.old ≡ word.now ∷ self.new) }
    {
        let text = self.rest?;
        match split_word(text) {
            Some((word, rest)) => {
                self.rest = Some(rest);
                Some(word)
            }
            None => {
                self.rest = None;
                Some(text)
            }
        }
    }

    /// Whether there is no word left.
    pub fn is_end(&self) -> bool
        ensures ended { IsTrue result → self.now ≡ [] }
        ensures more { result ≡ false → self.now ≡ [] → ⊥ }
    {
        match self.rest {
            Some(_line) => false,
            None => true,
        }
    }

    /// Returns `Some(())` if there is no word left, and `None` otherwise.
    pub fn end(mut self) -> Option<()>
        ensures value { result ≡ at_end self.entry }
        ensures ended { MatchOption result (self.entry ≡ [] → ⊥) (λ done. self.entry ≡ []) }
    {
        match self.next() {
            None => Some(()),
            Some(_) => None,
        }
    }
}
