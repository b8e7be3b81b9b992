//! The words and numbers of a picture's texts.
ghost use Rattle.std.specs.Prelude.{◌≡◌, ◌++◌, [], true, false, string_bytes, IfOk};
ghost use Rattle.std.specs.Fmt.{decimal};
ghost use Rattle.kc_picture.specs.Words.{Puts, length_words};

use crate::coordinate::{Coordinate, Points};
use kc_types::Memory;
use std::alloc::Global;
use std::fmt;

/// A text so far. Once a growth of memory was refused nothing more is put, and at its end there is `Memory` in its place.
#[derive(Drop)]
pub struct Text {
    pub text: String,
    pub refused: bool,
}

/// Puts formatted words into a `Text`.
#[macro_export]
macro_rules! put {
    ($text:expr, $($format:tt)*) => {
        $text.refused = $text.refused || write!($text.text, $($format)*).is_err()
    };
}

impl Text {
    /// An empty text.
    pub fn new(alloc: Global) -> Text
        ensures { string_bytes result.text ≡ [] }
    {
        Text {
            text: String::new(alloc),
            refused: false,
        }
    }

    /// Whether nothing was put; a text that was refused is not empty.
    pub fn is_empty(&self) -> bool {
        self.text.is_empty() && !self.refused
    }

    /// The number of its bytes.
    pub fn len(&self) -> usize {
        self.text.len()
    }

    /// Puts some words.
    pub fn put(&mut self, words: &str)
        ensures { Puts self.old self.new words.now }
    {
        self.refused = self.refused || self.text.push_str(words).is_err();
    }

    /// Puts some words and a number.
    pub fn put_number(&mut self, words: &str, number: u64)
        ensures { Puts self.old self.new (words.now ++ decimal number) }
    {
        put!(self, "{words}{number}");
    }

    /// Puts some words and a length in hundredths of a point, spelled in points: 8650 as 86.5.
    pub fn put_length(&mut self, words: &str, length: u64)
        ensures { Puts self.old self.new (words.now ++ length_words length) }
    {
        let length = Points(length);
        put!(self, "{words}{length}");
    }

    /// Begins a line of a path at a point.
    pub fn begin_line(&mut self, x: Coordinate, y: Coordinate) {
        put!(self, "M{x} {y}");
    }

    /// Puts another text; if that was refused so is this one.
    pub fn put_text(&mut self, other: &Text) {
        self.put(&other.text);
        self.refused = self.refused || other.refused;
    }

    /// Puts words that were made elsewhere; if there was no memory for them this text is refused.
    pub fn put_made(&mut self, made: &Result<String, Memory>) {
        match made {
            Ok(words) => self.put(words),
            Err(Memory) => self.refuse(),
        }
    }

    /// Notes that there was no memory for something that was to be put here.
    pub fn refuse(&mut self)
        ensures { self.new.refused ≡ true }
    {
        self.refused = true;
    }

    /// Returns the whole text, or `Memory` if a growth of it was refused.
    pub fn finish(self) -> Result<String, Memory>
        ensures whole { IfOk result (λ text. string_bytes text ≡ string_bytes self.text) }
        ensures had { IfOk result (λ text. self.refused ≡ false) }
    {
        let Text { text, refused } = self;
        if refused {
            return Err(Memory);
        }
        Ok(text)
    }
}

/// A count, with a comma between thousands, and the name of what is counted: 1 call, 65,536 calls.
#[derive(Clone, Copy)]
pub struct Count(pub u64, pub &'static str);

impl fmt::Display for Count {
    fn fmt<W: fmt::Write>(&self, f: &mut fmt::Formatter<W>) -> fmt::Result {
        let (count, name) = (self.0, self.1);
        let (millions, thousands, rest) = (count / 1_000_000, count / 1_000 % 1_000, count % 1_000);
        if millions > 0 {
            write!(f, "{millions},{thousands:03},{rest:03} {name}s")
        } else if thousands > 0 {
            write!(f, "{thousands},{rest:03} {name}s")
        } else if count == 1 {
            write!(f, "1 {name}")
        } else {
            write!(f, "{count} {name}s")
        }
    }
}
