//! A line that is not one of its text, without what may be bytes of a page, whatever else is wrong with the line.
use crate::dump_line::is_line_name;
use crate::finder::MOST_OF_LINE;
use crate::masked::{Shortened, write_masked};
use crate::trace_line::{first_word, numbers_of};
use std::fmt;

/// The most bytes of a line that are shown.
const MOST_SHOWN: usize = 60;

/// The most characters of a word that is shown and is neither a name nor a number.
const MOST_OF_WORD: usize = 20;

/// The most digits of a number.
const MOST_OF_NUMBER: usize = 10;

/// Whether a word may be a misspelled name: it is short, has no digit, and at least half of it is not hexadecimal.
fn is_like_name(word: &[u8]) -> bool {
    let others = word.iter().filter(|byte| !byte.is_ascii_hexdigit()).count();
    word.len() <= MOST_OF_WORD
        && !word.iter().any(|byte| byte.is_ascii_digit())
        && others >= word.len().saturating_sub(others)
}

fn is_number(word: &[u8]) -> bool {
    word.len() <= MOST_OF_NUMBER && word.iter().all(|byte| byte.is_ascii_digit())
}

/// Whether a word in place of a number may be shown: it is short, and not hexadecimal.
fn is_harmless(word: &[u8]) -> bool {
    word.len() <= MOST_OF_WORD && !word.iter().all(|byte| byte.is_ascii_hexdigit())
}

/// The number of spaces that a line begins with.
fn spaces_before(line: &[u8]) -> usize {
    let mut count = 0usize;
    for word in line.split(|byte| *byte == b' ') {
        if !word.is_empty() {
            return count;
        }
        count = count.saturating_add(1);
    }
    line.len()
}

/// How many bytes of what follows the name of a call, which has this many numbers, may be shown: its numbers, up to the
/// first word that is not one, and that word if it is not data.
fn shown_of_numbers(rest: &[u8], numbers: usize) -> usize {
    let (mut shown, mut end, mut count) = (0usize, 0usize, 0usize);
    for word in rest.split(|byte| *byte == b' ') {
        end = end.saturating_add(word.len()).saturating_add(1);
        if !word.is_empty() {
            count = count.saturating_add(1);
            if count > numbers || !(is_number(word) || is_harmless(word)) {
                return shown;
            }
            shown = end;
            if !is_number(word) {
                return shown;
            }
        }
    }
    end
}

/// How many bytes of a line may be shown if its name is followed by this many numbers; of a line that has no such name
/// (`None`), only the first word.
fn shown_of(line: &[u8], name: &[u8], numbers: Option<usize>) -> usize {
    let end = spaces_before(line)
        .saturating_add(name.len())
        .saturating_add(1);
    match numbers {
        Some(numbers) if end < line.len() => {
            end.saturating_add(shown_of_numbers(&line[end..], numbers))
        },
        None if !is_like_name(name) => 0,
        _ => end,
    }
}

/// Writes this many bytes of a line at most, and how many it has after them.
fn write_beginning<W: fmt::Write>(
    line: &[u8],
    shown: usize,
    f: &mut fmt::Formatter<W>,
) -> fmt::Result {
    let (front, rest) = line.split_at(shown.min(MOST_SHOWN).min(line.len()));
    write_masked(front, f)?;
    if rest.is_empty() {
        return Ok(());
    }
    if !front.is_empty() && front.last() != Some(&b' ') {
        f.write_str(" ")?;
    }
    let count = rest.len();
    let more = if line.len() < MOST_OF_LINE {
        ""
    } else {
        " or more"
    };
    let plural = if count == 1 { "" } else { "s" };
    write!(f, "({count}{more} character{plural} not shown)")
}

/// A line without the CR that it may end with.
fn without_cr(line: &[u8]) -> &[u8] {
    line.strip_suffix(b"\r").unwrap_or(line)
}

/// A line of a trace, as far as it cannot be data that are written.
#[derive(Drop)]
pub struct TraceLine<'a>(pub &'a [u8]);

impl fmt::Display for TraceLine<'_> {
    fn fmt<W: fmt::Write>(&self, f: &mut fmt::Formatter<W>) -> fmt::Result {
        let line = without_cr(self.0);
        let (_, words) = line.split_at(spaces_before(line).min(line.len()));
        let name = first_word(words);
        let shown = shown_of(line, name, numbers_of(name));
        write_beginning(
            self.0,
            if shown < line.len() {
                shown
            } else {
                self.0.len()
            },
            f,
        )
    }
}

/// A line of a dump or of a state's text, as far as it cannot be a page.
#[derive(Drop)]
pub struct TextLine<'a>(pub &'a [u8]);

impl fmt::Display for TextLine<'_> {
    fn fmt<W: fmt::Write>(&self, f: &mut fmt::Formatter<W>) -> fmt::Result {
        let name = first_word(self.0);
        if name == b"page".as_slice() {
            f.write_str("page ...")
        } else if self.0.is_empty() || is_line_name(name) {
            fmt::Display::fmt(&Shortened(self.0), f)
        } else {
            write_beginning(self.0, shown_of(self.0, name, None), f)
        }
    }
}
