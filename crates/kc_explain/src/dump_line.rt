//! Why a line is not one of a dump or of a state's text.
use crate::trace_line::{LineFault, fault_of_number, is_among, is_digit, name_of};

/// A letter for each word after the name of a line: n is a number, f a number or a dash, p a phase, o an owner, b 0 or
/// 1, d a digest, v a virtual processor, and y a page.
fn letters_of(name: &[u8]) -> Option<&'static str> {
    if is_among(name, &["size", "leaf", "entry"]) {
        Some("nnn")
    } else if is_among(name, &["free"]) {
        Some("ffn")
    } else if is_among(name, &["vm"]) {
        Some("npffn")
    } else if is_among(name, &["frame"]) {
        Some("nonfbffd")
    } else if is_among(name, &["config"]) {
        Some("nnnn")
    } else if is_among(name, &["approved"]) {
        Some("d")
    } else if is_among(name, &["slot"]) {
        Some("vvvvvvvv")
    } else if is_among(name, &["page"]) {
        Some("y")
    } else {
        None
    }
}

/// Whether a line of a dump or of a state's text begins with this name.
pub(crate) fn is_line_name(name: &[u8]) -> bool {
    letters_of(name).is_some() || is_among(name, &["kcore-dump", "kcore-state"])
}

fn are_digits(word: &[u8], count: usize) -> bool {
    word.len() == count && word.iter().all(|byte| is_digit(*byte))
}

fn found_unless(holds: bool, fault: LineFault) -> Option<LineFault> {
    if holds { None } else { Some(fault) }
}

/// What is wrong with a word of this letter, if anything is.
fn fault_of(word: &[u8], place: usize, letter: u8) -> Option<LineFault> {
    match letter {
        b'f' if word == b"-".as_slice() => None,
        b'v' if is_among(word, &["-", "."]) => None,
        b'o' if is_among(word, &["core", "host", "free"]) => None,
        b'o' if !word.iter().all(|byte| byte.is_ascii_digit()) => Some(LineFault::NotOwner(place)),
        b'p' => found_unless(
            is_among(word, &["empty", "booting", "active", "dead"]),
            LineFault::NotPhase(place),
        ),
        b'b' => found_unless(is_among(word, &["0", "1"]), LineFault::NotBit(place)),
        b'd' => found_unless(are_digits(word, 64), LineFault::NotDigest(place)),
        b'y' => found_unless(
            word == b"-".as_slice() || are_digits(word, 8192),
            LineFault::NotPage,
        ),
        _ => fault_of_number(word, place),
    }
}

/// Why a line, without its newline, is not one of a dump or of a state's text, judged by the line alone.
pub fn fault_of_text_line(line: &[u8]) -> LineFault {
    let name = match name_of(line) {
        Ok(name) => name,
        Err(fault) => return fault,
    };
    let Some(letters) = letters_of(name) else {
        return LineFault::NoSuchLine;
    };
    let mut given = 0usize;
    let mut found = None;
    for (place, word) in line.split(|byte| *byte == b' ').enumerate() {
        if place > 0 && found.is_none() {
            let letter = match letters.as_bytes().get(place.saturating_sub(1)) {
                Some(letter) => *letter,
                None => b'n',
            };
            found = fault_of(word, place, letter);
        }
        given = place;
    }
    let wanted = letters.len();
    let has_images = is_among(name, &["slot"]) && given >= wanted && (given - wanted) % 3 == 0;
    if given != wanted && !has_images {
        return LineFault::Words(given, wanted);
    }
    found.unwrap_or(LineFault::NotDue)
}
