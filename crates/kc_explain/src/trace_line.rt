//! Why a line of a trace is not a call.
use kc_lines::{read_number, split_word};
use std::fmt;

/// Why a line is not a call, or not a line of another text. A place is that of a word after the name, from 1.
#[derive(Clone, Copy, Debug, PartialEq, Eq)]
pub enum LineFault {
    Empty,
    CarriageReturn,
    /// Two spaces, or one at an end.
    Spaces,
    NoSuchCall,
    NoSuchLine,
    /// How many words come after the name, and how many are wanted.
    Words(usize, usize),
    NotDecimal(usize),
    LeadingZero(usize),
    OutOfRange(usize),
    NotHexadecimal,
    OddDigits,
    TooManyBytes,
    NotPhase(usize),
    NotOwner(usize),
    NotBit(usize),
    NotDigest(usize),
    NotPage,
    /// None of these, for a line of a dump or a state's text: it may not come here, or a number is out of range.
    NotDue,
    /// None of these, for a call: `grantr` or `revoker` after `kcore-trace 1`, or a line that is longer than any call.
    Other,
}

impl fmt::Display for LineFault {
    fn fmt<W: fmt::Write>(&self, f: &mut fmt::Formatter<W>) -> fmt::Result {
        match self {
            LineFault::Empty => f.write_str("an empty line"),
            LineFault::CarriageReturn => f.write_str("it ends with a CR"),
            LineFault::Spaces => f.write_str("two spaces, or a space at an end"),
            LineFault::NoSuchCall => f.write_str("no call has this name"),
            LineFault::NoSuchLine => f.write_str("no line has this name"),
            LineFault::Words(given, wanted) => {
                write!(f, "words after the name: {given}, and {wanted} are wanted")
            },
            LineFault::NotDecimal(place) => {
                write!(f, "word {place} after the name is not a number")
            },
            LineFault::LeadingZero(place) => {
                write!(f, "word {place} after the name has a leading zero")
            },
            LineFault::OutOfRange(place) => {
                write!(f, "word {place} after the name is above 4294967295")
            },
            LineFault::NotPhase(place) => {
                write!(
                    f,
                    "word {place} after the name is not empty, booting, active or dead"
                )
            },
            LineFault::NotOwner(place) => {
                write!(
                    f,
                    "word {place} after the name is not core, host, free or a slot"
                )
            },
            LineFault::NotBit(place) => write!(f, "word {place} after the name is not 0 or 1"),
            LineFault::NotDigest(place) => {
                write!(
                    f,
                    "word {place} after the name is not of 64 digits, 0 to 9 and a to f"
                )
            },
            LineFault::NotPage => {
                f.write_str("the page is not a dash or 8192 digits, 0 to 9 and a to f")
            },
            LineFault::NotDue => {
                f.write_str("the line may not come here, or a number is out of range")
            },
            LineFault::NotHexadecimal => {
                f.write_str("the last word is not of hexadecimal digits, 0 to 9 and a to f")
            },
            LineFault::OddDigits => f.write_str("the last word has an odd number of digits"),
            LineFault::TooManyBytes => f.write_str("the last word is more than 4096 bytes"),
            LineFault::Other => f.write_str("no call of this header's version"),
        }
    }
}

pub(crate) fn is_among(name: &[u8], names: &[&str]) -> bool {
    names.iter().any(|one| one.as_bytes() == name)
}

/// How many words a call has after its name, and whether the last of them is bytes.
fn words_of(name: &[u8]) -> Option<(usize, bool)> {
    if is_among(name, &["take"]) {
        Some((0, false))
    } else if is_among(name, &["give", "hfault", "regvm", "verify", "clear"]) {
        Some((1, false))
    } else if is_among(name, &["regvcpu"]) {
        Some((2, false))
    } else if is_among(
        name,
        &[
            "hread", "setboot", "remap", "map", "grant", "revoke", "drop",
        ],
    ) {
        Some((3, false))
    } else if is_among(name, &["hwrite"]) {
        Some((3, true))
    } else if is_among(name, &["grantr", "revoker"]) {
        Some((4, false))
    } else if is_among(name, &["gread"]) {
        Some((5, false))
    } else if is_among(name, &["gwrite"]) {
        Some((5, true))
    } else {
        None
    }
}

/// How many words that may be shown come after the name of a call: its numbers, and none if it has bytes.
pub(crate) fn numbers_of(name: &[u8]) -> Option<usize> {
    match words_of(name) {
        Some((_, true)) => Some(0),
        Some((numbers, false)) => Some(numbers),
        None => None,
    }
}

pub(crate) fn fault_of_number(word: &[u8], place: usize) -> Option<LineFault> {
    if read_number(word).is_some() {
        None
    } else if !word.iter().all(|byte| byte.is_ascii_digit()) {
        Some(LineFault::NotDecimal(place))
    } else if word.first() == Some(&b'0') {
        Some(LineFault::LeadingZero(place))
    } else {
        Some(LineFault::OutOfRange(place))
    }
}

pub(crate) fn is_digit(byte: u8) -> bool {
    byte.is_ascii_digit() || (b'a'..=b'f').contains(&byte)
}

fn fault_of_bytes(word: &[u8]) -> Option<LineFault> {
    if !word.iter().all(|byte| is_digit(*byte)) {
        Some(LineFault::NotHexadecimal)
    } else if word.len() % 2 == 1 {
        Some(LineFault::OddDigits)
    } else if word.len() > 8192 {
        Some(LineFault::TooManyBytes)
    } else {
        None
    }
}

fn fault_of_word(word: &[u8], place: usize, is_bytes: bool) -> Option<LineFault> {
    if is_bytes {
        fault_of_bytes(word)
    } else {
        fault_of_number(word, place)
    }
}

fn has_empty_word(line: &[u8]) -> bool {
    line.split(|byte| *byte == b' ').any(|word| word.is_empty())
}

/// The first word of a line, which may be the only one.
pub(crate) fn first_word(line: &[u8]) -> &[u8] {
    match split_word(line) {
        Some((word, _)) => word,
        None => line,
    }
}

/// The name that a line begins with, or why the line is not made of words.
pub(crate) fn name_of(line: &[u8]) -> Result<&[u8], LineFault> {
    if line.is_empty() {
        Err(LineFault::Empty)
    } else if line.last() == Some(&b'\r') {
        Err(LineFault::CarriageReturn)
    } else if has_empty_word(line) {
        Err(LineFault::Spaces)
    } else {
        Ok(first_word(line))
    }
}

/// Why a line, without its newline, is not a call, if it is not one.
pub fn fault_of_line(line: &[u8]) -> LineFault {
    let name = match name_of(line) {
        Ok(name) => name,
        Err(fault) => return fault,
    };
    let Some((wanted, has_bytes)) = words_of(name) else {
        return LineFault::NoSuchCall;
    };
    let mut given = 0usize;
    let mut found = None;
    for (place, word) in line.split(|byte| *byte == b' ').enumerate() {
        if place > 0 && found.is_none() {
            found = fault_of_word(word, place, has_bytes && place == wanted);
        }
        given = place;
    }
    if given != wanted {
        return LineFault::Words(given, wanted);
    }
    found.unwrap_or(LineFault::Other)
}
