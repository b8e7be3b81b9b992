//! What a text without its header looks like.
use crate::trace_line::{first_word, is_among};
use kc_lines::{read_number, split_line};
use std::fmt;

/// The first line of a text, which names its version.
#[derive(Clone, Copy, Debug, PartialEq, Eq)]
pub enum Header {
    Trace,
    Dump,
    State,
    /// A configuration has none.
    None,
}

/// What a text that is not of the wanted kind looks like.
#[derive(Clone, Copy, Debug, PartialEq, Eq)]
pub enum Look {
    Empty,
    ByteOrderMark,
    Utf16,
    Gzip,
    Xz,
    Zstd,
    CarriageReturn,
    /// The wanted header, without its newline.
    Unended,
    /// A header that a head follows, without all of that.
    Headless,
    /// The header of a version that this program does not read.
    Newer(u32),
    /// The name of the wanted header, whose newest version is this, followed by something that is not a version.
    NoVersion(u32),
    Trace,
    Dump,
    State,
    Report,
    Custody,
    Config,
    Replies,
    Other,
}

impl fmt::Display for Look {
    fn fmt<W: fmt::Write>(&self, f: &mut fmt::Formatter<W>) -> fmt::Result {
        f.write_str(match self {
            Look::Empty => "it is empty",
            Look::ByteOrderMark => "it begins with a byte order mark",
            Look::Utf16 => "it looks like UTF-16",
            Look::Gzip => "it looks like gzip",
            Look::Xz => "it looks like xz",
            Look::Zstd => "it looks like zstd",
            Look::CarriageReturn => "its first line ends with CR and LF",
            Look::Unended => "its first line does not end",
            Look::Headless => "it ends before its head does",
            Look::Newer(version) => {
                return write!(f, "version {version}: a newer kcore reads it");
            },
            Look::NoVersion(3) => "its first line does not end with a version, 1, 2 or 3",
            Look::NoVersion(_) => "its first line does not end with a version, 1 or 2",
            Look::Trace => "it looks like a trace",
            Look::Dump => "it looks like a dump",
            Look::State => "it looks like a state's text",
            Look::Report => "it looks like an audit's report",
            Look::Custody => "it looks like the output of custody",
            Look::Config => "it looks like a configuration",
            Look::Replies => "it looks like replies",
            Look::Other => "its first line is another",
        })
    }
}

/// The first line of a text, or what there is of it.
fn first_line(text: &[u8]) -> &[u8] {
    match split_line(text) {
        Some((line, _)) => line,
        None => text,
    }
}

/// Whether the text's first line ends with CR and LF.
fn has_crlf(text: &[u8]) -> bool {
    match split_line(text) {
        Some((line, _)) => line.last() == Some(&b'\r'),
        None => false,
    }
}

/// Whether the text begins with the name of a reply.
fn begins_as_reply(text: &[u8]) -> bool {
    is_among(
        first_word(first_line(text)),
        &[
            "done", "frame", "data", "refused", "image", "rejected", "fault",
        ],
    )
}

/// What a text that another program wrote looks like by its first bytes, if it is one.
fn foreign(text: &[u8]) -> Option<Look> {
    if text.starts_with(&[239, 187, 191]) {
        Some(Look::ByteOrderMark)
    } else if text.starts_with(&[255, 254]) || text.starts_with(&[254, 255]) {
        Some(Look::Utf16)
    } else if text.starts_with(&[31, 139]) {
        Some(Look::Gzip)
    } else if text.starts_with(&[253, 55, 122, 88, 90]) {
        Some(Look::Xz)
    } else if text.starts_with(&[40, 181, 47, 253]) {
        Some(Look::Zstd)
    } else {
        None
    }
}

/// What is wrong with a header of the wanted name, given what follows the name; its newest version is this.
fn look_of_header(version: &[u8], newest: u32) -> Look {
    match read_number(first_line(version)) {
        Some(number) if number > newest => Look::Newer(number),
        Some(number) if number > 0 => Look::Unended,
        _ => Look::NoVersion(newest),
    }
}

/// What a text of ours looks like by the name that it begins with, if it is one.
fn ours(text: &[u8], wanted: Header) -> Option<Look> {
    if let Some(version) = text.strip_prefix(b"kcore-trace ") {
        Some(match wanted {
            Header::Trace => match look_of_header(version, 3) {
                Look::Unended if split_line(version).is_some() => Look::Headless,
                look => look,
            },
            _ => Look::Trace,
        })
    } else if let Some(version) = text.strip_prefix(b"kcore-dump ") {
        Some(match wanted {
            Header::Dump => look_of_header(version, 2),
            _ => Look::Dump,
        })
    } else if let Some(version) = text.strip_prefix(b"kcore-state ") {
        Some(match wanted {
            Header::State => look_of_header(version, 2),
            _ => Look::State,
        })
    } else {
        None
    }
}

/// What a text that is not of the wanted kind looks like, given its first 64 bytes or more.
pub fn look_of(text: &[u8], wanted: Header) -> Look {
    if text.is_empty() {
        return Look::Empty;
    }
    if let Some(look) = foreign(text) {
        return look;
    }
    if has_crlf(text) {
        return Look::CarriageReturn;
    }
    if let Some(look) = ours(text, wanted) {
        return look;
    }
    if text.starts_with(b"{\"findings\":") || text.starts_with(b"{\"finding\":") {
        Look::Report
    } else if text.starts_with(b"{\"custody\":") || text.starts_with(b"{\"summary\":") {
        Look::Custody
    } else if text.starts_with(b"{") {
        Look::Config
    } else if begins_as_reply(text) {
        Look::Replies
    } else {
        Look::Other
    }
}
