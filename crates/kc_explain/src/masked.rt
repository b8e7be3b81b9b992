//! Bytes as they may be shown on a terminal: none ends the line, moves the cursor or colours what follows.
use arrayvec::ArrayString;
use std::fmt;

/// Writes at most 64 bytes, with a `.` for each that is not printable ASCII.
pub(crate) fn write_masked<W: fmt::Write>(bytes: &[u8], f: &mut fmt::Formatter<W>) -> fmt::Result {
    let mut text = ArrayString::<64>::new();
    for byte in bytes {
        let shown = if (32..127).contains(byte) {
            *byte
        } else {
            b'.'
        };
        let _ = text.try_push(char::from(shown));
    }
    f.write_str(text.as_str())
}

/// A whole path or another argument, with a `.` for each byte that is not printable ASCII.
#[derive(Drop)]
pub struct Masked<'a>(pub &'a str);

impl fmt::Display for Masked<'_> {
    fn fmt<W: fmt::Write>(&self, f: &mut fmt::Formatter<W>) -> fmt::Result {
        for piece in self.0.as_bytes().chunks(64) {
            write_masked(piece, f)?;
        }
        Ok(())
    }
}

/// At most 60 bytes of a line, with a `.` for each that is not printable ASCII.
#[derive(Drop)]
pub struct Shortened<'a>(pub &'a [u8]);

impl fmt::Display for Shortened<'_> {
    fn fmt<W: fmt::Write>(&self, f: &mut fmt::Formatter<W>) -> fmt::Result {
        let count = self.0.len().min(60);
        write_masked(&self.0[..count], f)?;
        f.write_str(if self.0.len() > 60 { " ..." } else { "" })
    }
}
