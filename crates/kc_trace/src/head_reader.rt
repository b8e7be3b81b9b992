//! Reading the lines of a header one after another: the first, and those of the head that may follow it.
ghost use Rattle.std.specs.Prelude.{◌≡◌, ◌≢◌, ◌++◌, ℕ, List, IfOk, IfSome, MatchOption, None, Some, Ok};
ghost use Rattle.kc_trace.specs.Header.{IsHeader, trace_header};
ghost use Rattle.kc_trace.specs.declared.header.Header.{Header};
ghost use Rattle.kc_trace.specs.HeadReading.{take_name, take_word, take_number, take_pair, take_digest, words_in, version_numbered, machine_in, approved_in, position_of, redaction_in, last_in, position_in, first_line_read, machine_line_read, next_line, next_number, is_nothing};

use crate::header::{Head, Header, Position};
use kc_lines::{LineWords, read_digest, read_number, split_line};
use kc_types::{Config, DIGEST_LIMIT, Memory, Version};
use std::alloc::Global;
use std::marker::Model;

/// Takes the next word, if it is this one.
fn take_name(words: &mut LineWords, name: &[u8]) -> Option<()>
    ensures { MatchOption result (take_name name.now words.old ≡ None) (λ done. take_name name.now words.old ≡ Some words.new) }
{
    if words.next()? == name {
        Some(())
    } else {
        None
    }
}

/// Takes the next word as a number.
fn take_number(words: &mut LineWords) -> Option<u32>
    ensures { MatchOption result (take_number words.old ≡ None) (λ number. take_number words.old ≡ Some (number, words.new)) }
{
    read_number(words.next()?)
}

/// Takes the next two words as numbers.
#[tactic(auto, unfolding(crate::specs::HeadReading::take_pair))]
fn take_pair(words: &mut LineWords) -> Option<(u32, u32)>
    ensures { MatchOption result (take_pair words.old ≡ None) (λ pair. take_pair words.old ≡ Some (pair, words.new)) }
{
    let first = take_number(words)?;
    let second = take_number(words)?;
    Some((first, second))
}

/// The version of a machine's rules by its number.
fn version_numbered(number: u32) -> Option<Version>
    ensures { result ≡ version_numbered number }
{
    match number {
        1 => Some(Version::One),
        2 => Some(Version::Two),
        3 => Some(Version::Three),
        _ => None,
    }
}

/// A machine of which not all approved digests were read.
#[derive(Debug, Drop)]
pub struct Begun {
    /// The machine without approved digests.
    config: Config,
    /// How many digests are approved.
    awaited: u32,
    approved: Vec<[u8; 32]>,
}

impl Model for Begun {
    ghost use Rattle.std.specs.Prelude.{◌≤◌, length};
    ghost use Rattle.kc_types.specs.Limits.{digest_limit};
    ghost use Rattle.kc_trace.specs.Header.{Begun as Seen};

    ghost Value = { Seen };

    ghost view = { λ b. record { config = record b.config { approved = b.approved.items }; awaited = b.awaited } };

    ghost invariant = { λ b. (b.awaited ≤ digest_limit) × (length b.approved.items ≤ b.awaited) };
}

/// How much of a header was read.
#[derive(Debug, Drop)]
pub enum HeadSoFar {
    Nothing,
    /// The first line, of header 3.
    FirstLine,
    /// The line of the machine, too, and some of its approved digests.
    Machine(Begun),
}

/// What a line makes of a header.
#[derive(Debug, Drop)]
pub enum NextLine {
    More(HeadSoFar),
    Whole(Header),
}

/// Reads the line of a machine: the machine without approved digests, and how many these are.
#[tactic(auto, unfolding(crate::specs::HeadReading::machine_in))]
fn read_machine(alloc: Global, line: &[u8]) -> Option<Begun>
    ensures { result ≡ machine_in (words_in line.now) }
{
    let mut words = LineWords::new(line);
    take_name(&mut words, b"config")?;
    let (version, slots) = take_pair(&mut words)?;
    let (frames, core) = take_pair(&mut words)?;
    let (host, leaves) = take_pair(&mut words)?;
    let awaited = take_number(&mut words)?;
    words.end()?;
    let version = version_numbered(version)?;
    if slots != version.slots() || awaited as usize > DIGEST_LIMIT {
        return None;
    }
    let approved = Vec::new(alloc);
    let config = Config::with_version(version, frames, core, host, leaves, Vec::new(alloc)).ok()?;
    Some(Begun {
        config,
        awaited,
        approved,
    })
}

/// Reads the line of an approved digest.
#[tactic(auto, unfolding(crate::specs::HeadReading::approved_in))]
fn read_approved(line: &[u8]) -> Option<[u8; 32]>
    ensures { result ≡ approved_in (words_in line.now) }
{
    let mut words = LineWords::new(line);
    take_name(&mut words, b"approved")?;
    let digest = read_digest(words.next()?)?;
    words.end()?;
    Some(digest)
}

/// The position of a volume by its number and the word of the digest.
fn position_of(number: u32, word: &[u8]) -> Option<Position>
    ensures { result ≡ position_of number word.now }
{
    if word == b"-".as_slice() {
        return if number == 1 {
            Some(Position::First)
        } else {
            None
        };
    }
    let after = read_digest(word)?;
    if number >= 2 {
        Some(Position::Later { number, after })
    } else {
        None
    }
}

/// Reads the words after a position, which say whether the bytes that the host wrote are redacted, too.
fn read_redaction(words: LineWords<'_>) -> Option<bool>
    ensures { result ≡ redaction_in words.entry }
{
    let mut words = words;
    let Some(word) = words.next() else {
        return Some(false);
    };
    if word == b"host-redacted".as_slice() {
        words.end()?;
        Some(true)
    } else {
        None
    }
}

/// Reads the last line of a head.
#[tactic(auto, unfolding(crate::specs::HeadReading::last_in))]
fn read_last(line: &[u8]) -> Option<(Position, bool)>
    ensures { result ≡ last_in (words_in line.now) }
{
    let mut words = LineWords::new(line);
    take_name(&mut words, b"volume")?;
    let number = take_number(&mut words)?;
    let word = words.next()?;
    let is_host_redacted = read_redaction(words)?;
    let position = position_of(number, word)?;
    Some((position, is_host_redacted))
}

/// Reads the line of a position, without its newline; `None` if it is not such a line.
pub fn read_position(line: &[u8]) -> Option<Position>
    ensures { result ≡ position_in (words_in line.now) }
{
    let (position, is_host_redacted) = read_last(line)?;
    if is_host_redacted {
        None
    } else {
        Some(position)
    }
}

/// Reads the first line of a header.
fn read_first(line: &[u8]) -> Option<NextLine>
    ensures { result ≡ first_line_read line.now }
{
    if line == b"kcore-trace 1".as_slice() {
        Some(NextLine::Whole(Header::One))
    } else if line == b"kcore-trace 2".as_slice() {
        Some(NextLine::Whole(Header::Two))
    } else if line == b"kcore-trace 3".as_slice() {
        Some(NextLine::More(HeadSoFar::FirstLine))
    } else {
        None
    }
}

impl Begun {
    /// Makes a copy.
    fn copy(&self) -> Result<Begun, Memory>
        ensures { IfOk result (λ made. made ≡ self.now) }
    {
        Ok(Begun {
            config: self.config.copy()?,
            awaited: self.awaited,
            approved: self.approved.clone()?,
        })
    }

    /// The machine with the digests that were read.
    fn into_config(self) -> Option<Config>
        ensures { result ≡ Some self.config }
    {
        Config::with_version(
            self.config.version(),
            self.config.frames(),
            self.config.core(),
            self.config.host(),
            self.config.leaves(),
            self.approved,
        )
        .ok()
    }

    /// Reads the line after the machine's, or after that of an approved digest.
    fn next_line(self, line: &[u8]) -> Result<Option<NextLine>, Memory>
        ensures { IfOk result (λ next. next ≡ machine_line_read self line.now) }
    {
        if self.approved.len() >= self.awaited as usize {
            let Some((position, is_host_redacted)) = read_last(line) else {
                return Ok(None);
            };
            let Some(config) = self.into_config() else {
                return Ok(None);
            };
            return Ok(Some(NextLine::Whole(Header::Three(Head {
                config,
                position,
                is_host_redacted,
            }))));
        }
        let Some(digest) = read_approved(line) else {
            return Ok(None);
        };
        let mut begun = self;
        begun.approved.push(digest)?;
        Ok(Some(NextLine::More(HeadSoFar::Machine(begun))))
    }
}

impl HeadSoFar {
    /// Makes a copy.
    pub fn copy(&self) -> Result<HeadSoFar, Memory>
        ensures { IfOk result (λ made. made ≡ self.now) }
    {
        match self {
            HeadSoFar::Nothing => Ok(HeadSoFar::Nothing),
            HeadSoFar::FirstLine => Ok(HeadSoFar::FirstLine),
            HeadSoFar::Machine(begun) => Ok(HeadSoFar::Machine(begun.copy()?)),
        }
    }

    /// Reads the next line; `None` if it may not come there.
    pub fn next_line(self, alloc: Global, line: &[u8]) -> Result<Option<NextLine>, Memory>
        ensures { IfOk result (λ next. next ≡ next_line self line.now) }
    {
        match self {
            HeadSoFar::Nothing => Ok(read_first(line)),
            HeadSoFar::FirstLine => match read_machine(alloc, line) {
                Some(begun) => Ok(Some(NextLine::More(HeadSoFar::Machine(begun)))),
                None => Ok(None),
            },
            HeadSoFar::Machine(begun) => begun.next_line(line),
        }
    }

    /// The number of the next line, counted from 1.
    pub fn next_number(&self) -> u32
        ensures { result ≡ next_number self.now }
    {
        match self {
            HeadSoFar::Nothing => 1,
            HeadSoFar::FirstLine => 2,
            HeadSoFar::Machine(begun) => 3 + begun.approved.len() as u32,
        }
    }

    /// Whether nothing was read.
    pub fn is_nothing(&self) -> bool
        ensures { result ≡ is_nothing self.now }
    {
        matches!(self, HeadSoFar::Nothing)
    }
}

/// Reads the header that some bytes begin with, and returns it with the bytes after it; `None` if they do not begin with
/// all of one.
pub fn read_header(alloc: Global, bytes: &[u8]) -> Result<Option<(Header, &[u8])>, Memory>
    ensures found { IfOk result (λ found. IfSome found
        (λ cut. IsHeader cut.0 × (bytes.now ≡ trace_header cut.0 ++ cut.1.now))) }
    ensures none { result ≡ Ok None
        → (header : Header) (rest : List ℕ) → IsHeader header → bytes.now ≢ trace_header header ++ rest }
{
    let mut head = HeadSoFar::Nothing;
    let mut rest = bytes;
    loop {
        let Some((line, more)) = split_line(rest) else {
            return Ok(None);
        };
        match head.next_line(alloc, line)? {
            Some(NextLine::More(next)) => head = next,
            Some(NextLine::Whole(header)) => return Ok(Some((header, more))),
            None => return Ok(None),
        }
        rest = more;
    }
}
