//! Cutting lines off a text and words off a line, and reading a word as a number or as bytes.
ghost use Rattle.std.specs.Prelude.{◌≡◌, ◌==◌, ◌*◌, ◌%◌, ◌<◌, ◌≤◌, ◌^◌, ◌&&◌, not, nat_le, true, [], ◌∷◌, ◌++◌, length, replicate, position, take, All, IfOk, IsTrue, MatchOption};
ghost use Rattle.std.specs.Char.{is_ascii_digit};
ghost use Rattle.std.specs.List.{list_all, slice_split};
ghost use Rattle.std.specs.Str.Parse.{digits_value};
ghost use Rattle.hex.specs.Hex.{encode_lower};
ghost use Rattle.kc_types.specs.Bytes.{short_size};
ghost use Rattle.kc_types.specs.Limits.{page_size};
ghost use Rattle.kc_lines.specs.Lines.{IsOneLine};
ghost use Rattle.kc_lines.specs.Words.{has_no_leading_zero, number_in, IsLastNumber, IsFirstNumber, is_lower_digit, digit_value, data_of, blanked_data, digest_in};

use kc_types::{Data, PAGE_SIZE, SHORT_SIZE};
use memchr::memchr;
use std::alloc::{AllocError, Global};

/// The place of the first such byte, found by looking at many bytes in one step.
fn first_at(byte: u8, bytes: &[u8]) -> Option<usize>
    ensures { result ≡ position (λ b. b == byte) bytes.now }
{
    memchr(byte, bytes)
}

/// Splits a text into what is before its first newline and what is after it; `None` if there is no newline.
pub fn split_line(bytes: &[u8]) -> Option<(&[u8], &[u8])>
    ensures { MatchOption result (IsOneLine bytes.now) (λ cut. IsOneLine cut.0.now × (bytes.now ≡ cut.0.now ++ 10 ∷ cut.1.now)) }
{
    match first_at(b'\n', bytes) {
        Some(at) => Some((&bytes[..at], &bytes[at + 1..])),
        None => None,
    }
}

/// Splits a line into its first word and what is after the space that follows; `None` if the line is one word.
pub fn split_word(line: &[u8]) -> Option<(&[u8], &[u8])>
    ensures { MatchOption result (slice_split (λ b. b == 32) line.now ≡ line.now ∷ [])
        (λ cut. slice_split (λ b. b == 32) line.now ≡ cut.0.now ∷ slice_split (λ b. b == 32) cut.1.now) }
{
    match first_at(b' ', line) {
        Some(at) => Some((&line[..at], &line[at + 1..])),
        None => None,
    }
}

fn are_digits(word: &[u8]) -> bool
    ensures { result ≡ list_all is_ascii_digit word.now }
{
    word.iter().all(|byte| byte.is_ascii_digit())
}

/// Whether there are digits, without a leading zero unless it is the only digit.
fn has_no_leading_zero(digits: &[u8]) -> bool
    ensures { result ≡ has_no_leading_zero digits.now }
{
    !digits.is_empty() && (digits.len() == 1 || digits[0] != b'0')
}

/// One more than the largest number of 32 bits.
const TOO_LARGE: u64 = 4_294_967_296;

/// The number that the digits spell; 4,294,967,296 if it is that or larger.
fn value_of(word: &[u8]) -> u64
    requires { list_all is_ascii_digit word.now ≡ true }
    ensures below { digits_value 10 word.now < 2 ^ 32 → result ≡ digits_value 10 word.now }
    ensures above { 2 ^ 32 ≤ digits_value 10 word.now → result ≡ 2 ^ 32 }
{
    let mut value: u64 = 0;
    for i in 0..word.len() {
        value = value * 10 + (word[i] % 16) as u64;
        if value > TOO_LARGE {
            value = TOO_LARGE;
        }
    }
    value
}

/// The number that digits spell, up to 4,294,967,295.
fn read_digits(digits: &[u8]) -> Option<u32>
    requires { list_all is_ascii_digit digits.now ≡ true }
    ensures { result ≡ number_in digits.now }
{
    if !has_no_leading_zero(digits) {
        return None;
    }
    let value = value_of(digits);
    if value < TOO_LARGE {
        Some(value as u32)
    } else {
        None
    }
}

/// The number that a word spells, up to 4,294,967,295.
pub fn read_number(word: &[u8]) -> Option<u32>
    ensures { result ≡ number_in word.now }
{
    if are_digits(word) {
        read_digits(word)
    } else {
        None
    }
}

/// The most digits of a number of 32 bits.
const MOST_DIGITS: usize = 10;

/// The number of digits that a line begins with, as far as they may be a number.
fn count_digits(line: &[u8]) -> usize
    ensures within { result ≤ length line.now }
    ensures digits { list_all is_ascii_digit (take result line.now) ≡ true }
{
    let most = line.len().min(MOST_DIGITS);
    let mut count = 0;
    while count < most && line[count].is_ascii_digit() {
        count += 1;
    }
    count
}

/// The first word of a line as a number, up to 4,294,967,295, and what is after the space that follows, or nothing if
/// the line is one word.
pub fn split_number(line: &[u8]) -> (Option<u32>, Option<&[u8]>)
    ensures { MatchOption result.1
        (IsLastNumber line.now result.0)
        (λ rest. IsFirstNumber line.now result.0 rest.now) }
{
    let count = count_digits(line);
    let digits = &line[..count];
    if count == line.len() {
        return (read_digits(digits), None);
    }
    if line[count] == b' ' {
        return (read_digits(digits), Some(&line[count + 1..]));
    }
    match split_word(line) {
        Some((word, rest)) => (read_number(word), Some(rest)),
        None => (read_number(line), None),
    }
}

fn is_lower_digit(byte: u8) -> bool
    ensures { result ≡ is_lower_digit byte }
{
    (b'0' <= byte && byte <= b'9') || (b'a' <= byte && byte <= b'f')
}

/// The value of a lower case digit. For another byte it may be any value.
fn digit_value(byte: u8) -> u8
    ensures value { result ≡ digit_value byte }
    ensures small { result < 16 }
{
    if byte < b'a' {
        byte % 16
    } else {
        (byte % 16 + 9) % 16
    }
}

/// Whether a word has the length of two digits for each of 1 to 4,096 bytes.
fn has_data_length(word: &[u8]) -> bool
    ensures { result ≡ (not (length word.now == 0) && nat_le (length word.now) (2 * page_size) && (length word.now % 2 == 0)) }
{
    !word.is_empty() && word.len() <= 2 * PAGE_SIZE as usize && word.len() % 2 == 0
}

/// Writes the bytes that a word of lower case digits spells, and returns whether the word has only such digits. It
/// never ends early, so that many bytes are read at once.
pub fn decode_into(word: &[u8], bytes: &mut [u8]) -> bool
    requires { length word.now ≡ 2 * length bytes.old }
    ensures valid { result ≡ list_all is_lower_digit word.now }
    ensures spelled { IsTrue result → word.now ≡ encode_lower bytes.new }
    ensures each_byte { All (λ b. b < 256) bytes.new }
{
    let mut valid = true;
    for i in 0..bytes.len() {
        let high = word[2 * i];
        let low = word[2 * i + 1];
        valid = valid & is_lower_digit(high) & is_lower_digit(low);
        bytes[i] = digit_value(high) * 16 + digit_value(low);
    }
    valid
}

/// The bytes of a word with so few lower case digits that they need no memory of their own.
fn read_short_data(word: &[u8]) -> Option<Data>
    requires some { 0 < length word.now }
    requires few { length word.now ≤ 2 * short_size }
    requires even { length word.now % 2 ≡ 0 }
    ensures { result ≡ data_of word.now }
{
    let mut room = [0u8; SHORT_SIZE];
    let bytes = &mut room[..word.len() / 2];
    if decode_into(word, bytes) {
        Some(Data::short(bytes))
    } else {
        None
    }
}

/// Reads the 1 to 4,096 bytes that a word of lower case hexadecimal digits spells; `None` if it is not such a word.
pub fn read_data(alloc: Global, word: &[u8]) -> Result<Option<Data>, AllocError>
    ensures { IfOk result (λ found. found ≡ data_of word.now) }
{
    if !has_data_length(word) {
        return Ok(None);
    }
    if word.len() <= 2 * SHORT_SIZE {
        return Ok(read_short_data(word));
    }
    let mut bytes = vec![in alloc; 0u8; word.len() / 2]?;
    if decode_into(word, bytes.as_mut_slice()) {
        Ok(Data::try_new(bytes))
    } else {
        Ok(None)
    }
}

/// Whether a word has only lower case digits. The loop never ends early, so that many bytes are checked in one step.
fn are_lower_digits(word: &[u8]) -> bool
    ensures { result ≡ list_all is_lower_digit word.now }
{
    let mut valid = true;
    for i in 0..word.len() {
        valid = valid & is_lower_digit(word[i]);
    }
    valid
}

/// Makes up to `SHORT_SIZE` zeros, which need no memory of their own.
fn make_short_zeros(len: usize) -> Data
    requires some { 0 < len }
    requires few { len ≤ short_size }
    ensures { result ≡ replicate len 0 }
{
    let zeros = [0u8; SHORT_SIZE];
    Data::short(&zeros[..len])
}

/// Reads a word as `read_data` does, but returns a zero for each byte that it spells: its digits are only checked.
pub fn read_blanked(alloc: Global, word: &[u8]) -> Result<Option<Data>, AllocError>
    ensures { IfOk result (λ found. found ≡ blanked_data (data_of word.now)) }
{
    if !has_data_length(word) || !are_lower_digits(word) {
        return Ok(None);
    }
    let len = word.len() / 2;
    if len <= SHORT_SIZE {
        return Ok(Some(make_short_zeros(len)));
    }
    Ok(Data::try_new(vec![in alloc; 0u8; len]?))
}

/// The 32 bytes that 64 lower case digits spell.
#[tactic(auto, using(crate::proofs::Digits::no_digits), unfolding(crate::specs::Words::digest_in))]
pub fn read_digest(word: &[u8]) -> Option<[u8; 32]>
    ensures { result ≡ digest_in word.now }
{
    let mut digest = [0; 32];
    if word.len() == 64 && decode_into(word, &mut digest) {
        Some(digest)
    } else {
        None
    }
}
