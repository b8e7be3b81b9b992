//! Appending bytes to a text that has room for them, so that memory does not grow.
ghost use Rattle.std.specs.Prelude.{◌≡◌, ◌<◌, ◌≤◌, ◌+◌, ◌*◌, ◌++◌, ◌∷◌, length, slice_index, vec_len, vec_capacity};
ghost use Rattle.std.specs.Fmt.{decimal};
ghost use Rattle.hex.specs.Hex.{encode_lower, lower_digits};

use itoa::Buffer;

/// The lower case digit of a value below 16.
fn digit_of(value: u8) -> u8
    requires { value < 16 }
    ensures { result ≡ slice_index lower_digits value }
{
    if value < 10 {
        b'0' + value
    } else {
        b'a' - 10 + value
    }
}

/// Writes the digits of bytes, two for each. It uses no table, so that many bytes are written at once.
fn encode_into(bytes: &[u8], digits: &mut [u8])
    requires { length digits.old ≡ 2 * length bytes.now }
    ensures { digits.new ≡ encode_lower bytes.now }
{
    for i in 0..bytes.len() {
        let byte = bytes[i];
        digits[2 * i] = digit_of(byte / 16);
        digits[2 * i + 1] = digit_of(byte % 16);
    }
}

/// Appends bytes for which there is room.
pub fn push_bytes(text: &mut Vec<u8>, bytes: &[u8])
    requires { vec_len text.old + length bytes.now ≤ vec_capacity text.old }
    ensures items { text.new.items ≡ text.old.items ++ bytes.now }
    ensures len { vec_len text.new ≡ vec_len text.old + length bytes.now }
    ensures capacity { vec_capacity text.old ≤ vec_capacity text.new }
{
    text.extend_from_slice(bytes).unwrap();
}

/// Appends the digits of bytes for which there is room, each written straight to its place.
pub fn push_digits(text: &mut Vec<u8>, bytes: &[u8])
    requires { vec_len text.old + 2 * length bytes.now ≤ vec_capacity text.old }
    ensures items { text.new.items ≡ text.old.items ++ encode_lower bytes.now }
    ensures len { vec_len text.new ≡ vec_len text.old + 2 * length bytes.now }
    ensures capacity { vec_capacity text.old ≤ vec_capacity text.new }
{
    let start = text.len();
    text.resize(start + 2 * bytes.len(), b'0').unwrap();
    let (_, digits) = text.as_mut_slice().split_at_mut(start);
    encode_into(bytes, digits);
}

/// Appends a space and a number.
pub fn push_number(text: &mut Vec<u8>, number: u32)
    requires { vec_len text.old + 11 ≤ vec_capacity text.old }
    ensures items { text.new.items ≡ text.old.items ++ (32 ∷ decimal number) }
    ensures len { vec_len text.new ≤ vec_len text.old + 11 }
    ensures capacity { vec_capacity text.old ≤ vec_capacity text.new }
{
    push_bytes(text, b" ");
    push_bytes(text, Buffer::new().format(number).as_bytes());
}
