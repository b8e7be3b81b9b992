//! Reading the JSON value of a configuration's text. No more of it is kept than a configuration can hold, so any text
//! takes memory of a few times its length.
ghost use Rattle.std.specs.Prelude.{◌≡◌, ◌<◌, ◌==◌, length, slice_index, Some, None, IfOk, IfErr, OnOk, IsTrue, true, false, option_map};
ghost use Rattle.json.specs.Json.{value, items, members};
ghost use Rattle.serde_json.specs.Data.{Data, Items, Members, number, string, no_members, put};
ghost use Rattle.serde_json.specs.Read.{of_json, of_items, of_members, converted, number_of, number_from, float_of, read as read_text};
ghost use Rattle.serde_json.specs.View.{view, items_view, members_view};
ghost use Rattle.kc_config_text.specs.ConfigText.{digests_in, shape_in, value_in};
ghost use Rattle.kc_config_text.specs.ConfigValue.{kept_number, IsAlike, Keeps, KeepsItem, KeepsMembers, NotRead};

use crate::config_text::ConfigTextFault;
use fast_float::Numeral;
use hex::FromHex;
use json::{Reader, Scratch, Token};
use serde_json::{Map, Value};
use std::alloc::{AllocError, Global};

/// How deep arrays and objects may nest.
const MAX_DEPTH: usize = 127;

/// The most members of a configuration. One more member of an object is kept, which shows that it is not one.
const MOST_MEMBERS: usize = 6;

fn has_minus(bytes: &[u8]) -> bool
    ensures value { result ≡ (slice_index bytes.now 0 == 45) }
    ensures len { IsTrue result → 0 < length bytes.now }
{
    !bytes.is_empty() && bytes[0] == b'-'
}

/// Keeps nothing of a number that is not a whole number of 64 bits. `None` if it is past a float's range.
fn keep_float(negative: bool, numeral: &Numeral<'_>) -> Option<Value>
    ensures { option_map view result ≡ option_map kept_number (float_of negative numeral.now) }
{
    if numeral.to_float::<f64>(negative).is_finite() {
        Some(Value::Null)
    } else {
        None
    }
}

fn keep_unsigned(numeral: &Numeral<'_>) -> Option<Value>
    ensures { option_map view result ≡ option_map kept_number (number_from false numeral.now) }
{
    match numeral.to_u64() {
        Some(n) => Some(Value::from(n)),
        None => keep_float(false, numeral),
    }
}

fn keep_negative(numeral: &Numeral<'_>) -> Option<Value>
    ensures { option_map view result ≡ option_map kept_number (number_from true numeral.now) }
{
    if let Some(n) = numeral.to_i64(true) {
        if n < 0 {
            return Some(Value::Null);
        }
    }
    keep_float(true, numeral)
}

// Functions that use much stack are not inlined, since arrays and objects nest deeply.

/// Keeps the number that a token spells if it is a whole number of 64 bits. `None` if it is past a float's range.
#[inline(never)]
fn keep_number(text: &str) -> Option<Value>
    ensures { option_map view result ≡ option_map kept_number (number_of text.now) }
{
    let bytes = text.as_bytes();
    if has_minus(bytes) {
        keep_negative(&Numeral::scan(&bytes[1..]))
    } else {
        keep_unsigned(&Numeral::scan(bytes))
    }
}

/// Keeps a text that spells a digest.
#[inline(never)]
fn keep_text(alloc: Global, text: &str) -> Result<Value, AllocError>
    ensures { IfOk result (λ kept. Keeps (view kept) (string text.now)) }
{
    if <[u8; 32] as FromHex>::from_hex(text).is_err() {
        return Ok(Value::Null);
    }
    Ok(Value::String(String::from_str(alloc, text)?))
}

/// Keeps a value under a key, unless it is an object, so that what is kept does not branch.
fn keep_inner(value: Value) -> Value
    // This is true of the value itself too: how little is kept is only a matter of memory.
    ensures { IsAlike (view result) (view value) }
{
    match value {
        Value::Object(_) => Value::Null,
        other => other,
    }
}

/// Keeps an item if all items before it are digests; of an item that is not one, only that it is there. Returns whether
/// all are digests.
#[inline(never)]
fn keep_item(found: &mut Vec<Value>, are_digests: bool, item: Value) -> Result<bool, AllocError>
    ensures { IfOk result (λ are. KeepsItem are_digests found.old.items (view item) are found.new.items) }
{
    if !are_digests {
        return Ok(false);
    }
    if !item.is_string() {
        found.push(Value::Null)?;
        return Ok(false);
    }
    found.push(item)?;
    Ok(true)
}

/// Keeps a member, unless there are too many for a configuration.
#[inline(never)]
fn keep_member(
    alloc: Global,
    found: &mut Map<String, Value>,
    name: &str,
    member: Value,
) -> Result<(), AllocError>
    ensures { OnOk result ((ms : Members) (d : Data) → KeepsMembers (members_view found.old.entries) ms
        → IsAlike (view member) d → KeepsMembers (members_view found.new.entries) (put name.now d ms)) }
{
    if found.len() > MOST_MEMBERS {
        return Ok(());
    }
    let key = String::from_str(alloc, name)?;
    drop(found.insert(key, keep_inner(member))?);
    Ok(())
}

/// Reads the next value. `NotJson` if there is none, or if arrays and objects nest deeper.
#[cycle(read)]
fn read(alloc: Global, reader: &mut Reader<'_>, depth: usize) -> Result<Value, ConfigTextFault>
    ensures ok { IfOk result (λ kept. (d : Data)
        × (converted of_json (value depth reader.old) ≡ Some (d, reader.new)) × Keeps (view kept) d) }
    ensures shorter { OnOk result (length reader.new < length reader.old) }
    ensures err { IfErr result (λ fault. NotRead fault (converted of_json (value depth reader.old))) }
{
    let token = reader.next().ok_or(ConfigTextFault::NotJson)?;
    match token {
        Token::String(text) => Ok(keep_text(alloc, text)?),
        Token::Number(text) => match keep_number(text) {
            Some(kept) => Ok(kept),
            None => Err(ConfigTextFault::NotJson),
        },
        Token::Bool(_) => Ok(Value::Null),
        Token::Null => Ok(Value::Null),
        Token::EndObject | Token::EndArray | Token::Key(_) | Token::Bad => {
            Err(ConfigTextFault::NotJson)
        },
        Token::BeginArray => {
            if depth == 0 {
                return Err(ConfigTextFault::NotJson);
            }
            Ok(Value::Array(read_items(alloc, reader, depth - 1)?))
        },
        Token::BeginObject => {
            if depth == 0 {
                return Err(ConfigTextFault::NotJson);
            }
            Ok(Value::Object(read_members(alloc, reader, depth - 1)?))
        },
    }
}

/// Reads the items of an array up to the first that is not a digest, and passes over the others.
#[cycle(read)]
fn read_items(
    alloc: Global,
    reader: &mut Reader<'_>,
    depth: usize,
) -> Result<Vec<Value>, ConfigTextFault>
    ensures ok { IfOk result (λ found. (ds : Items)
        × (converted of_items (items (value depth) (length reader.old) reader.old) ≡ Some (ds, reader.new))
        × (digests_in (items_view found.items) ≡ digests_in ds)) }
    ensures shorter { OnOk result (length reader.new < length reader.old) }
    ensures err { IfErr result (λ fault.
        NotRead fault (converted of_items (items (value depth) (length reader.old) reader.old))) }
{
    let mut found = Vec::new(alloc);
    let mut are_digests = true;
    'items: while !reader.take_end_array() {
        let item = read(alloc, reader, depth)?;
        are_digests = keep_item(&mut found, are_digests, item)?;
    }
    Ok(found)
}

/// Reads the members of an object, or as many as show that it is not a configuration, and passes over the others.
#[cycle(read)]
fn read_members(
    alloc: Global,
    reader: &mut Reader<'_>,
    depth: usize,
) -> Result<Map<String, Value>, ConfigTextFault>
    ensures ok { IfOk result (λ found. (ms : Members)
        × (converted (λ js. of_members js no_members) (members (value depth) (length reader.old) reader.old)
        ≡ Some (ms, reader.new))
        × KeepsMembers (members_view found.entries) ms) }
    ensures shorter { OnOk result (length reader.new < length reader.old) }
    ensures err { IfErr result (λ fault. NotRead fault
        (converted (λ js. of_members js no_members) (members (value depth) (length reader.old) reader.old))) }
{
    let mut found = Map::new(alloc);
    'members: while let Some(name) = reader.next_key()? {
        let member = read(alloc, reader, depth)?;
        keep_member(alloc, &mut found, name, member)?;
    }
    Ok(found)
}

/// Reads the value that a whole text is.
fn read_text(alloc: Global, text: &str, scratch: &mut Scratch) -> Result<Value, ConfigTextFault>
    ensures ok { IfOk result (λ kept. option_map shape_in (read_text text.now) ≡ Some (shape_in (view kept))) }
    ensures err { IfErr result (λ fault. NotRead fault (read_text text.now)) }
{
    let mut reader = Reader::new(text, scratch)?;
    let kept = read(alloc, &mut reader, MAX_DEPTH)?;
    if reader.next().is_some() {
        return Err(ConfigTextFault::NotJson);
    }
    Ok(kept)
}

/// Reads the value that bytes are, and keeps what a configuration needs. `NotJson` if they are not a value.
pub(crate) fn read_value(alloc: Global, bytes: &[u8]) -> Result<Value, ConfigTextFault>
    ensures ok { IfOk result (λ kept. option_map shape_in (value_in bytes.now) ≡ Some (shape_in (view kept))) }
    ensures err { IfErr result (λ fault. NotRead fault (value_in bytes.now)) }
{
    let Ok(text) = std::str::from_utf8(bytes) else {
        return Err(ConfigTextFault::NotJson);
    };
    let mut scratch = Scratch::new(alloc);
    read_text(alloc, text, &mut scratch)
}
