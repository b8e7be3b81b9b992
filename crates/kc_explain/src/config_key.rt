//! Which key of a configuration is wrong.
use crate::masked::Shortened;
use crate::trace_line::is_among;
use hex::FromHex;
use serde_json::Value;
use serde_json::error::Category;
use std::alloc::Global;
use std::io::Eprint;

const KEYS: [&str; 6] = ["frames", "core", "host", "leaves", "approved", "version"];

/// Says what is wrong with the number under a key, and returns whether something is.
fn explain_number<P: Eprint>(to: &P, value: &Value, key: &str) -> bool {
    let Some(found) = value.get(key) else {
        let _ = eprintln!(to; "  the key {key} is missing");
        return true;
    };
    match found.as_u64() {
        Some(number) => {
            if u32::try_from(number).is_ok() {
                return false;
            }
        },
        None => {},
    }
    let _ = eprintln!(to; "  {key} is not a whole number from 0 to 4294967295");
    true
}

fn is_digest(value: &Value) -> bool {
    match value.as_str() {
        Some(text) => <[u8; 32] as FromHex>::from_hex(text).is_ok(),
        None => false,
    }
}

/// Does the same for the approved digests.
fn explain_digests<P: Eprint>(to: &P, value: &Value) -> bool {
    let Some(found) = value.get("approved") else {
        let _ = eprintln!(to; "  the key approved is missing");
        return true;
    };
    let Some(digests) = found.as_array() else {
        let _ = eprintln!(to; "  approved is not a list");
        return true;
    };
    let mut place = 0usize;
    for digest in digests {
        place = place.saturating_add(1);
        if !is_digest(digest) {
            let _ = eprintln!(to;
                "  entry {place} of approved is not a text of 64 hexadecimal digits"
            );
            return true;
        }
    }
    false
}

/// Does the same for the version, if there is one.
fn explain_version<P: Eprint>(to: &P, value: &Value) -> bool {
    match value.get("version") {
        Some(version) => match version.as_u64() {
            Some(1) | Some(2) | Some(3) => false,
            _ => {
                let _ = to.eprintln("  version is not 1, 2 or 3");
                true
            },
        },
        None => false,
    }
}

/// Does the same for keys that no configuration has.
fn explain_keys<P: Eprint>(to: &P, value: &Value) -> bool {
    let Some(members) = value.as_object() else {
        let _ = to.eprintln("  it is not an object");
        return true;
    };
    for key in members.keys() {
        let name = key.as_str().as_bytes();
        if !is_among(name, &KEYS) {
            let shown = Shortened(name);
            let _ = eprintln!(to; "  no key is called {shown}");
            return true;
        }
    }
    false
}

/// Says why a text is not a configuration, whatever its numbers: where it is not JSON, or which key is wrong first.
/// Nothing is said if nothing is wrong, or if memory runs out.
pub fn explain_config<P: Eprint>(alloc: Global, to: &P, text: &[u8]) {
    let value = match Value::from_slice(alloc, text) {
        Ok(value) => value,
        Err(error) => {
            if error.classify() != Category::Memory {
                let (line, column) = (error.line(), error.column());
                let _ = eprintln!(to; "  not JSON from line {line}, column {column} on");
            }
            return;
        },
    };
    let _ = explain_keys(to, &value)
        || explain_number(to, &value, "frames")
        || explain_number(to, &value, "core")
        || explain_number(to, &value, "host")
        || explain_number(to, &value, "leaves")
        || explain_digests(to, &value)
        || explain_version(to, &value);
}
