//! What the tests share.
use kc_trace::read_trace;
use kc_types::{Call, Config};
use std::alloc::Global;

/// The SHA-256 digest of `abc`, from the examples of FIPS 180-4.
const ABC: [u8; 32] = [
    0xba, 0x78, 0x16, 0xbf, 0x8f, 0x01, 0xcf, 0xea, 0x41, 0x41, 0x40, 0xde, 0x5d, 0xae, 0x22, 0x23,
    0xb0, 0x03, 0x61, 0xa3, 0x96, 0x17, 0x7a, 0x9c, 0xb4, 0x10, 0xff, 0x61, 0xf2, 0x00, 0x15, 0xad,
];

/// Six calls: 0, 1, 3 and 5 share nothing, and 2 and 4 come after some of these.
pub const TWO_WAVES: &str = "hfault 1\nhfault 2\nhwrite 1 0 aa\ntake\nhfault 5\nhfault 3\n";

/// Makes a configuration of 8 frames: 0 is the core's, 1 to 4 are the host's, 5 to 7 are free. Each VM has one leaf,
/// and images of `abc` may run.
pub fn small_config(alloc: Global) -> Option<Config> {
    let approved = Vec::from_slice(alloc, &[ABC]).ok()?;
    Config::try_new(8, 1, 4, 1, approved).ok()
}

/// Reads the calls of a trace.
fn calls_of_trace(alloc: Global, trace: &[u8]) -> Option<Vec<Call>> {
    read_trace(alloc, trace).ok()
}

/// Reads the calls of a trace given without its header.
pub fn calls_of(alloc: Global, lines: &str) -> Option<Vec<Call>> {
    let mut trace = Vec::from_slice(alloc, b"kcore-trace 1\n").ok()?;
    trace.extend_from_slice(lines.as_bytes()).ok()?;
    calls_of_trace(alloc, trace.as_slice())
}
