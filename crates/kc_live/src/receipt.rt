//! What is kept of a call.

use kc_types::{Call, Reply};

/// One call of a history, and what it was answered.
#[derive(Debug, Drop, PartialEq)]
pub struct Entry {
    pub call: Call,
    pub reply: Reply,
}

/// What the caller of a live call keeps of it. It is a plain value, which anyone can make: whether it is one of a
/// history is decided by `settle`.
#[derive(Debug, Drop, PartialEq)]
pub struct Receipt {
    /// The number of the volume that the call is in, from 0.
    pub volume: u64,
    /// The place of the call in that volume, from 0.
    pub number: u32,
    pub call: Call,
    pub reply: Reply,
}
