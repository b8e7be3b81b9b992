//! The digest of a redacted trace as it grows.
ghost use Rattle.std.specs.Prelude.{◌≡◌, ◌≤◌, ◌+◌, ◌++◌, ◌∷◌, [], List, vec_len, vec_capacity, IfOk};
ghost use Rattle.sha2.specs.Sha256.{sha256};
ghost use Rattle.kc_types.specs.declared.call.Call.{Call};
ghost use Rattle.kc_trace.specs.declared.header.Header.{Header};
ghost use Rattle.kc_trace.specs.Header.{trace_header};
ghost use Rattle.kc_trace.specs.Spelling.{longest_call};
ghost use Rattle.kc_redact.specs.Witness.{witness_header, witnessed, HasSeen};

use crate::redacting::push_redacted;
use kc_trace::{Header, LONGEST_CALL, push_header};
use kc_types::{Call, Memory};
use sha2::{Digest, Sha256};
use std::alloc::Global;
use std::marker::Model;

/// Appends the header that a trace with this header is witnessed under, for which there is room.
fn push_witness_header(text: &mut Vec<u8>, header: &Header)
    requires { vec_len text.old + longest_call ≤ vec_capacity text.old }
    ensures line { text.new.items ≡ text.old.items ++ trace_header (witness_header header.now) }
    ensures capacity { vec_capacity text.old ≤ vec_capacity text.new }
{
    match header {
        Header::One | Header::Two => push_header(text, &Header::Two),
        Header::Three(_) => push_header(text, header),
    }
}

/// The SHA-256 digest of a trace as it grows, without the bytes that virtual processors write. A trace of header 3 is
/// hashed with its own header and head; one of header 1 or 2 is hashed after header 2, so that a call on a range may
/// still come.
#[derive(Drop)]
pub struct Witness {
    hasher: Sha256,
    /// Room for the longest line.
    line: Vec<u8>,
}

impl Model for Witness {
    ghost use Rattle.std.specs.Prelude.{◌≤◌, vec_capacity};
    ghost use Rattle.sha2.specs.declared.Sha256.{Sha256};
    ghost use Rattle.kc_trace.specs.Spelling.{longest_call};

    ghost Value = { Sha256 };

    ghost view = { λ w. w.hasher };

    ghost invariant = { λ w. longest_call ≤ vec_capacity w.line };
}

impl Witness {
    /// Makes the witness of a trace with this header and no calls; `Memory` if memory runs out.
    pub fn new(alloc: Global, header: &Header) -> Result<Witness, Memory>
        // No clause can rule out that memory runs out: tests ask for digests.
        ensures { IfOk result (λ witness. HasSeen witness header.now []) }
    {
        let mut witness = Witness {
            hasher: Sha256::new(),
            line: Vec::with_capacity(alloc, LONGEST_CALL)?,
        };
        witness.restart(header);
        Ok(witness)
    }

    /// Adds a call. It takes no memory.
    pub fn note(&mut self, call: &Call)
        ensures { (header : Header) (calls : List Call) → HasSeen self.old header calls
            → HasSeen self.new header (calls ++ call.now ∷ []) }
    {
        self.line.clear();
        push_redacted(&mut self.line, call);
        self.hasher.update(self.line.as_slice());
    }

    /// Returns the digest of the redacted trace so far, as `sha256sum` prints it for that trace.
    pub fn digest(&self) -> [u8; 32]
        ensures { (header : Header) (calls : List Call) → HasSeen self.now header calls
            → result ≡ sha256 (witnessed header calls) }
    {
        let hasher = self.hasher.clone().unwrap();
        hasher.finalize()
    }

    /// Starts again with a trace with this header and no calls. It takes no memory.
    pub fn restart(&mut self, header: &Header)
        ensures { HasSeen self.new header.now [] }
    {
        self.line.clear();
        push_witness_header(&mut self.line, header);
        self.hasher = Sha256::new();
        self.hasher.update(self.line.as_slice());
    }
}
