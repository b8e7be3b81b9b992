//! Calls as a redacted trace has them.
ghost use Rattle.std.specs.Prelude.{◌≡◌, ◌++◌, ◌∷◌, []};
ghost use Rattle.kc_trace.specs.Spelling.{line_of};
ghost use Rattle.kc_redact.specs.Redacted.{redacted_call};
ghost use Rattle.kc_redact_text.specs.Kept.{blanked_call};

use kc_redact::{Target, Written, push_redacted, push_written};
use kc_texts::Line;
use kc_types::Call;
use std::marker::Model;

/// What is kept of a call.
#[derive(Debug, Drop)]
enum Kept {
    Written(Written),
    Whole(Call),
}

/// A call of a redacted trace. It keeps only the number of the bytes that it writes and that are not shown.
#[derive(Debug, Drop)]
pub struct RedactedCall {
    kept: Kept,
}

impl Model for RedactedCall {
    ghost use Rattle.kc_types.specs.declared.call.Call.{Call};
    ghost use Rattle.kc_redact_text.specs.Kept.{kept_call, IsKept};

    ghost Value = { Call };

    ghost view = { λ call. kept_call call.kept };

    ghost invariant = { λ call. IsKept call.kept };
}

impl RedactedCall {
    /// Redacts a call: it has zeros in place of the bytes that a virtual processor writes. The memory of those is
    /// zeroed.
    pub fn new(call: Call) -> RedactedCall
        ensures { result ≡ redacted_call call }
    {
        match call {
            Call::GuestWrite {
                vm,
                vcpu,
                gfn,
                offset,
                data,
            } => RedactedCall {
                kept: Kept::Written(Written {
                    target: Target::Guest { vm, vcpu, gfn },
                    offset,
                    len: data.as_slice().len(),
                }),
            },
            call => RedactedCall {
                kept: Kept::Whole(call),
            },
        }
    }

    /// Redacts a call: it has zeros in place of the bytes that it writes, even if the host writes them. The memory of
    /// those is zeroed.
    pub fn blanked(call: Call) -> RedactedCall
        ensures { result ≡ blanked_call call }
    {
        match call {
            Call::HostWrite {
                frame,
                offset,
                data,
            } => RedactedCall {
                kept: Kept::Written(Written {
                    target: Target::Host { frame },
                    offset,
                    len: data.as_slice().len(),
                }),
            },
            call => RedactedCall::new(call),
        }
    }
}

impl Line for RedactedCall {
    ghost line = { λ call. line_of call ++ 10 ∷ [] };

    fn push(&self, text: &mut Vec<u8>) {
        match &self.kept {
            Kept::Written(written) => push_written(text, *written),
            Kept::Whole(call) => push_redacted(text, call),
        }
    }
}
