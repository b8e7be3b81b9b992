//! What an engine is asked for: where calls begin, and what is written of them.
ghost use Rattle.std.specs.Prelude.{◌≡◌};
ghost use Rattle.kc_texts.specs.Orders.{names_trace, names_start};

use kc_remarks::Remarks;

/// What the first source of an engine holds: where the calls begin.
#[derive(Clone, Copy, Debug, PartialEq, Eq)]
pub enum Origin {
    /// A configuration: they begin in its boot state.
    Boot,
    /// The text of the state that they begin in.
    State,
}

/// What is written of a replay.
#[derive(Clone, Copy, Debug, PartialEq, Eq)]
pub enum ReplayForm {
    /// The replies, a line each.
    Replies,
    /// Each call with its reply and the number of its line: one JSON object (RFC 8259) on each line.
    Lines,
    /// The dump of the core that the trace leaves.
    Dump,
    /// The text of the state that it leaves.
    State,
}

/// What is written of what happened.
#[derive(Clone, Copy, Debug, PartialEq, Eq)]
pub enum CustodyForm {
    /// Every change of a frame or slot, a line each, and what else is asked for of the calls.
    Changes(Remarks),
    /// Each life of a VM, a line each: first those that are under way before the first call, as if they had begun on
    /// the header's line.
    Summary,
    /// A picture, SVG 1.1.
    Picture,
    /// A page for a browser, which has in it what `Changes` gives, with what was refused and served.
    Html,
}

/// What the first line names by SHA-256 digests in which nothing is that guests wrote: a trace by that of its redacted
/// calls, as a witness publishes it, a configuration by that of its text, and a state by that of the blank state.
#[derive(Clone, Copy, Debug, PartialEq, Eq)]
pub enum Named {
    /// None.
    Nothing,
    /// The trace; calls begin with the default configuration, which is named as that.
    Trace,
    /// The trace, and the configuration or the state that calls begin with.
    Both,
}

impl Named {
    /// Whether the trace is named by its digest.
    pub fn names_trace(self) -> bool
        ensures { result ≡ names_trace self }
    {
        match self {
            Named::Nothing => false,
            Named::Trace | Named::Both => true,
        }
    }

    /// Whether what calls begin with is named by its digest.
    pub fn names_start(self) -> bool
        ensures { result ≡ names_start self }
    {
        match self {
            Named::Nothing | Named::Trace => false,
            Named::Both => true,
        }
    }
}

/// What is reported, in any form.
#[derive(Clone, Copy, Debug, PartialEq, Eq)]
pub struct Scope {
    /// The slot whose VM alone is reported, if one is named.
    pub vm: Option<u32>,
    /// Whether the machine's own reads and writes are not in the trace, so that none is reported.
    pub is_unseen: bool,
    /// Which texts are named.
    pub named: Named,
}
