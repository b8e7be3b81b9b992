//! The headers of traces, and what one of header 3 says: which machine its calls are made on, and where in a history
//! they come.
ghost use Rattle.std.specs.Prelude.{◌≡◌, ◌≤◌, IfOk};
ghost use Rattle.kc_trace.specs.Header.{has_head, is_host_redacted, host_redacted, first_call_line};
ghost use Rattle.kc_trace.specs.Expected.{head_number};

use kc_types::{Config, Memory};
use std::alloc::Global;

/// Where in a history a trace comes: which of its volumes it is.
#[derive(Clone, Copy, Debug, PartialEq, Eq)]
pub enum Position {
    /// The first volume.
    First,
    /// A later volume: its number, from 2 on, and the SHA-256 digest (FIPS 180-4) of the redacted text of the volume
    /// before it.
    Later { number: u32, after: [u8; 32] },
}

/// What the head of a trace says.
#[derive(Debug, Drop, PartialEq)]
pub struct Head {
    /// The machine that the calls are made on.
    pub config: Config,
    pub position: Position,
    /// Whether the trace lacks the bytes that the host wrote to pages of active VMs. Its digest is then not the one that
    /// the head of the next volume has, which is that of the redacted trace with these bytes.
    pub is_host_redacted: bool,
}

impl Head {
    /// Makes a copy; `Memory` if memory runs out.
    pub fn copy(&self) -> Result<Head, Memory>
        // No clause can rule out that memory runs out: a test reads a trace in pieces.
        ensures { IfOk result (λ made. made ≡ self.now) }
    {
        Ok(Head {
            config: self.config.copy()?,
            position: self.position,
            is_host_redacted: self.is_host_redacted,
        })
    }
}

/// The header of a trace, which says which calls may come in it.
#[derive(Debug, Drop, PartialEq)]
pub enum Header {
    /// `kcore-trace 1`: all calls but those on ranges of guest frames.
    One,
    /// `kcore-trace 2`: all calls.
    Two,
    /// `kcore-trace 3` and a head: all calls.
    Three(Head),
}

impl Header {
    /// Makes a copy; `Memory` if memory runs out.
    pub fn copy(&self) -> Result<Header, Memory>
        // No clause can rule out that memory runs out: a test reads a trace in pieces.
        ensures { IfOk result (λ made. made ≡ self.now) }
    {
        match self {
            Header::One => Ok(Header::One),
            Header::Two => Ok(Header::Two),
            Header::Three(head) => Ok(Header::Three(head.copy()?)),
        }
    }

    /// Whether it has a head.
    pub fn has_head(&self) -> bool
        ensures { result ≡ has_head self.now }
    {
        matches!(self, Header::Three(_))
    }

    /// Whether it has a head that says that the trace lacks bytes that the host wrote.
    pub fn is_host_redacted(&self) -> bool
        ensures { result ≡ is_host_redacted self.now }
    {
        match self {
            Header::Three(head) => head.is_host_redacted,
            _ => false,
        }
    }

    /// The header of the same trace without the bytes that the host wrote to pages of active VMs: a head says that.
    pub fn host_redacted(self) -> Header
        ensures { result ≡ host_redacted self }
    {
        match self {
            Header::Three(head) => {
                let Head {
                    config,
                    position,
                    is_host_redacted: _,
                } = head;
                Header::Three(Head {
                    config,
                    position,
                    is_host_redacted: true,
                })
            },
            header => header,
        }
    }

    /// The number of the volume, counted from 1, if it has a head.
    pub fn number(&self) -> Option<u32>
        ensures { result ≡ head_number self.now }
    {
        match self {
            Header::Three(head) => Some(head.position.number()),
            _ => None,
        }
    }

    /// The number of the line of the first call, counted from 1: 2, or 4 more than digests are approved.
    pub fn first_call_line(&self) -> u32
        ensures value { result ≡ first_call_line self.now }
        ensures few { result ≤ 68 }
    {
        match self {
            Header::One => 2,
            Header::Two => 2,
            Header::Three(head) => 4 + head.config.approved().len() as u32,
        }
    }
}
