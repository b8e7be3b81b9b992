//! A core, and the calls of one volume with their replies, the header of their trace and their digest.
ghost use Rattle.std.specs.List.{AllByRecursion};
ghost use Rattle.std.specs.Prelude.{◌≡◌, ◌<◌, ◌≤◌, ◌↔◌, ◌++◌, [], List, length, vec_capacity, Some, IsErr, IfOk, IfErr, OnOk, OnErr};
ghost use Rattle.kc_types.specs.Limits.{call_limit, digest_limit};
ghost use Rattle.kc_types.specs.declared.call.Call.{Call};
ghost use Rattle.kc_model.specs.Lawful.{IsLawful};
ghost use Rattle.kc_model.specs.Volumes.{IsDigest};
ghost use Rattle.kc_trace.specs.declared.header.Header.{Header};
ghost use Rattle.kc_trace.specs.Expected.{position_after};
ghost use Rattle.kc_redact.specs.Witness.{HasSeen};
ghost use Rattle.kc_live.specs.Book.{IsServed, MayRecord, calls_of, digest_of, header_at, log, moved, new_recording, next_recording, onward, position_of, receipt_of, recorded};

use crate::fault::LiveFault;
use crate::ready::Ready;
use crate::receipt::{Entry, Receipt};
use kc_core::KCore;
use kc_redact::Witness;
use kc_trace::{Head, Header, Position};
use kc_types::{CALL_LIMIT, Config, Memory};
use std::alloc::Global;
use std::marker::Model;
use std::mem;

/// The digest of a volume so far, as it is published.
#[derive(Clone, Copy, Debug, PartialEq, Eq)]
pub struct VolumeDigest {
    /// The number of the volume, from 1: that of its head.
    pub volume: u64,
    /// How many calls it had, up to 65,536.
    pub calls: u32,
    /// The SHA-256 digest (FIPS 180-4) of the redacted trace of these calls, with its header and head.
    pub digest: [u8; 32],
}

/// Has a witness see the calls of further entries.
fn note_each(witness: &mut Witness, entries: &[Entry])
    ensures { (header : Header) (calls : List Call) → HasSeen witness.old header calls
        → HasSeen witness.new header (calls ++ calls_of entries.now) }
{
    for entry in entries {
        witness.note(&entry.call);
    }
}

/// Makes the header of the volume that goes on from a state of a machine, with this position or none; `Memory` if memory
/// runs out.
fn header_at(config: &Config, position: Option<Position>) -> Result<Header, Memory>
    ensures { IfOk result (λ header. header ≡ header_at config.now position) }
{
    match position {
        None => Ok(Header::Two),
        Some(position) => Ok(Header::Three(Head {
            config: config.copy()?,
            position,
            is_host_redacted: false,
        })),
    }
}

/// Gives the bytes of a digest: 32, as its type says.
fn bytes_of(digest: &[u8; 32]) -> &[u8]
    ensures { IsDigest digest.now }
{
    digest.as_slice()
}

/// Looks at the approved digests of a machine: each has 32 bytes.
pub(crate) fn see_digests(config: &Config)
    ensures { AllByRecursion IsDigest config.now.approved }
{
    for digest in config.approved() {
        bytes_of(digest);
    }
}

/// Copies a machine, with its approved digests in this room. No memory is taken.
fn config_in(room: Vec<[u8; 32]>, config: &Config) -> Config
    requires empty { room.items ≡ [] }
    requires room { digest_limit ≤ vec_capacity room }
    ensures { result ≡ config.now }
{
    let mut approved = room;
    for digest in config.approved() {
        approved.push_reserved(*digest);
    }
    match Config::with_version(
        config.version(),
        config.frames(),
        config.core(),
        config.host(),
        config.leaves(),
        approved,
    ) {
        Ok(config) => config,
        Err(_) => unreachable!(),
    }
}

/// Copies a header, with the approved digests of its machine in this room. No memory is taken.
pub(crate) fn header_in(room: Vec<[u8; 32]>, header: &Header) -> Header
    requires empty { room.items ≡ [] }
    requires room { digest_limit ≤ vec_capacity room }
    ensures { result ≡ header.now }
{
    match header {
        Header::One => Header::One,
        Header::Two => Header::Two,
        Header::Three(head) => Header::Three(Head {
            config: config_in(room, &head.config),
            position: head.position,
            is_host_redacted: head.is_host_redacted,
        }),
    }
}

/// Gives a header the position of another volume, or none; without a head it stays.
fn moved(header: Header, position: Option<Position>) -> Header
    ensures { result ≡ moved header position }
{
    match (header, position) {
        (Header::Three(head), Some(position)) => {
            let Head {
                config,
                position: _,
                is_host_redacted: _,
            } = head;
            Header::Three(Head {
                config,
                position,
                is_host_redacted: false,
            })
        },
        (Header::Three(_), None) => Header::Two,
        (header, _) => header,
    }
}

/// Where a volume with this header comes, if it has a head.
fn position_of(header: &Header) -> Option<Position>
    ensures { result ≡ position_of header.now }
{
    match header {
        Header::Three(head) => Some(head.position),
        _ => None,
    }
}

/// A core, the volume of its calls that is being filled, and the header of its trace. In every value of it each reply is
/// the one that a single thread gets at that point, from a lawful state on, and the core is in the state after the last
/// call.
#[derive(Drop)]
pub struct Journal {
    core: KCore,
    header: Header,
    /// The number of the volume, from 0.
    volume: u64,
    entries: Vec<Entry>,
    witness: Witness,
    /// How many calls of the volume the witness has seen.
    seen: usize,
}

impl Model for Journal {
    ghost use Rattle.std.specs.Prelude.{◌≤◌, length, take, vec_capacity};
    ghost use Rattle.std.specs.Coded.{codes, coded_ℕ};
    ghost use Rattle.std.specs.FinMap as map;
    ghost use Rattle.std.specs.Ordering.{nat_cmp};
    ghost use Rattle.kc_types.specs.Limits.{call_limit};
    ghost use Rattle.kc_redact.specs.Witness.{HasSeen};
    ghost use Rattle.kc_live.specs.Book.{Recording, IsServed, MayRecord, calls_of, log};

    ghost Value = { Recording };

    ghost coded = { Prim.hlevel (codes, map.code {R = nat_cmp} coded_ℕ coded_ℕ) };

    ghost view = { λ j. record { header = j.header; log = log j.volume j.entries.items j.core.state } };

    ghost invariant = { λ j. IsServed (log j.volume j.entries.items j.core.state) × (call_limit ≤ vec_capacity j.entries)
        × (j.seen ≤ length j.entries.items) × HasSeen j.witness j.header (calls_of (take j.seen j.entries.items)) × MayRecord j.header };
}

impl Journal {
    /// Begins the first volume of a core, which has this position or none: makes room for as many calls as there can be.
    /// `Memory` if memory runs out.
    pub fn of(alloc: Global, core: KCore, position: Option<Position>) -> Result<Journal, Memory>
        requires lawful { IsLawful core.state }
        requires header { MayRecord (header_at core.state.config position) }
        // No clause can rule out that memory runs out: tests keep journals.
        ensures { IfOk result (λ journal. journal ≡ new_recording position core.state) }
    {
        let header = header_at(core.config(), position)?;
        Ok(Journal {
            volume: 0,
            entries: Vec::with_capacity(alloc, CALL_LIMIT)?,
            witness: Witness::new(alloc, &header)?,
            seen: 0,
            header,
            core,
        })
    }

    /// Makes one call, which the volume then has with its reply. Memory cannot run out here. The one fault is
    /// `HistoryFull`, which comes exactly if the volume has 65,536 calls.
    pub fn step(&mut self, ready: Ready) -> Result<Receipt, LiveFault>
        ensures receipt { IfOk result (λ r. r ≡ receipt_of self.old.log ready) }
        ensures entry { OnOk result (self.new ≡ recorded self.old ready) }
        ensures full { IsErr result ↔ (length self.old.log.entries ≡ call_limit) }
        ensures room { OnOk result (length self.old.log.entries < call_limit) }
        ensures fault { IfErr result (λ fault. fault ≡ LiveFault.HistoryFull) }
        ensures err { OnErr result (self.new ≡ self.old) }
    {
        if self.entries.len() >= CALL_LIMIT {
            return Err(LiveFault::HistoryFull);
        }
        let number = self.entries.len() as u32;
        let (entry, receipt) = ready.make(&mut self.core, self.volume, number);
        self.entries.push_reserved(entry);
        Ok(receipt)
    }

    /// Hands out the calls of the volume with their replies, full or not, and begins the next one with the core as it is. If
    /// the volume has a head, that of the next one has the next number, and the digest of this one; after the last number,
    /// 4,294,967,295, the next volume has none. The room for its calls is made before, so that memory cannot run out here.
    pub fn turn(&mut self, room: Vec<Entry>) -> Vec<Entry>
        requires empty { room.items ≡ [] }
        requires room { call_limit ≤ vec_capacity room }
        ensures entries { result.items ≡ self.old.log.entries }
        ensures served { IsServed self.old.log }
        ensures next { self.new ≡ next_recording self.old }
    {
        let position = self.position_after();
        let header = mem::replace(&mut self.header, Header::Two);
        self.header = moved(header, position);
        self.witness.restart(&self.header);
        self.seen = 0;
        self.volume = self.volume.saturating_add(1);
        mem::replace(&mut self.entries, room)
    }

    /// Where the next volume comes, if this one has a head and not the last number. The calls since the digest was last
    /// asked are hashed then.
    fn position_after(&mut self) -> Option<Position>
        ensures value { result ≡ position_after self.old.header (Some (digest_of self.old)) }
        ensures same { self.new ≡ self.old }
    {
        if !self.header.has_head() {
            return None;
        }
        let digest = self.digest();
        Position::after(&self.header, Some(digest))
    }

    /// Where the volume comes that goes on from the state that the core is in, if it has a head: it is this one if it has no
    /// call yet, and otherwise the next. The calls since the digest was last asked are hashed then. No memory is taken.
    pub fn onward(&mut self) -> Option<Position>
        ensures value { result ≡ onward self.old }
        ensures same { self.new ≡ self.old }
    {
        if self.entries.is_empty() {
            return position_of(&self.header);
        }
        self.position_after()
    }

    /// Gives the SHA-256 digest of the redacted trace of the volume's calls so far. The calls since it was last asked are hashed
    /// now. No memory is taken.
    pub fn digest(&mut self) -> [u8; 32]
        ensures digest { result ≡ digest_of self.old }
        ensures short { length self.old.log.entries ≤ call_limit }
        ensures header { MayRecord self.old.header }
        ensures same { self.new ≡ self.old }
    {
        let entries = self.entries.as_slice();
        note_each(&mut self.witness, &entries[self.seen..]);
        self.seen = entries.len();
        self.witness.digest()
    }

    /// The header of the volume's trace.
    pub fn header(&self) -> &Header
        ensures value { result.now ≡ self.now.header }
        ensures header { MayRecord self.now.header }
    {
        &self.header
    }

    /// The number of the volume, from 0: how many volumes came before.
    pub fn volume(&self) -> u64
        ensures { result ≡ self.now.log.volume }
    {
        self.volume
    }

    /// The calls of the volume so far, in the order in which they were made, each with its reply.
    pub fn entries(&self) -> &[Entry]
        ensures entries { result.now ≡ self.now.log.entries }
        ensures short { length self.now.log.entries ≤ call_limit }
    {
        self.entries.as_slice()
    }

    /// The core as the calls so far left it.
    pub fn core(&self) -> &KCore
        ensures { result.now.state ≡ self.now.log.state }
    {
        &self.core
    }

    /// Ends with the volume's number, its header, its calls with their replies, and the core as they left it.
    pub fn into_parts(self) -> (u64, Header, Vec<Entry>, KCore)
        ensures header { result.1 ≡ self.header }
        ensures log { log result.0 result.2.items result.3.state ≡ self.log }
    {
        let Journal {
            core,
            header,
            volume,
            entries,
            witness: _,
            seen: _,
        } = self;
        (volume, header, entries, core)
    }
}
