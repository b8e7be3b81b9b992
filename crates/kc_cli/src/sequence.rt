//! The volumes that were read one after another: which ones they are, and which header the next one may have.
ghost use Rattle.std.specs.Prelude.{◌≡◌, ◌≢◌, ◌<◌, ◌≤◌, ◌+◌, ◌^◌, [], length, true, Err, IfErr, OnOk};
ghost use Rattle.kc_model.specs.Custody.{first_line};
ghost use Rattle.kc_trace.specs.declared.expected.HeaderFault.{HeaderFault as AFault};
ghost use Rattle.kc_trace.specs.declared.fault.TraceFault.{TraceFault as Fault};
ghost use Rattle.kc_trace.specs.Expected.{IsHeaderFault};
ghost use Rattle.kc_cli.specs.Traced.{Traced, trace_named, digest_if};
ghost use Rattle.kc_cli.specs.Engine.{IsReplayFault};
ghost use Rattle.kc_cli.specs.Custody.{listed, numbers_in, lacks_digest, order_by, chain_of};
ghost use Rattle.kc_cli.specs.Volumes.{IsAdded};

use crate::account::FIRST_LINE;
use crate::telling::Volume;
use kc_faults::TextFault;
use kc_trace::{Chain, Expected, Order, TraceFault, VolumeEntry, VolumeNumbers};
use kc_types::Config;
use std::alloc::Global;

/// How many calls the volumes before another one may have: 1,023 times 65,536, so that all lines have numbers of 32
/// bits.
pub const CALLS_BEFORE: u32 = 67_043_328;

/// The digest by which a volume is named, if it is, of the digest that it may have for another reason.
fn digest_named(digest: Option<[u8; 32]>, is_named: bool) -> Option<[u8; 32]>
    ensures { (volume : Traced) → (is_named ≡ true → digest ≡ digest_if true volume)
        → result ≡ trace_named is_named volume }
{
    if is_named { digest } else { None }
}

/// The numbers of the first and the last volume, if they have heads.
fn numbers_in(entries: &[VolumeEntry]) -> Option<VolumeNumbers>
    ensures { result ≡ numbers_in entries.now }
{
    let (first, last) = (entries.first()?, entries.last()?);
    Some(VolumeNumbers {
        first: first.number?,
        last: last.number?,
    })
}

/// Whether a volume that another one follows lacks bytes that the host wrote.
fn lacks_digest(entries: &[VolumeEntry]) -> bool
    ensures { result ≡ lacks_digest entries.now }
{
    let mut rest = entries;
    while let [entry, after @ ..] = rest {
        if entry.is_host_redacted && !after.is_empty() {
            return true;
        }
        rest = after;
    }
    false
}

/// By what it was judged that each volume follows the one before it.
fn order_of(entries: &[VolumeEntry]) -> Order
    ensures { result ≡ order_by (lacks_digest entries.now) (numbers_in entries.now) }
{
    match numbers_in(entries) {
        None => Order::NotJudged,
        Some(numbers) => {
            if lacks_digest(entries) {
                Order::Numbers(numbers)
            } else {
                Order::Digests(numbers)
            }
        },
    }
}

/// The volumes that are named on lines of their own: none if there is only one.
fn listed(alloc: Global, entries: Vec<VolumeEntry>) -> Vec<VolumeEntry>
    ensures { result.items ≡ listed entries.items }
{
    if entries.len() == 1 {
        return Vec::new(alloc);
    }
    entries
}

/// Which volumes these are, and those that are named on lines of their own.
pub(crate) fn chain_of(alloc: Global, entries: Vec<VolumeEntry>) -> (Chain, Vec<VolumeEntry>)
    requires few { length entries.items < 2 ^ 32 }
    ensures chain { result.0 ≡ chain_of entries.items }
    ensures volumes { result.1.items ≡ listed entries.items }
{
    let order = order_of(entries.as_slice());
    let volumes = listed(alloc, entries);
    let chain = Chain {
        count: volumes.len() as u32,
        order,
    };
    (chain, volumes)
}

/// The volumes that were read one after another, and which header the next one may have.
#[derive(Drop)]
pub(crate) struct Sequence {
    /// A volume for each trace that was read.
    pub entries: Vec<VolumeEntry>,
    /// Which header the first trace may have, and which the next.
    pub first: Expected,
    pub next: Expected,
}

impl Sequence {
    /// No volumes yet, of which the first may have this header.
    pub(crate) fn new(alloc: Global, first: Expected) -> Sequence
        ensures none { result.entries.items ≡ [] }
        ensures first { result.first ≡ first }
        ensures next { result.next ≡ first }
    {
        Sequence {
            entries: Vec::new(alloc),
            first,
            next: first,
        }
    }

    /// Judges whether one volume more may be read, whose first call has this line.
    pub(crate) fn has_room(&self, line: u32) -> Result<(), TextFault>
        ensures ok { OnOk result ((line ≤ first_line + CALLS_BEFORE) × (length self.now.entries.items + 1 < 2 ^ 32)) }
        ensures full { (fault : Fault) → result ≡ Err (TextFault.Trace fault)
            → (fault ≡ TraceFault.TooManyCalls) × (first_line + CALLS_BEFORE < line) }
        ensures read { result ≢ Err TextFault.Read }
        ensures started { result ≢ Err TextFault.Start }
        ensures fault { IfErr result IsReplayFault }
    {
        if line > FIRST_LINE + CALLS_BEFORE {
            return Err(TextFault::Trace(TraceFault::TooManyCalls));
        }
        // (more volumes could not be counted, nor would their list have room)
        if self.entries.len() >= u32::MAX as usize {
            return Err(TextFault::Memory);
        }
        Ok(())
    }

    /// Adds a volume that was read on this machine, with this many calls from this line on, unless its header may not
    /// come there.
    pub(crate) fn add(
        &mut self,
        config: &Config,
        volume: Volume,
        line: u32,
        calls: u32,
        is_named: bool,
    ) -> Result<(), TextFault>
        requires { length self.old.entries.items + 1 < 2 ^ 32 }
        ensures ok { OnOk result
            (IsAdded is_named config.now self.old self.new volume.header volume.digest line calls) }
        ensures trace { (fault : Fault) → result ≡ Err (TextFault.Trace fault)
            → (wrong : AFault) × (fault ≡ TraceFault.Misplaced wrong)
            × IsHeaderFault config.now self.old.next volume.header wrong }
        ensures first { self.new.first ≡ self.old.first }
        ensures read { result ≢ Err TextFault.Read }
        ensures started { result ≢ Err TextFault.Start }
        ensures fault { IfErr result IsReplayFault }
    {
        let Volume { header, digest } = volume;
        if let Some(wrong) = self.next.fault(config, &header) {
            return Err(TextFault::Trace(TraceFault::Misplaced(wrong)));
        }
        self.next = Expected::after(&header, digest);
        let entry = VolumeEntry {
            line,
            calls,
            number: header.number(),
            is_host_redacted: header.is_host_redacted(),
            digest: digest_named(digest, is_named),
        };
        match self.entries.push(entry) {
            Ok(()) => Ok(()),
            Err(_) => Err(TextFault::Memory),
        }
    }
}
