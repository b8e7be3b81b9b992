//! The engine that reports what happened to each frame and slot, over any sources and any sink.
ghost use Rattle.std.specs.Prelude.{◌≡◌, ◌<◌, ◌≤◌, ◌-◌, ◌^◌, length, Some, None, IfSome};
ghost use Rattle.kc_types.specs.Configuration.{slot_count};
ghost use Rattle.kc_model.specs.Custody.{first_line};
ghost use Rattle.kc_cli.specs.Custody.{listed, trace_digest, first_number, unnamed_start};
ghost use Rattle.kc_cli.specs.Headings.{start_by, digests_by, heading_by};
ghost use Rattle.kc_cli.specs.Volumes.{custody_kind};

use crate::account::{FIRST_LINE, Subject, Told, give_told};
use crate::life::Account;
use crate::sequence::{Sequence, chain_of};
use crate::starting::{Begun, begin};
use crate::telling::Kept;
use kc_core::KCore;
use kc_digests::Lanes;
use kc_faults::TextFault;
use kc_remarks::Answered;
use kc_texts::{CustodyForm, Named, Origin, Scope, Sink, Source};
use kc_trace::{Digests, Heading, StartDigest, VolumeEntry};
use kc_types::Config;
use std::alloc::Global;
use std::sync::Wait;
use std::thread::Threads;

/// How what happened is reported.
#[derive(Clone, Copy)]
pub struct CustodyOrder {
    /// What the calls begin with.
    pub origin: Origin,
    /// What is written.
    pub form: CustodyForm,
    /// How many pages are hashed at once.
    pub lanes: Lanes,
    /// What is reported.
    pub scope: Scope,
}

/// What calls begin with if no file is named for it, by the number of the first volume, if it has a head.
fn unnamed_start(first: Option<u32>) -> StartDigest
    ensures { result ≡ unnamed_start first }
{
    match first {
        None => StartDigest::Default,
        Some(_) => StartDigest::Head,
    }
}

/// What calls begin with, by its digest, if it has one, and otherwise by the number of the first volume.
fn start_by(digest: Option<[u8; 32]>, origin: Origin, first: Option<u32>) -> StartDigest
    ensures { result ≡ start_by digest origin first }
{
    match (digest, origin) {
        (None, _) => unnamed_start(first),
        (Some(digest), Origin::Boot) => StartDigest::Config(digest),
        (Some(digest), Origin::State) => StartDigest::State(digest),
    }
}

/// The digests of what is named.
fn digests_by(
    named: Named,
    origin: Origin,
    start: Option<[u8; 32]>,
    first: Option<u32>,
    trace: Option<[u8; 32]>,
) -> Option<Digests>
    ensures { result ≡ digests_by named origin start first trace }
{
    match named {
        Named::Nothing => None,
        Named::Trace | Named::Both => Some(Digests {
            trace,
            start: start_by(start, origin, first),
        }),
    }
}

/// The digest of the one trace, if it is asked for.
fn trace_digest(entries: &[VolumeEntry]) -> Option<[u8; 32]>
    ensures { result ≡ trace_digest entries.now }
{
    match entries {
        [entry] => entry.digest,
        _ => None,
    }
}

/// The number of the first volume, if it has a head.
fn first_number(entries: &[VolumeEntry]) -> Option<u32>
    ensures { result ≡ first_number entries.now }
{
    match entries {
        [] => None,
        [entry, ..] => entry.number,
    }
}

/// What was kept of all calls, of a machine of this configuration.
fn told_of(
    alloc: Global,
    config: Config,
    kept: Kept,
    entries: Vec<VolumeEntry>,
    start: Option<[u8; 32]>,
    order: CustodyOrder,
) -> Told
    requires line { first_line ≤ kept.line }
    requires few { length entries.items < 2 ^ 32 }
    ensures config { result.subject.config ≡ config }
    ensures calls { result.subject.answered.calls ≡ kept.line - first_line }
    ensures denials { result.subject.answered.denials ≡ kept.denials }
    ensures heading { result.subject.heading ≡ heading_by order.scope order.origin start entries.items }
    ensures volumes { result.subject.volumes.items ≡ listed entries.items }
    ensures ledger { result.ledger ≡ kept.ledger }
{
    let trace = trace_digest(entries.as_slice());
    let first = first_number(entries.as_slice());
    let (chain, volumes) = chain_of(alloc, entries);
    let heading = Heading {
        digests: digests_by(order.scope.named, order.origin, start, first, trace),
        is_unseen: order.scope.is_unseen,
        chain,
    };
    let answered = Answered {
        calls: (kept.line - FIRST_LINE) as usize,
        denials: kept.denials,
    };
    Told {
        subject: Subject {
            config,
            answered,
            heading,
            volumes,
        },
        ledger: kept.ledger,
    }
}

/// The slot that is named, if the core lacks it.
fn missing(core: &KCore, vm: Option<u32>) -> Option<u32>
    ensures some { IfSome result (λ slot. (vm ≡ Some slot) × (slot_count core.now.state.config ≤ slot)) }
    ensures none { result ≡ None → IfSome vm (λ slot. slot < slot_count core.now.state.config) }
{
    let slot = vm?;
    if slot < core.config().slots() {
        None
    } else {
        Some(slot)
    }
}

/// The account of what happened to each frame and slot, of one slot's VM alone if one is named.
#[derive(Drop)]
pub struct CustodyAccount {
    /// The core, in the state after the calls so far.
    core: KCore,
    kept: Kept,
    sequence: Sequence,
    /// The digest by which what the calls begin with is named, if it is.
    start: Option<[u8; 32]>,
    order: CustodyOrder,
}

impl Account for CustodyAccount {
    type Order = CustodyOrder;

    ghost kind = { custody_kind };

    ghost leads = { λ order account m sources told. told.of };

    ghost begins = { λ order account m start begun. begun.begins };

    /// Begins an account. A slot that the machine lacks is `NoSlot`.
    fn begin<C: Source, R: Threads + Wait + Sync>(
        rt: &R,
        alloc: Global,
        start: &mut C,
        order: CustodyOrder,
    ) -> Result<CustodyAccount, TextFault> {
        let is_named = order.scope.named.names_start();
        let begun = begin(rt, alloc, start, order.origin, order.lanes, is_named)?;
        let Begun {
            core,
            expected,
            digest,
        } = begun;
        let mut core = core;
        if let Some(slot) = missing(&core, order.scope.vm) {
            core.wipe(rt);
            return Err(TextFault::NoSlot(slot));
        }
        let Ok(kept) = Kept::new(alloc, &core, order.form, order.scope.vm) else {
            core.wipe(rt);
            return Err(TextFault::Memory);
        };
        Ok(CustodyAccount {
            core,
            kept,
            sequence: Sequence::new(alloc, expected),
            start: digest,
            order,
        })
    }

    /// Reads a volume, whose calls one thread makes.
    fn read<T: Source, R: Threads + Wait + Sync>(
        &mut self,
        _rt: &R,
        alloc: Global,
        trace: &mut T,
        is_followed: bool,
    ) -> Result<(), TextFault> {
        let line = self.kept.line;
        self.sequence.has_room(line)?;
        let is_named = self.order.scope.named.names_trace();
        let volume = self
            .kept
            .tell(alloc, &mut self.core, trace, is_named, is_followed)?;
        let calls = self.kept.line - line;
        self.sequence
            .add(self.core.config(), volume, line, calls, is_named)?;
        Ok(())
    }

    fn end<R: Threads + Wait + Sync>(self, rt: &R) {
        let mut core = self.core;
        core.wipe(rt);
    }

    fn give<K: Sink, R: Threads + Wait + Sync>(
        self,
        rt: &R,
        alloc: Global,
        out: &mut K,
    ) -> Result<Answered, TextFault> {
        let CustodyAccount {
            core,
            kept,
            sequence,
            start,
            order,
        } = self;
        let mut core = core;
        core.wipe(rt);
        // (its memory is given back before the text is made)
        let (config, _) = core.into_parts();
        let told = told_of(alloc, config, kept, sequence.entries, start, order);
        let answered = told.subject.answered;
        match give_told(alloc, told, order.scope.vm, out) {
            Ok(()) => Ok(answered),
            Err(fault) => Err(fault),
        }
    }
}
