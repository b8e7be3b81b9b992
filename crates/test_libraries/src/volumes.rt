//! A core that is turned over while its actors call, and a follower that replays the volumes.
use crate::support::{calls_of, small_config};
use kc_core::{KCore, OpenGate};
use kc_digests::Lanes;
use kc_dump_text::write_dump;
use kc_live::{Entry, LiveCore, LiveFault, Receipt, Seat, Volume, settle};
use kc_replay::Replayer;
use kc_snapshot::dump;
use kc_types::{Actor, CALL_LIMIT, Call, Reply};
use std::alloc::Global;
use std::sync::Wait;
use std::thread::{Threads, join};

/// Boots a VM with its guest frame 0 in frame 1.
const BOOTS: &str =
    "hfault 1\nhwrite 1 0 616263\nregvm 0\nregvcpu 0 0\nsetboot 0 0 3\nremap 0 0 1\nverify 0\n";

/// What the host calls over and over, and what the guest calls, which shares its frame for a while.
const HOST: &str = "hfault 1\nhwrite 1 0 01\nhread 1 0 2\ntake\ngive 5\n";

const GUEST: &str =
    "grant 0 0 0\ngwrite 0 0 0 1 02\ngread 0 0 0 0 2\nrevoke 0 0 0\ngwrite 0 0 0 0 03\n";

/// How often each makes its calls, and how many calls the one that turns over makes between two turns.
const ROUNDS: usize = 200;

const BETWEEN_TURNS: usize = 301;

/// Appends a copy of a call.
fn push_copy(calls: &mut Vec<Call>, call: &Call) -> Option<()> {
    calls.push(call.copy().ok()?).ok()
}

/// Copies of the calls of some entries.
fn calls_in(alloc: Global, entries: &[Entry]) -> Option<Vec<Call>> {
    let mut calls = Vec::new(alloc);
    for entry in entries {
        push_copy(&mut calls, &entry.call)?;
    }
    Some(calls)
}

/// Whether the replies are those of the entries.
fn are_replies_of(entries: &[Entry], replies: &[Reply]) -> bool {
    if entries.len() != replies.len() {
        return false;
    }
    for (entry, reply) in entries.iter().zip(replies) {
        if entry.reply != *reply {
            return false;
        }
    }
    true
}

/// Makes some calls from a seat, over and over.
fn make_calls<R: Wait>(
    rt: &R,
    core: &LiveCore,
    seat: &mut Seat,
    calls: &[Call],
    rounds: usize,
) -> Option<()> {
    for _ in 0..rounds {
        for call in calls {
            core.call(rt, seat, call.copy().ok()?).ok()?;
        }
    }
    Some(())
}

/// Does the same, and turns the core over after this many calls, again and again; returns the volumes.
fn make_and_turn<R: Wait>(
    rt: &R,
    alloc: Global,
    core: &LiveCore,
    seat: &mut Seat,
    calls: &[Call],
) -> Option<Vec<Volume>> {
    let mut volumes = Vec::new(alloc);
    let mut made = 0usize;
    for _ in 0..ROUNDS {
        for call in calls {
            core.call(rt, seat, call.copy().ok()?).ok()?;
            made = made.saturating_add(1);
            if made % BETWEEN_TURNS == 0 {
                volumes.push(core.turn(rt).ok()?).ok()?;
            }
        }
    }
    volumes.push(core.turn(rt).ok()?).ok()?;
    Some(volumes)
}

/// Splits receipts into those of a volume and the others, in order.
fn cut(alloc: Global, receipts: Vec<Receipt>, number: u64) -> Option<(Vec<Receipt>, Vec<Receipt>)> {
    let (mut row, mut others) = (Vec::new(alloc), Vec::new(alloc));
    for receipt in receipts {
        if receipt.volume == number {
            row.push(receipt).ok()?;
        } else {
            others.push(receipt).ok()?;
        }
    }
    Some((row, others))
}

/// Whether the receipts of host and guest for a volume are its own, each once, and the other receipts.
fn settled(
    alloc: Global,
    volume: &Volume,
    host: Vec<Receipt>,
    guest: Vec<Receipt>,
) -> Option<(bool, Vec<Receipt>, Vec<Receipt>)> {
    let (of_host, host) = cut(alloc, host, volume.number())?;
    let (of_guest, guest) = cut(alloc, guest, volume.number())?;
    let rows = Vec::from_array(alloc, [of_host, of_guest]).ok()?;
    let same = settle(alloc, volume, &rows).ok()?;
    Some((same, host, guest))
}

/// Whether a volume has this place among the volumes, from 0, and its head the same, from 1.
fn is_at(volume: &Volume, place: usize) -> bool {
    let number = volume.header().number();
    volume.number() == place as u64 && number.map(u64::from) == volume.number().checked_add(1)
}

/// Whether the volumes follow one another, and the receipts are theirs, each once.
fn are_settled(
    alloc: Global,
    volumes: &[Volume],
    host: Vec<Receipt>,
    guest: Vec<Receipt>,
) -> Option<bool> {
    let (mut host, mut guest) = (host, guest);
    let mut same = true;
    for (place, volume) in volumes.iter().enumerate() {
        let (is_settled, later, others) = settled(alloc, volume, host, guest)?;
        same = same && is_settled && is_at(volume, place);
        host = later;
        guest = others;
    }
    Some(same && host.is_empty() && guest.is_empty())
}

/// Replays the volumes in order with two workers; returns whether they get the volumes' replies, and the core that
/// they leave.
fn followed<R: Threads + Wait + Sync>(
    rt: &R,
    alloc: Global,
    volumes: &[Volume],
) -> Option<(bool, KCore)> {
    let mut replayer = Replayer::new(alloc, small_config(alloc)?, 2).ok()?;
    let mut same = true;
    for volume in volumes {
        let calls = calls_in(alloc, volume.entries())?;
        if calls.len() > replayer.left() {
            return None;
        }
        let replies = replayer.feed(rt, alloc, &calls, &OpenGate).ok()?;
        same = same && are_replies_of(volume.entries(), &replies);
        replayer.turn();
    }
    Some((same, replayer.finish().ok()?))
}

/// Writes the dump of a core as text.
fn dump_of<R: Threads + Sync>(rt: &R, alloc: Global, core: &KCore) -> Option<Vec<u8>> {
    let dumped = dump(rt, alloc, core, Lanes::Four).ok()?;
    write_dump(alloc, &dumped).ok()
}

/// What is left of a core that was turned over while its actors called.
#[derive(Drop)]
struct Turned {
    volumes: Vec<Volume>,
    host: Vec<Receipt>,
    guest: Vec<Receipt>,
    core: KCore,
}

/// Boots a VM from a seat.
fn boot<R: Wait>(rt: &R, alloc: Global, core: &LiveCore, host: &mut Seat) -> Option<()> {
    let calls = calls_of(alloc, BOOTS)?;
    make_calls(rt, core, host, &calls, 1)
}

/// Lets host and guest call from a thread each, while the host turns the core over; returns the volumes, with the last
/// one.
fn volumes_of<R: Threads + Wait + Sync>(
    rt: &R,
    alloc: Global,
    core: &LiveCore,
    host: &mut Seat,
    guest: &mut Seat,
) -> Option<Vec<Volume>> {
    let (of_host, of_guest) = (calls_of(alloc, HOST)?, calls_of(alloc, GUEST)?);
    let (volumes, made) = join(
        rt,
        || make_and_turn(rt, alloc, core, host, &of_host),
        || make_calls(rt, core, guest, &of_guest, ROUNDS),
    );
    made?;
    let mut volumes = volumes?;
    volumes.push(core.turn(rt).ok()?).ok()?;
    Some(volumes)
}

/// Boots a VM and turns the core over while host and guest call.
fn run_over<R: Threads + Wait + Sync>(rt: &R, alloc: Global) -> Option<Turned> {
    let core = LiveCore::new(alloc, small_config(alloc)?).ok()?;
    let mut host = Seat::new(alloc, Actor::Host);
    let mut guest = Seat::new(alloc, Actor::Vcpu(0, 0));
    boot(rt, alloc, &core, &mut host)?;
    let volumes = volumes_of(rt, alloc, &core, &mut host, &mut guest)?;
    let (_empty, core) = core.close().into_parts();
    Some(Turned {
        volumes,
        host: host.into_receipts(),
        guest: guest.into_receipts(),
        core,
    })
}

/// Whether the volumes can be followed to the core that they left, and the receipts are theirs.
fn is_followed<R: Threads + Wait + Sync>(rt: &R, alloc: Global) -> Option<bool> {
    let turned = run_over(rt, alloc)?;
    let (same, left) = followed(rt, alloc, &turned.volumes)?;
    let is_left = dump_of(rt, alloc, &left)? == dump_of(rt, alloc, &turned.core)?;
    let Turned {
        volumes,
        host,
        guest,
        core: _,
    } = turned;
    Some(same && is_left && are_settled(alloc, &volumes, host, guest)?)
}

#[test]
fn a_core_that_turns_over_is_followed(rt: HostRuntime) {
    assert_eq!(rt; is_followed(&rt, rt.alloc()), Some(true));
}

/// Makes this many calls from one seat, each of which is refused.
fn call_often<R: Wait>(rt: &R, core: &LiveCore, seat: &mut Seat, count: usize) -> bool {
    make_calls(rt, core, seat, &[Call::HostFault { frame: 0 }], count).is_some()
}

/// Makes as many calls from one seat as a volume has, and one more; returns whether that one alone was one too many, and
/// the seat has a receipt for each of the others.
fn is_filled<R: Wait>(rt: &R, core: &LiveCore, seat: &mut Seat) -> bool {
    let are_made = call_often(rt, core, seat, CALL_LIMIT);
    let once_more = core.call(rt, seat, Call::HostFault { frame: 0 });
    are_made && once_more == Err(LiveFault::HistoryFull) && seat.receipts().len() == CALL_LIMIT
}

/// Turns the core over, and returns how many calls its volume had.
fn calls_of_volume<R: Wait>(rt: &R, core: &LiveCore) -> Option<usize> {
    Some(core.turn(rt).ok()?.entries().len())
}

/// Fills a volume and turns the core over; returns whether the volume is full, and the next one is begun.
fn is_begun_anew<R: Wait>(rt: &R, alloc: Global) -> Option<bool> {
    let core = LiveCore::new(alloc, small_config(alloc)?).ok()?;
    let mut seat = Seat::new(alloc, Actor::Host);
    let is_full = is_filled(rt, &core, &mut seat);
    let calls = calls_of_volume(rt, &core)?;
    let goes_on = call_often(rt, &core, &mut seat, 1);
    Some(is_full && calls == CALL_LIMIT && goes_on && core.close().volume().number() == 1)
}

#[test]
fn a_volume_has_no_more_than_65_536_calls(rt: HostRuntime) {
    assert_eq!(rt; is_begun_anew(&rt, rt.alloc()), Some(true));
}
