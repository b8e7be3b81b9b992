//! One wave over a store.
ghost use Rattle.std.specs.Prelude.{◌≡◌, ◌<◌, length, map, slice_set, OnOk, OnErr, IfOk};
ghost use Rattle.kc_model.specs.Footprints.{state_at};
ghost use Rattle.kc_model.specs.State.{State};
ghost use Rattle.kc_core.specs.KCore.{IsCore};
ghost use Rattle.kc_parts.specs.States.{state_of};
ghost use Rattle.kc_replay.specs.Dealing.{AreDealt};
ghost use Rattle.kc_replay.specs.Wave.{Wave, IsWave, IsRest, HasPlaces, IsTaskAt, IsFinishedAt, AreReplied, IsWiped, wave_calls, wave_from, footprint_of, footprints_at, down_from};

use crate::crew::{Crew, WaveCalls};
use crate::dealing::{deal, no_tasks, take_back};
use crate::fault::ReplayFault;
use crate::task::{Finished, Task};
use crate::work::run_workers;
use kc_core::Gate;
use kc_parts::Parts;
use kc_types::{Config, Memory, Reply};
use std::alloc::Global;
use std::sync::Wait;
use std::thread::Threads;

/// Takes out what the calls of a wave may touch, and deals it to workers as tasks.
fn take_tasks(
    alloc: Global,
    store: &mut Parts,
    wave: &WaveCalls,
    workers: usize,
) -> Result<Vec<Vec<Task>>, Memory>
    ghost start: { State }
    requires wave { IsWave start wave.now.calls.now (footprint_of wave.now.footprints.now) wave.now.members.now }
    requires footprints { length wave.now.footprints.now.calls ≡ length wave.now.calls.now }
    requires core { IsCore start.config store.old }
    requires state { state_of start.config store.old ≡ start }
    requires workers { 0 < workers }
    ensures tasks { IfOk result (λ lists. AreDealt (IsTaskAt start wave.now.calls.now (footprint_of wave.now.footprints.now) wave.now.members.now) (length wave.now.members.now) (map (λ list. list.items) lists.items)) }
    ensures workers { IfOk result (λ lists. length lists.items ≡ workers) }
    ensures store { OnOk result (IsRest start (footprints_at (footprint_of wave.now.footprints.now) wave.now.members.now) (down_from (length wave.now.members.now)) store.new) }
    ensures places { HasPlaces start.config store.new }
{
    let mut lists = no_tasks(alloc, workers)?;
    for place in 0..wave.members.len() {
        let number = wave.members[place];
        let wanted = wave.footprints.of(alloc, number)?;
        let parts = store.take_out(alloc, wanted.as_slice())?;
        deal(&mut lists, place, Task { number, parts })?;
    }
    Ok(lists)
}

/// Writes a reply into its place.
fn write_reply(replies: &mut [Reply], number: usize, reply: Reply)
    requires { number < length replies.old }
    ensures { replies.new ≡ slice_set replies.old number reply }
{
    replies[number] = reply;
}

/// Puts back what this many calls of a wave left, and writes their replies into their places.
fn put_all(store: &mut Parts, mut lists: Vec<Vec<Finished>>, count: usize, replies: &mut [Reply])
    ghost wave: { Wave }
    requires wave { IsWave wave.start wave.calls wave.footprints wave.members }
    requires done { AreDealt (IsFinishedAt wave.start wave.calls wave.footprints wave.members) count (map (λ list. list.items) lists.items) }
    requires workers { 0 < length lists.items }
    requires count { count ≡ length wave.members }
    requires store { IsRest (state_at wave.start (wave_calls wave.calls wave.members) (length wave.members)) (footprints_at wave.footprints wave.members) (down_from (length wave.members)) store.old }
    requires places { HasPlaces wave.start.config store.old }
    requires long { length replies.old ≡ length wave.calls }
    ensures core { IsCore wave.start.config store.new }
    ensures places { HasPlaces wave.start.config store.new }
    ensures replies { AreReplied wave.start wave.calls wave.members replies.old replies.new }
    ensures state { state_of wave.start.config store.new ≡ state_at wave.start (wave_calls wave.calls wave.members) (length wave.members) }
{
    let mut left = count;
    while left > 0 {
        left -= 1;
        let Finished { reply, left: task } = take_back(&mut lists, left);
        let (number, parts) = task.into_parts();
        store.put_back(parts);
        write_reply(replies, number, reply);
    }
}

/// Makes the calls of one wave, each on its own parts, and puts everything back.
fn share_out<R: Threads + Wait + Sync, G: Gate + Sync>(
    crew: &Crew<R, G>,
    config: &Config,
    store: &mut Parts,
    wave: &WaveCalls,
    workers: usize,
    replies: &mut [Reply],
) -> Result<(), ReplayFault>
    ghost seen: { Wave }
    requires seen { seen ≡ wave_from (state_of config.now store.old) wave.now }
    requires wave { IsWave seen.start seen.calls seen.footprints seen.members }
    requires footprints { length wave.now.footprints.now.calls ≡ length seen.calls }
    requires core { IsCore config.now store.old }
    requires long { length replies.old ≡ length seen.calls }
    requires workers { 0 < workers }
    ensures replies { OnOk result (AreReplied seen.start seen.calls seen.members replies.old replies.new) }
    ensures core { OnOk result (IsCore config.now store.new) }
    ensures places { HasPlaces seen.start.config store.new }
    ensures state { OnOk result (state_of config.now store.new ≡ state_at seen.start (wave_calls seen.calls seen.members) (length seen.members)) }
{
    let tasks = take_tasks(crew.alloc, store, wave, workers)?;
    let finished = run_workers(crew, config, wave.calls, tasks)?;
    put_all(store, finished, wave.members.len(), replies);
    Ok(())
}

/// Makes the calls of one wave, each on its own parts, by this many workers, and puts everything back. If that fails,
/// all pages are wiped: those in the store here, and those that were out when they were dropped.
pub(crate) fn run_wave<R: Threads + Wait + Sync, G: Gate + Sync>(
    crew: &Crew<R, G>,
    config: &Config,
    store: &mut Parts,
    wave: &WaveCalls,
    workers: usize,
    replies: &mut [Reply],
) -> Result<(), ReplayFault>
    requires wave { IsWave (state_of config.now store.old) wave.now.calls.now (footprint_of wave.now.footprints.now) wave.now.members.now }
    requires footprints { length wave.now.footprints.now.calls ≡ length wave.now.calls.now }
    requires core { IsCore config.now store.old }
    requires long { length replies.old ≡ length wave.now.calls.now }
    requires workers { 0 < workers }
    ensures replies { OnOk result (AreReplied (state_of config.now store.old) wave.now.calls.now wave.now.members.now replies.old replies.new) }
    ensures core { OnOk result (IsCore config.now store.new) }
    ensures state { OnOk result (state_of config.now store.new ≡ state_at (state_of config.now store.old) (wave_calls wave.now.calls.now wave.now.members.now) (length wave.now.members.now)) }
    ensures wiped { OnErr result (IsWiped config.now store.new) }
{
    let outcome = share_out(crew, config, store, wave, workers, replies);
    if outcome.is_err() {
        store.wipe(crew.rt);
    }
    outcome
}
