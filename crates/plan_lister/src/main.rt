//! What each call of a trace may touch, and its wave, to be compared with what another program finds; how long finding
//! that takes; what a replay gives whose waves are all taken by workers, whatever they gain; what a live run leaves;
//! whether a core is turned over while it is called; or the digests that it publishes of its volumes, and their traces.
//!
//! The arguments are the paths of a configuration and of a trace, and perhaps a number, how often to measure; or `replay`
//! or `dump` and a number of workers; or `live` or `turn`; or `digest` and how many calls a volume has.
#![tactic(auto)]

use anyhow::{Result, bail};
use itoa::{Buffer, Integer};
use kc_config_text::read_config;
use kc_core::{Gate, KCore};
use kc_digests::Lanes;
use kc_dump_text::write_dump;
use kc_footprints::Plan;
use kc_live::{Entry, History, LiveCore, LiveStop, Seat, Volume, VolumeDigest, run_trace};
use kc_replay::{Outcome, footprints, replay};
use kc_snapshot::dump;
use kc_trace::{LONGEST_CALL, push_call, push_header, read_trace, write_replies, write_trace};
use kc_types::{Actor, Call, Config, Resource, actor_of};
use std::io::Write;
use std::rt::Clock;
use std::sync::Wait;
use std::sync::atomic::{AtomicBool, Ordering};
use std::thread::{Threads, join};
use std::time::{CpuClock, Instant};
use std::{env, fs};

/// The most calls that are planned.
const MOST_CALLS: usize = 65_536;

/// Appends a text and a number.
fn push_number<I: Integer>(line: &mut String, before: &str, number: I) -> Result<()> {
    line.push_str(before)?;
    line.push_str(Buffer::new().format(number))?;
    Ok(())
}

/// A line with a call's wave and what it may touch: frames, a slot, the free list.
fn print_call(rt: &HostRuntime, wave: u32, footprint: &[Resource]) -> Result<()> {
    let mut line = String::new(rt.alloc());
    push_number(&mut line, "", wave)?;
    line.push_str(":")?;
    for resource in footprint {
        match resource {
            Resource::Frame(frame) => push_number(&mut line, " f", frame.number())?,
            Resource::Vm(vm) => push_number(&mut line, " v", vm.index())?,
            Resource::Free => line.push_str(" free")?,
        }
    }
    line.push_str("\n")?;
    rt.stdout().write_all(line.as_bytes())?;
    Ok(())
}

/// A line with the numbers of a wave's calls.
fn print_wave(rt: &HostRuntime, calls: &[usize]) -> Result<()> {
    let mut line = String::new(rt.alloc());
    let mut before = "[";
    for call in calls {
        push_number(&mut line, before, *call)?;
        before = ", ";
    }
    line.push_str("]\n")?;
    rt.stdout().write_all(line.as_bytes())?;
    Ok(())
}

/// A line for each call, and then one for each wave, with the numbers of its calls.
fn print_plan(rt: &HostRuntime, core: &KCore, calls: &[Call]) -> Result<()> {
    let alloc = rt.alloc();
    if calls.len() > MOST_CALLS {
        bail!("too many calls");
    }
    let footprints = footprints(alloc, core, calls)?;
    let plan = Plan::make(alloc, &footprints)?;
    for number in 0..calls.len() {
        let footprint = footprints.of(alloc, number)?;
        print_call(rt, plan.wave_of(number), footprint.as_slice())?;
    }
    for wave in 0..plan.waves() {
        print_wave(rt, plan.calls_in(wave + 1))?;
    }
    Ok(())
}

/// A line with the microseconds of this thread that the footprints and the plan took, and the number of waves.
fn print_time(rt: &HostRuntime, core: &KCore, calls: &[Call]) -> Result<()> {
    let alloc = rt.alloc();
    if calls.len() > MOST_CALLS {
        bail!("too many calls");
    }
    let start = rt.thread_cpu_time()?;
    let footprints = footprints(alloc, core, calls)?;
    let between = rt.thread_cpu_time()?;
    let plan = Plan::make(alloc, &footprints)?;
    let end = rt.thread_cpu_time()?;
    let first = between.saturating_sub(start).as_micros();
    let second = end.saturating_sub(between).as_micros();
    let waves = plan.waves();
    println!(rt; "{first} {second} {waves}")?;
    Ok(())
}

/// A gate at which calls could wait for each other, so that every wave of two calls and more is taken by workers. It looks
/// at the clock before each call and after it, by which a program around this one sees when the gate is told of a call.
#[derive(Drop)]
struct MeetingPlace<'a, R: Clock + Sync> {
    rt: &'a R,
}

impl<'a, R: Clock + Sync> Gate for MeetingPlace<'a, R> {
    fn before(&self, _number: usize) {
        let _ = Instant::now(self.rt);
    }

    fn after(&self, _number: usize) {
        let _ = Instant::now(self.rt);
    }

    fn may_wait(&self) -> bool {
        true
    }
}

/// Prints what a replay by a number of workers gives: the replies, or the dump of the core that it leaves.
fn print_replay<R: Threads + Wait + Clock + Sync>(
    rt: &HostRuntime,
    threads: &R,
    config: Config,
    calls: &[Call],
    workers: usize,
    dumps: bool,
) -> Result<()> {
    let alloc = rt.alloc();
    if calls.len() > MOST_CALLS {
        bail!("too many calls");
    }
    let gate = MeetingPlace { rt: threads };
    let Outcome { replies, core } = replay(threads, alloc, config, calls, workers, &gate)?;
    let text = if dumps {
        let dumped = dump(threads, alloc, &core, Lanes::Four)?;
        write_dump(alloc, &dumped)?
    } else {
        write_replies(alloc, replies.as_slice())?
    };
    rt.stdout().write_all(text.as_slice())?;
    Ok(())
}

/// The calls of a history, as a trace.
fn print_history(rt: &HostRuntime, history: History) -> Result<()> {
    let alloc = rt.alloc();
    let (volume, _core) = history.into_parts();
    let mut calls = Vec::new(alloc);
    for entry in volume.into_entries() {
        let Entry { call, reply: _ } = entry;
        calls.push(call)?;
    }
    if calls.len() > MOST_CALLS {
        bail!("too many calls");
    }
    let text = write_trace(alloc, calls.as_slice())?;
    rt.stdout().write_all(text.as_slice())?;
    Ok(())
}

/// Prints what a live run leaves, with a thread for each actor of the trace: the calls of its history. If it gave no answer,
/// a line with the cause comes first, and whether the receipts are those of the history; there are no calls if it left no
/// history.
fn print_live<R: Threads + Wait + Clock + Sync>(
    rt: &HostRuntime,
    threads: &R,
    config: Config,
    calls: Vec<Call>,
) -> Result<()> {
    let gate = MeetingPlace { rt: threads };
    match run_trace(threads, rt.alloc(), config, calls, &gate) {
        Ok(history) => print_history(rt, history),
        Err(stop) => {
            let LiveStop {
                cause,
                history,
                is_settled,
            } = stop;
            println!(rt; "{cause:?}, settled: {is_settled}")?;
            match history {
                Some(history) => print_history(rt, history),
                None => Ok(()),
            }
        },
    }
}

/// Prints the digest of a volume so far, as it is published.
fn print_digest(rt: &HostRuntime, said: VolumeDigest) -> Result<()> {
    let mut line = String::new(rt.alloc());
    push_number(&mut line, "{\"volume\":", said.volume)?;
    push_number(&mut line, ",\"calls\":", said.calls)?;
    line.push_str(",\"trace_sha256\":\"")?;
    line.push_str(hex::encode(rt.alloc(), said.digest.as_slice())?.as_str())?;
    line.push_str("\"}\n")?;
    rt.stdout().write_all(line.as_bytes())?;
    Ok(())
}

/// Prints the trace of a volume, with its header.
fn print_volume(rt: &HostRuntime, volume: &Volume) -> Result<()> {
    let mut text = Vec::with_capacity(rt.alloc(), LONGEST_CALL)?;
    push_header(&mut text, volume.header());
    for entry in volume.entries() {
        text.reserve(LONGEST_CALL)?;
        push_call(&mut text, &entry.call);
    }
    rt.stdout().write_all(text.as_slice())?;
    Ok(())
}

/// Makes the calls from seats of their actors, in volumes of a number of calls, and prints the digest after each call, and
/// after the last one of a volume its trace.
fn print_digests<R: Wait>(
    rt: &HostRuntime,
    threads: &R,
    config: Config,
    calls: Vec<Call>,
    most: usize,
) -> Result<()> {
    let alloc = rt.alloc();
    let core = LiveCore::new(alloc, config)?;
    for call in calls {
        let mut seat = Seat::new(alloc, actor_of(&call));
        core.call(threads, &mut seat, call)?;
        let said = core.digest(threads);
        print_digest(rt, said)?;
        if said.calls as usize >= most {
            let volume = core.turn(threads)?;
            print_volume(rt, &volume)?;
        }
    }
    Ok(())
}

/// Makes the host's calls from a seat, and turns the core over after them: the volume that they are in.
fn make_and_turn<R: Wait>(
    rt: &R,
    core: &LiveCore,
    seat: &mut Seat,
    calls: Vec<Call>,
    is_over: &AtomicBool,
) -> Option<Volume> {
    let mut all_made = true;
    for call in calls {
        all_made = all_made && core.call(rt, seat, call).is_ok();
    }
    let volume = core.turn(rt);
    is_over.store(true, Ordering::SeqCst);
    if all_made { volume.ok() } else { None }
}

/// Makes a guest's reads, of which the first 65,536 may be in a volume, until it is over.
fn read_until<R: Wait>(rt: &R, core: &LiveCore, seat: &mut Seat, is_over: &AtomicBool) {
    for _ in rt.forever() {
        if is_over.load(Ordering::SeqCst) {
            return;
        }
        let _ = core.call(
            rt,
            seat,
            Call::GuestRead {
                vm: 0,
                vcpu: 0,
                gfn: 0,
                offset: 0,
                len: 30,
            },
        );
    }
}

/// A line that says whether the host's calls were made and the core was turned over after them, while a guest's calls
/// were made.
fn print_turn<R: Threads + Wait + Sync>(
    rt: &HostRuntime,
    threads: &R,
    config: Config,
    calls: Vec<Call>,
) -> Result<()> {
    let alloc = rt.alloc();
    let core = LiveCore::new(alloc, config)?;
    let is_over = AtomicBool::new(false);
    let mut guest = Seat::new(alloc, Actor::Vcpu(0, 0));
    let mut host = Seat::new(alloc, Actor::Host);
    let (volume, _) = join(
        threads,
        || make_and_turn(threads, &core, &mut host, calls, &is_over),
        || read_until(threads, &core, &mut guest, &is_over),
    );
    let said: &str = if volume.is_some() {
        "made and turned over: true\n"
    } else {
        "made and turned over: false\n"
    };
    rt.stdout().write_all(said.as_bytes())?;
    Ok(())
}

fn read_machine(rt: &HostRuntime, path: &str) -> Result<Config> {
    let text = fs::read(rt, path)?;
    Ok(read_config(rt.alloc(), text.as_slice())?)
}

fn read_calls(rt: &HostRuntime, path: &str) -> Result<Vec<Call>> {
    let text = fs::read(rt, path)?;
    Ok(read_trace(rt.alloc(), text.as_slice())?)
}

/// Prints, as often as asked, a line with what footprints and plan take.
fn print_times(rt: &HostRuntime, core: &KCore, calls: &[Call], times: &str) -> Result<()> {
    for _ in 0..times.parse::<u32>()? {
        print_time(rt, core, calls)?;
    }
    Ok(())
}

/// Does what the arguments after configuration and trace ask for.
fn print_asked<R: Threads + Wait + Clock + Sync>(
    rt: &HostRuntime,
    threads: &R,
    config: Config,
    calls: Vec<Call>,
    word: Option<&str>,
    number: Option<&str>,
) -> Result<()> {
    match (word, number) {
        (Some("live"), _) => print_live(rt, threads, config, calls),
        (Some("turn"), _) => print_turn(rt, threads, config, calls),
        (Some("digest"), Some(most)) => {
            print_digests(rt, threads, config, calls, most.parse::<usize>()?)
        },
        (Some(word), Some(workers)) => {
            let workers = workers.parse::<usize>()?;
            print_replay(
                rt,
                threads,
                config,
                calls.as_slice(),
                workers,
                word == "dump",
            )
        },
        (Some(times), None) => {
            let core = KCore::boot_sparse(rt.alloc(), config)?;
            print_times(rt, &core, calls.as_slice(), times)
        },
        (None, _) => {
            let core = KCore::boot_sparse(rt.alloc(), config)?;
            print_plan(rt, &core, calls.as_slice())
        },
    }
}

fn main(rt: HostRuntime) -> Result<()> {
    let words = env::args(&rt)?.skip(1).collect::<Vec<String>>(rt.alloc())?;
    let (Some(config), Some(trace)) = (words.first(), words.get(1)) else {
        bail!(
            "usage: plan_lister CONFIG TRACE [TIMES | replay WORKERS | dump WORKERS | live | turn | digest CALLS]"
        );
    };
    let config = read_machine(&rt, config.as_str())?;
    let calls = read_calls(&rt, trace.as_str())?;
    let word = words.get(2).map(String::as_str);
    let number = words.get(3).map(String::as_str);
    print_asked(&rt, &rt, config, calls, word, number)
}
