//! Traces that come in segments.
use crate::gates::Watch;
use crate::support::{TWO_WAVES, calls_of, small_config};
use kc_replay::Replayer;
use kc_types::Call;
use std::alloc::Global;
use std::rt::Clock;
use std::sync::Wait;
use std::thread::Threads;

/// Makes the calls of a segment; returns whether they were made.
fn feed<R: Threads + Wait + Clock + Sync>(
    rt: &R,
    alloc: Global,
    replayer: &mut Replayer,
    segment: &[Call],
    gate: &Watch<'_, R>,
) -> bool {
    if segment.len() > replayer.left() {
        return false;
    }
    replayer.feed(rt, alloc, segment, gate).is_ok()
}

/// Makes some calls in segments of this length; returns whether they were made.
fn feed_all<R: Threads + Wait + Clock + Sync>(
    rt: &R,
    alloc: Global,
    replayer: &mut Replayer,
    calls: &[Call],
    length: usize,
    gate: &Watch<'_, R>,
) -> bool {
    for segment in calls.chunks(length.max(1)) {
        if !feed(rt, alloc, replayer, segment, gate) {
            return false;
        }
    }
    true
}

/// Whether each of six calls passes the gate once, under its place in the whole trace, if they come in segments of
/// this length.
fn are_told_once<R: Threads + Wait + Clock + Sync>(
    rt: &R,
    alloc: Global,
    length: usize,
    workers: usize,
) -> Option<bool> {
    let gate = Watch::new(rt, alloc, 6, &[])?;
    let calls = calls_of(alloc, TWO_WAVES)?;
    let mut replayer = Replayer::new(alloc, small_config(alloc)?, workers).ok()?;
    let is_fed = feed_all(rt, alloc, &mut replayer, &calls, length, &gate);
    Some(is_fed && gate.has_told_each_once())
}

/// A gate is given each call's place in the whole trace, wherever the trace is cut.
#[test]
fn gates_count_on_over_segments(rt: HostRuntime) {
    for length in [1, 2, 4, 6] {
        assert_eq!(rt; are_told_once(&rt, rt.alloc(), length, 1), Some(true));
        assert_eq!(rt; are_told_once(&rt, rt.alloc(), length, 3), Some(true));
    }
}
