//! A gate that holds calls and counts them.
use kc_core::Gate;
use std::alloc::Global;
use std::rt::Clock;
use std::sync::atomic::{AtomicBool, Ordering};
use std::sync::{Mutex, Wait};
use std::thread;
use std::time::Duration;

/// How often a call that is held checks before it gives up; it checks every 1 ms.
const TURNS: u32 = 10_000;

/// Holds each call of a list until the one before it in the list has been answered, and no other calls. Counts how
/// often each call passes, before and after.
#[derive(Drop)]
pub struct Watch<'a, R: Wait + Clock + Sync> {
    rt: &'a R,
    order: &'a [usize],
    counts: Mutex<Vec<(u32, u32)>>,
    gave_up: AtomicBool,
}

impl<'a, R: Wait + Clock + Sync> Watch<'a, R> {
    /// Makes a gate for this many calls, of which those of a list are let in in its order.
    pub fn new(rt: &'a R, alloc: Global, calls: usize, order: &'a [usize]) -> Option<Watch<'a, R>> {
        Some(Watch {
            rt,
            order,
            counts: Mutex::new(vec![in alloc; (0u32, 0u32); calls].ok()?),
            gave_up: AtomicBool::new(false),
        })
    }

    /// Whether each call passed once, before and after, and none was held for too long.
    pub fn has_told_each_once(&self) -> bool {
        let counts = self.counts.lock(self.rt);
        for count in counts.iter() {
            if *count != (1u32, 1u32) {
                return false;
            }
        }
        !self.gave_up.load(Ordering::SeqCst)
    }
}

/// The call before a call in a list, if there is one.
fn earlier(order: &[usize], number: usize) -> Option<usize> {
    let mut earlier = None;
    for it in order {
        if *it == number {
            return earlier;
        }
        earlier = Some(*it);
    }
    None
}

/// Whether a call has been answered.
fn is_answered<R: Wait>(rt: &R, counts: &Mutex<Vec<(u32, u32)>>, number: usize) -> bool {
    let counts = counts.lock(rt);
    number < counts.len() && counts[number].1 > 0
}

/// Waits until a call has been answered; returns whether it was before the wait was given up.
fn wait_for<R: Wait + Clock>(rt: &R, counts: &Mutex<Vec<(u32, u32)>>, number: usize) -> bool {
    for _turn in 0..TURNS {
        if is_answered(rt, counts, number) {
            return true;
        }
        let _ = thread::sleep(rt, Duration::from_millis(1));
    }
    false
}

impl<'a, R: Wait + Clock + Sync> Gate for Watch<'a, R> {
    fn before(&self, number: usize) {
        if let Some(earlier) = earlier(self.order, number) {
            if !wait_for(self.rt, &self.counts, earlier) {
                self.gave_up.store(true, Ordering::SeqCst);
            }
        }
        let mut counts = self.counts.lock(self.rt);
        if number < counts.len() {
            counts[number].0 = counts[number].0.wrapping_add(1);
        }
    }

    fn after(&self, number: usize) {
        let mut counts = self.counts.lock(self.rt);
        if number < counts.len() {
            counts[number].1 = counts[number].1.wrapping_add(1);
        }
    }
}
