//! Tests of what no file can show through the program: gates, threads, how faults are shown, and volumes.
//!
//! - replays by workers: `src/replays.rt`, `src/segments.rt`; live runs: `src/live.rt`, `src/volumes.rt`
//! - how each fault is shown: `src/telling.rt`
#![tactic(auto)]

#[cfg(test)]
mod gates;
#[cfg(test)]
mod live;
#[cfg(test)]
mod replays;
#[cfg(test)]
mod segments;
#[cfg(test)]
mod support;
#[cfg(test)]
mod telling;
#[cfg(test)]
mod volumes;
