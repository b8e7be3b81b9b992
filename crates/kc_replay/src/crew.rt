//! Who makes the calls of a trace, and which of them.

use kc_core::Gate;
use kc_footprints::Footprints;
use kc_types::Call;
use std::alloc::Global;

/// Who makes calls: 1 to 64 workers, the allocator that they use, and the gate that lets each call through.
#[derive(Drop)]
pub(crate) struct Crew<'a, R, G: Gate> {
    pub(crate) rt: &'a R,
    pub(crate) alloc: Global,
    pub(crate) gate: &'a G,
    pub(crate) workers: usize,
}

/// The calls of a wave, by their places in the trace, and what each call of the trace may touch.
#[derive(Clone, Copy)]
pub(crate) struct WaveCalls<'a> {
    pub(crate) calls: &'a [Call],
    pub(crate) footprints: &'a Footprints,
    pub(crate) members: &'a [usize],
}
