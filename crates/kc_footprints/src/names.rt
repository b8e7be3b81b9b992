//! What a call names.
ghost use Rattle.std.specs.Prelude.{◌≡◌};
ghost use Rattle.kc_model.specs.Resources.{uses_free};
ghost use Rattle.kc_footprints.specs.Naming.{named_frame, gain_of, below, names_of};

use kc_types::{Call, Config, slot_of};

/// What a principal, which is a slot or the free list, may gain by a call.
#[derive(Clone, Copy)]
pub(crate) enum Gain {
    Nothing,
    /// The named slot may gain the named frame.
    SlotTakesFrame,
    /// The free list may gain the named frame.
    FreeTakesFrame,
    /// The free list may gain what the named slot may have.
    FreeTakesReach,
}

/// What a call names: a frame and a slot that exist, and whether it names the free list.
#[derive(Clone, Copy)]
pub(crate) struct Names {
    pub(crate) frame: Option<u32>,
    pub(crate) slot: Option<u32>,
    pub(crate) free: bool,
    pub(crate) gain: Gain,
}

/// What a call names in a core of this configuration.
pub(crate) fn names_of(config: &Config, call: &Call) -> Names
    ensures { result ≡ names_of config.now call.now }
{
    let frame = below(frame_of(call), config.frames());
    let slot = below(slot_of(call), config.slots());
    Names {
        frame,
        slot,
        free: uses_free(call),
        gain: gain_of(call),
    }
}

/// A number, if it is below the bound.
fn below(number: Option<u32>, bound: u32) -> Option<u32>
    ensures { result ≡ below bound number }
{
    match number {
        Some(number) if number < bound => Some(number),
        _ => None,
    }
}

fn frame_of(call: &Call) -> Option<u32>
    ensures { result ≡ named_frame call.now }
{
    match call {
        Call::Give { frame }
        | Call::HostFault { frame }
        | Call::HostRead { frame, .. }
        | Call::HostWrite { frame, .. }
        | Call::Remap { frame, .. }
        | Call::Map { frame, .. } => Some(*frame),
        _ => None,
    }
}

fn uses_free(call: &Call) -> bool
    ensures { result ≡ uses_free call.now }
{
    match call {
        Call::Take | Call::Give { .. } | Call::Drop { .. } | Call::Clear { .. } => true,
        _ => false,
    }
}

fn gain_of(call: &Call) -> Gain
    ensures { result ≡ gain_of call.now }
{
    match call {
        Call::Give { .. } => Gain::FreeTakesFrame,
        Call::Drop { .. } | Call::Clear { .. } => Gain::FreeTakesReach,
        Call::Remap { .. } | Call::Map { .. } => Gain::SlotTakesFrame,
        _ => Gain::Nothing,
    }
}
