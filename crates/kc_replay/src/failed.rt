//! What a failed segment leaves.
ghost use Rattle.std.specs.Prelude.{◌≡◌};
ghost use Rattle.kc_replay.specs.Wave.{IsWiped};

use crate::fault::ReplayFault;
use kc_core::KCore;
use kc_parts::Parts;
use std::thread::Threads;

/// Why a segment failed, and the parts of its core that are left, whose pages are wiped.
#[derive(Drop)]
pub(crate) struct Failed {
    pub(crate) fault: ReplayFault,
    pub(crate) left: Parts,
}

impl Failed {
    /// Fails with `Memory`, and leaves the parts of a core, which is wiped first, with several threads.
    pub(crate) fn for_memory<R: Threads + Sync>(rt: &R, core: KCore) -> Failed
        ensures fault { result.fault ≡ ReplayFault.Memory }
        ensures wiped { IsWiped core.state.config result.left }
    {
        let mut core = core;
        core.wipe(rt);
        let (_config, left) = core.into_parts();
        Failed {
            fault: ReplayFault::Memory,
            left,
        }
    }
}
