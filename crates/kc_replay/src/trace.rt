//! What the calls of a trace from a core on may touch.
ghost use Rattle.std.specs.Prelude.{◌<◌, ◌^◌, length, IfOk};
ghost use Rattle.kc_footprints.specs.Footprints.{AreFootprints};

use crate::owned::owned_frames;
use kc_core::KCore;
use kc_footprints::{Footprints, footprints_from};
use kc_types::{Call, Memory};
use std::alloc::Global;

/// Finds what the calls of a trace that starts from this core may touch, and their waves, which count from 1; `Memory`
/// if memory runs out. There are fewer than 2^32 calls, since a wave's number is a `u32`; a trace has at most
/// 65,536.
pub fn footprints(alloc: Global, core: &KCore, calls: &[Call]) -> Result<Footprints, Memory>
    requires { length calls.now < 2 ^ 32 }
    ensures { IfOk result (AreFootprints core.now.state calls.now) }
{
    let owned = owned_frames(alloc, core)?;
    footprints_from(alloc, core.config(), owned.as_slice(), calls)
}
