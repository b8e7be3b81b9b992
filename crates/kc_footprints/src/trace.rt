//! What the calls of a trace may touch, and the waves in which they are made.
ghost use Rattle.std.specs.Prelude.{◌≡◌, ◌+◌, ◌<◌, ◌^◌, length, IfOk, map};
ghost use Rattle.kc_types.specs.Configuration.{slot_count};
ghost use Rattle.kc_model.specs.State.{State};
ghost use Rattle.kc_footprints.specs.Footprints.{AreFootprints};
ghost use Rattle.kc_footprints.specs.Naming.{names_of};
ghost use Rattle.kc_footprints.specs.Owned.{IsOwned};
ghost use Rattle.kc_footprints.specs.Planner.{AreBelow, HaveFramesBelow, HasOneOwnerEach};

use crate::footprints::Footprints;
use crate::names::{Names, names_of};
use crate::planner::walk_calls;
use kc_types::{Call, Config, Memory};
use std::alloc::Global;

/// Lists what each call names.
fn names_of_all(alloc: Global, config: &Config, calls: &[Call]) -> Result<Vec<Names>, Memory>
    ensures { IfOk result (λ names. names.items ≡ map (names_of config.now) calls.now) }
{
    let mut names = Vec::with_capacity(alloc, calls.len())?;
    for call in calls {
        names.push(names_of(config, call))?;
    }
    Ok(names)
}

/// Finds what these calls may touch, and their waves, which count from 1; `Memory` if memory runs out. Of the
/// state from which they start only the owners are needed, as pairs of a principal and a frame that it owns: a slot is
/// given by its number, and the free list by the number of slots. There are fewer than 2^32 calls, since a wave's
/// number is a `u32`; a trace has at most 65,536.
pub fn footprints_from(
    alloc: Global,
    config: &Config,
    owned: &[(usize, u32)],
    calls: &[Call],
) -> Result<Footprints, Memory>
    requires few { length calls.now < 2 ^ 32 }
    requires principals { AreBelow (slot_count config.now + 1) owned.now }
    requires frames { HaveFramesBelow config.now.frames owned.now }
    requires one { HasOneOwnerEach owned.now }
    ensures { IfOk result (λ footprints. (start : State) → start.config ≡ config.now → IsOwned start owned.now → AreFootprints start calls.now footprints) }
{
    let names = names_of_all(alloc, config, calls)?;
    let walk = walk_calls(
        alloc,
        config.frames() as usize,
        config.slots() as usize,
        owned,
        names.as_slice(),
    )?;
    Ok(Footprints::of_walk(walk))
}
