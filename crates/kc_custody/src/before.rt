//! What is so before the first call, as events.
ghost use Rattle.std.specs.Prelude.{◌≡◌, ◌<◌, ◌++◌, map, IfOk, OnOk};
ghost use Rattle.kc_model.specs.Boot.{boot};
ghost use Rattle.kc_model.specs.State.{slot_at};
ghost use Rattle.kc_model.specs.Custody.{custody_at, frame_changes_by};
ghost use Rattle.kc_model.specs.Before.{header_line, is_taken, is_measured, slots_that, turn_before, frame_before, events_before};

use crate::look_ups::{custody_at, phase_at, same_custody, same_phase};
use kc_core::KCore;
use kc_types::{
    Change, Config, Custody, Event, FrameChange, Measurement, Memory, Phase, PhaseChange,
};
use std::alloc::Global;

/// The line of a trace's header.
const HEADER_LINE: u32 = 1;

/// The custody of a frame at boot.
fn custody_at_boot(config: &Config, frame: u32) -> Custody
    requires { frame < config.now.frames }
    ensures { result ≡ custody_at (boot config.now) frame }
{
    Custody::untouched(config.owner_at_boot(frame))
}

/// A slot that comes to be in a phase, before the first call.
fn turn_before(alloc: Global, phase: Phase, vm: u32) -> Event
    ensures { result ≡ turn_before phase vm }
{
    Event::Change(Change::Phase(PhaseChange {
        line: HEADER_LINE,
        vm,
        phase,
        measurement: Measurement::none(alloc),
    }))
}

/// Whether there is a VM in a slot.
fn is_taken(core: &KCore, vm: u32) -> bool
    ensures { result ≡ is_taken core.now.state vm }
{
    !same_phase(phase_at(core, vm), Phase::Empty)
}

/// Whether it has been measured.
fn is_measured(core: &KCore, vm: u32) -> bool
    ensures { result ≡ is_measured core.now.state vm }
{
    is_taken(core, vm) && !same_phase(phase_at(core, vm), Phase::Booting)
}

/// Appends the registering of each VM that is there.
fn tell_taken(alloc: Global, core: &KCore, told: &mut Vec<Event>) -> Result<(), Memory>
    ensures { OnOk result
        (told.new.items ≡ told.old.items ++ map (turn_before Phase.Booting) (slots_that is_taken core.now.state)) }
{
    for vm in 0..core.config().slots() {
        if is_taken(core, vm) {
            told.push(turn_before(alloc, Phase::Booting, vm))?;
        }
    }
    Ok(())
}

/// Appends the change of each frame that is not as at boot.
fn tell_moved(core: &KCore, told: &mut Vec<Event>) -> Result<(), Memory>
    ensures { OnOk result (told.new.items ≡ told.old.items
        ++ map frame_before (frame_changes_by header_line (boot core.now.state.config) core.now.state)) }
{
    let config = core.config();
    for frame in 0..config.frames() {
        let before = custody_at_boot(config, frame);
        let after = custody_at(core, frame);
        if !same_custody(&before, &after) {
            told.push(Event::Change(Change::Frame(FrameChange {
                line: HEADER_LINE,
                frame,
                before,
                after,
            })))?;
        }
    }
    Ok(())
}

/// Appends the phase of each VM that has been measured.
fn tell_measured(alloc: Global, core: &KCore, told: &mut Vec<Event>) -> Result<(), Memory>
    ensures { OnOk result (told.new.items ≡ told.old.items
        ++ map (λ v. turn_before (slot_at core.now.state v).phase v) (slots_that is_measured core.now.state)) }
{
    for vm in 0..core.config().slots() {
        if is_measured(core, vm) {
            told.push(turn_before(alloc, phase_at(core, vm), vm))?;
        }
    }
    Ok(())
}

/// What is so in a core, as events on the header's line that change the boot state of its configuration into it: VMs
/// are registered, frames come to be as they are, and VMs that are active or dead come to be so, without a measurement.
/// `Memory` if memory runs out.
pub fn events_before(alloc: Global, core: &KCore) -> Result<Vec<Event>, Memory>
    // No clause can rule out that memory runs out: a test makes them.
    ensures { IfOk result (λ told. told.items ≡ events_before core.now.state) }
{
    let mut told = Vec::new(alloc);
    tell_taken(alloc, core, &mut told)?;
    tell_moved(core, &mut told)?;
    tell_measured(alloc, core, &mut told)?;
    Ok(told)
}
