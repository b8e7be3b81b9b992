//! What is reported of a frame and of a slot.
ghost use Rattle.std.specs.Prelude.{◌≡◌};
ghost use Rattle.kc_model.specs.State.{slot_at};
ghost use Rattle.kc_model.specs.Custody.{custody_at, same_custody, same_flag, same_phase};

use kc_core::KCore;
use kc_types::{Custody, Owner, Phase};

fn same_flag(a: bool, b: bool) -> bool
    ensures { result ≡ same_flag a b }
{
    if a { b } else { !b }
}

/// Whether two are the same in each part.
pub(crate) fn same_custody(a: &Custody, b: &Custody) -> bool
    ensures { result ≡ same_custody a.now b.now }
{
    a.owner == b.owner && a.gfn == b.gfn && a.share == b.share && same_flag(a.present, b.present)
}

/// The custody of a frame; one that does not exist is as one of the core's.
pub fn custody_at(core: &KCore, frame: u32) -> Custody
    ensures { result ≡ custody_at core.now.state frame }
{
    match core.page_record(frame) {
        Some(record) => Custody {
            owner: record.owner.get(),
            gfn: record.gfn.get(),
            share: u32::from(record.share),
            present: record.present,
        },
        None => {
            // What follows from a core's state being lawful, as this clause says.
            let _config = core.config();
            Custody::untouched(Owner::Core)
        },
    }
}

pub(crate) fn same_phase(a: Phase, b: Phase) -> bool
    ensures { result ≡ same_phase a b }
{
    a == b
}

/// The phase of a slot; one that does not exist is empty.
pub(crate) fn phase_at(core: &KCore, vm: u32) -> Phase
    ensures { result ≡ (slot_at core.now.state vm).phase }
{
    match core.phase(vm) {
        Some(phase) => phase,
        None => {
            // Lawful, as above.
            let _config = core.config();
            Phase::Empty
        },
    }
}
