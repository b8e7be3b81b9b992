//! The frame that a call names.
ghost use Rattle.std.specs.Prelude.{◌≡◌, Some};
ghost use Rattle.kc_remarks.specs.Remarks.{number_named, frame_named, named_by};

use kc_core::KCore;
use kc_remarks::NamedFrame;
use kc_types::{Call, FrameNo};

fn number(frame: Option<FrameNo>) -> Option<u32>
    ensures { result ≡ frame }
{
    match frame {
        Some(frame) => Some(frame.number()),
        None => None,
    }
}

/// The number of the frame that a call names, or that is mapped at the guest frame that it names, of a range at the first.
fn number_named(core: &KCore, call: &Call) -> Option<u32>
    ensures { result ≡ number_named core.now.state call.now }
{
    match call {
        Call::Give { frame }
        | Call::HostFault { frame }
        | Call::HostRead { frame, .. }
        | Call::HostWrite { frame, .. }
        | Call::Remap { frame, .. }
        | Call::Map { frame, .. } => Some(*frame),
        Call::GuestRead { vm, gfn, .. }
        | Call::GuestWrite { vm, gfn, .. }
        | Call::Grant { vm, gfn, .. }
        | Call::Revoke { vm, gfn, .. }
        | Call::GrantRange { vm, gfn, .. }
        | Call::RevokeRange { vm, gfn, .. }
        | Call::Drop { vm, gfn, .. } => number(core.lookup(*vm, *gfn)),
        Call::Take
        | Call::RegisterVm { .. }
        | Call::RegisterVcpu { .. }
        | Call::SetBoot { .. }
        | Call::Verify { .. }
        | Call::Clear { .. } => None,
    }
}

/// The frame of this number, as it is now, if it exists.
fn frame_named(core: &KCore, frame: u32) -> Option<NamedFrame>
    ensures { result ≡ frame_named core.now.state (Some frame) }
{
    match core.page_record(frame) {
        Some(record) => Some(NamedFrame {
            frame,
            owner: record.owner.get(),
            gfn: record.gfn.get(),
        }),
        None => None,
    }
}

/// The frame that a call names, as it is now, if it exists.
pub(crate) fn named_by(core: &KCore, call: &Call) -> Option<NamedFrame>
    ensures { result ≡ named_by core.now.state call.now }
{
    match number_named(core, call) {
        Some(frame) => frame_named(core, frame),
        None => None,
    }
}
