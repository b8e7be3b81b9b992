//! In which form a state is described: whole, or without what active VMs keep secret.
ghost use Rattle.std.specs.Prelude.{◌≡◌, ◌<◌};
ghost use Rattle.kc_model.specs.State.{frame_at, slot_at, zero_page};
ghost use Rattle.kc_model.specs.Refusals.{is_active};
ghost use Rattle.kc_model.specs.Blanking.{is_guests};
ghost use Rattle.kc_snapshot.specs.Form.{in_form};

use kc_core::KCore;
use kc_page::PageBytes;
use kc_types::{Owner, Phase};

/// In which form a state is described.
#[derive(Clone, Copy, Debug, PartialEq, Eq)]
pub enum StateForm {
    /// As it is.
    Whole,
    /// With zero pages in place of those of active VMs.
    Blank,
}

/// Whether the VM in a slot is active; false for a slot that does not exist.
fn is_active(core: &KCore, vm: u32) -> bool
    ensures { result ≡ is_active (slot_at core.now.state vm).phase }
{
    let _config = core.config();
    match core.phase(vm) {
        Some(phase) => matches!(phase, Phase::Active),
        None => false,
    }
}

/// Whether the owner is an active VM.
fn is_guests(core: &KCore, owner: Owner) -> bool
    ensures { result ≡ is_guests core.now.state owner }
{
    match owner {
        Owner::Vm(vm) => is_active(core, vm.index() as u32),
        Owner::Core | Owner::Host | Owner::Free => false,
    }
}

/// The owner of a frame that exists.
fn owner_of(core: &KCore, frame: u32) -> Owner
    requires { frame < core.now.state.config.frames }
    ensures { result ≡ (frame_at core.now.state frame).owner }
{
    match core.page_record(frame) {
        Some(record) => record.owner.get(),
        None => unreachable!(),
    }
}

/// The bytes of a frame that exists in a form; `zero` is a page of zero bytes.
pub fn bytes_in<'a>(
    core: &'a KCore,
    form: StateForm,
    frame: u32,
    zero: &'a PageBytes,
) -> &'a PageBytes
    requires exists { frame < core.now.state.config.frames }
    requires zero { zero.now.bytes ≡ zero_page }
    ensures { result.now.bytes ≡ (frame_at (in_form form core.now.state) frame).bytes }
{
    let bytes = core.bytes(frame).unwrap();
    let owner = owner_of(core, frame);
    match form {
        StateForm::Whole => bytes,
        StateForm::Blank => { if is_guests(core, owner) { zero } else { bytes } }
    }
}
