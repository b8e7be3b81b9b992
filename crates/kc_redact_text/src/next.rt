//! The next call of a trace, redacted, and made on a core, if there is one.
ghost use Rattle.std.specs.Prelude.{◌≡◌, IfOk, OnOk};
ghost use Rattle.kc_model.specs.State.{frame_at, slot_at};
ghost use Rattle.kc_model.specs.Refusals.{is_active};
ghost use Rattle.kc_model.specs.Blanking.{is_guests};
ghost use Rattle.kc_core.specs.KCore.{state_in};
ghost use Rattle.kc_redact_text.specs.Made.{is_hidden, redacted_next, core_next, reply_next, CountsMore};

use crate::calls::RedactedCall;
use kc_core::KCore;
use kc_remarks::Denials;
use kc_types::{Call, Memory, Owner, Phase};

/// Whether the VM in a slot is active; false if the slot does not exist.
fn is_active(core: &KCore, vm: u32) -> bool
    ensures { result ≡ is_active (slot_at core.now.state vm).phase }
{
    match core.phase(vm) {
        Some(phase) => matches!(phase, Phase::Active),
        None => {
            // Using the core here shows that its state is lawful, from which this follows.
            let _config = core.config();
            false
        },
    }
}

/// The owner of a frame; the core if the frame does not exist.
fn owner_of(core: &KCore, frame: u32) -> Owner
    ensures { result ≡ (frame_at core.now.state frame).owner }
{
    match core.page_record(frame) {
        Some(record) => record.owner.get(),
        None => {
            // Lawful, as above.
            let _config = core.config();
            Owner::Core
        },
    }
}

/// Whether an owner is an active VM.
fn is_guests(core: &KCore, owner: Owner) -> bool
    ensures { result ≡ is_guests core.now.state owner }
{
    match owner {
        Owner::Vm(vm) => is_active(core, vm.index() as u32),
        Owner::Core | Owner::Host | Owner::Free => false,
    }
}

/// Whether the host writes to a frame of an active VM by this call.
fn is_hidden(core: &KCore, call: &Call) -> bool
    ensures { result ≡ is_hidden core.now.state call.now }
{
    match call {
        Call::HostWrite { frame, .. } => is_guests(core, owner_of(core, *frame)),
        _ => false,
    }
}

/// Redacts a call: what a virtual processor writes, and if there is a core, also what the host writes to a frame of a
/// VM that is active before the call. The call is then made on the core, and its reply counted. `Memory` if memory runs
/// out.
pub(crate) fn redact_next(
    core: &mut Option<KCore>,
    call: Call,
    denials: &mut Denials,
) -> Result<RedactedCall, Memory>
    ensures call { IfOk result (λ kept. kept ≡ redacted_next (state_in core.old) call) }
    ensures core { OnOk result (state_in core.new ≡ core_next (state_in core.old) call) }
    ensures counted { OnOk result (CountsMore (reply_next (state_in core.old) call) denials.old denials.new) }
{
    let Some(core) = core else {
        return Ok(RedactedCall::new(call));
    };
    let is_hidden = is_hidden(core, &call);
    let reply = core.call(&call)?;
    denials.note(&reply);
    if is_hidden {
        Ok(RedactedCall::blanked(call))
    } else {
        Ok(RedactedCall::new(call))
    }
}
