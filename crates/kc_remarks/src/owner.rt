//! Whose a frame is.
ghost use Rattle.std.specs.Prelude.{◌≡◌};
ghost use Rattle.kc_model.specs.Lives.{is_owned_by};

use kc_types::Owner;

/// Whether the owner is the VM in this slot.
pub fn is_owned_by(owner: Owner, vm: u32) -> bool
    ensures { result ≡ is_owned_by vm owner }
{
    match owner {
        Owner::Vm(owner) => owner.index() as u32 == vm,
        Owner::Core | Owner::Host | Owner::Free => false,
    }
}
