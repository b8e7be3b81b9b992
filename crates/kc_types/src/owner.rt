//! Who owns a frame.
ghost use Rattle.std.specs.Prelude.{◌≡◌};
ghost use Rattle.kc_types.specs.Slots.{vm_of};

use crate::VmId;

/// The owner of a frame: each frame has exactly one at a time.
#[derive(Clone, Copy, Debug, PartialEq, Eq)]
pub enum Owner {
    /// The trusted core, for ever.
    Core,
    /// The untrusted host.
    Host,
    /// Nobody: the frame is in the free list.
    Free,
    /// The VM in a slot.
    Vm(VmId),
}

/// The slot of the VM that is the owner, if one is.
pub fn vm_of(owner: Owner) -> Option<u32>
    ensures { result ≡ vm_of owner }
{
    match owner {
        Owner::Vm(vm) => Some(vm.index() as u32),
        Owner::Core | Owner::Host | Owner::Free => None,
    }
}
