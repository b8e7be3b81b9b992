//! A call of an actor.
ghost use Rattle.std.specs.Prelude.{◌≡◌, IfOk};
ghost use Rattle.kc_types.specs.Actors.{actor};
ghost use Rattle.kc_types.specs.Slots.{slot_of};

use crate::{Data, Memory};
use std::alloc::Global;

/// A call with its raw numbers, which are judged when it is answered: frames, slots (`vm`), virtual processors
/// (`vcpu`), guest frames (`gfn`, `base`), images, and offsets and lengths in bytes. Calls are equal if their numbers
/// and bytes are.
#[derive(Debug, Drop, PartialEq)]
pub enum Call {
    /// The host takes the first free frame.
    Take,
    /// The host gives back a frame, which is zeroed and becomes free.
    Give {
        frame: u32,
    },
    /// The host maps a frame that it may reach.
    HostFault {
        frame: u32,
    },
    /// The host reads bytes of a mapped frame.
    HostRead {
        frame: u32,
        offset: u32,
        len: u32,
    },
    /// The host writes bytes of a mapped frame.
    HostWrite {
        frame: u32,
        offset: u32,
        data: Data,
    },
    /// The host registers a VM in an empty slot; the VM begins to boot.
    RegisterVm {
        vm: u32,
    },
    /// The host registers a virtual processor of a booting VM.
    RegisterVcpu {
        vm: u32,
        vcpu: u32,
    },
    /// The host sets a boot image of `len` bytes from guest frame `base` on for a booting VM.
    SetBoot {
        vm: u32,
        base: u32,
        len: u32,
    },
    /// The host hands over a frame as the next page of a boot image.
    Remap {
        vm: u32,
        image: u32,
        frame: u32,
    },
    /// The host has the boot images measured; the VM becomes active or dead.
    Verify {
        vm: u32,
    },
    /// The host maps one of its frames at the guest frame that a virtual processor waits for.
    Map {
        vm: u32,
        vcpu: u32,
        frame: u32,
    },
    /// A virtual processor reads bytes of a guest frame.
    GuestRead {
        vm: u32,
        vcpu: u32,
        gfn: u32,
        offset: u32,
        len: u32,
    },
    /// A virtual processor writes bytes of a guest frame.
    GuestWrite {
        vm: u32,
        vcpu: u32,
        gfn: u32,
        offset: u32,
        data: Data,
    },
    /// A virtual processor grants the host access to a guest frame once more.
    Grant {
        vm: u32,
        vcpu: u32,
        gfn: u32,
    },
    /// A virtual processor takes back one grant.
    Revoke {
        vm: u32,
        vcpu: u32,
        gfn: u32,
    },
    /// A virtual processor grants the host access to each of `count` guest frames from `gfn` on once more.
    GrantRange {
        vm: u32,
        vcpu: u32,
        gfn: u32,
        count: u32,
    },
    /// A virtual processor takes back one grant at each of `count` guest frames from `gfn` on.
    RevokeRange {
        vm: u32,
        vcpu: u32,
        gfn: u32,
        count: u32,
    },
    /// A virtual processor gives up a guest frame, which is zeroed and becomes free.
    Drop {
        vm: u32,
        vcpu: u32,
        gfn: u32,
    },
    /// The host ends a VM: its frames are zeroed and become free, and its slot becomes empty.
    Clear {
        vm: u32,
    },
}

/// The actor of a call, by the call's raw numbers.
#[derive(Clone, Copy, Debug, PartialEq, Eq)]
pub enum Actor {
    Host,
    /// A slot and a virtual processor in it.
    Vcpu(u32, u32),
}

/// Returns who makes a call.
pub fn actor_of(call: &Call) -> Actor
    ensures { result ≡ actor call.now }
{
    match call {
        Call::GuestRead { vm, vcpu, .. }
        | Call::GuestWrite { vm, vcpu, .. }
        | Call::Grant { vm, vcpu, .. }
        | Call::Revoke { vm, vcpu, .. }
        | Call::GrantRange { vm, vcpu, .. }
        | Call::RevokeRange { vm, vcpu, .. }
        | Call::Drop { vm, vcpu, .. } => Actor::Vcpu(*vm, *vcpu),
        _ => Actor::Host,
    }
}

/// The slot that a call names.
pub fn slot_of(call: &Call) -> Option<u32>
    ensures { result ≡ slot_of call.now }
{
    match call {
        Call::Take
        | Call::Give { .. }
        | Call::HostFault { .. }
        | Call::HostRead { .. }
        | Call::HostWrite { .. } => None,
        Call::RegisterVm { vm }
        | Call::RegisterVcpu { vm, .. }
        | Call::SetBoot { vm, .. }
        | Call::Remap { vm, .. }
        | Call::Verify { vm }
        | Call::Map { vm, .. }
        | Call::GuestRead { vm, .. }
        | Call::GuestWrite { vm, .. }
        | Call::Grant { vm, .. }
        | Call::Revoke { vm, .. }
        | Call::GrantRange { vm, .. }
        | Call::RevokeRange { vm, .. }
        | Call::Drop { vm, .. }
        | Call::Clear { vm } => Some(*vm),
    }
}

impl Call {
    /// Copies the call; `Memory` if memory runs out.
    pub fn copy(&self) -> Result<Call, Memory>
        // No clause can rule out that memory runs out: a test makes a copy.
        ensures { IfOk result (λ made. made ≡ self.now) }
    {
        Ok(match self {
            Call::Take => Call::Take,
            Call::Give { frame } => Call::Give { frame: *frame },
            Call::HostFault { frame } => Call::HostFault { frame: *frame },
            Call::HostRead { frame, offset, len } => Call::HostRead {
                frame: *frame,
                offset: *offset,
                len: *len,
            },
            Call::HostWrite {
                frame,
                offset,
                data,
            } => Call::HostWrite {
                frame: *frame,
                offset: *offset,
                data: data.copy()?,
            },
            Call::RegisterVm { vm } => Call::RegisterVm { vm: *vm },
            Call::RegisterVcpu { vm, vcpu } => Call::RegisterVcpu {
                vm: *vm,
                vcpu: *vcpu,
            },
            Call::SetBoot { vm, base, len } => Call::SetBoot {
                vm: *vm,
                base: *base,
                len: *len,
            },
            Call::Remap { vm, image, frame } => Call::Remap {
                vm: *vm,
                image: *image,
                frame: *frame,
            },
            Call::Verify { vm } => Call::Verify { vm: *vm },
            Call::Map { vm, vcpu, frame } => Call::Map {
                vm: *vm,
                vcpu: *vcpu,
                frame: *frame,
            },
            Call::GuestRead {
                vm,
                vcpu,
                gfn,
                offset,
                len,
            } => Call::GuestRead {
                vm: *vm,
                vcpu: *vcpu,
                gfn: *gfn,
                offset: *offset,
                len: *len,
            },
            Call::GuestWrite {
                vm,
                vcpu,
                gfn,
                offset,
                data,
            } => Call::GuestWrite {
                vm: *vm,
                vcpu: *vcpu,
                gfn: *gfn,
                offset: *offset,
                data: data.copy()?,
            },
            Call::Grant { vm, vcpu, gfn } => Call::Grant {
                vm: *vm,
                vcpu: *vcpu,
                gfn: *gfn,
            },
            Call::Revoke { vm, vcpu, gfn } => Call::Revoke {
                vm: *vm,
                vcpu: *vcpu,
                gfn: *gfn,
            },
            Call::GrantRange {
                vm,
                vcpu,
                gfn,
                count,
            } => Call::GrantRange {
                vm: *vm,
                vcpu: *vcpu,
                gfn: *gfn,
                count: *count,
            },
            Call::RevokeRange {
                vm,
                vcpu,
                gfn,
                count,
            } => Call::RevokeRange {
                vm: *vm,
                vcpu: *vcpu,
                gfn: *gfn,
                count: *count,
            },
            Call::Drop { vm, vcpu, gfn } => Call::Drop {
                vm: *vm,
                vcpu: *vcpu,
                gfn: *gfn,
            },
            Call::Clear { vm } => Call::Clear { vm: *vm },
        })
    }

    /// Makes two equal calls that share their bytes; `Memory` if memory runs out.
    pub fn share(self, alloc: Global) -> Result<(Call, Call), Memory>
        // No clause can rule out that memory runs out: tests make calls live.
        ensures { IfOk result (λ both. (both.0 ≡ self) × (both.1 ≡ self)) }
    {
        match self {
            Call::HostWrite {
                frame,
                offset,
                data,
            } => {
                let Ok((data, other)) = data.share(alloc) else {
                    return Err(Memory);
                };
                Ok((
                    Call::HostWrite {
                        frame,
                        offset,
                        data,
                    },
                    Call::HostWrite {
                        frame,
                        offset,
                        data: other,
                    },
                ))
            },
            Call::GuestWrite {
                vm,
                vcpu,
                gfn,
                offset,
                data,
            } => {
                let Ok((data, other)) = data.share(alloc) else {
                    return Err(Memory);
                };
                Ok((
                    Call::GuestWrite {
                        vm,
                        vcpu,
                        gfn,
                        offset,
                        data,
                    },
                    Call::GuestWrite {
                        vm,
                        vcpu,
                        gfn,
                        offset,
                        data: other,
                    },
                ))
            },
            call => {
                let other = call.copy()?;
                Ok((call, other))
            },
        }
    }
}
