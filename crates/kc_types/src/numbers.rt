//! Numbers that keep their range in the type. Each is seen as the plain number.
ghost use Rattle.std.specs.Prelude.{◌≡◌, ℕ, ◌<◌, ◌↔◌, IsSome, IfSome};
ghost use Rattle.kc_types.specs.Limits.{frame_limit, slot_limit, vcpu_limit, gfn_limit};

use crate::{FRAME_LIMIT, GFN_LIMIT, SLOT_LIMIT, VCPU_LIMIT};
use std::marker::Model;

/// The number of a frame of 4,096 bytes, 0 to 268,435,455. Whether the frame exists depends on the configuration.
#[derive(Clone, Copy, Debug, PartialEq, Eq)]
pub struct FrameNo {
    number: u32,
}

impl Model for FrameNo {
    ghost Value = { ℕ };

    ghost view = { λ f. f.number };

    ghost invariant = { λ f. f.number < frame_limit };

    ghost inverse = { λ n. record { number = n } };
}

impl FrameNo {
    /// The frame of this number, or `None` from 268,435,456 on.
    pub fn try_new(number: u32) -> Option<FrameNo>
        ensures valid { IsSome result ↔ (number < frame_limit) }
        ensures value { IfSome result (λ frame. frame ≡ number) }
    {
        if number < FRAME_LIMIT {
            Some(FrameNo { number })
        } else {
            None
        }
    }

    /// The plain number.
    pub fn number(self) -> u32
        ensures value { result ≡ self }
        ensures within { result < frame_limit }
    {
        self.number
    }

    /// The number as an index into a list of all frames.
    pub fn index(self) -> usize
        ensures value { result ≡ self }
        ensures within { result < frame_limit }
    {
        self.number as usize
    }
}

/// The number of a VM slot, 0 to 1,023. Whether the slot exists depends on the configuration.
#[derive(Clone, Copy, Debug, PartialEq, Eq)]
pub struct VmId {
    number: u16,
}

impl Model for VmId {
    ghost Value = { ℕ };

    ghost view = { λ v. v.number };

    ghost invariant = { λ v. v.number < slot_limit };

    ghost inverse = { λ n. record { number = n } };
}

impl VmId {
    /// The slot of this number, or `None` from 1,024 on.
    pub fn try_new(number: u32) -> Option<VmId>
        ensures valid { IsSome result ↔ (number < slot_limit) }
        ensures value { IfSome result (λ vm. vm ≡ number) }
    {
        if number < SLOT_LIMIT {
            Some(VmId {
                number: number as u16,
            })
        } else {
            None
        }
    }

    /// The number as an index into a list of all slots.
    pub fn index(self) -> usize
        ensures value { result ≡ self }
        ensures within { result < slot_limit }
    {
        usize::from(self.number)
    }
}

/// The number of a virtual processor within its VM, 0 to 255.
#[derive(Clone, Copy, Debug, PartialEq, Eq)]
pub struct VcpuId {
    number: u16,
}

impl Model for VcpuId {
    ghost Value = { ℕ };

    ghost view = { λ c. c.number };

    ghost invariant = { λ c. c.number < vcpu_limit };

    ghost inverse = { λ n. record { number = n } };
}

impl VcpuId {
    /// The virtual processor of this number, or `None` from 256 on.
    pub fn try_new(number: u32) -> Option<VcpuId>
        ensures valid { IsSome result ↔ (number < vcpu_limit) }
        ensures value { IfSome result (λ vcpu. vcpu ≡ number) }
    {
        if number < VCPU_LIMIT as u32 {
            Some(VcpuId {
                number: number as u16,
            })
        } else {
            None
        }
    }

    /// The number as an index into a list of the virtual processors of a VM.
    pub fn index(self) -> usize
        ensures value { result ≡ self }
        ensures within { result < vcpu_limit }
    {
        usize::from(self.number)
    }
}

/// The number of a guest frame, 0 to 134,217,727: a guest sees at most 512 GiB in frames of 4,096 bytes.
#[derive(Clone, Copy, Debug, PartialEq, Eq)]
pub struct Gfn {
    number: u32,
}

impl Model for Gfn {
    ghost Value = { ℕ };

    ghost view = { λ g. g.number };

    ghost invariant = { λ g. g.number < gfn_limit };

    ghost inverse = { λ n. record { number = n } };
}

impl Gfn {
    /// The guest frame of this number, or `None` from 134,217,728 on.
    pub fn try_new(number: u32) -> Option<Gfn>
        ensures valid { IsSome result ↔ (number < gfn_limit) }
        ensures value { IfSome result (λ gfn. gfn ≡ number) }
    {
        if number < GFN_LIMIT {
            Some(Gfn { number })
        } else {
            None
        }
    }

    /// The plain number.
    pub fn number(self) -> u32
        ensures value { result ≡ self }
        ensures within { result < gfn_limit }
    {
        self.number
    }
}
