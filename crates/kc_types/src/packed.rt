//! A frame, a guest frame, an owner and a leaf in few bytes, as records and tables keep them. Contracts see what they
//! stand for.
ghost use Rattle.std.specs.Prelude.{◌≡◌};

use crate::{FRAME_LIMIT, FrameNo, GFN_LIMIT, Gfn, Owner, VmId};
use std::marker::Model;

/// A frame or none, in four bytes. Contracts see an option.
#[derive(Clone, Copy, Debug, PartialEq, Eq)]
pub struct MaybeFrame {
    // The limit stands for none.
    number: u32,
}

impl Model for MaybeFrame {
    ghost use Rattle.std.specs.Prelude.{ℕ, ◌≤◌, Option};
    ghost use Rattle.kc_types.specs.Limits.{frame_limit};
    ghost use Rattle.kc_types.specs.Maybe.{below, or_limit, back};

    ghost Value = { Option ℕ };

    ghost view = { λ m. below frame_limit m.number };

    ghost invariant = { λ m. m.number ≤ frame_limit };

    ghost inverse = { λ o. record { number = or_limit frame_limit o } };

    ghost inverse_ok = { λ m h i. record { number = back frame_limit m.number h i } };
}

impl MaybeFrame {
    /// Packs a frame, or none.
    pub fn of(frame: Option<FrameNo>) -> MaybeFrame
        ensures { result ≡ frame }
    {
        match frame {
            Some(frame) => MaybeFrame {
                number: frame.number(),
            },
            None => MaybeFrame {
                number: FRAME_LIMIT,
            },
        }
    }

    /// Returns the frame, if there is one.
    pub fn get(self) -> Option<FrameNo>
        ensures { result ≡ self }
    {
        FrameNo::try_new(self.number)
    }
}

/// A guest frame or none, in four bytes. Contracts see an option.
#[derive(Clone, Copy, Debug, PartialEq, Eq)]
pub struct MaybeGfn {
    // The limit stands for none.
    number: u32,
}

impl Model for MaybeGfn {
    ghost use Rattle.std.specs.Prelude.{ℕ, ◌≤◌, Option};
    ghost use Rattle.kc_types.specs.Limits.{gfn_limit};
    ghost use Rattle.kc_types.specs.Maybe.{below, or_limit, back};

    ghost Value = { Option ℕ };

    ghost view = { λ m. below gfn_limit m.number };

    ghost invariant = { λ m. m.number ≤ gfn_limit };

    ghost inverse = { λ o. record { number = or_limit gfn_limit o } };

    ghost inverse_ok = { λ m h i. record { number = back gfn_limit m.number h i } };
}

impl MaybeGfn {
    /// Packs a guest frame, or none.
    pub fn of(gfn: Option<Gfn>) -> MaybeGfn
        ensures { result ≡ gfn }
    {
        match gfn {
            Some(gfn) => MaybeGfn {
                number: gfn.number(),
            },
            None => MaybeGfn { number: GFN_LIMIT },
        }
    }

    /// Returns the guest frame, if there is one.
    pub fn get(self) -> Option<Gfn>
        ensures { result ≡ self }
    {
        Gfn::try_new(self.number)
    }
}

/// An owner, in two bytes. Contracts see the owner.
#[derive(Clone, Copy, Debug, PartialEq, Eq)]
pub struct OwnerCode {
    code: u16,
}

impl Model for OwnerCode {
    ghost use Rattle.std.specs.Prelude.{◌<◌, ◌+◌};
    ghost use Rattle.kc_types.specs.declared.owner.Owner.{Owner};
    ghost use Rattle.kc_types.specs.Owners.{owner_of, code_of, back_owner};
    ghost use Rattle.kc_types.specs.Limits.{slot_limit};

    ghost Value = { Owner };

    ghost view = { λ c. owner_of c.code };

    ghost invariant = { λ c. c.code < slot_limit + 3 };

    ghost inverse = { λ o. record { code = code_of o } };

    ghost inverse_ok = { λ c h i. record { code = back_owner c.code i } };
}

impl OwnerCode {
    /// Packs an owner.
    pub fn of(owner: Owner) -> OwnerCode
        ensures { result ≡ owner }
    {
        match owner {
            Owner::Core => OwnerCode { code: 0 },
            Owner::Host => OwnerCode { code: 1 },
            Owner::Free => OwnerCode { code: 2 },
            Owner::Vm(vm) => OwnerCode {
                code: vm.index() as u16 + 3,
            },
        }
    }

    /// Returns the owner.
    pub fn get(self) -> Owner
        ensures { result ≡ self }
    {
        match self.code {
            0 => Owner::Core,
            1 => Owner::Host,
            2 => Owner::Free,
            code => Owner::Vm(VmId::try_new(u32::from(code) - 3).unwrap()),
        }
    }
}
