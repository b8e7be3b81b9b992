//! Why a call is refused.
ghost use Rattle.std.specs.Prelude.{◌≡◌};
ghost use Rattle.kc_types.specs.Refusals.{number_of, name_of};

/// Why a call was refused. A refused call changes nothing. If several reasons apply, the reply is the one with the
/// lowest number.
#[derive(Clone, Copy, Debug, PartialEq, Eq)]
pub enum Refusal {
    BadVm,
    BadVcpu,
    BadFrame,
    BadGfn,
    BadRange,
    SlotUsed,
    NoVm,
    WrongPhase,
    VcpuUsed,
    NoVcpu,
    ImagesFull,
    Overlap,
    NoImage,
    ImageFull,
    ImageShort,
    NoFault,
    Mapped,
    NotMapped,
    NotHost,
    Protected,
    NotPresent,
    TablesFull,
    ShareFull,
    NotShared,
    Shared,
    NoFree,
}

impl Refusal {
    /// Its number, 1 to 26.
    pub fn number(self) -> u8
        ensures { result ≡ number_of self }
    {
        match self {
            Refusal::BadVm => 1,
            Refusal::BadVcpu => 2,
            Refusal::BadFrame => 3,
            Refusal::BadGfn => 4,
            Refusal::BadRange => 5,
            Refusal::SlotUsed => 6,
            Refusal::NoVm => 7,
            Refusal::WrongPhase => 8,
            Refusal::VcpuUsed => 9,
            Refusal::NoVcpu => 10,
            Refusal::ImagesFull => 11,
            Refusal::Overlap => 12,
            Refusal::NoImage => 13,
            Refusal::ImageFull => 14,
            Refusal::ImageShort => 15,
            Refusal::NoFault => 16,
            Refusal::Mapped => 17,
            Refusal::NotMapped => 18,
            Refusal::NotHost => 19,
            Refusal::Protected => 20,
            Refusal::NotPresent => 21,
            Refusal::TablesFull => 22,
            Refusal::ShareFull => 23,
            Refusal::NotShared => 24,
            Refusal::Shared => 25,
            Refusal::NoFree => 26,
        }
    }

    /// Its name in reply texts.
    pub fn name(self) -> &'static str
        ensures { result.now ≡ name_of self }
    {
        match self {
            Refusal::BadVm => "bad-vm",
            Refusal::BadVcpu => "bad-vcpu",
            Refusal::BadFrame => "bad-frame",
            Refusal::BadGfn => "bad-gfn",
            Refusal::BadRange => "bad-range",
            Refusal::SlotUsed => "slot-used",
            Refusal::NoVm => "no-vm",
            Refusal::WrongPhase => "wrong-phase",
            Refusal::VcpuUsed => "vcpu-used",
            Refusal::NoVcpu => "no-vcpu",
            Refusal::ImagesFull => "images-full",
            Refusal::Overlap => "overlap",
            Refusal::NoImage => "no-image",
            Refusal::ImageFull => "image-full",
            Refusal::ImageShort => "image-short",
            Refusal::NoFault => "no-fault",
            Refusal::Mapped => "mapped",
            Refusal::NotMapped => "not-mapped",
            Refusal::NotHost => "not-host",
            Refusal::Protected => "protected",
            Refusal::NotPresent => "not-present",
            Refusal::TablesFull => "tables-full",
            Refusal::ShareFull => "share-full",
            Refusal::NotShared => "not-shared",
            Refusal::Shared => "shared",
            Refusal::NoFree => "no-free",
        }
    }
}
