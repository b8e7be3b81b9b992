//! The description of a state.
use arrayvec::ArrayVec;
use kc_dump::Dump;
use kc_page::PageBytes;
use kc_types::{FIRST_IMAGE_LIMIT, FIRST_VCPU_LIMIT, Image, Vcpu};
use std::marker::Model;

/// What a dump leaves out of a slot: its 8 virtual processors, registered or not, and its boot images, at most 4.
#[derive(Drop)]
pub struct SlotRest {
    pub vcpus: ArrayVec<Vcpu, FIRST_VCPU_LIMIT>,
    pub images: ArrayVec<Image, FIRST_IMAGE_LIMIT>,
}

impl Model for SlotRest {
    ghost use Rattle.kc_snapshot.specs.Told.{SlotRest as Value_of_rest};

    ghost Value = { Value_of_rest };

    ghost view = { λ r. record { vcpus = r.vcpus.items; images = r.images.items } };
}

/// A dump and what it leaves out.
#[derive(Drop)]
pub struct Told {
    /// How many frames were the host's at boot.
    pub host: u32,
    /// The SHA-256 digests of the boot images that are approved.
    pub approved: Vec<[u8; 32]>,
    /// For each slot, by its number.
    pub slots: Vec<SlotRest>,
    /// The bytes of each frame's page, by its number.
    pub pages: Vec<PageBytes>,
    pub dump: Dump,
}

impl Model for Told {
    ghost use Rattle.kc_snapshot.specs.Told.{Told as Value_of_told, bytes_of};

    ghost Value = { Value_of_told };

    ghost view = { λ t. record { rest = record { host = t.host; approved = t.approved.items; slots = t.slots.items; pages = bytes_of t.pages.items }; dump = t.dump } };
}

impl Told {
    ghost use Rattle.std.specs.Prelude.{◌≡◌};
    ghost use Rattle.kc_snapshot.specs.Told.{bytes_of};

    /// Takes apart: the bytes of the pages, and the dump.
    pub(crate) fn into_parts(self) -> (Vec<PageBytes>, Dump)
        ensures pages { bytes_of result.0.items ≡ self.rest.pages }
        ensures dump { result.1 ≡ self.dump }
    {
        let Told {
            host: _,
            approved: _,
            slots: _,
            pages,
            dump,
        } = self;
        (pages, dump)
    }
}
