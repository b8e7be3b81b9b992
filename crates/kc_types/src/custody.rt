//! What an auditor sees of frames and slots: how calls change them, and what follows from that.
ghost use Rattle.std.specs.Prelude.{◌≡◌, ◌≤◌, [], length, None, false, IfOk};
ghost use Rattle.kc_types.specs.Limits.{image_limit};

use crate::{Gfn, Memory, Owner, Phase};
use std::alloc::Global;
use std::marker::Model;

/// The custody of a frame: all that the core records of it except its bytes and its neighbours in lists.
#[derive(Clone, Copy, Debug, PartialEq, Eq)]
pub struct Custody {
    pub owner: Owner,
    /// The guest frame at which its VM sees it.
    pub gfn: Option<Gfn>,
    /// How often its VM has granted the host access, 0 to 100.
    pub share: u32,
    /// Whether the host's access is mapped.
    pub present: bool,
}

impl Custody {
    /// The custody of a frame that no VM sees, that is not shared, and that the host has not mapped.
    pub fn untouched(owner: Owner) -> Custody
        ensures { result ≡ record { owner = owner; gfn = None; share = 0; present = false } }
    {
        Custody {
            owner,
            gfn: None,
            share: 0,
            present: false,
        }
    }
}

/// A change of a frame's custody by a call.
#[derive(Clone, Copy, Debug, PartialEq, Eq)]
pub struct FrameChange {
    /// The line of the call in its trace, whose header is line 1.
    pub line: u32,
    pub frame: u32,
    pub before: Custody,
    pub after: Custody,
}

/// A boot image as it was measured.
#[derive(Clone, Copy, Debug, Default, PartialEq, Eq)]
pub struct MeasuredImage {
    /// Its first guest frame.
    pub base: u32,
    /// Its length in bytes.
    pub len: u32,
    /// The SHA-256 digest (FIPS 180-4) of its bytes.
    pub digest: [u8; 32],
}

/// The boot images of a slot as they were measured, at most 16, seen as a list.
#[derive(Debug, Drop)]
pub struct MeasuredImages {
    images: Vec<MeasuredImage>,
}

impl Model for MeasuredImages {
    ghost use Rattle.std.specs.Prelude.{List, ◌≤◌, length};
    ghost use Rattle.kc_types.specs.Limits.{image_limit};
    ghost use Rattle.kc_types.specs.declared.custody.MeasuredImage.{MeasuredImage};

    ghost Value = { List MeasuredImage };

    ghost view = { λ m. m.images.items };

    ghost invariant = { λ m. length m.images.items ≤ image_limit };
}

impl MeasuredImages {
    /// Makes an empty list, which takes no memory.
    pub fn none(alloc: Global) -> MeasuredImages
        ensures { result ≡ [] }
    {
        MeasuredImages {
            images: Vec::new(alloc),
        }
    }

    /// Makes a list of these images.
    pub fn of(images: Vec<MeasuredImage>) -> MeasuredImages
        requires { length images.items ≤ image_limit }
        ensures { result ≡ images.items }
    {
        MeasuredImages { images }
    }

    /// The images, in the order of their numbers.
    pub fn as_slice(&self) -> &[MeasuredImage]
        ensures value { result.now ≡ self.now }
        ensures few { length result.now ≤ image_limit }
    {
        self.images.as_slice()
    }
}

/// A launch measurement, SHA-256, or none. It is in memory of its own, so that events, which seldom have one, stay small.
#[derive(Debug, Drop)]
pub struct Launch {
    digest: Option<Box<[u8; 32]>>,
}

impl Model for Launch {
    ghost use Rattle.std.specs.Prelude.{ℕ, List, Option, option_map};
    ghost use Rattle.std.specs.Box.{box_value};

    ghost Value = { Option (List ℕ) };

    ghost view = { λ l. option_map box_value l.digest };
}

impl Launch {
    /// Makes none, which takes no memory.
    pub fn none() -> Launch
        ensures { result ≡ None }
    {
        Launch { digest: None }
    }

    /// Makes that of this digest, if there is one, in memory that was taken before.
    pub fn of(room: Box<[u8; 32]>, digest: Option<[u8; 32]>) -> Launch
        ensures { result ≡ digest }
    {
        let Some(digest) = digest else {
            return Launch::none();
        };
        let mut room = room;
        *room = digest;
        Launch { digest: Some(room) }
    }

    /// The digest, if there is one.
    pub fn digest(&self) -> Option<[u8; 32]>
        ensures { result ≡ self.now }
    {
        match &self.digest {
            Some(digest) => Some(**digest),
            None => None,
        }
    }
}

/// What a `verify` measured of what a slot boots.
#[derive(Debug, Drop)]
pub struct Measurement {
    pub images: MeasuredImages,
    /// The launch measurement, if the version approves boots as a whole.
    pub launch: Launch,
}

impl Measurement {
    /// Makes the measurement of nothing, which takes no memory.
    pub fn none(alloc: Global) -> Measurement
        ensures { result ≡ record { images = []; launch = None } }
    {
        Measurement {
            images: MeasuredImages::none(alloc),
            launch: Launch::none(),
        }
    }
}

/// A change of a slot's phase by a call.
#[derive(Debug, Drop)]
pub struct PhaseChange {
    /// The line of the call in its trace, whose header is line 1.
    pub line: u32,
    pub vm: u32,
    /// The phase after the call.
    pub phase: Phase,
    /// What the call measured, if the slot became active or dead by it; else nothing.
    pub measurement: Measurement,
}

/// One change that a call makes.
#[derive(Debug, Drop)]
pub enum Change {
    Frame(FrameChange),
    Phase(PhaseChange),
}

/// One event of a call.
#[derive(Debug, Drop)]
pub enum Event {
    Change(Change),
    /// The host read a frame that this VM had shared.
    Read { vm: u32 },
    /// The host wrote a frame that this VM had shared.
    Write { vm: u32 },
}

/// A stretch in which a VM shared a frame with the host.
#[derive(Clone, Copy, Debug, PartialEq, Eq)]
pub struct Sharing {
    pub frame: u32,
    /// The guest frame at which the VM sees it.
    pub gfn: Option<Gfn>,
    /// The line of the call that shared it.
    pub from: u32,
    /// The line of the call that ended the sharing; `None` if the frame is still shared at the trace's end.
    pub to: Option<u32>,
}

/// Stretches in which a VM shared frames, seen as a list.
#[derive(Debug, Drop)]
pub struct Sharings {
    sharings: Vec<Sharing>,
}

impl Model for Sharings {
    ghost use Rattle.std.specs.Prelude.{List};
    ghost use Rattle.kc_types.specs.declared.custody.Sharing.{Sharing};

    ghost Value = { List Sharing };

    ghost view = { λ s. s.sharings.items };
}

impl Sharings {
    pub fn of(sharings: Vec<Sharing>) -> Sharings
        ensures { result ≡ sharings.items }
    {
        Sharings { sharings }
    }

    /// The stretches, in order.
    pub fn as_slice(&self) -> &[Sharing]
        ensures { result.now ≡ self.now }
    {
        self.sharings.as_slice()
    }
}

/// A life of a VM: what happened to it from the call that registered it to the one that cleared it.
#[derive(Debug, Drop)]
pub struct Life {
    /// Its slot, 0 to 1,023.
    pub vm: u32,
    /// The line of the call that registered it.
    pub registered: u32,
    /// The line of the `verify` that approved its images.
    pub active: Option<u32>,
    /// The line of the `verify` that refused them.
    pub dead: Option<u32>,
    /// The line of the `clear` that ended it; `None` if the VM is still there at the trace's end.
    pub cleared: Option<u32>,
    /// What was measured of what it booted.
    pub measurement: Measurement,
    /// The number of frames it ever owned.
    pub frames: usize,
    /// The most frames it owned at once.
    pub most: usize,
    /// The number of frames it owns at the end.
    pub left: usize,
    /// The number of times it gave a frame back.
    pub returned: usize,
    /// The number of reads and writes by the host that its shared frames served.
    pub reads: usize,
    pub writes: usize,
    /// What it shared and when, in the order in which the sharing began.
    pub shared: Sharings,
}

/// A stretch of lines during which a frame's custody does not change.
#[derive(Clone, Copy, Debug, PartialEq, Eq)]
pub struct Bar {
    pub frame: u32,
    pub custody: Custody,
    /// The first line.
    pub from: u32,
    /// The line after the last one.
    pub to: u32,
}
