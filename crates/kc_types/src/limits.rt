//! The limits of the rules and of their types, each defined here and nowhere else. Definitions have them under the
//! same names, in `specs/Limits.antt`.

/// The bytes in a page.
pub const PAGE_SIZE: u32 = 4_096;
/// The number of entries of a leaf table.
pub const LEAF_ENTRIES: usize = 512;

// ---- the ranges of numbers, in every version: they are the limits of version 3

/// Numbers of frames are below this.
pub const FRAME_LIMIT: u32 = 268_435_456;
/// Numbers of slots are below this.
pub const SLOT_LIMIT: u32 = 1_024;
/// Numbers of virtual processors are below this.
pub const VCPU_LIMIT: usize = 256;
/// Numbers of guest frames are below this.
pub const GFN_LIMIT: u32 = 134_217_728;
/// Numbers of leaf tables, and of root slots, are below this.
pub const LEAF_LIMIT: u32 = 262_144;
/// Numbers of boot images are below this.
pub const IMAGE_LIMIT: usize = 16;
/// The most bytes of a boot image.
pub const IMAGE_SIZE_LIMIT: u32 = 1_073_741_824;

// ---- the limits of versions 1 and 2: `Version` says which of them holds

/// The most frames of a configuration of version 1.
pub const FIRST_FRAME_LIMIT: u32 = 8_192;
/// The most frames of a configuration of version 2.
pub const SECOND_FRAME_LIMIT: u32 = 65_536;
/// The VM slots of version 1.
pub const FIRST_SLOT_LIMIT: u32 = 16;
/// The VM slots of version 2.
pub const SECOND_SLOT_LIMIT: u32 = 64;
/// The virtual processors of a VM in versions 1 and 2.
pub const FIRST_VCPU_LIMIT: usize = 8;
/// The guest frames of a VM in versions 1 and 2: it sees at most 1 GiB.
pub const FIRST_GFN_LIMIT: u32 = 262_144;
/// The most leaf tables of a VM in versions 1 and 2.
pub const FIRST_LEAF_LIMIT: u32 = 64;
/// The most boot images of a VM in versions 1 and 2.
pub const FIRST_IMAGE_LIMIT: usize = 4;
/// The most bytes of a boot image in versions 1 and 2.
pub const FIRST_IMAGE_SIZE_LIMIT: u32 = 1_048_576;

// ---- the rules of every version

/// The most digests of boot images that a configuration approves.
pub const DIGEST_LIMIT: usize = 64;
/// The most grants of one frame.
pub const SHARE_LIMIT: u32 = 100;
/// The most guest frames that one call names.
pub const RANGE_LIMIT: u32 = 64;
/// The most calls of a trace, and of a history.
pub const CALL_LIMIT: usize = 65_536;
/// The most workers of a replay.
pub const WORKER_LIMIT: usize = 64;
/// The most bytes of a line of a trace, without its newline.
pub const LINE_LIMIT: usize = 8_243;
/// The most bytes that are read from a source.
pub const BYTE_LIMIT: usize = 1_073_741_824;
