//! Versions of the rules, and the limits of each. A configuration asks for one, and a dump names it.
ghost use Rattle.std.specs.Prelude.{◌≡◌, ◌≤◌};
ghost use Rattle.kc_types.specs.Limits.{frame_limit, slot_limit, vcpu_limit, gfn_limit, leaf_limit, image_limit};
ghost use Rattle.kc_types.specs.Configuration.{most_frames, slots_of, vcpus_of, gfns_of, roots_of, most_leaves, most_images, most_image_bytes, measures_launch, has_dump};

use crate::{
    FIRST_FRAME_LIMIT, FIRST_GFN_LIMIT, FIRST_IMAGE_LIMIT, FIRST_IMAGE_SIZE_LIMIT,
    FIRST_LEAF_LIMIT, FIRST_SLOT_LIMIT, FIRST_VCPU_LIMIT, FRAME_LIMIT, GFN_LIMIT, IMAGE_LIMIT,
    IMAGE_SIZE_LIMIT, LEAF_ENTRIES, LEAF_LIMIT, SECOND_FRAME_LIMIT, SECOND_SLOT_LIMIT, SLOT_LIMIT,
    VCPU_LIMIT,
};

/// The first version; the second, which has larger limits and two more calls; and the third, for a machine of real size.
#[derive(Clone, Copy, Debug, PartialEq, Eq)]
pub enum Version {
    One,
    Two,
    Three,
}

impl Version {
    /// The most frames of a configuration: 8,192, 65,536 or 268,435,456.
    pub fn most_frames(self) -> u32
        ensures value { result ≡ most_frames self }
        ensures few { result ≤ frame_limit }
    {
        match self {
            Version::One => FIRST_FRAME_LIMIT,
            Version::Two => SECOND_FRAME_LIMIT,
            Version::Three => FRAME_LIMIT,
        }
    }

    /// The number of VM slots: 16, 64 or 1,024.
    pub fn slots(self) -> u32
        ensures value { result ≡ slots_of self }
        ensures few { result ≤ slot_limit }
    {
        match self {
            Version::One => FIRST_SLOT_LIMIT,
            Version::Two => SECOND_SLOT_LIMIT,
            Version::Three => SLOT_LIMIT,
        }
    }

    /// The number of virtual processors of a VM: 8, or 256 in version 3.
    pub fn vcpus(self) -> u32
        ensures value { result ≡ vcpus_of self }
        ensures few { result ≤ vcpu_limit }
    {
        match self {
            Version::One | Version::Two => FIRST_VCPU_LIMIT as u32,
            Version::Three => VCPU_LIMIT as u32,
        }
    }

    /// The number of guest frames of a VM: 262,144, or 134,217,728 in version 3.
    pub fn gfns(self) -> u32
        ensures value { result ≡ gfns_of self }
        ensures few { result ≤ gfn_limit }
    {
        match self {
            Version::One | Version::Two => FIRST_GFN_LIMIT,
            Version::Three => GFN_LIMIT,
        }
    }

    /// The number of root slots of a VM's table, one for each leaf table that it could have: 512, or
    /// 262,144 in version 3.
    pub fn roots(self) -> u32
        ensures value { result ≡ roots_of self }
        ensures few { result ≤ leaf_limit }
    {
        self.gfns() / LEAF_ENTRIES as u32
    }

    /// The most leaf tables of a VM: 64, or 262,144 in version 3.
    pub fn most_leaves(self) -> u32
        ensures value { result ≡ most_leaves self }
        ensures few { result ≤ leaf_limit }
    {
        match self {
            Version::One | Version::Two => FIRST_LEAF_LIMIT,
            Version::Three => LEAF_LIMIT,
        }
    }

    /// The most boot images of a VM: 4, or 16 in version 3.
    pub fn most_images(self) -> u32
        ensures value { result ≡ most_images self }
        ensures few { result ≤ image_limit }
    {
        match self {
            Version::One | Version::Two => FIRST_IMAGE_LIMIT as u32,
            Version::Three => IMAGE_LIMIT as u32,
        }
    }

    /// The most bytes of a boot image: 1,048,576, or 1,073,741,824 in version 3.
    pub fn most_image_bytes(self) -> u32
        ensures { result ≡ most_image_bytes self }
    {
        match self {
            Version::One | Version::Two => FIRST_IMAGE_SIZE_LIMIT,
            Version::Three => IMAGE_SIZE_LIMIT,
        }
    }

    /// Whether `verify` approves a boot as a whole, by its launch measurement: in version 3. In versions 1 and 2 it
    /// approves each image.
    pub fn measures_launch(self) -> bool
        ensures { result ≡ measures_launch self }
    {
        match self {
            Version::One | Version::Two => false,
            Version::Three => true,
        }
    }

    /// Whether there are texts of a core's dump and of its state: version 3 has none.
    pub fn has_dump(self) -> bool
        ensures { result ≡ has_dump self }
    {
        match self {
            Version::One | Version::Two => true,
            Version::Three => false,
        }
    }
}
