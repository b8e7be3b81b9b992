//! The numbers of the line of sizes, the first after a state's header.

/// How many slots and frames there are, how many frames were the host's at boot, and how many digests are approved.
#[derive(Clone, Copy, Debug, PartialEq, Eq)]
pub struct Sizes {
    pub slots: u32,
    pub frames: u32,
    pub host: u32,
    pub approved: u32,
}
