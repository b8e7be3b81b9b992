//! What a VM slot holds, in plain records.

/// The phase of a VM slot.
#[derive(Clone, Copy, Debug, PartialEq, Eq)]
pub enum Phase {
    /// No VM.
    Empty,
    /// A VM whose boot images are being handed over.
    Booting,
    /// A VM whose boot images were measured and approved.
    Active,
    /// A VM with a boot image that was measured and is not approved.
    Dead,
}

/// A virtual processor of a slot; by default not registered, and waiting for nothing.
#[derive(Clone, Copy, Debug, Default, PartialEq, Eq)]
pub struct Vcpu {
    pub registered: bool,
    /// The guest frame that it waits for, if it waits.
    pub fault: Option<u32>,
}

/// A boot image.
#[derive(Clone, Copy, Debug, Default, PartialEq, Eq)]
pub struct Image {
    /// Its first guest frame.
    pub base: u32,
    /// Its length in bytes.
    pub len: u32,
    /// The pages handed over so far.
    pub pages: u32,
}
