//! What is noted of a call.
use kc_types::{Event, Gfn, Owner, Refusal};

/// A call without its numbers.
#[derive(Clone, Copy, Debug, PartialEq, Eq)]
pub enum CallKind {
    Take,
    Give,
    HostFault,
    HostRead,
    HostWrite,
    RegisterVm,
    RegisterVcpu,
    SetBoot,
    Remap,
    Verify,
    Map,
    GuestRead,
    GuestWrite,
    Grant,
    Revoke,
    GrantRange,
    RevokeRange,
    Drop,
    Clear,
}

/// A frame that exists and that a call names, by its number, as it was before the call.
#[derive(Clone, Copy, Debug, PartialEq, Eq)]
pub struct NamedFrame {
    pub frame: u32,
    pub owner: Owner,
    /// The guest frame at which its VM sees it, if a VM owns it.
    pub gfn: Option<Gfn>,
}

/// Why a call was denied.
#[derive(Clone, Copy, Debug, PartialEq, Eq)]
pub enum Denial {
    /// It had no effect.
    Refused(Refusal),
    /// Its VM is dead: the image of this number, the first such one, is not approved.
    Rejected(u32),
}

/// A call that was refused or rejected.
#[derive(Clone, Copy, Debug, PartialEq, Eq)]
pub struct Denied {
    /// The line of the call in its trace, whose header is line 1.
    pub line: u32,
    pub call: CallKind,
    pub reason: Denial,
    /// The number of the slot that it names, if it names one, whether the machine has that slot or not; in a report of
    /// one VM only that VM's.
    pub slot: Option<u32>,
    /// The frame that it names, or that is mapped at the guest frame that it names, of a range at the first; in a report
    /// of one VM not that of another VM.
    pub named: Option<NamedFrame>,
    /// In a report of one VM, the number of that frame if it is another VM's.
    pub foreign: Option<u32>,
}

/// A read or write of the host that a VM's frame served, from `offset` on, `len` bytes.
#[derive(Clone, Copy, Debug, PartialEq, Eq)]
pub struct Access {
    /// The line of the call in its trace, whose header is line 1.
    pub line: u32,
    pub call: CallKind,
    pub frame: u32,
    /// The slot of the VM that owns it.
    pub vm: u32,
    /// The guest frame at which its VM sees it.
    pub gfn: Option<Gfn>,
    pub offset: u32,
    pub len: u32,
}

/// What is noted of a call: that it was denied, or what it accessed; and each of its events.
#[derive(Debug, Drop)]
pub enum Note {
    Denied(Denied),
    Access(Access),
    Event(Event),
}

/// Which notes are reported beside the changes.
#[derive(Clone, Copy, Debug, PartialEq, Eq)]
pub struct Remarks {
    /// Calls that were refused or rejected.
    pub refused: bool,
    /// Reads and writes of the host that frames of VMs served.
    pub accesses: bool,
}
