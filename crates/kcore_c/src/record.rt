//! What C gets of frames and of a session, in numbers.
ghost use Rattle.std.specs.Prelude.{◌≡◌, ◌≤◌, length, map, take, drop, MatchOption};
ghost use Rattle.kcore_c.specs.Record.{owner_code, vm_code, gfn_code, flag_code, asking, record_of, change_of, is_of, IsNextOf, HasNoneOf};

use kc_core::KCore;
use kc_custody::custody_at;
use kc_types::{Actor, Custody, FrameChange, Gfn, Owner};

/// The number for no slot and for no guest frame; as a slot that asks, the host.
pub const NONE: u32 = 4_294_967_295;

/// The custody of a frame.
#[repr(C)]
#[derive(Clone, Copy)]
pub struct Record {
    /// Its owner: 0 the core, 1 the host, 2 nobody, 3 a VM.
    pub owner: u32,
    /// The slot of the VM that owns it, else `NONE`.
    pub vm: u32,
    /// The guest frame at which its VM sees it, else `NONE`.
    pub gfn: u32,
    /// How many of its VM's grants are not revoked, 0 to 100.
    pub share: u32,
    /// 1 if the host has it mapped, else 0.
    pub present: u32,
}

/// A change of a frame's custody by a call.
#[repr(C)]
#[derive(Clone, Copy)]
pub struct Change {
    pub frame: u32,
    pub before: Record,
    pub after: Record,
}

/// How many frames a session's core has, how many of them are its own and the host's, its slots, and how many more
/// calls its volume can hold.
#[repr(C)]
#[derive(Clone, Copy)]
pub struct Sizes {
    pub frames: u32,
    pub core: u32,
    pub host: u32,
    pub slots: u32,
    pub left: u32,
}

/// Who asks, by the numbers that C gives.
pub fn asking(vm: u32, vcpu: u32) -> Actor
    ensures { result ≡ asking vm vcpu }
{
    if vm == NONE {
        Actor::Host
    } else {
        Actor::Vcpu(vm, vcpu)
    }
}

fn owner_code(owner: Owner) -> u32
    ensures { result ≡ owner_code owner }
{
    match owner {
        Owner::Core => 0,
        Owner::Host => 1,
        Owner::Free => 2,
        Owner::Vm(_) => 3,
    }
}

fn vm_code(owner: Owner) -> u32
    ensures { result ≡ vm_code owner }
{
    match owner {
        Owner::Vm(vm) => vm.index() as u32,
        Owner::Core | Owner::Host | Owner::Free => NONE,
    }
}

fn gfn_code(gfn: Option<Gfn>) -> u32
    ensures { result ≡ gfn_code gfn }
{
    match gfn {
        Some(gfn) => gfn.number(),
        None => NONE,
    }
}

fn flag_code(flag: bool) -> u32
    ensures { result ≡ flag_code flag }
{
    if flag { 1 } else { 0 }
}

/// What C gets of a frame's custody.
pub fn record_of(custody: &Custody) -> Record
    ensures { result ≡ record_of custody.now }
{
    Record {
        owner: owner_code(custody.owner),
        vm: vm_code(custody.owner),
        gfn: gfn_code(custody.gfn),
        share: custody.share,
        present: flag_code(custody.present),
    }
}

/// What C gets of a change.
pub fn change_of(change: &FrameChange) -> Change
    ensures { result ≡ change_of change.now }
{
    Change {
        frame: change.frame,
        before: record_of(&change.before),
        after: record_of(&change.after),
    }
}

/// Puts what C gets of changes at the front of a buffer, whose other places stay.
pub fn tell_changes(changes: &[FrameChange], out: &mut [Change])
    requires { length changes.now ≤ length out.old }
    ensures front { take (length changes.now) out.new ≡ map change_of changes.now }
    ensures rest { drop (length changes.now) out.new ≡ drop (length changes.now) out.old }
{
    for i in 0..changes.len() {
        out[i] = change_of(&changes[i]);
    }
}

/// Whether a frame's record has this owner.
fn is_of(core: &KCore, frame: u32, owner: u32, vm: u32) -> bool
    ensures { result ≡ is_of core.now.state owner vm frame }
{
    let custody = custody_at(core, frame);
    owner_code(custody.owner) == owner && vm_code(custody.owner) == vm
}

/// The first frame from this number on whose record has this owner.
pub fn next_of(core: &KCore, owner: u32, vm: u32, from: u32) -> Option<u32>
    ensures { MatchOption result (HasNoneOf core.now.state owner vm from) (IsNextOf core.now.state owner vm from) }
{
    for frame in from..core.config().frames() {
        if is_of(core, frame, owner, vm) {
            return Some(frame);
        }
    }
    None
}
