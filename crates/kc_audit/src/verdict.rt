//! What is wrong with a frame.
ghost use Rattle.std.specs.Prelude.{◌≡◌};
ghost use Rattle.sha2.specs.Sha256.{sha256};
ghost use Rattle.kc_model.specs.State.{zero_page};
ghost use Rattle.kc_types.specs.declared.owner.Owner.TheVariants.{Host, Free};
ghost use Rattle.kc_model.specs.Lawful.{same_owner, is_vm};
ghost use Rattle.kc_audit.specs.Verdicts.{verdict_by, wrong_core, wrong_link, wrong_gfn, shows, named};

use crate::Finding;
use kc_dump::FrameLine;
use kc_types::{FrameNo, Owner};

/// For each kind of finding that names a frame, whether it names this one.
#[derive(Clone, Copy, Debug, Default, PartialEq, Eq)]
pub struct FrameVerdict {
    pub core_owner: bool,
    pub linked: bool,
    pub gfn: bool,
    pub share: bool,
    pub present: bool,
    pub bytes: bool,
}

/// A kind of finding that names a frame.
#[derive(Clone, Copy, Debug, PartialEq, Eq)]
pub enum FrameKind {
    CoreOwner,
    Linked,
    Gfn,
    Share,
    Present,
    Bytes,
}

impl FrameKind {
    /// Whether a frame with this verdict is named.
    pub fn shows(self, verdict: &FrameVerdict) -> bool
        ensures { result ≡ shows self verdict.now }
    {
        match self {
            FrameKind::CoreOwner => verdict.core_owner,
            FrameKind::Linked => verdict.linked,
            FrameKind::Gfn => verdict.gfn,
            FrameKind::Share => verdict.share,
            FrameKind::Present => verdict.present,
            FrameKind::Bytes => verdict.bytes,
        }
    }

    /// The finding of this kind that names a frame.
    pub fn finding(self, frame: FrameNo) -> Finding
        ensures { result ≡ named self frame }
    {
        match self {
            FrameKind::CoreOwner => Finding::CoreOwner(frame),
            FrameKind::Linked => Finding::Linked(frame),
            FrameKind::Gfn => Finding::Gfn(frame),
            FrameKind::Share => Finding::Share(frame),
            FrameKind::Present => Finding::Present(frame),
            FrameKind::Bytes => Finding::Bytes(frame),
        }
    }
}

fn wrong_core(core: u32, frame: u32, line: &FrameLine) -> bool
    ensures { result ≡ wrong_core core frame line.now.owner }
{
    match line.owner {
        Owner::Core => core <= frame,
        Owner::Host | Owner::Free | Owner::Vm(_) => frame < core,
    }
}

fn wrong_link(line: &FrameLine) -> bool
    ensures { result ≡ wrong_link line.now.owner line.now.prev line.now.next }
{
    match line.owner {
        Owner::Core | Owner::Host => line.prev.is_some() || line.next.is_some(),
        Owner::Free | Owner::Vm(_) => false,
    }
}

fn wrong_gfn(mapped: bool, line: &FrameLine) -> bool
    ensures { result ≡ wrong_gfn mapped line.now.owner line.now.gfn }
{
    match line.owner {
        Owner::Vm(_) => line.gfn.is_none() || !mapped,
        Owner::Core | Owner::Host | Owner::Free => line.gfn.is_some(),
    }
}

fn is_vm(owner: &Owner) -> bool
    ensures { result ≡ is_vm owner.now }
{
    match owner {
        Owner::Vm(_) => true,
        Owner::Core | Owner::Host | Owner::Free => false,
    }
}

fn is_host(owner: &Owner) -> bool
    ensures { result ≡ same_owner owner.now Host }
{
    *owner == Owner::Host
}

fn is_free(owner: &Owner) -> bool
    ensures { result ≡ same_owner owner.now Free }
{
    *owner == Owner::Free
}

/// What is wrong with a frame. `core` is the number of the core's frames, `mapped` whether the table of its VM maps it
/// where the record says, `zeros` the digest of a page of zero bytes.
pub fn judge(
    core: u32,
    frame: u32,
    mapped: bool,
    zeros: &[u8; 32],
    line: &FrameLine,
) -> FrameVerdict
    requires { zeros.now ≡ sha256 zero_page }
    ensures { result ≡ verdict_by core frame mapped line.now }
{
    FrameVerdict {
        core_owner: wrong_core(core, frame, line),
        linked: wrong_link(line),
        gfn: wrong_gfn(mapped, line),
        share: line.share > 0 && !is_vm(&line.owner),
        present: line.present && !is_host(&line.owner) && line.share == 0,
        bytes: is_free(&line.owner) && line.digest != *zeros,
    }
}
