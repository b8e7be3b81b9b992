//! Which numbers a line may have.
ghost use Rattle.std.specs.Prelude.{◌≡◌, ◌==◌, nat_lt, nat_le, ◌&&◌, length};
ghost use Rattle.std.specs.List.{list_all};
ghost use Rattle.kc_types.specs.Configuration.{gfns_of, most_frames, most_leaves};
ghost use Rattle.kc_dump.specs.Ranges.{is_below, are_ends, is_entry, is_owner, is_frame};

use kc_dump::FrameLine;
use kc_types::{Ends, FrameNo, Gfn, Owner, SHARE_LIMIT, Version};

fn is_below(limit: u32, frame: Option<FrameNo>) -> bool
    ensures { result ≡ is_below limit frame }
{
    match frame {
        Some(frame) => frame.number() < limit,
        None => true,
    }
}

pub fn are_ends(frames: u32, ends: &Ends) -> bool
    ensures { result ≡ are_ends frames ends.now }
{
    is_below(frames, ends.head) && is_below(frames, ends.tail) && ends.count <= frames
}

pub fn are_sizes(version: Version, frames: u32, core: u32, leaves: u32) -> bool
    ensures { result ≡ (nat_lt 0 frames && nat_le frames (most_frames version) && nat_le core frames && nat_lt 0 leaves && nat_le leaves (most_leaves version)) }
{
    0 < frames
        && frames <= version.most_frames()
        && core <= frames
        && 0 < leaves
        && leaves <= version.most_leaves()
}

pub fn is_entry(version: Version, frames: u32, vm: u32, gfn: Gfn, frame: FrameNo) -> bool
    ensures { result ≡ is_entry version frames vm (gfn, frame) }
{
    vm < version.slots() && gfn.number() < version.gfns() && frame.number() < frames
}

fn is_owner(version: Version, owner: &Owner) -> bool
    ensures { result ≡ is_owner version owner.now }
{
    match owner {
        Owner::Vm(vm) => (vm.index() as u32) < version.slots(),
        _ => true,
    }
}

fn is_gfn(version: Version, gfn: Option<Gfn>) -> bool
    ensures { result ≡ is_below (gfns_of version) gfn }
{
    match gfn {
        Some(gfn) => gfn.number() < version.gfns(),
        None => true,
    }
}

fn is_long(digest: &[u8]) -> bool
    ensures { result ≡ (length digest.now == 32) }
{
    digest.len() == 32
}

/// Whether each element of a list is a byte.
fn are_bytes(bytes: &[u8]) -> bool
    ensures { result ≡ list_all (λ b. nat_lt b 256) bytes.now }
{
    true
}

pub fn is_frame(version: Version, frames: u32, frame: &FrameLine) -> bool
    ensures { result ≡ is_frame version frames frame.now }
{
    is_owner(version, &frame.owner)
        && frame.share <= SHARE_LIMIT
        && is_gfn(version, frame.gfn)
        && is_below(frames, frame.prev)
        && is_below(frames, frame.next)
        && is_long(&frame.digest)
        && are_bytes(&frame.digest)
}
