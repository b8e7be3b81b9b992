//! Whether links and ends spell an owner's list.
ghost use Rattle.std.specs.Prelude.{◌≡◌, ◌↔◌, ◌<◌, false, length, None, IsTrue};
ghost use Rattle.kc_types.specs.declared.owner.Owner.TheVariants.{Core};
ghost use Rattle.kc_model.specs.Lawful.{same_owner};
ghost use Rattle.kc_dump.specs.Lists.{HasList};
ghost use Rattle.kc_audit.specs.Walking.{ComesNext, Walks, count_owned};

use kc_dump::FrameLine;
use kc_types::{Ends, FrameNo, Owner};

/// Whether a frame may come next in a list: it exists, is the owner's, and is preceded by the given one.
fn fits(lines: &[FrameLine], owner: &Owner, before: Option<FrameNo>, frame: FrameNo) -> bool
    ensures fits { IsTrue result ↔ ComesNext lines.now owner.now before frame }
    ensures within { IsTrue result → frame < length lines.now }
{
    match lines.get(frame.index()) {
        Some(line) => line.owner == *owner && line.prev == before,
        None => false,
    }
}

/// Whether as many frames of the owner as the list counts follow one another, from its head to its tail.
fn walks(lines: &[FrameLine], owner: &Owner, ends: &Ends) -> bool
    ensures { IsTrue result ↔ Walks lines.now owner.now ends.now.tail None ends.now.head ends.now.count }
{
    let mut before = None;
    let mut at = ends.head;
    for _step in 0..ends.count {
        let Some(frame) = at else {
            return false;
        };
        if !fits(lines, owner, before, frame) {
            return false;
        }
        before = Some(frame);
        at = lines[frame.index()].next;
    }
    at.is_none() && before == ends.tail
}

/// Whether ends and links spell, forwards and backwards, a sequence of exactly the frames of an owner, each once.
/// `owned` is the number of the owner's frames. A walk that follows the links both ways meets no frame twice, so it
/// takes no more steps than the owner has frames, and if it takes as many, it met them all.
pub fn has_list(lines: &[FrameLine], owner: &Owner, ends: &Ends, owned: u32) -> bool
    requires listed { same_owner Core owner.now ≡ false }
    requires owned { owned ≡ count_owned lines.now owner.now }
    ensures { IsTrue result ↔ HasList lines.now owner.now ends.now }
{
    ends.count == owned && walks(lines, owner, ends)
}
