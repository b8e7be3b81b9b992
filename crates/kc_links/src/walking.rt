//! The frames of a list, one after another.
ghost use Rattle.std.specs.Prelude.{◌≡◌};
ghost use Rattle.std.specs.Iterator.{YieldsFirst, item_count};
ghost use Rattle.kc_links.specs.Chain.{spelled};
ghost use Rattle.kc_links.specs.Ending.{listed};

use crate::LinkStore;
use kc_types::{Ends, FrameNo};

/// The frames of a list, from the first to the last.
#[derive(Drop)]
pub struct FrameWalk<'a, S: LinkStore> {
    store: &'a S,
    at: Option<FrameNo>,
    left: u32,
}

/// Walks through a list from its first frame to its last, as the links spell it.
pub fn walk<'a, S: LinkStore>(store: &'a S, ends: &Ends) -> FrameWalk<'a, S>
    ensures { spelled (S.links result.store.now) result.left result.at ≡ listed (S.links store.now) ends.now }
{
    FrameWalk {
        store,
        at: ends.head,
        left: ends.count,
    }
}

impl<'a, S: LinkStore> Iterator for FrameWalk<'a, S> {
    type Item = FrameNo;

    ghost next_gives = { YieldsFirst (λ w. spelled (S.links w.store.now) w.left w.at) };

    ghost remaining = { item_count (λ w. spelled (S.links w.store.now) w.left w.at) };

    fn next(&mut self) -> Option<FrameNo> {
        if self.left == 0 {
            return None;
        }
        let frame = self.at?;
        self.at = match self.store.link(frame) {
            Some(link) => link.next,
            None => None,
        };
        self.left -= 1;
        Some(frame)
    }
}
