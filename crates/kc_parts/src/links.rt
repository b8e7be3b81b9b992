//! The links of the frames that are here, kept in their records.
use crate::Parts;
use kc_links::LinkStore;
use kc_types::{FrameNo, Link, MaybeFrame};

impl LinkStore for Parts {
    ghost use Rattle.kc_parts.specs.Parts.{links_of};
    ghost use Rattle.kc_parts.specs.Linking.{IsSameRest, rest_kept, rest_through, links_within};

    ghost links = { links_of };

    ghost same_rest = { IsSameRest };

    fn link(&self, frame: FrameNo) -> Option<Link> {
        match self.try_page(frame) {
            Some(page) => Some(Link {
                prev: page.meta.prev.get(),
                next: page.meta.next.get(),
            }),
            None => None,
        }
    }

    fn set_link(&mut self, frame: FrameNo, link: Link) {
        if let Some(page) = self.try_page_mut(frame) {
            page.meta.prev = MaybeFrame::of(link.prev);
            page.meta.next = MaybeFrame::of(link.next);
        }
    }

    ghost within = { links_within };

    ghost rest_kept = { rest_kept };

    ghost rest_through = { rest_through };
}
