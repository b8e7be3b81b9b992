//! Putting frames into lists and taking them out.
ghost use Rattle.std.specs.Prelude.{◌≡◌, ◌+◌, ◌<◌, [], ◌∷◌, ◌++◌, Option, Some, None, IfSome, MatchOption};
ghost use Rattle.kc_links.specs.Chain.{pointing_forward, pointing_back, unlinked, Holds};
ghost use Rattle.kc_links.specs.Ending.{listed, IsList, KeepsOthers, AreApart, starting, stopping};
ghost use Rattle.kc_model.specs.Lawful.{times_in};
ghost use Rattle.kc_model.specs.Effects.{without};

use crate::LinkStore;
use kc_types::{Ends, FrameNo, Link};

/// Sets the frame after `at` to `next`; `at` is `None` for the start of the list.
fn point_forward<S: LinkStore>(
    store: &mut S,
    ends: &mut Ends,
    at: Option<FrameNo>,
    next: Option<FrameNo>,
)
    requires { Holds (S.links store.old) at }
    ensures links { S.links store.new ≡ pointing_forward (S.links store.old) at next }
    ensures ends { ends.new ≡ starting ends.old at next }
    ensures rest { S.same_rest store.old store.new }
{
    match at {
        Some(frame) => {
            let link = store.link(frame).unwrap();
            store.set_link(
                frame,
                Link {
                    prev: link.prev,
                    next,
                },
            );
        },
        None => ends.head = next,
    }
}

/// Sets the frame before `at` to `prev`; `at` is `None` for the end of the list.
fn point_back<S: LinkStore>(
    store: &mut S,
    ends: &mut Ends,
    at: Option<FrameNo>,
    prev: Option<FrameNo>,
)
    requires { Holds (S.links store.old) at }
    ensures links { S.links store.new ≡ pointing_back (S.links store.old) at prev }
    ensures ends { ends.new ≡ stopping ends.old at prev }
    ensures rest { S.same_rest store.old store.new }
{
    match at {
        Some(frame) => {
            let link = store.link(frame).unwrap();
            store.set_link(
                frame,
                Link {
                    prev,
                    next: link.next,
                },
            );
        },
        None => ends.tail = prev,
    }
}

/// Appends a frame that is in no list.
pub fn append<S: LinkStore>(store: &mut S, ends: &mut Ends, frame: FrameNo)
    requires list { IsList (S.links store.old) ends.old }
    requires alone { S.links store.old frame ≡ Some unlinked }
    requires apart { times_in (listed (S.links store.old) ends.old) frame ≡ 0 }
    ensures list { IsList (S.links store.new) ends.new }
    ensures frames { listed (S.links store.new) ends.new ≡ listed (S.links store.old) ends.old ++ frame ∷ [] }
    ensures others { KeepsOthers (S.links store.old) (S.links store.new) (listed (S.links store.old) ends.old ++ frame ∷ []) }
    ensures rest { S.same_rest store.old store.new }
{
    let link = Link {
        prev: ends.tail,
        next: None,
    };
    point_forward(store, ends, link.prev, Some(frame));
    store.set_link(frame, link);
    ends.tail = Some(frame);
    ends.count += 1;
}

/// Takes a frame off the list, wherever it is in it.
pub fn unlink<S: LinkStore>(store: &mut S, ends: &mut Ends, frame: FrameNo)
    requires list { IsList (S.links store.old) ends.old }
    requires inside { 0 < times_in (listed (S.links store.old) ends.old) frame }
    ensures list { IsList (S.links store.new) ends.new }
    ensures frames { listed (S.links store.new) ends.new ≡ without (listed (S.links store.old) ends.old) frame }
    ensures alone { S.links store.new frame ≡ Some unlinked }
    ensures others { KeepsOthers (S.links store.old) (S.links store.new) (listed (S.links store.old) ends.old) }
    ensures rest { S.same_rest store.old store.new }
{
    let link = store.link(frame).unwrap();
    point_forward(store, ends, link.prev, link.next);
    point_back(store, ends, link.next, link.prev);
    store.set_link(frame, Link::UNLINKED);
    ends.count -= 1;
}

/// Takes the first frame off the list.
pub fn pop_front<S: LinkStore>(store: &mut S, ends: &mut Ends) -> Option<FrameNo>
    requires { IsList (S.links store.old) ends.old }
    ensures list { IsList (S.links store.new) ends.new }
    ensures frames { MatchOption result ((listed (S.links store.old) ends.old ≡ []) × (listed (S.links store.new) ends.new ≡ [])) (λ frame. listed (S.links store.old) ends.old ≡ frame ∷ listed (S.links store.new) ends.new) }
    ensures alone { IfSome result (λ frame. S.links store.new frame ≡ Some unlinked) }
    ensures others { KeepsOthers (S.links store.old) (S.links store.new) (listed (S.links store.old) ends.old) }
    ensures rest { S.same_rest store.old store.new }
{
    let frame = ends.head?;
    unlink(store, ends, frame);
    Some(frame)
}

/// Appends the second list to the first, and leaves the second empty.
pub fn splice<S: LinkStore>(store: &mut S, to: &mut Ends, from: &mut Ends)
    requires list { IsList (S.links store.old) to.old }
    requires other_list { IsList (S.links store.old) from.old }
    requires apart { AreApart (listed (S.links store.old) to.old) (listed (S.links store.old) from.old) }
    ensures list { IsList (S.links store.new) to.new }
    ensures frames { listed (S.links store.new) to.new ≡ listed (S.links store.old) to.old ++ listed (S.links store.old) from.old }
    ensures emptied { from.new ≡ record { head = None; tail = None; count = 0 } }
    ensures others { KeepsOthers (S.links store.old) (S.links store.new) (listed (S.links store.old) to.old ++ listed (S.links store.old) from.old) }
    ensures rest { S.same_rest store.old store.new }
{
    if let Some(first) = from.head {
        let joint = Link {
            prev: to.tail,
            next: Some(first),
        };
        point_forward(store, to, joint.prev, joint.next);
        point_back(store, from, joint.next, joint.prev);
        to.tail = from.tail;
        to.count += from.count;
        *from = Ends::empty();
    }
}
