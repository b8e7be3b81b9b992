//! Stores of links.
ghost use Rattle.std.specs.Prelude.{◌≡◌, ℕ, ◌<◌, Option, IsSome};
ghost use Rattle.kc_types.specs.Limits.{frame_limit};
ghost use Rattle.kc_links.specs.Chain.{Links, with_link};

use kc_types::{FrameNo, Link};

/// A store of the links of some frames.
pub trait LinkStore {
    /// The links of the frames that are here.
    ghost links: { Self → Links };

    /// Two stores are the same except for their links.
    ghost same_rest: { Self → Self → Type 0 };

    /// The link of a frame, or `None` if the frame is not here.
    fn link(&self, frame: FrameNo) -> Option<Link>
        ensures { result ≡ links self.now frame };

    /// Sets the link of a frame that is here, and changes nothing else.
    fn set_link(&mut self, frame: FrameNo, link: Link)
        requires { IsSome (links self.old frame) }
        ensures links { links self.new ≡ with_link (links self.old) frame link }
        ensures rest { same_rest self.old self.new };

    /// Only frames have links.
    ghost within: { (store : Self) (f : ℕ) → IsSome (links store f) → f < frame_limit };

    /// Being the same is reflexive and transitive.
    ghost rest_kept: { (store : Self) → same_rest store store };

    ghost rest_through: { (old mid new : Self) → same_rest old mid → same_rest mid new → same_rest old new };
}
