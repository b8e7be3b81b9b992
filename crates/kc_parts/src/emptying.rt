//! Emptying a slot: its frames become untouched and free.
ghost use Rattle.std.specs.Prelude.{◌≡◌, IsSome, IfSome};
ghost use Rattle.kc_links.specs.Chain.{next_of};
ghost use Rattle.kc_links.specs.Ending.{listed};
ghost use Rattle.kc_parts.specs.Parts.{vm_at, links_of};
ghost use Rattle.kc_parts.specs.Emptying.{with_scrubbed, all_scrubbed, IsEmptied};

use crate::Parts;
use kc_links::LinkStore;
use kc_types::{Ends, FrameNo, MaybeGfn, Owner, OwnerCode, VmId};

impl Parts {
    /// The frame after one in its list.
    fn frame_after(&self, frame: FrameNo) -> Option<FrameNo>
        ensures { result ≡ next_of (links_of self.now frame) }
    {
        self.link(frame)?.next
    }

    /// Makes a frame untouched and free, if it is here. It keeps its links.
    fn scrub_frame(&mut self, frame: FrameNo)
        ensures { self.new ≡ with_scrubbed self.old frame }
    {
        if let Some(page) = self.try_page_mut(frame) {
            page.meta.owner = OwnerCode::of(Owner::Free);
            page.meta.share = 0;
            page.meta.gfn = MaybeGfn::of(None);
            page.meta.present = false;
            page.bytes.scrub();
        }
    }

    /// Makes each frame of a list untouched and free. The frames stay linked.
    fn scrub_list(&mut self, list: &Ends)
        ensures { self.new ≡ all_scrubbed self.old (listed (links_of self.old) list.now) }
    {
        let mut at = list.head;
        for _ in 0..list.count {
            if let Some(frame) = at {
                at = self.frame_after(frame);
                self.scrub_frame(frame);
            }
        }
    }

    /// Empties a slot, which is here: it is then as at boot. Its frames become untouched and free, but are in no list;
    /// returns the ends of the list in which they are still linked.
    pub fn empty_slot(&mut self, vm: VmId) -> Ends
        requires { IsSome (vm_at self.old vm) }
        ensures list { IfSome (vm_at self.old vm) (λ slot. result ≡ slot.slot.frames) }
        ensures rest { IsEmptied vm self.old self.new }
    {
        let slot = self.try_slot_mut(vm).unwrap();
        let list = *slot.list();
        slot.reset();
        self.scrub_list(&list);
        list
    }
}
