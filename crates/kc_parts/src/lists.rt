//! The free list and the lists of the slots, linked through the records of their frames.
ghost use Rattle.std.specs.Prelude.{ℕ, ◌≡◌, ◌<◌, ◌++◌, [], ◌∷◌, IsSome, IfSome, MatchOption, Some};
ghost use Rattle.kc_types.specs.declared.owner.Owner.TheVariants.{Free};
ghost use Rattle.kc_types.specs.declared.owner.Owner.TheVariants as owner;
ghost use Rattle.kc_model.specs.Lawful.{times_in};
ghost use Rattle.kc_model.specs.Effects.{without};
ghost use Rattle.kc_links.specs.Ending.{listed, IsList, AreApart};
ghost use Rattle.kc_parts.specs.Parts.{vm_at, links_of, ends_at, with_vm, with_ends};
ghost use Rattle.kc_parts.specs.States.{AreLists, owner_at, free_of, listed_frames, IsLoose, IsFreeMove, IsSlotMove};

use crate::Parts;
use kc_links::{append, pop_front, splice, unlink};
use kc_types::{Ends, FrameNo, VmId};

impl Parts {
    /// Sets the ends of the free list, which are here.
    fn set_free(&mut self, ends: Ends)
        requires { IsSome self.old.free }
        ensures { self.new ≡ record self.old { free = Some ends } }
    {
        if let Some(free) = self.free_mut() {
            *free = ends;
        }
    }

    /// Takes the first frame off the free list, which is here; `None` if the list is empty.
    pub fn pop_free(&mut self) -> Option<FrameNo>
        requires here { IsSome self.old.free }
        requires lists { AreLists (links_of self.old) (ends_at self.old) (owner_at self.old) }
        ensures frames { MatchOption result ((free_of self.old ≡ []) × (free_of self.new ≡ [])) (λ frame. free_of self.old ≡ frame ∷ free_of self.new) }
        ensures loose { IfSome result (IsLoose self.new) }
        ensures rest { IsFreeMove self.old self.new }
    {
        let mut ends = *self.free()?;
        let frame = pop_front(self, &mut ends);
        self.set_free(ends);
        frame
    }

    /// Appends a free frame that is in no list to the free list, which is here.
    pub fn append_free(&mut self, frame: FrameNo)
        requires here { IsSome self.old.free }
        requires lists { AreLists (links_of self.old) (ends_at self.old) (owner_at self.old) }
        requires loose { IsLoose self.old frame }
        requires free { owner_at self.old frame ≡ Free }
        ensures frames { free_of self.new ≡ free_of self.old ++ frame ∷ [] }
        ensures rest { IsFreeMove self.old self.new }
    {
        if let Some(ends) = self.free() {
            let mut free = *ends;
            append(self, &mut free, frame);
            self.set_free(free);
        }
    }

    /// Appends a list of free frames, which are in no other list, to the free list, which is here.
    pub fn append_list(&mut self, mut list: Ends)
        requires here { IsSome self.old.free }
        requires lists { AreLists (links_of self.old) (ends_at self.old) (owner_at self.old) }
        requires list { IsList (links_of self.old) list }
        requires apart { AreApart (free_of self.old) (listed (links_of self.old) list) }
        requires free { (f : ℕ) → 0 < times_in (listed (links_of self.old) list) f → owner_at self.old f ≡ Free }
        ensures frames { free_of self.new ≡ free_of self.old ++ listed (links_of self.old) list }
        ensures rest { IsFreeMove self.old self.new }
    {
        if let Some(ends) = self.free() {
            let mut free = *ends;
            splice(self, &mut free, &mut list);
            self.set_free(free);
        }
    }

    /// Sets the ends of the list of a slot, which is here.
    fn set_list(&mut self, vm: VmId, ends: Ends)
        requires { IsSome (vm_at self.old vm) }
        ensures { IfSome (vm_at self.old vm) (λ slot. self.new ≡ with_vm self.old vm (with_ends slot ends)) }
    {
        if let Some(slot) = self.try_slot_mut(vm) {
            *slot.list_mut() = ends;
        }
    }

    /// Appends a frame of a slot's that is in no list to the list of the slot, which is here.
    pub fn append_vm(&mut self, vm: VmId, frame: FrameNo)
        requires here { IsSome (vm_at self.old vm) }
        requires lists { AreLists (links_of self.old) (ends_at self.old) (owner_at self.old) }
        requires loose { IsLoose self.old frame }
        requires mine { owner_at self.old frame ≡ owner.Vm vm }
        ensures frames { listed_frames self.new vm ≡ listed_frames self.old vm ++ frame ∷ [] }
        ensures rest { IsSlotMove vm self.old self.new }
    {
        if let Some(slot) = self.try_slot(vm) {
            let mut ends = *slot.list();
            append(self, &mut ends, frame);
            self.set_list(vm, ends);
        }
    }

    /// Takes a frame off the list of a slot, which is here, given the ends of that list.
    pub fn unlink_vm(&mut self, vm: VmId, mut list: Ends, frame: FrameNo)
        requires ends { ends_at self.old (owner.Vm vm) ≡ Some list }
        requires lists { AreLists (links_of self.old) (ends_at self.old) (owner_at self.old) }
        requires inside { 0 < times_in (listed_frames self.old vm) frame }
        ensures frames { listed_frames self.new vm ≡ without (listed_frames self.old vm) frame }
        ensures loose { IsLoose self.new frame }
        ensures rest { IsSlotMove vm self.old self.new }
    {
        unlink(self, &mut list, frame);
        self.set_list(vm, list);
    }
}
