//! The lives that have begun.
ghost use Rattle.std.specs.Prelude.{◌≡◌, ◌∷◌, ◌++◌, ◌==◌, [], length, map, Some, None, OnOk, IfOk, slice_index_or, slice_set};
ghost use Rattle.kc_types.specs.declared.custody.Event.TheVariants as event;
ghost use Rattle.kc_types.specs.declared.custody.Change.TheVariants as change;
ghost use Rattle.kc_model.specs.Lives.{is_owned_by};
ghost use Rattle.kc_custody.specs.Growing.{new_life, finished, concerns};
ghost use Rattle.kc_custody.specs.Grown.{AreUnset, HaveOwnPlaces, GivesTo};

use crate::endings::Endings;
use crate::open_life::OpenLife;
use kc_types::{Change, Event, FrameChange, Life, Memory, Owner, SLOT_LIMIT};
use std::alloc::Global;

/// Lives in the order in which they begin, and of each slot the place of the one that is open there.
#[derive(Drop)]
pub(crate) struct Register {
    places: Vec<Option<usize>>,
    lives: Vec<OpenLife>,
}

impl Register {
    /// Starts without lives; `Memory` if memory runs out.
    pub(crate) fn none(alloc: Global) -> Result<Register, Memory>
        ensures places { IfOk result (λ register. AreUnset register.places.items) }
        ensures lives { IfOk result (λ register. register.lives.items ≡ []) }
    {
        Ok(Register {
            places: vec![in alloc; None; SLOT_LIMIT as usize]?,
            lives: Vec::new(alloc),
        })
    }

    /// The place of the life that is open in a slot.
    fn place(&self, vm: u32) -> Option<usize>
        ensures { result ≡ slice_index_or self.now.places.items vm None }
    {
        match self.places.get(vm as usize) {
            Some(place) => *place,
            None => None,
        }
    }

    /// The open life of a slot takes an event in. After `Memory`, if memory runs out, the lives are of no use.
    pub(crate) fn note(
        &mut self,
        alloc: Global,
        vm: u32,
        event: Event,
        ending: usize,
    ) -> Result<(), Memory>
        ensures { OnOk result (GivesTo (λ v. vm == v) event ending self.old self.new) }
    {
        if let Some(place) = self.place(vm)
            && let Some(life) = self.lives.get_mut(place)
        {
            life.note(alloc, event, ending)?;
        }
        Ok(())
    }

    /// The open life of the VM that an owner is takes the change of a frame in.
    fn note_owner(
        &mut self,
        alloc: Global,
        owner: Owner,
        told: &FrameChange,
        ending: usize,
    ) -> Result<(), Memory>
        ensures { OnOk result (GivesTo (λ v. is_owned_by v owner) (event.Change (change.Frame told.now)) ending self.old self.new) }
    {
        if let Owner::Vm(vm) = owner {
            let event = Event::Change(Change::Frame(*told));
            self.note(alloc, vm.index() as u32, event, ending)?;
        }
        Ok(())
    }

    /// The open lives of the VMs whose the frame is before and after a change of it take the change in; a stretch that begins
    /// with it has the ending of this number. After `Memory`, if memory runs out, the lives are of no use.
    pub(crate) fn note_frame(
        &mut self,
        alloc: Global,
        told: &FrameChange,
        ending: usize,
    ) -> Result<(), Memory>
        ensures { OnOk result (HaveOwnPlaces self.old.places.items → GivesTo (λ v. concerns v (event.Change (change.Frame told.now))) (event.Change (change.Frame told.now)) ending self.old self.new) }
    {
        self.note_owner(alloc, told.before.owner, told, ending)?;
        if told.before.owner != told.after.owner {
            self.note_owner(alloc, told.after.owner, told, ending)?;
        }
        Ok(())
    }

    /// A life begins in a slot on this line, and is its open one. After `Memory`, if memory runs out, the lives are of no use.
    pub(crate) fn begin(&mut self, alloc: Global, vm: u32, line: u32) -> Result<(), Memory>
        ensures places { OnOk result (self.new.places.items ≡ slice_set self.old.places.items vm (Some (length self.old.lives.items))) }
        ensures lives { OnOk result (self.new.lives.items ≡ self.old.lives.items ++ new_life vm line ∷ []) }
    {
        if let Some(place) = self.places.get_mut(vm as usize) {
            *place = Some(self.lives.len());
        }
        self.lives.push(OpenLife::new(alloc, vm, line))?;
        Ok(())
    }

    /// No life is open in a slot any more.
    pub(crate) fn end(&mut self, vm: u32)
        ensures places { self.new.places.items ≡ slice_set self.old.places.items vm None }
        ensures lives { self.new.lives.items ≡ self.old.lives.items }
    {
        if let Some(place) = self.places.get_mut(vm as usize) {
            *place = None;
        }
    }

    /// The lives, with the lines at which stretches of sharing end; `Memory` if memory runs out.
    pub(crate) fn into_lives(self, alloc: Global, endings: &Endings) -> Result<Vec<Life>, Memory>
        ensures { IfOk result (λ lives. lives.items ≡ map (finished endings.now) self.lives.items) }
    {
        let mut lives = Vec::with_capacity(alloc, self.lives.len())?;
        for life in self.lives {
            lives.push(life.into_life(alloc, endings)?)?;
        }
        Ok(lives)
    }
}
