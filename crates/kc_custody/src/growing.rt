//! Lives that grow event by event, so that no event is kept.
ghost use Rattle.std.specs.Prelude.{◌≡◌, [], ℕ, List, OnOk, IfOk};
ghost use Rattle.kc_types.specs.declared.custody.Event.{Event as AnEvent};
ghost use Rattle.kc_types.specs.declared.custody.Event.TheVariants as event;
ghost use Rattle.kc_types.specs.declared.custody.Change.TheVariants as change;
ghost use Rattle.kc_model.specs.Lives.{lives};
ghost use Rattle.kc_custody.specs.Grown.{AreGrown, Notes, NotesAll};

use crate::endings::Endings;
use crate::register::Register;
use kc_types::{Change, Event, Life, Memory, Phase, PhaseChange};
use std::alloc::Global;

/// The lives that some events have in them, ready for the next event.
#[derive(Drop)]
pub struct Lives {
    register: Register,
    endings: Endings,
}

impl Lives {
    /// Starts with no events, for a core with this many frames; `Memory` if memory runs out.
    pub fn none(alloc: Global, frames: u32) -> Result<Lives, Memory>
        // No clause can rule out that memory runs out: examples of the program make some.
        ensures { IfOk result (λ lives. AreGrown frames [] lives) }
    {
        Ok(Lives {
            register: Register::none(alloc)?,
            endings: Endings::none(alloc, frames)?,
        })
    }

    /// Takes in the change of a slot's phase.
    fn note_phase(&mut self, alloc: Global, told: PhaseChange) -> Result<(), Memory>
        ensures { OnOk result (Notes (event.Change (change.Phase told)) self.old self.new) }
    {
        let (vm, line, phase) = (told.vm, told.line, told.phase);
        let event = Event::Change(Change::Phase(told));
        self.register.note(alloc, vm, event, 0)?;
        match phase {
            Phase::Booting => self.register.begin(alloc, vm, line)?,
            Phase::Empty => self.register.end(vm),
            Phase::Active | Phase::Dead => {},
        }
        Ok(())
    }

    /// Takes in the next event. After `Memory`, if memory runs out, the lives are of no use.
    pub fn note(&mut self, alloc: Global, event: Event) -> Result<(), Memory>
        ensures { OnOk result (Notes event self.old self.new) }
    {
        match event {
            Event::Read { vm } => self.register.note(alloc, vm, Event::Read { vm }, 0),
            Event::Write { vm } => self.register.note(alloc, vm, Event::Write { vm }, 0),
            Event::Change(Change::Frame(change)) => {
                let ending = self.endings.note(&change)?;
                self.register.note_frame(alloc, &change, ending)
            },
            Event::Change(Change::Phase(change)) => self.note_phase(alloc, change),
        }
    }

    /// Takes in some more events, in order.
    pub fn note_all(&mut self, alloc: Global, events: Vec<Event>) -> Result<(), Memory>
        ensures { OnOk result (NotesAll events.items self.old self.new) }
    {
        for event in events {
            self.note(alloc, event)?;
        }
        Ok(())
    }

    /// The lives, in the order in which they begin; `Memory` if memory runs out.
    pub fn into_lives(self, alloc: Global) -> Result<Vec<Life>, Memory>
        ensures { IfOk result (λ told. (frames : ℕ) (events : List AnEvent) → AreGrown frames events self → told.items ≡ lives events) }
    {
        let Lives { register, endings } = self;
        register.into_lives(alloc, &endings)
    }
}
