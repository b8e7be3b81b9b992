//! A life as it grows, event by event.
ghost use Rattle.std.specs.Prelude.{◌≡◌, ◌+◌, ◌∷◌, ◌++◌, ◌^◌, ◌<◌, [], map, Some, IfOk, OnOk};
ghost use Rattle.std.specs.Option.{option_or};
ghost use Rattle.kc_model.specs.Lives.{is_owned_by};
ghost use Rattle.kc_custody.specs.Endings.{begins_sharing};
ghost use Rattle.kc_custody.specs.Growing.{new_life, first_measurement, gaining, losing, owning, sharing, stretch_from, sharing_of, finished, HasRoomFor, TakesIn};

use crate::endings::Endings;
use indexmap::IndexSet;
use kc_remarks::is_owned_by;
use kc_types::{
    Change, Event, FrameChange, Gfn, Life, Measurement, Memory, Phase, Sharing, Sharings,
};
use std::alloc::Global;
use std::marker::Model;

/// A stretch of sharing as it begins.
#[derive(Clone, Copy)]
pub(crate) struct Stretch {
    frame: u32,
    gfn: Option<Gfn>,
    from: u32,
    /// The number of its ending among those of the frame.
    ending: usize,
}

/// What some events say of a life that they begin.
#[derive(Drop)]
pub(crate) struct OpenLife {
    vm: u32,
    registered: u32,
    active: Option<u32>,
    dead: Option<u32>,
    cleared: Option<u32>,
    measurement: Measurement,
    /// How many different frames it gained.
    frames: usize,
    /// Those frames, while the life is open.
    members: IndexSet<u32>,
    gained: usize,
    lost: usize,
    most: usize,
    reads: usize,
    writes: usize,
    shared: Vec<Stretch>,
}

impl Model for OpenLife {
    ghost use Rattle.kc_custody.specs.Growing.{Growing};

    ghost Value = { Growing };

    ghost view = { λ l. record {
      vm = l.vm;
      registered = l.registered;
      active = l.active;
      dead = l.dead;
      cleared = l.cleared;
      measurement = l.measurement;
      frames = l.frames;
      members = l.members.keys;
      gained = l.gained;
      lost = l.lost;
      most = l.most;
      reads = l.reads;
      writes = l.writes;
      shared = l.shared.items;
    } };
}

impl OpenLife {
    /// Begins the life of a VM that is registered on this line. It takes no memory.
    pub(crate) fn new(alloc: Global, vm: u32, registered: u32) -> OpenLife
        ensures { result ≡ new_life vm registered }
    {
        OpenLife {
            vm,
            registered,
            active: None,
            dead: None,
            cleared: None,
            measurement: Measurement::none(alloc),
            frames: 0,
            members: IndexSet::new(alloc),
            gained: 0,
            lost: 0,
            most: 0,
            reads: 0,
            writes: 0,
            shared: Vec::new(alloc),
        }
    }

    /// The host reads a frame.
    fn read(&mut self)
        ensures { self.old.reads + 1 < 2 ^ 64 → self.new ≡ record self.old { reads = self.old.reads + 1 } }
    {
        self.reads = self.reads.saturating_add(1);
    }

    /// The host writes a frame.
    fn write(&mut self)
        ensures { self.old.writes + 1 < 2 ^ 64 → self.new ≡ record self.old { writes = self.old.writes + 1 } }
    {
        self.writes = self.writes.saturating_add(1);
    }

    /// The VM gains a frame.
    fn gain(&mut self, frame: u32) -> Result<(), Memory>
        ensures { OnOk result (self.old.gained + 1 < 2 ^ 64 → self.new ≡ gaining frame self.old) }
    {
        self.members.insert_full(frame)?;
        self.frames = self.members.len();
        self.gained = self.gained.saturating_add(1);
        self.most = self.most.max(self.gained.saturating_sub(self.lost));
        Ok(())
    }

    /// It loses one.
    fn lose(&mut self)
        ensures { self.old.lost + 1 < 2 ^ 64 → self.new ≡ losing self.old }
    {
        self.lost = self.lost.saturating_add(1);
    }

    /// A frame is the VM's before an event, or after it.
    fn own(&mut self, had: bool, has: bool, frame: u32) -> Result<(), Memory>
        ensures { OnOk result (HasRoomFor self.old → self.new ≡ owning had has frame self.old) }
    {
        match (had, has) {
            (false, true) => self.gain(frame),
            (true, false) => {
                self.lose();
                Ok(())
            },
            _ => Ok(()),
        }
    }

    /// It shares one.
    fn share(
        &mut self,
        frame: u32,
        gfn: Option<Gfn>,
        from: u32,
        ending: usize,
    ) -> Result<(), Memory>
        ensures { OnOk result (self.new ≡ record self.old { shared = self.old.shared ++ record { frame = frame; gfn = gfn; from = from; ending = ending } ∷ [] }) }
    {
        let begun = Stretch {
            frame,
            gfn,
            from,
            ending,
        };
        self.shared.push(begun)?;
        Ok(())
    }

    /// Takes in the change of a frame; a stretch that begins with it has the ending of this number. After `Memory`, if
    /// memory runs out, the life is of no use.
    fn change_frame(&mut self, told: &FrameChange, ending: usize) -> Result<(), Memory>
        ensures { OnOk result (HasRoomFor self.old → self.new ≡ sharing (is_owned_by self.old.vm told.now.after.owner) (begins_sharing told.now) (stretch_from told.now ending)
            (owning (is_owned_by self.old.vm told.now.before.owner) (is_owned_by self.old.vm told.now.after.owner) told.now.frame self.old)) }
    {
        let has = is_owned_by(told.after.owner, self.vm);
        self.own(is_owned_by(told.before.owner, self.vm), has, told.frame)?;
        if has && begins_sharing(told) {
            self.share(told.frame, told.after.gfn, told.line, ending)?;
        }
        Ok(())
    }

    /// It is measured.
    fn measure(&mut self, measurement: Measurement)
        ensures { self.new ≡ record self.old { measurement = first_measurement self.old.active self.old.dead self.old.measurement measurement } }
    {
        if self.active.is_none() && self.dead.is_none() {
            self.measurement = measurement;
        }
    }

    /// It becomes active.
    fn approve(&mut self, line: u32, measurement: Measurement)
        ensures { self.new ≡ record self.old { active = option_or self.old.active (Some line); measurement = first_measurement self.old.active self.old.dead self.old.measurement measurement } }
    {
        self.measure(measurement);
        self.active = self.active.or(Some(line));
    }

    /// It becomes dead.
    fn refuse(&mut self, line: u32, measurement: Measurement)
        ensures { self.new ≡ record self.old { dead = option_or self.old.dead (Some line); measurement = first_measurement self.old.active self.old.dead self.old.measurement measurement } }
    {
        self.measure(measurement);
        self.dead = self.dead.or(Some(line));
    }

    /// It ends, without a line if another one begins in its slot.
    fn end(&mut self, alloc: Global)
        ensures { self.new ≡ record self.old { members = [] } }
    {
        self.members = IndexSet::new(alloc);
    }

    /// It is cleared.
    fn clear(&mut self, alloc: Global, line: u32)
        ensures { self.new ≡ record self.old { cleared = option_or self.old.cleared (Some line); members = [] } }
    {
        self.end(alloc);
        self.cleared = self.cleared.or(Some(line));
    }

    /// Takes in an event of its slot; a stretch that begins with it has the ending of this number. After `Memory`, if memory
    /// runs out, the life is of no use.
    pub(crate) fn note(&mut self, alloc: Global, event: Event, ending: usize) -> Result<(), Memory>
        ensures { OnOk result (TakesIn event ending self.old self.new) }
    {
        match event {
            Event::Read { .. } => self.read(),
            Event::Write { .. } => self.write(),
            Event::Change(Change::Frame(told)) => self.change_frame(&told, ending)?,
            Event::Change(Change::Phase(told)) => match told.phase {
                Phase::Booting => self.end(alloc),
                Phase::Active => self.approve(told.line, told.measurement),
                Phase::Dead => self.refuse(told.line, told.measurement),
                Phase::Empty => self.clear(alloc, told.line),
            },
        }
        Ok(())
    }

    /// The life, with the lines at which its stretches of sharing end; `Memory` if memory runs out.
    pub(crate) fn into_life(self, alloc: Global, endings: &Endings) -> Result<Life, Memory>
        ensures { IfOk result (λ life. life ≡ finished endings.now self) }
    {
        let OpenLife {
            vm,
            registered,
            active,
            dead,
            cleared,
            measurement,
            frames,
            members: _,
            gained,
            lost,
            most,
            reads,
            writes,
            shared,
        } = self;
        Ok(Life {
            vm,
            registered,
            active,
            dead,
            cleared,
            measurement,
            frames,
            most,
            left: gained.saturating_sub(lost),
            returned: lost,
            reads,
            writes,
            shared: Sharings::of(with_ends(alloc, shared, endings)?),
        })
    }
}

/// Stretches with the lines at which they end.
fn with_ends(alloc: Global, shared: Vec<Stretch>, endings: &Endings) -> Result<Vec<Sharing>, Memory>
    ensures { IfOk result (λ sharings. sharings.items ≡ map (sharing_of endings.now) shared.items) }
{
    let mut ended = Vec::with_capacity(alloc, shared.len())?;
    for stretch in shared {
        let Stretch {
            frame,
            gfn,
            from,
            ending,
        } = stretch;
        ended.push(Sharing {
            frame,
            gfn,
            from,
            to: endings.line(frame, ending),
        })?;
    }
    Ok(ended)
}

/// Whether the frame is shared after the change, and was not before.
fn begins_sharing(told: &FrameChange) -> bool
    ensures { result ≡ begins_sharing told.now }
{
    told.before.share == 0 && told.after.share > 0
}
