//! What happened to each VM: how many frames it had, line by line, and when it was there.
use kc_types::{Change, Custody, Event, Memory, Owner, Phase, SLOT_LIMIT};
use std::alloc::Global;

/// The line of a trace's header: what has it is so before the first call.
pub(crate) const HEADER_LINE: u32 = 1;

/// A change of a sum modulo 2^64: by one more.
pub const ONE_MORE: u64 = 1;
/// By one fewer.
pub const ONE_FEWER: u64 = u64::MAX;

/// How many frames a VM has from a line on, and how many of them it shares.
#[derive(Clone, Copy)]
pub(crate) struct Step {
    pub line: u32,
    pub frames: u64,
    pub shared: u64,
}

/// How the measuring of a VM's images ended.
#[derive(Clone, Copy)]
pub(crate) enum Measured {
    Not,
    /// Approved, by the call on this line.
    Active(u32),
    /// Refused.
    Dead(u32),
}

/// A life of a VM, by lines of its trace.
#[derive(Clone, Copy)]
pub(crate) struct Stay {
    pub registered: u32,
    pub measured: Measured,
    pub cleared: Option<u32>,
}

/// What happened to one VM.
#[derive(Drop)]
pub(crate) struct Lane {
    frames: u64,
    shared: u64,
    pub steps: Vec<Step>,
    pub stays: Vec<Stay>,
}

impl Lane {
    /// One to which nothing happened yet.
    fn new(alloc: Global) -> Lane {
        Lane {
            frames: 0,
            shared: 0,
            steps: Vec::new(alloc),
            stays: Vec::new(alloc),
        }
    }

    /// Whether it is there before the first call.
    pub fn is_earlier(&self) -> bool {
        match self.stays.first() {
            Some(stay) => stay.registered == HEADER_LINE,
            None => false,
        }
    }

    /// Whether anything happened to it.
    pub fn is_used(&self) -> bool {
        !self.steps.is_empty() || !self.stays.is_empty()
    }

    /// The most frames it had at once.
    pub fn most(&self) -> u64 {
        let mut most = 0;
        for step in &self.steps {
            most = step.frames.max(most);
        }
        most
    }

    /// Notes that its slot is in another phase from a line on.
    fn turn(&mut self, line: u32, phase: Phase) -> Result<(), Memory> {
        if phase == Phase::Booting {
            self.stays.push(Stay {
                registered: line,
                measured: Measured::Not,
                cleared: None,
            })?;
        } else if let Some(stay) = self.stays.last_mut() {
            match phase {
                Phase::Active => stay.measured = Measured::Active(line),
                Phase::Dead => stay.measured = Measured::Dead(line),
                Phase::Empty => stay.cleared = Some(line),
                Phase::Booting => {},
            }
        }
        Ok(())
    }
}

/// Counts a frame of this custody, from a line on, as one more or one fewer of its owner, if that is a VM.
fn count(lanes: &mut Vec<Lane>, line: u32, custody: &Custody, by: u64) -> Result<(), Memory> {
    let Owner::Vm(vm) = custody.owner else {
        return Ok(());
    };
    if let Some(lane) = lanes.get_mut(vm.index()) {
        lane.frames = lane.frames.wrapping_add(by);
        if custody.share > 0 {
            lane.shared = lane.shared.wrapping_add(by);
        }
        let (frames, shared) = (lane.frames, lane.shared);
        lane.steps.push(Step {
            line,
            frames,
            shared,
        })?;
    }
    Ok(())
}

/// Collects what happened to the VM in each slot, by slots. `Memory` if there was none for it.
pub(crate) fn lanes_of(alloc: Global, events: &[Event]) -> Result<Vec<Lane>, Memory> {
    let mut lanes = Vec::new(alloc);
    for _ in 0..SLOT_LIMIT {
        lanes.push(Lane::new(alloc))?;
    }
    for event in events {
        match event {
            Event::Change(Change::Frame(change)) => {
                count(&mut lanes, change.line, &change.before, ONE_FEWER)?;
                count(&mut lanes, change.line, &change.after, ONE_MORE)?;
            },
            Event::Change(Change::Phase(change)) => {
                if let Some(lane) = lanes.get_mut(change.vm as usize) {
                    lane.turn(change.line, change.phase)?;
                }
            },
            Event::Read { .. } | Event::Write { .. } => {},
        }
    }
    Ok(lanes)
}
