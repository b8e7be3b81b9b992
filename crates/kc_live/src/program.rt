//! The calls of one actor, and the thread that makes them.
ghost use Rattle.std.specs.Prelude.{◌≡◌, ◌≢◌, Some, None, OnOk, OnErr};
ghost use Rattle.kc_live.specs.Threads.{IsRun};
ghost use Rattle.kc_live.specs.Plans.{stranger_in};
ghost use Rattle.kc_live.specs.Cuts.{grown};

use crate::fault::LiveFault;
use crate::live_core::LiveCore;
use crate::receipt::Receipt;
use crate::seat::Seat;
use kc_core::Gate;
use kc_types::{Actor, Call, Memory};
use std::alloc::Global;
use std::marker::Model;
use std::snapshot::Snapshot;
use std::sync::Wait;
use std::thread::Promise;

/// The calls that one actor is to make, in order.
#[derive(Debug, Drop)]
pub struct Program {
    actor: Actor,
    calls: Vec<Call>,
}

impl Model for Program {
    ghost use Rattle.kc_live.specs.Program.{ProgramView};

    ghost Value = { ProgramView };

    ghost view = { λ p. record { actor = p.actor; calls = p.calls.items } };
}

/// Why a thread made no more calls of its program.
#[derive(Clone, Copy, Debug, PartialEq, Eq)]
pub enum ThreadStop {
    /// The thread could not be started.
    Start,
    /// A call was not made.
    Fault(LiveFault),
}

/// What a thread made of its program: the receipts of the calls that it made, in order, and why it made no more if it
/// did not make all.
#[derive(Drop)]
pub struct Ran {
    pub receipts: Vec<Receipt>,
    pub stop: Option<ThreadStop>,
}

/// A thread makes these calls, in order.
#[derive(Drop)]
pub struct MakesCalls(pub Snapshot<Vec<Call>>);

impl Promise<Ran> for MakesCalls {
    ghost use Rattle.kc_live.specs.Threads.{IsRun};

    ghost kept_by = { λ p r. IsRun p.0.value.items r.receipts.items r.stop };
}

impl Program {
    /// Makes a program of an actor. Whether the calls are this actor's is judged when the program is to run.
    pub fn new(actor: Actor, calls: Vec<Call>) -> Program
        ensures { result ≡ record { actor = actor; calls = calls.items } }
    {
        Program { actor, calls }
    }

    /// Who is to make the calls.
    pub fn actor(&self) -> Actor
        ensures { result ≡ self.now.actor }
    {
        self.actor
    }

    /// The calls, in order.
    pub fn calls(&self) -> &[Call]
        ensures { result.now ≡ self.now.calls }
    {
        self.calls.as_slice()
    }

    /// Adds a call after the others. `Memory` if memory runs out, and then nothing has changed.
    pub fn add(&mut self, call: Call) -> Result<(), Memory>
        ensures more { OnOk result (self.new ≡ grown self.old call) }
        ensures err { OnErr result (self.new ≡ self.old) }
    {
        self.calls.reserve(1)?;
        self.calls.push_reserved(call);
        Ok(())
    }

    /// What a thread promises to do: to make the calls.
    pub fn promise(&self) -> MakesCalls
        ensures { result.0.value.items ≡ self.now.calls }
    {
        MakesCalls(Snapshot::of(&self.calls))
    }
}

/// Makes the calls of a program in order, and ends at the first that is not made. The gate is given the numbers from
/// `first` on, outside the lock.
pub fn run_program<G: Gate, R: Wait>(
    rt: &R,
    alloc: Global,
    core: &LiveCore,
    gate: &G,
    first: usize,
    program: Program,
) -> Ran
    ensures made { IsRun program.calls result.receipts.items result.stop }
    ensures started { result.stop ≢ Some ThreadStop.Start }
    ensures yours { stranger_in program ≡ None → result.stop ≢ Some (ThreadStop.Fault LiveFault.NotYours) }
{
    let Program { actor, calls } = program;
    let mut seat = Seat::new(alloc, actor);
    let mut number = first;
    for call in calls {
        gate.before(number);
        let made = core.call(rt, &mut seat, call);
        gate.after(number);
        if let Err(fault) = made {
            return Ran {
                receipts: seat.into_receipts(),
                stop: Some(ThreadStop::Fault(fault)),
            };
        }
        number = number.wrapping_add(1);
    }
    Ran {
        receipts: seat.into_receipts(),
        stop: None,
    }
}
