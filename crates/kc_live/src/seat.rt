//! The seats from which actors call.
ghost use Rattle.std.specs.Prelude.{◌≡◌, ◌≢◌, ◌↔◌, Err, OnOk, OnErr};
ghost use Rattle.kc_types.specs.Actors.{actor as actor_made};

use crate::book::Book;
use crate::fault::LiveFault;
use crate::ready::Ready;
use crate::receipt::Receipt;
use kc_types::{Actor, Call, actor_of};
use std::alloc::Global;
use std::marker::Model;
use std::sync::{Mutex, Wait};

/// The place of one actor, with the receipts of the calls that it made from here, in order.
#[derive(Debug, Drop)]
pub struct Seat {
    actor: Actor,
    receipts: Vec<Receipt>,
}

impl Model for Seat {
    ghost use Rattle.kc_live.specs.Seat.{SeatView};

    ghost Value = { SeatView };

    ghost view = { λ s. record { actor = s.actor; receipts = s.receipts.items } };
}

impl Seat {
    ghost use Rattle.kc_live.specs.Seat.{GainsReceipt, new_seat};

    /// Makes a seat with no receipts.
    pub fn new(alloc: Global, actor: Actor) -> Seat
        ensures { result ≡ new_seat actor }
    {
        Seat {
            actor,
            receipts: Vec::new(alloc),
        }
    }

    /// The receipts, in the order of the calls.
    pub fn receipts(&self) -> &[Receipt]
        ensures { result.now ≡ self.now.receipts }
    {
        self.receipts.as_slice()
    }

    /// Takes the receipts out, in the order of the calls.
    pub fn into_receipts(self) -> Vec<Receipt>
        ensures { result.items ≡ self.receipts }
    {
        let Seat { actor: _, receipts } = self;
        receipts
    }

    /// Makes one call of the book under its lock, and keeps its receipt; it may wait for the lock, and takes all memory that
    /// the call needs before, also for its receipt. The faults are those of `LiveCore::call`.
    pub(crate) fn make<R: Wait>(
        &mut self,
        rt: &R,
        alloc: Global,
        book: &Mutex<Book>,
        call: Call,
    ) -> Result<(), LiveFault>
        ensures gains { OnOk result (GainsReceipt self.old self.new call) }
        ensures yours { (result ≡ Err LiveFault.NotYours) ↔ (actor_made call ≢ self.old.actor) }
        ensures err { OnErr result (self.new ≡ self.old) }
    {
        if actor_of(&call) != self.actor {
            return Err(LiveFault::NotYours);
        }
        self.receipts.reserve(1)?;
        let ready = Ready::new(alloc, call)?;
        let mut book = book.lock(rt);
        book.record(ready, &mut self.receipts)
    }
}
