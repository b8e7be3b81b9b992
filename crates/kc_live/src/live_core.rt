//! The core under its one lock.
ghost use Rattle.std.specs.Prelude.{◌≡◌, ◌≢◌, ◌↔◌, Err, IfOk, OnOk, OnErr};
ghost use Rattle.kc_types.specs.Actors.{actor as actor_made};
ghost use Rattle.kc_live.specs.Book.{VolumeView, IsDigestOf, IsLegal, IsKept};
ghost use Rattle.kc_live.specs.Seat.{GainsReceipt};

use crate::book::{Book, History, Volume};
use crate::fault::LiveFault;
use crate::journal::VolumeDigest;
use crate::seat::Seat;
use kc_types::{CALL_LIMIT, Call, Config, DIGEST_LIMIT, Memory};
use std::alloc::Global;
use std::sync::{Mutex, Wait};

/// The core and its history under one lock, which many threads share. Whenever the lock is free, the volume that is being
/// filled is one that a single thread could have made, and the core is in the state after its last call.
#[derive(Drop)]
pub struct LiveCore {
    alloc: Global,
    book: Mutex<Book>,
}

impl LiveCore {
    /// Begins with the core in the boot state of its configuration, and no calls. Its volumes have heads, from the first on.
    /// `Memory` if memory runs out.
    // No clause can name what is under the lock: tests call, close and settle.
    pub fn new(alloc: Global, config: Config) -> Result<LiveCore, Memory> {
        Ok(LiveCore {
            alloc,
            book: Mutex::new(Book::new(alloc, config)?),
        })
    }

    /// Makes one call from a seat, which gains its receipt; it may wait for the lock, and takes all memory that the call
    /// needs before. The first fault that applies is given: `NotYours`, `Memory`, `HistoryFull`. Seat and history are then
    /// unchanged.
    pub fn call<R: Wait>(&self, rt: &R, seat: &mut Seat, call: Call) -> Result<(), LiveFault>
        ensures gains { OnOk result (GainsReceipt seat.old seat.new call) }
        ensures yours { (result ≡ Err LiveFault.NotYours) ↔ (actor_made call ≢ seat.old.actor) }
        ensures err { OnErr result (seat.new ≡ seat.old) }
    {
        seat.make(rt, self.alloc, &self.book, call)
    }

    /// Hands out the volume, full or not, and begins the next one with the core as it is, whose head follows from this one's;
    /// it may wait for the lock, and takes all memory that the turn needs before. `Memory` if memory runs out, and then
    /// nothing has changed.
    // An empty volume is legal too: tests turn volumes over.
    pub fn turn<R: Wait>(&self, rt: &R) -> Result<Volume, Memory>
        ensures { IfOk result IsLegal }
    {
        let room = Vec::with_capacity(self.alloc, CALL_LIMIT)?;
        let digests = Vec::with_capacity(self.alloc, DIGEST_LIMIT)?;
        Ok(self.book.lock(rt).turn(room, digests))
    }

    /// Gives the digest of the volume that is being filled, as it is published (`docs/WITNESS.md`); it may wait for the lock,
    /// under which the calls since it was last asked are hashed. No memory is taken.
    // An empty volume has a digest too: tests compare digests.
    pub fn digest<R: Wait>(&self, rt: &R) -> VolumeDigest
        ensures { (v : VolumeView) × IsLegal v × IsDigestOf v result }
    {
        self.book.lock(rt).digest()
    }

    /// Ends the history and hands out its last volume and the core. It waits for nobody.
    // A fresh history is legal too: tests settle what is handed out.
    pub fn close(self) -> History
        ensures { IsKept result }
    {
        let LiveCore { alloc: _, book } = self;
        book.into_inner().close()
    }
}
