//! A call, made ready before the lock is taken.
ghost use Rattle.std.specs.Prelude.{◌≡◌, IfOk};
ghost use Rattle.kc_model.specs.Next.{next};
ghost use Rattle.kc_live.specs.Book.{entry};

use crate::receipt::{Entry, Receipt};
use kc_core::KCore;
use kc_types::{Call, CallBuffer, Memory};
use std::alloc::Global;
use std::marker::Model;

/// A call with all the memory that making it needs. History and receipt each hold the call and its reply, and share the bytes
/// of both; a second buffer is there in case the reply's bytes cannot be shared.
#[derive(Debug, Drop)]
pub struct Ready {
    alloc: Global,
    call: Call,
    copy: Call,
    buffer: CallBuffer,
    copy_buffer: CallBuffer,
}

impl Model for Ready {
    ghost use Rattle.kc_types.specs.declared.call.Call.{Call as Made};
    ghost use Rattle.kc_live.specs.Ready.{IsReady};

    ghost Value = { Made };

    ghost view = { λ r. r.call };

    ghost invariant = { λ r. IsReady r.call r.copy r.buffer r.copy_buffer };
}

impl Ready {
    /// Makes a call ready; `Memory` if memory runs out.
    pub fn new(alloc: Global, call: Call) -> Result<Ready, Memory>
        // No clause can rule out that memory runs out: tests make calls ready.
        ensures { IfOk result (λ ready. ready ≡ call) }
    {
        let (call, copy) = call.share(alloc)?;
        let buffer = call.buffer(alloc)?;
        let copy_buffer = call.reply_buffer(alloc)?;
        Ok(Ready {
            alloc,
            call,
            copy,
            buffer,
            copy_buffer,
        })
    }

    /// Makes the call of a core, for which memory cannot run out, and gives what the history keeps of it, and the receipt,
    /// with this place in this volume.
    pub fn make(self, core: &mut KCore, volume: u64, number: u32) -> (Entry, Receipt)
        ensures entry { result.0 ≡ entry self (next core.old.state self).0 }
        ensures receipt { result.1 ≡ record { volume = volume; number = number; call = self; reply = (next core.old.state self).0 } }
        ensures state { core.new.state ≡ (next core.old.state self).1 }
    {
        let Ready {
            alloc,
            call,
            copy,
            buffer,
            copy_buffer,
        } = self;
        let reply = core.answer(&call, buffer);
        let (reply, told) = reply.share(alloc, copy_buffer);
        let receipt = Receipt {
            volume,
            number,
            call,
            reply: told,
        };
        (Entry { call: copy, reply }, receipt)
    }
}
