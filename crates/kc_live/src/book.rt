//! The history of a core, volume by volume, from a configuration's boot state on.
ghost use Rattle.std.specs.Prelude.{◌≡◌, ◌<◌, ◌≤◌, ◌↔◌, ◌++◌, ◌∷◌, [], length, vec_capacity, IsErr, IfOk, IfErr, OnOk, OnErr};
ghost use Rattle.kc_types.specs.Limits.{call_limit, digest_limit};

use crate::fault::LiveFault;
use crate::journal::{Journal, VolumeDigest, header_in, see_digests};
use crate::ready::Ready;
use crate::receipt::{Entry, Receipt};
use kc_core::KCore;
use kc_trace::{Header, Position};
use kc_types::{Config, Memory};
use std::alloc::Global;
use std::marker::Model;

/// A journal from a configuration's boot state on. Every value of it is legal: one thread could have made all its volumes,
/// and the header of each has a head of the machine, with the volume's number.
#[derive(Drop)]
pub struct Book {
    journal: Journal,
}

impl Model for Book {
    ghost use Rattle.std.specs.Coded.{codes, coded_ℕ};
    ghost use Rattle.std.specs.FinMap as map;
    ghost use Rattle.std.specs.Ordering.{nat_cmp};
    ghost use Rattle.kc_live.specs.Book.{Recording, IsKept};

    ghost Value = { Recording };

    ghost coded = { Prim.hlevel (codes, map.code {R = nat_cmp} coded_ℕ coded_ℕ) };

    ghost view = { λ b. b.journal };

    ghost invariant = { λ b. IsKept b.journal };
}

impl Book {
    ghost use Rattle.kc_live.specs.Book.{IsDigestOf, IsLegal, IsKept, new_book, next_recording, receipt_of, recorded, volume_in};

    /// Begins the first volume of a history, whose header has a head that says so: with the core in the boot state of its
    /// configuration, no calls, and room for as many as there can be. `Memory` if memory runs out.
    pub fn new(alloc: Global, config: Config) -> Result<Book, Memory>
        // No clause can rule out that memory runs out: tests make books.
        ensures { IfOk result (λ book. book ≡ new_book config) }
    {
        let core = KCore::boot(alloc, config)?;
        see_digests(core.config());
        Ok(Book {
            journal: Journal::of(alloc, core, Some(Position::First))?,
        })
    }

    /// Makes one call, which the volume then has with its reply, and puts its receipt in the place that is reserved for it: the
    /// call is made and has its receipt, or neither. Memory cannot run out here. The one fault is `HistoryFull`, which comes
    /// exactly if the volume has 65,536 calls.
    pub fn record(&mut self, ready: Ready, receipts: &mut Vec<Receipt>) -> Result<(), LiveFault>
        requires { length receipts.old.items < vec_capacity receipts.old }
        ensures receipt { OnOk result (receipts.new.items ≡ receipts.old.items ++ receipt_of self.old.log ready ∷ []) }
        ensures entry { OnOk result (self.new ≡ recorded self.old ready) }
        ensures full { IsErr result ↔ (length self.old.log.entries ≡ call_limit) }
        ensures fault { IfErr result (λ fault. fault ≡ LiveFault.HistoryFull) }
        ensures err { OnErr result ((receipts.new ≡ receipts.old) × (self.new ≡ self.old)) }
    {
        let receipt = self.journal.step(ready)?;
        receipts.push_reserved(receipt);
        Ok(())
    }

    /// Hands out the volume, full or not, and begins the next one with the core as it is. The head of the next one has the
    /// next number, and the digest of this one; after the last number, 4,294,967,295, volumes have none. The room for the
    /// next one's calls, and for the approved digests in the head of this one, is made before, so that memory cannot run
    /// out here.
    pub fn turn(&mut self, room: Vec<Entry>, digests: Vec<[u8; 32]>) -> Volume
        requires empty { (room.items ≡ []) × (digests.items ≡ []) }
        requires room { (call_limit ≤ vec_capacity room) × (digest_limit ≤ vec_capacity digests) }
        ensures volume { result ≡ volume_in self.old }
        ensures next { self.new ≡ next_recording self.old }
        ensures legal { IsLegal result }
    {
        let number = self.journal.volume();
        let header = header_in(digests, self.journal.header());
        let entries = self.journal.turn(room);
        Volume {
            number,
            header,
            entries,
        }
    }

    /// Gives the digest of the volume so far. The calls since it was last asked are hashed now. No memory is taken.
    pub fn digest(&mut self) -> VolumeDigest
        ensures digest { IsDigestOf (volume_in self.old) result }
        ensures legal { IsLegal (volume_in self.old) }
        ensures same { self.new ≡ self.old }
    {
        VolumeDigest {
            volume: self.journal.volume().saturating_add(1),
            calls: self.journal.entries().len() as u32,
            digest: self.journal.digest(),
        }
    }

    /// Ends the history.
    pub fn close(self) -> History
        ensures same { result ≡ self }
        ensures kept { IsKept result }
    {
        let Book { journal } = self;
        let (number, header, entries, core) = journal.into_parts();
        History {
            volume: Volume {
                number,
                header,
                entries,
            },
            core,
        }
    }
}

/// A volume that was handed out: the calls between two states of a core that goes on, and the header of their trace. Every
/// value of it is legal, as a `Book` is.
#[derive(Drop)]
pub struct Volume {
    number: u64,
    header: Header,
    entries: Vec<Entry>,
}

impl Model for Volume {
    ghost use Rattle.std.specs.Prelude.{◌≤◌, length};
    ghost use Rattle.kc_types.specs.Limits.{call_limit};
    ghost use Rattle.kc_live.specs.Book.{VolumeView, IsLegal};

    ghost Value = { VolumeView };

    ghost view = { λ v. record { number = v.number; header = v.header; entries = v.entries.items } };

    ghost invariant = { λ v. IsLegal (record { number = v.number; header = v.header; entries = v.entries.items }) × (length v.entries.items ≤ call_limit) };
}

impl Volume {
    ghost use Rattle.kc_live.specs.Book.{IsLegal, MayRecord};

    /// The volume's number, from 0: how many volumes came before. Its head counts from 1.
    pub fn number(&self) -> u64
        ensures { result ≡ self.now.number }
    {
        self.number
    }

    /// The header of the volume's trace: its head has the machine, the volume's number from 1, and the digest of the redacted
    /// text of the volume before. Only a volume after number 4,294,967,295 has no head.
    pub fn header(&self) -> &Header
        ensures header { result.now ≡ self.now.header }
        ensures legal { IsLegal self.now }
        ensures may { MayRecord self.now.header }
    {
        &self.header
    }

    /// The calls in the order in which they were made, each with its reply.
    pub fn entries(&self) -> &[Entry]
        ensures entries { result.now ≡ self.now.entries }
        ensures legal { IsLegal self.now }
        ensures short { length self.now.entries ≤ call_limit }
    {
        self.entries.as_slice()
    }

    /// The calls, each with its reply.
    pub fn into_entries(self) -> Vec<Entry>
        ensures entries { result.items ≡ self.entries }
        ensures legal { IsLegal self }
        ensures short { length self.entries ≤ call_limit }
    {
        let Volume {
            number: _,
            header: _,
            entries,
        } = self;
        entries
    }
}

/// A history that has ended: its last volume, and the core that this left. Every value of it is legal, as a `Book` is.
#[derive(Drop)]
pub struct History {
    volume: Volume,
    core: KCore,
}

impl Model for History {
    ghost use Rattle.std.specs.Coded.{codes, coded_ℕ};
    ghost use Rattle.std.specs.FinMap as map;
    ghost use Rattle.std.specs.Ordering.{nat_cmp};
    ghost use Rattle.kc_live.specs.Book.{Recording, IsKept, log};

    ghost Value = { Recording };

    ghost coded = { Prim.hlevel (codes, map.code {R = nat_cmp} coded_ℕ coded_ℕ) };

    ghost view = { λ h. record { header = h.volume.header; log = log h.volume.number h.volume.entries h.core.state } };

    ghost invariant = { λ h. IsKept (record { header = h.volume.header; log = log h.volume.number h.volume.entries h.core.state }) };
}

impl History {
    ghost use Rattle.kc_live.specs.Book.{IsLegal, volume_in};

    /// The last volume.
    pub fn volume(&self) -> &Volume
        ensures same { result.now ≡ volume_in self.now }
        ensures legal { IsLegal (volume_in self.now) }
        ensures short { length self.now.log.entries ≤ call_limit }
    {
        &self.volume
    }

    /// The core as the calls left it.
    pub fn core(&self) -> &KCore
        ensures { result.now.state ≡ self.now.log.state }
    {
        &self.core
    }

    /// The last volume, and the core as its calls left it.
    pub fn into_parts(self) -> (Volume, KCore)
        ensures volume { result.0 ≡ volume_in self }
        ensures core { result.1.state ≡ self.log.state }
    {
        let History { volume, core } = self;
        (volume, core)
    }
}
