//! Whether the receipts of all callers are a volume's, each once.
ghost use Rattle.std.specs.Prelude.{◌≡◌, ◌↔◌, ◌≤◌, length, map, IsTrue, IfOk};
ghost use Rattle.std.specs.Bool.{OnTrue};
ghost use Rattle.kc_live.specs.Book.{entry as entry_of};
ghost use Rattle.kc_live.specs.Settling.{MayComeNext, RowFits, RowsFit, IsSettled, marked};

use crate::book::Volume;
use crate::receipt::{Entry, Receipt};
use kc_types::{Call, Memory, Reply};
use std::alloc::Global;
use std::marker::Model;

fn is_same_call(call: &Call, other: &Call) -> bool
    ensures { IsTrue result ↔ (call.now ≡ other.now) }
{
    call == other
}

fn is_same_reply(reply: &Reply, other: &Reply) -> bool
    ensures { IsTrue result ↔ (reply.now ≡ other.now) }
{
    reply == other
}

/// Whether the receipt says what the entry says.
fn is_of(entry: &Entry, receipt: &Receipt) -> bool
    ensures { IsTrue result ↔ (entry.now ≡ entry_of receipt.now.call receipt.now.reply) }
{
    is_same_call(&entry.call, &receipt.call) && is_same_reply(&entry.reply, &receipt.reply)
}

/// Whether the receipt may come next in its row: it is of this volume, its number is not below `least`, no receipt had it
/// before, and it says what the entry says.
fn is_next(volume: &Volume, seen: &[bool], least: u64, receipt: &Receipt) -> bool
    requires { length seen.now ≡ length volume.now.entries }
    ensures { IsTrue result ↔ MayComeNext volume.now seen.now least receipt.now }
{
    let number = receipt.number as usize;
    let Some(entry) = volume.entries().get(number) else {
        return false;
    };
    if seen[number] {
        return false;
    }
    if u64::from(receipt.number) < least {
        return false;
    }
    if receipt.volume != volume.number() {
        return false;
    }
    is_of(entry, receipt)
}

/// Marks the receipts of a row, if they may come next, in order; gives whether they may.
fn mark_row(volume: &Volume, seen: &mut [bool], row: &[Receipt]) -> bool
    requires { length seen.old ≡ length volume.now.entries }
    ensures fits { IsTrue result ↔ RowFits volume.now seen.old 0 row.now }
    ensures seen { OnTrue result (seen.new ≡ marked seen.old row.now) }
{
    let mut least = 0;
    for receipt in row {
        if !is_next(volume, seen, least, receipt) {
            return false;
        }
        seen[receipt.number as usize] = true;
        least = u64::from(receipt.number) + 1;
    }
    true
}

/// Marks the receipts of all rows; gives whether each may come next, and no entry is left unmarked.
fn mark_rows(volume: &Volume, seen: &mut [bool], rows: &[Vec<Receipt>]) -> bool
    requires { length seen.old ≡ length volume.now.entries }
    ensures { IsTrue result ↔ RowsFit volume.now seen.old (map (λ v. v.items) rows.now) }
{
    for row in rows {
        if !mark_row(volume, seen, row.as_slice()) {
            return false;
        }
    }
    seen.iter().all(|is_seen| *is_seen)
}

/// Room in which a volume is settled, made before the volume is there. Seen as how many calls it has room for.
#[derive(Debug, Drop)]
pub struct Marks {
    seen: Vec<bool>,
}

impl Model for Marks {
    ghost use Rattle.std.specs.Prelude.{◌≡◌, ℕ, replicate, false, vec_len};

    ghost Value = { ℕ };

    ghost view = { λ m. vec_len m.seen };

    ghost invariant = { λ m. m.seen.items ≡ replicate (vec_len m.seen) false };
}

impl Marks {
    /// Makes room for a volume of this many calls; `Memory` if memory runs out.
    pub fn with_room(alloc: Global, calls: usize) -> Result<Marks, Memory>
        // No clause can rule out that memory runs out: tests settle.
        ensures { IfOk result (λ marks. marks ≡ calls) }
    {
        let mut seen = Vec::new(alloc);
        seen.resize(calls, false)?;
        Ok(Marks { seen })
    }

    /// Judges whether the receipts are exactly those of a volume's entries: each entry's number is in exactly one receipt and
    /// no other number is in any, each receipt is of this volume and says what its entry says, and numbers rise in each
    /// row. It takes no memory.
    pub fn settle(self, volume: &Volume, rows: &[Vec<Receipt>]) -> bool
        requires { length volume.now.entries ≤ self }
        ensures { IsTrue result ↔ IsSettled volume.now (map (λ v. v.items) rows.now) }
    {
        let Marks { mut seen } = self;
        mark_rows(volume, &mut seen[..volume.entries().len()], rows)
    }
}

/// Judges as `Marks::settle` does, in room made for it; `Memory` if memory runs out.
pub fn settle(alloc: Global, volume: &Volume, rows: &[Vec<Receipt>]) -> Result<bool, Memory>
    // No clause can rule out that memory runs out: tests settle.
    ensures { IfOk result (λ yes. IsTrue yes ↔ IsSettled volume.now (map (λ v. v.items) rows.now)) }
{
    let marks = Marks::with_room(alloc, volume.entries().len())?;
    Ok(marks.settle(volume, rows))
}
