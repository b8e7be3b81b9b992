//! The lines between the header and the dump.
ghost use Rattle.std.specs.Prelude.{◌≡◌, ◌≤◌, ◌<◌, ◌+◌, ◌^◌, ◌++◌, length, MatchOption, MatchResult};
ghost use Rattle.kc_types.specs.Limits.{byte_limit};
ghost use Rattle.kc_model.specs.Lawful.{IsPage};
ghost use Rattle.kc_model.specs.Volumes.{IsDigest};
ghost use Rattle.kc_state_text.specs.StateText.{state_header, sizes_line, approved_line, slot_line, page_line};
ghost use Rattle.kc_state_text.specs.Refused.{AreSizes, IsSlotLine, HasNone, BeginsWith, IsWholeFront};
ghost use Rattle.kc_state_text.specs.Reading.{BeginsAs, AreRead, StopsAmong, IsFrontFault};

use crate::fault::StateFault;
use crate::line_reader::{read_approved, read_sizes, read_slot};
use crate::pages::{Buffer, Pages};
use crate::sizes::Sizes;
use kc_lines::split_line;
use kc_snapshot::SlotRest;
use std::alloc::Global;
use std::marker::Model;

/// What the lines between the header and the dump say.
#[derive(Drop)]
pub struct Front {
    pub sizes: Sizes,
    pub approved: Vec<[u8; 32]>,
    pub slots: Vec<SlotRest>,
    pub pages: Pages,
}

impl Model for Front {
    ghost use Rattle.kc_state_text.specs.StateText as text;

    ghost Value = { text.Front };

    ghost view = { λ f. record { sizes = f.sizes; approved = f.approved.items; slots = f.slots.items; pages = f.pages } };
}

impl Front {
    ghost use Rattle.kc_state_text.specs.Refused.{line_count};

    /// The number of these lines.
    pub fn line_count(&self) -> u32
        requires { line_count self.now < 2 ^ 32 }
        ensures { result ≡ line_count self.now }
    {
        2 + self.approved.len() as u32 + self.slots.len() as u32 + self.pages.len() as u32
    }
}

/// Reads the sizes, if the text begins with their line; also returns what follows it.
fn sizes_at(text: &[u8]) -> Option<(Sizes, &[u8])>
    ensures { MatchOption result (HasNone AreSizes sizes_line text.now) (λ cut. BeginsAs AreSizes sizes_line text.now cut.0 cut.1.now) }
{
    let (line, rest) = split_line(text)?;
    Some((read_sizes(line)?, rest))
}

/// Reads an approved digest, if the text begins with the line of one; also returns what follows it.
fn approved_at(text: &[u8]) -> Option<([u8; 32], &[u8])>
    ensures { MatchOption result (HasNone IsDigest approved_line text.now) (λ cut. BeginsAs IsDigest approved_line text.now cut.0 cut.1.now) }
{
    let (line, rest) = split_line(text)?;
    Some((read_approved(line)?, rest))
}

/// Reads a slot, if the text begins with the line of one; also returns what follows it.
fn slot_at(text: &[u8]) -> Option<(SlotRest, &[u8])>
    ensures { MatchOption result (HasNone IsSlotLine slot_line text.now) (λ cut. BeginsAs IsSlotLine slot_line text.now cut.0 cut.1.now) }
{
    let (line, rest) = split_line(text)?;
    Some((read_slot(line)?, rest))
}

/// Reads this many approved digests, the first on the line of this number; also returns what follows them.
fn read_all_approved<'a>(
    alloc: Global,
    text: &'a [u8],
    first: u32,
    count: u32,
) -> Result<(Vec<[u8; 32]>, &'a [u8]), StateFault>
    requires { first + length text.now < 2 ^ 32 }
    ensures { MatchResult result
        (λ read. AreRead IsDigest approved_line count text.now read.0.items read.1.now)
        (λ fault. StopsAmong IsDigest approved_line first count text.now fault) }
{
    let mut digests = Vec::new(alloc);
    let mut rest = text;
    for number in 0..count {
        let Some(cut) = approved_at(rest) else {
            return Err(StateFault::BadLine(first + number));
        };
        let digest = cut.0;
        digests.push(digest)?;
        rest = cut.1;
    }
    Ok((digests, rest))
}

/// Reads this many slots, the first on the line of this number; also returns what follows them.
fn read_all_slots<'a>(
    alloc: Global,
    text: &'a [u8],
    first: u32,
    count: u32,
) -> Result<(Vec<SlotRest>, &'a [u8]), StateFault>
    requires { first + length text.now < 2 ^ 32 }
    ensures { MatchResult result
        (λ read. AreRead IsSlotLine slot_line count text.now read.0.items read.1.now)
        (λ fault. StopsAmong IsSlotLine slot_line first count text.now fault) }
{
    let mut slots = Vec::new(alloc);
    let mut rest = text;
    for number in 0..count {
        let Some((slot, more)) = slot_at(rest) else {
            return Err(StateFault::BadLine(first + number));
        };
        slots.push(slot)?;
        rest = more;
    }
    Ok((slots, rest))
}

/// Reads the bytes of this many pages, the first on the line of this number; also returns what follows them.
fn read_all_pages<'a>(
    alloc: Global,
    text: &'a [u8],
    first: u32,
    count: u32,
) -> Result<(Pages, &'a [u8]), StateFault>
    requires { first + length text.now < 2 ^ 32 }
    ensures { MatchResult result
        (λ read. AreRead IsPage page_line count text.now read.0 read.1.now)
        (λ fault. StopsAmong IsPage page_line first count text.now fault) }
{
    let mut pages = Pages::new(alloc);
    let mut buffer = Buffer::new(alloc)?;
    let mut rest = text;
    for number in 0..count {
        let Some(more) = pages.read(alloc, rest, &mut buffer)? else {
            return Err(StateFault::BadLine(first + number));
        };
        rest = more;
    }
    Ok((pages, rest))
}

/// Reads all lines between the header and the dump, in what follows the header; also returns what follows them. In the
/// numbers of lines the header counts as one.
pub fn read_front(alloc: Global, rest: &[u8]) -> Result<(Front, &[u8]), StateFault>
    requires { length (state_header ++ rest.now) ≤ byte_limit }
    ensures { MatchResult result
        (λ read. BeginsWith (state_header ++ rest.now) read.0 read.1.now × IsWholeFront read.0)
        (λ fault. IsFrontFault (state_header ++ rest.now) fault) }
{
    let Some((sizes, rest)) = sizes_at(rest) else {
        return Err(StateFault::BadLine(2));
    };
    let (approved, rest) = read_all_approved(alloc, rest, 3, sizes.approved)?;
    let first = 3 + sizes.approved;
    let (slots, rest) = read_all_slots(alloc, rest, first, sizes.slots)?;
    let first = first + sizes.slots;
    let (pages, rest) = read_all_pages(alloc, rest, first, sizes.frames)?;
    Ok((
        Front {
            sizes,
            approved,
            slots,
            pages,
        },
        rest,
    ))
}
