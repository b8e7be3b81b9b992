//! Lives of VMs, as JSON Lines (RFC 8259): one object on each line.
ghost use Rattle.std.specs.Prelude.{◌≡◌, ◌≤◌, ◌+◌, ◌++◌, drop, length, vec_len, vec_capacity, IfOk, OnOk};
ghost use Rattle.std.specs.List.{flat_map};
ghost use Rattle.kc_remarks.specs.Attempts.{AreInOrder, refusals};
ghost use Rattle.kc_trace.specs.CustodyText.{measurement_text};
ghost use Rattle.kc_trace.specs.SummaryText.{turns_text, accesses_counted, counts_text, sharing_text, more_sharing_text, sharings_text, shared_text, reason_member, reason_text, refused_text, life_line, summary_header, summary_end, summary_text_of};

use crate::custody_writer::{
    Heading, push_gfn, push_heading, push_measurement, push_member, push_number,
};
use crate::remark_writer::push_refusal;
use crate::volume_writer::{VolumeEntry, push_volumes};
use kc_lines::push_bytes;
use kc_remarks::{Attempt, attempts_in_life, count_attempts, refusals};
use kc_types::{Config, Life, Memory, Refusal, Sharing};
use std::alloc::Global;

/// More bytes than each part of a line has: its turns, its images, its counts, and a stretch in which a frame was
/// shared.
const LONGEST_PART: usize = 2_400;

/// Appends the slot of a life and the lines of its turns. Here and below, `Memory` if memory runs out.
fn push_turns(text: &mut Vec<u8>, life: &Life) -> Result<(), Memory>
    ensures { OnOk result (text.new.items ≡ text.old.items ++ turns_text life.now) }
{
    text.reserve(LONGEST_PART)?;
    push_member(text, b"{\"vm\":", life.vm as usize);
    push_member(text, b",\"registered\":", life.registered as usize);
    push_bytes(text, b",\"active\":");
    push_number(text, life.active);
    push_bytes(text, b",\"dead\":");
    push_number(text, life.dead);
    push_bytes(text, b",\"cleared\":");
    push_number(text, life.cleared);
    Ok(())
}

/// Appends what was measured of a life.
fn push_life_measurement(text: &mut Vec<u8>, life: &Life) -> Result<(), Memory>
    ensures { OnOk result (text.new.items ≡ text.old.items ++ measurement_text life.now.measurement) }
{
    text.reserve(LONGEST_PART)?;
    push_measurement(text, &life.measurement);
    Ok(())
}

/// Appends how many reads and writes by the host were served, or `null` if the machine's accesses are not in the trace.
fn push_accesses(text: &mut Vec<u8>, is_unseen: bool, life: &Life)
    requires { vec_len text.old + 60 ≤ vec_capacity text.old }
    ensures { text.new.items ≡ text.old.items ++ accesses_counted is_unseen life.now }
{
    if is_unseen {
        push_bytes(text, b",\"reads\":null,\"writes\":null");
        return;
    }
    push_member(text, b",\"reads\":", life.reads);
    push_member(text, b",\"writes\":", life.writes);
}

/// Appends the counts of a life.
fn push_counts(text: &mut Vec<u8>, is_unseen: bool, life: &Life) -> Result<(), Memory>
    ensures { OnOk result (text.new.items ≡ text.old.items ++ counts_text is_unseen life.now) }
{
    text.reserve(LONGEST_PART)?;
    push_member(text, b",\"frames\":", life.frames);
    push_member(text, b",\"most\":", life.most);
    push_member(text, b",\"left\":", life.left);
    push_member(text, b",\"returned\":", life.returned);
    push_accesses(text, is_unseen, life);
    Ok(())
}

/// Appends a stretch in which a frame was shared, as an object with something before it.
fn push_sharing(text: &mut Vec<u8>, before: &[u8], sharing: &Sharing) -> Result<(), Memory>
    requires { length before.now ≤ 1 }
    ensures { OnOk result (text.new.items ≡ text.old.items ++ (before.now ++ sharing_text sharing.now)) }
{
    text.reserve(LONGEST_PART)?;
    push_bytes(text, before);
    push_member(text, b"{\"frame\":", sharing.frame as usize);
    push_bytes(text, b",\"gfn\":");
    push_gfn(text, sharing.gfn);
    push_member(text, b",\"from\":", sharing.from as usize);
    push_bytes(text, b",\"to\":");
    push_number(text, sharing.to);
    push_bytes(text, b"}");
    Ok(())
}

/// Appends stretches as objects with a comma before each.
fn push_more_sharings(text: &mut Vec<u8>, sharings: &[Sharing]) -> Result<(), Memory>
    ensures { OnOk result (text.new.items ≡ text.old.items ++ flat_map more_sharing_text sharings.now) }
{
    for sharing in sharings {
        push_sharing(text, b",", sharing)?;
    }
    Ok(())
}

/// Appends stretches as objects with commas between them.
fn push_sharings(text: &mut Vec<u8>, sharings: &[Sharing]) -> Result<(), Memory>
    ensures { OnOk result (text.new.items ≡ text.old.items ++ sharings_text sharings.now) }
{
    if let Some((first, more)) = sharings.split_first() {
        push_sharing(text, b"", first)?;
        push_more_sharings(text, more)?;
    }
    Ok(())
}

/// Appends when a VM shared which frames, and ends its line.
fn push_shared(text: &mut Vec<u8>, life: &Life) -> Result<(), Memory>
    ensures { OnOk result (text.new.items ≡ text.old.items ++ shared_text life.now) }
{
    text.reserve(LONGEST_PART)?;
    push_bytes(text, b",\"shared\":[");
    push_sharings(text, life.shared.as_slice())?;
    text.reserve(LONGEST_PART)?;
    push_bytes(text, b"]}\n");
    Ok(())
}

/// Appends a reason with the number of calls that were refused for it, if there are some, after a comma.
fn push_reason(text: &mut Vec<u8>, reason: Refusal, count: usize) -> Result<(), Memory>
    ensures { OnOk result (text.new.items ≡ text.old.items ++ reason_member reason count) }
{
    if count == 0 {
        return Ok(());
    }
    text.reserve(LONGEST_PART)?;
    push_bytes(text, b",\"");
    push_refusal(text, reason);
    push_member(text, b"\":", count);
    Ok(())
}

/// All reasons with such numbers, each after a comma.
fn reasons_of(alloc: Global, attempts: &[Attempt]) -> Result<Vec<u8>, Memory>
    ensures { IfOk result (λ text. text.items ≡ flat_map (reason_text attempts.now) refusals) }
{
    let mut text = Vec::new(alloc);
    let all = refusals();
    for reason in &all {
        push_reason(&mut text, *reason, count_attempts(attempts, *reason))?;
    }
    Ok(text)
}

/// Appends what comes after the first of some bytes, for which there is room.
fn push_rest(text: &mut Vec<u8>, bytes: &[u8])
    requires { vec_len text.old + length bytes.now ≤ vec_capacity text.old }
    ensures items { text.new.items ≡ text.old.items ++ drop 1 bytes.now }
    ensures len { vec_len text.new ≤ vec_len text.old + length bytes.now }
    ensures capacity { vec_capacity text.old ≤ vec_capacity text.new }
{
    if let Some((_, rest)) = bytes.split_first() {
        push_bytes(text, rest);
    }
}

/// Appends the calls that were refused at pages of a VM, by their reasons.
fn push_refused(alloc: Global, text: &mut Vec<u8>, attempts: &[Attempt]) -> Result<(), Memory>
    ensures { OnOk result (text.new.items ≡ text.old.items ++ refused_text attempts.now) }
{
    let reasons = reasons_of(alloc, attempts)?;
    text.reserve(LONGEST_PART + reasons.len())?;
    push_bytes(text, b",\"refused\":{");
    push_rest(text, &reasons);
    push_bytes(text, b"}");
    Ok(())
}

/// Appends the line of a life, with its newline, by all attempts at pages of VMs.
fn push_life(
    alloc: Global,
    text: &mut Vec<u8>,
    is_unseen: bool,
    attempts: &[Attempt],
    life: &Life,
) -> Result<(), Memory>
    requires { AreInOrder attempts.now }
    ensures { OnOk result (text.new.items ≡ text.old.items ++ life_line is_unseen attempts.now life.now) }
{
    push_turns(text, life)?;
    push_life_measurement(text, life)?;
    push_counts(text, is_unseen, life)?;
    let own = attempts_in_life(alloc, life, attempts)?;
    push_refused(alloc, text, &own)?;
    push_shared(text, life)
}

/// Appends the lines of some lives.
fn push_lives(
    alloc: Global,
    text: &mut Vec<u8>,
    is_unseen: bool,
    attempts: &[Attempt],
    lives: &[Life],
) -> Result<(), Memory>
    requires { AreInOrder attempts.now }
    ensures { OnOk result (text.new.items ≡ text.old.items ++ flat_map (life_line is_unseen attempts.now) lives.now) }
{
    for life in lives {
        push_life(alloc, text, is_unseen, attempts, life)?;
    }
    Ok(())
}

/// Appends the first line, with the number of calls that were refused or rejected.
fn push_summary_header(
    text: &mut Vec<u8>,
    heading: &Heading,
    config: &Config,
    refused: usize,
) -> Result<(), Memory>
    ensures { OnOk result (text.new.items ≡ text.old.items ++ summary_header heading.now config.now refused) }
{
    text.reserve(LONGEST_PART)?;
    push_bytes(text, b"{\"summary\":");
    push_heading(text, heading, config, Some(refused));
    Ok(())
}

/// Appends the last line: how many calls the trace has, how many lives the text has, and how many calls were refused or
/// rejected.
fn push_summary_end(
    text: &mut Vec<u8>,
    calls: usize,
    lives: usize,
    refused: usize,
) -> Result<(), Memory>
    ensures { OnOk result (text.new.items ≡ text.old.items ++ summary_end calls lives refused) }
{
    text.reserve(LONGEST_PART)?;
    push_member(text, b"{\"calls\":", calls);
    push_member(text, b",\"lives\":", lives);
    push_member(text, b",\"refused\":", refused);
    push_bytes(text, b"}\n");
    Ok(())
}

/// Makes the text of the lives in a trace, or in several volumes of one, given the numbers of its calls and of those
/// that were refused or rejected, and the attempts at pages of VMs.
pub fn summary_text(
    alloc: Global,
    heading: &Heading,
    config: &Config,
    volumes: &[VolumeEntry],
    calls: usize,
    refused: usize,
    attempts: &[Attempt],
    lives: &[Life],
) -> Result<Vec<u8>, Memory>
    requires { AreInOrder attempts.now }
    ensures { IfOk result (λ text. text.items ≡ summary_text_of heading.now config.now volumes.now calls refused attempts.now lives.now) }
{
    let mut text = Vec::new(alloc);
    push_summary_header(&mut text, heading, config, refused)?;
    push_volumes(&mut text, volumes)?;
    push_lives(alloc, &mut text, heading.is_unseen, attempts, lives)?;
    push_summary_end(&mut text, calls, lives.len(), refused)?;
    Ok(text)
}
