//! Calls that were refused at a page of a VM.
ghost use Rattle.std.specs.Prelude.{◌≡◌, Some, IfOk};
ghost use Rattle.kc_types.specs.declared.custody.Life.{Life};
ghost use Rattle.kc_remarks.specs.Attempts.{AreInOrder, attempt_on, attempt_told, is_before, is_in_life, attempts_in_life, is_for, count_attempts, refusals};

use crate::remark::NamedFrame;
use kc_types::{Life, Memory, Refusal, Reply, vm_of};
use std::alloc::Global;

/// A call that was refused at a page that a VM owned.
#[derive(Clone, Copy, Debug, PartialEq, Eq)]
pub struct Attempt {
    /// The line of the call in its trace, whose header is line 1.
    pub line: u32,
    /// The slot of the VM.
    pub vm: u32,
    pub reason: Refusal,
}

/// All reasons for refusals, in the order of their numbers.
pub fn refusals() -> [Refusal; 26]
    ensures { result ≡ refusals }
{
    [
        Refusal::BadVm,
        Refusal::BadVcpu,
        Refusal::BadFrame,
        Refusal::BadGfn,
        Refusal::BadRange,
        Refusal::SlotUsed,
        Refusal::NoVm,
        Refusal::WrongPhase,
        Refusal::VcpuUsed,
        Refusal::NoVcpu,
        Refusal::ImagesFull,
        Refusal::Overlap,
        Refusal::NoImage,
        Refusal::ImageFull,
        Refusal::ImageShort,
        Refusal::NoFault,
        Refusal::Mapped,
        Refusal::NotMapped,
        Refusal::NotHost,
        Refusal::Protected,
        Refusal::NotPresent,
        Refusal::TablesFull,
        Refusal::ShareFull,
        Refusal::NotShared,
        Refusal::Shared,
        Refusal::NoFree,
    ]
}

/// The attempt that a refused call is, if it names a frame of a VM.
fn attempt_on(line: u32, named: Option<NamedFrame>, reason: Refusal) -> Option<Attempt>
    ensures { result ≡ attempt_on line named reason }
{
    match named {
        Some(named) => match vm_of(named.owner) {
            Some(vm) => Some(Attempt { line, vm, reason }),
            None => None,
        },
        None => None,
    }
}

/// The attempt that a call is, by the frame that it names, as it was before the call, and its reply.
pub fn attempt_told(line: u32, named: Option<NamedFrame>, reply: &Reply) -> Option<Attempt>
    ensures { result ≡ attempt_told line named reply.now }
{
    match reply {
        Reply::Refused(reason) => attempt_on(line, named, *reason),
        _ => None,
    }
}

fn is_before(line: u32, end: Option<u32>) -> bool
    ensures { result ≡ is_before line end }
{
    match end {
        Some(end) => line < end,
        None => true,
    }
}

/// Whether the page was the VM's in this life.
fn is_in_life(life: &Life, attempt: &Attempt) -> bool
    ensures { result ≡ is_in_life life.now attempt.now }
{
    attempt.vm == life.vm && life.registered < attempt.line && is_before(attempt.line, life.cleared)
}

/// Leaves out the attempts up to a line.
fn after(attempts: &[Attempt], line: u32) -> &[Attempt]
    requires { AreInOrder attempts.now }
    ensures order { AreInOrder result.now }
    ensures same { (life : Life) → life.registered ≡ line → attempts_in_life life result.now ≡ attempts_in_life life attempts.now }
{
    let first = attempts.partition_point(|attempt| attempt.line <= line);
    &attempts[first..]
}

/// Leaves out the attempts from a line on.
fn before(attempts: &[Attempt], line: u32) -> &[Attempt]
    requires { AreInOrder attempts.now }
    ensures { (life : Life) → life.cleared ≡ Some line → attempts_in_life life result.now ≡ attempts_in_life life attempts.now }
{
    let end = attempts.partition_point(|attempt| attempt.line < line);
    &attempts[..end]
}

/// Leaves out the attempts outside the lines of a life: each attempt is within the lives of at most 64 VMs.
fn within<'a>(life: &Life, attempts: &'a [Attempt]) -> &'a [Attempt]
    requires { AreInOrder attempts.now }
    ensures { attempts_in_life life.now result.now ≡ attempts_in_life life.now attempts.now }
{
    let attempts = after(attempts, life.registered);
    match life.cleared {
        Some(line) => before(attempts, line),
        None => attempts,
    }
}

/// Lists the attempts at pages that a VM owned in this life. `Memory` if memory runs out.
pub fn attempts_in_life(
    alloc: Global,
    life: &Life,
    attempts: &[Attempt],
) -> Result<Vec<Attempt>, Memory>
    requires { AreInOrder attempts.now }
    ensures { IfOk result (λ own. own.items ≡ attempts_in_life life.now attempts.now) }
{
    let mut own = Vec::new(alloc);
    let attempts = within(life, attempts);
    for attempt in attempts {
        if is_in_life(life, attempt) {
            own.push(*attempt)?;
        }
    }
    Ok(own)
}

/// Whether the call was refused for this reason.
fn is_for(attempt: &Attempt, reason: Refusal) -> bool
    ensures { result ≡ is_for reason attempt.now }
{
    attempt.reason.number() == reason.number()
}

/// How many were refused for this reason.
pub fn count_attempts(attempts: &[Attempt], reason: Refusal) -> usize
    ensures { result ≡ count_attempts attempts.now reason }
{
    let mut count = 0;
    for attempt in attempts {
        if is_for(attempt, reason) {
            count += 1;
        }
    }
    count
}
