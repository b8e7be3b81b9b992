//! Reading a state.
ghost use Rattle.std.specs.Prelude.{ℕ, ◌≡◌, ◌≤◌, ◌<◌, ◌+◌, ◌^◌, ◌++◌, true, length, IfOk, IfErr, IfSome, MatchResult};
ghost use Rattle.kc_types.specs.Configuration.{has_dump};
ghost use Rattle.kc_types.specs.Limits.{byte_limit};
ghost use Rattle.kc_dump_text.specs.declared.fault.DumpFault.TheVariants.{BadLine};
ghost use Rattle.kc_trace.specs.Header.{IsPosition};
ghost use Rattle.kc_state_text.specs.declared.fault.StateFault.TheVariants as faults;
ghost use Rattle.kc_state_text.specs.StateText.{state_header, state_text, placed_state_text};
ghost use Rattle.kc_state_text.specs.Refused.{IsTextOf, IsRefusedState, IsRefusedPlaced};
ghost use Rattle.kc_state_text.specs.Faults.{dump_fault, unlawful_fault, fault_after};
ghost use Rattle.kc_model.specs.Volumes.{IsCoreState};

use crate::fault::StateFault;
use crate::front::{Front, read_front};
use crate::header::read_header;
use kc_core::KCore;
use kc_digests::Lanes;
use kc_dump::Dump;
use kc_dump_text::{DumpFault, read_dump};
use kc_snapshot::{Told, Unlawful, core_alone, core_of};
use kc_trace::Position;
use std::alloc::Global;
use std::thread::Threads;

/// What is wrong with a state if this is wrong with its dump, which comes after this many lines.
fn dump_fault(fault: DumpFault, before: u32) -> StateFault
    requires few { before < 2 ^ 31 }
    requires counted { (n : ℕ) → fault ≡ BadLine n → before + n < 2 ^ 32 }
    ensures { result ≡ dump_fault before fault }
{
    match fault {
        DumpFault::NoHeader => StateFault::BadLine(before + 1),
        DumpFault::BadLine(number) => StateFault::BadLine(before + number),
        DumpFault::Frame(frame) => StateFault::Missing(frame),
        DumpFault::Memory => StateFault::Memory,
    }
}

/// Joins the lines before the dump and the dump.
fn told_of(front: Front, dump: Dump) -> Told
    ensures host { result.rest.host ≡ front.sizes.host }
    ensures approved { result.rest.approved ≡ front.approved }
    ensures slots { result.rest.slots ≡ front.slots }
    ensures pages { result.rest.pages ≡ front.pages }
    ensures dump { result.dump ≡ dump }
{
    let Front {
        sizes,
        approved,
        slots,
        pages,
    } = front;
    Told {
        host: sizes.host,
        approved,
        slots,
        pages: pages.into_vec(),
        dump,
    }
}

/// Reads the whole description in what follows the header. In the numbers of lines the header counts as one.
fn read_told(alloc: Global, rest: &[u8]) -> Result<Told, StateFault>
    requires { length (state_header ++ rest.now) ≤ byte_limit }
    ensures { MatchResult result (IsTextOf (state_header ++ rest.now)) (IsRefusedState (state_header ++ rest.now)) }
{
    let (front, rest) = read_front(alloc, rest)?;
    let before = front.line_count();
    match read_dump(alloc, rest) {
        Ok(dump) => Ok(told_of(front, dump)),
        Err(fault) => Err(dump_fault(fault, before)),
    }
}

/// What is wrong with a text that describes no lawful state.
fn unlawful_fault(why: Unlawful) -> StateFault
    ensures { result ≡ unlawful_fault why }
{
    match why {
        Unlawful::Sizes => StateFault::Sizes,
        Unlawful::Found(finding) => StateFault::Found(finding),
        Unlawful::Slot(vm) => StateFault::Slot(vm),
        Unlawful::Frame(frame) => StateFault::Frame(frame),
        Unlawful::Memory => StateFault::Memory,
    }
}

/// Makes the core whose state's text this is, after its header, by several threads. In the numbers of lines the header
/// counts as one.
fn read_core(
    rt: &(impl Threads + Sync),
    alloc: Global,
    rest: &[u8],
    lanes: Lanes,
) -> Result<KCore, StateFault>
    requires { length (state_header ++ rest.now) ≤ byte_limit }
    ensures state { IfOk result (λ core. state_header ++ rest.now ≡ state_text core.state) }
    ensures core { IfOk result (λ core. IsCoreState core.state) }
    ensures version { IfOk result (λ core. has_dump core.state.config.version ≡ true) }
    ensures refused { IfErr result (IsRefusedState (state_header ++ rest.now)) }
{
    let told = read_told(alloc, rest)?;
    match core_of(rt, alloc, told, lanes) {
        Ok(core) => {
            let _config = core.config();
            Ok(core)
        }
        Err(why) => Err(unlawful_fault(why)),
    }
}

/// Does what `read_core` does, on this thread alone.
fn read_core_alone(alloc: Global, rest: &[u8]) -> Result<KCore, StateFault>
    requires { length (state_header ++ rest.now) ≤ byte_limit }
    ensures state { IfOk result (λ core. state_header ++ rest.now ≡ state_text core.state) }
    ensures core { IfOk result (λ core. IsCoreState core.state) }
    ensures version { IfOk result (λ core. has_dump core.state.config.version ≡ true) }
    ensures refused { IfErr result (IsRefusedState (state_header ++ rest.now)) }
{
    let told = read_told(alloc, rest)?;
    match core_alone(alloc, told) {
        Ok(core) => {
            let _config = core.config();
            Ok(core)
        }
        Err(why) => Err(unlawful_fault(why)),
    }
}

/// What is wrong with a text with this position or none, if this is wrong with the text without it: the second header
/// has a line more.
fn fault_after(position: Option<Position>, fault: StateFault) -> StateFault
    requires { (n : ℕ) → fault ≡ faults.BadLine n → n + 1 < 2 ^ 32 }
    ensures { result ≡ fault_after position fault }
{
    if position.is_none() {
        return fault;
    }
    match fault {
        StateFault::BadLine(number) => StateFault::BadLine(number + 1),
        _ => fault,
    }
}

/// What a state's text says.
#[derive(Drop)]
pub struct ReadState {
    /// A core in that state.
    pub core: KCore,
    /// The volume that goes on from it, if the text says one.
    pub position: Option<Position>,
}

/// Makes the core whose state's text this is, of at most 1,073,741,824 bytes, and reads the position, if the text has
/// one. Only `Memory` is a fault that says nothing about the text. The pages are hashed by several threads, this many
/// side by side, and compared with their digests.
pub fn read_state(
    rt: &(impl Threads + Sync),
    alloc: Global,
    text: &[u8],
    lanes: Lanes,
) -> Result<ReadState, StateFault>
    requires { length text.now ≤ byte_limit }
    // What is read is the state's one text, and what is refused is not a lawful state's, for its first fault.
    ensures state { IfOk result (λ read. text.now ≡ placed_state_text read.position read.core.state) }
    ensures position { IfOk result (λ read. IfSome read.position IsPosition) }
    ensures core { IfOk result (λ read. IsCoreState read.core.state) }
    ensures version { IfOk result (λ read. has_dump read.core.state.config.version ≡ true) }
    ensures refused { IfErr result (IsRefusedPlaced text.now) }
{
    let (position, rest) = read_header(text)?;
    match read_core(rt, alloc, rest, lanes) {
        Ok(core) => Ok(ReadState { core, position }),
        Err(fault) => Err(fault_after(position, fault)),
    }
}

/// Does what `read_state` does, on this thread alone, which hashes page by page.
pub fn read_state_alone(alloc: Global, text: &[u8]) -> Result<ReadState, StateFault>
    requires { length text.now ≤ byte_limit }
    ensures state { IfOk result (λ read. text.now ≡ placed_state_text read.position read.core.state) }
    ensures position { IfOk result (λ read. IfSome read.position IsPosition) }
    ensures core { IfOk result (λ read. IsCoreState read.core.state) }
    ensures version { IfOk result (λ read. has_dump read.core.state.config.version ≡ true) }
    ensures refused { IfErr result (IsRefusedPlaced text.now) }
{
    let (position, rest) = read_header(text)?;
    match read_core_alone(alloc, rest) {
        Ok(core) => Ok(ReadState { core, position }),
        Err(fault) => Err(fault_after(position, fault)),
    }
}
