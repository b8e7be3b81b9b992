//! The parts that a core starts with.
ghost use Rattle.std.specs.Prelude.{◌≡◌, ◌+◌, ◌<◌, ◌≤◌, length, map, replicate, Some, true, IfOk};
ghost use Rattle.std.specs.List.{range_with_len};
ghost use Rattle.kc_types.specs.Configuration.{IsConfiguration, slot_count};
ghost use Rattle.kc_types.specs.Limits.{slot_limit};
ghost use Rattle.kc_vms.specs.Vm.{capacity_of, empty_vm};
ghost use Rattle.kc_parts.specs.Booting.{boot_page, boot_ends};
ghost use Rattle.kc_parts.specs.Chunks.{chunk_size};

use crate::chunk::Chunk;
use crate::layout::Layout;
use kc_page::{Page, PageBytes};
use kc_types::{Config, Ends, FrameNo, Memory};
use kc_vms::Vm;
use std::alloc::Global;

/// Makes the pages of this many frames from this one on at boot, reserved: each has memory for its bytes.
fn reserved_pages(
    alloc: Global,
    config: &Config,
    first: u32,
    count: u32,
) -> Result<Vec<Page>, Memory>
    requires { first + count ≤ config.now.frames }
    ensures { IfOk result (λ pages. pages.items ≡ map (boot_page true config.now) (range_with_len first count)) }
{
    let layout = Layout::of(config);
    let mut pages = Vec::with_capacity(alloc, count as usize)?;
    for i in 0..count {
        pages.push(Page {
            meta: layout.record(first + i),
            bytes: PageBytes::reserved(alloc)?,
        })?;
    }
    Ok(pages)
}

/// Makes the chunk of this many frames from this one on at boot, reserved or sparse.
pub(crate) fn boot_chunk(
    alloc: Global,
    config: &Config,
    is_reserved: bool,
    first: u32,
    count: u32,
) -> Result<Chunk, Memory>
    requires within { first + count ≤ config.now.frames }
    requires small { count ≤ chunk_size }
    ensures { IfOk result (λ chunk. chunk ≡ map (boot_page is_reserved config.now) (range_with_len first count)) }
{
    if is_reserved {
        let pages = reserved_pages(alloc, config, first, count)?;
        Ok(Chunk::of(alloc, pages))
    } else {
        Chunk::at_boot(alloc, Layout::of(config), first, count)
    }
}

/// Lists the numbers of all frames.
pub fn all_numbers(alloc: Global, count: u32) -> Result<Vec<u32>, Memory>
    ensures { IfOk result (λ numbers. numbers.items ≡ range_with_len 0 count) }
{
    let mut numbers = Vec::with_capacity(alloc, count as usize)?;
    for number in 0..count {
        numbers.push(number)?;
    }
    Ok(numbers)
}

/// Makes all slots, empty.
pub fn boot_vms(alloc: Global, config: &Config) -> Result<Vec<Option<Vm>>, Memory>
    ensures vms { IfOk result (λ vms. vms.items ≡ replicate (slot_count config.now) (Some (empty_vm (capacity_of config.now)))) }
    ensures few { IfOk result (λ vms. length vms.items ≤ slot_limit) }
{
    let mut vms = Vec::with_capacity(alloc, config.slots() as usize)?;
    for _ in 0..config.slots() {
        vms.push(Some(Vm::try_new(alloc, config.version(), config.leaves())?))?;
    }
    Ok(vms)
}

/// The ends of the free list at boot.
pub fn boot_ends(config: &Config) -> Ends
    ensures value { result ≡ boot_ends config.now }
    ensures kept { IsConfiguration config.now }
{
    let first = config.core() + config.host();
    let frames = config.frames();
    if first >= frames {
        return Ends::empty();
    }
    Ends {
        head: FrameNo::try_new(first),
        tail: FrameNo::try_new(frames - 1),
        count: frames - first,
    }
}
