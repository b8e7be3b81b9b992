//! The dump of a core.
ghost use Rattle.std.specs.Prelude.{◌≡◌, ◌<◌, IfOk};
ghost use Rattle.kc_types.specs.Configuration.{slot_count};
ghost use Rattle.kc_model.specs.State.{slot_at};
ghost use Rattle.kc_snapshot.specs.Dumping.{digests_of, frame_lines, slot_dump, slot_dumps, dump_of};
ghost use Rattle.kc_snapshot.specs.Form.{in_form};
ghost use Rattle.kc_dump.specs.Sound.{IsSound};

use crate::digesting::frame_digests_alone;
use crate::form::StateForm;
use kc_core::KCore;
use kc_digests::{Lanes, frame_digests};
use kc_dump::{Dump, FrameLine, SlotDump};
use kc_types::Memory;
use std::alloc::Global;
use std::thread::Threads;

/// The digests of a core's pages in a form.
#[derive(Drop)]
struct Digests {
    form: StateForm,
    each: Vec<[u8; 32]>,
}

/// Lists the records of all frames with the digests of their pages.
fn lines(alloc: Global, core: &KCore, digests: &Digests) -> Result<Vec<FrameLine>, Memory>
    requires { digests.now.each.items ≡ digests_of (in_form digests.now.form core.now.state) }
    ensures { IfOk result
        (λ lines. lines.items ≡ frame_lines (in_form digests.now.form core.now.state) core.now.state.config.frames) }
{
    let each = digests.each.as_slice();
    let mut lines = Vec::with_capacity(alloc, each.len())?;
    for number in 0..core.config().frames() {
        let meta = core.page_record(number).unwrap();
        lines.push(FrameLine {
            owner: meta.owner.get(),
            share: u32::from(meta.share),
            gfn: meta.gfn.get(),
            present: meta.present,
            prev: meta.prev.get(),
            next: meta.next.get(),
            digest: each[number as usize],
        })?;
    }
    Ok(lines)
}

/// Dumps a VM slot that exists.
fn slot(alloc: Global, core: &KCore, vm: u32) -> Result<SlotDump, Memory>
    requires { vm < slot_count core.now.state.config }
    ensures { IfOk result (λ slot. slot ≡ slot_dump (slot_at core.now.state vm)) }
{
    let phase = core.phase(vm).unwrap();
    let list = core.slot_ends(vm).unwrap();
    let leaves = core.leaves(vm).unwrap().to_vec(alloc)?;
    let entries = core.entries(alloc, vm)?;
    Ok(SlotDump::new(phase, list, leaves, entries))
}

/// Dumps all VM slots.
fn slots(alloc: Global, core: &KCore) -> Result<Vec<SlotDump>, Memory>
    ensures { IfOk result (λ slots. slots.items ≡ slot_dumps core.now.state (slot_count core.now.state.config)) }
{
    let mut slots = Vec::new(alloc);
    for vm in 0..core.config().slots() {
        slots.push(slot(alloc, core, vm)?)?;
    }
    Ok(slots)
}

/// Dumps a core with these digests.
fn dump_with(alloc: Global, core: &KCore, digests: &Digests) -> Result<Dump, Memory>
    requires { digests.now.each.items ≡ digests_of (in_form digests.now.form core.now.state) }
    ensures dump { IfOk result (λ dump. dump ≡ dump_of (in_form digests.now.form core.now.state)) }
    ensures sound { IfOk result IsSound }
{
    let frames = lines(alloc, core, digests)?;
    let slots = slots(alloc, core)?;
    let config = core.config();
    Ok(Dump::new(
        config.version(),
        config.core(),
        config.leaves(),
        core.free_ends(),
        slots,
        frames,
    ))
}

/// Dumps a core, in time that grows with its frames, its mapped guest frames and its leaves. The pages are hashed by
/// several threads, this many side by side. `Memory` if memory runs out.
pub fn dump(
    rt: &(impl Threads + Sync),
    alloc: Global,
    core: &KCore,
    lanes: Lanes,
) -> Result<Dump, Memory>
    // No clause can rule out that memory runs out: a test dumps a core.
    ensures dump { IfOk result (λ dump. dump ≡ dump_of core.now.state) }
    ensures sound { IfOk result IsSound }
{
    let all = core.all_bytes(alloc)?;
    let digests = Digests {
        form: StateForm::Whole,
        each: frame_digests(rt, alloc, all.as_slice(), lanes)?,
    };
    dump_with(alloc, core, &digests)
}

/// Dumps a core in a form, as `dump` does, on this thread alone, which hashes page by page.
pub fn dump_alone(alloc: Global, core: &KCore, form: StateForm) -> Result<Dump, Memory>
    // No clause can rule out that memory runs out: tests dump a core.
    ensures dump { IfOk result (λ dump. dump ≡ dump_of (in_form form core.now.state)) }
    ensures sound { IfOk result IsSound }
{
    let digests = Digests {
        form,
        each: frame_digests_alone(alloc, core, form)?,
    };
    dump_with(alloc, core, &digests)
}
