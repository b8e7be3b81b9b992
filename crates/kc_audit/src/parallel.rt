//! The audit of a dump with several threads.
ghost use Rattle.std.specs.Prelude.{◌≡◌, ◌+◌, ◌≤◌, ◌↔◌, [], length, map, IfOk};
ghost use Rattle.std.specs.List.{range_with_len};
ghost use Rattle.sha2.specs.Sha256.{sha256};
ghost use Rattle.kc_types.specs.Limits.{slot_limit};
ghost use Rattle.kc_model.specs.State.{zero_page};
ghost use Rattle.kc_audit.specs.Counts.{AreOwnerCounts};
ghost use Rattle.kc_audit.specs.Marks.{AreMarks};
ghost use Rattle.kc_audit.specs.Findings.{AreFindings, AreListsFrom, verdicts_of, verdict_of};
ghost use Rattle.kc_dump.specs.Sound.{IsSound};

use crate::Finding;
use crate::frames::judge_frames;
use crate::judgement::Judgement;
use crate::lists::judge_lists;
use crate::verdict::FrameVerdict;
use kc_digests::zero_digest;
use kc_dump::Dump;
use kc_types::Memory;
use rayon::prelude::par_chunks_mut_for_each;
use std::alloc::Global;
use std::thread::Threads;

/// Judging a frame takes nanoseconds; starting a thread takes microseconds.
const FRAMES_A_CHUNK: usize = 4_096;
/// One thread judges all lists of version 1.
const LISTS_A_CHUNK: usize = 32;

fn judge_all_frames(
    rt: &(impl Threads + Sync),
    dump: &Dump,
    marks: &[bool],
    zeros: &[u8; 32],
    out: &mut [FrameVerdict],
)
    requires count { length out.old ≡ length dump.now.frames }
    requires marks { AreMarks dump.now marks.now }
    requires zeros { zeros.now ≡ sha256 zero_page }
    ensures { out.new ≡ verdicts_of dump.now }
{
    par_chunks_mut_for_each(
        rt,
        out,
        FRAMES_A_CHUNK,
        |start: usize, chunk: &mut [FrameVerdict]|
            requires { (start + length chunk.now ≤ length dump.now.frames) × AreMarks dump.now marks.now × (zeros.now ≡ sha256 zero_page) }
            ensures { chunk.exit.now ≡ map (verdict_of dump.entry.now) (range_with_len start (length chunk.entry.now)) }
        { judge_frames(dump, marks, zeros, start, chunk) },
    );
}

fn judge_all_lists(rt: &(impl Threads + Sync), dump: &Dump, counts: &[u32], out: &mut [bool])
    requires count { length out.old ≡ length dump.now.slots + 1 }
    requires few { length dump.now.slots ≤ slot_limit }
    requires counts { AreOwnerCounts dump.now.frames (length dump.now.frames) (slot_limit + 1) counts.now }
    ensures count { length out.new ≡ length out.old }
    ensures each { AreListsFrom dump.now 0 out.new }
{
    par_chunks_mut_for_each(
        rt,
        out,
        LISTS_A_CHUNK,
        |start: usize, chunk: &mut [bool]|
            requires { (start + length chunk.now ≤ length dump.now.slots + 1) × (length dump.now.slots ≤ slot_limit) × AreOwnerCounts dump.now.frames (length dump.now.frames) (slot_limit + 1) counts.now }
            ensures { (length chunk.exit.now ≡ length chunk.entry.now) × AreListsFrom dump.entry.now start chunk.exit.now }
        { judge_lists(dump, counts, start, chunk) },
    );
}

/// Does what `audit` does, with several threads that judge the frames and the lists.
pub fn audit_parallel(
    rt: &(impl Threads + Sync),
    alloc: Global,
    dump: &Dump,
) -> Result<Vec<Finding>, Memory>
    // No clause can rule out that memory runs out: a test audits dumps.
    ensures found { IfOk result (λ found. AreFindings dump.now found.items) }
    ensures sound { IfOk result (λ found. (found.items ≡ []) ↔ IsSound dump.now) }
{
    let mut judgement = Judgement::new(alloc, dump)?;
    judge_all_frames(
        rt,
        dump,
        judgement.marks.as_slice(),
        &zero_digest(),
        judgement.verdicts.as_mut_slice(),
    );
    judge_all_lists(
        rt,
        dump,
        judgement.counts.as_slice(),
        judgement.lists.as_mut_slice(),
    );
    judgement.findings(alloc, dump)
}
