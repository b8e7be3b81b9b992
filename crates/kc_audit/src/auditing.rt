//! The audit of a dump, by the calling thread.
ghost use Rattle.std.specs.Prelude.{◌≡◌, ◌↔◌, [], IfOk};
ghost use Rattle.kc_audit.specs.Findings.{AreFindings};
ghost use Rattle.kc_dump.specs.Sound.{IsSound};

use crate::Finding;
use crate::frames::judge_frames;
use crate::judgement::Judgement;
use crate::lists::judge_lists;
use kc_digests::zero_digest;
use kc_dump::Dump;
use kc_types::Memory;
use std::alloc::Global;

/// Audits a dump. The findings are by kind, in the order of the kinds, and within a kind by slot, guest frame or
/// frame, ascending. `Memory` if memory runs out.
pub fn audit(alloc: Global, dump: &Dump) -> Result<Vec<Finding>, Memory>
    // No clause can rule out that memory runs out: a test audits dumps.
    ensures found { IfOk result (λ found. AreFindings dump.now found.items) }
    ensures sound { IfOk result (λ found. (found.items ≡ []) ↔ IsSound dump.now) }
{
    let mut judgement = Judgement::new(alloc, dump)?;
    judge_frames(
        dump,
        judgement.marks.as_slice(),
        &zero_digest(),
        0,
        judgement.verdicts.as_mut_slice(),
    );
    judge_lists(
        dump,
        judgement.counts.as_slice(),
        0,
        judgement.lists.as_mut_slice(),
    );
    judgement.findings(alloc, dump)
}
