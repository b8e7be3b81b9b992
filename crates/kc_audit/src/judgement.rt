//! What the findings of a dump are made of.
ghost use Rattle.std.specs.Prelude.{◌≡◌, ◌+◌, ◌≤◌, ◌↔◌, [], length, IfOk, OnOk};
ghost use Rattle.kc_types.specs.Limits.{frame_limit, slot_limit};
ghost use Rattle.kc_audit.specs.Counts.{AreOwnerCounts};
ghost use Rattle.kc_audit.specs.Marks.{AreMarks};
ghost use Rattle.kc_audit.specs.Findings.{AreFindings, AreListsFrom, verdicts_of};
ghost use Rattle.kc_dump.specs.Sound.{IsSound};

use crate::Finding;
use crate::collect::findings;
use crate::counts::counts;
use crate::marks::marks;
use crate::verdict::FrameVerdict;
use kc_dump::Dump;
use kc_types::Memory;
use std::alloc::Global;

/// What frames and lists are judged by, and what is judged of them.
#[derive(Drop)]
pub(crate) struct Judgement {
    /// Which frames the tables map where the frames' records say.
    pub marks: Vec<bool>,
    /// How many frames each list has to have.
    pub counts: Vec<u32>,
    /// What is wrong with each frame.
    pub verdicts: Vec<FrameVerdict>,
    /// Whether each list is spelled: that of the free frames, and then those of the slots.
    pub lists: Vec<bool>,
}

impl Judgement {
    /// Makes what they are judged by, with room for what is judged.
    pub(crate) fn new(alloc: Global, dump: &Dump) -> Result<Judgement, Memory>
        ensures marks { IfOk result (λ judgement. AreMarks dump.now judgement.marks.items) }
        ensures counts { IfOk result (λ judgement. AreOwnerCounts
            dump.now.frames (length dump.now.frames) (slot_limit + 1) judgement.counts.items) }
        ensures verdicts { IfOk result (λ judgement. length judgement.verdicts.items ≡ length dump.now.frames) }
        ensures lists { IfOk result (λ judgement. length judgement.lists.items ≡ length dump.now.slots + 1) }
        ensures frames { OnOk result (length dump.now.frames ≤ frame_limit) }
        ensures slots { OnOk result (length dump.now.slots ≤ slot_limit) }
    {
        Ok(Judgement {
            marks: marks(alloc, dump)?,
            counts: counts(alloc, dump)?,
            verdicts: vec![in alloc; FrameVerdict::default(); dump.frames().len()]?,
            lists: vec![in alloc; false; dump.slots().len() + 1]?,
        })
    }

    /// The findings, once all frames and lists are judged.
    pub(crate) fn findings(&self, alloc: Global, dump: &Dump) -> Result<Vec<Finding>, Memory>
        requires verdicts { self.now.verdicts.items ≡ verdicts_of dump.now }
        requires count { length self.now.lists.items ≡ length dump.now.slots + 1 }
        requires lists { AreListsFrom dump.now 0 self.now.lists.items }
        requires frames { length dump.now.frames ≤ frame_limit }
        requires slots { length dump.now.slots ≤ slot_limit }
        ensures found { IfOk result (λ found. AreFindings dump.now found.items) }
        ensures sound { IfOk result (λ found. (found.items ≡ []) ↔ IsSound dump.now) }
    {
        findings(alloc, dump, self.verdicts.as_slice(), self.lists.as_slice())
    }
}
