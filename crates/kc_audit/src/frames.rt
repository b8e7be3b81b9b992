//! What is wrong with each frame.
ghost use Rattle.std.specs.Prelude.{◌≡◌, ◌+◌, ◌≤◌, length, map};
ghost use Rattle.std.specs.List.{range_with_len};
ghost use Rattle.sha2.specs.Sha256.{sha256};
ghost use Rattle.kc_model.specs.State.{zero_page};
ghost use Rattle.kc_audit.specs.Marks.{AreMarks};
ghost use Rattle.kc_audit.specs.Findings.{verdict_of};

use crate::verdict::{FrameVerdict, judge};
use kc_dump::Dump;

/// Judges the frames from a place on.
pub fn judge_frames(
    dump: &Dump,
    marks: &[bool],
    zeros: &[u8; 32],
    start: usize,
    out: &mut [FrameVerdict],
)
    requires within { start + length out.old ≤ length dump.now.frames }
    requires marks { AreMarks dump.now marks.now }
    requires zeros { zeros.now ≡ sha256 zero_page }
    ensures { out.new ≡ map (verdict_of dump.now) (range_with_len start (length out.old)) }
{
    let lines = dump.frames();
    for i in 0..out.len() {
        let frame = start + i;
        out[i] = judge(
            dump.core(),
            frame as u32,
            marks[frame],
            zeros,
            &lines[frame],
        );
    }
}
