//! How high the outline of a number over the lines of a trace is, column by column.
ghost use Rattle.std.specs.Prelude.{◌≡◌, ◌*◌, ◌<◌, ◌≤◌, max, length, slice_index, EachIndex, IfOk, vec_len, if◌then◌else◌};
ghost use Rattle.kc_picture.specs.Outlines.{number_of, is_met, AreHeights};

use crate::scale::{MOST_POINTS, Scale};
use crate::vms::Step;
use kc_types::Memory;
use std::alloc::Global;

/// Which number of a step is drawn.
#[derive(Clone, Copy)]
pub(crate) enum Which {
    All,
    Shared,
}

/// The number of a step that is drawn.
fn number_of(step: &Step, which: Which) -> u64
    ensures { result ≡ number_of which step.now }
{
    match which {
        Which::All => step.frames,
        Which::Shared => step.shared,
    }
}

/// Makes the columns into which lines fall, from one up to another, at least as high as a number.
fn raise(heights: &mut Vec<u64>, lines: u64, from: u32, to: u32, number: u64)
    requires some { 0 < lines }
    requires few { vec_len heights.old ≤ MOST_POINTS }
    ensures len { vec_len heights.new ≡ vec_len heights.old }
    ensures heights { EachIndex heights.new.items (λ c. slice_index heights.new.items c ≡ (if is_met lines (vec_len heights.old) from to c then max (slice_index heights.old.items c) number else slice_index heights.old.items c)) }
{
    if from < to {
        let count = heights.len() as u64;
        let first = u64::from(from).saturating_sub(1) * count / lines;
        let end = ((u64::from(to) - 1) * count).div_ceil(lines).min(count);
        for column in first..end {
            let height = heights[column as usize];
            heights[column as usize] = height.max(number);
        }
    }
}

/// How high each column is: as the greatest number on any line that falls into it. `Memory` if a growth was refused.
pub(crate) fn heights_of(
    alloc: Global,
    scale: Scale,
    steps: &[Step],
    which: Which,
) -> Result<Vec<u64>, Memory>
    ensures { IfOk result (λ made. AreHeights which scale.last steps.now made.items) }
{
    let mut heights = vec![in alloc; 0; scale.columns() as usize]?;
    let mut to = scale.end();
    for i in (0..steps.len()).rev() {
        let step = steps[i];
        let number = number_of(&step, which);
        raise(&mut heights, scale.last, step.line, to, number);
        to = step.line;
    }
    Ok(heights)
}
