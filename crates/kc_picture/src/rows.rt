//! The bars by the rows in which they are drawn.
use kc_types::{Bar, Memory};
use std::alloc::Global;

/// The row of a frame; there are this many rows, for this many frames in order.
pub(crate) fn row_of(frame: u64, rows: u64, frames: u64) -> u64 {
    frame.saturating_mul(rows) / frames.max(1)
}

/// The first frame of a row; of the row after the last, the number of frames.
pub(crate) fn first_of_row(row: u64, rows: u64, frames: u64) -> u64 {
    row.saturating_mul(frames).div_ceil(rows.max(1))
}

/// Lists the numbers of the bars of each row, in their order. `Memory` if there was none for them.
pub fn bars_by_row(
    alloc: Global,
    bars: &[Bar],
    rows: u64,
    frames: u64,
) -> Result<Vec<Vec<usize>>, Memory> {
    let mut by_row = Vec::new(alloc);
    for _ in 0..rows {
        by_row.push(Vec::new(alloc))?;
    }
    for (i, bar) in bars.iter().enumerate() {
        let row = row_of(u64::from(bar.frame), rows, frames);
        if let Some(list) = by_row.get_mut(row as usize) {
            list.push(i)?;
        }
    }
    Ok(by_row)
}
