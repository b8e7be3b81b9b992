//! The picture of all frames.
ghost use Rattle.std.specs.Prelude.{IfOk};
ghost use Rattle.kc_picture.specs.Foot.{HasFoot};

use crate::cells::{draw_cells, explain_cells, grid_of};
use crate::exact::{Strip, draw_bars, row_height};
use crate::legend::Shown;
use crate::rows::bars_by_row;
use crate::sheet::{FEW_LINES, Sheet};
use crate::svg::{HEADING, MARGIN};
use kc_trace::Heading;
use kc_types::{Bar, Config, Event, Memory};
use std::alloc::Global;

/// The most frames that are drawn bar by bar, each in a row that has room for words.
const EXACT_FRAMES: u64 = 64;
/// The most bars of a picture, which have some 7 MB: browsers are slow with more.
pub const MOST_BARS: usize = 20_000;

/// Draws the custody of all frames through a trace of this number of calls as one text of SVG 1.1, from its events and
/// their bars. `Memory` if a growth was refused.
pub fn picture(
    alloc: Global,
    heading: &Heading,
    config: &Config,
    calls: usize,
    events: &[Event],
    bars: &[Bar],
) -> Result<Vec<u8>, Memory>
    ensures { IfOk result (λ text. HasFoot heading.now text.items) }
{
    let frames = u64::from(config.frames());
    let lines = (calls as u64).saturating_add(1);
    // Whether each stretch of each frame has a bar of its own.
    let exact = frames <= EXACT_FRAMES && lines <= FEW_LINES && bars.len() <= MOST_BARS;
    let grid = grid_of(frames, lines);
    let (rows, height) = if exact {
        (frames, row_height(frames))
    } else {
        (grid.rows, grid.height)
    };
    let by_row = bars_by_row(alloc, bars, rows, frames)?;
    let sheet = Sheet::new(alloc, calls, events, None, rows.saturating_mul(height))?;
    let top = sheet.frames;
    let mut svg = sheet.open(alloc, frames)?;
    svg.words(MARGIN, top - 800, HEADING, "Every frame, by number");
    let shown = if exact {
        let first = Strip {
            scale: sheet.scale,
            top,
            height,
        };
        draw_bars(&mut svg, first, bars, &by_row);
        Shown::Bars
    } else {
        explain_cells(&mut svg, top - 800, &grid, None);
        draw_cells(&mut svg, &grid, top, bars, &by_row, false)?;
        Shown::Cells
    };
    sheet.close(svg, shown, heading)
}
