//! The picture of one VM: its frames in the order in which they came, and what was refused and served at them.
ghost use Rattle.std.specs.Prelude.{IfOk};
ghost use Rattle.kc_picture.specs.Foot.{HasFoot};

use crate::cells::{draw_cells, explain_cells, grid_of};
use crate::coordinate::Coordinate;
use crate::drawing::MOST_BARS;
use crate::exact::Strip;
use crate::legend::Shown;
use crate::mark_drawing::{Plot, draw_marks};
use crate::marks::Mark;
use crate::put;
use crate::rows::bars_by_row;
use crate::scale::NAMES;
use crate::sheet::Sheet;
use crate::svg::{HEADING, MARGIN, REMARK, Svg};
use crate::vm_rows::{bars_in_rows, keep_bars_of, rows_of};
use indexmap::IndexSet;
use kc_trace::Heading;
use kc_types::{Bar, Config, Event, Memory};
use std::alloc::Global;

/// The most frames that have a row each.
const MOST_ROWS: usize = 1_000;
/// The height of the row of calls at no frame that has a row.
const CALLS_HEIGHT: u64 = 1_200;
/// What is left free below it.
const CALLS_GAP: u64 = 600;
/// The room for words above it.
const WORDS_HEIGHT: u64 = 1_300;
/// Rows that are lower do not all have their frame's number beside them.
const LOWEST_NUMBERED: u64 = 1_000;

/// The height of a row, by the number of rows.
fn row_height(rows: u64) -> u64 {
    if rows <= 16 {
        2_200
    } else if rows <= 64 {
        1_200
    } else if rows <= 250 {
        700
    } else {
        400
    }
}

/// The base line of the heading of the rows.
fn head_of(plot: &Plot) -> Coordinate {
    plot.calls.top - (WORDS_HEIGHT + 800)
}

/// Writes the heading of the rows, and what the row above them is.
fn head_rows(svg: &mut Svg, plot: &Plot, exact: bool) {
    let vm = plot.vm;
    svg.begin_words(MARGIN, head_of(plot), HEADING);
    if exact {
        put!(
            svg.text,
            "Each frame of vm {vm}, in the order in which they came"
        );
    } else {
        put!(svg.text, "Frames of vm {vm}, by number");
    }
    svg.end_words();
    let words = if exact { "other calls" } else { "calls" };
    svg.words(NAMES, plot.calls.top + 900, REMARK.sized(900), words);
    plot.calls.draw_edge(svg);
}

/// Draws the rows of a VM's frames, each with its frame's number, if there is room for it.
fn draw_rows(svg: &mut Svg, plot: &Plot, rows: &IndexSet<u32>, bars: &[Bar]) -> Result<(), Memory> {
    let in_rows = bars_in_rows(svg.alloc(), rows, bars)?;
    let mut strip = plot.first;
    let step = LOWEST_NUMBERED.div_ceil(strip.height.max(1)).max(1);
    for (number, row) in in_rows.iter().enumerate() {
        if let Some(frame) = rows.get_index(number) {
            if number as u64 % step == 0 {
                strip.name(svg, u64::from(*frame));
            }
        }
        strip.draw_edge(svg);
        strip.draw_bars(svg, bars, row);
        strip.underline(svg, bars, row);
        strip.top = strip.top + strip.height;
    }
    Ok(())
}

/// Draws the custody of one VM's frames through a trace of this number of calls as one text of SVG 1.1, from the trace's
/// events, their bars, and the marks of what is reported of that VM. `Memory` if a growth was refused.
pub fn picture_of_vm(
    alloc: Global,
    heading: &Heading,
    config: &Config,
    calls: usize,
    events: &[Event],
    mut bars: Vec<Bar>,
    marks: &[Mark],
    vm: u32,
) -> Result<Vec<u8>, Memory>
    ensures { IfOk result (λ text. HasFoot heading.now text.items) }
{
    let frames = u64::from(config.frames());
    keep_bars_of(&mut bars, vm);
    let rows = rows_of(alloc, &bars)?;
    // Whether each frame has a row of its own.
    let exact = rows.len() <= MOST_ROWS && bars.len() <= MOST_BARS;
    let grid = grid_of(frames, (calls as u64).saturating_add(1));
    let (count, height) = if exact {
        (rows.len() as u64, row_height(rows.len() as u64))
    } else {
        (grid.rows, grid.height)
    };
    let all = count.saturating_mul(height);
    let above = WORDS_HEIGHT + CALLS_HEIGHT + CALLS_GAP;
    let sheet = Sheet::new(alloc, calls, events, Some(vm), all.saturating_add(above))?;
    let strip = |top, height| Strip {
        scale: sheet.scale,
        top: sheet.frames + top,
        height,
    };
    let plot = Plot {
        vm,
        calls: strip(WORDS_HEIGHT, CALLS_HEIGHT),
        first: strip(above, height),
        bottom: sheet.frames + above + all,
    };
    let mut svg = sheet.open(alloc, frames)?;
    head_rows(&mut svg, &plot, exact);
    let shown = if exact {
        draw_rows(&mut svg, &plot, &rows, &bars)?;
        draw_marks(&mut svg, &plot, &rows, marks)?;
        Shown::Rows
    } else {
        let by_row = bars_by_row(alloc, &bars, grid.rows, frames)?;
        explain_cells(&mut svg, head_of(&plot), &grid, Some(vm));
        draw_cells(&mut svg, &grid, plot.first.top, &bars, &by_row, true)?;
        draw_marks(&mut svg, &plot, &IndexSet::new(alloc), marks)?;
        Shown::Cells
    };
    sheet.close(svg, shown, heading)
}
