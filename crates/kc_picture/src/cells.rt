//! Many frames or calls: a cell for some frames through some lines, in the colour of the VM that had most of it.
ghost use Rattle.std.specs.Prelude.{◌≡◌, ◌*◌, ◌^◌, ◌<◌, ◌≤◌, sum, slice_index, EachIndex};
ghost use Rattle.kc_picture.specs.Cells.{IsOf, IsTrueToShare};

use crate::colour::{CORE, Colour, EDGE, FREE, HOST, SEVERAL};
use crate::coordinate::{Coordinate, Points};
use crate::put;
use crate::rows::{first_of_row, row_of};
use crate::scale::{END, NAMES, PLOT, START, lines_of_column, nice};
use crate::sums::{FIRST_VM, MOST_COLUMNS, Sums, at, owners_of, sums_of, weigh};
use crate::svg::{Area, Paint, REMARK, Svg};
use crate::titles::{Block, cell_title};
use crate::words::{Count, Text};
use kc_types::{Bar, Memory, SLOT_LIMIT};
use std::alloc::Global;

/// The most rows of cells.
const MOST_ROWS: u64 = 128;

/// The rows and columns of cells.
#[derive(Clone, Copy)]
pub struct Grid {
    frames: u64,
    lines: u64,
    pub rows: u64,
    columns: u64,
    /// The height of a row.
    pub height: u64,
}

/// Returns the grid of this number of frames through this number of lines: at most 128 rows.
pub fn grid_of(frames: u64, lines: u64) -> Grid {
    let rows = frames.min(MOST_ROWS);
    Grid {
        frames,
        lines,
        rows,
        columns: lines.max(1).min(MOST_COLUMNS),
        height: if rows > 40 { 400 } else { 800 },
    }
}

impl Grid {
    /// Where a column begins.
    fn x(&self, column: u64) -> Coordinate {
        START + PLOT.saturating_mul(column) / self.columns.max(1)
    }
}

/// What VMs had of a cell: the one that had most, how much that is, and how much all together had.
#[derive(Clone, Copy)]
struct Most {
    vm: usize,
    of_vm: u64,
    of_vms: u64,
}

/// What VMs had, by the weight of each.
fn most_of(weights: &[u64]) -> Most
    ensures all { sum weights.now < 2 ^ 64 → result.of_vms ≡ sum weights.now }
    ensures most { EachIndex weights.now (λ k. slice_index weights.now k ≤ result.of_vm) }
    ensures vm { 0 < result.of_vm → slice_index weights.now result.vm ≡ result.of_vm }
{
    let mut vm = 0;
    let mut of_vm = 0u64;
    let mut of_vms = 0u64;
    for (i, weight) in weights.iter().enumerate() {
        of_vms = of_vms.saturating_add(*weight);
        if *weight > of_vm {
            of_vm = *weight;
            vm = i;
        }
    }
    Most { vm, of_vm, of_vms }
}

/// The colour of the core, the host or nobody, whichever had most of a cell.
fn rest_of(weights: &[u64]) -> Colour {
    let core = at(weights, 0);
    let host = at(weights, 1);
    let free = at(weights, 2);
    if core > host && core > free {
        CORE
    } else if host > free {
        HOST
    } else {
        FREE
    }
}

/// Whose a cell is: a VM's that had more than half of what VMs had of it, or several VMs', or, if VMs had nothing, that of
/// the other owner that had most.
#[derive(Clone, Copy, PartialEq, Eq)]
pub(crate) enum Whose {
    Vm(usize),
    Several,
    Rest(Colour),
}

/// Decides whose a cell is, by what VMs had of it and the colour of the other owner that had most.
fn holder_of(most: &Most, rest: Colour) -> Whose
    ensures { IsOf most.now result }
{
    if most.of_vms == 0 {
        Whose::Rest(rest)
    } else if most.of_vm > most.of_vms / 2 {
        Whose::Vm(most.vm)
    } else {
        Whose::Several
    }
}

/// How many hundredths of the way to white the colour of a cell of this size goes of which VMs had this much: as many as
/// others had of it, to within ten; none if VMs had all.
fn paleness_of(of_vms: u64, size: u64) -> u32
    ensures most { result ≤ 100 }
    ensures true_to_share { 5 * of_vms < 2 ^ 64 → of_vms ≤ size → IsTrueToShare of_vms size result }
    ensures whole { size ≤ of_vms → result ≡ 0 }
{
    if of_vms >= size {
        return 0;
    }
    match of_vms.saturating_mul(5) / size {
        0 => 90,
        1 => 70,
        2 => 50,
        3 => 30,
        _ => 10,
    }
}

/// How a cell is drawn.
#[derive(Clone, Copy, PartialEq, Eq)]
struct Cell {
    whose: Whose,
    colour: Colour,
}

/// The cell of these weights, in which all frames through all lines have this weight.
fn cell_of(weights: &[u64], size: u64) -> Cell {
    let most = match weights.get(FIRST_VM..) {
        Some(vms) => most_of(vms),
        None => most_of(&[]),
    };
    let whose = holder_of(&most, rest_of(weights));
    let paleness = paleness_of(most.of_vms, size);
    let colour = match whose {
        Whose::Vm(vm) => Colour::of_vm(vm.min(SLOT_LIMIT as usize - 1) as u32).paler(paleness),
        Whose::Several => SEVERAL.paler(paleness),
        Whose::Rest(colour) => colour,
    };
    Cell { whose, colour }
}

/// Returns a row's cells, from left to right.
fn cells_of(alloc: Global, sums: &Sums, size: u64) -> Result<Vec<Cell>, Memory> {
    let mut running = vec![in alloc; 0u64; sums.owners]?;
    let mut weights = vec![in alloc; 0u64; sums.owners]?;
    let mut cells = Vec::new(alloc);
    for column in 0..sums.columns.min(MOST_COLUMNS) {
        weigh(sums, &mut running, &mut weights, column);
        cells.push(cell_of(&weights, size))?;
    }
    Ok(cells)
}

/// A row of a grid.
#[derive(Clone, Copy)]
struct Row {
    grid: Grid,
    /// Its first frame, and that of the next row.
    first: u64,
    next: u64,
    top: Coordinate,
    /// Whether the cells show one VM alone.
    alone: bool,
}

impl Row {
    /// The weight of all its frames through all lines of a column.
    fn size(&self) -> u64 {
        self.next
            .saturating_sub(self.first)
            .saturating_mul(self.grid.lines)
    }

    /// The frames and lines of its cells from one column up to another.
    fn block(&self, from: u64, to: u64) -> Block {
        let (lines, columns) = (self.grid.lines, self.grid.columns.max(1));
        Block {
            first_frame: self.first,
            last_frame: self.next.saturating_sub(1),
            first_line: (from.saturating_mul(lines) / columns).saturating_add(1),
            last_line: to.saturating_mul(lines).div_ceil(columns),
        }
    }

    /// Draws equal cells from one column up to another, with a title.
    fn draw_run(&self, svg: &mut Svg, cell: &Cell, from: u64, to: u64) {
        let title = cell_title(svg.alloc(), &self.block(from, to), cell.whose, self.alone);
        let x = self.grid.x(from);
        let width = self.grid.x(to).distance(x);
        svg.line(
            x,
            self.top + self.grid.height / 2,
            width,
            cell.colour,
            &title,
        );
    }

    /// Draws its cells, equal ones side by side as one.
    fn draw_cells(&self, svg: &mut Svg, cells: &[Cell]) {
        let mut from = 0usize;
        for (i, cell) in cells.iter().enumerate() {
            let next = i.saturating_add(1);
            let goes_on = match cells.get(next) {
                Some(other) => *other == *cell,
                None => false,
            };
            if !goes_on {
                self.draw_run(svg, cell, from as u64, next as u64);
                from = next;
            }
        }
    }

    /// Draws an edge where a VM's cells begin and end, which is read in grey too.
    fn draw_edges(&self, svg: &mut Svg, cells: &[Cell]) {
        let mut path = Text::new(svg.alloc());
        let mut before = Whose::Rest(FREE);
        for (column, cell) in cells.iter().enumerate() {
            if has_edge(before, cell.whose) {
                path.begin_line(self.grid.x(column as u64) + 50, self.top);
                path.put_length("v", self.grid.height);
            }
            before = cell.whose;
        }
        svg.path(&path, Paint::Lines(Points(60)));
    }

    /// Underlines the cells in which any frame was shared.
    fn underline(&self, svg: &mut Svg, sums: &Sums) {
        let mut path = Text::new(svg.alloc());
        let y = self.top + self.grid.height - 60;
        let mut count = 0u64;
        let mut from = 0u64;
        // (after the last column no frame is shared any more)
        for column in 0..sums.columns.min(MOST_COLUMNS) + 1 {
            let before = count;
            count = count.wrapping_add(at(&sums.shared, column as usize));
            if before > 0 && count == 0 {
                let x = self.grid.x(from);
                path.begin_line(x, y);
                path.put_length("h", self.grid.x(column).distance(x));
            }
            if before == 0 {
                from = column;
            }
        }
        svg.path(&path, Paint::Lines(Points(120)));
    }

    /// Draws it by what each owner had of it.
    fn draw(&self, svg: &mut Svg, sums: &Sums) -> Result<(), Memory> {
        let cells = cells_of(svg.alloc(), sums, self.size())?;
        self.draw_cells(svg, &cells);
        self.draw_edges(svg, &cells);
        self.underline(svg, sums);
        Ok(())
    }
}

/// Whether an edge is drawn between two cells: where another's begin, unless no VM had any of either.
fn has_edge(left: Whose, right: Whose) -> bool {
    match (left, right) {
        (Whose::Rest(_), Whose::Rest(_)) | (Whose::Several, Whose::Several) => false,
        (Whose::Vm(left), Whose::Vm(right)) => left != right,
        _ => true,
    }
}

/// Writes the numbers of some frames beside their rows.
fn name_rows(svg: &mut Svg, top: Coordinate, grid: &Grid) {
    let step = nice(grid.frames, 8);
    for i in 0..9u64 {
        let frame = step.saturating_mul(i);
        if frame < grid.frames {
            let above = row_of(frame, grid.rows, grid.frames).saturating_mul(grid.height);
            svg.numbered(NAMES, top + above + 800, REMARK, "", frame);
        }
    }
}

/// Writes at the right what a cell is, on a base line; of one slot's VM alone if one is named (0 to 1,023).
pub fn explain_cells(svg: &mut Svg, base: Coordinate, grid: &Grid, vm: Option<u32>) {
    let tall = grid.frames.div_ceil(grid.rows.max(1));
    let wide = lines_of_column(grid.lines, grid.columns);
    svg.begin_words(END, base, REMARK);
    let (frames, lines) = (Count(tall, "frame"), Count(wide, "line"));
    put!(svg.text, "a cell: up to {frames} through up to {lines}");
    match vm {
        Some(vm) => put!(
            svg.text,
            "; paler the less of it vm {vm} had; underlined where it shared any"
        ),
        None => svg.text.put(
            "; in a VM's colour where it had most of what VMs had, paler the less that was; underlined where any was shared",
        ),
    }
    svg.end_words();
}

/// Draws the cells of all frames from a height on, by the numbers of the bars in each row; if `alone`, those of what one VM
/// had. `Memory` if there was none for a row.
pub fn draw_cells(
    svg: &mut Svg,
    grid: &Grid,
    top: Coordinate,
    bars: &[Bar],
    by_row: &[Vec<usize>],
    alone: bool,
) -> Result<(), Memory> {
    name_rows(svg, top, grid);
    svg.begin_lines(grid.height);
    let owners = owners_of(bars);
    for (i, list) in by_row.iter().enumerate() {
        let number = i as u64;
        let row = Row {
            grid: *grid,
            first: first_of_row(number, grid.rows, grid.frames),
            next: first_of_row(number.saturating_add(1), grid.rows, grid.frames),
            top: top + number.saturating_mul(grid.height),
            alone,
        };
        row.draw(
            svg,
            &sums_of(svg.alloc(), owners, grid.columns, grid.lines, bars, list)?,
        )?;
    }
    svg.end_group();
    let height = grid.rows.saturating_mul(grid.height);
    svg.rect(&Area::new(START, top, PLOT, height), Paint::Edge(EDGE));
    Ok(())
}
