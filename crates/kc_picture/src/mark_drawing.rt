//! The marks of the picture of one VM as they are drawn: those of a kind that are close to each other in a row as one.
use crate::colour::DEAD;
use crate::coordinate::Coordinate;
use crate::exact::Strip;
use crate::labels::Labels;
use crate::lane_titles::Run;
use crate::marks::{Mark, mark_title, marks_title};
use crate::shapes::{MarkKind, draw_shape};
use crate::svg::{PLAIN, Svg};
use indexmap::IndexSet;
use kc_types::Memory;
use std::alloc::Global;

/// The most marks of a picture: browsers are slow with more.
const MOST_MARKS: usize = 10_000;
/// Marks within this width are drawn as one.
const POINT: u64 = 100;
/// The kinds, the loudest last.
const KINDS: [MarkKind; 4] = [
    MarkKind::Read,
    MarkKind::Write,
    MarkKind::Refused,
    MarkKind::Rejected,
];

/// Where the rows of marks lie.
#[derive(Clone, Copy)]
pub(crate) struct Plot {
    /// The slot of the VM.
    pub vm: u32,
    /// The row of calls at no frame that has a row.
    pub calls: Strip,
    /// The row of the first frame; the others have the same height.
    pub first: Strip,
    /// The end of the last row.
    pub bottom: Coordinate,
}

/// Marks of a kind in a row that are drawn as one.
#[derive(Clone, Copy)]
struct Group {
    /// The first of them.
    mark: Mark,
    row: usize,
    run: Run,
}

/// The row of a mark: 0 if it is at no frame that has one.
fn row_of(rows: &IndexSet<u32>, mark: Mark, vm: u32) -> usize {
    let Some(frame) = mark.frame(vm) else {
        return 0;
    };
    match rows.get_index_of(&frame) {
        Some(row) => row.saturating_add(1),
        None => 0,
    }
}

/// Groups the marks: those of one kind in one row within a width as one.
fn groups_within(
    alloc: Global,
    plot: &Plot,
    rows: &IndexSet<u32>,
    marks: &[Mark],
    width: u64,
) -> Result<Vec<Group>, Memory> {
    let mut groups: Vec<Group> = Vec::new(alloc);
    // The last group of each kind in each row.
    let places = rows.len().saturating_add(1).saturating_mul(KINDS.len());
    let mut last: Vec<Option<usize>> = vec![in alloc; None; places]?;
    for mark in marks {
        let row = row_of(rows, *mark, plot.vm);
        let place = row
            .saturating_mul(KINDS.len())
            .saturating_add(mark.kind() as usize);
        if let Some(last) = last.get_mut(place) {
            let is_joined = match *last {
                Some(at) => match groups.get_mut(at) {
                    Some(group) => group.run.add(plot.calls.scale, width, mark.line()),
                    None => false,
                },
                None => false,
            };
            if !is_joined {
                *last = Some(groups.len());
                groups.push(Group {
                    mark: *mark,
                    row,
                    run: Run::new(mark.line(), mark.line()),
                })?;
            }
        }
    }
    Ok(groups)
}

/// Groups the marks: those within a point as one, or, if that leaves too many, within two, four and so on.
fn groups_of(
    alloc: Global,
    plot: &Plot,
    rows: &IndexSet<u32>,
    marks: &[Mark],
) -> Result<Vec<Group>, Memory> {
    let mut width = POINT;
    let mut groups = groups_within(alloc, plot, rows, marks, width)?;
    for _ in 0..11 {
        if groups.len() > MOST_MARKS {
            width = width.saturating_mul(2);
            groups = groups_within(alloc, plot, rows, marks, width)?;
        }
    }
    Ok(groups)
}

/// The title of marks that are drawn as one, or of one alone.
fn title_of(alloc: Global, group: &Group) -> Result<String, Memory> {
    if group.run.count == 1 {
        mark_title(alloc, group.mark)
    } else {
        marks_title(alloc, group.mark.kind(), &group.run)
    }
}

/// Draws marks that are one, with a title: in their row, or, if they are of rejected boots, through all rows.
fn draw_group(svg: &mut Svg, plot: &Plot, group: &Group) {
    let kind = group.mark.kind();
    let (top, height) = if kind == MarkKind::Rejected {
        (plot.calls.top, plot.bottom.distance(plot.calls.top))
    } else if group.row == 0 {
        (plot.calls.top, plot.calls.height)
    } else {
        let above = (group.row as u64 - 1).saturating_mul(plot.first.height);
        (plot.first.top + above, plot.first.height)
    };
    let title = title_of(svg.alloc(), group);
    svg.begin_titled(&title);
    draw_shape(svg, kind, plot.calls.scale.x(group.run.first), top, height);
    svg.end_group();
}

/// Draws all marks of some rows, the loudest above all others, and a word above those of rejected boots.
pub(crate) fn draw_marks(
    svg: &mut Svg,
    plot: &Plot,
    rows: &IndexSet<u32>,
    marks: &[Mark],
) -> Result<(), Memory> {
    let groups = groups_of(svg.alloc(), plot, rows, marks)?;
    for kind in KINDS {
        for group in &groups {
            if group.mark.kind() == kind {
                draw_group(svg, plot, group);
            }
        }
    }
    let style = PLAIN.sized(900).coloured(DEAD).bold();
    let mut labels = Labels::new(plot.calls.top - 150, style, 5_000);
    for group in &groups {
        if group.mark.kind() == MarkKind::Rejected {
            labels.write(svg, plot.calls.scale.x(group.run.first), "rejected");
        }
    }
    Ok(())
}
