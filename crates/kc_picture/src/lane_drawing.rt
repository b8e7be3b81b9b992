//! The lane of a VM: how many frames it has over time, how many of them it shares, and when it was there.
ghost use Rattle.std.specs.Prelude.{◌≡◌, false, string_bytes, IfOk};
ghost use Rattle.kc_picture.specs.Words.{Puts};
ghost use Rattle.kc_picture.specs.OutlineWords.{top_of, approach_words, edge_words, outline_words, underline_words, IsOutline, IsUnderline};

use crate::colour::{Colour, EDGE};
use crate::coordinate::{Coordinate, Points};
use crate::outlines::{Which, heights_of};
use crate::scale::{NAMES, PLOT, START, Scale};
use crate::stay_drawing::{draw_marks, draw_stays, stays_of};
use crate::svg::{Anchor, Area, HEADING, Paint, Svg};
use crate::vms::{Lane, Step};
use crate::words::Text;
use kc_types::Memory;
use std::alloc::Global;

/// Whose a lane is, where it lies, and how many frames its height is.
#[derive(Clone, Copy)]
pub(crate) struct LanePlace {
    pub scale: Scale,
    pub vm: u32,
    /// Its base line.
    pub base: u64,
    /// How high the most frames are.
    pub height: u64,
    /// The most frames of any lane.
    pub top: u64,
    /// Whether there is room for words on it.
    pub roomy: bool,
}

impl LanePlace {
    /// The rectangle of this width and height on its base line.
    pub fn area(&self, x: Coordinate, width: u64, height: u64) -> Area {
        Area::new(x, Coordinate(self.base) - height, width, height)
    }

    /// The base line of words above it.
    pub fn words_base(&self) -> Coordinate {
        Coordinate(self.base) - self.height - 100
    }
}

/// The least height of a number that is not 0.
const LOWEST: u64 = 250;
/// How far below its base line a lane is underlined.
const BELOW: u64 = 200;

/// Where a number is drawn.
fn top_of(place: &LanePlace, number: u64) -> u64
    ensures { result ≡ top_of place.now number }
{
    if number == 0 {
        return place.base;
    }
    let high = place.height.saturating_mul(number) / place.top.max(1);
    place.base.saturating_sub(high.max(LOWEST))
}

/// Puts how a path comes to a column: it begins there, at a height, if the number before is 0, else it goes on up to there.
fn put_approach(path: &mut Text, scale: Scale, y: u64, before: u64, column: u64)
    ensures { Puts path.old path.new (approach_words scale.last y before column) }
{
    let x = scale.column_x(column);
    if before == 0 {
        path.put_length("M", x);
        path.put_length(" ", y);
    } else {
        path.put_length("H", x);
    }
}

/// Puts an edge of an outline at a column, where its height changes.
fn put_edge(path: &mut Text, place: &LanePlace, before: u64, height: u64, column: u64)
    ensures { Puts path.old path.new (edge_words place.now before height column) }
{
    put_approach(path, place.scale, place.base, before, column);
    path.put_length("V", top_of(place, height));
    if height == 0 {
        path.put("Z");
    }
}

/// The outline of columns of these heights, with a gap where they are 0.
fn outline_of(alloc: Global, place: &LanePlace, heights: &[u64]) -> Text
    ensures { result.refused ≡ false → string_bytes result.text ≡ outline_words place.now 0 0 heights.now }
{
    let mut path = Text::new(alloc);
    let mut before = 0u64;
    for (column, height) in heights.iter().enumerate() {
        if *height != before {
            put_edge(&mut path, place, before, *height, column as u64);
        }
        before = *height;
    }
    if before > 0 {
        put_edge(&mut path, place, before, 0, heights.len() as u64);
    }
    path
}

/// The outline of a number of each step; `Memory` if there was none for its columns.
fn outline_of_steps(
    alloc: Global,
    place: &LanePlace,
    steps: &[Step],
    which: Which,
) -> Result<Text, Memory>
    ensures { IfOk result (λ path. IsOutline place.now which steps.now path) }
{
    let heights = heights_of(alloc, place.scale, steps, which)?;
    Ok(outline_of(alloc, place, &heights))
}

/// A line along the columns whose heights are not 0.
fn underline_of(alloc: Global, scale: Scale, y: u64, heights: &[u64]) -> Text
    ensures { result.refused ≡ false → string_bytes result.text ≡ underline_words scale.last y 0 0 heights.now }
{
    let mut path = Text::new(alloc);
    let mut before = 0u64;
    for (column, height) in heights.iter().enumerate() {
        if (*height == 0) != (before == 0) {
            put_approach(&mut path, scale, y, before, column as u64);
        }
        before = *height;
    }
    if before > 0 {
        put_approach(&mut path, scale, y, before, heights.len() as u64);
    }
    path
}

/// A line along the columns in which any frame is shared; `Memory` if there was none for these.
fn underline_of_steps(alloc: Global, scale: Scale, y: u64, steps: &[Step]) -> Result<Text, Memory>
    ensures { IfOk result (λ path. IsUnderline scale.last y steps.now path) }
{
    let heights = heights_of(alloc, scale, steps, Which::Shared)?;
    Ok(underline_of(alloc, scale, y, &heights))
}

/// Draws how many frames a VM has over time, and how many of them it shares.
fn draw_numbers(svg: &mut Svg, place: &LanePlace, steps: &[Step]) -> Result<(), Memory> {
    let all = outline_of_steps(svg.alloc(), place, steps, Which::All)?;
    svg.path(&all, Paint::Thin(Colour::of_vm(place.vm)));
    let shared = outline_of_steps(svg.alloc(), place, steps, Which::Shared)?;
    svg.path(&shared, Paint::Hatched);
    let below = place.base.saturating_add(BELOW);
    let underline = underline_of_steps(svg.alloc(), place.scale, below, steps)?;
    svg.path(&underline, Paint::LongLines(Points(BELOW)));
    Ok(())
}

/// Draws the lane of a VM, with its name. `Memory` if there was none for it.
pub(crate) fn draw_lane(svg: &mut Svg, place: &LanePlace, lane: &Lane) -> Result<(), Memory> {
    let base = Coordinate(place.base);
    let style = HEADING.anchored(Anchor::End);
    svg.numbered(NAMES, base - 100, style, "vm ", u64::from(place.vm));
    svg.rect(&Area::new(START, base, PLOT, 80), Paint::Plain(EDGE));
    let stays = stays_of(svg.alloc(), place.scale, &lane.stays)?;
    draw_stays(svg, place, &stays);
    draw_numbers(svg, place, &lane.steps)?;
    draw_marks(svg, place, &stays);
    Ok(())
}
