//! The shapes of the marks of calls.

use crate::colour::{DEAD, FREE, INK, REFUSED};
use crate::coordinate::Coordinate;
use crate::svg::{Area, Paint, Svg};
use crate::words::Text;
/// What a mark looks like.
#[derive(Clone, Copy, PartialEq, Eq)]
pub enum MarkKind {
    Read,
    Write,
    Refused,
    Rejected,
}

/// Draws a triangle of this height on a base line.
fn draw_triangle(svg: &mut Svg, x: Coordinate, base: Coordinate, height: u64) {
    let (left, right, top) = (x - height / 2, x + height / 2, base - height);
    let mut steps = Text::new(svg.alloc());
    steps.begin_line(left, base);
    steps.put_length("H", right.0);
    steps.put_length("L", x.0);
    steps.put_length(" ", top.0);
    steps.put("Z");
    svg.path(&steps, Paint::Edged(REFUSED, FREE));
}

/// Draws the shape of a mark in a row.
pub fn draw_shape(svg: &mut Svg, kind: MarkKind, x: Coordinate, top: Coordinate, height: u64) {
    let bar = Area::new(x - 150, top, 300, height);
    match kind {
        MarkKind::Read => svg.rect(&bar, Paint::Edged(FREE, INK)),
        MarkKind::Write => svg.rect(&bar, Paint::Edged(INK, FREE)),
        MarkKind::Refused => {
            let high = height.min(900);
            draw_triangle(svg, x, top + height.saturating_add(high) / 2, high);
        },
        MarkKind::Rejected => {
            svg.rect(
                &Area::new(x - 125, top, 250, height),
                Paint::Edged(DEAD, FREE),
            )
        },
    }
}
