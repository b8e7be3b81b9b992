//! Words beside marks.

use crate::coordinate::Coordinate;
use crate::scale::END;
use crate::svg::{Anchor, Style, Svg};
/// Where a word is beside a mark: where it begins and ends, and which of its ends is at the mark.
#[derive(Clone, Copy)]
pub(crate) struct Span {
    from: Coordinate,
    to: Coordinate,
    anchor: Anchor,
}

impl Span {
    /// The place of a word of this width: to the right of its mark, or near the right end to its left.
    pub fn beside(x: Coordinate, width: u64) -> Span {
        let is_right = (x + width).0 < END.0 + 1_300;
        let from = if is_right { x + 200 } else { x - 200 - width };
        Span {
            from,
            to: if is_right { from + width } else { x - 200 },
            anchor: if is_right { Anchor::Start } else { Anchor::End },
        }
    }

    /// Whether it has room in common with another.
    pub fn meets(&self, other: &Span) -> bool {
        other.from.0 < self.to.0 && self.from.0 < other.to.0
    }
}

/// Words of one width beside marks, from left to right on a base line.
#[derive(Clone, Copy)]
pub struct Labels {
    y: Coordinate,
    style: Style,
    pub width: u64,
    /// Where the last one ends.
    end: u64,
}

impl Labels {
    /// None yet, of words of this width in hundredths of a point.
    pub fn new(y: Coordinate, style: Style, width: u64) -> Labels {
        Labels {
            y,
            style,
            width,
            end: 0,
        }
    }

    /// Writes a word beside a mark, unless another is there already.
    pub fn write(&mut self, svg: &mut Svg, mark: Coordinate, word: &str) {
        let at = Span::beside(mark, self.width);
        if at.from.0 >= self.end {
            let x = match at.anchor {
                Anchor::Start | Anchor::Middle => at.from,
                Anchor::End => at.to,
            };
            svg.words(x, self.y, self.style.anchored(at.anchor), word);
            self.end = at.to.0;
        }
    }
}
