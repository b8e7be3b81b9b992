//! Where lines of the trace lie from left to right, and which of them have marks.
ghost use Rattle.std.specs.Prelude.{◌≡◌, ◌+◌, ◌^◌, ◌<◌, ◌≤◌};
ghost use Rattle.kc_picture.specs.Columns.{columns_of, column_x};

use crate::coordinate::Coordinate;
use crate::svg::WIDTH;

/// Where the first line begins, in hundredths of a point.
pub const LEFT: u64 = 9_200;
/// What is left free after the end of the last line.
const RIGHT: u64 = 2_000;
/// The width between these two.
pub const PLOT: u64 = WIDTH - LEFT - RIGHT;
/// Where it begins.
pub const START: Coordinate = Coordinate(LEFT);
/// Where it ends.
pub const END: Coordinate = Coordinate(LEFT + PLOT);
/// Where what is written at the left of it ends.
pub const NAMES: Coordinate = Coordinate(LEFT - 800);
/// The number of columns, a point wide each, in that width.
pub const MOST_POINTS: u64 = PLOT / 100;

/// The lines of a trace, of which line 1 is its header.
#[derive(Clone, Copy)]
pub struct Scale {
    /// The line of the last call.
    pub last: u64,
    ghost some: { 0 < last },
    ghost few: { last + 1 < 2 ^ 32 },
}

impl Scale {
    /// Makes that of a trace with a number of calls; more than a line's number can count are taken as the most that it can.
    pub fn of_calls(calls: usize) -> Scale {
        let calls = (calls as u64).min(u64::from(u32::MAX) - 2);
        Scale { last: calls + 1 }
    }

    /// The line after the last.
    pub fn end(self) -> u32
        ensures { result ≡ self.last + 1 }
    {
        self.last as u32 + 1
    }

    /// Where a line begins; lines after the last begin at the right end.
    pub fn x(self, line: u32) -> Coordinate
        ensures from { LEFT ≤ result.0 }
        ensures to { result.0 ≤ LEFT + PLOT }
    {
        let lines = u64::from(line).saturating_sub(1).min(self.last);
        Coordinate((LEFT + PLOT * lines / self.last).min(LEFT + PLOT))
    }

    /// How wide the lines from one up to another are.
    pub fn width(self, from: u32, to: u32) -> u64 {
        self.x(to).distance(self.x(from))
    }

    /// How many columns there are: one for each line, or, of a long trace, one for each point.
    pub fn columns(self) -> u64
        ensures { result ≡ columns_of self.last }
    {
        self.last.min(MOST_POINTS)
    }

    /// Where a column begins; columns after the last begin at the right end.
    pub fn column_x(self, column: u64) -> u64
        ensures { result ≡ column_x self.last column }
    {
        let count = self.columns();
        LEFT + PLOT * column.min(count) / count
    }
}

/// The greatest number of lines that fall into one of some columns, even in part.
pub fn lines_of_column(lines: u64, columns: u64) -> u64 {
    let columns = columns.max(1);
    let whole = lines / columns;
    if lines % columns == 0 {
        whole
    } else {
        whole.saturating_add(2)
    }
}

/// The least of 1, 2, 5, 10, 20, 50 and so on of which there are at most `count` up to `most`.
pub fn nice(most: u64, count: u64) -> u64 {
    let mut power = 1u64;
    for _ in 0..19 {
        for step in [power, power.saturating_mul(2), power.saturating_mul(5)] {
            if step.saturating_mul(count) >= most {
                return step;
            }
        }
        power = power.saturating_mul(10);
    }
    power
}
