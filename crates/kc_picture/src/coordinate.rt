//! Coordinates and lengths in hundredths of a point, from the left or from above.
ghost use Rattle.std.specs.Prelude.{◌≡◌, Some};
ghost use Rattle.kc_picture.specs.Words.{length_words};

use std::fmt;
use std::ops::{Add, Sub};

/// A length in hundredths of a point, which is spelled in points: 8650 as 86.5.
#[derive(Clone, Copy)]
pub struct Points(pub u64);

impl fmt::Display for Points {
    ghost output = { λ p. Some (length_words p.0) };

    fn fmt<W: fmt::Write>(&self, f: &mut fmt::Formatter<W>) -> fmt::Result {
        let rest = self.0 % 100;
        let (whole, tenths, hundredths) = (self.0 / 100, rest / 10, rest % 10);
        if rest == 0 {
            write!(f, "{whole}")
        } else if hundredths == 0 {
            write!(f, "{whole}.{tenths}")
        } else {
            write!(f, "{whole}.{tenths}{hundredths}")
        }
    }
}

/// A coordinate in hundredths of a point. A sum saturates at the greatest, and a difference at 0.
#[derive(Clone, Copy)]
pub struct Coordinate(pub u64);

impl Coordinate {
    /// How far it is from one that is less; 0 if that is greater.
    pub fn distance(self, from: Coordinate) -> u64 {
        self.0.saturating_sub(from.0)
    }
}

impl Add<u64> for Coordinate {
    type Output = Coordinate;

    fn add(self, rhs: u64) -> Coordinate {
        Coordinate(self.0.saturating_add(rhs))
    }
}

impl Sub<u64> for Coordinate {
    type Output = Coordinate;

    fn sub(self, rhs: u64) -> Coordinate {
        Coordinate(self.0.saturating_sub(rhs))
    }
}

impl fmt::Display for Coordinate {
    fn fmt<W: fmt::Write>(&self, f: &mut fmt::Formatter<W>) -> fmt::Result {
        let points = Points(self.0);
        write!(f, "{points}")
    }
}
