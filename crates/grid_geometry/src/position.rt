ghost use Rattle.std.specs.Prelude.{◌≡◌, ◌↔◌, Some, IsSome, IfSome};
ghost use Rattle.grid_geometry.specs.Position.{Position, InRange, position};
ghost use Rattle.grid_geometry.specs.Text.{position_text};

use std::fmt::{Display, Error, Formatter, Write};
use std::marker::Model;

/// The greatest absolute value of a coordinate.
const REACH: i64 = 1_000_000_000_000;

/// A position of the grid (TopoJSON 1.0, 2.1.1; RFC 7946, 3.1.1): two whole numbers without a unit,
/// each from -10^12 to 10^12. Positions are ordered by x, then y. A position is printed as `x y`.
#[derive(Clone, Copy, Debug, PartialEq, Eq, PartialOrd, Ord, Hash)]
pub struct Pos {
    x: i64,
    y: i64,
}

impl Model for Pos {
    ghost use Rattle.grid_geometry.specs.Position.{Position, InRange, position};

    ghost Value = { Position };

    ghost view = { λ p. position p.x p.y };

    ghost invariant = { λ p. InRange (position p.x p.y) };

    ghost inverse = { λ p. record { x = p.x; y = p.y } };
}

impl Display for Pos {
    ghost output = { λ p. Some (position_text p) };

    fn fmt<W: Write>(&self, f: &mut Formatter<W>) -> Result<(), Error> {
        write!(f, "{} {}", self.x, self.y)
    }
}

impl Pos {
    /// The position with these coordinates; `None` where one of them is out of range.
    pub fn new(x: i64, y: i64) -> Option<Pos>
        ensures exact { IsSome result ↔ InRange (position x y) }
        ensures value { IfSome result (λ p. p ≡ position x y) }
    {
        if -REACH <= x && x <= REACH && -REACH <= y && y <= REACH {
            Some(Pos { x, y })
        } else {
            None
        }
    }

    /// Its first coordinate, which is in range (as its second one is).
    pub fn x(self) -> i64
        ensures value { result ≡ self.x }
        ensures range { InRange self }
    {
        self.x
    }

    /// Its second coordinate, which is in range (as its first one is).
    pub fn y(self) -> i64
        ensures value { result ≡ self.y }
        ensures range { InRange self }
    {
        self.y
    }
}
