ghost use Rattle.std.specs.Prelude.{◌≡◌, ◌↔◌, ◌≤ℤ◌, Some, IsSome, IsNone, IfSome, OnSome, ◌&&◌, int_le};
ghost use Rattle.grid_geometry.specs.Position.{position, InRange};
ghost use Rattle.grid_geometry.specs.Segment.{segment, box_of, boxes_meet, Box, IsBox, IsSegment};
ghost use Rattle.grid_geometry.specs.Text.{segment_text};

use crate::position::Pos;
use std::cmp::Ordering;
use std::fmt::{Display, Error, Formatter, Write};
use std::marker::Model;

/// Two different positions without direction. Segments are ordered by their lesser ends, then by
/// their greater ones. A segment is printed as its ends, `x y x y`.
#[derive(Clone, Copy, Debug, PartialEq, Eq, PartialOrd, Ord, Hash)]
pub struct Seg {
    /// The lesser end.
    pub lo: Pos,
    /// The greater end.
    pub hi: Pos,
}

impl Model for Seg {
    ghost use Rattle.grid_geometry.specs.Segment.{Segment, IsSegment};

    ghost Value = { Segment };

    ghost view = { λ s. record { lo = s.lo; hi = s.hi } };

    ghost invariant = { λ s. IsSegment (record { lo = s.lo; hi = s.hi }) };

    ghost inverse = { λ s. record { lo = s.lo; hi = s.hi } };
}

impl Display for Seg {
    ghost output = { λ s. Some (segment_text s) };

    fn fmt<W: Write>(&self, f: &mut Formatter<W>) -> Result<(), Error> {
        write!(f, "{} {}", self.lo, self.hi)
    }
}

impl Seg {
    /// The segment between two positions, given in either order; `None` where they are equal.
    pub fn new(a: Pos, b: Pos) -> Option<Seg>
        ensures none { IsNone result ↔ (a ≡ b) }
        ensures some { IfSome result (λ s. s ≡ segment a b) }
        ensures ordered { IfSome result (λ s. IsSegment s) }
    {
        match a.cmp(&b) {
            Ordering::Less => Some(Seg { lo: a, hi: b }),
            Ordering::Greater => Some(Seg { lo: b, hi: a }),
            Ordering::Equal => None,
        }
    }

    /// The least box that has both ends.
    pub fn rect(self) -> Rect
        ensures { result ≡ box_of self }
    {
        Rect {
            x0: self.lo.least_x(self.hi),
            y0: self.lo.least_y(self.hi),
            x1: self.lo.most_x(self.hi),
            y1: self.lo.most_y(self.hi),
        }
    }
}

/// A box of the grid, its sides included: from its least corner to its greatest, both in the range
/// of positions. A box may be a line or one position.
#[derive(Clone, Copy, Debug, PartialEq, Eq)]
pub struct Rect {
    /// The least x.
    pub x0: i64,
    /// The least y.
    pub y0: i64,
    /// The greatest x.
    pub x1: i64,
    /// The greatest y.
    pub y1: i64,
}

impl Model for Rect {
    ghost use Rattle.grid_geometry.specs.Segment.{Box, IsBox};

    ghost Value = { Box };

    ghost view = { λ r. record { x0 = r.x0; y0 = r.y0; x1 = r.x1; y1 = r.y1 } };

    ghost invariant = { λ r. IsBox (record { x0 = r.x0; y0 = r.y0; x1 = r.x1; y1 = r.y1 }) };

    ghost inverse = { λ r. record { x0 = r.x0; y0 = r.y0; x1 = r.x1; y1 = r.y1 } };
}

impl Rect {
    /// The box with these sides; `None` where one is out of the range of coordinates, or the least
    /// x or y is above the greatest.
    pub fn new(x0: i64, y0: i64, x1: i64, y1: i64) -> Option<Rect>
        ensures exact { IsSome result ↔ IsBox (record { x0 = x0; y0 = y0; x1 = x1; y1 = y1 }) }
        ensures value { IfSome result (λ r. r ≡ record { x0 = x0; y0 = y0; x1 = x1; y1 = y1 }) }
    {
        let _least = Pos::new(x0, y0)?;
        let _most = Pos::new(x1, y1)?;
        if x0 <= x1 && y0 <= y1 {
            Some(Rect { x0, y0, x1, y1 })
        } else {
            None
        }
    }

    /// Whether the boxes have a common x.
    fn meets_x(self, other: Rect) -> bool
        ensures { result ≡ (int_le self.x0 other.x1 && int_le other.x0 self.x1) }
    {
        self.x0 <= other.x1 && other.x0 <= self.x1
    }

    /// Whether the boxes have a common y.
    fn meets_y(self, other: Rect) -> bool
        ensures { result ≡ (int_le self.y0 other.y1 && int_le other.y0 self.y1) }
    {
        self.y0 <= other.y1 && other.y0 <= self.y1
    }

    /// Whether two boxes have a common point, be it of their sides.
    pub fn meets(self, other: Rect) -> bool
        ensures { result ≡ boxes_meet self other }
    {
        self.meets_x(other) && self.meets_y(other)
    }
}
