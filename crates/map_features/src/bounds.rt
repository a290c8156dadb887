// The least and the greatest coordinates.
ghost use Rattle.std.specs.Prelude.{◌≤◌, ◌≤ℤ◌, pos, unsigned_abs};

use grid_geometry::Pos;

/// The least and the greatest coordinates of some positions.
#[derive(Clone, Copy)]
pub struct Bounds {
    /// The least x.
    pub x0: i64,
    /// The least y.
    pub y0: i64,
    /// The greatest x.
    pub x1: i64,
    /// The greatest y.
    pub y1: i64,
    pub ghost left: { unsigned_abs x0 ≤ 1000000000000 },
    pub ghost lower: { unsigned_abs y0 ≤ 1000000000000 },
    pub ghost right: { unsigned_abs x1 ≤ 1000000000000 },
    pub ghost upper: { unsigned_abs y1 ≤ 1000000000000 },
    pub ghost across: { x0 ≤ℤ x1 },
    pub ghost upward: { y0 ≤ℤ y1 },
}

impl Bounds {
    ghost use Rattle.map_features.specs.Windows.{Includes};

    /// Those of one position.
    pub fn of(pos: Pos) -> Bounds
        ensures { Includes result pos }
    {
        Bounds {
            x0: pos.x(),
            y0: pos.y(),
            x1: pos.x(),
            y1: pos.y(),
        }
    }

    /// Those of a position more.
    pub fn with(self, pos: Pos) -> Bounds
        ensures new { Includes result pos }
        ensures least { (result.x0 ≤ℤ self.x0) × (result.y0 ≤ℤ self.y0) }
        ensures most { (self.x1 ≤ℤ result.x1) × (self.y1 ≤ℤ result.y1) }
    {
        Bounds {
            x0: self.x0.min(pos.x()),
            y0: self.y0.min(pos.y()),
            x1: self.x1.max(pos.x()),
            y1: self.y1.max(pos.y()),
        }
    }

    /// The greater of how wide and how high they are.
    pub(crate) fn extent(&self) -> i64
        ensures { (pos 0 ≤ℤ result) × (result ≤ℤ pos 2000000000000) }
    {
        let across = self.x1 - self.x0;
        let upward = self.y1 - self.y0;
        across.max(upward)
    }

    /// The position in the middle of what they have in common with others.
    pub(crate) fn middle_with(&self, others: &Bounds) -> Option<Pos> {
        let x = self.x0.max(others.x0) + self.x1.min(others.x1);
        let y = self.y0.max(others.y0) + self.y1.min(others.y1);
        Pos::new(x / 2, y / 2)
    }
}
