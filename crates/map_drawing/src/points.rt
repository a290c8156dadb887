// Points of the picture of a map.
ghost use Rattle.std.specs.Prelude.{◌≡◌, ◌≤◌, ◌-ℤ◌, unsigned_abs};

/// How far a point is from the corner of the map at most.
const MOST: i64 = 1_000_000_000_000_000_000;

/// A point of the picture of a map, in parts of a pixel from its upper left corner.
#[derive(Clone, Copy)]
pub(crate) struct Point {
    /// How far from the left it is.
    pub(crate) x: i64,
    /// How far from the top it is.
    pub(crate) y: i64,
    pub(crate) ghost across: { unsigned_abs x ≤ 1000000000000000000 },
    pub(crate) ghost down: { unsigned_abs y ≤ 1000000000000000000 },
}

impl Point {
    ghost use Rattle.map_drawing.specs.Points.{IsBeside};

    /// The point so far from the left and from the top, or the nearest one that there is.
    pub(crate) fn near(x: i64, y: i64) -> Point {
        Point {
            x: x.clamp(-MOST, MOST),
            y: y.clamp(-MOST, MOST),
        }
    }

    /// How far to the right of it another one is.
    pub(crate) fn right_to(self, other: Point) -> i64
        ensures { result ≡ other.x -ℤ self.x }
    {
        other.x - self.x
    }

    /// How far below it another one is.
    pub(crate) fn down_to(self, other: Point) -> i64
        ensures { result ≡ other.y -ℤ self.y }
    {
        other.y - self.y
    }

    /// The next point on the right, where there is one.
    pub(crate) fn beside(self) -> Point
        ensures { IsBeside self result }
    {
        Point {
            x: (self.x + 1).min(MOST),
            y: self.y,
        }
    }
}

/// The number that lies between two as a part lies between 0 and a whole, rounded toward the first.
pub(crate) fn between(from: i64, to: i64, part: i64, whole: i64) -> i64 {
    let way = i128::from(to.saturating_sub(from)).saturating_mul(i128::from(part));
    let share = way.checked_div(i128::from(whole)).unwrap_or(0);
    from.saturating_add(i64::try_from(share).unwrap_or(0))
}
