ghost use Rattle.std.specs.Prelude.{◌≡◌, ◌≤◌, unsigned_abs, int_lt, int_le};
ghost use Rattle.std.specs.Int.{int_min, int_max};
ghost use Rattle.grid_geometry.specs.Orientation.{is_between};
ghost use Rattle.grid_geometry.specs.Held.{is_spanned};

use crate::position::Pos;

// comparisons of one coordinate: tests on positions are made of these
impl Pos {
    /// Whether its x is at most that of the other.
    pub fn x_at_most(self, b: Pos) -> bool
        ensures { result ≡ int_le self.x b.x }
    {
        self.x() <= b.x()
    }

    /// Whether its x lies between those of a and b, whichever of them is the lesser.
    pub(crate) fn between_x(self, a: Pos, b: Pos) -> bool
        ensures { result ≡ is_between a.x b.x self.x }
    {
        (a.x_at_most(self) && self.x_at_most(b)) || (b.x_at_most(self) && self.x_at_most(a))
    }

    /// Whether its x is at least the least of three and at most the greatest.
    pub(crate) fn spanned_x(self, a: Pos, b: Pos, c: Pos) -> bool
        ensures { result ≡ is_spanned a.x b.x c.x self.x }
    {
        (a.x_at_most(self) || b.x_at_most(self) || c.x_at_most(self))
            && (self.x_at_most(a) || self.x_at_most(b) || self.x_at_most(c))
    }

    /// Whether its y is at most that of the other.
    pub fn y_at_most(self, b: Pos) -> bool
        ensures { result ≡ int_le self.y b.y }
    {
        self.y() <= b.y()
    }

    /// Whether its y lies between those of a and b, whichever of them is the lesser.
    pub(crate) fn between_y(self, a: Pos, b: Pos) -> bool
        ensures { result ≡ is_between a.y b.y self.y }
    {
        (a.y_at_most(self) && self.y_at_most(b)) || (b.y_at_most(self) && self.y_at_most(a))
    }

    /// Whether its y is at least the least of three and at most the greatest.
    pub(crate) fn spanned_y(self, a: Pos, b: Pos, c: Pos) -> bool
        ensures { result ≡ is_spanned a.y b.y c.y self.y }
    {
        (a.y_at_most(self) || b.y_at_most(self) || c.y_at_most(self))
            && (self.y_at_most(a) || self.y_at_most(b) || self.y_at_most(c))
    }

    /// The lesser of both x coordinates.
    pub(crate) fn least_x(self, b: Pos) -> i64
        ensures value { result ≡ int_min self.x b.x }
        ensures range { unsigned_abs result ≤ 1000000000000 }
    {
        self.x().min(b.x())
    }

    /// The lesser of both y coordinates.
    pub(crate) fn least_y(self, b: Pos) -> i64
        ensures value { result ≡ int_min self.y b.y }
        ensures range { unsigned_abs result ≤ 1000000000000 }
    {
        self.y().min(b.y())
    }

    /// The greater of both x coordinates.
    pub(crate) fn most_x(self, b: Pos) -> i64
        ensures value { result ≡ int_max self.x b.x }
        ensures range { unsigned_abs result ≤ 1000000000000 }
    {
        self.x().max(b.x())
    }

    /// The greater of both y coordinates.
    pub(crate) fn most_y(self, b: Pos) -> i64
        ensures value { result ≡ int_max self.y b.y }
        ensures range { unsigned_abs result ≤ 1000000000000 }
    {
        self.y().max(b.y())
    }

    /// Whether it is above the other, their heights being different.
    pub(crate) fn is_above(self, w: Pos) -> bool
        ensures { result ≡ int_lt w.y self.y }
    {
        w.y() < self.y()
    }
}
