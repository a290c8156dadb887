// The part of the grid that is drawn.
ghost use Rattle.std.specs.Prelude.{◌≡◌, ◌≤◌, ◌≤ℤ◌, ◌-ℤ◌, ◌+ℤ◌, ◌↔◌, pos, unsigned_abs, IsTrue};

use crate::bounds::Bounds;
use crate::quotients::quotient;
use grid_geometry::Pos;

/// The part of the grid that is drawn: from its least corner so many units across and up.
#[derive(Clone, Copy)]
pub struct Window {
    /// Its least x.
    pub x: i64,
    /// Its least y.
    pub y: i64,
    /// How wide it is.
    pub width: i64,
    /// How high it is.
    pub height: i64,
    pub ghost left: { unsigned_abs x ≤ 4000000000000 },
    pub ghost lower: { unsigned_abs y ≤ 4000000000000 },
    pub ghost across: { (pos 1 ≤ℤ width) × (width ≤ℤ pos 4000000000000) },
    pub ghost upward: { (pos 1 ≤ℤ height) × (height ≤ℤ pos 4000000000000) },
}

/// Whether a range of this extent has a number in common with the one from the least to the most.
fn is_met(start: i64, extent: i64, least: i64, most: i64) -> bool
    requires start { unsigned_abs start ≤ 4000000000000 }
    requires extent { (pos 1 ≤ℤ extent) × (extent ≤ℤ pos 4000000000000) }
    ensures { IsTrue result ↔ ((start ≤ℤ most) × (least ≤ℤ (start +ℤ extent))) }
{
    start <= most && least <= start + extent
}

impl Window {
    ghost use Rattle.grid_geometry.specs.Position.{Position};
    ghost use Rattle.map_features.specs.Windows.{CoversBounds, IsInWindow, IsSquareAbout, IsWithin};

    /// All of these bounds, with a margin of this width.
    fn with_margin(bounds: Bounds, margin: i64) -> Window
        requires { (pos 1 ≤ℤ margin) × (margin ≤ℤ pos 600000000000) }
        ensures { CoversBounds result bounds }
    {
        let across = bounds.x1 - bounds.x0;
        let upward = bounds.y1 - bounds.y0;
        Window {
            x: bounds.x0 - margin,
            y: bounds.y0 - margin,
            width: across + 2 * margin,
            height: upward + 2 * margin,
        }
    }

    /// All of these bounds, with a margin of a fortieth of the greater extent, and a unit.
    pub fn around(bounds: Bounds) -> Window
        ensures { CoversBounds result bounds }
    {
        Window::with_margin(bounds, quotient(bounds.extent(), 40) + 1)
    }

    /// The surroundings of these bounds: a quarter of the greater extent, and a unit, on each side.
    pub fn near(bounds: Bounds) -> Window
        ensures { CoversBounds result bounds }
    {
        Window::with_margin(bounds, quotient(bounds.extent(), 4) + 1)
    }

    /// All of these bounds, with a margin; a unit where there are none.
    pub fn of(bounds: Option<Bounds>) -> Window
        ensures { (p : Position) → IsWithin bounds p → IsInWindow result p }
    {
        let Some(bounds) = bounds else {
            return Window {
                x: 0,
                y: 0,
                width: 1,
                height: 1,
            };
        };
        Window::around(bounds)
    }

    /// A square of this width about a position.
    pub fn about(middle: Pos, width: i64) -> Window
        requires least { pos 1 ≤ℤ width }
        requires most { width ≤ℤ pos 4000000000000 }
        ensures { IsSquareAbout middle width result }
    {
        Window {
            x: middle.x() - quotient(width, 2),
            y: middle.y() - quotient(width, 2),
            width,
            height: width,
        }
    }

    /// Whether bounds have a common point with it.
    pub fn meets(&self, bounds: &Bounds) -> bool
        ensures { IsTrue result ↔ (((self.now.x ≤ℤ bounds.now.x1)
            × (bounds.now.x0 ≤ℤ (self.now.x +ℤ self.now.width)))
            × ((self.now.y ≤ℤ bounds.now.y1)
            × (bounds.now.y0 ≤ℤ (self.now.y +ℤ self.now.height)))) }
    {
        is_met(self.x, self.width, bounds.x0, bounds.x1)
            && is_met(self.y, self.height, bounds.y0, bounds.y1)
    }

    /// How far a position is to the right of its least corner.
    pub fn right(&self, pos: Pos) -> i64
        ensures value { result ≡ pos.x -ℤ self.now.x }
        ensures bound { unsigned_abs result ≤ 5000000000000 }
    {
        pos.x() - self.x
    }

    /// How far a position is above its least corner.
    pub fn up(&self, pos: Pos) -> i64
        ensures value { result ≡ pos.y -ℤ self.now.y }
        ensures bound { unsigned_abs result ≤ 5000000000000 }
    {
        pos.y() - self.y
    }

    /// Whether a position is in it.
    pub fn has(&self, pos: Pos) -> bool
        ensures { IsTrue result ↔ IsInWindow self.now pos }
    {
        is_met(self.x, self.width, pos.x(), pos.x())
            && is_met(self.y, self.height, pos.y(), pos.y())
    }
}
