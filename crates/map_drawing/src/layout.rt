// Where a window lies in the picture.
ghost use Rattle.std.specs.Prelude.{◌≡◌, ◌≤◌, ◌≤ℤ◌, pos, unsigned_abs};

use crate::cutting::{Side, sides};
use crate::points::Point;
use grid_geometry::Pos;
use map_features::{Window, quotient};
use svg_text::ElementBox;

/// How wide a picture is.
pub(crate) const WIDTH: i64 = 1000;

/// How far all is from the sides of the picture.
pub(crate) const MARGIN: i64 = 20;

/// How far a line of words is from the one above it.
pub(crate) const ROW: i64 = 20;

/// How many parts a pixel has where labels are put, and where pixels are looked for.
pub(crate) const PIXEL: i64 = 100;

/// How wide a window may be in the picture.
const MOST_ACROSS: i64 = 960;

/// How high a window may be in the picture.
const MOST_DOWN: i64 = 720;

/// How many ten-thousandths a whole has.
pub(crate) const RATIO: i64 = 10_000;

/// The most units that a window is wide.
const MOST_UNITS: i64 = 4_000_000_000_000;

/// Where a window lies in the picture.
#[derive(Clone, Copy)]
pub(crate) struct Layout {
    /// The part of the grid that is drawn.
    pub(crate) window: Window,
    /// Its place in the picture.
    pub(crate) place: ElementBox,
    /// How many parts a pixel has.
    pub(crate) parts: i64,
    ghost left: { (pos 0 ≤ℤ place.x) × (place.x ≤ℤ pos 1000) },
    ghost top: { (pos 0 ≤ℤ place.y) × (place.y ≤ℤ pos 1000) },
    ghost across: { (pos 1 ≤ℤ place.width) × (place.width ≤ℤ pos 960) },
    ghost down: { (pos 1 ≤ℤ place.height) × (place.height ≤ℤ pos 720) },
    ghost fine: { (pos 1 ≤ℤ parts) × (parts ≤ℤ pos 100) },
}

/// So much of a room as a part is of a whole, rounded toward 0.
fn share(part: i64, room: i64, whole: i64) -> i64
    requires part { unsigned_abs part ≤ 9000000000000 }
    requires room { unsigned_abs room ≤ 96000 }
    requires whole { pos 1 ≤ℤ whole }
    ensures { unsigned_abs result ≤ 900000000000000000 }
{
    quotient(part * room, whole)
}

/// An extent in the picture, at least a unit.
fn extent(extent: i64, most: i64) -> i64
    requires { (pos 1 ≤ℤ most) × (most ≤ℤ pos 960) }
    ensures { (pos 1 ≤ℤ result) × (result ≤ℤ most) }
{
    extent.clamp(1, most)
}

/// How wide a window is in the picture, if it would be so high where it is as wide as the room. A unit
/// across is as long as so many ten-thousandths of a unit upward.
fn width(window: Window, across: i64, high: i64) -> i64
    requires { (pos 1 ≤ℤ across) × (across ≤ℤ pos 4000000000000) }
    ensures { (pos 1 ≤ℤ result) × (result ≤ℤ pos 960) }
{
    if high <= MOST_DOWN {
        return MOST_ACROSS;
    }
    extent(share(across, MOST_DOWN, window.height), MOST_ACROSS)
}

/// How many units upward are as long as a window is wide, where a unit across is as long as so many
/// ten-thousandths of a unit upward.
fn upward_units(window: Window, ratio: i64) -> i64
    requires { (pos 0 ≤ℤ ratio) × (ratio ≤ℤ pos 10000) }
    ensures { (pos 1 ≤ℤ result) × (result ≤ℤ pos 4000000000000) }
{
    share(window.width, ratio, RATIO).clamp(1, MOST_UNITS)
}

impl Layout {
    /// As large as the room for it allows, in the middle, in hundredths of a pixel. A unit across is as long as
    /// so many ten-thousandths of a unit upward.
    pub(crate) fn new(window: Window, ratio: i64) -> Layout
        requires { (pos 0 ≤ℤ ratio) × (ratio ≤ℤ pos 10000) }
    {
        let across = upward_units(window, ratio);
        let high = share(window.height, MOST_ACROSS, across);
        let width = width(window, across, high);
        Layout {
            window,
            place: ElementBox {
                x: MARGIN + quotient(MOST_ACROSS - width, 2),
                y: MARGIN + ROW,
                width,
                height: extent(high, MOST_DOWN),
            },
            parts: PIXEL,
        }
    }

    /// The same where a pixel has so many parts.
    pub(crate) fn with_parts(self, parts: i64) -> Layout
        requires { (pos 1 ≤ℤ parts) × (parts ≤ℤ pos 100) }
    {
        Layout {
            window: self.window,
            place: self.place,
            parts,
        }
    }

    /// How wide the map is in the picture, in parts of a pixel.
    pub(crate) fn width(&self) -> i64
        ensures { (pos 1 ≤ℤ result) × (result ≤ℤ pos 96000) }
    {
        self.place.width * self.parts
    }

    /// How high the map is in the picture, in parts of a pixel.
    pub(crate) fn height(&self) -> i64
        ensures { (pos 1 ≤ℤ result) × (result ≤ℤ pos 72000) }
    {
        self.place.height * self.parts
    }

    /// How far from the left of the map a position is, in parts of a pixel.
    pub(crate) fn across(&self, pos: Pos) -> i64
        ensures { unsigned_abs result ≤ 900000000000000000 }
    {
        share(self.window.right(pos), self.width(), self.window.width)
    }

    /// How far from the top of the map a position is, in parts of a pixel.
    pub(crate) fn down(&self, pos: Pos) -> i64
        ensures { unsigned_abs result ≤ 900000000000000000 }
    {
        let below = self.window.height - self.window.up(pos);
        share(below, self.height(), self.window.height)
    }

    /// Where a position is drawn.
    pub(crate) fn point(&self, pos: Pos) -> Point {
        Point {
            x: self.across(pos),
            y: self.down(pos),
        }
    }

    /// The sides of the box outside which nothing is drawn.
    pub(crate) fn sides(&self) -> [Side; 4] {
        sides(self.width(), self.height(), self.parts)
    }

    /// A point of the map in pixels of the picture.
    pub(crate) fn pixel(&self, point: Point) -> (i64, i64) {
        let x = self.place.x.saturating_add(quotient(point.x, self.parts));
        let y = self.place.y.saturating_add(quotient(point.y, self.parts));
        (x, y)
    }

    /// How far from the top of the picture the first line of words below it is.
    pub(crate) fn first_line(&self) -> i64
        ensures { (pos 0 ≤ℤ result) × (result ≤ℤ pos 2020) }
    {
        self.place.y + self.place.height + ROW
    }
}
