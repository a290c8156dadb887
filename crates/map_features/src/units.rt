// What a unit of the grid is on the map's own scale.
ghost use Rattle.std.specs.Prelude.{◌≤ℤ◌, pos};

use crate::bounds::Bounds;
use crate::window::Window;
use decimal_texts::decimal_of;
use json_spans::{Items, Span, items, members};

/// How many of the finest parts a unit of the map has.
pub(crate) const FINE: i128 = 1_000_000_000_000_000_000_000_000;

/// How many of the finest parts a thousandth of a degree has.
const FINE_THOUSANDTH: i128 = 1_000_000_000_000_000_000_000;

/// How far longitudes go, in the finest parts of a degree.
const MOST_EAST: i128 = 180_000_000_000_000_000_000_000_000;

/// How far latitudes go, in the finest parts of a degree.
const MOST_NORTH: i128 = 90_000_000_000_000_000_000_000_000;

/// The square of 180 degrees, in thousandths.
const HALF_TURN: i64 = 32_400_000_000;

/// What a length is given in.
#[derive(Clone, Copy)]
pub enum Unit {
    /// Units of the grid: the map has no transform.
    Grid,
    /// Units of the map, once its transform is applied.
    Map,
    /// Degrees of longitude.
    Degree,
}

/// What a unit of the grid is on the map's own scale.
#[derive(Clone, Copy)]
pub struct Units {
    /// What lengths are given in.
    pub unit: Unit,
    /// How long a unit of the grid is across, in the finest parts of that.
    pub across: i128,
    /// How long a unit of the grid is upward, in the finest parts of that.
    pub upward: i128,
    /// How many ten-thousandths of a unit upward are as long as a unit across.
    pub ratio: i64,
    pub ghost ratio_range: { (pos 0 ≤ℤ ratio) × (ratio ≤ℤ pos 10000) },
}

/// A transform: how long a unit is along an axis, and where 0 lies, in the finest parts.
#[derive(Clone, Copy)]
struct Axis {
    scale: i128,
    translate: i128,
}

impl Axis {
    /// Where a coordinate lies.
    fn at(&self, coordinate: i64) -> i128 {
        let way = self.scale.saturating_mul(i128::from(coordinate));
        self.translate.saturating_add(way)
    }

    /// Whether all between two coordinates lies so far from 0 at most.
    fn is_within(&self, from: i64, to: i64, most: i128) -> bool {
        let (from, to) = (self.at(from), self.at(to));
        from.max(to) <= most && 0 <= from.min(to).saturating_add(most)
    }
}

/// The number that the next item is.
fn next_number(items: &mut Items<'_>) -> Option<i128> {
    let item = items.next()?;
    decimal_of(item.text)?.fine()
}

/// The two numbers of a member of a transform.
fn pair(transform: &[u8], wanted: &[u8]) -> Option<(i128, i128)> {
    let object = Span {
        text: transform,
        at: 0,
    };
    for (name, value) in members(object) {
        if name.text == wanted {
            let mut items = items(value);
            let first = next_number(&mut items)?;
            let second = next_number(&mut items)?;
            return Some((first, second));
        }
    }
    None
}

/// The axes of a transform, x first.
fn axes(transform: &[u8]) -> Option<(Axis, Axis)> {
    let scale = pair(transform, b"\"scale\"")?;
    let translate = pair(transform, b"\"translate\"")?;
    let x = Axis {
        scale: scale.0,
        translate: translate.0,
    };
    let y = Axis {
        scale: scale.1,
        translate: translate.1,
    };
    Some((x, y))
}

/// The cosine of so many thousandths of a degree, in ten-thousandths, at least 500: with d degrees it
/// is near (32,400 - 4 d d) / (32,400 + d d), less than 0.002 away from it.
fn cosine(thousandths: i64) -> i64
    ensures { (pos 500 ≤ℤ result) × (result ≤ℤ pos 10000) }
{
    let square = thousandths.saturating_mul(thousandths);
    let part = HALF_TURN.saturating_sub(square.saturating_mul(4));
    let share = part
        .saturating_mul(10_000)
        .checked_div(HALF_TURN.saturating_add(square));
    share.unwrap_or(10_000).clamp(500, 10_000)
}

/// Between which coordinates upward a map with these bounds is drawn, or a part of it.
fn drawn(bounds: &Bounds, part: Option<Window>) -> (i64, i64) {
    match part {
        Some(part) => (part.y, part.y.saturating_add(part.height)),
        None => (bounds.y0, bounds.y1),
    }
}

impl Units {
    /// Those of a map without a transform.
    fn of_grid() -> Units {
        Units {
            unit: Unit::Grid,
            across: FINE,
            upward: FINE,
            ratio: 10_000,
        }
    }

    /// Those of a map in degrees that is drawn between two coordinates upward: a degree across is shorter by
    /// the cosine of the middle latitude.
    fn of_degrees(x: &Axis, y: &Axis, (least, most): (i64, i64)) -> Units {
        let middle = y.at(least).saturating_add(y.at(most)) / 2;
        let thousandths = i64::try_from(middle / FINE_THOUSANDTH).unwrap_or(0);
        Units {
            unit: Unit::Degree,
            across: x.scale,
            upward: y.scale,
            ratio: cosine(thousandths),
        }
    }

    /// Those of a map with this transform, of which a part is drawn. It is in degrees where all of it lies
    /// between -180 and 180, and -90 and 90.
    pub fn of(transform: Option<&[u8]>, bounds: Option<Bounds>, part: Option<Window>) -> Units {
        let Some((x, y)) = transform.and_then(axes) else {
            return Units::of_grid();
        };
        if let Some(bounds) = bounds
            && x.is_within(bounds.x0, bounds.x1, MOST_EAST)
            && y.is_within(bounds.y0, bounds.y1, MOST_NORTH)
        {
            return Units::of_degrees(&x, &y, drawn(&bounds, part));
        }
        Units {
            unit: Unit::Map,
            across: x.scale,
            upward: y.scale,
            ratio: 10_000,
        }
    }
}
