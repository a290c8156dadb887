// What the points of a topology need of a grid.
ghost use Rattle.std.specs.Prelude.{◌≡◌, IfOk, fold};
ghost use Rattle.json_spans.specs.Common.{node, items};
ghost use Rattle.decimal_texts.specs.Common.{all_coordinates, coordinates_of, first_two};
ghost use Rattle.std.specs.List.{flat_map};
ghost use Rattle.grid_reader.specs.Needs.{needs_of, needs_with, units_of, with_units};

use decimal_texts::{Shape, all_geometries, decimal_of, decimals, has_type, value_in};
use json_spans::{Span, bytes, items};
use std::alloc::{AllocError, Allocator, Global};

/// What the coordinates of points need of a grid on which all of them are whole numbers.
#[derive(Clone, Copy, Debug)]
pub struct PointNeeds {
    /// The most decimals that one of them has, of 24.
    pub decimals: usize,
    /// How far the furthest is from 0, in units of 10^-24.
    pub furthest: u128,
}

/// The units of 10^-24 in a coordinate, rounded down, where it is a number and they are fewer than
/// 10^37.
fn units_of(part: Span<'_>) -> Option<i128>
    ensures { result ≡ units_of (node part.entry) }
{
    decimal_of(bytes(part))?.fine()
}

impl PointNeeds {
    /// What no point needs.
    pub const NONE: PointNeeds = PointNeeds {
        decimals: 0,
        furthest: 0,
    };

    /// What is needed with one more coordinate, which has so many units of 10^-24, or needs nothing.
    fn with_units(self, units: Option<i128>) -> PointNeeds
        ensures { result ≡ with_units self units }
    {
        match units {
            Some(units) => PointNeeds {
                decimals: self.decimals.max(decimals(units)),
                furthest: self.furthest.max(units.unsigned_abs()),
            },
            None => self,
        }
    }

    /// What is needed with one more coordinate.
    fn with(self, part: Span<'_>) -> PointNeeds
        ensures { result ≡ needs_with self (node part.entry) }
    {
        self.with_units(units_of(part))
    }

    /// What is needed with the first two numbers of one more position.
    fn with_position(self, position: Span<'_>) -> PointNeeds
        ensures { result ≡ fold needs_with self (first_two (node position.entry)) }
    {
        let mut parts = items(position);
        match parts.next() {
            None => self,
            Some(x) => match parts.next() {
                None => self.with(x),
                Some(y) => self.with(x).with(y),
            },
        }
    }

    /// What is needed with those of each position of one more list.
    fn with_positions(self, list: Span<'_>) -> PointNeeds
        ensures { result ≡ fold needs_with self (flat_map first_two (items (node list.entry))) }
    {
        let mut needs = self;
        for position in items(list) {
            needs = needs.with_position(position);
        }
        needs
    }

    /// What is needed with one more Point or MultiPoint.
    fn with_point(self, heap: Global, span: Span<'_>) -> Result<PointNeeds, AllocError>
        ensures { IfOk result (λ needs.
            needs ≡ fold needs_with self (coordinates_of (node span.entry))) }
    {
        let one = has_type(heap, "Point", span)?;
        match value_in(heap, "coordinates", span)? {
            Some(value) => Ok(if one {
                self.with_position(value)
            } else {
                self.with_positions(value)
            }),
            None => Ok(self),
        }
    }
}

/// What the points of all layers of the topology whose root this is need.
pub(crate) fn point_needs<A: Allocator + Copy>(
    alloc: A,
    heap: Global,
    root: Span<'_>,
) -> Result<PointNeeds, AllocError>
    ensures { IfOk result (λ needs. needs ≡ needs_of (all_coordinates (node root.entry))) }
{
    let points = all_geometries(alloc, heap, Shape::Points, root)?;
    let mut needs = PointNeeds::NONE;
    for point in points.as_slice() {
        needs = needs.with_point(heap, *point)?;
    }
    Ok(needs)
}
