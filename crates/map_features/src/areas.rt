// Areas, twice as large so that they are whole.
ghost use Rattle.std.specs.Prelude.{◌≡◌, map, IfSome};
ghost use Rattle.ring_machine.specs.Common.{absolute_area, polygon_area};
ghost use Rattle.topo_reader.specs.Common.{positions_of, polygon_positions};
ghost use Rattle.map_features.specs.Areas.{polygons_area};

use grid_geometry::{Pos, area2};
use std::alloc::Allocator;

/// The most positions of a map.
const MOST_POSITIONS: usize = 4_000_000;

/// Twice the area of a ring, whichever way it turns. None comes only beyond the limits of a map.
fn ring_area(ring: &[Pos]) -> Option<i128>
    ensures { IfSome result (λ area. area ≡ absolute_area ring.now) }
{
    if ring.len() > MOST_POSITIONS {
        return None;
    }
    Some(area2(ring).abs())
}

/// Whether a ring turns clockwise.
pub(crate) fn is_clockwise(ring: &[Pos]) -> bool {
    ring.len() <= MOST_POSITIONS && area2(ring) < 0
}

/// Twice the area of a polygon: that of its outer ring less those of its holes (RFC 7946, 3.1.6).
fn rings_area<A: Allocator + Copy>(rings: &[Vec<Pos, A>]) -> Option<i128>
    ensures { IfSome result (λ area. area ≡ polygon_area (map positions_of rings.now)) }
{
    let [outer, holes @ ..] = rings else {
        return Some(0);
    };
    let mut area = ring_area(outer.as_slice())?;
    for hole in holes {
        let part = ring_area(hole.as_slice())?;
        area = area.checked_sub(part)?;
    }
    Some(area)
}

/// Twice the area of polygons. None comes only beyond the limits of a map.
pub fn area<A: Allocator + Copy>(polygons: &[Vec<Vec<Pos, A>, A>]) -> Option<i128>
    ensures { IfSome result (λ area. area
        ≡ polygons_area (map polygon_positions polygons.now)) }
{
    let mut area: i128 = 0;
    for rings in polygons {
        let part = rings_area(rings.as_slice())?;
        area = area.checked_add(part)?;
    }
    Some(area)
}
