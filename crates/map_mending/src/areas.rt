// Areas of polygons, twice as large so that they are whole.
ghost use Rattle.std.specs.Prelude.{◌≡◌, ◌≤◌, ◌*◌, unsigned_abs, length, map, sum_by};
ghost use Rattle.ring_machine.specs.Query as query;
ghost use Rattle.topo_reader.specs.Common.{positions_of, polygon_positions};
ghost use Rattle.map_mending.specs.Areas.{area_in};

use grid_geometry::{Pos, area2};
use std::alloc::Allocator;

/// Twice the area of a ring, whichever way it turns.
fn ring_area(ring: &[Pos]) -> i128
    requires { length ring.now ≤ 4000000 }
    ensures value { result ≡ query.absolute_area ring.now }
    ensures bound { unsigned_abs result ≤ 2000000000000000000000000 * length ring.now }
{
    area2(ring).abs()
}

/// Twice the area of a polygon: of its outer ring less those of its holes (RFC 7946, 3.1.6).
fn polygon_area<A: Allocator + Copy>(polygon: &[Vec<Pos, A>]) -> i128
    requires { sum_by length (map positions_of polygon.now) ≤ 4000000 }
    ensures value { result ≡ query.polygon_area (map positions_of polygon.now) }
    ensures bound { unsigned_abs result
        ≤ 2000000000000000000000000 * sum_by length (map positions_of polygon.now) }
{
    let [outer, holes @ ..] = polygon else {
        return 0;
    };
    let mut area = ring_area(outer.as_slice());
    for hole in holes {
        let part = ring_area(hole.as_slice());
        area -= part;
    }
    area
}

/// Twice the area of polygons, the sum over them.
pub(crate) fn area<A: Allocator + Copy>(polygons: &[Vec<Vec<Pos, A>, A>]) -> i128
    requires { sum_by (sum_by length) (map polygon_positions polygons.now) ≤ 4000000 }
    ensures { result ≡ area_in (map polygon_positions polygons.now) }
{
    let mut area = 0;
    for polygon in polygons {
        let part = polygon_area(polygon.as_slice());
        area += part;
    }
    area
}
