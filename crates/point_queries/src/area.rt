// Areas, twice as large so that they are whole.
ghost use Rattle.std.specs.Prelude.{◌≡◌, ◌≤◌, ◌*◌, ◌↔◌, unsigned_abs, [], length, get_or};
ghost use Rattle.std.specs.Prelude.{IfOk, IsOk, IsTrue};
ghost use Rattle.std.specs.List.{sum_by};
ghost use Rattle.ring_machine.specs.Common.{has_feature, feature_at};
ghost use Rattle.ring_machine.specs.Query as query;

use arc_store::Map;
use grid_geometry::term;
use segment_index::SegIndex;
use std::alloc::Allocator;

/// No feature has the number.
#[derive(Clone, Copy, Debug, PartialEq, Eq)]
pub struct NoFeature;

/// Twice the area of a ring, whichever way it turns; 0 where there is no such ring.
fn ring_area<'a, I: SegIndex, A: Allocator + Copy>(
    map: &Map<'a, I, A>,
    f: u32,
    polygon: usize,
    ring: usize,
) -> i128
    requires few { length (get_or (get_or (feature_at map.now.doc f).polygons polygon []) ring [])
        ≤ 4000000 }
    ensures value { result ≡ query.absolute_area
        (get_or (get_or (feature_at map.now.doc f).polygons polygon []) ring []) }
    ensures bound { unsigned_abs result ≤ 2000000000000000000000000
        * length (get_or (get_or (feature_at map.now.doc f).polygons polygon []) ring []) }
{
    let Some(mut positions) = map.ring(f, polygon, ring) else {
        return 0;
    };
    let Some(first) = positions.next() else {
        return 0;
    };
    let mut sum = 0;
    let mut from = first;
    for to in positions {
        sum += term(from, to);
        from = to;
    }
    (sum + term(from, first)).abs()
}

/// Twice the area of a polygon with so many rings: of its outer ring less those of its holes
/// (RFC 7946, 3.1.6).
fn polygon_area<'a, I: SegIndex, A: Allocator + Copy>(
    map: &Map<'a, I, A>,
    f: u32,
    polygon: usize,
    rings: usize,
) -> i128
    requires all { rings ≡ length (get_or (feature_at map.now.doc f).polygons polygon []) }
    requires few { sum_by length (get_or (feature_at map.now.doc f).polygons polygon [])
        ≤ 4000000 }
    ensures value { result
        ≡ query.polygon_area (get_or (feature_at map.now.doc f).polygons polygon []) }
    ensures bound { unsigned_abs result ≤ 2000000000000000000000000
        * sum_by length (get_or (feature_at map.now.doc f).polygons polygon []) }
{
    let mut area = ring_area(map, f, polygon, 0);
    for hole in 1..rings {
        let part = ring_area(map, f, polygon, hole);
        area -= part;
    }
    area
}

/// Twice the area of the feature with this number: its outer rings less their holes (RFC 7946,
/// 3.1.6), whichever way they turn. Takes no memory; walks the rings of the feature and no others.
pub fn area2_of<'a, I: SegIndex, A: Allocator + Copy>(
    map: &Map<'a, I, A>,
    f: u32,
) -> Result<i128, NoFeature>
    ensures area { IfOk result (λ area. area ≡ query.area_of (feature_at map.now.doc f)) }
    ensures there { IsOk result ↔ IsTrue (has_feature map.now.doc f) }
{
    let Some(feature) = map.feature(f) else {
        return Err(NoFeature);
    };
    let mut area = 0;
    for polygon in 0..feature.polygon_count() {
        let part = polygon_area(map, f, polygon, feature.ring_count(polygon));
        area += part;
    }
    Ok(area)
}
