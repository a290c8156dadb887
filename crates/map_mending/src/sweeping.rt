// How much land borders sweep over as they are led along paths.
ghost use Rattle.std.specs.Prelude.{◌≡◌, ◌≤◌, ◌<◌, ◌*◌, ◌<ℤ◌, pos, map, length, sum_by};
ghost use Rattle.std.specs.List.{All};
ghost use Rattle.std.specs.List.Sorted.{IsStrictlySortedBy};
ghost use Rattle.grid_geometry.specs.Common.{edges, segment_cmp};
ghost use Rattle.segment_paths.specs.Common.{along};
ghost use Rattle.segment_paths.specs.Common.{IsWay, segments_with_path, paths_seen};
ghost use Rattle.topo_reader.specs.Common.{positions_of, polygon_positions};
ghost use Rattle.map_mending.specs.Swept as spec;
ghost use Rattle.map_mending.specs.Swept.{IsBeside};

use grid_geometry::{Pos, Seg, orient};
use segment_paths::{SegmentPath, positions_between};
use std::alloc::Allocator;

/// Twice the area of the triangle of a step along the path of a segment and the segment's end. It is
/// no more than the segment is wide and high, since both positions are within half a unit of it.
fn triangle(segment: Seg, from: Pos, to: Pos) -> u128
    requires long { pos 0 <ℤ along segment segment.hi }
    requires from { IsBeside segment from }
    requires to { IsBeside segment to }
    ensures value { result ≡ spec.triangle segment.hi (from, to) }
    ensures bound { result ≤ 4000000000000 }
{
    let _in_range = (segment.lo.x(), segment.hi.x());
    orient(from, to, segment.hi).unsigned_abs()
}

/// Twice the areas of all triangles between a segment and its path.
fn swept_along(segment: Seg, inner: &[Pos]) -> u128
    requires { 0 < length inner.now → IsWay segment inner.now }
    ensures value { result ≡ spec.swept_along segment inner.now }
    ensures bound { result ≤ 4000000000000 * length inner.now }
{
    let mut sum = 0;
    let mut from = segment.lo;
    for to in inner {
        sum += triangle(segment, from, *to);
        from = *to;
    }
    sum
}

/// What an edge sweeps over, twice as large.
fn swept_by<A: Allocator + Copy>(paths: &[SegmentPath<A>], from: Pos, to: Pos) -> u128
    requires ascending { IsStrictlySortedBy segment_cmp (segments_with_path (paths_seen paths.now)) }
    requires ways { All (λ p. IsWay p.0 p.1) (paths_seen paths.now) }
    ensures value { result ≡ spec.swept_by (paths_seen paths.now) (from, to) }
    ensures bound { result ≤ 36893488147419103232000000000000 }
{
    match Seg::new(from, to) {
        Some(segment) => swept_along(segment, positions_between(paths, segment.lo, segment.hi)),
        None => 0,
    }
}

/// What the edges of a walk sweep over, twice as large.
fn swept_walk<A: Allocator + Copy>(paths: &[SegmentPath<A>], walk: &[Pos]) -> u128
    requires ascending { IsStrictlySortedBy segment_cmp (segments_with_path (paths_seen paths.now)) }
    requires ways { All (λ p. IsWay p.0 p.1) (paths_seen paths.now) }
    requires few { length walk.now ≤ 4000000 }
    ensures value { result ≡ sum_by (spec.swept_by (paths_seen paths.now)) (edges walk.now) }
    ensures bound { result ≤ 36893488147419103232000000000000 * length walk.now }
{
    let [first, rest @ ..] = walk else {
        return 0;
    };
    let mut sum = 0;
    let mut from = *first;
    for to in rest {
        sum += swept_by(paths, from, *to);
        from = *to;
    }
    sum + swept_by(paths, from, *first)
}

/// What the walks of a polygon sweep over, twice as large.
fn swept_walks<A: Allocator + Copy>(paths: &[SegmentPath<A>], walks: &[Vec<Pos, A>]) -> u128
    requires ascending { IsStrictlySortedBy segment_cmp (segments_with_path (paths_seen paths.now)) }
    requires ways { All (λ p. IsWay p.0 p.1) (paths_seen paths.now) }
    requires few { sum_by length (map positions_of walks.now) ≤ 4000000 }
    ensures value { result
        ≡ spec.swept_walks (paths_seen paths.now) (map positions_of walks.now) }
    ensures bound { result ≤ 36893488147419103232000000000000
        * sum_by length (map positions_of walks.now) }
{
    let mut sum = 0;
    for walk in walks {
        sum += swept_walk(paths, walk.as_slice());
    }
    sum
}

/// What the borders of polygons sweep over as they are led along the paths, twice as large.
pub(crate) fn swept<A: Allocator + Copy>(
    paths: &[SegmentPath<A>],
    polygons: &[Vec<Vec<Pos, A>, A>],
) -> u128
    requires ascending { IsStrictlySortedBy segment_cmp (segments_with_path (paths_seen paths.now)) }
    requires ways { All (λ p. IsWay p.0 p.1) (paths_seen paths.now) }
    requires few { sum_by (sum_by length) (map polygon_positions polygons.now) ≤ 4000000 }
    ensures { result ≡ spec.swept_of (paths_seen paths.now) (map polygon_positions polygons.now) }
{
    let mut sum = 0;
    for walks in polygons {
        sum += swept_walks(paths, walks.as_slice());
    }
    sum
}
