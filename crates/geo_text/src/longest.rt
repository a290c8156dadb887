// The longest side of the box of a segment.
ghost use Rattle.std.specs.Prelude.{◌≡◌, ◌≤◌, ◌*◌, ◌^◌, flat_map, fold, map, max};
ghost use Rattle.grid_geometry.specs.Common.{edges};
ghost use Rattle.topo_reader.specs.Common.{positions_of};
ghost use Rattle.geo_text.specs.Text.{side};

use grid_geometry::Pos;
use std::alloc::Allocator;

/// The longer side of the box of an edge.
fn side(from: Pos, to: Pos) -> u64
    ensures value { result ≡ side (from, to) }
    ensures bound { result ≤ 2 * 10 ^ 12 }
{
    let across = (to.x() - from.x()).unsigned_abs();
    let upward = (to.y() - from.y()).unsigned_abs();
    across.max(upward)
}

/// The longest side of the edges of a ring, or what it was before.
fn with_ring(before: u64, ring: &[Pos]) -> u64
    requires { before ≤ 2 * 10 ^ 12 }
    ensures value { result ≡ fold (λ most e. max most (side e)) before (edges ring.now) }
    ensures bound { result ≤ 2 * 10 ^ 12 }
{
    let [first, others @ ..] = ring else {
        return before;
    };
    let mut longest = before;
    let mut from = *first;
    for to in others {
        longest = longest.max(side(from, *to));
        from = *to;
    }
    longest.max(side(from, *first))
}

/// The longest side of the edges of rings, or what it was before.
fn with_rings<A: Allocator + Copy>(before: u64, rings: &[Vec<Pos, A>]) -> u64
    requires { before ≤ 2 * 10 ^ 12 }
    ensures value { result ≡ fold (λ most e. max most (side e)) before
        (flat_map edges (map positions_of rings.now)) }
    ensures bound { result ≤ 2 * 10 ^ 12 }
{
    let mut longest = before;
    for ring in rings {
        longest = with_ring(longest, ring.as_slice());
    }
    longest
}

/// The longest side of the edges of polygons, or what it was before.
fn with_polygons<A: Allocator + Copy>(before: u64, polygons: &[Vec<Vec<Pos, A>, A>]) -> u64
    requires { before ≤ 2 * 10 ^ 12 }
    ensures value { result ≡ fold (λ most e. max most (side e)) before
        (flat_map edges (flat_map (λ polygon. map positions_of polygon.items) polygons.now)) }
    ensures bound { result ≤ 2 * 10 ^ 12 }
{
    let mut longest = before;
    for polygon in polygons {
        longest = with_rings(longest, polygon.as_slice());
    }
    longest
}

/// The longest side of the edges of all rings; 0 where there are none.
pub(crate) fn longest_side<A: Allocator + Copy>(polygons: &[Vec<Vec<Vec<Pos, A>, A>, A>]) -> u64
    ensures value { result ≡ fold (λ most e. max most (side e)) 0
        (flat_map edges (flat_map (λ polygon. map positions_of polygon.items)
        (flat_map (λ polygons. polygons.items) polygons.now))) }
    ensures bound { result ≤ 2 * 10 ^ 12 }
{
    let mut longest = 0;
    for of_feature in polygons {
        longest = with_polygons(longest, of_feature.as_slice());
    }
    longest
}
