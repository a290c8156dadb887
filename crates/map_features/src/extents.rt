// The least and the greatest coordinates of rings.
ghost use Rattle.std.specs.List.{All};
ghost use Rattle.grid_geometry.specs.Common.{Position};
ghost use Rattle.map_features.specs.Windows.{Includes, IsWithin, RingIn, AreWithin};

use crate::bounds::Bounds;
use grid_geometry::Pos;
use std::alloc::Allocator;

/// Bounds with a position more, or those of it alone.
fn widened(before: Option<Bounds>, pos: Pos) -> Bounds
    ensures new { Includes result pos }
    ensures kept { (p : Position) → IsWithin before p → Includes result p }
{
    match before {
        None => Bounds::of(pos),
        Some(bounds) => bounds.with(pos),
    }
}

fn with_ring(before: Option<Bounds>, ring: &[Pos]) -> Option<Bounds>
    ensures new { All (IsWithin result) ring.now }
    ensures kept { (p : Position) → IsWithin before p → IsWithin result p }
{
    let mut bounds = before;
    for pos in ring {
        bounds = Some(widened(bounds, *pos));
    }
    bounds
}

fn with_rings<A: Allocator + Copy>(before: Option<Bounds>, rings: &[Vec<Pos, A>]) -> Option<Bounds>
    ensures new { All (RingIn result) rings.now }
    ensures kept { (p : Position) → IsWithin before p → IsWithin result p }
{
    let mut bounds = before;
    for ring in rings {
        bounds = with_ring(bounds, ring.as_slice());
    }
    bounds
}

/// Bounds with those of polygons; none where no position was met.
pub(crate) fn with_polygons<A: Allocator + Copy>(
    before: Option<Bounds>,
    polygons: &[Vec<Vec<Pos, A>, A>],
) -> Option<Bounds>
    ensures new { AreWithin result polygons.now }
    ensures kept { (p : Position) → IsWithin before p → IsWithin result p }
{
    let mut bounds = before;
    for rings in polygons {
        bounds = with_rings(bounds, rings.as_slice());
    }
    bounds
}
