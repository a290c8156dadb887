// How large a layer may be.
ghost use Rattle.std.specs.Prelude.{◌≡◌, ◌+◌, ◌<◌, length, map, nat_le, sum_by, MatchOption};
ghost use Rattle.ring_parts.specs.Seen.{rings_seen, polygons_seen};

use grid_geometry::Pos;
use std::alloc::Allocator;

/// The most positions, polygons and borders that a layer may have.
pub(crate) const MAX_POSITIONS: usize = 4_000_000;

/// The room that is left after the rings of a polygon, if they fit.
fn after_polygon<A: Allocator + Copy>(room: usize, rings: &[Vec<Pos, A>]) -> Option<usize>
    ensures { MatchOption result (room < sum_by length (rings_seen rings.now))
        (λ left. left + sum_by length (rings_seen rings.now) ≡ room) }
{
    let mut left = room;
    for ring in rings {
        left = left.checked_sub(ring.len())?;
    }
    Some(left)
}

/// The room that is left after the rings of these polygons, if they fit.
fn after_all<A: Allocator + Copy>(room: usize, polygons: &[Vec<Vec<Pos, A>, A>]) -> Option<usize>
    ensures { MatchOption result (room < sum_by (sum_by length) (polygons_seen polygons.now))
        (λ left. left + sum_by (sum_by length) (polygons_seen polygons.now) ≡ room) }
{
    let mut left = room;
    for rings in polygons {
        left = after_polygon(left, rings.as_slice())?;
    }
    Some(left)
}

/// Whether the rings of all polygons have no more than 4,000,000 positions.
pub(crate) fn fit<A: Allocator + Copy>(polygons: &[Vec<Vec<Pos, A>, A>]) -> bool
    ensures { result ≡ nat_le (sum_by (sum_by length) (polygons_seen polygons.now)) 4000000 }
{
    after_all(MAX_POSITIONS, polygons).is_some()
}
