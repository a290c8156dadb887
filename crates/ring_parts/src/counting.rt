// How many positions rings have.
ghost use Rattle.std.specs.Prelude.{◌≡◌, ◌<◌, ◌^◌, length};
ghost use Rattle.std.specs.List.{sum_by};
ghost use Rattle.ring_parts.specs.Seen.{rings_seen, polygons_seen};

use grid_geometry::Pos;
use std::alloc::Allocator;

/// How many positions the rings have, each ring counted for itself.
pub fn count_positions<A: Allocator + Copy>(rings: &[Vec<Pos, A>]) -> usize
    requires { sum_by length (rings_seen rings.now) < 2 ^ 64 }
    ensures { result ≡ sum_by length (rings_seen rings.now) }
{
    let mut count = 0;
    for ring in rings {
        count += ring.len();
    }
    count
}

/// How many positions the rings of these polygons have, each ring counted for itself.
pub fn count_all<A: Allocator + Copy>(polygons: &[Vec<Vec<Pos, A>, A>]) -> usize
    requires { sum_by (sum_by length) (polygons_seen polygons.now) < 2 ^ 64 }
    ensures { result ≡ sum_by (sum_by length) (polygons_seen polygons.now) }
{
    let mut count = 0;
    for rings in polygons {
        count += count_positions(rings.as_slice());
    }
    count
}
