// How fine a picture is.
ghost use Rattle.std.specs.Prelude.{◌≡◌, ◌≤ℤ◌, pos};
ghost use Rattle.map_drawing.specs.Fineness.{parts_for};

use grid_geometry::Pos;
use map_features::{Shape, Window};
use std::alloc::Allocator;

/// The most parts that a pixel has.
const MOST_PARTS: usize = 100;

/// How many parts of a pixel there are for all positions together.
const ALL_PARTS: usize = 2_000_000;

/// How many parts a pixel has in a picture of so many positions.
pub(crate) fn parts_for(positions: usize) -> i64
    ensures parts { result ≡ parts_for positions }
    ensures some { (pos 1 ≤ℤ result) × (result ≤ℤ pos 100) }
{
    let parts = ALL_PARTS / positions.max(1);
    parts.clamp(1, MOST_PARTS) as i64
}

/// How many positions of a ring a part of the grid has.
fn count_in(window: &Window, ring: &[Pos]) -> usize {
    let mut count: usize = 0;
    for pos in ring {
        if window.has(*pos) {
            count = count.saturating_add(1);
        }
    }
    count
}

/// How many positions of the rings of a feature it has.
fn count_of<A: Allocator + Copy>(window: &Window, shape: &Shape<'_, A>) -> usize {
    let mut count: usize = 0;
    for ring in shape.polygons.iter().flatten() {
        count = count.saturating_add(count_in(window, ring.as_slice()));
    }
    count
}

/// How many positions of the rings of features a part of the grid has.
pub(crate) fn positions_in<A: Allocator + Copy>(window: &Window, shapes: &[Shape<'_, A>]) -> usize {
    let mut count: usize = 0;
    for shape in shapes {
        count = count.saturating_add(count_of(window, shape));
    }
    count
}
