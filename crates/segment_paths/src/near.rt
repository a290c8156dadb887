// Unit squares, and distances along a segment.
ghost use Rattle.std.specs.Prelude.{◌≡◌, ◌≤◌, ◌+◌, ◌*◌, ◌-ℤ◌, ◌+ℤ◌, ◌*ℤ◌, ◌&&◌};
ghost use Rattle.std.specs.Prelude.{unsigned_abs};
ghost use Rattle.grid_geometry.specs.Common.{orientation, is_in_box, is_between};
ghost use Rattle.segment_paths.specs.Near as spec;
ghost use Rattle.segment_paths.specs.Crossing.{beside};

use crate::products::{across, product, upward};
use grid_geometry::{Pos, Seg, orient};

/// How far a position is beside the line of a segment, times the segment's length: the absolute
/// value of the orientation.
pub(crate) fn beside(s: Seg, p: Pos) -> u128
    ensures value { result ≡ beside s p }
    ensures bound { result ≤ 8000000000000000000000000 }
{
    let left = product(across(s.lo, s.hi), upward(s.lo, p));
    let right = product(across(s.lo, p), upward(s.lo, s.hi));
    left.abs_diff(right)
}

/// How far the greater end is from the lesser one in x and in y together.
fn reach(s: Seg) -> u64
    ensures { result ≡ unsigned_abs (s.hi.x -ℤ s.lo.x) + unsigned_abs (s.hi.y -ℤ s.lo.y) }
{
    s.hi.x().abs_diff(s.lo.x()) + s.hi.y().abs_diff(s.lo.y())
}

/// Whether the x of q is between those of the ends.
fn is_in_width(q: Pos, s: Seg) -> bool
    ensures { result ≡ is_between s.lo.x s.hi.x q.x }
{
    (s.lo.x_at_most(q) && q.x_at_most(s.hi)) || (s.hi.x_at_most(q) && q.x_at_most(s.lo))
}

/// Whether the y of q is between those of the ends.
fn is_in_height(q: Pos, s: Seg) -> bool
    ensures { result ≡ is_between s.lo.y s.hi.y q.y }
{
    (s.lo.y_at_most(q) && q.y_at_most(s.hi)) || (s.hi.y_at_most(q) && q.y_at_most(s.lo))
}

/// Whether the unit square around the position, its border included, meets the segment.
#[tactic(auto, unfolding(crate::specs::Near::is_near))]
pub fn is_near(q: Pos, s: Seg) -> bool
    ensures { result ≡ spec.is_near q s }
{
    is_in_width(q, s) && is_in_height(q, s) && 2 * beside(s, q) <= reach(s) as u128
}

/// Whether the segment meets the half-open unit square around the position: with the left and the
/// lower side, and without the right and the upper one. These squares part the plane.
#[tactic(auto, unfolding(crate::specs::Near::meets_square))]
pub fn meets_square(s: Seg, q: Pos) -> bool
    ensures { result ≡ spec.meets_square s q }
{
    // a segment that only touches the square does so in a corner: it may be the lower left one
    is_near(q, s) && (2 * beside(s, q) < reach(s) as u128 || falls_below(q, s))
}

/// Whether the segment falls, and the position is above it.
#[tactic(auto, unfolding(crate::specs::Near::is_above_falling))]
fn falls_below(q: Pos, s: Seg) -> bool
    ensures { result ≡ spec.is_above_falling q s }
{
    s.hi.y() < s.lo.y() && 0 < orient(s.lo, s.hi, q)
}

/// How far along the segment a position stands, in the direction from the lesser end to the greater
/// one: 0 at the lesser end, and the square of the length at the greater one.
pub fn along(s: Seg, q: Pos) -> i128
    ensures { result ≡ spec.along s q }
{
    product(across(s.lo, q), across(s.lo, s.hi)) + product(upward(s.lo, q), upward(s.lo, s.hi))
}
