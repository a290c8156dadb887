// The ends of a segment by level, and the sides of it on which a vertex lies.
ghost use Rattle.std.specs.Prelude.{◌≡◌, IsTrue};
ghost use Rattle.grid_geometry.specs.Common.{IsSegment};
ghost use Rattle.layer_sides.specs.Levels.{bottom, level_lt, top};
ghost use Rattle.layer_sides.specs.Order as order;

use grid_geometry::{Pos, Seg, orient};
use std::cmp::Ordering;

/// Whether the sweep comes to p before it comes to q.
fn comes_before(p: Pos, q: Pos) -> bool
    ensures { result ≡ level_lt p q }
{
    p.y() < q.y() || (p.y() == q.y() && q.x() < p.x())
}

/// Whether the first end of a segment is the lesser one.
pub(crate) fn is_ordered(s: Seg) -> bool
    ensures { IsTrue result → IsSegment s }
{
    match s.lo.cmp(&s.hi) {
        Ordering::Less => true,
        _ => false,
    }
}

/// The end of a segment to which the sweep comes first.
pub(crate) fn bottom_of(s: Seg) -> Pos
    ensures { result ≡ bottom s }
{
    if comes_before(s.lo, s.hi) { s.lo } else { s.hi }
}

/// The end of a segment to which the sweep comes last.
pub(crate) fn top_of(s: Seg) -> Pos
    ensures { result ≡ top s }
{
    if comes_before(s.lo, s.hi) { s.hi } else { s.lo }
}

/// Whether w is strictly on the right of the segment.
pub(crate) fn is_right(w: Pos, s: Seg) -> bool
    ensures { result ≡ order.is_right w s }
{
    orient(bottom_of(s), top_of(s), w) < 0
}

/// Whether w is strictly on the left of the segment.
pub(crate) fn is_left(w: Pos, s: Seg) -> bool
    ensures { result ≡ order.is_left w s }
{
    orient(bottom_of(s), top_of(s), w) > 0
}
