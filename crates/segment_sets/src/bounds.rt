// Boxes in boxes.
ghost use Rattle.std.specs.Prelude.{◌≡◌, ◌&&◌, int_le};
ghost use Rattle.std.specs.Int.{int_min, int_max};
ghost use Rattle.grid_geometry.specs.Common.{box_of, boxes_meet};
ghost use Rattle.segment_sets.specs.Bounds.{box_around, is_within, joined};

use grid_geometry::{Rect, Seg};

/// Whether the first box has all x of the other.
fn holds_across(outer: Rect, inner: Rect) -> bool
    ensures { result ≡ (int_le outer.x0 inner.x0 && int_le inner.x1 outer.x1) }
{
    outer.x0 <= inner.x0 && inner.x1 <= outer.x1
}

/// Whether the first box has all y of the other.
fn holds_upward(outer: Rect, inner: Rect) -> bool
    ensures { result ≡ (int_le outer.y0 inner.y0 && int_le inner.y1 outer.y1) }
{
    outer.y0 <= inner.y0 && inner.y1 <= outer.y1
}

/// Whether the first box has all of the other.
pub(crate) fn holds(outer: Rect, inner: Rect) -> bool
    ensures { result ≡ is_within inner outer }
{
    holds_across(outer, inner) && holds_upward(outer, inner)
}

/// The least box that has both.
fn around(a: Rect, b: Rect) -> Rect
    ensures { result ≡ box_around a b }
{
    Rect {
        x0: a.x0.min(b.x0),
        y0: a.y0.min(b.y0),
        x1: a.x1.max(b.x1),
        y1: a.y1.max(b.y1),
    }
}

/// Widens a box to the least one that has the other too. One that has it already isn't written.
pub fn widen(bounds: &mut Rect, rect: Rect)
    ensures { bounds.new ≡ box_around bounds.old rect }
{
    if !holds(*bounds, rect) {
        *bounds = around(*bounds, rect);
    }
}

/// The least box that has what either has, where there is one.
pub(crate) fn joined(a: Option<Rect>, b: Option<Rect>) -> Option<Rect>
    ensures { result ≡ joined a b }
{
    match a {
        None => b,
        Some(a) => match b {
            None => Some(a),
            Some(b) => Some(around(a, b)),
        },
    }
}

/// Whether a side of the inner box lies on one of the outer, so that the outer may be too large
/// without it. No answer depends on it.
pub(crate) fn touches(outer: Rect, inner: Rect) -> bool {
    inner.x0 <= outer.x0 || inner.y0 <= outer.y0 || outer.x1 <= inner.x1 || outer.y1 <= inner.y1
}

/// Whether the lesser of two numbers is at most a third.
fn is_either_below(a: i64, b: i64, most: i64) -> bool
    ensures { result ≡ int_le (int_min a b) most }
{
    a <= most || b <= most
}

/// Whether the greater of two numbers is at least a third.
fn is_either_above(a: i64, b: i64, least: i64) -> bool
    ensures { result ≡ int_le least (int_max a b) }
{
    least <= a || least <= b
}

/// Whether the box of a segment and another one have a common x.
fn reaches_across(s: Seg, rect: Rect) -> bool
    ensures { result ≡ (int_le (int_min s.lo.x s.hi.x) rect.x1
        && int_le rect.x0 (int_max s.lo.x s.hi.x)) }
{
    s.lo.x() <= rect.x1 && rect.x0 <= s.hi.x()
}

/// Whether the box of a segment and another one have a common y.
fn reaches_upward(s: Seg, rect: Rect) -> bool
    ensures { result ≡ (int_le (int_min s.lo.y s.hi.y) rect.y1
        && int_le rect.y0 (int_max s.lo.y s.hi.y)) }
{
    is_either_below(s.lo.y(), s.hi.y(), rect.y1) && is_either_above(s.lo.y(), s.hi.y(), rect.y0)
}

/// Whether the box of a segment meets another one. It isn't made for that, since most of those that
/// are asked for lie beside.
pub fn reaches(s: Seg, rect: Rect) -> bool
    ensures { result ≡ boxes_meet (box_of s) rect }
{
    reaches_across(s, rect) && reaches_upward(s, rect)
}
