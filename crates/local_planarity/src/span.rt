//! The box of three positions.
ghost use Rattle.std.specs.Prelude.{◌≡◌, ◌&&◌, int_le};
ghost use Rattle.std.specs.Int.{int_min, int_max};
ghost use Rattle.local_planarity.specs.Spans as spec;

use grid_geometry::{Pos, Rect};

/// Of two positions, one with the lesser x.
fn leftmost(a: Pos, b: Pos) -> Pos
    ensures { result.x ≡ int_min a.x b.x }
{
    if a.x_at_most(b) { a } else { b }
}

/// Of two positions, one with the lesser y.
fn lowest(a: Pos, b: Pos) -> Pos
    ensures { result.y ≡ int_min a.y b.y }
{
    if a.y_at_most(b) { a } else { b }
}

/// Of two positions, one with the greater x.
fn rightmost(a: Pos, b: Pos) -> Pos
    ensures { result.x ≡ int_max a.x b.x }
{
    if a.x_at_most(b) { b } else { a }
}

/// Of two positions, one with the greater y.
fn highest(a: Pos, b: Pos) -> Pos
    ensures { result.y ≡ int_max a.y b.y }
{
    if a.y_at_most(b) { b } else { a }
}

/// The least box that has all three positions.
pub(crate) fn box_of_three(a: Pos, b: Pos, c: Pos) -> Rect
    ensures { result ≡ spec.box_of_three a b c }
{
    Rect {
        x0: leftmost(leftmost(a, b), c).x(),
        y0: lowest(lowest(a, b), c).y(),
        x1: rightmost(rightmost(a, b), c).x(),
        y1: highest(highest(a, b), c).y(),
    }
}

/// Whether a box has the x of a position.
fn lies_across(w: Pos, rect: Rect) -> bool
    ensures { result ≡ (int_le rect.x0 w.x && int_le w.x rect.x1) }
{
    rect.x0 <= w.x() && w.x() <= rect.x1
}

/// Whether a box has the y of a position.
fn lies_upward(w: Pos, rect: Rect) -> bool
    ensures { result ≡ (int_le rect.y0 w.y && int_le w.y rect.y1) }
{
    rect.y0 <= w.y() && w.y() <= rect.y1
}

/// Whether a box has a position.
pub(crate) fn lies_in(w: Pos, rect: Rect) -> bool
    ensures { result ≡ spec.lies_in w rect }
{
    lies_across(w, rect) && lies_upward(w, rect)
}
