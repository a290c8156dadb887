//! Boxes, each by the diagonal from its least x and y to its greatest.
ghost use Rattle.std.specs.Prelude.{◌≡◌, ◌≤◌, true, length, Contains, IsTrue};
ghost use Rattle.std.specs.Int.{int_min, int_max};
ghost use Rattle.grid_geometry.specs.Common.{Position, position, Segment};
ghost use Rattle.ring_machine.specs.Common.{is_distinct};
ghost use Rattle.point_queries.specs.Covering.{box_at, is_within_diagonal};
ghost use Rattle.point_queries.specs.Held.{IsLeast, IsWider};

use grid_geometry::{Pos, Rect, Seg};
use segment_index::widen;

/// The box of one position.
pub(crate) fn box_at(p: Pos) -> Rect
    ensures { result ≡ box_at p }
{
    Rect {
        x0: p.x(),
        y0: p.y(),
        x1: p.x(),
        y1: p.y(),
    }
}

/// Whether a position lies in the box of a diagonal.
pub(crate) fn lies_in(d: Seg, p: Pos) -> bool
    ensures { result ≡ is_within_diagonal d p }
{
    d.rect().meets(box_at(p))
}

/// The lesser x and the lesser y of two positions.
fn least(a: Pos, b: Pos) -> Pos
    ensures { result ≡ position (int_min a.x b.x) (int_min a.y b.y) }
{
    Pos::new(a.x().min(b.x()), a.y().min(b.y())).unwrap()
}

/// The greater x and the greater y of two positions.
fn greatest(a: Pos, b: Pos) -> Pos
    ensures { result ≡ position (int_max a.x b.x) (int_max a.y b.y) }
{
    Pos::new(a.x().max(b.x()), a.y().max(b.y())).unwrap()
}

/// The diagonal of the least box that has the box of another, and a position.
pub(crate) fn widened(d: Seg, p: Pos) -> Seg
    ensures { IsWider d p result }
{
    let lo = least(least(d.lo, d.hi), p);
    let hi = greatest(greatest(d.lo, d.hi), p);
    Seg::new(lo, hi).unwrap_or(d)
}

/// The diagonal of the box of a ring.
pub(crate) fn diagonal_of(ring: &[Pos]) -> Seg
    requires some { 2 ≤ length ring.now }
    requires distinct { IsTrue (is_distinct ring.now) }
    ensures { (p : Position) → Contains ring.now p → is_within_diagonal result p ≡ true }
{
    let mut diagonal = Seg::new(ring[0], ring[1]).unwrap();
    for p in ring {
        diagonal = widened(diagonal, *p);
    }
    diagonal
}

/// The least box that has a position and those of the diagonals.
pub(crate) fn around(p: Pos, boxes: &[Seg]) -> Rect
    ensures { IsLeast (box_at p) boxes.now result }
{
    let mut rect = box_at(p);
    for d in boxes {
        widen(&mut rect, d.rect());
    }
    rect
}
