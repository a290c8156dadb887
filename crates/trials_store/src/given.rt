//! Positions and rings of given coordinates.
use grid_geometry::Pos;
use std::alloc::Global;
use std::process::Abort;

/// The coordinates of a position.
pub(crate) type Place = (i64, i64);

// a square, and one with another beside it, the first in either direction
pub(crate) const LEFT: &[Place] = &[(0, 0), (10, 0), (10, 10), (0, 10)];

pub(crate) const LEFT_BACK: &[Place] = &[(0, 0), (0, 10), (10, 10), (10, 0)];

pub(crate) const BOTH_SQUARES: &[Place] = &[(0, 0), (10, 0), (20, 0), (20, 10), (10, 10), (0, 10)];

/// That it is so.
pub(crate) fn holds<R: Abort>(rt: &R, what: &str, is_so: bool) {
    assert!(rt; is_so, "{what}");
}

/// The position, which is in range.
pub(crate) fn at<R: Abort>(rt: &R, p: Place) -> Pos {
    Pos::new(p.0, p.1).expect(rt, "in range")
}

/// The positions with these coordinates.
pub(crate) fn ring<R: Abort>(rt: &R, alloc: Global, positions: &[Place]) -> Vec<Pos> {
    let mut ring = Vec::new(alloc);
    for p in positions {
        ring.push(at(rt, *p)).expect(rt, "memory");
    }
    ring
}

/// Whether these are the positions.
pub(crate) fn are_at(found: &[Pos], want: &[Place]) -> bool {
    found.len() == want.len()
        && found
            .iter()
            .zip(want)
            .all(|(pos, place)| (pos.x(), pos.y()) == *place)
}
