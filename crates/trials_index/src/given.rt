//! Positions and segments of given coordinates.
use grid_geometry::{Pos, Seg};
use std::process::Abort;

/// A position, by its coordinates.
pub(crate) type Place = (i64, i64);

/// A segment by its ends, or a box by its least and its greatest corner.
pub(crate) type Ends = (Place, Place);

/// The greatest coordinate.
pub(crate) const REACH: i64 = 1_000_000_000_000;

/// What a call that needs memory is expected to find.
pub(crate) const MEMORY: &str = "there is memory";

/// Says what does not hold, if it does not.
pub(crate) fn holds<R: Abort>(rt: &R, what: &str, is_so: bool) {
    assert!(rt; is_so, "{what}");
}

/// The position, which is in range.
pub(crate) fn at<R: Abort>(rt: &R, (x, y): Place) -> Pos {
    Pos::new(x, y).expect(rt, "in range")
}

/// The segment between two positions, which differ.
pub(crate) fn seg<R: Abort>(rt: &R, (p, q): Ends) -> Seg {
    Seg::new(at(rt, p), at(rt, q)).expect(rt, "two positions")
}
