//! How far the boxes of a few rings reach.
use crate::given::{Place, at};
use grid_geometry::Pos;
use point_queries::RingBoxes;
use std::process::Abort;

/// What is asked of the box of a triangle: the positions p and q that it grows by, if it does, a
/// position, and the x that the boxes of that one reach.
type Row = (&'static str, Option<(Place, Place)>, Place, i64);

/// The triangle 0 0, 10 2, 4 8 has the box from 0 0 to 10 8.
const ROWS: &[Row] = &[
    ("beside the triangle, in its box", None, (9, 7), 10),
    ("the greatest corner", None, (10, 8), 10),
    ("the lower right corner", None, (10, 0), 10),
    ("left of the box", None, (-1, 4), -1),
    ("right of it", None, (11, 4), 11),
    ("above it", None, (5, 9), 5),
    ("grown inside", Some(((4, 8), (5, 5))), (5, 5), 10),
    ("grown outside", Some(((10, 2), (15, -3))), (12, -3), 15),
    (
        "inside, grown outside",
        Some(((10, 2), (15, -3))),
        (0, 0),
        15,
    ),
    (
        "above, grown outside",
        Some(((10, 2), (15, -3))),
        (12, 9),
        12,
    ),
    ("grown to the left", Some(((0, 0), (-7, 4))), (-7, 8), 10),
    (
        "grown by a position of no box",
        Some(((11, 4), (15, 4))),
        (12, 4),
        12,
    ),
];

/// Adds the box of the triangle; whether there was memory.
fn has_triangle(boxes: &mut RingBoxes) -> bool {
    let ring = [
        Pos::new(0, 0).unwrap(),
        Pos::new(10, 2).unwrap(),
        Pos::new(4, 8).unwrap(),
    ];
    boxes.add(&ring).is_ok()
}

/// The boxes grow as a row says, if they do; whether there was memory.
fn has_grown<R: Abort>(rt: &R, boxes: &mut RingBoxes, by: Option<(Place, Place)>) -> bool {
    match by {
        Some((p, q)) => boxes.grow(at(rt, p), at(rt, q)).is_ok(),
        None => true,
    }
}

/// Whether the box around the boxes of the position has this greatest x.
fn reach(boxes: &RingBoxes, p: Pos, x: i64) -> bool {
    match boxes.around(p) {
        Ok(around) => around.x1 == x,
        Err(_) => false,
    }
}

/// Whether that of a copy has it.
fn copy_reaches(boxes: &RingBoxes, p: Pos, x: i64) -> bool {
    match boxes.copy() {
        Ok(copied) => reach(&copied, p, x),
        Err(_) => false,
    }
}

/// Whether the boxes of the triangle reach as far as a row says, also those of a copy.
fn reach_as_far<R: Abort>(rt: &R, boxes: &mut RingBoxes, row: &Row) -> bool {
    let p = at(rt, row.2);
    has_triangle(boxes)
        && has_grown(rt, boxes, row.1)
        && reach(boxes, p, row.3)
        && copy_reaches(boxes, p, row.3)
}

#[test]
fn boxes_reach_as_far_as_they_have_grown(rt: HostRuntime) {
    for row in ROWS {
        let reach = reach_as_far(&rt, &mut RingBoxes::new(rt.alloc()), row);
        assert!(rt; reach, "{}", row.0);
    }
}
