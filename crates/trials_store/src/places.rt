//! Features at positions, on maps made by hand, by the boxes of the rings and without.
ghost use Rattle.ring_machine.specs.Common.{rings};
ghost use Rattle.point_queries.specs.Common.{CoversRings};

use crate::given::Place;
use crate::maps::{CUT, DONUT, MANY, NESTED, TWO_POLYGONS, TreeMap, map_of};
use grid_geometry::Pos;
use point_queries::{At, RingBoxes, at, at_near, boxes_of};
use std::alloc::{AllocError, Global};
use test_aids::{TWO_SQUARES, UNION_ABOVE};

/// A position, the features that hold it off their borders, and those that have it on them.
type Row = (Place, &'static [u32], &'static [u32]);

/// In each of the squares and their holes, on each border, at the height of corners, and outside.
const AT_NESTED: &[Row] = &[
    ((10, 50), &[0], &[]),
    ((25, 50), &[], &[]),
    ((35, 50), &[1], &[]),
    ((42, 50), &[], &[]),
    ((50, 50), &[2], &[]),
    ((58, 50), &[], &[]),
    ((65, 50), &[1], &[]),
    ((75, 50), &[], &[]),
    ((90, 50), &[0], &[]),
    ((0, 50), &[], &[0]),
    ((20, 20), &[], &[0]),
    ((30, 70), &[], &[1]),
    ((60, 50), &[], &[1]),
    ((50, 45), &[], &[2]),
    ((10, 20), &[0], &[]),
    ((10, 80), &[0], &[]),
    ((35, 40), &[1], &[]),
    ((-10, 50), &[], &[]),
    ((110, 50), &[], &[]),
    ((50, 110), &[], &[]),
];

/// In the L, where the ray that ends with its box passes one side of another ring, or none; in its
/// box and not in it; in the others, and on borders.
const AT_CUT: &[Row] = &[
    ((2, 10), &[0], &[]),
    ((2, 18), &[0], &[]),
    ((2, 2), &[0], &[]),
    ((2, 8), &[0], &[]),
    ((2, 15), &[0], &[]),
    ((7, 10), &[], &[]),
    ((7, 18), &[], &[]),
    ((15, 10), &[1], &[]),
    ((25, 10), &[1], &[]),
    ((15, 18), &[2], &[]),
    ((39, 18), &[2], &[]),
    ((55, 10), &[2], &[]),
    ((58, 9), &[2], &[]),
    ((50, 10), &[], &[2]),
    ((5, 10), &[], &[0]),
    ((20, 8), &[], &[1]),
    ((45, 10), &[], &[]),
];

const ALL: &[u32] = &[
    0, 1, 2, 3, 4, 5, 6, 7, 8, 9, 10, 11, 12, 13, 14, 15, 16, 17, 18, 19, 20, 21, 22, 23, 24, 25,
    26, 27, 28, 29, 30, 31, 32, 33, 34, 35, 36, 37, 38, 39, 40, 41, 42, 43, 44, 45, 46, 47, 48, 49,
    50, 51, 52, 53, 54, 55, 56, 57, 58, 59, 60, 61, 62, 63, 64, 65, 66, 67, 68, 69,
];

const FIRST_64: &[u32] = &[
    0, 1, 2, 3, 4, 5, 6, 7, 8, 9, 10, 11, 12, 13, 14, 15, 16, 17, 18, 19, 20, 21, 22, 23, 24, 25,
    26, 27, 28, 29, 30, 31, 32, 33, 34, 35, 36, 37, 38, 39, 40, 41, 42, 43, 44, 45, 46, 47, 48, 49,
    50, 51, 52, 53, 54, 55, 56, 57, 58, 59, 60, 61, 62, 63,
];

const FIRST_63: &[u32] = &[
    0, 1, 2, 3, 4, 5, 6, 7, 8, 9, 10, 11, 12, 13, 14, 15, 16, 17, 18, 19, 20, 21, 22, 23, 24, 25,
    26, 27, 28, 29, 30, 31, 32, 33, 34, 35, 36, 37, 38, 39, 40, 41, 42, 43, 44, 45, 46, 47, 48, 49,
    50, 51, 52, 53, 54, 55, 56, 57, 58, 59, 60, 61, 62,
];

/// In as many squares as names are compared for, in more, in few, on corners, and outside.
const AT_MANY: &[Row] = &[
    ((100, 100), ALL, &[]),
    ((64, 100), FIRST_64, &[64]),
    ((63, 100), FIRST_63, &[63]),
    ((2, 100), &[0, 1], &[2]),
    ((150, 3), &[0, 1, 2], &[3]),
    ((197, 196), &[0, 1, 2], &[3]),
    ((195, 5), &[0, 1, 2, 3, 4], &[5]),
    ((0, 0), &[], &[0]),
    ((-1, 100), &[], &[]),
    ((201, 100), &[], &[]),
];

/// Within a common side, at the end of one, on a side that one square has, inside, and outside.
const AT_TWO_SQUARES: &[Row] = &[
    ((10, 5), &[], &[0, 1]),
    ((10, 10), &[], &[0, 1]),
    ((0, 5), &[], &[0]),
    ((5, 5), &[0], &[]),
    ((15, 5), &[1], &[]),
    ((30, 30), &[], &[]),
];

/// In a hole that an island fills, at the height of vertices to the right, where two squares touch
/// at a corner, and far away.
const AT_A_DONUT: &[Row] = &[
    ((15, 15), &[1], &[]),
    ((5, 15), &[0], &[]),
    ((5, 10), &[0], &[]),
    ((5, 20), &[0], &[]),
    ((-5, 30), &[], &[]),
    ((10, 15), &[], &[0, 1]),
    ((30, 30), &[], &[0, 2]),
    ((35, 35), &[2], &[]),
    ((-900_000_000_000, 15), &[], &[]),
];

/// In either of two polygons, and between them: a feature of two holds what either holds.
const AT_TWO_POLYGONS: &[Row] = &[
    ((1, 2), &[0], &[]),
    ((21, 2), &[0], &[]),
    ((10, 2), &[], &[]),
];

/// On a common side and inside a square, and so inside the union.
const AT_A_UNION: &[Row] = &[((10, 5), &[2], &[0, 1]), ((15, 5), &[1, 2], &[])];

/// Maps, and what is at positions of them.
const MAPS: &[(&str, &[Row])] = &[
    (NESTED, AT_NESTED),
    (CUT, AT_CUT),
    (MANY, AT_MANY),
    (TWO_SQUARES, AT_TWO_SQUARES),
    (DONUT, AT_A_DONUT),
    (TWO_POLYGONS, AT_TWO_POLYGONS),
    (UNION_ABOVE, AT_A_UNION),
];

/// Whether these features were found.
fn are_found(found: Result<At, AllocError>, row: &Row) -> bool {
    match found {
        Ok(found) => found.inside.0.as_slice() == row.1 && found.border.0.as_slice() == row.2,
        Err(_) => false,
    }
}

/// Whether those of a row are found at its position, with boxes and without.
fn is_right(alloc: Global, map: &TreeMap, boxes: &RingBoxes, row: &Row) -> bool
    requires { CoversRings boxes.now (rings map.now.doc) }
{
    let (x, y) = row.0;
    let Some(p) = Pos::new(x, y) else {
        return false;
    };
    let is_near = are_found(at_near(alloc, map, boxes, p), row);
    are_found(at(alloc, map, p), row) & is_near
}

/// How many rows are right, up to the first that is not.
fn right_rows(alloc: Global, map: &TreeMap, boxes: &RingBoxes, rows: &[Row]) -> usize
    requires { CoversRings boxes.now (rings map.now.doc) }
{
    let mut count = 0usize;
    for row in rows {
        if !is_right(alloc, map, boxes, row) {
            return count;
        }
        count = count.wrapping_add(1);
    }
    count
}

/// The same, with the boxes of the map.
fn right_in(alloc: Global, map: &TreeMap, rows: &[Row]) -> usize {
    match boxes_of(alloc, map) {
        Ok(boxes) => right_rows(alloc, map, &boxes, rows),
        Err(_) => 0,
    }
}

/// The same, on the map of a text.
fn right_on(alloc: Global, text: &'static str, rows: &[Row]) -> usize {
    match map_of(alloc, text) {
        Some(map) => {
            let count = right_in(alloc, &map, rows);
            drop(map);
            count
        }
        None => 0,
    }
}

#[test]
fn features_at_positions(rt: HostRuntime) {
    for (text, rows) in MAPS {
        let count = right_on(rt.alloc(), *text, *rows);
        assert!(rt; count == rows.len(), "row {count} of {text}");
    }
}
