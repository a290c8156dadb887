//! Positions, segments and boxes, and the tests on them.
use crate::given::{Ends, Place, REACH, at, holds, seg};
use grid_geometry::{
    Pos, Rect, Seg, area2, conflict, counts, cross, held, inside, on, orient, term,
};
use std::process::Abort;

const IN_RANGE: &[(i64, i64, bool)] = &[
    (REACH, -REACH, true),
    (REACH + 1, 0, false),
    (0, -REACH - 1, false),
    (i64::MIN, 0, false),
];

#[test]
fn positions_are_in_range(rt: HostRuntime) {
    for (x, y, want) in IN_RANGE {
        holds(&rt, "in range", Pos::new(*x, *y).is_some() == *want);
    }
}

#[test]
fn coordinates(rt: HostRuntime) {
    let p = at(&rt, (3, -4));
    holds(&rt, "as given", p.x() == 3 && p.y() == -4);
    let q = at(&rt, (2, -4));
    holds(&rt, "at most", !p.x_at_most(q) && p.y_at_most(q));
}

#[test]
fn a_segment_has_its_lesser_end_first(rt: HostRuntime) {
    let s = seg(&rt, ((10, -5), (0, 0)));
    holds(&rt, "the lesser end", s.lo == at(&rt, (0, 0)));
    holds(&rt, "the greater end", s.hi == at(&rt, (10, -5)));
    let p = at(&rt, (1, 2));
    holds(&rt, "one position", Seg::new(p, p).is_none());
    let rect = seg(&rt, ((0, 7), (10, -5))).rect();
    holds(&rt, "its box in x", rect.x0 == 0 && rect.x1 == 10);
    holds(&rt, "its box in y", rect.y0 == -5 && rect.y1 == 7);
}

/// What it shows, the sides of a box, and whether there is one.
const BOXES: &[(&str, [i64; 4], bool)] = &[
    ("one position", [3, 4, 3, 4], true),
    ("x out of order", [1, 0, 0, 0], false),
    ("y out of order", [0, 1, 0, 0], false),
    ("x out of range", [-REACH - 1, 0, 0, 0], false),
    ("y out of range", [0, 0, 0, REACH + 1], false),
];

/// Whether there is a box of these sides.
fn is_box(sides: &[i64; 4]) -> bool {
    let [x0, y0, x1, y1] = *sides;
    Rect::new(x0, y0, x1, y1).is_some()
}

#[test]
fn boxes(rt: HostRuntime) {
    for (what, sides, want) in BOXES {
        holds(&rt, what, is_box(sides) == *want);
    }
}

/// What it shows, the ends of a segment, and whether it is so of it and of another one.
type Pair = (&'static str, Ends, bool);

const MEETING: &[Pair] = &[
    ("a common corner", ((10, 10), (20, 20)), true),
    ("a gap in x alone", ((11, 0), (20, 10)), false),
    ("a gap in y alone", ((0, 11), (10, 20)), false),
];

/// That the boxes meet, or do not.
fn meets<R: Abort>(rt: &R, pair: &Pair) {
    let (what, ends, want) = *pair;
    let base = seg(rt, ((0, 0), (10, 10))).rect();
    holds(rt, what, base.meets(seg(rt, ends).rect()) == want);
}

#[test]
fn boxes_that_meet(rt: HostRuntime) {
    for pair in MEETING {
        meets(&rt, pair);
    }
}

// the greatest triangle of the grid: its area is past 64 bits
#[test]
fn orientation_at_the_corners_of_the_grid(rt: HostRuntime) {
    let least = at(&rt, (-REACH, -REACH));
    let right = at(&rt, (REACH, -REACH));
    let above = at(&rt, (-REACH, REACH));
    let area = orient(least, right, above);
    holds(&rt, "the area", area == 4_000_000_000_000_000_000_000_000);
}

/// Positions, and whether they are on a segment.
const ON: &[(&str, Place, bool)] = &[
    ("within", (4, 2), true),
    ("at an end", (10, 5), true),
    ("past an end", (12, 6), false),
    ("beside it", (4, 3), false),
];

#[test]
fn positions_on_a_segment(rt: HostRuntime) {
    let s = seg(&rt, ((0, 0), (10, 5)));
    for (what, p, want) in ON {
        holds(&rt, what, on(at(&rt, *p), s) == *want);
    }
}

const CROSSING: &[Pair] = &[
    ("across it", ((5, -1), (5, 9)), true),
    ("an end on it", ((5, 0), (5, 9)), false),
    ("on one line with it", ((5, 0), (15, 0)), false),
];

/// That the segments cross, or do not.
fn crosses<R: Abort>(rt: &R, pair: &Pair) {
    let (what, ends, want) = *pair;
    let base = seg(rt, ((0, 0), (10, 0)));
    holds(rt, what, cross(base, seg(rt, ends)) == want);
}

#[test]
fn segments_that_cross(rt: HostRuntime) {
    for pair in CROSSING {
        crosses(&rt, pair);
    }
}

const CONFLICTS: &[Pair] = &[
    ("equal", ((0, 0), (10, 0)), false),
    ("a common end", ((10, 0), (20, 0)), false),
    ("past a common end", ((5, 0), (15, 0)), true),
    ("within", ((0, 0), (5, 0)), true),
    ("an end on it", ((5, 0), (5, 9)), true),
    ("across it", ((5, -1), (5, 9)), true),
    ("beside it", ((11, -1), (11, 1)), false),
];

/// That the segments conflict, or do not, whichever is named first.
fn conflicts<R: Abort>(rt: &R, pair: &Pair) {
    let (what, ends, want) = *pair;
    let (base, other) = (seg(rt, ((0, 0), (10, 0))), seg(rt, ends));
    holds(rt, what, conflict(base, other) == want);
    holds(rt, what, conflict(other, base) == want);
}

#[test]
fn conflicts_of_one_segment(rt: HostRuntime) {
    for pair in CONFLICTS {
        conflicts(&rt, pair);
    }
}

/// What it shows, a position, the corners of a triangle, and whether it holds the position.
const HELD: &[(&str, Place, [Place; 3], bool)] = &[
    (
        "a moved corner over it",
        (5, 8),
        [(30, 0), (0, 0), (9, 20)],
        true,
    ),
    (
        "a moved corner beside it",
        (3, 8),
        [(30, 0), (0, 0), (9, 20)],
        false,
    ),
    (
        "a triangle that is a line",
        (2, 0),
        [(0, 0), (5, 0), (9, 0)],
        true,
    ),
    (
        "past the end of a line",
        (10, 0),
        [(0, 0), (5, 0), (9, 0)],
        false,
    ),
];

/// That the triangle holds the position, or does not.
fn is_held<R: Abort>(rt: &R, what: &str, w: Place, corners: [Place; 3], want: bool) {
    let [a, b, c] = corners;
    let found = held(at(rt, w), at(rt, a), at(rt, b), at(rt, c));
    holds(rt, what, found == want);
}

#[test]
fn positions_that_a_triangle_holds(rt: HostRuntime) {
    for (what, w, corners, want) in HELD {
        is_held(&rt, what, *w, *corners, *want);
    }
}

#[test]
fn a_term_of_the_shoelace_sum(rt: HostRuntime) {
    let (p, q) = (at(&rt, (3, -4)), at(&rt, (5, 7)));
    holds(&rt, "one way", term(p, q) == 41);
    holds(&rt, "the other way", term(q, p) == -41);
}

#[test]
fn a_square_that_turns_right(rt: HostRuntime) {
    let (low, high) = (at(&rt, (0, 0)), at(&rt, (0, 10)));
    let ring = [low, high, at(&rt, (10, 10)), at(&rt, (10, 0))];
    holds(&rt, "its area", area2(&ring) == -200);
    holds(&rt, "two positions", area2(&[low, high]) == 0);
    holds(&rt, "inside", inside(at(&rt, (5, 5)), &ring));
    holds(&rt, "outside", !inside(at(&rt, (11, 5)), &ring));
}

/// Positions, and whether an edge from 10 0 to 10 10 counts for them.
const COUNTS: &[(&str, Place, bool)] = &[
    ("to its left", (5, 5), true),
    ("at its lower end", (5, 0), true),
    ("at its upper end", (5, 10), false),
    ("to its right", (15, 5), false),
    ("on it", (10, 5), false),
];

/// That the edge counts, or does not, going up and going down.
fn edge_counts<R: Abort>(rt: &R, what: &str, w: Place, want: bool) {
    let w = at(rt, w);
    let (low, high) = (at(rt, (10, 0)), at(rt, (10, 10)));
    holds(rt, what, counts(w, low, high) == want);
    holds(rt, what, counts(w, high, low) == want);
}

#[test]
fn edges_that_count(rt: HostRuntime) {
    for (what, w, want) in COUNTS {
        edge_counts(&rt, what, *w, *want);
    }
    let (low, right) = (at(&rt, (10, 0)), at(&rt, (20, 0)));
    holds(&rt, "level", !counts(at(&rt, (5, 0)), low, right));
}

#[test]
fn printed_positions_and_segments(rt: HostRuntime) {
    let p = at(&rt, (3, -4)).to_string(rt.alloc()).expect(&rt, "memory");
    holds(&rt, "a position", p.as_str() == "3 -4");
    let s = seg(&rt, ((10, -5), (0, 0)))
        .to_string(rt.alloc())
        .expect(&rt, "memory");
    holds(&rt, "a segment", s.as_str() == "0 0 10 -5");
}
