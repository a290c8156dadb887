//! Polygons cut by a path.
use crate::given::{BOTH_SQUARES, LEFT, LEFT_BACK, Place, are_at, at, holds, ring};
use grid_geometry::Pos;
use ring_parts::{
    Members, Path, both_parts, canonical, first_cut, first_part, has_twice, is_cut_by,
    is_wrong_side, second_part,
};
use std::alloc::Global;
use std::process::Abort;

// a ring of two squares side by side, with a hole at their corner and one that turns right
const CORNER_HOLE: &[Place] = &[(0, 0), (2, 4), (4, 2)];

const SQUARE_HOLE: &[Place] = &[(14, 4), (14, 6), (16, 6), (16, 4)];

const WITH_HOLES: &[&[Place]] = &[BOTH_SQUARES, CORNER_HOLE, SQUARE_HOLE];

/// The polygon of these rings.
fn polygon<R: Abort>(rt: &R, alloc: Global, rings: &[&[Place]]) -> Vec<Vec<Pos>> {
    let mut polygon = Vec::new(alloc);
    for positions in rings {
        polygon
            .push(ring(rt, alloc, positions))
            .expect(rt, "memory");
    }
    polygon
}

/// The path along these positions.
fn path_along<'p, R: Abort>(rt: &R, positions: &'p [Pos]) -> Path<'p> {
    match Path::new(positions) {
        Some(path) => path,
        None => panic!(rt; "two positions"),
    }
}

/// Whether these are the rings, one after another.
fn are_rings(found: &[Vec<Pos>], want: &[&[Place]]) -> bool {
    found.len() == want.len()
        && found
            .iter()
            .zip(want)
            .all(|(ring, places)| are_at(ring.as_slice(), places))
}

/// The two squares apart, each with the hole that is its own.
const APART: [&[&[Place]]; 2] = [
    &[LEFT, CORNER_HOLE],
    &[&[(10, 0), (20, 0), (20, 10), (10, 10)], SQUARE_HOLE],
];

/// That the squares are cut apart where they meet: the hole that has one of the corners stays, and the
/// other one goes.
fn cuts_apart<R: Abort>(rt: &R, alloc: Global, whole: &[Vec<Pos>]) {
    let ends = [at(rt, (10, 10)), at(rt, (10, 0))];
    let path = path_along(rt, &ends);
    assert!(rt; is_cut_by(&path, whole));
    let (first, second) = both_parts(alloc, &path, whole).expect(rt, "memory");
    holds(
        rt,
        "the first polygon",
        are_rings(first.as_slice(), APART[0]),
    );
    holds(
        rt,
        "the second polygon",
        are_rings(second.as_slice(), APART[1]),
    );
}

#[test]
fn holes_go_with_their_part(rt: HostRuntime) {
    let whole = polygon(&rt, rt.alloc(), WITH_HOLES);
    cuts_apart(&rt, rt.alloc(), whole.as_slice());
}

const SLOPE: &[Place] = &[(20, 0), (12, 2), (8, 4), (0, 10)];

const ABOVE: &[Place] = &[(20, 0), (20, 10), (10, 10), (0, 10), (8, 4), (12, 2)];

const BELOW: &[Place] = &[(0, 10), (0, 0), (10, 0), (20, 0), (12, 2), (8, 4)];

const BELOW_FROM_LEAST: &[Place] = &[(0, 0), (10, 0), (20, 0), (12, 2), (8, 4), (0, 10)];

/// That the ring of both squares is cut so along the slope: the path's inner positions stand in both
/// parts, in the first one backwards.
fn is_cut_along<R: Abort>(rt: &R, alloc: Global, outer: &[Pos], slope: &[Pos]) {
    let path = path_along(rt, slope);
    let above = first_part(alloc, outer, &path).expect(rt, "memory");
    holds(rt, "the first part", are_at(above.as_slice(), ABOVE));
    let below = second_part(alloc, outer, &path).expect(rt, "memory");
    holds(rt, "the second part", are_at(below.as_slice(), BELOW));
    let turned = canonical(alloc, below.as_slice()).expect(rt, "memory");
    holds(
        rt,
        "from its least position",
        are_at(turned.as_slice(), BELOW_FROM_LEAST),
    );
}

#[test]
fn parts_along_a_path(rt: HostRuntime) {
    let outer = ring(&rt, rt.alloc(), BOTH_SQUARES);
    let slope = ring(&rt, rt.alloc(), SLOPE);
    is_cut_along(&rt, rt.alloc(), outer.as_slice(), slope.as_slice());
}

const FAR: &[&[Place]] = &[&[(50, 0), (60, 0), (50, 10)]];

/// What it shows, the ends of a path, and which of the two polygons it cuts.
const CUTS: &[(&str, Place, Place, Option<usize>)] = &[
    ("an end at a hole", (0, 0), (10, 10), None),
    ("an end off the outer ring", (10, 0), (5, 5), None),
    ("the second of two polygons", (10, 0), (10, 10), Some(1)),
    ("the first of two polygons", (50, 0), (60, 0), Some(0)),
];

/// That the path between these ends cuts this polygon.
fn is_cut<R: Abort>(rt: &R, polygons: &[Vec<Vec<Pos>>], cut: &(&str, Place, Place, Option<usize>)) {
    let (what, p, q, want) = *cut;
    let ends = [at(rt, p), at(rt, q)];
    holds(
        rt,
        what,
        first_cut(&path_along(rt, &ends), polygons) == want,
    );
}

#[test]
fn the_polygon_that_is_cut(rt: HostRuntime) {
    let mut polygons = Vec::new(rt.alloc());
    for rings in [FAR, WITH_HOLES] {
        polygons
            .push(polygon(&rt, rt.alloc(), rings))
            .expect(&rt, "memory");
    }
    for cut in CUTS {
        is_cut(&rt, polygons.as_slice(), cut);
    }
}

/// That the far end of the path is a member of it, and the square's corner is none.
fn has_its_end<R: Abort>(rt: &R, alloc: Global, positions: &[Pos]) {
    let members = Members::new(alloc, positions).expect(rt, "memory");
    holds(rt, "its end", members.has(at(rt, (10, 10))));
    holds(rt, "no member", !members.has(at(rt, (10, 0))));
}

#[test]
fn paths(rt: HostRuntime) {
    let start = [at(&rt, (0, 0))];
    holds(&rt, "one position", Path::new(&start).is_none());
    holds(&rt, "once", !has_twice(&start));
    let positions = ring(&rt, rt.alloc(), &[(0, 0), (5, 5), (5, 5), (10, 10)]);
    holds(&rt, "twice", has_twice(positions.as_slice()));
    has_its_end(&rt, rt.alloc(), positions.as_slice());
}

// ---- the sides of a cut

/// Whether the parts of a polygon do not keep their side when it is cut along these positions.
fn is_cut_wrongly<R: Abort>(rt: &R, alloc: Global, whole: &[Vec<Pos>], positions: &[Pos]) -> bool {
    let path = path_along(rt, positions);
    let outer = whole.first().expect(rt, "an outer ring");
    assert!(rt; outer.len() < 100 && path.inner.len() < 100);
    is_wrong_side(alloc, &path, whole).expect(rt, "memory")
}

/// That the square is cut so along these positions, whichever way it turns.
fn cuts<R: Abort>(rt: &R, alloc: Global, what: &str, positions: &[Place], wrong: bool) {
    let path = ring(rt, alloc, positions);
    let left = polygon(rt, alloc, &[LEFT]);
    let found = is_cut_wrongly(rt, alloc, left.as_slice(), path.as_slice());
    holds(rt, what, found == wrong);
    let back = polygon(rt, alloc, &[LEFT_BACK]);
    let found = is_cut_wrongly(rt, alloc, back.as_slice(), path.as_slice());
    holds(rt, what, found == wrong);
}

#[test]
fn sides_of_the_parts(rt: HostRuntime) {
    let (p, q) = ((10, 0), (10, 10));
    cuts(&rt, rt.alloc(), "inside the square", &[p, (5, 5), q], false);
    cuts(&rt, rt.alloc(), "outside it", &[p, (20, 5), q], true);
    cuts(&rt, rt.alloc(), "along its side", &[p, q], true);
}
