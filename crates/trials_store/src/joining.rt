//! Two rings compared, and joined.
use crate::given::{BOTH_SQUARES, LEFT, LEFT_BACK, Place, are_at, holds, ring};
use grid_geometry::Pos;
use ring_parts::{SharedSides, common_else, has_common, joined, passed_alike, runs, same_side};
use std::alloc::Global;
use std::process::Abort;

// the square beside the left one, in either direction
const RIGHT: &[Place] = &[(10, 0), (20, 0), (20, 10), (10, 10)];

const RIGHT_BACK: &[Place] = &[(10, 0), (10, 10), (20, 10), (20, 0)];

// neighbours with a gap between them
const WITH_A_DENT: &[Place] = &[(0, 0), (10, 0), (10, 3), (3, 5), (10, 7), (10, 10), (0, 10)];

const BESIDE_A_DENT: &[Place] = &[(10, 0), (20, 0), (20, 10), (10, 10), (10, 7), (10, 3)];

// neighbours that touch in two further positions
const TEETH: &[Place] = &[
    (0, 0),
    (10, 0),
    (10, 4),
    (8, 5),
    (10, 6),
    (8, 8),
    (10, 10),
    (0, 10),
];

const FACING_TEETH: &[Place] = &[
    (10, 0),
    (20, 0),
    (20, 10),
    (10, 10),
    (12, 8),
    (10, 6),
    (12, 5),
    (10, 4),
];

const AT_THE_CORNER: &[Place] = &[(10, 10), (20, 10), (20, 20), (10, 20)];

/// What the calls say of two rings.
struct Comparison {
    /// How many runs of segments they have in common; none where they have no segment in common.
    runs: usize,
    passed_alike: bool,
    same_side: bool,
    common_else: Option<Place>,
}

/// One run between areas on different sides, passed in different directions.
const BESIDE: Comparison = Comparison {
    runs: 1,
    passed_alike: false,
    same_side: false,
    common_else: None,
};

/// The same, passed alike.
const BESIDE_ALIKE: Comparison = Comparison {
    passed_alike: true,
    ..BESIDE
};

/// One run between areas on the same side, passed in different directions.
const ON_ONE_SIDE: Comparison = Comparison {
    same_side: true,
    ..BESIDE
};

/// The same, passed alike.
const ON_ONE_SIDE_ALIKE: Comparison = Comparison {
    passed_alike: true,
    ..ON_ONE_SIDE
};

/// That the borders have this in common.
fn have_in_common<R: Abort>(
    rt: &R,
    alloc: Global,
    shared: &SharedSides<'_, Global>,
    want: &Comparison,
) {
    holds(
        rt,
        "a common segment",
        has_common(shared) == (want.runs > 0),
    );
    let count = runs(alloc, shared).expect(rt, "memory");
    holds(rt, "runs", count == want.runs);
    let beside = common_else(alloc, shared).expect(rt, "memory");
    let beside = beside.map(|pos| (pos.x(), pos.y()));
    holds(rt, "a common position", beside == want.common_else);
}

/// That the calls say so of the rings.
fn rings_compare<R: Abort>(rt: &R, alloc: Global, ones: &[Pos], others: &[Pos], want: &Comparison) {
    assert!(rt; ones.len() < 100 && others.len() < 100);
    let shared = SharedSides::new(alloc, ones, others).expect(rt, "memory");
    have_in_common(rt, alloc, &shared, want);
    let side = same_side(alloc, &shared).expect(rt, "memory");
    holds(rt, "the same side", side == want.same_side);
    let alike = passed_alike(alloc, &shared).expect(rt, "memory");
    holds(rt, "passed alike", alike == want.passed_alike);
}

/// That the calls say so of the rings of these positions.
fn compare<R: Abort>(rt: &R, alloc: Global, first: &[Place], second: &[Place], want: &Comparison) {
    let ones = ring(rt, alloc, first);
    let others = ring(rt, alloc, second);
    rings_compare(rt, alloc, ones.as_slice(), others.as_slice(), want);
}

#[test]
fn squares_side_by_side(rt: HostRuntime) {
    let alloc = rt.alloc();
    compare(&rt, alloc, LEFT, RIGHT, &BESIDE);
    compare(&rt, alloc, LEFT, RIGHT_BACK, &BESIDE_ALIKE);
    compare(&rt, alloc, LEFT_BACK, RIGHT, &BESIDE_ALIKE);
    compare(&rt, alloc, LEFT_BACK, RIGHT_BACK, &BESIDE);
}

// a square in a ring of twice its length, and the same square twice
#[test]
fn areas_on_the_same_side(rt: HostRuntime) {
    let alloc = rt.alloc();
    compare(&rt, alloc, BOTH_SQUARES, LEFT, &ON_ONE_SIDE_ALIKE);
    compare(&rt, alloc, BOTH_SQUARES, LEFT_BACK, &ON_ONE_SIDE);
    compare(&rt, alloc, LEFT, LEFT, &ON_ONE_SIDE_ALIKE);
    compare(&rt, alloc, LEFT, LEFT_BACK, &ON_ONE_SIDE);
}

/// Neighbours with a gap between them.
const TWO_RUNS: Comparison = Comparison { runs: 2, ..BESIDE };

/// Neighbours that touch beside their run.
const TOUCHING: Comparison = Comparison {
    common_else: Some((10, 6)),
    ..BESIDE
};

/// Squares that touch in a corner alone.
const CORNER_ALONE: Comparison = Comparison {
    runs: 0,
    common_else: Some((10, 10)),
    ..BESIDE
};

#[test]
fn runs_and_touches(rt: HostRuntime) {
    let alloc = rt.alloc();
    compare(&rt, alloc, WITH_A_DENT, BESIDE_A_DENT, &TWO_RUNS);
    compare(&rt, alloc, BESIDE_A_DENT, WITH_A_DENT, &TWO_RUNS);
    compare(&rt, alloc, TEETH, FACING_TEETH, &TOUCHING);
    compare(&rt, alloc, LEFT, AT_THE_CORNER, &CORNER_ALONE);
}

const BOTH_BACK: &[Place] = &[(0, 0), (0, 10), (10, 10), (20, 10), (20, 0), (10, 0)];

const LEFT_OF_A_KINK: &[Place] = &[(0, 0), (10, 0), (8, 5), (10, 10), (0, 10)];

const RIGHT_OF_A_KINK: &[Place] = &[(8, 5), (10, 0), (20, 0), (20, 10), (10, 10)];

/// The ring of two that are joined.
fn joined_ring<R: Abort>(rt: &R, alloc: Global, ones: &[Pos], others: &[Pos]) -> Vec<Pos> {
    let shared = SharedSides::new(alloc, ones, others).expect(rt, "memory");
    joined(alloc, &shared).expect(rt, "memory")
}

/// That two rings of these positions are joined to this one.
fn join<R: Abort>(rt: &R, alloc: Global, first: &[Place], second: &[Place], want: &[Place]) {
    let ones = ring(rt, alloc, first);
    let others = ring(rt, alloc, second);
    let whole = joined_ring(rt, alloc, ones.as_slice(), others.as_slice());
    holds(rt, "the joined ring", are_at(whole.as_slice(), want));
}

// the ring keeps the direction of the first one
#[test]
fn squares_joined(rt: HostRuntime) {
    let alloc = rt.alloc();
    join(&rt, alloc, LEFT, RIGHT, BOTH_SQUARES);
    join(&rt, alloc, LEFT, RIGHT_BACK, BOTH_SQUARES);
    join(&rt, alloc, LEFT_BACK, RIGHT, BOTH_BACK);
    join(&rt, alloc, LEFT_BACK, RIGHT_BACK, BOTH_BACK);
}

// what lies between the ends of the run is gone
#[test]
fn joined_along_two_segments(rt: HostRuntime) {
    let (left, right) = (LEFT_OF_A_KINK, RIGHT_OF_A_KINK);
    join(&rt, rt.alloc(), left, right, BOTH_SQUARES);
}
