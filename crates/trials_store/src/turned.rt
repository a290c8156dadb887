//! Rings begun at their least position.
use crate::given::{Place, are_at, holds, ring};
use ring_parts::begin_at_least;
use std::alloc::Global;
use std::process::Abort;

/// Rings, and the same begun at their least position: of two that are furthest to the west the one
/// to the south.
const TURNED: &[(&str, &[Place], &[Place])] = &[
    (
        "the last position is the least one",
        &[(2, 0), (2, 2), (0, 5), (0, 1)],
        &[(0, 1), (2, 0), (2, 2), (0, 5)],
    ),
    (
        "an inner one is",
        &[(3, 3), (-1, 4), (0, -7), (5, 0)],
        &[(-1, 4), (0, -7), (5, 0), (3, 3)],
    ),
    (
        "the first one is",
        &[(0, 0), (9, 0), (9, 9), (0, 9)],
        &[(0, 0), (9, 0), (9, 9), (0, 9)],
    ),
    ("one position", &[(7, 7)], &[(7, 7)]),
    ("none", &[], &[]),
];

/// That the ring begun at its least position is this one.
fn begins<R: Abort>(rt: &R, alloc: Global, what: &str, given: &[Place], want: &[Place]) {
    let mut ring = ring(rt, alloc, given);
    begin_at_least(ring.as_mut_slice());
    holds(rt, what, are_at(ring.as_slice(), want));
}

#[test]
fn rings_begun_at_their_least(rt: HostRuntime) {
    for (what, given, want) in TURNED {
        begins(&rt, rt.alloc(), what, given, want);
    }
}
