//! Lines whose allocations are refused in turn, copies, and what a map tells.
use crate::answers::Wanted;
use crate::edited::ROW;
use crate::jobs::{Came, Job, on_editor};
use crate::maps::{ACROSS, INSIDE, SQUARES, THREE};
use crate::refused::{Row, first_wrong};
use std::alloc::Global;
use test_aids::TWO_SQUARES;

/// Of vertices, cuts, merges, features and questions. Of the thinning, five vertices of a border are left
/// out; its undo puts back all of them or none. The cut goes past the hole, from corner to corner. An id
/// needs memory, and the one before it none.
const AT_SQUARES: &[Row] = &[
    ("move 10 0 11 1", Wanted::Done, [4, 0, 1]),
    ("insert 10 0 20 0 15 1", Wanted::Done, [4, 0, 1]),
    ("remove 10 5", Wanted::Done, [3, 0, 1]),
    ("thin 0", Wanted::Thinned(5), [4, 4, 4]),
    ("split 0 \"new\" 0 0 3 7 10 10", Wanted::Made(5), [4, 0, 4]),
    (
        "split 1 \"new\" 10 5 15 6 20 10",
        Wanted::Made(5),
        [4, 0, 4],
    ),
    (
        "split 0 \"new\" 0 0 -5 5 0 10",
        Wanted::Refused("wrong side"),
        [4, 0, 0],
    ),
    (
        "split 4 \"new\" 0 0 3 7 10 10",
        Wanted::Refused("no collection"),
        [1, 0, 0],
    ),
    ("merge 0 1", Wanted::Done, [4, 0, 4]),
    ("merge 1 0", Wanted::Done, [4, 0, 4]),
    ("merge 3 0", Wanted::Done, [4, 0, 4]),
    ("merge 1 2", Wanted::Refused("not one polygon"), [1, 0, 0]),
    ("merge 1 4", Wanted::Refused("not neighbours"), [1, 0, 0]),
    ("delete 0", Wanted::Done, [4, 0, 4]),
    ("delete 1", Wanted::Done, [4, 0, 4]),
    ("delete 3", Wanted::Done, [4, 0, 4]),
    ("delete 4", Wanted::Done, [4, 0, 4]),
    ("rename 0 \"C\\n\"", Wanted::Done, [1, 0, 0]),
    ("rename 1 \"Z\"", Wanted::Done, [1, 0, 0]),
    ("rename 2 \"D\"", Wanted::Done, [1, 0, 0]),
    ("rename 3 \"Z\"", Wanted::Done, [1, 0, 0]),
    ("area 0", Wanted::Area(192), [0, 0, 0]),
    ("at 2 2", Wanted::At(&[0], &[]), [1, 0, 0]),
    ("at 10 5", Wanted::At(&[], &[0, 1]), [1, 0, 0]),
    ("neighbours 0", Wanted::Neighbours(&[1, 3]), [1, 0, 0]),
    ("neighbours 9", Wanted::Refused("no feature"), [0, 0, 0]),
];

/// At a junction of three borders.
const AT_A_JUNCTION: &[Row] = &[
    ("move 10 0 12 2", Wanted::Done, [4, 0, 1]),
    ("insert 10 0 10 5 12 2", Wanted::Done, [4, 0, 1]),
    ("remove 10 5", Wanted::Done, [4, 0, 1]),
    ("thin 0", Wanted::Thinned(1), [4, 0, 1]),
];

/// Of a thinning one corner of each square is left out; before that none may be by then, or one.
const AT_CORNERS: &[Row] = &[
    ("thin 99", Wanted::Thinned(0), [1, 0, 0]),
    ("thin 100", Wanted::Thinned(2), [1, 1, 1]),
    (
        "move 10 10 10 -5",
        Wanted::Conflict([0, 0, 10, 0], [0, 10, 10, -5]),
        [1, 0, 0],
    ),
    (
        "split 0 \"new\" 0 0 15 5 10 10",
        Wanted::Conflict([0, 0, 15, 5], [10, 0, 10, 10]),
        [1, 0, 0],
    ),
];

/// Edits that would sweep over a corner of a triangle, or bring its side into conflict.
const IN_A_SQUARE: &[Row] = &[
    ("move 0 0 9 20", Wanted::Refused("sweeps"), [1, 0, 0]),
    (
        "insert 0 0 0 30 10 12",
        Wanted::Refused("sweeps"),
        [1, 0, 0],
    ),
    ("remove 0 0", Wanted::Refused("sweeps"), [1, 0, 0]),
    ("remove 3 8", Wanted::Refused("ring short"), [0, 0, 0]),
    (
        "insert 0 30 0 0 4 9",
        Wanted::Conflict([0, 0, 4, 9], [3, 8, 5, 8]),
        [1, 0, 0],
    ),
];

/// The new side would cross one of a triangle.
const ACROSS_A_SIDE: &[Row] = &[(
    "remove 0 0",
    Wanted::Conflict([0, 30, 30, 0], [10, 12, 20, 20]),
    [1, 0, 0],
)];

/// A history of one edit of each kind that changes two squares.
const EACH_KIND: &[Row] = &[
    ("move 0 0 1 1", Wanted::Done, [1, 0, 21]),
    ("insert 10 0 20 0 15 0", Wanted::Done, [0, 0, 0]),
    ("thin 0", Wanted::Thinned(1), [0, 0, 0]),
    ("split 0 \"new\" 1 1 10 10", Wanted::Made(2), [0, 0, 0]),
    ("rename 1 \"Z\"", Wanted::Done, [0, 0, 0]),
    ("merge 0 2", Wanted::Done, [0, 0, 0]),
    ("remove 1 1", Wanted::Done, [0, 0, 0]),
    ("delete 1", Wanted::Done, [0, 0, 0]),
];

/// Of a map whose copy is made after the first edit, and edited by the second.
const OF_A_COPY: &[Row] = &[
    ("move 10 0 11 1", Wanted::Done, [11, 0, 0]),
    ("remove 10 5", Wanted::Done, [0, 0, 0]),
];

/// Whether no line of these is answered otherwise than it should be, each made alone.
fn hold(alloc: Global, text: &'static str, rows: &'static [Row]) -> Option<&'static str> {
    first_wrong(alloc, text, rows, 1, Job::Lines)
}

#[test]
fn lines_at_squares(rt: HostRuntime) {
    assert_eq!(rt; hold(rt.alloc(), SQUARES, AT_SQUARES), None);
}

#[test]
fn lines_at_junctions_and_corners(rt: HostRuntime) {
    assert_eq!(rt; hold(rt.alloc(), THREE, AT_A_JUNCTION), None);
    assert_eq!(rt; hold(rt.alloc(), TWO_SQUARES, AT_CORNERS), None);
}

#[test]
fn lines_that_would_sweep(rt: HostRuntime) {
    assert_eq!(rt; hold(rt.alloc(), INSIDE, IN_A_SQUARE), None);
    assert_eq!(rt; hold(rt.alloc(), ACROSS, ACROSS_A_SIDE), None);
}

#[test]
fn one_edit_of_each_kind(rt: HostRuntime) {
    let wrong = first_wrong(rt.alloc(), TWO_SQUARES, EACH_KIND, 8, Job::Lines);
    assert_eq!(rt; wrong, None);
}

#[test]
fn a_copy_stands_for_itself(rt: HostRuntime) {
    let wrong = first_wrong(rt.alloc(), SQUARES, OF_A_COPY, 2, Job::Copies);
    assert_eq!(rt; wrong, None);
}

/// Whether a job goes well where no allocation is refused.
fn goes_well(alloc: Global, text: &'static str, job: Job) -> bool {
    let (came, _) = on_editor(alloc, text, 0, job, &mut Vec::new(alloc));
    matches!(came, Came::Done(Some(_)))
}

#[test]
fn few_pairs_are_tested(rt: HostRuntime) {
    assert!(rt; goes_well(rt.alloc(), ROW, Job::MoveACorner));
}

#[test]
fn what_two_squares_tell(rt: HostRuntime) {
    assert!(rt;
        goes_well(rt.alloc(), TWO_SQUARES, Job::SeeSquares),
        "counts"
    );
    assert!(rt;
        goes_well(rt.alloc(), TWO_SQUARES, Job::GiveAnId),
        "an id is escaped"
    );
}
