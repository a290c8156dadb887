//! Edits of squares, over both indexes.
ghost use Rattle.std.specs.Prelude.{◌≡◌, IfOk};
ghost use Rattle.std.specs.FinSet as set;
ghost use Rattle.local_planarity.specs.Edits.{NoneConflict};

use crate::given::{Ends, MEMORY, Place, at, holds, seg};
use grid_geometry::{Rect, Seg};
use local_planarity::{
    Leaving, TestCount, crosses_on_way, fill, first_conflict, first_conflict_near, holds_other,
    near_move,
};
use segment_index::{GridIndex, ListIndex, SegIndex};
use std::alloc::Global;
use std::process::Abort;

/// What goes away in an edit.
#[derive(Clone, Copy)]
enum Gone {
    Nothing,
    EndingAt(Place),
    One(Ends),
}

/// The least pair in conflict, if there is one.
type Pair = Option<(Ends, Ends)>;

/// A way, and whether it crosses a side that does not end where it begins.
type Way = (Place, Place, bool);

/// A triangle, and whether it holds an end that is not its own.
type Triangle = (Place, Place, Place, bool);

/// An edit: its name, what goes, what comes, the least pair in conflict then, and how many tests find
/// it at least.
type Edit = (&'static str, Gone, &'static [Ends], Pair, u64);

const LOWER: Ends = ((0, 0), (10, 0));

const COMMON: Ends = ((10, 0), (10, 10));

/// Over the common side.
const ACROSS: Ends = ((5, 5), (15, 5));

const FALLING: Ends = ((2, 8), (8, 2));

const RISING: Ends = ((2, 2), (8, 8));

const APART: Ends = ((1, 1), (1, 9));

/// The pair of a segment that comes over the common side.
const CROSSED: Pair = Some((ACROSS, COMMON));

/// The pair of two that come inside the first square.
const CROSSING: Pair = Some((RISING, FALLING));

/// The common upper corner of two squares moves to where an edge crosses the lower side of the first.
const MOVE: Edit = (
    "a corner moves",
    Gone::EndingAt((10, 10)),
    &[
        ((0, 10), (10, -5)),
        ((10, 0), (10, -5)),
        ((10, -5), (20, 10)),
    ],
    Some((LOWER, ((0, 10), (10, -5)))),
    3,
);

/// Edits of two squares.
const EDITS: &[Edit] = &[
    MOVE,
    ("all sides are held", Gone::Nothing, &[ACROSS], CROSSED, 1),
    (
        "a side is gone with its end",
        Gone::EndingAt((10, 10)),
        &[ACROSS],
        None,
        0,
    ),
    (
        "another end is gone",
        Gone::EndingAt((20, 10)),
        &[ACROSS],
        CROSSED,
        1,
    ),
    ("a side is gone", Gone::One(COMMON), &[ACROSS], None, 0),
    (
        "what comes is gone",
        Gone::One(ACROSS),
        &[ACROSS],
        CROSSED,
        1,
    ),
    (
        "two cross",
        Gone::Nothing,
        &[FALLING, RISING, APART],
        CROSSING,
        3,
    ),
    (
        "two cross, turned",
        Gone::Nothing,
        &[APART, RISING, FALLING],
        CROSSING,
        3,
    ),
];

/// Ways over two squares, and whether they cross a side that does not end where they begin.
const WAYS: &[Way] = &[
    // inside the first square, onto a side, and through it
    ((0, 0), (5, 5), false),
    ((0, 0), (10, 5), true),
    ((0, 0), (15, 5), true),
    // along the side that ends where it begins, and past its other end
    ((10, 0), (15, 0), false),
    ((10, 0), (25, 0), true),
    // far from all
    ((100, 0), (110, 5), false),
];

/// Triangles over two squares, and whether they hold an end that is not their own.
const TRIANGLES: &[Triangle] = &[
    // 10 10 on a side of the triangle, and on a triangle that is a line
    ((0, 10), (20, 10), (5, 20), true),
    ((0, 10), (20, 10), (15, 10), true),
    // no end but the triangle's own
    ((0, 10), (10, 0), (5, 6), false),
    // 10 0 inside, and just outside
    ((5, 5), (15, 5), (10, -1), true),
    ((5, 5), (15, 5), (10, 1), false),
    // far from all
    ((30, 30), (40, 30), (30, 40), false),
];

/// The segments of a map, one after another: three go through one position. With each the least pair
/// in conflict so far.
const STAR: &[(Ends, Pair)] = &[
    (RISE, None),
    (FALL, Some((RISE, FALL))),
    (LEVEL, Some((RISE, LEVEL))),
];

const RISE: Ends = ((0, 0), (10, 10));

const FALL: Ends = ((0, 10), (10, 0));

const LEVEL: Ends = ((0, 5), (10, 5));

/// These segments.
fn segs<R: Abort>(rt: &R, alloc: Global, sides: &[Ends]) -> Vec<Seg> {
    let mut segments = Vec::new(alloc);
    for side in sides {
        segments.push(seg(rt, *side)).expect(rt, MEMORY);
    }
    segments
}

/// What leaves.
fn leaving<R: Abort>(rt: &R, gone: Gone) -> Leaving {
    match gone {
        Gone::Nothing => Leaving::Nothing,
        Gone::EndingAt(p) => Leaving::EndingAt(at(rt, p)),
        Gone::One(side) => Leaving::One(seg(rt, side)),
    }
}

/// The sides of so many squares in a row, one each so many units.
fn squares<R: Abort>(rt: &R, alloc: Global, count: u8, step: i64) -> Vec<Seg> {
    let mut segments = Vec::new(alloc);
    for k in 0..count {
        let x = i64::from(k).wrapping_mul(step);
        let (y, right) = (0i64, x.wrapping_add(10));
        for side in [
            ((x, 0), (right, 0)),
            ((right, 0), (right, 10)),
            ((right, 10), (x, 10)),
            ((x, 10), (x, 0)),
        ] {
            segments.push(seg(rt, side)).expect(rt, MEMORY);
        }
    }
    segments
}

/// An empty index filled with segments, each once. No two of them conflict.
fn filled<R: Abort, I: SegIndex>(rt: &R, alloc: Global, mut index: I, segments: &[Seg]) -> I
    requires { I.held index ≡ set.empty }
    ensures { NoneConflict (I.held result) }
{
    let mut first = None;
    let mut near = Vec::new(alloc);
    let mut tests = TestCount::new();
    for s in segments {
        fill(&mut index, *s, &mut first, &mut near, &mut tests).expect(rt, MEMORY);
    }
    assert!(rt; first.is_none());
    index
}

/// A grid with the sides of squares in a row, whose greatest corner is at this x.
fn grid<R: Abort>(rt: &R, alloc: Global, count: u8, step: i64, most: i64) -> GridIndex
    ensures { NoneConflict (⟦<GridIndex as SegIndex>⟧.held result) }
{
    let extent = Rect::new(0, 0, most, 10).expect(rt, "a box");
    let segments = squares(rt, alloc, count, step);
    let index = GridIndex::new(alloc, Some(extent)).expect(rt, MEMORY);
    filled(rt, alloc, index, segments.as_slice())
}

/// A list with the sides of two squares.
fn list<R: Abort>(rt: &R, alloc: Global) -> ListIndex
    ensures { NoneConflict (⟦<ListIndex as SegIndex>⟧.held result) }
{
    let segments = squares(rt, alloc, 2, 10);
    filled(rt, alloc, ListIndex::new(alloc), segments.as_slice())
}

/// A pair of segments.
fn pair<R: Abort>(rt: &R, sides: Pair) -> Option<(Seg, Seg)> {
    match sides {
        Some((s, t)) => Some((seg(rt, s), seg(rt, t))),
        None => None,
    }
}

/// Whether the edit has the least pair that it is to have.
fn has_least<R: Abort, I: SegIndex>(rt: &R, alloc: Global, index: &I, edit: &Edit) -> bool
    requires { NoneConflict (I.held index.now) }
{
    let (_, gone, _, pair_then, least) = edit;
    let added = segs(rt, alloc, edit.2);
    let mut tests = TestCount::new();
    let gone = leaving(rt, *gone);
    let first = first_conflict(alloc, index, gone, added.as_slice(), &mut tests);
    first.expect(rt, MEMORY) == pair(rt, *pair_then) && tests.count() >= *least
}

/// Whether the way crosses what it is to cross.
fn is_way<R: Abort, I: SegIndex>(rt: &R, alloc: Global, index: &I, way: &Way) -> bool {
    let (from, to) = (at(rt, way.0), at(rt, way.1));
    assert!(rt; from != to);
    let mut tests = TestCount::new();
    let near = near_move(alloc, index, from, to, &[]).expect(rt, MEMORY);
    let found = crosses_on_way(&near, from, to, &mut tests);
    found == way.2 && (!found || tests.count() > 0)
}

/// Whether the triangle holds an end, if it is to hold one.
fn is_holding<R: Abort, I: SegIndex>(rt: &R, alloc: Global, index: &I, row: &Triangle) -> bool {
    let these = [at(rt, row.0), at(rt, row.1), at(rt, row.2)];
    let found = holds_other(alloc, index, &these, these[0], these[1], these[2]);
    found.expect(rt, MEMORY) == row.3
}

/// Puts a segment into an index, which is its least pair then.
fn put<R: Abort, I: SegIndex>(
    rt: &R,
    alloc: Global,
    index: &mut I,
    (side, expected): &(Ends, Pair),
    first: &mut Option<(Seg, Seg)>,
    tests: &mut TestCount,
) {
    let mut near = Vec::new(alloc);
    fill(index, seg(rt, *side), first, &mut near, tests).expect(rt, MEMORY);
    assert!(rt; *first == pair(rt, *expected));
}

/// Opens a map of three segments, one of which comes twice: that takes no test.
fn open_crossing<R: Abort, I: SegIndex>(rt: &R, alloc: Global, index: &mut I) {
    let (mut first, mut tests) = (None, TestCount::new());
    for row in STAR {
        put(rt, alloc, index, row, &mut first, &mut tests);
    }
    let tested = tests.count();
    let again = (FALL, Some((RISE, LEVEL)));
    put(rt, alloc, index, &again, &mut first, &mut tests);
    assert!(rt; tested >= 3 && tests.count() == tested);
}

#[test]
fn the_first_pair_of_a_map_is_kept(rt: HostRuntime) {
    let alloc = rt.alloc();
    open_crossing(&rt, alloc, &mut ListIndex::new(alloc));
    let extent = Rect::new(0, 0, 1, 1).expect(&rt, "a box");
    let mut grid = GridIndex::new(alloc, Some(extent)).expect(&rt, MEMORY);
    open_crossing(&rt, alloc, &mut grid);
}

/// The least pair of each edit comes first, what leaves is in none, a way crosses what does not end at
/// it, and a triangle holds the ends on its border.
fn see_squares<R: Abort, I: SegIndex>(rt: &R, alloc: Global, index: &I)
    requires { NoneConflict (I.held index.now) }
{
    for edit in EDITS {
        assert!(rt; has_least(rt, alloc, index, edit), "{}", edit.0);
    }
    for way in WAYS {
        assert!(rt; is_way(rt, alloc, index, way), "to {} {}", way.1.0, way.1.1);
    }
    for row in TRIANGLES {
        assert!(rt; is_holding(rt, alloc, index, row), "under {} {}", row.2.0, row.2.1);
    }
}

/// The edit has the same pair by the list of all segments alone.
fn see_listed<R: Abort>(rt: &R, alloc: Global, index: &ListIndex, edit: &Edit)
    requires { NoneConflict index.now }
{
    let (what, gone, added, pair_then, least) = edit;
    let mut tests = TestCount::new();
    let added = segs(rt, alloc, added);
    let first = first_conflict_near(index, leaving(rt, *gone), added.as_slice(), &mut tests);
    holds(
        rt,
        *what,
        first == pair(rt, *pair_then) && tests.count() >= *least,
    );
}

#[test]
fn two_squares_in_a_list(rt: HostRuntime) {
    let index = list(&rt, rt.alloc());
    see_squares(&rt, rt.alloc(), &index);
    for edit in EDITS {
        see_listed(&rt, rt.alloc(), &index, edit);
    }
}

#[test]
fn two_squares_in_a_grid(rt: HostRuntime) {
    see_squares(&rt, rt.alloc(), &grid(&rt, rt.alloc(), 2, 10, 20));
}

/// A corner of the first of 64 squares moves, of which one is near.
fn move_in_row<R: Abort>(rt: &R, alloc: Global, index: &GridIndex)
    requires { NoneConflict (⟦<GridIndex as SegIndex>⟧.held index.now) }
{
    let added = [seg(rt, ((10, 0), (9, 9))), seg(rt, ((9, 9), (0, 10)))];
    let (from, to) = (at(rt, (10, 10)), at(rt, (9, 9)));
    assert!(rt; from != to);
    let mut tests = TestCount::new();
    let leaving = Leaving::EndingAt(from);
    let first = first_conflict(alloc, index, leaving, &added, &mut tests).expect(rt, MEMORY);
    assert!(rt; first.is_none() && 1 <= tests.count() && tests.count() <= 28);
    let near = near_move(alloc, index, from, to, &added).expect(rt, MEMORY);
    let crosses = crosses_on_way(&near, from, to, &mut tests);
    assert!(rt; !crosses && 1 <= tests.count() && tests.count() <= 33);
}

// a row of 256 segments
#[test]
fn a_move_in_a_long_row_takes_few_tests(rt: HostRuntime) {
    move_in_row(&rt, rt.alloc(), &grid(&rt, rt.alloc(), 64, 100, 6310));
}
