//! What a move asks of an index, once, and what it would sweep over.
ghost use Rattle.std.specs.Prelude.{◌≡◌, ◌≢◌, ◌≤◌, ◌+◌, ◌∷◌, ◌||◌, List, None, map, IfOk, OnOk};
ghost use Rattle.std.specs.List.{list_any};
ghost use Rattle.grid_geometry.specs.Common.{Segment, box_of, segment};
ghost use Rattle.ring_machine.specs.Common.{Document, all_segments, positions, edge_sweeps};
ghost use Rattle.ring_machine.specs.Common.{crosses_on_way};
ghost use Rattle.segment_index.specs.Common.{SegmentSet, times_by, LieIn};
ghost use Rattle.local_planarity.specs.Edits.{IsEnds, IsHeld};
ghost use Rattle.local_planarity.specs.NearMove.{HasNearMove};
ghost use Rattle.local_planarity.specs.Tests.{most_given};

use crate::count::TestCount;
use crate::sweeps::{crosses_on_way, holds_end};
use grid_geometry::{Pos, Rect, Seg};
use segment_index::{ListIndex, SegIndex, widen};
use std::alloc::{AllocError, Allocator};

/// A box that has a way, and segments.
fn reach(way: Seg, segments: &[Seg]) -> Rect
    ensures { LieIn result (way ∷ segments.now) }
{
    let mut rect = way.rect();
    for s in segments {
        widen(&mut rect, s.rect());
    }
    rect
}

/// The segments near a move from p to q after which these come, so that the index is asked once. Fails
/// only on allocation failure.
pub fn near_move<I: SegIndex, A: Allocator + Copy>(
    alloc: A,
    index: &I,
    p: Pos,
    q: Pos,
    after: &[Seg],
) -> Result<ListIndex<A>, AllocError>
    requires { p ≢ q }
    ensures near { IfOk result (λ near. HasNearMove (I.held index.now) p q after.now near) }
    ensures no_less { OnOk result ((s t : Segment)
        → times_by None t (box_of s) ≤ times_by (I.cells index.now) t (box_of s)) }
{
    let way = Seg::new(p, q).unwrap();
    ListIndex::near(alloc, index, reach(way, after))
}

/// Whether the edge to one of these sweeps over a position when p moves to q, or p itself passes
/// over a segment, as the segments near the move tell.
pub fn move_sweeps<A: Allocator + Copy>(
    near: &ListIndex<A>,
    around: &[Pos],
    p: Pos,
    q: Pos,
    tests: &mut TestCount,
) -> bool
    requires { p ≢ q }
    ensures sweeps { (d : Document) (held : SegmentSet)
        → HasNearMove held p q (map (λ x. segment x q) around.now) near.now
        → IsEnds held (positions d) → IsHeld held (all_segments d)
        → result ≡ (list_any (edge_sweeps d p q) around.now || crosses_on_way d p q) }
    ensures few { (ss : List Segment) → IsHeld near.now ss
        → tests.new ≤ tests.old + most_given (times_by None) ss (segment p q) }
{
    for a in around {
        if holds_end(near.segments(), &[*a, p], *a, p, q) {
            return true;
        }
    }
    crosses_on_way(near, p, q, tests)
}
