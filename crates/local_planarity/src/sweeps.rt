//! What an edit would sweep over.
ghost use Rattle.std.specs.Prelude.{◌≡◌, ◌≢◌, ◌+◌, ◌≤◌, ◌&&◌, ◌||◌, not, List, None, IfOk};
ghost use Rattle.std.specs.List.{list_any};
ghost use Rattle.grid_geometry.specs.Conflict as geometry;
ghost use Rattle.grid_geometry.specs.Common.{is_held, Position, Segment, is_end, segment};
ghost use Rattle.ring_machine.specs.Ring as machine;
ghost use Rattle.segment_index.specs.Common.{times_by};
ghost use Rattle.local_planarity.specs.Edits.{IsEnds, IsHeld};
ghost use Rattle.local_planarity.specs.Tests.{most_given};

use crate::conflicts::ROOM;
use crate::count::TestCount;
use crate::leaving::Leaving;
use crate::pairs::conflicts_with;
use crate::span::{box_of_three, lies_in};
use grid_geometry::{Pos, Seg, held};
use segment_index::{ListIndex, SegIndex};
use std::alloc::{AllocError, Allocator};

/// Whether p is among the positions.
fn has(positions: &[Pos], p: Pos) -> bool
    ensures { result ≡ machine.has positions.now p }
{
    positions.contains(&p)
}

/// Whether w is not among these, and the triangle a, b, c holds it.
fn is_other_held(w: Pos, these: &[Pos], a: Pos, b: Pos, c: Pos) -> bool
    ensures { result ≡ (not (machine.has these.now w) && is_held w a b c) }
{
    !has(these, w) && held(w, a, b, c)
}

/// Whether the triangle a, b, c holds an end of one of the segments that is not among these.
pub fn holds_end(segments: &[Seg], these: &[Pos], a: Pos, b: Pos, c: Pos) -> bool
    ensures { result ≡ list_any (λ t. (not (machine.has these.now t.lo) && is_held t.lo a b c)
        || (not (machine.has these.now t.hi) && is_held t.hi a b c)) segments.now }
{
    let rect = box_of_three(a, b, c);
    for t in segments {
        if lies_in(t.lo, rect) && is_other_held(t.lo, these, a, b, c) {
            return true;
        }
        if lies_in(t.hi, rect) && is_other_held(t.hi, these, a, b, c) {
            return true;
        }
    }
    false
}

/// Whether the triangle a, b, c, be it a line or one position, holds an end of a held segment that is
/// not among these. Fails only on allocation failure.
pub fn holds_other<I: SegIndex, A: Allocator + Copy>(
    alloc: A,
    index: &I,
    these: &[Pos],
    a: Pos,
    b: Pos,
    c: Pos,
) -> Result<bool, AllocError>
    ensures { IfOk result (λ found. (ps : List Position) → IsEnds (I.held index.now) ps
        → found ≡ list_any (λ w. not (machine.has these.now w) && is_held w a b c) ps) }
{
    let mut near = Vec::with_capacity(alloc, ROOM)?;
    index.candidates(box_of_three(a, b, c), &mut near)?;
    Ok(holds_end(near.as_slice(), these, a, b, c))
}

/// Whether the way from p to q conflicts with a segment of the list that does not end at p.
pub fn crosses_on_way<A: Allocator + Copy>(
    near: &ListIndex<A>,
    p: Pos,
    q: Pos,
    tests: &mut TestCount,
) -> bool
    requires { p ≢ q }
    ensures crosses { (ss : List Segment) → IsHeld near.now ss
        → result ≡ list_any (λ t. not (is_end p t) && geometry.conflict (segment p q) t) ss }
    ensures few { (ss : List Segment) → IsHeld near.now ss
        → tests.new ≤ tests.old + most_given (times_by None) ss (segment p q) }
{
    let way = Seg::new(p, q).unwrap();
    conflicts_with(way, near.segments(), &Leaving::EndingAt(p), tests)
}
