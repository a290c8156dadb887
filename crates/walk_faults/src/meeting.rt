// The vertices on segments, and the segments that cross.
ghost use Rattle.std.specs.Prelude.{◌≡◌, ◌<◌, ◌≤◌, ◌+◌, ◌++◌, ◌&&◌, List, map, length};
ghost use Rattle.std.specs.Prelude.{IfOk, IfErr, OnOk};
ghost use Rattle.grid_geometry.specs.Conflict as geometry;
ghost use Rattle.grid_geometry.specs.Common.{Segment, segment_lt};
ghost use Rattle.walk_faults.specs.Findings.{OnlyIfMany, touch_at, crossing_at};
ghost use Rattle.walk_faults.specs.Meeting.{AreHeld, touches_among, crossings_among};

use crate::findings::{Crossing, FindFault, Touch, push_at_most};
use crate::gathered::sort_segments;
use grid_geometry::{Pos, Rect, Seg, cross, on};
use segment_index::SegIndex;
use std::alloc::Allocator;

/// The box of one position.
fn box_at(p: Pos) -> Rect
    ensures { result ≡ record { x0 = p.x; y0 = p.y; x1 = p.x; y1 = p.y } }
{
    Rect {
        x0: p.x(),
        y0: p.y(),
        x1: p.x(),
        y1: p.y(),
    }
}

/// Whether the position is on the segment and is none of its ends.
#[tactic(auto, unfolding(grid_geometry::specs::Conflict::is_within))]
fn within(p: Pos, s: Seg) -> bool
    ensures { result ≡ geometry.is_within p s }
{
    on(p, s) && !(p == s.lo || p == s.hi)
}

/// Whether the segment t is after s and crosses it.
fn crosses_after(s: Seg, t: Seg) -> bool
    ensures { result ≡ (segment_lt s t && geometry.cross s t) }
{
    s < t && cross(s, t)
}

/// Appends a vertex with each of the segments.
fn push_touches<A: Allocator + Copy>(
    out: &mut Vec<Touch, A>,
    pos: Pos,
    segments: &[Seg],
    most: usize,
) -> Result<(), FindFault>
    ensures pushed { OnOk result
        (out.new.items ≡ out.old.items ++ map (touch_at pos) segments.now) }
    ensures few { length out.old.items ≤ most → OnOk result (length out.new.items ≤ most) }
    ensures fault { IfErr result (OnlyIfMany (most < length out.old.items + length segments.now)) }
{
    for segment in segments {
        let touch = Touch {
            pos,
            segment: *segment,
        };
        push_at_most(out, touch, most)?;
    }
    Ok(())
}

/// Appends a segment with each of the others.
fn push_crossings<A: Allocator + Copy>(
    out: &mut Vec<Crossing, A>,
    first: Seg,
    others: &[Seg],
    most: usize,
) -> Result<(), FindFault>
    ensures pushed { OnOk result
        (out.new.items ≡ out.old.items ++ map (crossing_at first) others.now) }
    ensures few { length out.old.items ≤ most → OnOk result (length out.new.items ≤ most) }
    ensures fault { IfErr result (OnlyIfMany (most < length out.old.items + length others.now)) }
{
    for second in others {
        let crossing = Crossing {
            first,
            second: *second,
        };
        push_at_most(out, crossing, most)?;
    }
    Ok(())
}

/// Each of the vertices that lies on a held segment and is no end of it, with the segment.
pub(crate) fn touches<I: SegIndex, A: Allocator + Copy>(
    alloc: A,
    index: &I,
    vertices: &[Pos],
    most: usize,
) -> Result<Vec<Touch, A>, FindFault>
    ensures found { IfOk result (λ found. (ss : List Segment) → AreHeld (I.held index.now) ss
        → found.items ≡ touches_among vertices.now ss) }
    ensures few { IfOk result (λ found. length found.items ≤ most) }
    ensures fault { IfErr result (λ fault. (ss : List Segment) → AreHeld (I.held index.now) ss
        → OnlyIfMany (most < length (touches_among vertices.now ss)) fault) }
{
    let mut found = Vec::new(alloc);
    for p in vertices {
        let mut near = Vec::new(alloc);
        index.candidates(box_at(*p), &mut near)?;
        near.retain(|t| within(*p, *t));
        sort_segments(&mut near);
        push_touches(&mut found, *p, near.as_slice(), most)?;
    }
    Ok(found)
}

/// The pairs of held segments that cross; these are all held segments, ascending.
pub(crate) fn crossings<I: SegIndex, A: Allocator + Copy>(
    alloc: A,
    index: &I,
    segments: &[Seg],
    most: usize,
) -> Result<Vec<Crossing, A>, FindFault>
    requires { AreHeld (I.held index.now) segments.now }
    ensures found { IfOk result (λ found. found.items ≡ crossings_among segments.now segments.now) }
    ensures few { IfOk result (λ found. length found.items ≤ most) }
    ensures fault { IfErr result
        (OnlyIfMany (most < length (crossings_among segments.now segments.now))) }
{
    let mut found = Vec::new(alloc);
    for s in segments {
        let mut near = Vec::new(alloc);
        index.candidates(s.rect(), &mut near)?;
        near.retain(|t| crosses_after(*s, *t));
        sort_segments(&mut near);
        push_crossings(&mut found, *s, near.as_slice(), most)?;
    }
    Ok(found)
}
