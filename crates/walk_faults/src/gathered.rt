// The vertices and the segments of walks, each once.
ghost use Rattle.std.specs.Prelude.{◌≡◌, ◌++◌, map, Contains, IfOk, OnOk};
ghost use Rattle.std.specs.FinSet as set;
ghost use Rattle.std.specs.List.Sorted.{IsStrictlySortedBy};
ghost use Rattle.grid_geometry.specs.Common.{position_cmp, segment_cmp};
ghost use Rattle.walk_faults.specs.Findings.{ListsAll, walk_segments, segment_at, all_positions};
ghost use Rattle.walk_faults.specs.Findings.{segments_of_walks};
ghost use Rattle.walk_faults.specs.Seen.{walk_seen};
ghost use Rattle.walk_faults.specs.Meeting.{AreHeld};

use crate::walks::Walk;
use grid_geometry::{Pos, Seg};
use segment_index::SegIndex;
use std::alloc::{AllocError, Allocator};

/// Appends the segment between two positions, where they differ.
fn push_segment<A: Allocator>(
    segments: &mut Vec<Seg, A>,
    from: Pos,
    to: Pos,
) -> Result<(), AllocError>
    ensures { OnOk result (segments.new.items ≡ segments.old.items ++ segment_at (from, to)) }
{
    if let Some(segment) = Seg::new(from, to) {
        segments.push(segment)?;
    }
    Ok(())
}

/// Appends the segments of a walk: those between neighbours that differ, and between the last position
/// and the first.
pub fn push_segments<A: Allocator>(
    segments: &mut Vec<Seg, A>,
    walk: &[Pos],
) -> Result<(), AllocError>
    ensures { OnOk result (segments.new.items ≡ segments.old.items ++ walk_segments walk.now) }
{
    let [first, rest @ ..] = walk else {
        return Ok(());
    };
    let mut from = *first;
    for to in rest {
        push_segment(segments, from, *to)?;
        from = *to;
    }
    push_segment(segments, from, *first)
}

/// The positions ascending, each once.
pub(crate) fn sort_positions<A: Allocator + Copy>(positions: &mut Vec<Pos, A>)
    ensures { ListsAll position_cmp (Contains positions.old.items) positions.new.items }
{
    positions.sort_unstable();
    positions.dedup();
}

/// Puts the segments in their order, each once.
pub fn sort_segments<A: Allocator + Copy>(segments: &mut Vec<Seg, A>)
    ensures { ListsAll segment_cmp (Contains segments.old.items) segments.new.items }
{
    segments.sort_unstable();
    segments.dedup();
}

/// The vertices of walks, ascending, each once.
pub(crate) fn vertices<A: Allocator + Copy>(
    alloc: A,
    walks: &[Walk<'_>],
) -> Result<Vec<Pos, A>, AllocError>
    ensures { IfOk result (λ found.
        ListsAll position_cmp (Contains (all_positions (map walk_seen walks.now))) found.items) }
{
    let mut found = Vec::new(alloc);
    for walk in walks {
        found.extend_from_slice(walk.positions)?;
    }
    sort_positions(&mut found);
    Ok(found)
}

/// The segments of walks, ascending, each once.
pub(crate) fn segments<A: Allocator + Copy>(
    alloc: A,
    walks: &[Walk<'_>],
) -> Result<Vec<Seg, A>, AllocError>
    ensures { IfOk result (λ found.
        ListsAll segment_cmp (Contains (segments_of_walks (map walk_seen walks.now))) found.items) }
{
    let mut found = Vec::new(alloc);
    for walk in walks {
        push_segments(&mut found, walk.positions)?;
    }
    sort_segments(&mut found);
    Ok(found)
}

/// Puts ascending segments into an index that is empty.
pub(crate) fn fill<I: SegIndex>(index: &mut I, segments: &[Seg]) -> Result<(), AllocError>
    requires empty { I.held index.old ≡ set.empty }
    requires ascending { IsStrictlySortedBy segment_cmp segments.now }
    ensures { OnOk result (AreHeld (I.held index.new) segments.now) }
{
    for segment in segments {
        index.add(*segment)?;
    }
    Ok(())
}
