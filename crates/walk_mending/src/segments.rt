// The segments of walks.
ghost use Rattle.std.specs.Prelude.{◌≡◌, ◌++◌, IfOk, OnOk};
ghost use Rattle.std.specs.List.{flat_map};
ghost use Rattle.std.specs.List.Sorted.{IsPermutation, IsSorted};
ghost use Rattle.grid_geometry.specs.Common.{segment_cmp};
ghost use Rattle.walk_faults.specs.Common.{walk_segments};
ghost use Rattle.ring_parts.specs.Common.{rings_seen};

use grid_geometry::{Pos, Seg};
use std::alloc::{AllocError, Allocator};
use walk_faults::push_segments;

/// Appends the segments of walks.
pub(crate) fn push_all<A: Allocator>(
    segments: &mut Vec<Seg, A>,
    walks: &[Vec<Pos, A>],
) -> Result<(), AllocError>
    ensures { OnOk result (segments.new.items
        ≡ segments.old.items ++ flat_map walk_segments (rings_seen walks.now)) }
{
    for walk in walks {
        push_segments(segments, walk.as_slice())?;
    }
    Ok(())
}

/// The segments of walks ascending, as often as they stand there.
pub(crate) fn sorted<A: Allocator + Copy>(
    alloc: A,
    walks: &[Vec<Pos, A>],
) -> Result<Vec<Seg, A>, AllocError>
    ensures ascending { IfOk result (λ found. IsSorted segment_cmp found.items) }
    ensures same { IfOk result (λ found.
        IsPermutation (flat_map walk_segments (rings_seen walks.now)) found.items) }
{
    let mut segments = Vec::new(alloc);
    push_all(&mut segments, walks)?;
    segments.sort_unstable();
    Ok(segments)
}
