// The segments that stand an odd number of times.
ghost use Rattle.std.specs.Prelude.{◌≡◌, ◌↔◌, ◌%◌, ◌==◌, IfOk, IsTrue};
ghost use Rattle.std.specs.List.{count_by};
ghost use Rattle.std.specs.List.Sorted.{IsSorted, IsStrictlySortedBy};
ghost use Rattle.grid_geometry.specs.Common.{Segment, segment_cmp, segment_eq};
ghost use Rattle.walk_mending.specs.Odd.{is_among, is_odd_in};
ghost use Rattle.walk_mending.specs.Cancelled.{EndsIn};
ghost use Rattle.ring_parts.specs.Common.{rings_seen};

use crate::segments::sorted;
use grid_geometry::{Pos, Seg};
use std::alloc::{AllocError, Allocator};

/// Whether the last segment is this one.
fn ends_in(kept: &[Seg], segment: Seg) -> bool
    ensures { IsTrue result ↔ EndsIn kept.now segment }
{
    match kept {
        [.., last] => *last == segment,
        [] => false,
    }
}

/// Of ascending segments those that stand an odd number of times, each once.
pub(crate) fn odd_among<A: Allocator + Copy>(
    alloc: A,
    sorted: &[Seg],
) -> Result<Vec<Seg, A>, AllocError>
    requires { IsSorted segment_cmp sorted.now }
    ensures ascending { IfOk result (λ kept. IsStrictlySortedBy segment_cmp kept.items) }
    ensures odd { IfOk result (λ kept. (s : Segment) →
        is_among kept.items s ≡ (count_by (segment_eq s) sorted.now % 2 == 1)) }
{
    let mut kept = Vec::new(alloc);
    for segment in sorted {
        if ends_in(kept.as_slice(), *segment) {
            kept.pop();
        } else {
            kept.push(*segment)?;
        }
    }
    Ok(kept)
}

/// The segments that stand an odd number of times in walks, ascending, each once.
pub(crate) fn odd_segments<A: Allocator + Copy>(
    alloc: A,
    walks: &[Vec<Pos, A>],
) -> Result<Vec<Seg, A>, AllocError>
    ensures ascending { IfOk result (λ odd. IsStrictlySortedBy segment_cmp odd.items) }
    ensures odd { IfOk result (λ odd. (s : Segment) →
        is_among odd.items s ≡ is_odd_in (rings_seen walks.now) s) }
{
    let segments = sorted(alloc, walks)?;
    odd_among(alloc, segments.as_slice())
}
