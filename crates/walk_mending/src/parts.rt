// Whether polygons are parts of one with these odd segments.
ghost use Rattle.std.specs.Prelude.{◌≡◌, ◌&&◌, IsTrue, IfOk};
ghost use Rattle.std.specs.List.{flat_map, list_all};
ghost use Rattle.ring_machine.specs.Common.{is_ring};
ghost use Rattle.walk_faults.specs.Common.{walk_segments};
ghost use Rattle.std.specs.List.Sorted.{IsPermutation};
ghost use Rattle.walk_mending.specs.Mended.{rings_of_parts, has_ring};
ghost use Rattle.ring_parts.specs.Common.{polygons_seen};

use crate::segments::push_all;
use crate::simple::are_rings;
use grid_geometry::{Pos, Seg};
use std::alloc::{AllocError, Allocator};

/// Whether each part has a ring, and all of their rings are such, each begun at its least position.
pub(crate) fn all_filled<A: Allocator + Copy>(
    alloc: A,
    parts: &[Vec<Vec<Pos, A>, A>],
) -> Result<bool, AllocError>
    ensures { IfOk result (λ filled. filled
        ≡ list_all (λ part. has_ring part && list_all is_ring part) (polygons_seen parts.now)) }
{
    for part in parts {
        if part.is_empty() || !are_rings(alloc, part.as_slice())? {
            return Ok(false);
        }
    }
    Ok(true)
}

/// Whether the parts have exactly these segments, which ascend, each once.
pub(crate) fn have_exactly<A: Allocator + Copy>(
    alloc: A,
    parts: &[Vec<Vec<Pos, A>, A>],
    odd: &[Seg],
) -> Result<bool, AllocError>
    ensures { IfOk result (λ have. IsTrue have → IsPermutation
        (flat_map walk_segments (rings_of_parts (polygons_seen parts.now))) odd.now) }
{
    let mut segments = Vec::new(alloc);
    for part in parts {
        push_all(&mut segments, part.as_slice())?;
    }
    segments.sort_unstable();
    Ok(segments.as_slice() == odd)
}
