// The segments that bound something in a map.
ghost use Rattle.std.specs.Prelude.{◌≡◌, ◌||◌, IsTrue, IfOk, OnOk};
ghost use Rattle.std.specs.List.{list_any};
ghost use Rattle.grid_geometry.specs.Common.{Segment, segment_cmp};
ghost use Rattle.walk_faults.specs.Common.{ListsAll, features_seen};
ghost use Rattle.walk_mending.specs.Odd.{is_among, is_bounding, is_bounding_in};
ghost use Rattle.ring_parts.specs.Common.{rings_seen, polygons_seen};

use crate::odd::odd_among;
use crate::segments::sorted;
use crate::simple::all_simple;
use grid_geometry::{Pos, Seg};
use std::alloc::{AllocError, Allocator};
use walk_faults::sort_segments;

/// The segments that bound in a polygon.
fn bounding_in<A: Allocator + Copy>(
    alloc: A,
    walks: &[Vec<Pos, A>],
) -> Result<Vec<Seg, A>, AllocError>
    ensures { IfOk result (λ found. (s : Segment) →
        is_among found.items s ≡ is_bounding (rings_seen walks.now) s) }
{
    let segments = sorted(alloc, walks)?;
    if all_simple(alloc, walks)? {
        Ok(segments)
    } else {
        odd_among(alloc, segments.as_slice())
    }
}

/// Appends the segments that bound in the polygons of a feature.
fn push_bounding<A: Allocator + Copy>(
    alloc: A,
    found: &mut Vec<Seg, A>,
    polygons: &[Vec<Vec<Pos, A>, A>],
) -> Result<(), AllocError>
    ensures { OnOk result ((s : Segment) → is_among found.new.items s
        ≡ (is_among found.old.items s
        || list_any (λ walks. is_bounding walks s) (polygons_seen polygons.now))) }
{
    for walks in polygons {
        let more = bounding_in(alloc, walks.as_slice())?;
        found.extend_from_slice(more.as_slice())?;
    }
    Ok(())
}

/// The segments that bound something in a map, ascending, each once. The map is given by feature,
/// polygon and ring. In a polygon whose walks are all rings each segment bounds, in any other one those
/// that stand an odd number of times in its walks. Fails only on allocation failure.
pub fn bounding_segments<A: Allocator + Copy>(
    alloc: A,
    polygons: &[Vec<Vec<Vec<Pos, A>, A>, A>],
) -> Result<Vec<Seg, A>, AllocError>
    ensures { IfOk result (λ found. ListsAll segment_cmp
        (λ s. IsTrue (is_bounding_in (features_seen polygons.now) s)) found.items) }
{
    let mut found = Vec::new(alloc);
    for feature in polygons {
        push_bounding(alloc, &mut found, feature.as_slice())?;
    }
    sort_segments(&mut found);
    Ok(found)
}
