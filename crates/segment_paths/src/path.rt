// The path of a segment.
ghost use Rattle.std.specs.Prelude.{◌≡◌};
ghost use Rattle.std.specs.List.Sorted.{IsStrictlySortedBy};
ghost use Rattle.grid_geometry.specs.Common.{segment_cmp};
ghost use Rattle.segment_paths.specs.Paths.{inner_of, segments_with_path};
ghost use Rattle.segment_paths.specs.Seen.{paths_seen};

use grid_geometry::{Pos, Seg};
use std::alloc::{Allocator, Global};

/// The path of a segment in a mended map: the positions between its ends, from the lesser end on.
/// Each is within half a unit of the segment in x and in y, and further along it than the one
/// before.
#[derive(Drop)]
pub struct SegmentPath<A: Allocator + Copy = Global> {
    /// The segment.
    pub segment: Seg,
    /// The positions between its ends.
    pub inner: Vec<Pos, A>,
}

/// The positions between the ends of a segment on its path; none where it has none. The paths ascend
/// by their segments.
pub fn positions_between<A: Allocator + Copy>(paths: &[SegmentPath<A>], lo: Pos, hi: Pos) -> &[Pos]
    ensures { IsStrictlySortedBy segment_cmp (segments_with_path (paths_seen paths.now))
        → result.now ≡ inner_of (paths_seen paths.now) (record { lo = lo; hi = hi }) }
{
    match paths.binary_search_by_key(&(lo, hi), |path| (path.segment.lo, path.segment.hi)) {
        Ok(place) => paths[place].inner.as_slice(),
        Err(_) => &[],
    }
}
