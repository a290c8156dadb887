// The search, round after round.
ghost use Rattle.std.specs.Prelude.{◌≡◌, ◌≤◌, [], None, IfErr, IfOk};
ghost use Rattle.ring_machine.specs.Common.{least_conflict};
ghost use Rattle.segment_paths.specs.Faults.{IsPathFault};
ghost use Rattle.segment_paths.specs.Paths.{ArePaths, inner_positions};
ghost use Rattle.segment_paths.specs.Seen.{paths_seen};

use crate::fault::PathFault;
use crate::path::SegmentPath;
use crate::round::{fresh_links, play};
use crate::ways::{Ways, room_after};
use grid_geometry::Seg;
use segment_index::SegIndex;
use std::alloc::Allocator;

/// Paths for those of the segments that conflict with others, so that no two links of all paths
/// conflict; a segment without a path is its own link. A position that is put in is an end of one of
/// the segments or the crossing of two of them, rounded to the grid. Fails on allocation failure, where
/// more than `most` positions would be put in, and where two paths still conflict and no position parts
/// them.
///
/// Conflicts are found where the segments ascend, each once, and the index is empty; of others some
/// may be missed.
pub fn find_paths<I: SegIndex, A: Allocator + Copy>(
    alloc: A,
    mut index: I,
    segments: &[Seg],
    most: usize,
) -> Result<Vec<SegmentPath<A>, A>, PathFault>
    ensures paths { IfOk result (λ paths. ArePaths segments.now (paths_seen paths.items)) }
    ensures needed { IfOk result
        (λ paths. least_conflict segments.now ≡ None → paths.items ≡ []) }
    ensures few { IfOk result (λ paths. inner_positions (paths_seen paths.items) ≤ most) }
    ensures fault { IfErr result (IsPathFault segments.now most) }
{
    let mut ways = Ways {
        segments,
        stops: Vec::new(alloc),
        paths: Vec::new(alloc),
        links: Vec::new(alloc),
    };
    let mut room = most;
    let mut round = play(alloc, &mut index, &ways, segments, most)?;
    while let Some((s, t)) = round.conflict {
        let next = ways.with(alloc, round.stops.as_slice())?;
        let Some(left) = room_after(next.paths.as_slice(), most) else {
            return Err(PathFault::TooMany);
        };
        if room <= left {
            return Err(PathFault::Unmended { s, t });
        }
        let fresh = fresh_links(alloc, ways.links.as_slice(), next.links.as_slice())?;
        ways = next;
        room = left;
        round = play(alloc, &mut index, &ways, fresh.as_slice(), most)?;
    }
    let Ways { paths, .. } = ways;
    Ok(paths)
}
