// Positions that segments are led over.
ghost use Rattle.std.specs.Prelude.{List, OnOk};
ghost use Rattle.std.specs.List.{All};
ghost use Rattle.grid_geometry.specs.Common.{Segment};
ghost use Rattle.segment_paths.specs.Paths.{PathOfSegment, IsKnown};
ghost use Rattle.segment_paths.specs.Stops.{IsStop, IsPiece};

use crate::link::{Piece, comes_between};
use crate::{along, is_near};
use grid_geometry::{Pos, Seg};
use std::alloc::{AllocError, Allocator};

/// A position that a segment is led over. Stops are ordered by segments, and those of a segment by
/// where they stand along it.
#[derive(Clone, Copy, PartialEq, Eq, PartialOrd, Ord)]
pub(crate) struct Stop {
    pub(crate) segment: Seg,
    pub(crate) along: i128,
    pub(crate) pos: Pos,
}

/// Leads the path of a piece over a position that is near the segment and comes between the ends of
/// the link; tells whether it is such.
pub(crate) fn push_stop<A: Allocator + Copy>(
    stops: &mut Vec<Stop, A>,
    piece: &Piece,
    pos: Pos,
) -> Result<bool, AllocError>
    ensures { OnOk result ((ss : List Segment) (paths : List PathOfSegment)
        → All (IsStop ss) stops.old.items → IsPiece ss paths piece.now → IsKnown ss pos
        → All (IsStop ss) stops.new.items) }
{
    let segment = piece.owner;
    if !comes_between(piece, pos) || !is_near(pos, segment) {
        return Ok(false);
    }
    let along = along(segment, pos);
    stops.push(Stop {
        segment,
        along,
        pos,
    })?;
    Ok(true)
}

/// Sorts stops, and keeps of equal ones one.
pub(crate) fn sort_stops<A: Allocator + Copy>(stops: &mut Vec<Stop, A>)
    ensures { (ss : List Segment) → All (IsStop ss) stops.old.items
        → All (IsStop ss) stops.new.items }
{
    stops.sort_unstable();
    stops.dedup();
}
