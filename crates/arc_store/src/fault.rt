use grid_geometry::{Pos, Seg};
use std::alloc::AllocError;
use thiserror::Error;

/// Why no map was built.
#[derive(Clone, Copy, Debug, PartialEq, Eq, Error)]
pub enum BuildFault {
    /// Two segments are in conflict: the least such pair, s the lesser one.
    #[error("conflict {s} / {t}")]
    Conflict { s: Seg, t: Seg },
    /// There was no memory.
    #[error("out of memory")]
    OutOfMemory,
}

impl From<AllocError> for BuildFault {
    ghost use Rattle.std.specs.Prelude.{◌≡◌};
    ghost use Rattle.arc_store.specs.declared.fault.BuildFault.TheVariants.{OutOfMemory};

    ghost from_gives = { λ _ e. e ≡ OutOfMemory };

    fn from(_e: AllocError) -> BuildFault {
        BuildFault::OutOfMemory
    }
}

/// Why an edit was refused.
#[derive(Clone, Copy, Debug, PartialEq, Eq)]
pub enum EditFault {
    /// No feature has the number.
    NoFeature,
    /// The feature is itself the geometry of a layer, so that no other one can stand beside it.
    NoCollection,
    /// No polygon of the feature has both ends of the path on its outer ring and neither on a hole.
    NotOnOuterRing,
    /// The path has a position twice.
    RepeatedPoint,
    /// No ring has the position.
    NoVertex,
    /// The two positions are not the ends of a segment.
    NoSegment,
    /// A ring has the new position already.
    Occupied,
    /// The position has different neighbours at two of its places.
    Junction,
    /// A ring with the position has only three positions.
    RingShort,
    /// The neighbours of the position are the ends of a segment already.
    SegmentExists,
    /// There would be more than 4,000,000 positions, each ring counted for itself.
    TooLarge,
    /// Two segments would be in conflict: the least such pair, s the lesser one.
    Conflict { s: Seg, t: Seg },
    /// The signed areas of the two parts of the cut polygon do not both have the sign of its own.
    WrongSide,
    /// A feature cannot be merged with itself.
    SameFeature,
    /// One of the two features does not have exactly one polygon.
    NotOnePolygon,
    /// The outer rings of the two features have no segment in common.
    NotNeighbours,
    /// The segments that the outer rings have in common form so many runs, more than one.
    Runs { n: usize },
    /// The outer rings have this position in common beside their run, the least such position.
    CommonElse { pos: Pos },
    /// The areas of both features lie on the same side of their run.
    SameSide,
    /// A triangle that an edge would pass over holds another position, or the way of the moved vertex
    /// conflicts with a segment.
    Sweeps,
    /// There was no memory. Nothing was changed but the count of tests.
    OutOfMemory,
}

impl From<AllocError> for EditFault {
    ghost use Rattle.std.specs.Prelude.{◌≡◌};
    ghost use Rattle.arc_store.specs.declared.fault.EditFault.TheVariants.{OutOfMemory};

    ghost from_gives = { λ _ e. e ≡ OutOfMemory };

    fn from(_e: AllocError) -> EditFault {
        EditFault::OutOfMemory
    }
}
