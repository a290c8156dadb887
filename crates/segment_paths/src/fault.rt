// Why there are no paths.
use grid_geometry::Seg;
use std::alloc::AllocError;

/// Why there are no paths.
#[derive(Clone, Copy, Debug, PartialEq, Eq)]
pub enum PathFault {
    /// More positions would be put in than may be.
    TooMany,
    /// The paths of two segments still conflict, and no position could be put in.
    Unmended {
        /// One of the segments.
        s: Seg,
        /// The other segment.
        t: Seg,
    },
    /// Memory was refused.
    OutOfMemory,
}

impl From<AllocError> for PathFault {
    ghost use Rattle.std.specs.Prelude.{◌≡◌};
    ghost use Rattle.segment_paths.specs.declared.fault.PathFault.TheVariants.{OutOfMemory};

    ghost from_gives = { λ _ e. e ≡ OutOfMemory };

    fn from(_e: AllocError) -> PathFault {
        PathFault::OutOfMemory
    }
}
