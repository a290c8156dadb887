// Why a map is not mended.
use grid_geometry::Seg;
use segment_paths::PathFault;
use std::alloc::{AllocError, AllocFailed};

/// Why a map is not mended.
#[derive(Clone, Copy, Debug, PartialEq, Eq)]
pub enum MendFault {
    /// The mended map, or what its paths put in, would have more than 4,000,000 positions.
    TooLarge,
    /// These two segments still conflict along their paths, and no position parts them.
    Unmended {
        /// One of the two.
        s: Seg,
        /// The other one.
        t: Seg,
    },
    /// The polygon bounds something, and was not taken apart into rings.
    Unparted {
        /// The number of the feature, from 0 in the order of the map.
        feature: usize,
        /// The number of the polygon in the feature, from 0.
        polygon: usize,
    },
    /// Memory was refused.
    OutOfMemory,
}

impl From<AllocError> for MendFault {
    ghost use Rattle.std.specs.Prelude.{◌≡◌};
    ghost use Rattle.map_mending.specs.declared.fault.MendFault.TheVariants.{OutOfMemory};

    ghost from_gives = { λ _ e. e ≡ OutOfMemory };

    fn from(_e: AllocError) -> MendFault {
        MendFault::OutOfMemory
    }
}

impl<T: Drop> From<AllocFailed<T>> for MendFault {
    ghost use Rattle.std.specs.Prelude.{◌≡◌};
    ghost use Rattle.map_mending.specs.declared.fault.MendFault.TheVariants.{OutOfMemory};

    ghost from_gives = { λ _ e. e ≡ OutOfMemory };

    fn from(_e: AllocFailed<T>) -> MendFault {
        MendFault::OutOfMemory
    }
}

impl From<PathFault> for MendFault {
    ghost use Rattle.std.specs.Prelude.{◌≡◌};
    ghost use Rattle.map_mending.specs.Faults.{without_paths};

    ghost from_gives = { λ fault e. e ≡ without_paths fault };

    fn from(fault: PathFault) -> MendFault {
        match fault {
            PathFault::TooMany => MendFault::TooLarge,
            PathFault::Unmended { s, t } => MendFault::Unmended { s, t },
            PathFault::OutOfMemory => MendFault::OutOfMemory,
        }
    }
}
