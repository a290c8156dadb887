// Why there are no faces.
use grid_geometry::{Pos, Seg};
use layer_sides::SideFault;
use std::alloc::{AllocError, AllocFailed};

/// Why there are no faces of a layer.
#[derive(Clone, Copy, Debug, PartialEq, Eq)]
pub enum FaceFault {
    /// Memory was refused.
    OutOfMemory,
    /// The layer has more than 4,000,000 positions, polygons or borders, or more numbers of polygons than
    /// can be kept.
    TooLarge,
    /// The segments at this vertex are not as those of a layer whose segments meet in their ends alone.
    Unswept(Pos),
    /// A side of this segment was found in one face with a side that other polygons hold, or in the
    /// outside and is held, or in a second face that is the outside.
    Unlike(Seg),
}

impl From<AllocError> for FaceFault {
    ghost use Rattle.std.specs.Prelude.{◌≡◌};
    ghost use Rattle.layer_faces.specs.declared.fault.FaceFault.TheVariants.{OutOfMemory};

    ghost from_gives = { λ _ e. e ≡ OutOfMemory };

    fn from(_e: AllocError) -> FaceFault {
        FaceFault::OutOfMemory
    }
}

impl<T: Drop> From<AllocFailed<T>> for FaceFault {
    ghost use Rattle.std.specs.Prelude.{◌≡◌};
    ghost use Rattle.layer_faces.specs.declared.fault.FaceFault.TheVariants.{OutOfMemory};

    ghost from_gives = { λ _ e. e ≡ OutOfMemory };

    fn from(_e: AllocFailed<T>) -> FaceFault {
        FaceFault::OutOfMemory
    }
}

impl From<SideFault> for FaceFault {
    ghost use Rattle.std.specs.Prelude.{◌≡◌};
    ghost use Rattle.layer_faces.specs.Faults.{without_sides};

    ghost from_gives = { λ fault e. e ≡ without_sides fault };

    fn from(fault: SideFault) -> FaceFault {
        match fault {
            SideFault::OutOfMemory => FaceFault::OutOfMemory,
            SideFault::TooLarge => FaceFault::TooLarge,
            SideFault::Unswept(at) => FaceFault::Unswept(at),
        }
    }
}
