// Why there are no sides.
use grid_geometry::Pos;
use std::alloc::{AllocError, AllocFailed};

/// Why there are no sides of the borders of a layer.
#[derive(Clone, Copy, Debug, PartialEq, Eq)]
pub enum SideFault {
    /// Memory was refused.
    OutOfMemory,
    /// There are more polygons, borders or numbers of polygons than can be kept, or more borders beside
    /// each other than can be gone over.
    TooLarge,
    /// The segments at this vertex are not as those of polygons whose segments meet in their ends alone.
    Unswept(Pos),
}

impl From<AllocError> for SideFault {
    ghost use Rattle.std.specs.Prelude.{◌≡◌};
    ghost use Rattle.layer_sides.specs.declared.fault.SideFault.TheVariants.{OutOfMemory};

    ghost from_gives = { λ _ e. e ≡ OutOfMemory };

    fn from(_e: AllocError) -> SideFault {
        SideFault::OutOfMemory
    }
}

impl<T: Drop> From<AllocFailed<T>> for SideFault {
    ghost use Rattle.std.specs.Prelude.{◌≡◌};
    ghost use Rattle.layer_sides.specs.declared.fault.SideFault.TheVariants.{OutOfMemory};

    ghost from_gives = { λ _ e. e ≡ OutOfMemory };

    fn from(_e: AllocFailed<T>) -> SideFault {
        SideFault::OutOfMemory
    }
}
