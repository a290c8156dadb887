//! Why a vertex is not put where it was asked to stand.
ghost use Rattle.std.specs.Prelude.{◌≡◌};

use std::alloc::AllocError;
use thiserror::Error;

/// Why a vertex was not added.
#[derive(Clone, Copy, Debug, PartialEq, Eq, Error)]
pub enum AddFault {
    /// A vertex stands at the position.
    #[error("occupied")]
    Occupied,
    /// There was no room for one more vertex.
    #[error("out of memory")]
    OutOfMemory,
}

/// Why a vertex was not shifted.
#[derive(Clone, Copy, Debug, PartialEq, Eq, Error)]
pub enum ShiftFault {
    /// A vertex stands at the position, be it the one that was to be shifted.
    #[error("occupied")]
    Occupied,
    /// There was no room for the new position beside the old one.
    #[error("out of memory")]
    OutOfMemory,
}

impl From<AllocError> for AddFault {
    ghost use Rattle.vertex_index.specs.declared.fault.AddFault.TheVariants.{OutOfMemory};

    ghost from_gives = { λ _ fault. fault ≡ OutOfMemory };

    fn from(_error: AllocError) -> AddFault {
        AddFault::OutOfMemory
    }
}
