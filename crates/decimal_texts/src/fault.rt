use std::alloc::{AllocError, AllocFailed};

/// Why the points of a text are not put on a grid. A place is in bytes from 0.
#[derive(Clone, Copy, Debug, PartialEq, Eq)]
pub enum PointFault {
    /// The coordinate at this place is no number.
    NotNumber { place: usize },
    /// The coordinate at this place is beyond 10^12 on the grid, before it is rounded, or its
    /// exponent has more than three digits.
    OutOfRange { place: usize },
    /// There is no memory for the new text.
    OutOfMemory,
}

impl From<AllocError> for PointFault {
    ghost use Rattle.std.specs.Prelude.{◌≡◌};
    ghost use Rattle.decimal_texts.specs.declared.fault.PointFault.TheVariants.{OutOfMemory};

    ghost from_gives = { λ _ e. e ≡ OutOfMemory };

    fn from(_e: AllocError) -> PointFault {
        PointFault::OutOfMemory
    }
}

impl<T: Drop> From<AllocFailed<T>> for PointFault {
    ghost use Rattle.std.specs.Prelude.{◌≡◌};
    ghost use Rattle.decimal_texts.specs.declared.fault.PointFault.TheVariants.{OutOfMemory};

    ghost from_gives = { λ _ e. e ≡ OutOfMemory };

    fn from(_e: AllocFailed<T>) -> PointFault {
        PointFault::OutOfMemory
    }
}
