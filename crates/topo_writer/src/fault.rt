//! Why a text was not written.
ghost use Rattle.std.specs.Prelude.{◌≡◌};

use device_io::Failed;
use std::alloc::AllocError;
use thiserror::Error;

/// Why a text was not written whole.
#[derive(Clone, Copy, Debug, PartialEq, Eq, Error)]
pub enum WriteFault {
    /// The writer failed.
    #[error("the writer failed")]
    Device,
    /// There was no memory for a piece of the text.
    #[error("out of memory")]
    OutOfMemory,
}

impl From<AllocError> for WriteFault {
    ghost use Rattle.topo_writer.specs.declared.fault.WriteFault.TheVariants.{OutOfMemory};

    ghost from_gives = { λ _ e. e ≡ OutOfMemory };

    fn from(_e: AllocError) -> WriteFault {
        WriteFault::OutOfMemory
    }
}

impl From<Failed> for WriteFault {
    ghost use Rattle.topo_writer.specs.declared.fault.WriteFault.TheVariants.{Device};

    ghost from_gives = { λ _ e. e ≡ Device };

    fn from(_e: Failed) -> WriteFault {
        WriteFault::Device
    }
}
