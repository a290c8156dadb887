//! Why a layer is not written.
ghost use Rattle.std.specs.Prelude.{◌≡◌};
ghost use Rattle.topo_outline.specs.declared.fault.OpenFault.TheVariants.{OutOfMemory};

use device_io::Failed;
use std::alloc::{AllocError, AllocFailed};
use std::fmt;
use topo_outline::OpenFault;

/// Why a layer is not written.
#[derive(Clone, Copy, Debug, PartialEq, Eq)]
pub enum ExportFault<'a> {
    /// A fault of the map, or an allocation failed.
    Open(OpenFault<'a>),
    /// No layer has the name that is asked for, or the map has none.
    NoLayer,
    /// No name is asked for, and the map has several layers.
    SeveralLayers,
    /// So few decimals are asked for that positions could fall together.
    FewDecimals { asked: usize, least: usize },
    /// A geometry within this Feature, counted from 0, has an id, properties or members of its own.
    Nested { feature: usize },
    /// A coordinate of this point of the map, counted from 0 in the order of its text, is no whole number. The place is
    /// in bytes of the point's own text.
    PointNotWhole { point: u128, place: usize },
    /// A coordinate of this point is beyond the range.
    PointOutOfRange { point: u128, place: usize },
    /// The device failed.
    Device,
}

impl<'a> From<AllocError> for ExportFault<'a> {
    ghost use Rattle.geo_features.specs.declared.fault.ExportFault.TheVariants.{Open};

    ghost from_gives = { λ _ e. e ≡ Open OutOfMemory };

    fn from(_e: AllocError) -> ExportFault<'a> {
        ExportFault::Open(OpenFault::OutOfMemory)
    }
}

impl<'a, T: Drop> From<AllocFailed<T>> for ExportFault<'a> {
    ghost use Rattle.geo_features.specs.declared.fault.ExportFault.TheVariants.{Open};

    ghost from_gives = { λ _ e. e ≡ Open OutOfMemory };

    fn from(_e: AllocFailed<T>) -> ExportFault<'a> {
        ExportFault::Open(OpenFault::OutOfMemory)
    }
}

impl<'a> From<Failed> for ExportFault<'a> {
    ghost use Rattle.geo_features.specs.declared.fault.ExportFault.TheVariants.{Device};

    ghost from_gives = { λ _ e. e ≡ Device };

    fn from(_e: Failed) -> ExportFault<'a> {
        ExportFault::Device
    }
}

impl<'a> fmt::Display for ExportFault<'a> {
    fn fmt<W: fmt::Write>(&self, f: &mut fmt::Formatter<W>) -> fmt::Result {
        match self {
            ExportFault::Open(OpenFault::OutOfMemory) => f.write_str("out of memory"),
            ExportFault::Open(fault) => write!(f, "open: {fault}"),
            ExportFault::NoLayer => f.write_str("no layer"),
            ExportFault::SeveralLayers => f.write_str("several layers"),
            ExportFault::FewDecimals { asked, least } => write!(
                f,
                "few decimals {asked} of {least}"
            ),
            ExportFault::Nested { feature } => write!(f, "nested {feature}"),
            ExportFault::PointNotWhole { point, place } => {
                write!(f, "not whole at {place} of point {point}")
            }
            ExportFault::PointOutOfRange { point, place } => {
                write!(f, "out of range at {place} of point {point}")
            }
            ExportFault::Device => f.write_str("the device failed"),
        }
    }
}
