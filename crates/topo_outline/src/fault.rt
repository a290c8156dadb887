// Why a topology is not opened.
ghost use Rattle.std.specs.Prelude.{◌≡◌};
ghost use Rattle.topo_outline.specs.Faults.{of_scan};
ghost use Rattle.topo_outline.specs.declared.fault.OpenFault.TheVariants.{OutOfMemory};

use crate::token::Token;
use grid_geometry::{Pos, Seg};
use json_spans::ScanFault;
use std::alloc::{AllocError, AllocFailed};
use std::fmt::{Display, Formatter, Write};
use thiserror::Error;

/// What is too large: the text, the count of features, or that of the positions of all rings.
#[derive(Clone, Copy, Debug, PartialEq, Eq)]
pub enum Limit {
    Bytes,
    Features,
    Positions,
}

/// A ring by the numbers of its feature, of its polygon in the feature and of itself in the
/// polygon, each counted from 0 in the order of the text.
#[derive(Clone, Copy, Debug, PartialEq, Eq)]
pub struct RingAt {
    pub feature: usize,
    pub polygon: usize,
    pub ring: usize,
}

impl Display for Limit {
    fn fmt<W: Write>(&self, f: &mut Formatter<W>) -> Result<(), std::fmt::Error> {
        match self {
            Limit::Bytes => write!(f, "bytes"),
            Limit::Features => write!(f, "features"),
            Limit::Positions => write!(f, "positions"),
        }
    }
}

impl Display for RingAt {
    fn fmt<W: Write>(&self, f: &mut Formatter<W>) -> Result<(), std::fmt::Error> {
        write!(f, "{} {} {}", self.feature, self.polygon, self.ring)
    }
}

/// The first fault of a text, in the order in which it is opened. A place is counted in bytes from
/// 0, and a name is its token as it stands, without its quotes.
#[derive(Clone, Copy, Debug, PartialEq, Eq, Error)]
pub enum OpenFault<'a> {
    /// The text is no JSON text (RFC 8259): no JSON text begins with more of it than `place` bytes.
    #[error("not json at {place}")]
    NotJson { place: usize },
    /// A bracket opens one level too many.
    #[error("too deep at {place}")]
    TooDeep { place: usize },
    /// The root is no object, or its `type` is not the string `Topology` (TopoJSON 1.0, 2.1).
    #[error("not a topology")]
    NotTopology,
    /// A member is wrong or missing, or its name stands for no text.
    #[error("bad member {name}")]
    BadMember { name: Token<'a> },
    /// A name whose decoded text stood before in the same object.
    #[error("duplicate {name}")]
    Duplicate { name: Token<'a> },
    /// A geometry of a kind that the editor does not open (TopoJSON 1.0, 2.2).
    #[error("unsupported {type_name}")]
    Unsupported { type_name: Token<'a> },
    /// A coordinate or an index that is not a whole number.
    #[error("not whole at {place}")]
    NotWhole { place: usize },
    /// A coordinate beyond the range, where there is a transform after the sum (2.1.2).
    #[error("out of range at {place}")]
    OutOfRange { place: usize },
    /// A position that is no list of two, or an arc that is no list of two or more (2.1.1, 2.1.3).
    #[error("bad position at {place}")]
    BadPosition { place: usize },
    /// An index that names no arc (2.1.4).
    #[error("bad arc index at {place}")]
    BadArcIndex { place: usize },
    /// An arc that does not begin where the one before it ends, or a ring that does not close.
    #[error("arcs do not meet {ring}")]
    ArcsDoNotMeet { ring: RingAt },
    /// A ring of fewer than three positions.
    #[error("ring short {ring}")]
    RingShort { ring: RingAt },
    /// A ring with a position that stood in it before.
    #[error("ring repeats {ring} at {pos}")]
    RingRepeats { ring: RingAt, pos: Pos },
    /// Two segments that meet elsewhere than at their common ends.
    #[error("conflict {s} / {t}")]
    Conflict { s: Seg, t: Seg },
    #[error("too large {what}")]
    TooLarge { what: Limit },
    /// An allocation failed.
    #[error("out of memory")]
    OutOfMemory,
}

impl<'a, T: Drop> From<AllocFailed<T>> for OpenFault<'a> {
    ghost from_gives = { λ _ e. e ≡ OutOfMemory };

    fn from(_e: AllocFailed<T>) -> OpenFault<'a> {
        OpenFault::OutOfMemory
    }
}

impl<'a> From<AllocError> for OpenFault<'a> {
    ghost from_gives = { λ _ e. e ≡ OutOfMemory };

    fn from(_e: AllocError) -> OpenFault<'a> {
        OpenFault::OutOfMemory
    }
}

impl<'a> From<ScanFault> for OpenFault<'a> {
    ghost from_gives = { λ f e. e ≡ of_scan f };

    fn from(fault: ScanFault) -> OpenFault<'a> {
        match fault {
            ScanFault::NotJson { place } => OpenFault::NotJson { place },
            ScanFault::TooDeep { place } => OpenFault::TooDeep { place },
            ScanFault::OutOfMemory => OpenFault::OutOfMemory,
        }
    }
}
