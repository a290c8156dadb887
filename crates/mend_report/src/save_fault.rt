// Why a map is not saved.
use grid_geometry::Seg;

/// Why a map is not saved.
#[derive(Clone, Copy, Debug, PartialEq, Eq)]
pub enum SaveFault {
    /// Two segments of the map are in conflict: the least such pair.
    Conflict {
        /// The lesser segment.
        s: Seg,
        /// The greater segment.
        t: Seg,
    },
    /// The text does not open: it is over a limit.
    Unopened,
    /// Memory was refused.
    OutOfMemory,
}
