// How rings and points are written.
use grid_decimals::Coordinates;

/// How rings and points are written.
#[derive(Clone, Copy, Debug)]
pub struct Style {
    /// The grid that they lie on, and how many decimals coordinates have.
    pub coordinates: Coordinates,
    /// Whether rings keep the direction that they have.
    pub keeps_winding: bool,
}
