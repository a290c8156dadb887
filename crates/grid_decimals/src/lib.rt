//! The coordinates of a map as exact decimals (TopoJSON 1.0, 2.1.2).
//!
//! [`grid_of`] reads a transform: how long a unit of the grid is along each axis, and where its 0 lies, in units of the
//! last decimal that any of its numbers has. [`Grid::least_decimals`] and [`Grid::safe_decimals`] tell how few decimals
//! keep positions apart and vertices on their sides, and [`Coordinates`] appends coordinates with so many: the nearest
//! numbers, without exponents and without zeros behind. No floating-point number is made.
#![tactic(auto)]

mod axis;
mod coordinates;
mod grid;
mod kept;
mod number;
mod reading;
mod transform;
mod writing;

pub use axis::Axis;
pub use coordinates::Coordinates;
pub use grid::Grid;
pub use transform::grid_of;
pub use writing::push_number;
