// The lines and the points of a text.
use crate::maps::asked_of;
use crate::stored::Stored;
use decimal_texts::{PointFault, rounded_points, without_lines};
use grid_reader::point_grid;
use std::alloc::AllocError;
use std::hash::RandomState;

/// Compares what is left of a text without its lines, and how many these were.
pub(crate) fn compare_without_lines(stored: &mut Stored<'_>) -> Result<(), AllocError> {
    let (alloc, text) = (stored.alloc, stored.given("text")?);
    let dropped = without_lines(alloc, alloc, text.as_str().as_bytes())?;
    stored.compare("left", dropped.text.as_slice())?;
    stored.compare_number("lines", dropped.lines)
}

/// Compares why a point is not put on the grid.
fn compare_fault(stored: &mut Stored<'_>, fault: PointFault) -> Result<(), AllocError> {
    let text = match fault {
        PointFault::NotNumber { place } => format!(in stored.alloc; "no number at {place}")?,
        PointFault::OutOfRange { place } => format!(in stored.alloc; "out of range at {place}")?,
        PointFault::OutOfMemory => format!(in stored.alloc; "out of memory")?,
    };
    stored.compare("fault", text.as_str().as_bytes())
}

/// Compares a text with its points on a grid.
pub(crate) fn compare_on_grid(stored: &mut Stored<'_>) -> Result<(), AllocError> {
    let (alloc, text) = (stored.alloc, stored.given("text")?);
    let grid = asked_of(&stored.case).grid;
    match rounded_points(
        alloc,
        alloc,
        text.as_str().as_bytes(),
        grid.digits,
        grid.finer,
    ) {
        Ok(points) => stored.compare("points", points.as_slice()),
        Err(fault) => compare_fault(stored, fault),
    }
}

/// Compares how many decimals the grid keeps on which the points of a map are to be put.
pub(crate) fn compare_digits(stored: &mut Stored<'_>, seed: RandomState) -> Result<(), AllocError> {
    let (alloc, text) = (stored.alloc, stored.given("text")?);
    let grid = asked_of(&stored.case).grid;
    match point_grid(alloc, alloc, seed, text.as_str().as_bytes(), grid)?.digits {
        Some(digits) => stored.compare_number("keeps", digits),
        None => stored.compare("keeps", b"none"),
    }
}
