// The rings of a feature as they are drawn.
use crate::corners::{corners, visible};
use crate::cutting::cut_ring;
use crate::layout::Layout;
use crate::points::Point;
use grid_geometry::Pos;
use std::alloc::{AllocError, Allocator};

/// The points of the positions of a ring.
fn points<A: Allocator + Copy>(
    alloc: A,
    layout: &Layout,
    ring: &[Pos],
) -> Result<Vec<Point, A>, AllocError> {
    let mut points = Vec::new(alloc);
    for pos in ring {
        points.push(layout.point(*pos))?;
    }
    Ok(points)
}

/// A ring without what is far beyond what is shown, and without points that add nothing.
fn outline<A: Allocator + Copy>(
    alloc: A,
    layout: &Layout,
    ring: &[Pos],
) -> Result<Vec<Point, A>, AllocError> {
    let points = points(alloc, layout, ring)?;
    let points = visible(alloc, points.as_slice())?;
    let points = cut_ring(alloc, &layout.sides(), points)?;
    corners(alloc, points.as_slice())
}

/// Appends the rings of polygons as they are drawn. A ring that is all far beyond what is shown is left out: a path
/// has no ring without a point (SVG 1.1, 8.3.2).
pub(crate) fn push_outline<A: Allocator + Copy>(
    rings: &mut Vec<Vec<Point, A>, A>,
    alloc: A,
    layout: &Layout,
    polygons: &[Vec<Vec<Pos, A>, A>],
) -> Result<(), AllocError> {
    for ring in polygons.iter().flatten() {
        let ring = outline(alloc, layout, ring.as_slice())?;
        if !ring.is_empty() {
            rings.push(ring)?;
        }
    }
    Ok(())
}
