// Which changes of a region are seen in the picture.
use crate::layout::{Layout, PIXEL};
use crate::outlines::push_outline;
use crate::points::Point;
use crate::rows::{Row, Stretch};
use map_features::Shape;
use std::alloc::{AllocError, Allocator};

/// The rows that all points of rings lie in, as far as they are shown.
pub(crate) fn rows_of<A: Allocator + Copy>(rings: &[Vec<Point, A>], height: i64) -> Row {
    let mut row = Row {
        top: height,
        bottom: 0,
    };
    for point in rings.iter().flatten() {
        row.top = row.top.min(point.y.max(0));
        row.bottom = row.bottom.max(point.y.min(height));
    }
    row
}

/// Whether a pixel's row of the map has a pixel inside the rings.
fn has_pixel<A: Allocator + Copy>(
    alloc: A,
    rings: &[Vec<Point, A>],
    top: i64,
    ends: Stretch,
) -> Result<bool, AllocError> {
    let row = Row {
        top,
        bottom: top.saturating_add(PIXEL),
    };
    let widest = row.widest(alloc, rings, ends)?;
    Ok(widest.is_some_and(|stretch| PIXEL <= stretch.width()))
}

/// Whether a region shows a pixel at least that lies in one of two features and not in the other. A place
/// lies inside the rings of both together where it lies in one feature alone.
pub(crate) fn is_change_seen<A: Allocator + Copy>(
    alloc: A,
    layout: &Layout,
    before: &Shape<'_, A>,
    after: &Shape<'_, A>,
) -> Result<bool, AllocError> {
    let mut rings = Vec::new(alloc);
    push_outline(&mut rings, alloc, layout, before.polygons)?;
    push_outline(&mut rings, alloc, layout, after.polygons)?;
    let rows = rows_of(rings.as_slice(), layout.height());
    let ends = Stretch {
        left: 0,
        right: layout.width(),
    };
    for row in 0..720i64 {
        let top = row.saturating_mul(PIXEL);
        if rows.top <= top.saturating_add(PIXEL)
            && top < rows.bottom
            && has_pixel(alloc, rings.as_slice(), top, ends)?
        {
            return Ok(true);
        }
    }
    Ok(false)
}
