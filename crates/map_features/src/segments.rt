// The segments of a map, each once.
ghost use Rattle.std.specs.Prelude.{IfOk};
ghost use Rattle.std.specs.List.Sorted.{IsSorted};
ghost use Rattle.grid_geometry.specs.Common.{segment_cmp};

use crate::shapes::Shape;
use grid_geometry::{Pos, Seg};
use std::alloc::{AllocError, Allocator};

/// Appends the segments of a ring.
fn push_ring<A: Allocator>(segments: &mut Vec<Seg, A>, ring: &[Pos]) -> Result<(), AllocError> {
    let Some(last) = ring.last() else {
        return Ok(());
    };
    let mut from = *last;
    for to in ring {
        if let Some(segment) = Seg::new(from, *to) {
            segments.push(segment)?;
        }
        from = *to;
    }
    Ok(())
}

/// Appends the segments of polygons.
fn push_polygons<A: Allocator + Copy>(
    segments: &mut Vec<Seg, A>,
    polygons: &[Vec<Vec<Pos, A>, A>],
) -> Result<(), AllocError> {
    for ring in polygons.iter().flatten() {
        push_ring(segments, ring.as_slice())?;
    }
    Ok(())
}

/// The segments of features, each once, ascending.
pub(crate) fn segments<A: Allocator + Copy>(
    alloc: A,
    shapes: &[Shape<'_, A>],
) -> Result<Vec<Seg, A>, AllocError>
    ensures { IfOk result (λ segments. IsSorted segment_cmp segments.items) }
{
    let mut segments = Vec::new(alloc);
    for shape in shapes {
        push_polygons(&mut segments, shape.polygons)?;
    }
    segments.sort_unstable();
    Ok(segments)
}
