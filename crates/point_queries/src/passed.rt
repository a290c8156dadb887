// The segments that count for a position by the even-odd rule: those that the ray to the right passes.
ghost use Rattle.std.specs.Prelude.{◌≡◌, pos, IfOk};
ghost use Rattle.std.specs.List.{filter};
ghost use Rattle.point_queries.specs.Odd.{ray, is_passed, ArePassed};

use arc_store::Map;
use grid_geometry::{Pos, Rect, Seg, counts};
use segment_index::SegIndex;
use std::alloc::{AllocError, Allocator};

/// The greatest x of a position.
const REACH: i64 = 1_000_000_000_000;

/// The box of the ray from p to the right: it is as high as one position.
pub(crate) fn ray_from(p: Pos) -> Rect
    ensures { result ≡ ray p }
{
    Rect {
        x0: p.x(),
        y0: p.y(),
        x1: REACH,
        y1: p.y(),
    }
}

/// Those of these segments that count for p.
fn counting<A: Allocator + Copy>(alloc: A, p: Pos, near: &[Seg]) -> Result<Vec<Seg, A>, AllocError>
    ensures { IfOk result (λ found. found.items ≡ filter (is_passed p) near.now) }
{
    let mut found = Vec::new(alloc);
    for s in near {
        if counts(p, s.lo, s.hi) {
            found.push(*s)?;
        }
    }
    Ok(found)
}

/// Segments of the map that count for p, each once, and among them each that meets the box. Reads
/// the cells of the box.
pub(crate) fn passed<'a, I: SegIndex, A: Allocator + Copy>(
    alloc: A,
    map: &Map<'a, I, A>,
    p: Pos,
    rect: Rect,
) -> Result<Vec<Seg, A>, AllocError>
    ensures { IfOk result (λ found. ArePassed map.now.doc p rect found.items) }
{
    let mut near = Vec::new(alloc);
    map.candidates(rect, &mut near)?;
    let mut found = counting(alloc, p, near.as_slice())?;
    found.sort_unstable();
    found.dedup();
    Ok(found)
}
