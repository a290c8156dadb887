// Parts for a polygon whose walks are not all rings, found by a search. Nothing rests on what it
// finds: `mending` tests it.
mod nesting;
mod old;
mod rows;
mod tracing;
mod turns;

use grid_geometry::{Pos, Seg};
use nesting::nested;
use old::old_rings;
use std::alloc::{AllocError, Allocator};
use tracing::traced;

/// Polygons whose rings have these segments, each once: those that stand an odd number of times in
/// the walks. Each ring begins at its least position.
pub(crate) fn find_parts<A: Allocator + Copy>(
    alloc: A,
    walks: &[Vec<Pos, A>],
    odd: &[Seg],
) -> Result<Vec<Vec<Vec<Pos, A>, A>, A>, AllocError> {
    let old = old_rings(alloc, walks)?;
    let ways = traced(alloc, walks, odd)?;
    nested(alloc, walks, old.as_slice(), ways.as_slice())
}
