// The borders that begin at a vertex, from left to right.
ghost use Rattle.std.specs.Prelude.{length, IsTrue, IfOk};
ghost use Rattle.std.specs.List.Sorted.{IsPermutation};
ghost use Rattle.layer_sides.specs.Under.{AreBelow, AreTurned};
ghost use Rattle.layer_sides.specs.Seen.{segments_seen};

use crate::border::Border;
use crate::ends::{is_right, top_of};
use crate::fault::SideFault;
use crate::under::{place_of, segment_at};
use grid_geometry::Pos;
use std::alloc::{AllocError, Allocator};

/// The places, in another order: from left to right, where all begin at one vertex.
fn by_angle<A: Allocator + Copy>(
    alloc: A,
    borders: &[Border<A>],
    begun: &[usize],
) -> Result<Vec<usize, A>, AllocError>
    requires { AreBelow (length borders.now) begun.now }
    ensures { IfOk result (λ found. IsPermutation begun.now found.items) }
{
    let mut found = Vec::new(alloc);
    for place in begun {
        let top = top_of(segment_at(borders, *place));
        let at = place_of(borders, found.as_slice(), top);
        found.insert(at, *place)?;
    }
    Ok(found)
}

/// Whether the top of each but the first is strictly on the right of the one before it.
fn are_in_order<A: Allocator + Copy>(borders: &[Border<A>], begun: &[usize]) -> bool
    requires { AreBelow (length borders.now) begun.now }
    ensures { IsTrue result → AreTurned (segments_seen borders.now) begun.now }
{
    let [first, rest @ ..] = begun else {
        return true;
    };
    let mut last = *first;
    for place in rest {
        if !is_right(
            top_of(segment_at(borders, *place)),
            segment_at(borders, last),
        ) {
            return false;
        }
        last = *place;
    }
    true
}

/// The places of the borders that begin at v, from left to right. Fails on allocation failure, and
/// where two of them lead in one direction.
pub(crate) fn in_order<A: Allocator + Copy>(
    alloc: A,
    borders: &[Border<A>],
    begun: &[usize],
    v: Pos,
) -> Result<Vec<usize, A>, SideFault>
    requires { AreBelow (length borders.now) begun.now }
    ensures same { IfOk result (λ found. IsPermutation begun.now found.items) }
    ensures turned { IfOk result (λ found. AreTurned (segments_seen borders.now) found.items) }
{
    let found = by_angle(alloc, borders, begun)?;
    if are_in_order(borders, found.as_slice()) {
        Ok(found)
    } else {
        Err(SideFault::Unswept(v))
    }
}
