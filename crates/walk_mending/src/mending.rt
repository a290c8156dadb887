// A polygon of walks, mended.
ghost use Rattle.std.specs.Prelude.{◌≡◌, map, IfOk, IfSome, MatchOption};
ghost use Rattle.ring_machine.specs.Ring as machine;
ghost use Rattle.walk_mending.specs.Mended.{ArePartsOf, IsMended, KeepsOddEnds, HasOdd, BoundWithoutRings};
ghost use Rattle.ring_parts.specs.Common.{rings_seen, polygons_seen};

use crate::odd::odd_segments;
use crate::parts::{all_filled, have_exactly};
use crate::search::find_parts;
use crate::simple::all_simple;
use grid_geometry::Pos;
use ring_parts::canonical;
use std::alloc::{AllocError, Allocator};

/// The walks, each begun at its least position.
fn all_canonical<A: Allocator + Copy>(
    alloc: A,
    walks: &[Vec<Pos, A>],
) -> Result<Vec<Vec<Pos, A>, A>, AllocError>
    ensures { IfOk result (λ found.
        rings_seen found.items ≡ map machine.canonical (rings_seen walks.now)) }
{
    let mut found = Vec::new(alloc);
    for walk in walks {
        found.push(canonical(alloc, walk.as_slice())?)?;
    }
    Ok(found)
}

/// Parts with exactly the segments that stand an odd number of times in the walks; none where those
/// that were found have not.
fn parted<A: Allocator + Copy>(
    alloc: A,
    walks: &[Vec<Pos, A>],
) -> Result<Option<Vec<Vec<Vec<Pos, A>, A>, A>>, AllocError>
    ensures { IfOk result (λ found. MatchOption found (HasOdd (rings_seen walks.now))
        (λ parts. ArePartsOf (rings_seen walks.now) (polygons_seen parts.items))) }
{
    let odd = odd_segments(alloc, walks)?;
    if odd.is_empty() {
        return Ok(Some(Vec::new(alloc)));
    }
    let parts = find_parts(alloc, walks, odd.as_slice())?;
    let filled = all_filled(alloc, parts.as_slice())?;
    let exact = have_exactly(alloc, parts.as_slice(), odd.as_slice())?;
    if filled && exact {
        Ok(Some(parts))
    } else {
        Ok(None)
    }
}

/// What stands in the place of a polygon with these walks: outer rings with their holes, each ring
/// begun at its least position. Where all walks are rings, it is the polygon itself; else there may
/// be any number of polygons, none where no segment bounds anything. A ring that was there and
/// stays keeps its direction; other outer rings turn as the first walk did, and holes the other
/// way. `None` where the rings that were made do not have exactly the segments that stand an odd
/// number of times in the walks: only where some walk is no ring, and some segment bounds.
pub fn mended_polygon<A: Allocator + Copy>(
    alloc: A,
    walks: &[Vec<Pos, A>],
) -> Result<Option<Vec<Vec<Vec<Pos, A>, A>, A>>, AllocError>
    ensures mended { IfOk result (λ found. MatchOption found (BoundWithoutRings (rings_seen walks.now))
        (λ parts. IsMended (rings_seen walks.now) (polygons_seen parts.items))) }
    ensures ends { IfOk result (λ found. IfSome found
        (λ parts. KeepsOddEnds (rings_seen walks.now) (polygons_seen parts.items))) }
{
    if !all_simple(alloc, walks)? {
        return parted(alloc, walks);
    }
    let mut whole = Vec::new(alloc);
    whole.push(all_canonical(alloc, walks)?)?;
    Ok(Some(whole))
}
