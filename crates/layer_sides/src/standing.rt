// The segments of polygons that stand an odd number of times in the rings of one of them.
ghost use Rattle.std.specs.Prelude.{◌≡◌, ◌++◌, ◌≤◌, ◌↔◌, length, IsTrue, IfOk, OnOk};
ghost use Rattle.std.specs.List.{list_all};
ghost use Rattle.std.specs.List.Sorted.{IsSorted, IsStrictlySortedBy};
ghost use Rattle.layer_sides.specs.Standing.{stands_at, standing_in_ring, standing_in, standing_from};
ghost use Rattle.layer_sides.specs.Standing.{standing_cmp, is_standing, stands_odd, EndsIn};
ghost use Rattle.ring_parts.specs.Common.{rings_seen, polygons_seen};

use grid_geometry::{Pos, Seg};
use std::alloc::{AllocError, Allocator};

/// A segment, and the number of a polygon in whose rings it stands. Ordered by the segment, then by
/// the number.
#[derive(Clone, Copy, PartialEq, Eq, PartialOrd, Ord)]
pub(crate) struct Standing {
    pub(crate) segment: Seg,
    pub(crate) polygon: u32,
}

/// Appends the segment between two positions, where they differ.
fn push_edge<A: Allocator>(
    found: &mut Vec<Standing, A>,
    polygon: u32,
    from: Pos,
    to: Pos,
) -> Result<(), AllocError>
    ensures { OnOk result (found.new.items ≡ found.old.items ++ stands_at polygon (from, to)) }
{
    if let Some(segment) = Seg::new(from, to) {
        found.push(Standing { segment, polygon })?;
    }
    Ok(())
}

/// Appends the segments of a ring.
fn push_ring<A: Allocator>(
    found: &mut Vec<Standing, A>,
    polygon: u32,
    ring: &[Pos],
) -> Result<(), AllocError>
    ensures { OnOk result
        (found.new.items ≡ found.old.items ++ standing_in_ring polygon ring.now) }
{
    let [first, rest @ ..] = ring else {
        return Ok(());
    };
    let mut from = *first;
    for to in rest {
        push_edge(found, polygon, from, *to)?;
        from = *to;
    }
    push_edge(found, polygon, from, *first)
}

/// Appends the segments of a polygon.
fn push_polygon<A: Allocator>(
    found: &mut Vec<Standing, A>,
    polygon: u32,
    rings: &[Vec<Pos, A>],
) -> Result<(), AllocError>
    ensures { OnOk result
        (found.new.items ≡ found.old.items ++ standing_in polygon (rings_seen rings.now)) }
{
    for ring in rings {
        push_ring(found, polygon, ring.as_slice())?;
    }
    Ok(())
}

/// The segments of polygons, as often as they stand in their rings.
fn all_standing<A: Allocator + Copy>(
    alloc: A,
    polygons: &[Vec<Vec<Pos, A>, A>],
) -> Result<Vec<Standing, A>, AllocError>
    requires { length polygons.now ≤ 4294967295 }
    ensures { IfOk result (λ found. found.items ≡ standing_from 0 (polygons_seen polygons.now)) }
{
    let mut found = Vec::new(alloc);
    let mut number = 0;
    for polygon in polygons {
        push_polygon(&mut found, number, polygon.as_slice())?;
        number += 1;
    }
    Ok(found)
}

/// Whether the last one is this.
fn ends_in(kept: &[Standing], x: Standing) -> bool
    ensures { IsTrue result ↔ EndsIn kept.now x }
{
    match kept {
        [.., last] => *last == x,
        [] => false,
    }
}

/// Of ascending ones those that stand there an odd number of times, each once.
fn odd_among<A: Allocator + Copy>(
    alloc: A,
    sorted: &[Standing],
) -> Result<Vec<Standing, A>, AllocError>
    requires { IsSorted standing_cmp sorted.now }
    ensures ascending { IfOk result (λ kept. IsStrictlySortedBy standing_cmp kept.items) }
    ensures odd { IfOk result (λ kept. (x : Standing) →
        is_standing kept.items x ≡ stands_odd sorted.now x) }
{
    let mut kept = Vec::new(alloc);
    for x in sorted {
        if ends_in(kept.as_slice(), *x) {
            kept.pop();
        } else {
            kept.push(*x)?;
        }
    }
    Ok(kept)
}

/// The segments that stand an odd number of times in the rings of a polygon, with its number:
/// ascending, each once.
pub(crate) fn odd_standing<A: Allocator + Copy>(
    alloc: A,
    polygons: &[Vec<Vec<Pos, A>, A>],
) -> Result<Vec<Standing, A>, AllocError>
    requires { length polygons.now ≤ 4294967295 }
    ensures ascending { IfOk result (λ kept. IsStrictlySortedBy standing_cmp kept.items) }
    ensures odd { IfOk result (λ kept. (x : Standing) →
        is_standing kept.items x ≡ stands_odd (standing_from 0 (polygons_seen polygons.now)) x) }
{
    let mut found = all_standing(alloc, polygons)?;
    found.sort_unstable();
    odd_among(alloc, found.as_slice())
}
