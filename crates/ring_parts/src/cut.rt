// Which polygon a path cuts, and whether its parts lie on their sides.
ghost use Rattle.std.specs.Prelude.{◌≡◌, ◌<◌, ◌≤◌, ◌+◌, ◌||◌, ◌&&◌, IfOk, IfSome, length, is_some, take, false, slice_index_or, [], ◌∷◌};
ghost use Rattle.std.specs.List.{list_any};
ghost use Rattle.grid_geometry.specs.Common.{signed_area};
ghost use Rattle.ring_machine.specs.Ring as machine;
ghost use Rattle.ring_machine.specs.Cut as spec;
ghost use Rattle.ring_parts.specs.Seen.{path_seen, rings_seen, polygons_seen, outer_length};

use crate::membership::has;
use crate::paths::Path;
use crate::stretch::{first_part, second_part};
use grid_geometry::{Pos, area2};
use std::alloc::{AllocError, Allocator};

/// Whether an end of the path is of the ring.
fn has_end(path: &Path<'_>, ring: &[Pos]) -> bool
    ensures { result
        ≡ (machine.has ring.now path.now.first || machine.has ring.now path.now.last) }
{
    has(ring, path.first) || has(ring, path.last)
}

/// Whether an end of the path is of one of the holes.
fn ends_in_holes<A: Allocator + Copy>(path: &Path<'_>, holes: &[Vec<Pos, A>]) -> bool
    ensures { result
        ≡ list_any (λ h. machine.has h path.now.first || machine.has h path.now.last) (rings_seen holes.now) }
{
    for hole in holes {
        if has_end(path, hole.as_slice()) {
            return true;
        }
    }
    false
}

/// Whether both ends of the path are of the polygon's outer ring, and neither is of a hole.
pub fn is_cut_by<A: Allocator + Copy>(path: &Path<'_>, polygon: &[Vec<Pos, A>]) -> bool
    ensures { result ≡ spec.is_cut_by (path_seen path.now) (rings_seen polygon.now) }
{
    let [outer, holes @ ..] = polygon else {
        return false;
    };
    has(outer.as_slice(), path.first)
        && has(outer.as_slice(), path.last)
        && !ends_in_holes(path, holes)
}

/// The place of the first polygon that the path cuts.
pub fn first_cut<A: Allocator + Copy>(
    path: &Path<'_>,
    polygons: &[Vec<Vec<Pos, A>, A>],
) -> Option<usize>
    ensures any { is_some result
        ≡ list_any (spec.is_cut_by (path_seen path.now)) (polygons_seen polygons.now) }
    ensures first { IfSome result
        (λ i. spec.first_that (spec.is_cut_by (path_seen path.now)) (polygons_seen polygons.now)
        ≡ slice_index_or (polygons_seen polygons.now) i [] ∷ []) }
    ensures within { IfSome result (λ i. i < length polygons.now) }
    ensures none_before { IfSome result
        (λ i. list_any (spec.is_cut_by (path_seen path.now)) (take i (polygons_seen polygons.now))
        ≡ false) }
{
    for (place, polygon) in polygons.iter().enumerate() {
        if is_cut_by(path, polygon.as_slice()) {
            return Some(place);
        }
    }
    None
}

/// Whether both numbers are below 0, both are 0, or both are above.
fn same_sign(y: i128, z: i128) -> bool
    ensures { result ≡ spec.same_sign y z }
{
    (y < 0) == (z < 0) && (0 < y) == (0 < z)
}

/// Whether the signed areas of two parts have the sign of the ring's.
fn keep_sign(first: &[Pos], second: &[Pos], ring: &[Pos]) -> bool
    requires few_first { length first.now ≤ 1099511627776 }
    requires few_second { length second.now ≤ 1099511627776 }
    requires few { length ring.now ≤ 1099511627776 }
    ensures { result
        ≡ (spec.same_sign (signed_area first.now) (signed_area ring.now)
        && spec.same_sign (signed_area second.now) (signed_area ring.now)) }
{
    let area = area2(ring);
    same_sign(area2(first), area) && same_sign(area2(second), area)
}

/// Whether the signed areas of the parts do not both have the sign of the outer ring's.
pub fn is_wrong_side<A: Allocator + Copy>(
    alloc: A,
    path: &Path<'_>,
    polygon: &[Vec<Pos, A>],
) -> Result<bool, AllocError>
    requires { outer_length (rings_seen polygon.now) + length path.now.inner.now < 1099511627776 }
    ensures { IfOk result
        (λ wrong. wrong ≡ spec.is_wrong_side (path_seen path.now) (rings_seen polygon.now)) }
{
    let [outer, ..] = polygon else {
        return Ok(false);
    };
    let first = first_part(alloc, outer.as_slice(), path)?;
    let second = second_part(alloc, outer.as_slice(), path)?;
    let keep = keep_sign(first.as_slice(), second.as_slice(), outer.as_slice());
    Ok(!keep)
}
