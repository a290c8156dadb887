// The features at a position: those that hold it, and those on whose borders it lies.
ghost use Rattle.std.specs.Prelude.{◌≡◌, ◌==◌, IfOk};
ghost use Rattle.std.specs.List.{filter, list_any};
ghost use Rattle.grid_geometry.specs.Common.{Position};
ghost use Rattle.ring_machine.specs.Query as query;
ghost use Rattle.point_queries.specs.Odd as odd;
ghost use Rattle.point_queries.specs.Users.{Rises};

use crate::border::{border_at, numbers_of};
use crate::numbers::{At, Numbers, sort_once};
use crate::odd::{PolygonName, odd_polygons, passed_rings};
use crate::passed::ray_from;
use arc_store::{Map, RingName};
use grid_geometry::Pos;
use segment_index::SegIndex;
use std::alloc::{AllocError, Allocator};
use std::collections::BTreeSet;

/// Whether a number is among ascending ones.
fn is_among(numbers: &[u32], n: u32) -> bool
    requires { Rises numbers.now }
    ensures { result ≡ list_any (λ m. m == n) numbers.now }
{
    numbers.binary_search(&n).is_ok()
}

/// Whether a ring is of one of these polygons, and its feature not on the border.
fn is_held<A: Allocator + Copy>(
    polygons: &BTreeSet<PolygonName, A>,
    border: &[u32],
    ring: RingName,
) -> bool
    requires { Rises border.now }
    ensures { result ≡ odd.is_of_holder polygons.now border.now ring }
{
    let name = PolygonName {
        feature: ring.feature,
        polygon: ring.polygon,
    };
    polygons.contains(&name) && !is_among(border, ring.feature)
}

/// The rings of these polygons whose features are not on the border.
fn held<A: Allocator + Copy>(
    alloc: A,
    rings: &[RingName],
    polygons: &BTreeSet<PolygonName, A>,
    border: &[u32],
) -> Result<Vec<RingName, A>, AllocError>
    requires { Rises border.now }
    ensures { IfOk result
        (λ found. found.items ≡ filter (odd.is_of_holder polygons.now border.now) rings.now) }
{
    let mut found = Vec::new(alloc);
    for ring in rings {
        if is_held(polygons, border, *ring) {
            found.push(*ring)?;
        }
    }
    Ok(found)
}

/// The numbers of the features that hold a position, off their borders: by rings of which each
/// stands here an odd number of times where it holds the position, and by the numbers of the
/// features on whose borders the position lies.
pub(crate) fn inside_of<'a, I: SegIndex, A: Allocator + Copy>(
    alloc: A,
    map: &Map<'a, I, A>,
    rings: &[RingName],
    border: &[u32],
) -> Result<Numbers<A>, AllocError>
    requires { Rises border.now }
    ensures { (p : Position) → border.now ≡ query.border_at map.now.doc p
        → odd.TellsInside map.now.doc p rings.now
        → IfOk result (λ found. found ≡ query.inside_at map.now.doc p) }
{
    let _ = map.frame(); // it tells that no two features have one number
    let polygons = odd_polygons(alloc, rings)?;
    let within = held(alloc, rings, &polygons, border)?;
    let mut found = numbers_of(alloc, within.as_slice())?;
    sort_once(&mut found);
    Ok(Numbers(found))
}

/// The numbers of the features that hold p, off the borders, which have p on those of these features.
pub(crate) fn inside_at<'a, I: SegIndex, A: Allocator + Copy>(
    alloc: A,
    map: &Map<'a, I, A>,
    p: Pos,
    border: &[u32],
) -> Result<Numbers<A>, AllocError>
    requires { border.now ≡ query.border_at map.now.doc p }
    ensures { IfOk result (λ found. found ≡ query.inside_at map.now.doc p) }
{
    let _ = map.frame(); // it tells that each ring is one, and in range
    let rings = passed_rings(alloc, map, p, ray_from(p))?;
    inside_of(alloc, map, rings.as_slice(), border)
}

/// The features at p: those that hold it by the even-odd rule, off their borders (RFC 7946, 3.1.6),
/// and those on whose borders it lies. Reads the cells at p and those to the right of it in its row,
/// and the arcs of the segments there that p lies on or that count for it.
pub fn at<'a, I: SegIndex, A: Allocator + Copy>(
    alloc: A,
    map: &Map<'a, I, A>,
    p: Pos,
) -> Result<At<A>, AllocError>
    ensures inside { IfOk result (λ at. at.inside ≡ query.inside_at map.now.doc p) }
    ensures border { IfOk result (λ at. at.border ≡ query.border_at map.now.doc p) }
{
    let border = border_at(alloc, map, p)?;
    let inside = inside_at(alloc, map, p, border.0.as_slice())?;
    Ok(At { inside, border })
}
