// The polygons that have an odd number of given segments.
ghost use Rattle.std.specs.Prelude.{IfOk, OnOk};
ghost use Rattle.point_queries.specs.Odd.{ListsOdd, HavePassed, Toggles, AreOdd};
ghost use Rattle.point_queries.specs.Users.{AreSegments};

use crate::passed::passed;
use arc_store::{Map, RingName};
use grid_geometry::{Pos, Rect, Seg};
use segment_index::SegIndex;
use std::alloc::{AllocError, Allocator};
use std::collections::BTreeSet;

/// A polygon: its feature's number, and its place among the polygons of the feature.
#[derive(Clone, Copy, PartialEq, Eq, PartialOrd, Ord)]
pub(crate) struct PolygonName {
    pub(crate) feature: u32,
    pub(crate) polygon: usize,
}

/// Appends the rings that have these segments, a ring for each of its own. Fails only on allocation
/// failure.
fn push_rings<'a, I: SegIndex, A: Allocator + Copy>(
    map: &Map<'a, I, A>,
    segments: &[Seg],
    out: &mut Vec<RingName, A>,
) -> Result<(), AllocError>
    requires { AreSegments map.now.doc segments.now }
    ensures { OnOk result (ListsOdd map.now.doc segments.now out.old.items out.new.items) }
{
    for s in segments {
        map.push_rings_of(*s, out)?;
    }
    Ok(())
}

/// The rings of segments that count for p, a ring for each of its own, where each segment that
/// counts and meets the box is among these.
pub(crate) fn passed_rings<'a, I: SegIndex, A: Allocator + Copy>(
    alloc: A,
    map: &Map<'a, I, A>,
    p: Pos,
    rect: Rect,
) -> Result<Vec<RingName, A>, AllocError>
    ensures { IfOk result (λ rings. HavePassed map.now.doc p rect rings.items) }
{
    let segments = passed(alloc, map, p, rect)?;
    let mut rings = Vec::new(alloc);
    push_rings(map, segments.as_slice(), &mut rings)?;
    Ok(rings)
}

/// Takes the polygon out where it is there, and else puts it in.
fn toggle<A: Allocator + Copy>(
    polygons: &mut BTreeSet<PolygonName, A>,
    name: PolygonName,
) -> Result<(), AllocError>
    ensures { OnOk result (Toggles name polygons.old polygons.new) }
{
    if !polygons.remove(&name) {
        polygons.insert(name)?;
    }
    Ok(())
}

/// The polygons that an odd number of these rings belong to.
pub(crate) fn odd_polygons<A: Allocator + Copy>(
    alloc: A,
    rings: &[RingName],
) -> Result<BTreeSet<PolygonName, A>, AllocError>
    ensures { IfOk result (AreOdd rings.now) }
{
    let mut found = BTreeSet::new(alloc);
    for ring in rings {
        let name = PolygonName {
            feature: ring.feature,
            polygon: ring.polygon,
        };
        toggle(&mut found, name)?;
    }
    Ok(found)
}
