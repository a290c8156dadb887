// The boxes of the rings of a map, in which `at_near` looks.
ghost use Rattle.std.specs.Prelude.{IfOk, IsTrue, OnOk};
ghost use Rattle.std.specs.List.{AllByRecursion, flat_map};
ghost use Rattle.ring_machine.specs.Common.{rings, is_ring};
ghost use Rattle.ring_parts.specs.Common.{rings_seen, polygons_seen};
ghost use Rattle.point_queries.specs.Common.{CoversRings, KeepsCovered};
ghost use Rattle.point_queries.specs.Covered.{CoversFeature};

use crate::border::box_at;
use crate::ring_boxes::RingBoxes;
use arc_store::Map;
use grid_geometry::{Pos, Rect};
use segment_index::{SegIndex, widen};
use std::alloc::{AllocError, Allocator};

/// Adds the boxes of these rings.
fn add_rings<A: Allocator + Copy>(
    boxes: &mut RingBoxes<A>,
    polygon: &[Vec<Pos, A>],
) -> Result<(), AllocError>
    requires { AllByRecursion (λ ring. IsTrue (is_ring ring)) (rings_seen polygon.now) }
    ensures covered { OnOk result (CoversRings boxes.new (rings_seen polygon.now)) }
    ensures keeps { KeepsCovered boxes.old boxes.new }
{
    for ring in polygon {
        boxes.add(ring.as_slice())?;
    }
    Ok(())
}

/// Adds the boxes of the rings of these polygons.
fn add_polygons<A: Allocator + Copy>(
    boxes: &mut RingBoxes<A>,
    polygons: &[Vec<Vec<Pos, A>, A>],
) -> Result<(), AllocError>
    requires { AllByRecursion (λ ring. IsTrue (is_ring ring))
        (flat_map (λ polygon. polygon) (polygons_seen polygons.now)) }
    ensures covered { OnOk result
        (CoversRings boxes.new (flat_map (λ polygon. polygon) (polygons_seen polygons.now))) }
    ensures keeps { KeepsCovered boxes.old boxes.new }
{
    for polygon in polygons {
        add_rings(boxes, polygon.as_slice())?;
    }
    Ok(())
}

/// Adds the boxes of the rings of feature `n`; none where no feature has the number. So boxes that
/// cover the other features of a map cover this one too, after an edit that made other rings of it.
/// Reads its rings alone. Fails only on allocation failure; each ring that lay in a box then still
/// does.
pub fn add_boxes<'a, I: SegIndex, A: Allocator + Copy>(
    map: &Map<'a, I, A>,
    boxes: &mut RingBoxes<A>,
    n: u32,
) -> Result<(), AllocError>
    ensures covered { OnOk result (CoversFeature boxes.new map.now.doc n) }
    ensures keeps { KeepsCovered boxes.old boxes.new }
{
    let _ = map.frame(); // it tells that each ring is one
    let polygons = map.polygons(n)?;
    add_polygons(boxes, polygons.as_slice())
}

/// The first position of feature `n`, if it has one.
fn first_position<'a, I: SegIndex, A: Allocator + Copy>(
    map: &Map<'a, I, A>,
    n: u32,
) -> Option<Pos> {
    map.ring(n, 0, 0)?.next()
}

/// The least box that has a position, and what another has.
fn around(extent: Option<Rect>, p: Pos) -> Rect {
    let mut rect = extent.unwrap_or(box_at(p));
    widen(&mut rect, box_at(p));
    rect
}

/// A box around a position of each feature that has one.
fn extent_of<'a, I: SegIndex, A: Allocator + Copy>(map: &Map<'a, I, A>) -> Option<Rect> {
    let mut extent: Option<Rect> = None;
    for feature in 0..map.next_number() {
        if let Some(p) = first_position(map, feature) {
            extent = Some(around(extent, p));
        }
    }
    extent
}

/// The boxes of all rings of a map, as `at_near` needs them. Walks it. Fails only on allocation
/// failure.
pub fn boxes_of<'a, I: SegIndex, A: Allocator + Copy>(
    alloc: A,
    map: &Map<'a, I, A>,
) -> Result<RingBoxes<A>, AllocError>
    ensures { IfOk result (λ boxes. CoversRings boxes (rings map.now.doc)) }
{
    let _ = map.frame(); // it tells that no two features have one number
    let mut boxes = RingBoxes::over(alloc, extent_of(map), map.feature_count())?;
    for n in 0..map.next_number() {
        add_boxes(map, &mut boxes, n)?;
    }
    Ok(boxes)
}
