// The features on whose borders a position lies.
ghost use Rattle.std.specs.Prelude.{◌≡◌, map, IfOk, OnOk};
ghost use Rattle.std.specs.List.{flat_map};
ghost use Rattle.ring_machine.specs.Query as query;
ghost use Rattle.arc_store.specs.Common.{ListsRingNames};
ghost use Rattle.point_queries.specs.Users.{AreSegments, on_edge};

use crate::numbers::{Numbers, sort_once};
use arc_store::{Map, RingName};
use grid_geometry::{Pos, Rect, Seg, on};
use segment_index::SegIndex;
use std::alloc::{AllocError, Allocator};

/// The box of one position.
pub(crate) fn box_at(p: Pos) -> Rect
    ensures { result ≡ record { x0 = p.x; y0 = p.y; x1 = p.x; y1 = p.y } }
{
    Rect {
        x0: p.x(),
        y0: p.y(),
        x1: p.x(),
        y1: p.y(),
    }
}

/// Appends the rings that have one of these segments on which p lies. Fails only on allocation failure.
fn push_on<'a, I: SegIndex, A: Allocator + Copy>(
    map: &Map<'a, I, A>,
    p: Pos,
    near: &[Seg],
    out: &mut Vec<RingName, A>,
) -> Result<(), AllocError>
    requires { AreSegments map.now.doc near.now }
    ensures { OnOk result (ListsRingNames map.now.doc (flat_map (on_edge p) near.now)
        out.old.items out.new.items) }
{
    for s in near {
        if on(p, *s) {
            map.push_rings_of(*s, out)?;
        }
    }
    Ok(())
}

/// The numbers of the features of these rings.
pub(crate) fn numbers_of<A: Allocator + Copy>(
    alloc: A,
    names: &[RingName],
) -> Result<Vec<u32, A>, AllocError>
    ensures { IfOk result (λ found. found.items ≡ map (λ name. name.feature) names.now) }
{
    let mut found = Vec::with_capacity(alloc, names.len())?;
    for name in names {
        found.push(name.feature)?;
    }
    Ok(found)
}

/// The numbers of the features on whose borders p lies, ascending. Reads the cells at p and the arcs
/// of the segments on which it lies.
pub(crate) fn border_at<'a, I: SegIndex, A: Allocator + Copy>(
    alloc: A,
    map: &Map<'a, I, A>,
    p: Pos,
) -> Result<Numbers<A>, AllocError>
    ensures { IfOk result (λ found. found ≡ query.border_at map.now.doc p) }
{
    let mut near = Vec::new(alloc);
    map.candidates(box_at(p), &mut near)?;
    let mut names = Vec::new(alloc);
    push_on(map, p, near.as_slice(), &mut names)?;
    let mut found = numbers_of(alloc, names.as_slice())?;
    sort_once(&mut found);
    Ok(Numbers(found))
}
