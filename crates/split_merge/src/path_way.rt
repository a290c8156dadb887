ghost use Rattle.std.specs.Prelude.{◌≡◌, ◌≢◌, true, IfErr, OnOk, None};
ghost use Rattle.std.specs.List.{list_any};
ghost use Rattle.grid_geometry.specs.Common.{links, segment};
ghost use Rattle.ring_machine.specs.Common.{is_segment, is_vertex, is_distinct, segment_of};
ghost use Rattle.ring_machine.specs.Common.{first_of, positions_of};
ghost use Rattle.ring_parts.specs.Common.{path_seen};
ghost use Rattle.arc_store.specs.Common.{Refuses};
ghost use Rattle.split_merge.specs.Conditions.{path_refusals};

use arc_store::{EditFault, Map};
use grid_geometry::{Pos, Seg};
use ring_parts::{Path, has_twice};
use segment_index::SegIndex;
use std::alloc::Allocator;

/// Whether one of the positions is a vertex of the map.
fn has_any_vertex<'a, I: SegIndex, A: Allocator + Copy>(
    map: &Map<'a, I, A>,
    positions: &[Pos],
) -> bool
    ensures { result ≡ list_any (is_vertex map.now.doc) positions.now }
{
    for pos in positions {
        if map.has_vertex(*pos) {
            return true;
        }
    }
    false
}

/// Whether the map has the segment of two positions.
fn is_joined<'a, I: SegIndex, A: Allocator + Copy>(map: &Map<'a, I, A>, a: Pos, b: Pos) -> bool
    requires apart { a ≢ b }
    ensures { result ≡ is_segment map.now.doc (segment a b) }
{
    match Seg::new(a, b) {
        Some(s) => 0 < map.uses(s),
        None => false,
    }
}

/// Whether a position and the next one are the ends of a segment of the map.
fn has_segment_along<'a, I: SegIndex, A: Allocator + Copy>(
    map: &Map<'a, I, A>,
    positions: &[Pos],
) -> bool
    requires distinct { is_distinct positions.now ≡ true }
    ensures { result ≡ list_any (λ e. is_segment map.now.doc (segment_of e)) (links positions.now) }
{
    let [first, rest @ ..] = positions else {
        return false;
    };
    let mut from = *first;
    for to in rest {
        if is_joined(map, from, *to) {
            return true;
        }
        from = *to;
    }
    false
}

/// Tells whether a path over these positions may be laid: it has no position twice, its inner ones
/// are no vertices, and none of its segments is one of the map.
pub(crate) fn check_path<'a, I: SegIndex, A: Allocator + Copy>(
    map: &Map<'a, I, A>,
    path: &Path<'_>,
    positions: &[Pos],
) -> Result<(), EditFault>
    requires over { positions_of (path_seen path.now) ≡ positions.now }
    ensures accepted { OnOk result (first_of (path_refusals map.now.doc (path_seen path.now)) ≡ None) }
    ensures refused { IfErr result
        (λ fault. Refuses fault (first_of (path_refusals map.now.doc (path_seen path.now)))) }
{
    if has_twice(positions) {
        return Err(EditFault::RepeatedPoint);
    }
    if has_any_vertex(map, path.inner) {
        return Err(EditFault::Occupied);
    }
    if has_segment_along(map, positions) {
        return Err(EditFault::SegmentExists);
    }
    Ok(())
}
