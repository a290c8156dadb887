ghost use Rattle.std.specs.Prelude.{◌≡◌, ◌≤◌, ◌+◌, ◌+ℤ◌, length, None, OnOk, IfOk, IfErr, IsTrue};
ghost use Rattle.std.specs.List.{list_any};
ghost use Rattle.ring_machine.specs.Common.{path_of, cut, is_cut_by, area_of, first_of};
ghost use Rattle.ring_machine.specs.Common.{split_refusals, feature_at};
ghost use Rattle.ring_parts.specs.Common.{path_seen};
ghost use Rattle.segment_index.specs.Common.{times_by};
ghost use Rattle.local_planarity.specs.Common.{most_for};
ghost use Rattle.arc_store.specs.Common.{Refuses, Edits, edit_begun, split_map, IsRecorded};
ghost use Rattle.split_merge.specs.Conditions.{place_refusals, early_refusals};
ghost use Rattle.split_merge.specs.Untested.{comes_before_pairs};
ghost use Rattle.edit_records.specs.Common.{string_text};

use crate::id_text::json_string;
use crate::path_way::check_path;
use arc_store::{EditFault, Map};
use edit_records::{IdText, Path};
use grid_geometry::Pos;
use ring_parts::first_cut;
use segment_index::SegIndex;
use std::alloc::{AllocError, Allocator};

/// Whether the path cuts a polygon of the feature. Fails only on allocation failure.
fn is_cut<'a, I: SegIndex, A: Allocator + Copy>(
    map: &Map<'a, I, A>,
    f: u32,
    path: &ring_parts::Path<'_>,
) -> Result<bool, AllocError>
    ensures { IfOk result
        (λ cut. cut ≡ list_any (is_cut_by (path_seen path.now)) (feature_at map.now.doc f).polygons) }
{
    let polygons = map.polygons(f)?;
    Ok(first_cut(path, polygons.as_slice()).is_some())
}

/// Tells whether the feature is there, in a collection, and has a polygon that the path cuts.
fn check_place<'a, I: SegIndex, A: Allocator + Copy>(
    map: &Map<'a, I, A>,
    f: u32,
    path: &ring_parts::Path<'_>,
) -> Result<(), EditFault>
    ensures accepted { OnOk result
        (first_of (place_refusals map.now.doc f (path_seen path.now)) ≡ None) }
    ensures refused { IfErr result
        (λ fault. Refuses fault (first_of (place_refusals map.now.doc f (path_seen path.now)))) }
{
    if !map.has_feature(f) {
        return Err(EditFault::NoFeature);
    }
    if map.is_alone(f) {
        return Err(EditFault::NoCollection);
    }
    match is_cut(map, f, path) {
        Ok(true) => Ok(()),
        Ok(false) => Err(EditFault::NotOnOuterRing),
        Err(_) => Err(EditFault::OutOfMemory),
    }
}

/// Tests the conditions that come before any test of two segments, in their order.
fn check_split<'a, I: SegIndex, A: Allocator + Copy>(
    map: &Map<'a, I, A>,
    f: u32,
    positions: &[Pos],
) -> Result<(), EditFault>
    requires { 2 ≤ length positions.now }
    ensures accepted { OnOk result
        (first_of (early_refusals map.now.doc f (path_of positions.now)) ≡ None) }
    ensures refused { IfErr result
        (λ fault. Refuses fault (first_of (early_refusals map.now.doc f (path_of positions.now)))) }
{
    let Some(path) = ring_parts::Path::new(positions) else {
        unreachable!();
    };
    if let Err(fault) = check_place(map, f, &path) {
        return Err(fault);
    }
    check_path(map, &path, positions)
}

/// Cuts the feature along these positions, in an edit that has begun.
fn split_now<'a, I: SegIndex, A: Allocator + Copy>(
    map: &mut Map<'a, I, A>,
    f: u32,
    id: &IdText<A>,
    positions: &[Pos],
) -> Result<u32, EditFault>
    requires long { 2 ≤ length positions.now }
    requires short { length positions.now ≤ 256 }
    ensures edits { Edits map.old map.new result
        (first_of (split_refusals map.old.doc map.old.next f (string_text id.now)
        (path_of positions.now)))
        (split_map map.old f (string_text id.now) (path_of positions.now)) }
    ensures made { IfOk result (λ made. made ≡ map.old.next) }
    ensures untested { IfErr result
        (λ fault. IsTrue (comes_before_pairs fault) → map.new.tests ≡ map.old.tests) }
    ensures few { map.new.tests ≤ map.old.tests + most_for (times_by map.old.cells) map.old.doc
        (cut map.old.doc f (string_text id.now) (path_of positions.now) map.old.next) }
{
    if let Err(fault) = check_split(map, f, positions) {
        return Err(fault);
    }
    let text = json_string(id)?;
    map.raw_split(f, text, positions)
}

/// Cuts the first polygon of feature f that the path, of 2 to 256 positions, leads across: f keeps the
/// part in which the path runs backwards, and the other one becomes a new Polygon directly after it,
/// with this id and the properties and unknown members of f. A hole goes with the part that it lies in.
/// Answers the number of the new feature. Refused by the first condition that fails, or on allocation
/// failure.
pub fn split<'a, I: SegIndex, A: Allocator + Copy>(
    map: &mut Map<'a, I, A>,
    f: u32,
    id: IdText<A>,
    path: Path<A>,
) -> Result<u32, EditFault>
    requires long { 2 ≤ length path }
    requires short { length path ≤ 256 }
    ensures edits { Edits (edit_begun map.old) map.new result
        (first_of (split_refusals map.old.doc map.old.next f (string_text id) (path_of path)))
        (record (split_map map.old f (string_text id) (path_of path)) { last = map.new.last }) }
    ensures made { IfOk result (λ made. made ≡ map.old.next) }
    ensures recorded { OnOk result (IsRecorded map.old map.new) }
    ensures areas { IfOk result (λ made.
        area_of (feature_at map.new.doc f) +ℤ area_of (feature_at map.new.doc made)
        ≡ area_of (feature_at map.old.doc f)) }
    ensures untested { IfErr result (λ fault. IsTrue (comes_before_pairs fault) → map.new.tests ≡ 0) }
    ensures few { map.new.tests ≤ most_for (times_by map.old.cells) map.old.doc
        (cut map.old.doc f (string_text id) (path_of path) map.old.next) }
{
    map.begin_edit();
    let _ = map.frame(); // it tells that the document is well formed
    let _ = map.next_number(); // it tells that no feature has that number
    split_now(map, f, &id, path.0.as_slice())
}
