ghost use Rattle.std.specs.Prelude.{◌≡◌, ◌≤◌, ◌+ℤ◌, [], ◌∷◌, Some, None, OnOk, IfErr};
ghost use Rattle.ring_machine.specs.Common.{join, feature, size, area_of, first_of, merge_refusals};
ghost use Rattle.ring_machine.specs.Common.{feature_at};
ghost use Rattle.edit_records.specs.Records as made;
ghost use Rattle.arc_store.specs.Common.{Refuses, Edits, edit_begun, IsRecorded};
ghost use Rattle.split_merge.specs.Conditions.{pair_refusals, outline_refusals};

use crate::outlines::{check_rings, only_outer};
use arc_store::{EditFault, Map};
use segment_index::SegIndex;
use std::alloc::Allocator;

/// Tells whether both features are there, and are two.
fn check_pair<'a, I: SegIndex, A: Allocator + Copy>(
    map: &Map<'a, I, A>,
    f: u32,
    g: u32,
) -> Result<(), EditFault>
    ensures accepted { OnOk result (first_of (pair_refusals map.now.doc f g) ≡ None) }
    ensures refused { IfErr result
        (λ fault. Refuses fault (first_of (pair_refusals map.now.doc f g))) }
{
    if !map.has_feature(f) || !map.has_feature(g) {
        return Err(EditFault::NoFeature);
    }
    if f == g {
        return Err(EditFault::SameFeature);
    }
    Ok(())
}

/// Tells whether each of the features has one polygon, and their outer rings can be joined.
fn check_outlines<'a, I: SegIndex, A: Allocator + Copy>(
    map: &Map<'a, I, A>,
    f: u32,
    g: u32,
) -> Result<(), EditFault>
    requires { size map.now.doc ≤ 4000000 }
    ensures accepted { OnOk result (first_of (outline_refusals map.now.doc f g) ≡ None) }
    ensures refused { IfErr result
        (λ fault. Refuses fault (first_of (outline_refusals map.now.doc f g))) }
{
    let ones = map.polygons(f)?;
    let others = map.polygons(g)?;
    match (only_outer(ones.as_slice()), only_outer(others.as_slice())) {
        (Some(one), Some(other)) => check_rings(*ones.allocator(), one, other),
        _ => Err(EditFault::NotOnePolygon),
    }
}

/// Joins two features, in an edit that has begun.
fn merge_now<'a, I: SegIndex, A: Allocator + Copy>(
    map: &mut Map<'a, I, A>,
    f: u32,
    g: u32,
) -> Result<(), EditFault>
    requires { size map.old.doc ≤ 4000000 }
    ensures edits { Edits map.old map.new result (first_of (merge_refusals map.old.doc f g))
        (record map.old {
          doc = join map.old.doc f (feature_at map.old.doc g);
          last = Some (made.Exchanged
              ((f, feature map.old.doc f) ∷ (g, feature map.old.doc g) ∷ []));
        }) }
    ensures untested { map.new.tests ≡ map.old.tests }
{
    if let Err(fault) = check_pair(map, f, g) {
        return Err(fault);
    }
    if let Err(fault) = check_outlines(map, f, g) {
        return Err(fault);
    }
    map.raw_merge(f, g)
}

/// Joins feature g to feature f along the only run of segments that their outer rings have in common: f
/// has the holes of both then, and keeps its id, its properties and its members; g is taken out.
/// Refused by the first condition that fails, or on allocation failure.
pub fn merge<'a, I: SegIndex, A: Allocator + Copy>(
    map: &mut Map<'a, I, A>,
    f: u32,
    g: u32,
) -> Result<(), EditFault>
    ensures edits { Edits (edit_begun map.old) map.new result
        (first_of (merge_refusals map.old.doc f g))
        (record map.old {
          doc = join map.old.doc f (feature_at map.old.doc g);
          last = map.new.last;
        }) }
    ensures areas { OnOk result
        (area_of (feature_at map.new.doc f)
        ≡ area_of (feature_at map.old.doc f) +ℤ area_of (feature_at map.old.doc g)) }
    ensures recorded { OnOk result (IsRecorded map.old map.new) }
    ensures untested { map.new.tests ≡ 0 }
{
    map.begin_edit();
    let _ = map.frame(); // it tells how many positions a map has at most
    merge_now(map, f, g)
}
