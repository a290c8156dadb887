ghost use Rattle.std.specs.Prelude.{◌≡◌, ◌≢◌, ◌≤◌, ◌+◌, Some, OnOk, IfErr, IsTrue};
ghost use Rattle.grid_geometry.specs.Common.{segment};
ghost use Rattle.ring_machine.specs.Common.{is_segment, Proper, first_of, remove_refusals};
ghost use Rattle.ring_machine.specs.Common.{KeepsSides, del};
ghost use Rattle.edit_records.specs.Records as made;
ghost use Rattle.edit_records.specs.Common.{IsInserted};
ghost use Rattle.segment_index.specs.Common.{times_by};
ghost use Rattle.local_planarity.specs.Common.{most_for};
ghost use Rattle.arc_store.specs.Common.{Refuses, Edits, edit_begun, IsLeftOut, IsRecorded};
ghost use Rattle.edit_vertex.specs.Untested.{needs_no_pairs};

use arc_store::{EditFault, Map, Spot};
use grid_geometry::{Pos, Seg};
use segment_index::SegIndex;
use std::alloc::Allocator;

/// The fewest positions of a ring (RFC 7946, 3.1.6, without the repeated last one).
const FEWEST_POSITIONS: usize = 3;

/// Whether the map has the segment of two positions.
fn is_joined<'a, I: SegIndex, A: Allocator + Copy>(map: &Map<'a, I, A>, a: Pos, b: Pos) -> bool
    requires apart { a ≢ b }
    ensures { result ≡ is_segment map.now.doc (segment a b) }
{
    match Seg::new(a, b) {
        Some(s) => 0 < map.uses(s),
        None => false,
    }
}

/// Tells whether p may be left out, but for what would be in conflict or swept over.
fn check_removal<'a, I: SegIndex, A: Allocator + Copy>(
    map: &Map<'a, I, A>,
    p: Pos,
) -> Result<(), EditFault>
    requires proper { Proper map.now.doc }
    ensures leavable { OnOk result (IsInserted map.now.doc p) }
    ensures refused { IfErr result
        (λ fault. Refuses fault (first_of (remove_refusals map.now.doc p))) }
{
    let Some(spot) = map.spot(p) else {
        return Err(EditFault::NoVertex);
    };
    match &spot {
        Spot::Between(a, b, shortest) => {
            if *shortest <= FEWEST_POSITIONS {
                return Err(EditFault::RingShort);
            }
            if is_joined(map, *a, *b) {
                return Err(EditFault::SegmentExists);
            }
            Ok(())
        }
        Spot::Junction => Err(EditFault::Junction),
    }
}

/// Leaves p out of every ring, in an edit that has begun.
fn remove_now<'a, I: SegIndex, A: Allocator + Copy>(
    map: &mut Map<'a, I, A>,
    p: Pos,
) -> Result<(), EditFault>
    requires proper { Proper map.old.doc }
    ensures edits { Edits map.old map.new result (first_of (remove_refusals map.old.doc p))
        (record map.old { doc = del map.old.doc p; last = map.new.last }) }
    ensures recorded { OnOk result ((r : made.Removal)
        × (map.new.last ≡ Some (made.Removed r)) × IsLeftOut map.old.doc p r) }
    ensures untested { IfErr result
        (λ fault. IsTrue (needs_no_pairs fault) → map.new.tests ≡ map.old.tests) }
    ensures few { map.new.tests ≤ map.old.tests
        + most_for (times_by map.old.cells) map.old.doc (del map.old.doc p) }
{
    if let Err(fault) = check_removal(map, p) {
        return Err(fault);
    }
    map.raw_remove(p)
}

/// Leaves p out of every ring. Refused by the first condition that fails, or on allocation failure.
pub fn remove_vertex<'a, I: SegIndex, A: Allocator + Copy>(
    map: &mut Map<'a, I, A>,
    p: Pos,
) -> Result<(), EditFault>
    ensures edits { Edits (edit_begun map.old) map.new result
        (first_of (remove_refusals map.old.doc p))
        (record map.old { doc = del map.old.doc p; last = map.new.last }) }
    ensures sides { OnOk result (KeepsSides map.old.doc map.new.doc) }
    ensures recorded { OnOk result (IsRecorded map.old map.new) }
    ensures untested { IfErr result (λ fault. IsTrue (needs_no_pairs fault) → map.new.tests ≡ 0) }
    ensures few { map.new.tests
        ≤ most_for (times_by map.old.cells) map.old.doc (del map.old.doc p) }
{
    map.begin_edit();
    remove_now(map, p)
}
