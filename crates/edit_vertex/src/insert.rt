ghost use Rattle.std.specs.Prelude.{◌≡◌, ◌≤◌, ◌+◌, Some, OnOk, IfErr, IsTrue};
ghost use Rattle.ring_machine.specs.Common.{Proper, first_of, insert_refusals, KeepsSides, ins};
ghost use Rattle.edit_records.specs.Records as made;
ghost use Rattle.segment_index.specs.Common.{times_by};
ghost use Rattle.local_planarity.specs.Common.{most_for};
ghost use Rattle.arc_store.specs.Common.{Edits, edit_begun, IsRecorded};
ghost use Rattle.edit_vertex.specs.Untested.{needs_no_pairs};

use arc_store::{EditFault, Map};
use grid_geometry::{Pos, Seg};
use segment_index::SegIndex;
use std::alloc::Allocator;

/// The most positions of a map, each ring counted for itself.
const MOST_POSITIONS: usize = 4_000_000;

/// Puts q between a and b, in an edit that has begun.
fn insert_now<'a, I: SegIndex, A: Allocator + Copy>(
    map: &mut Map<'a, I, A>,
    a: Pos,
    b: Pos,
    q: Pos,
) -> Result<(), EditFault>
    requires proper { Proper map.old.doc }
    ensures edits { Edits map.old map.new result (first_of (insert_refusals map.old.doc a b q))
        (record map.old { doc = ins map.old.doc a b q; last = Some (made.Inserted q) }) }
    ensures untested { IfErr result
        (λ fault. IsTrue (needs_no_pairs fault) → map.new.tests ≡ map.old.tests) }
    ensures few { map.new.tests ≤ map.old.tests
        + most_for (times_by map.old.cells) map.old.doc (ins map.old.doc a b q) }
{
    let Some(s) = Seg::new(a, b) else {
        return Err(EditFault::NoSegment);
    };
    let rings = map.uses(s);
    if rings == 0 {
        return Err(EditFault::NoSegment);
    }
    if map.has_vertex(q) {
        return Err(EditFault::Occupied);
    }
    if MOST_POSITIONS.saturating_sub(map.position_count()) < rings {
        return Err(EditFault::TooLarge);
    }
    map.raw_insert(a, b, q)
}

/// Puts q between a and b, in every ring in which they are neighbours. Refused by the first condition
/// that fails, or on allocation failure.
pub fn insert_vertex<'a, I: SegIndex, A: Allocator + Copy>(
    map: &mut Map<'a, I, A>,
    a: Pos,
    b: Pos,
    q: Pos,
) -> Result<(), EditFault>
    ensures edits { Edits (edit_begun map.old) map.new result
        (first_of (insert_refusals map.old.doc a b q))
        (record map.old { doc = ins map.old.doc a b q; last = map.new.last }) }
    ensures sides { OnOk result (KeepsSides map.old.doc map.new.doc) }
    ensures recorded { OnOk result (IsRecorded map.old map.new) }
    ensures untested { IfErr result (λ fault. IsTrue (needs_no_pairs fault) → map.new.tests ≡ 0) }
    ensures few { map.new.tests
        ≤ most_for (times_by map.old.cells) map.old.doc (ins map.old.doc a b q) }
{
    map.begin_edit();
    insert_now(map, a, b, q)
}
