ghost use Rattle.std.specs.Prelude.{◌≡◌, ◌≤◌, ◌+◌, Some, OnOk, IfErr, IsTrue};
ghost use Rattle.ring_machine.specs.Common.{first_of, move_refusals, KeepsSides, put};
ghost use Rattle.edit_records.specs.Records as made;
ghost use Rattle.segment_index.specs.Common.{times_by};
ghost use Rattle.local_planarity.specs.Common.{most_for_move};
ghost use Rattle.arc_store.specs.Common.{Edits, edit_begun, IsRecorded};
ghost use Rattle.edit_vertex.specs.Untested.{needs_no_pairs};

use arc_store::{EditFault, Map};
use grid_geometry::Pos;
use segment_index::SegIndex;
use std::alloc::Allocator;

/// Moves the vertex at p to q, in an edit that has begun.
fn move_now<'a, I: SegIndex, A: Allocator + Copy>(
    map: &mut Map<'a, I, A>,
    p: Pos,
    q: Pos,
) -> Result<(), EditFault>
    ensures edits { Edits map.old map.new result (first_of (move_refusals map.old.doc p q))
        (record map.old { doc = put map.old.doc p q; last = Some (made.Moved p q) }) }
    ensures untested { IfErr result
        (λ fault. IsTrue (needs_no_pairs fault) → map.new.tests ≡ map.old.tests) }
    ensures few { map.new.tests ≤ map.old.tests
        + most_for_move (times_by map.old.cells) map.old.doc p q }
{
    if !map.has_vertex(p) {
        return Err(EditFault::NoVertex);
    }
    if map.has_vertex(q) {
        return Err(EditFault::Occupied);
    }
    map.raw_move(p, q)
}

/// Moves the vertex at p to q, in every ring that has it. Refused by the first condition that fails, or
/// on allocation failure.
pub fn move_vertex<'a, I: SegIndex, A: Allocator + Copy>(
    map: &mut Map<'a, I, A>,
    p: Pos,
    q: Pos,
) -> Result<(), EditFault>
    ensures edits { Edits (edit_begun map.old) map.new result
        (first_of (move_refusals map.old.doc p q))
        (record map.old { doc = put map.old.doc p q; last = map.new.last }) }
    ensures sides { OnOk result (KeepsSides map.old.doc map.new.doc) }
    ensures recorded { OnOk result (IsRecorded map.old map.new) }
    ensures untested { IfErr result (λ fault. IsTrue (needs_no_pairs fault) → map.new.tests ≡ 0) }
    ensures few { map.new.tests
        ≤ most_for_move (times_by map.old.cells) map.old.doc p q }
{
    map.begin_edit();
    move_now(map, p, q)
}
