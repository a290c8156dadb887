// The test of a planned edit.
ghost use Rattle.std.specs.Prelude.{◌≡◌, ◌≤◌, ◌+◌, List, None, OnOk, IfErr};
ghost use Rattle.grid_geometry.specs.Common.{Segment};
ghost use Rattle.ring_machine.specs.Common.{least_conflict, conflict_of};
ghost use Rattle.segment_index.specs.Common.{times_by};
ghost use Rattle.local_planarity.specs.Common.{NoneConflict, IsAfter, most_tests};
ghost use Rattle.arc_store.specs.Faults.{Refuses};

use crate::fault::EditFault;
use grid_geometry::Seg;
use local_planarity::{Leaving, TestCount, first_conflict, first_conflict_near};
use segment_index::{ListIndex, SegIndex};
use std::alloc::Allocator;

/// Tests that no two segments conflict once the added ones come and the leaving ones go. Fails with the
/// least pair that does, or on allocation failure.
pub(crate) fn test_planar<I: SegIndex, A: Allocator + Copy>(
    alloc: A,
    index: &I,
    leaving: Leaving,
    added: &[Seg],
    tests: &mut TestCount,
) -> Result<(), EditFault>
    requires { NoneConflict (I.held index.now) }
    ensures apart { OnOk result ((ss : List Segment)
        → IsAfter (I.held index.now) leaving added.now ss → least_conflict ss ≡ None) }
    ensures refused { IfErr result (λ fault. (ss : List Segment)
        → IsAfter (I.held index.now) leaving added.now ss
        → Refuses fault (conflict_of (least_conflict ss))) }
    ensures few { (ss : List Segment) → IsAfter (I.held index.now) leaving added.now ss
        → tests.new ≤ tests.old + most_tests (times_by (I.cells index.now)) ss added.now }
{
    match first_conflict(alloc, index, leaving, added, tests) {
        Ok(Some((s, t))) => Err(EditFault::Conflict { s, t }),
        Ok(None) => Ok(()),
        Err(_) => Err(EditFault::OutOfMemory),
    }
}

/// Tests the same of the segments of a list alone. Fails with the least pair that conflicts.
pub(crate) fn test_near<A: Allocator + Copy>(
    near: &ListIndex<A>,
    leaving: Leaving,
    added: &[Seg],
    tests: &mut TestCount,
) -> Result<(), EditFault>
    requires { NoneConflict near.now }
    ensures apart { OnOk result ((ss : List Segment)
        → IsAfter near.now leaving added.now ss → least_conflict ss ≡ None) }
    ensures refused { IfErr result (λ fault. (ss : List Segment)
        → IsAfter near.now leaving added.now ss
        → Refuses fault (conflict_of (least_conflict ss))) }
    ensures few { (ss : List Segment) → IsAfter near.now leaving added.now ss
        → tests.new ≤ tests.old + most_tests (times_by None) ss added.now }
{
    match first_conflict_near(near, leaving, added, tests) {
        Some((s, t)) => Err(EditFault::Conflict { s, t }),
        None => Ok(()),
    }
}
