ghost use Rattle.std.specs.Prelude.{◌≡◌, ◌≢◌, ◌≤◌, ◌+◌, ℕ, true, false, List, Some, None, [], ◌∷◌};
ghost use Rattle.std.specs.Prelude.{OnOk, OnErr, IfOk, IfErr};
ghost use Rattle.grid_geometry.specs.Common.{Segment};
ghost use Rattle.ring_machine.specs.Common.{Document, is_vertex, first_of, remove_refusals};
ghost use Rattle.ring_machine.specs.Common.{are_long, is_bridged, del, is_junction};
ghost use Rattle.edit_records.specs.Records as made;
ghost use Rattle.segment_index.specs.Common.{times_by};
ghost use Rattle.local_planarity.specs.Common.{NoneConflict, IsAfter, most_for, most_tests};
ghost use Rattle.local_planarity.specs.declared.leaving.Leaving.TheVariants.{EndingAt};
ghost use Rattle.arc_store.specs.Edits.{IsLeavable, IsRemovable};
ghost use Rattle.arc_store.specs.Faults.{Refuses};
ghost use Rattle.arc_store.specs.Outcomes.{Edits};
ghost use Rattle.arc_store.specs.Recorded.{removal_seen, IsLeftOut};

use crate::edit_record::Record;
use crate::fault::EditFault;
use crate::map::Map;
use crate::plan::test_near;
use grid_geometry::{Pos, Seg};
use local_planarity::{Leaving, TestCount, holds_end, near_move};
use ring_store::{Removal, read_bridging, take_out};
use segment_index::SegIndex;
use std::alloc::{AllocError, Allocator};

/// Tests that p may go from between the ends of a segment. The index is asked once, for the triangle of
/// the three.
fn test_remove<I: SegIndex, A: Allocator + Copy>(
    alloc: A,
    index: &I,
    p: Pos,
    after: Seg,
    tests: &mut TestCount,
) -> Result<(), EditFault>
    requires apart { NoneConflict (I.held index.now) }
    requires away { p ≢ after.lo }
    ensures accepted { OnOk result ((d : Document)
        → IsRemovable d (I.held index.now) p after
        → first_of (remove_refusals d p) ≡ None) }
    ensures refused { IfErr result (λ fault. (d : Document)
        → IsRemovable d (I.held index.now) p after
        → Refuses fault (first_of (remove_refusals d p))) }
    ensures few { (ss : List Segment)
        → IsAfter (I.held index.now) (EndingAt p) (after ∷ []) ss
        → tests.new ≤ tests.old + most_tests (times_by (I.cells index.now)) ss (after ∷ []) }
{
    let (a, b) = (after.lo, after.hi);
    let near = near_move(alloc, index, p, a, &[after])?;
    match test_near(&near, Leaving::EndingAt(p), &[after], tests) {
        Ok(()) => {
            if holds_end(near.segments(), &[a, p, b], a, p, b) {
                return Err(EditFault::Sweeps);
            }
            Ok(())
        }
        Err(fault) => Err(fault),
    }
}

impl<'a, I: SegIndex, A: Allocator + Copy> Map<'a, I, A> {
    /// Takes the vertex at p out of every ring, as a raw removal does, and keeps no record of it.
    pub(crate) fn remove_tested(&mut self, p: Pos) -> Result<Removal, EditFault>
        requires vertex { is_vertex self.old.doc p ≡ true }
        requires inner { is_junction self.old.doc p ≡ false }
        requires long { are_long self.old.doc p ≡ true }
        requires unjoined { is_bridged self.old.doc p ≡ false }
        ensures edits { Edits self.old self.new result
            (first_of (remove_refusals self.old.doc p))
            (record self.old { doc = del self.old.doc p }) }
        ensures left { IfOk result (λ r. IsLeftOut self.old.doc p (removal_seen r)) }
        ensures few { self.new.tests ≤ self.old.tests
            + most_for (times_by self.old.cells) self.old.doc (del self.old.doc p) }
    {
        let bridging = read_bridging(&self.rings, p).unwrap();
        let (k, ends, after) = (bridging.key, bridging.ends, bridging.after);
        let before = [bridging.before.0, bridging.before.1];
        let (index, tests) = (&self.rings.index, &mut self.tests);
        test_remove(self.rings.alloc, index, p, after, tests)?;
        let rings = take_out(&mut self.rings, k, ends, &before, after)?;
        self.positions -= rings;
        Ok(Removal {
            at: p,
            a: after.lo,
            b: after.hi,
        })
    }

    /// Takes the vertex at p out of every ring. It is no junction, its rings have more than three
    /// positions, and its neighbours are not joined. Refused where two segments would be in conflict,
    /// where the border sweeps over a position, or on allocation failure; then nothing changes but the
    /// count of tests.
    pub fn raw_remove(&mut self, p: Pos) -> Result<(), EditFault>
        requires vertex { is_vertex self.old.doc p ≡ true }
        requires inner { is_junction self.old.doc p ≡ false }
        requires long { are_long self.old.doc p ≡ true }
        requires unjoined { is_bridged self.old.doc p ≡ false }
        ensures edits { Edits self.old self.new result
            (first_of (remove_refusals self.old.doc p))
            (record self.old { doc = del self.old.doc p; last = self.new.last }) }
        ensures recorded { OnOk result ((r : made.Removal)
            × (self.new.last ≡ Some (made.Removed r)) × IsLeftOut self.old.doc p r) }
        ensures few { self.new.tests ≤ self.old.tests
            + most_for (times_by self.old.cells) self.old.doc (del self.old.doc p) }
    {
        let removal = self.remove_tested(p)?;
        self.last = Some(Record::Removed(removal));
        Ok(())
    }

    /// Takes the vertex at p out as a raw removal does, but makes no test of two segments and asks of
    /// no sweep: no two segments would be in conflict. Fails only on allocation failure, and then
    /// changes nothing.
    pub(crate) fn remove_tables(&mut self, p: Pos) -> Result<(), AllocError>
        requires leavable { IsLeavable self.old.doc p }
        ensures removed { OnOk result (self.new ≡ record self.old { doc = del self.old.doc p }) }
        ensures unchanged { OnErr result (self.new ≡ self.old) }
    {
        let bridging = read_bridging(&self.rings, p).unwrap();
        let (k, ends, after) = (bridging.key, bridging.ends, bridging.after);
        let before = [bridging.before.0, bridging.before.1];
        let rings = take_out(&mut self.rings, k, ends, &before, after)?;
        self.positions -= rings;
        Ok(())
    }
}
