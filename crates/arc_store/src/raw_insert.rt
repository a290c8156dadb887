ghost use Rattle.std.specs.Prelude.{◌≡◌, ◌≢◌, ◌≤◌, ◌+◌, ℕ, true, false, List, Some, None, [], ◌∷◌};
ghost use Rattle.std.specs.Prelude.{OnOk, OnErr, IfOk, IfErr};
ghost use Rattle.grid_geometry.specs.Common.{Segment, segment};
ghost use Rattle.ring_machine.specs.Common.{Document, is_vertex, is_segment, size, first_of};
ghost use Rattle.ring_machine.specs.Common.{insert_refusals, ins};
ghost use Rattle.edit_records.specs.Records as made;
ghost use Rattle.segment_index.specs.Common.{times_by};
ghost use Rattle.local_planarity.specs.Common.{NoneConflict, IsAfter, most_for, most_tests};
ghost use Rattle.local_planarity.specs.declared.leaving.Leaving.TheVariants.{One};
ghost use Rattle.arc_store.specs.Edits.{IsInsertable, IsPlaceable};
ghost use Rattle.arc_store.specs.Faults.{Refuses};
ghost use Rattle.arc_store.specs.Outcomes.{Edits};
ghost use Rattle.ring_store.specs.Planned as planned;

use crate::edit_record::Record;
use crate::fault::EditFault;
use crate::map::Map;
use crate::plan::test_planar;
use grid_geometry::{Pos, Seg};
use local_planarity::{Leaving, TestCount, holds_other};
use ring_store::{put_in, read_parting};
use segment_index::SegIndex;
use std::alloc::{AllocError, Allocator};

/// Tests that nothing stands in the way of q between the ends of a segment, which goes while the
/// added ones come.
fn test_insert<I: SegIndex, A: Allocator + Copy>(
    alloc: A,
    index: &I,
    before: Seg,
    ends: (Pos, Pos),
    q: Pos,
    after: &[Seg],
    tests: &mut TestCount,
) -> Result<(), EditFault>
    requires apart { NoneConflict (I.held index.now) }
    requires before { before ≡ segment ends.0 ends.1 }
    requires after { after.now ≡ planned.spokes q (ends.0 ∷ ends.1 ∷ []) }
    ensures accepted { OnOk result ((d : Document)
        → IsInsertable d (I.held index.now) ends.0 ends.1 q
        → first_of (insert_refusals d ends.0 ends.1 q) ≡ None) }
    ensures refused { IfErr result (λ fault. (d : Document)
        → IsInsertable d (I.held index.now) ends.0 ends.1 q
        → Refuses fault (first_of (insert_refusals d ends.0 ends.1 q))) }
    ensures few { (ss : List Segment) → IsAfter (I.held index.now) (One before) after.now ss
        → tests.new ≤ tests.old + most_tests (times_by (I.cells index.now)) ss after.now }
{
    let (a, b) = ends;
    match test_planar(alloc, index, Leaving::One(before), after, tests) {
        Ok(()) => match holds_other(alloc, index, &[a, b], a, b, q) {
            Ok(true) => Err(EditFault::Sweeps),
            Ok(false) => Ok(()),
            Err(_) => Err(EditFault::OutOfMemory),
        },
        Err(fault) => Err(fault),
    }
}

impl<'a, I: SegIndex, A: Allocator + Copy> Map<'a, I, A> {
    /// Puts q, which is no vertex, between a and b in every ring that has their segment. Refused where
    /// two segments would be in conflict, where the border sweeps over a position, or on allocation
    /// failure; then nothing changes but the count of tests.
    pub fn raw_insert(&mut self, a: Pos, b: Pos, q: Pos) -> Result<(), EditFault>
        requires apart { a ≢ b }
        requires segment { is_segment self.old.doc (segment a b) ≡ true }
        requires free { is_vertex self.old.doc q ≡ false }
        requires small { size (ins self.old.doc a b q) ≤ 4000000 }
        ensures edits { Edits self.old self.new result
            (first_of (insert_refusals self.old.doc a b q))
            (record self.old { doc = ins self.old.doc a b q; last = Some (made.Inserted q) }) }
        ensures few { self.new.tests ≤ self.old.tests
            + most_for (times_by self.old.cells) self.old.doc (ins self.old.doc a b q) }
    {
        let parting = read_parting(&self.rings, a, b, q)?;
        let (ends, before) = (parting.ends, parting.before);
        let after = parting.after.as_slice();
        let (index, tests) = (&self.rings.index, &mut self.tests);
        test_insert(self.rings.alloc, index, before, (a, b), q, after, tests)?;
        let rings = put_in(&mut self.rings, ends, q, before, after)?;
        self.positions += rings;
        self.keep(Record::Inserted(q));
        Ok(())
    }

    /// Puts q between a and b as a raw insertion does, but makes no test of two segments and asks of no
    /// sweep: no two segments would be in conflict. Fails only on allocation failure, and then changes
    /// nothing.
    pub(crate) fn insert_tables(&mut self, a: Pos, b: Pos, q: Pos) -> Result<(), AllocError>
        requires placeable { IsPlaceable self.old.doc a b q }
        ensures inserted { OnOk result (self.new ≡ record self.old { doc = ins self.old.doc a b q }) }
        ensures unchanged { OnErr result (self.new ≡ self.old) }
    {
        let parting = read_parting(&self.rings, a, b, q)?;
        let (ends, before) = (parting.ends, parting.before);
        let after = parting.after.as_slice();
        let rings = put_in(&mut self.rings, ends, q, before, after)?;
        self.positions += rings;
        Ok(())
    }
}
