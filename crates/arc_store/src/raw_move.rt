ghost use Rattle.std.specs.Prelude.{◌≡◌, ◌≤◌, ◌+◌, true, false, Some, OnOk, OnErr};
ghost use Rattle.ring_machine.specs.Common.{is_vertex, first_of, move_refusals, put};
ghost use Rattle.edit_records.specs.Records as made;
ghost use Rattle.segment_index.specs.Common.{times_by};
ghost use Rattle.local_planarity.specs.Common.{most_for_move};
ghost use Rattle.arc_store.specs.Edits.{IsMovable};
ghost use Rattle.arc_store.specs.Outcomes.{Edits};

use crate::edit_record::Record;
use crate::fault::EditFault;
use crate::map::Map;
use crate::plan::test_near;
use grid_geometry::Pos;
use local_planarity::{Leaving, move_sweeps, near_move};
use ring_store::{read_moving, shift};
use segment_index::SegIndex;
use std::alloc::{AllocError, Allocator};

impl<'a, I: SegIndex, A: Allocator + Copy> Map<'a, I, A> {
    /// Moves the vertex at p to q, which is none, in every ring that has it. Refused where two segments
    /// would be in conflict, where the move sweeps over a position or a segment, or on allocation
    /// failure; then nothing changes but the count of tests.
    pub fn raw_move(&mut self, p: Pos, q: Pos) -> Result<(), EditFault>
        requires vertex { is_vertex self.old.doc p ≡ true }
        requires free { is_vertex self.old.doc q ≡ false }
        ensures edits { Edits self.old self.new result
            (first_of (move_refusals self.old.doc p q))
            (record self.old { doc = put self.old.doc p q; last = Some (made.Moved p q) }) }
        ensures few { self.new.tests ≤ self.old.tests
            + most_for_move (times_by self.old.cells) self.old.doc p q }
    {
        let moving = read_moving(&self.rings, p, q)?;
        let around = moving.around.as_slice();
        let (before, after) = (moving.before.as_slice(), moving.after.as_slice());
        let near = near_move(self.rings.alloc, &self.rings.index, p, q, after)?;
        test_near(&near, Leaving::EndingAt(p), after, &mut self.tests)?;
        if move_sweeps(&near, around, p, q, &mut self.tests) {
            return Err(EditFault::Sweeps);
        }
        shift(&mut self.rings, moving.key, q, before, after)?;
        self.keep(Record::Moved { from: p, to: q });
        Ok(())
    }

    /// Moves the vertex at p to q as a raw move does, but makes no test of two segments and asks of no
    /// sweep: no two segments would be in conflict. Fails only on allocation failure, and then changes
    /// nothing.
    pub(crate) fn move_tables(&mut self, p: Pos, q: Pos) -> Result<(), AllocError>
        requires movable { IsMovable self.old.doc p q }
        ensures moved { OnOk result (self.new ≡ record self.old { doc = put self.old.doc p q }) }
        ensures unchanged { OnErr result (self.new ≡ self.old) }
    {
        let moving = read_moving(&self.rings, p, q)?;
        let (before, after) = (moving.before.as_slice(), moving.after.as_slice());
        shift(&mut self.rings, moving.key, q, before, after)?;
        Ok(())
    }
}
