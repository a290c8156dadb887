ghost use Rattle.std.specs.Prelude.{◌≡◌, ◌≤◌, ◌+◌, true, false, Some, None, ◌∷◌, OnOk, OnErr, IfErr};
ghost use Rattle.ring_machine.specs.Common.{is_vertex, first_of, remove_refusals, are_long};
ghost use Rattle.ring_machine.specs.Common.{is_bridged, del, is_junction};
ghost use Rattle.edit_records.specs.Records as made;
ghost use Rattle.segment_index.specs.Common.{times_by};
ghost use Rattle.local_planarity.specs.Common.{most_for};
ghost use Rattle.arc_store.specs.Outcomes.{Edits};
ghost use Rattle.arc_store.specs.Recorded.{IsLeftOut, IsThinning, left_out, thinning_record};

use crate::edit_record::Record;
use crate::fault::EditFault;
use crate::map::Map;
use grid_geometry::Pos;
use ring_store::Removal;
use segment_index::SegIndex;
use std::alloc::Allocator;

impl<'a, I: SegIndex, A: Allocator + Copy> Map<'a, I, A> {
    /// Hands out the vertices that the edit has left out so far.
    fn take_thinned(&mut self) -> Vec<Removal, A>
        requires thinning { IsThinning self.old.last }
        ensures handed { thinning_record result.items ≡ self.old.last }
        ensures taken { self.new ≡ record self.old { last = None } }
    {
        match self.last.take() {
            Some(Record::Thinned(removals)) => removals,
            Some(_other) => Vec::new(self.rings.alloc),
            None => Vec::new(self.rings.alloc),
        }
    }

    /// Keeps them as what takes the edit back.
    fn keep_thinned(&mut self, removals: Vec<Removal, A>)
        ensures { self.new ≡ record self.old { last = thinning_record removals.items } }
    {
        self.last = if removals.is_empty() {
            None
        } else {
            Some(Record::Thinned(removals))
        };
    }

    /// Takes the vertex at p out as a raw removal does, in an edit that leaves several out: its
    /// record has all that this edit took out so.
    pub fn raw_thin(&mut self, p: Pos) -> Result<(), EditFault>
        requires vertex { is_vertex self.old.doc p ≡ true }
        requires inner { is_junction self.old.doc p ≡ false }
        requires long { are_long self.old.doc p ≡ true }
        requires unjoined { is_bridged self.old.doc p ≡ false }
        requires thinning { IsThinning self.old.last }
        ensures edits { Edits self.old self.new result
            (first_of (remove_refusals self.old.doc p))
            (record self.old { doc = del self.old.doc p; last = self.new.last }) }
        ensures recorded { OnOk result ((r : made.Removal)
            × (self.new.last ≡ Some (made.Thinned (r ∷ left_out self.old.last)))
            × IsLeftOut self.old.doc p r) }
        ensures few { self.new.tests ≤ self.old.tests
            + most_for (times_by self.old.cells) self.old.doc (del self.old.doc p) }
    {
        let mut removals = self.take_thinned();
        if removals.reserve(1).is_err() {
            self.keep_thinned(removals);
            return Err(EditFault::OutOfMemory);
        }
        match self.remove_tested(p) {
            Ok(removal) => {
                removals.push_reserved(removal);
                self.keep_thinned(removals);
                Ok(())
            }
            Err(fault) => {
                self.keep_thinned(removals);
                Err(fault)
            }
        }
    }
}
