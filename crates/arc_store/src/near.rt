ghost use Rattle.std.specs.Prelude.{map, IsTrue, OnOk};
ghost use Rattle.ring_machine.specs.Common.{features, are_distinct};
ghost use Rattle.arc_store.specs.Near.{ListsNear};

use crate::map::Map;
use grid_geometry::{Rect, Seg};
use segment_index::SegIndex;
use std::alloc::{AllocError, Allocator};

impl<'a, I: SegIndex, A: Allocator + Copy> Map<'a, I, A> {
    /// Appends segments of the map, among them every one whose box meets the asked box; a segment may
    /// be appended more than once. Fails only on allocation failure; some of them may then have been
    /// appended. No two features have one number.
    pub fn candidates<B: Allocator>(
        &self,
        rect: Rect,
        out: &mut Vec<Seg, B>,
    ) -> Result<(), AllocError>
        ensures near { OnOk result (ListsNear self.now.doc rect out.old.items out.new.items) }
        ensures distinct { IsTrue (are_distinct (map (λ f. f.number) (features self.now.doc))) }
    {
        match self.rings.index.candidates(rect, out) {
            Ok(()) => Ok(()),
            Err(e) => Err(e),
        }
    }
}
