ghost use Rattle.std.specs.Prelude.{◌≡◌, true, [], ◌∷◌, Some, None, OnOk};
ghost use Rattle.ring_machine.specs.Common.{take_out, feature, has_feature};
ghost use Rattle.edit_records.specs.Records as made;
ghost use Rattle.arc_store.specs.Outcomes.{Edits};

use crate::edit_record::Record;
use crate::fault::EditFault;
use crate::map::Map;
use feature_exchange::{Change, one_change};
use segment_index::SegIndex;
use std::alloc::Allocator;

impl<'a, I: SegIndex, A: Allocator + Copy> Map<'a, I, A> {
    /// Takes feature `n` out of its collection; one that is itself the geometry of a layer becomes an
    /// empty collection (TopoJSON 1.0, 2.2.7). A number that no feature has changes nothing. Fails only
    /// on allocation failure, and then changes nothing.
    pub fn raw_delete(&mut self, n: u32) -> Result<(), EditFault>
        ensures edits { Edits self.old self.new result None
            (record self.old { doc = take_out self.old.doc n; last = self.new.last }) }
        ensures recorded { OnOk result (has_feature self.old.doc n ≡ true
            → self.new.last ≡ Some (made.Exchanged ((n, feature self.old.doc n) ∷ []))) }
        ensures tests { self.new.tests ≡ self.old.tests }
    {
        if !self.has_feature(n) {
            return Ok(());
        }
        let _ = self.next_number();
        let gone = Change {
            number: n,
            was: None,
        };
        let mut changes = one_change(self.rings.alloc, gone)?;
        self.exchange(None, changes.as_mut_slice())?;
        self.last = Some(Record::Exchanged(changes));
        Ok(())
    }
}
