ghost use Rattle.std.specs.Prelude.{◌≡◌, [], ◌∷◌, Some, None};
ghost use Rattle.ring_machine.specs.Common.{join, feature, first_of, merge_refusals, feature_at};
ghost use Rattle.edit_records.specs.Records as made;
ghost use Rattle.arc_store.specs.Outcomes.{Edits};

use crate::edit_record::Record;
use crate::fault::EditFault;
use crate::map::Map;
use feature_exchange::{Change, one_polygon, two_changes};
use ring_parts::join_polygons;
use segment_index::SegIndex;
use std::alloc::Allocator;

impl<'a, I: SegIndex, A: Allocator + Copy> Map<'a, I, A> {
    /// Joins feature `g` to feature `n` along the common run of their outer rings: `n` has the holes of
    /// both then, and keeps its id, its properties and its members, and `g` is taken out. Fails only on
    /// allocation failure, and then changes nothing.
    pub fn raw_merge(&mut self, n: u32, g: u32) -> Result<(), EditFault>
        requires { first_of (merge_refusals self.old.doc n g) ≡ None }
        ensures edits { Edits self.old self.new result None (record self.old {
          doc = join self.old.doc n (feature_at self.old.doc g);
          last = Some (made.Exchanged
              ((n, feature self.old.doc n) ∷ (g, feature self.old.doc g) ∷ []));
        }) }
        ensures tests { self.new.tests ≡ self.old.tests }
    {
        let ones = self.polygons(n)?;
        let others = self.polygons(g)?;
        let rings = join_polygons(self.rings.alloc, ones[0].as_slice(), others[0].as_slice())?;
        let _ = self.next_number();
        let joined = self.with_polygons(n, one_polygon(self.rings.alloc, rings)?)?;
        let gone = Change {
            number: g,
            was: None,
        };
        let mut changes = two_changes(self.rings.alloc, joined, gone)?;
        self.exchange(None, changes.as_mut_slice())?;
        self.last = Some(Record::Exchanged(changes));
        Ok(())
    }
}
