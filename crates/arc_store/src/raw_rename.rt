ghost use Rattle.std.specs.Prelude.{◌≡◌, Some, None};
ghost use Rattle.ring_machine.specs.Common.{Feature, feature, renamed};
ghost use Rattle.edit_records.specs.Records as made;
ghost use Rattle.topo_outline.specs.Common.{IsJson};

use crate::edit_record::Record;
use crate::map::Map;
use map_frame::Id;
use segment_index::SegIndex;
use std::alloc::Allocator;

impl<'a, I: SegIndex, A: Allocator + Copy> Map<'a, I, A> {
    /// Gives feature `n` this id, the text of a JSON value. A number that no feature has changes
    /// nothing.
    pub fn raw_rename(&mut self, n: u32, id: Vec<u8, A>)
        requires text { IsJson id.items }
        ensures renamed { (f : Feature) → feature self.old.doc n ≡ Some f → self.new ≡ record self.old {
          doc = renamed self.old.doc n id.items;
          last = Some (made.Renamed n f.id);
        } }
        ensures unchanged { feature self.old.doc n ≡ None → self.new ≡ self.old }
    {
        if self.has_feature(n) {
            let id = self.frame.rename(n, Id::given(id));
            self.keep(Record::Renamed { number: n, id });
        }
    }
}
