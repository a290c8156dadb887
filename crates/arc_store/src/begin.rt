ghost use Rattle.std.specs.Prelude.{◌≡◌, None, Some, option_map};
ghost use Rattle.ring_machine.specs.Common.{Proper};
ghost use Rattle.edit_records.specs.Common.{IsHeld};
ghost use Rattle.topo_outline.specs.Common.{KeepsTexts};
ghost use Rattle.arc_store.specs.Recorded.{record_seen};

use crate::edit_record::Record;
use crate::map::Map;
use local_planarity::TestCount;
use segment_index::SegIndex;
use std::alloc::Allocator;

impl<'a, I: SegIndex, A: Allocator + Copy> Map<'a, I, A> {
    /// An edit begins: no test was made so far, and nothing is to be taken back. Every ring is a
    /// linear ring (RFC 7946, 3.1.6), no two segments conflict, and the features stand at the places
    /// of their numbers, as in every map.
    pub fn begin_edit(&mut self)
        ensures begun { self.new ≡ record self.old { tests = 0; last = None } }
        ensures proper { Proper self.new.doc }
        ensures held { IsHeld self.new.places self.new.next self.new.doc }
        ensures keeps { KeepsTexts self.new.doc }
    {
        let _ = self.frame.next(); // it tells where numbers stand
        self.tests = TestCount::new();
        self.last = None;
    }

    /// Keeps what takes the edit back.
    pub(crate) fn keep(&mut self, made: Record<'a, A>)
        ensures { self.new ≡ record self.old { last = Some (record_seen made.entry) } }
    {
        self.last = Some(made);
    }

    /// What takes the last edit back: a record where it changed the map, and none where it was
    /// refused, changed nothing, or the record was handed out before. Takes no memory.
    pub fn take_record(&mut self) -> Option<Record<'a, A>>
        ensures handed { option_map record_seen result ≡ self.old.last }
        ensures taken { self.new ≡ record self.old { last = None } }
    {
        self.last.take()
    }
}
