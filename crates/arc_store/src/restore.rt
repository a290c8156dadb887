// Edits taken back.
ghost use Rattle.std.specs.Prelude.{◌≡◌, None, map, reverse, OnOk, OnErr, IfErr};
ghost use Rattle.std.specs.List.{fold};
ghost use Rattle.ring_machine.specs.Common.{put, ins, del};
ghost use Rattle.edit_records.specs.Common.{exchanged, Undoes, AreRemoved, IsMap, back, put_back};
ghost use Rattle.edit_records.specs.Common.{with_id};
ghost use Rattle.edit_records.specs.Records as machine;
ghost use Rattle.topo_outline.specs.Common.{KeepsTexts};
ghost use Rattle.feature_exchange.specs.Common.{seen};
ghost use Rattle.arc_store.specs.Edits.{IsMovable, IsPlaceable, IsLeavable};
ghost use Rattle.arc_store.specs.Recorded.{record_seen, removal_seen};

use crate::edit_record::Record;
use crate::map::Map;
use feature_exchange::Change;
use grid_geometry::Pos;
use map_frame::Id;
use ring_store::{Removal, put_all};
use segment_index::SegIndex;
use std::alloc::{AllocError, Allocator};

impl<'a, I: SegIndex, A: Allocator + Copy> Map<'a, I, A> {
    /// The vertex that moved stands at `from` again.
    fn move_back(&mut self, from: Pos, to: Pos) -> Result<(), Record<'a, A>>
        requires { IsMovable self.old.doc to from }
        ensures moved { OnOk result (self.new ≡ record self.old { doc = put self.old.doc to from }) }
        ensures handed { IfErr result (λ kept. record_seen kept ≡ machine.Moved from to) }
        ensures unchanged { OnErr result (self.new ≡ self.old) }
    {
        match self.move_tables(to, from) {
            Ok(()) => Ok(()),
            Err(_) => Err(Record::Moved { from, to }),
        }
    }

    /// The vertex that came is none again.
    fn leave_out(&mut self, at: Pos) -> Result<(), Record<'a, A>>
        requires { IsLeavable self.old.doc at }
        ensures left { OnOk result (self.new ≡ record self.old { doc = del self.old.doc at }) }
        ensures handed { IfErr result (λ kept. record_seen kept ≡ machine.Inserted at) }
        ensures unchanged { OnErr result (self.new ≡ self.old) }
    {
        match self.remove_tables(at) {
            Ok(()) => Ok(()),
            Err(_) => Err(Record::Inserted(at)),
        }
    }

    /// The vertex that was left out stands between its neighbours again.
    fn put_back(&mut self, r: Removal) -> Result<(), Record<'a, A>>
        requires { IsPlaceable self.old.doc r.a r.b r.at }
        ensures put { OnOk result
            (self.new ≡ record self.old { doc = ins self.old.doc r.a r.b r.at }) }
        ensures handed { IfErr result (λ kept. record_seen kept ≡ machine.Removed (removal_seen r)) }
        ensures unchanged { OnErr result (self.new ≡ self.old) }
    {
        match self.insert_tables(r.a, r.b, r.at) {
            Ok(()) => Ok(()),
            Err(_) => Err(Record::Removed(r)),
        }
    }

    /// The vertices that were left out stand between their neighbours again, the first in the list
    /// first.
    fn put_back_all(&mut self, removals: &[Removal]) -> Result<(), AllocError>
        requires fits { AreRemoved self.old.doc (map removal_seen removals.now) }
        ensures put { OnOk result (self.new ≡ record self.old {
          doc = fold put_back self.old.doc (map removal_seen removals.now);
        }) }
        ensures unchanged { OnErr result (self.new ≡ self.old) }
    {
        let count = put_all(&mut self.rings, removals)?;
        self.positions += count;
        Ok(())
    }

    /// All vertices that were left out stand again, the newest first.
    fn thin_back(&mut self, mut removals: Vec<Removal, A>) -> Result<(), Record<'a, A>>
        requires fits { AreRemoved self.old.doc (reverse (map removal_seen removals.items)) }
        ensures put { OnOk result (self.new ≡ record self.old {
          doc = fold put_back self.old.doc (reverse (map removal_seen removals.items));
        }) }
        ensures handed { IfErr result (λ kept. record_seen kept
            ≡ machine.Thinned (reverse (map removal_seen removals.items))) }
        ensures unchanged { OnErr result (self.new ≡ self.old) }
    {
        removals.reverse();
        match self.put_back_all(removals.as_slice()) {
            Ok(()) => Ok(()),
            Err(_) => {
                removals.reverse();
                Err(Record::Thinned(removals))
            }
        }
    }

    /// Feature `number` has its id again, or none.
    fn name_back(&mut self, number: u32, id: Id<'a, A>)
        requires texts { KeepsTexts (with_id self.old.doc number id) }
        requires map { IsMap (with_id self.old.doc number id) }
        ensures { self.new ≡ record self.old { doc = with_id self.old.doc number id.entry } }
    {
        self.frame.rename(number, id);
    }

    /// The numbers have the features again that they had.
    fn exchange_back(&mut self, mut changes: Vec<Change<'a, A>, A>) -> Result<(), Record<'a, A>>
        requires undoes { Undoes self.old.places self.old.next self.old.doc
            (machine.Exchanged (seen changes.items)) }
        requires texts { KeepsTexts (exchanged self.old.places (seen changes.items) self.old.doc) }
        ensures exchanged { OnOk result (self.new ≡ record self.old {
          doc = exchanged self.old.places (seen changes.entry.items) self.old.doc;
        }) }
        ensures handed { IfErr result (λ kept. record_seen kept
            ≡ machine.Exchanged (seen changes.entry.items)) }
        ensures unchanged { OnErr result (self.new ≡ self.old) }
    {
        match self.exchange(None, changes.as_mut_slice()) {
            Ok(()) => Ok(()),
            Err(_) => Err(Record::Exchanged(changes)),
        }
    }

    /// Takes an edit back: the map has the document again that it had before. No test is made. The next
    /// number stays, and so do the places of all numbers. Fails only on allocation failure; then the
    /// document is as it was, and the record is handed back.
    pub fn restore(&mut self, made: Record<'a, A>) -> Result<(), Record<'a, A>>
        requires undoes { Undoes self.old.places self.old.next self.old.doc (record_seen made) }
        requires texts { KeepsTexts (back self.old.places (record_seen made) self.old.doc) }
        ensures restored { OnOk result (self.new ≡ record self.old {
          doc = back self.old.places (record_seen made.entry) self.old.doc;
          tests = 0;
          last = None;
        }) }
        ensures handed { IfErr result (λ kept. record_seen kept ≡ record_seen made.entry) }
        ensures unchanged { OnErr result (self.new ≡ record self.old { tests = 0; last = None }) }
    {
        self.begin_edit();
        match made {
            Record::Moved { from, to } => self.move_back(from, to),
            Record::Inserted(at) => self.leave_out(at),
            Record::Removed(removal) => self.put_back(removal),
            Record::Thinned(removals) => self.thin_back(removals),
            Record::Renamed { number, id } => {
                self.name_back(number, id);
                Ok(())
            }
            Record::Exchanged(changes) => self.exchange_back(changes),
        }
    }
}
