ghost use Rattle.std.specs.Prelude.{◌≡◌, ◌≤◌, ◌<◌, ◌+◌, ℕ, true, false, List, None, map, length};
ghost use Rattle.std.specs.Prelude.{IfOk, OnOk, OnErr, IfErr, IsTrue};
ghost use Rattle.std.specs.List.{list_any};
ghost use Rattle.grid_geometry.specs.Common.{links, Segment};
ghost use Rattle.ring_machine.specs.Common.{cut, path_of, is_cut_by, Document, Text, has_feature};
ghost use Rattle.ring_machine.specs.Common.{is_vertex, Proper, first_of, split_refusals};
ghost use Rattle.ring_machine.specs.Common.{feature_at, is_layer, positions_of, is_path_segment};
ghost use Rattle.ring_machine.specs.Common.{is_distinct, segment_of, WellFormed};
ghost use Rattle.topo_outline.specs.Common.{IsJson};
ghost use Rattle.ring_parts.specs.Common.{path_seen, rings_seen, outer_length};
ghost use Rattle.segment_index.specs.Common.{times_by};
ghost use Rattle.local_planarity.specs.Common.{NoneConflict, IsAfter, most_for, most_tests};
ghost use Rattle.local_planarity.specs.declared.leaving.Leaving.TheVariants.{Nothing};
ghost use Rattle.arc_store.specs.Faults.{Refuses};
ghost use Rattle.arc_store.specs.Outcomes.{Edits, split_map};
ghost use Rattle.arc_store.specs.Splits.{IsCuttable, IsFound, IsTested, has_room};

use crate::edit_record::Record;
use crate::fault::EditFault;
use crate::map::Map;
use crate::plan::test_planar;
use feature_exchange::two_changes;
use grid_geometry::{Pos, Seg};
use local_planarity::{Leaving, TestCount};
use ring_parts::{Path, both_parts, first_cut, is_wrong_side, way_segments};
use segment_index::SegIndex;
use std::alloc::{AllocError, Allocator};
use std::mem;

/// Whether a number is left for a feature, and there is room for a path with so many inner positions
/// in a map of so many positions.
fn has_room(next: u32, positions: usize, inner: usize) -> bool
    requires many { positions ≤ 4000000 }
    requires short { inner ≤ 256 }
    ensures { result ≡ has_room next positions inner }
{
    next < 200_000 && positions + 2 + 2 * inner <= 4_000_000
}

/// Tests a path that cuts a polygon, whose segments are these: that none conflicts, that both parts
/// lie on their sides, and that there is room.
fn test_split<I: SegIndex, A: Allocator + Copy>(
    alloc: A,
    index: &I,
    path: &Path<'_>,
    polygon: &[Vec<Pos, A>],
    added: &[Seg],
    room: bool,
    tests: &mut TestCount,
) -> Result<(), EditFault>
    requires apart { NoneConflict (I.held index.now) }
    requires short { outer_length (rings_seen polygon.now) + length path.now.inner.now
        < 1099511627776 }
    requires added { added.now ≡ map segment_of (links (positions_of (path_seen path.now))) }
    ensures accepted { OnOk result ((d : Document) (next n : ℕ) (id : Text)
        → IsTested d (I.held index.now) next n (path_seen path.now) (rings_seen polygon.now) room
        → first_of (split_refusals d next n id (path_seen path.now)) ≡ None) }
    ensures refused { IfErr result (λ fault. (d : Document) (next n : ℕ) (id : Text)
        → IsTested d (I.held index.now) next n (path_seen path.now) (rings_seen polygon.now) room
        → Refuses fault (first_of (split_refusals d next n id (path_seen path.now)))) }
    ensures few { (ss : List Segment) → IsAfter (I.held index.now) Nothing added.now ss
        → tests.new ≤ tests.old + most_tests (times_by (I.cells index.now)) ss added.now }
{
    match test_planar(alloc, index, Leaving::Nothing, added, tests) {
        Ok(()) => match is_wrong_side(alloc, path, polygon) {
            Ok(true) => Err(EditFault::WrongSide),
            Ok(false) => {
                if room {
                    Ok(())
                } else {
                    Err(EditFault::TooLarge)
                }
            }
            Err(_) => Err(EditFault::OutOfMemory),
        },
        Err(fault) => Err(fault),
    }
}

/// The first polygon of a feature that a path cuts.
#[derive(Drop)]
struct FirstCut<A: Allocator + Copy> {
    /// Its place among the polygons of the feature.
    place: usize,
    /// Its rings, the outer one first.
    rings: Vec<Vec<Pos, A>, A>,
    /// The polygons of the feature, with none of its rings in this place.
    others: Vec<Vec<Vec<Pos, A>, A>, A>,
}

impl<'a, I: SegIndex, A: Allocator + Copy> Map<'a, I, A> {
    /// The first polygon of feature `n` that a path cuts. Fails only on allocation failure. Every map
    /// is well formed, and no two of its segments conflict.
    fn find_cut(&self, n: u32, path: &Path<'_>) -> Result<FirstCut<A>, AllocError>
        requires { list_any (is_cut_by (path_seen path.now)) (feature_at self.now.doc n).polygons
            ≡ true }
        ensures found { IfOk result (IsFound self.now.doc n (path_seen path.now)) }
        ensures formed { WellFormed self.now.doc }
        ensures proper { Proper self.now.doc }
    {
        let _ = self.next_number(); // it tells that the map is one
        let mut others = self.polygons(n)?;
        let Some(place) = first_cut(path, others.as_slice()) else {
            unreachable!()
        };
        let rings = mem::replace(&mut others[place], Vec::new(self.rings.alloc));
        Ok(FirstCut {
            place,
            rings,
            others,
        })
    }

    /// Tests that the path of these positions may cut feature `n`, in the polygon that was found.
    /// Only the count of tests changes.
    fn test_cut(
        &mut self,
        n: u32,
        path: &Path<'_>,
        positions: &[Pos],
        found: &FirstCut<A>,
    ) -> Result<(), EditFault>
        requires short { length positions.now ≤ 256 }
        requires along { positions_of (path_seen path.now) ≡ positions.now }
        requires cuttable { IsCuttable self.old.doc n (path_seen path.now) }
        requires found { IsFound self.old.doc n (path_seen path.now) found.now }
        ensures accepted { OnOk result ((id : Text)
            → first_of (split_refusals self.old.doc self.old.next n id (path_seen path.now)) ≡ None) }
        ensures refused { IfErr result (λ fault. (id : Text) → Refuses fault
            (first_of (split_refusals self.old.doc self.old.next n id (path_seen path.now)))) }
        ensures unchanged { self.new ≡ record self.old { tests = self.new.tests } }
        ensures few { (id : Text) → self.new.tests ≤ self.old.tests
            + most_for (times_by self.old.cells) self.old.doc
            (cut self.old.doc n id (path_seen path.now) self.old.next) }
    {
        let added = way_segments(self.rings.alloc, positions)?;
        let added = added.as_slice();
        let room = has_room(self.frame.next(), self.positions, path.inner.len());
        let polygon = found.rings.as_slice();
        let (index, tests) = (&self.rings.index, &mut self.tests);
        match test_split(self.rings.alloc, index, path, polygon, added, room, tests) {
            Ok(()) => Ok(()),
            Err(fault) => Err(fault),
        }
    }

    /// Parts feature `n` in the polygon that was found, along a path that may cut it, and answers the
    /// number of the new feature. Fails only on allocation failure, and then changes nothing.
    fn exchange_parts(
        &mut self,
        n: u32,
        id: Vec<u8, A>,
        path: &Path<'_>,
        found: FirstCut<A>,
    ) -> Result<u32, AllocError>
        requires text { IsJson id.items }
        requires cuttable { IsCuttable self.old.doc n (path_seen path.now) }
        requires found { IsFound self.old.doc n (path_seen path.now) found }
        requires accepted { first_of
            (split_refusals self.old.doc self.old.next n id.items (path_seen path.now)) ≡ None }
        ensures number { IfOk result (λ made. made ≡ self.old.next) }
        ensures split { OnOk result
            (self.new ≡ split_map self.old n id.items (path_seen path.now)) }
        ensures unchanged { OnErr result (self.new ≡ self.old) }
    {
        let FirstCut {
            place,
            rings,
            mut others,
        } = found;
        let (first, second) = both_parts(self.rings.alloc, path, rings.as_slice())?;
        others[place] = first;
        let number = self.next_number();
        let kept = self.with_polygons(n, others)?;
        let part = self.part_of(n, number, id, second)?;
        let mut changes = two_changes(self.rings.alloc, kept, part)?;
        self.exchange(Some(n), changes.as_mut_slice())?;
        self.last = Some(Record::Exchanged(changes));
        Ok(number)
    }

    /// Cuts the first polygon of feature `n` that the path of these positions cuts: `n` keeps the part
    /// in which the path runs backwards, and the other one becomes a new Polygon directly after it,
    /// with this id and the properties and unknown members of `n`. Answers the number of the new
    /// feature. Refused where two segments would be in conflict, where a part would lie on the wrong
    /// side, where no number is left or the map would be too large, or on allocation failure; then
    /// nothing changes but the count of tests.
    pub fn raw_split(&mut self, n: u32, id: Vec<u8, A>, positions: &[Pos]) -> Result<u32, EditFault>
        requires long { 2 ≤ length positions.now }
        requires short { length positions.now ≤ 256 }
        requires text { IsJson id.items }
        requires there { has_feature self.old.doc n ≡ true }
        requires inside { is_layer self.old.doc n ≡ false }
        requires cut { list_any (is_cut_by (path_of positions.now))
            (feature_at self.old.doc n).polygons ≡ true }
        requires different { is_distinct (positions_of (path_of positions.now)) ≡ true }
        requires free { list_any (is_vertex self.old.doc) (path_of positions.now).inner ≡ false }
        requires new { is_path_segment self.old.doc (path_of positions.now) ≡ false }
        ensures edits { Edits self.old self.new result
            (first_of (split_refusals self.old.doc self.old.next n id.items (path_of positions.now)))
            (split_map self.old n id.items (path_of positions.now)) }
        ensures number { IfOk result (λ made. made ≡ self.old.next) }
        ensures few { self.new.tests ≤ self.old.tests
            + most_for (times_by self.old.cells) self.old.doc
            (cut self.old.doc n id.items (path_of positions.now) self.old.next) }
    {
        let Some(path) = Path::new(positions) else {
            return Err(EditFault::NotOnOuterRing);
        };
        let found = self.find_cut(n, &path)?;
        self.test_cut(n, &path, positions, &found)?;
        let number = self.exchange_parts(n, id, &path, found)?;
        Ok(number)
    }
}
