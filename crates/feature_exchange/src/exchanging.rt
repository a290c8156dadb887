// Features given to numbers, each in the place of its number.
ghost use Rattle.std.specs.Prelude.{◌≡◌, ◌<◌, ◌∷◌, [], ℕ, None, Some, length, map, slice_index_or, slice_set};
ghost use Rattle.std.specs.Prelude.{IsTrue, IfOk, IfSome, OnOk, OnErr, Contains};
ghost use Rattle.std.specs.List.{list_all, flat_map, AllByRecursion};
ghost use Rattle.ring_machine.specs.Common.{feature, feature_at, is_ring, are_distinct};
ghost use Rattle.edit_records.specs.Common.{exchanged, had_before, IsMap};
ghost use Rattle.map_frame.specs.Common.{IsNumberOf, feature_numbers};
ghost use Rattle.ring_store.specs.Common.{AreStanding, ring_in};
ghost use Rattle.topo_outline.specs.Common.{KeepsTexts};
ghost use Rattle.feature_exchange.specs.Common.{Change, Holds, LaysMore, IsReady, MayGrow, stored_in, stored_document, seen};
ghost use Rattle.feature_exchange.specs.Common.{numbers_of, asked, asked_rings, numbered, all_numbered, change_had, all_had};
ghost use Rattle.feature_exchange.specs.Common.{changed_as, frame_after, next_after, put_in};

use crate::change::{Change, WholeFeature};
use crate::laid::{LaidRing, gather_rings};
use crate::laying::lay_features;
use crate::numbers::{laid_numbers, push_features};
use crate::reading::read_features;
use crate::taking::take_out_rings;
use grid_geometry::Pos;
use map_frame::Frame;
use ring_store::RingTables;
use segment_index::SegIndex;
use std::alloc::{AllocError, Allocator};
use std::mem;

/// Gives a number its feature, whose rings have these numbers, and keeps what it had, with these
/// polygons. Takes no memory.
fn exchange_one<'a, A: Allocator + Copy>(
    frame: &mut Frame<'a, A>,
    change: &mut Change<'a, A>,
    polygons: Vec<Vec<Vec<Pos, A>, A>, A>,
    numbers: Vec<Vec<usize, A>, A>,
)
    requires { IsReady frame.old (numbered change.old (feature_numbers numbers) ∷ []) }
    ensures exchanged { frame.new
        ≡ put_in frame.old (numbered change.old (feature_numbers numbers) ∷ []) }
    ensures had { change.new ≡ change_had frame.old.doc change.old polygons }
{
    let had = match frame.take_out(change.number) {
        Some(texts) => Some(WholeFeature { texts, polygons }),
        None => None,
    };
    match mem::replace(&mut change.was, had) {
        Some(whole) => frame.put(change.number, whole.texts, numbers),
        None => {}
    }
}

/// Does so for one of these changes.
fn exchange_at<'a, A: Allocator + Copy>(
    frame: &mut Frame<'a, A>,
    changes: &mut [Change<'a, A>],
    at: usize,
    polygons: Vec<Vec<Vec<Pos, A>, A>, A>,
    numbers: Vec<Vec<usize, A>, A>,
)
    requires within { at < length changes.old }
    requires ready { (c : Change _) → c ≡ slice_index_or changes.old at c
        → IsReady frame.old (numbered c (feature_numbers numbers) ∷ []) }
    ensures exchanged { (c : Change _) → c ≡ slice_index_or changes.old at c
        → frame.new ≡ put_in frame.old (numbered c (feature_numbers numbers) ∷ []) }
    ensures had { (c : Change _) → c ≡ slice_index_or changes.old at c
        → changes.new ≡ slice_set changes.old at (change_had frame.old.doc c polygons) }
{
    exchange_one(frame, &mut changes[at], polygons, numbers);
}

/// Gives each number its feature, whose rings have these numbers, and keeps what they had, with
/// these polygons. Takes no memory.
fn exchange_each<'a, A: Allocator + Copy>(
    frame: &mut Frame<'a, A>,
    changes: &mut [Change<'a, A>],
    mut polygons: Vec<Vec<Vec<Vec<Pos, A>, A>, A>, A>,
    mut numbers: Vec<Vec<Vec<usize, A>, A>, A>,
)
    requires ready { IsReady frame.old (all_numbered changes.old numbers.items) }
    requires polygons { length polygons.items ≡ length changes.old }
    requires numbers { length numbers.items ≡ length changes.old }
    ensures exchanged { frame.new
        ≡ put_in frame.old (all_numbered changes.old numbers.items) }
    ensures had { changes.new ≡ all_had frame.old.doc changes.old polygons.items }
{
    let mut left = changes.len();
    while left > 0 {
        left -= 1;
        let read = polygons.pop().unwrap();
        let came = numbers.pop().unwrap();
        exchange_at(frame, changes, left, read, came);
    }
}

/// Makes a new number after a feature, where one is to come.
fn grow_after<'a, A: Allocator + Copy>(
    frame: &mut Frame<'a, A>,
    after: Option<u32>,
) -> Result<(), AllocError>
    requires { IfSome after (MayGrow frame.old.doc frame.old.next) }
    ensures ok { OnOk result (frame.new ≡ frame_after after frame.old) }
    ensures err { OnErr result (frame.new ≡ frame.old) }
{
    let Some(n) = after else {
        return Ok(());
    };
    frame.grow(n)?;
    Ok(())
}

/// Makes room for the names of laid rings, and the new number where one is to come.
fn make_room<'a, A: Allocator + Copy>(
    alloc: A,
    frame: &mut Frame<'a, A>,
    after: Option<u32>,
    laid: &[LaidRing<A>],
) -> Result<(), AllocError>
    requires { IfSome after (MayGrow frame.old.doc frame.old.next) }
    ensures ok { OnOk result (frame.new
        ≡ record (frame_after after frame.old) { room = frame.new.room }) }
    ensures room { OnOk result ((r : ℕ) → IsNumberOf (numbers_of laid.now) r → r < frame.new.room) }
    ensures err { OnErr result (frame.new ≡ record frame.old { room = frame.new.room }) }
{
    let numbers = laid_numbers(alloc, laid)?;
    frame.reserve_names(numbers.as_slice())?;
    grow_after(frame, after)?;
    Ok(())
}

/// Gives these numbers these features, each in the place of its number, where `after` is a feature a
/// new number comes directly after it first; afterwards `changes` holds what the numbers had before.
/// Fails only on allocation failure, and then changes nothing.
pub fn exchange_features<'a, I: SegIndex, A: Allocator + Copy>(
    frame: &mut Frame<'a, A>,
    tables: &mut RingTables<I, A>,
    after: Option<u32>,
    changes: &mut [Change<'a, A>],
) -> Result<(), AllocError>
    requires holds { Holds (stored_in frame.old tables.old) tables.old.index.held }
    requires apart { IsTrue (are_distinct (map (λ c. c.number) changes.old)) }
    requires below { AllByRecursion (λ c. c.number < next_after after frame.old) changes.old }
    requires grows { IfSome after
        (MayGrow (stored_document (stored_in frame.old tables.old)) frame.old.next) }
    requires map { IsMap (changed_as after frame.old changes.old
        (stored_document (stored_in frame.old tables.old))) }
    requires texts { KeepsTexts (changed_as after frame.old changes.old
        (stored_document (stored_in frame.old tables.old))) }
    ensures exchanged { OnOk result (stored_document (stored_in frame.new tables.new)
        ≡ changed_as after frame.old changes.old
        (stored_document (stored_in frame.old tables.old))) }
    ensures had { OnOk result (seen changes.new
        ≡ had_before (stored_document (stored_in frame.old tables.old)) (seen changes.old)) }
    ensures next { OnOk result (frame.new.next ≡ next_after after frame.old) }
    ensures places { OnOk result (frame.new.places ≡ (frame_after after frame.old).places) }
    ensures unchanged { OnErr result (stored_document (stored_in frame.new tables.new)
        ≡ stored_document (stored_in frame.old tables.old)) }
    ensures next_still { OnErr result (frame.new.next ≡ frame.old.next) }
    ensures places_still { OnErr result (frame.new.places ≡ frame.old.places) }
    ensures changes_still { OnErr result (changes.new ≡ changes.old) }
    ensures holds { Holds (stored_in frame.new tables.new) tables.new.index.held }
    ensures cells { tables.new.index.cells ≡ tables.old.index.cells }
{
    // where numbers stand, before anything is laid
    let _ = frame.next();
    let read = read_features(frame, tables, changes)?;
    let mut numbers = Vec::new(tables.alloc);
    push_features(frame, changes, &mut numbers)?;
    let gone = gather_rings(tables.alloc, &tables.borders, numbers.as_slice())?;
    let mut laid = Vec::new(tables.alloc);
    match lay_ready(frame, tables, after, changes, &mut laid) {
        Ok(came) => {
            let _ = frame.next();
            exchange_each(frame, changes, read, came);
            take_out_rings(tables, gone.as_slice());
            Ok(())
        }
        Err(e) => {
            take_out_rings(tables, laid.as_slice());
            Err(e)
        }
    }
}

/// Lays the rings of the features that are to come, and makes room for them in the frame. On allocation
/// failure, some of them are laid.
fn lay_ready<'a, I: SegIndex, A: Allocator + Copy>(
    frame: &mut Frame<'a, A>,
    tables: &mut RingTables<I, A>,
    after: Option<u32>,
    changes: &[Change<'a, A>],
    laid: &mut Vec<LaidRing<A>, A>,
) -> Result<Vec<Vec<Vec<usize, A>, A>, A>, AllocError>
    requires grows { IfSome after (MayGrow frame.old.doc frame.old.next) }
    requires stand { AreStanding tables.old }
    requires rings { IsTrue (list_all is_ring (flat_map asked_rings changes.now)) }
    requires none { laid.old.items ≡ [] }
    ensures stand { AreStanding tables.new }
    ensures laid { LaysMore tables.old [] tables.new laid.new.items }
    ensures numbers { IfOk result (λ lists. numbers_of laid.new.items
        ≡ flat_map (λ l. flat_map (λ p. p) (feature_numbers l)) lists.items) }
    ensures at { IfOk result (λ lists. map
        (λ l. map (map (ring_in tables.new)) (feature_numbers l)) lists.items
        ≡ map asked changes.now) }
    ensures ok { OnOk result (frame.new
        ≡ record (frame_after after frame.old) { room = frame.new.room }) }
    ensures room { OnOk result ((r : ℕ) → IsNumberOf (numbers_of laid.new.items) r
        → r < frame.new.room) }
    ensures err { OnErr result (frame.new ≡ record frame.old { room = frame.new.room }) }
    ensures cells { tables.new.index.cells ≡ tables.old.index.cells }
{
    let lists = lay_features(tables, changes, laid)?;
    make_room(tables.alloc, frame, after, laid.as_slice())?;
    Ok(lists)
}
