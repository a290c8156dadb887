// The rings of features laid, and listed by their numbers.
ghost use Rattle.std.specs.Prelude.{◌≡◌, ◌++◌, map, IsTrue, IfOk, OnOk, OnErr};
ghost use Rattle.std.specs.List.{list_all, flat_map};
ghost use Rattle.ring_machine.specs.Common.{is_ring};
ghost use Rattle.map_frame.specs.Common.{polygon_numbers, feature_numbers};
ghost use Rattle.ring_parts.specs.Common.{rings_seen, polygons_seen};
ghost use Rattle.ring_store.specs.Common.{AreStanding, ring_in};
ghost use Rattle.feature_exchange.specs.Common.{numbers_of, AreThere, LaysMore, asked, asked_rings, polygons_in};

use crate::change::{Change, WholeFeature};
use crate::laid::LaidRing;
use crate::numbers::laid_numbers;
use crate::ring_laying::lay_rings;
use crate::taking::take_out_rings;
use grid_geometry::Pos;
use ring_store::RingTables;
use segment_index::SegIndex;
use std::alloc::{AllocError, Allocator};

/// Lays the rings of a polygon, and appends them to those that are laid. On allocation failure, they
/// are not laid.
fn lay_polygon<I: SegIndex, A: Allocator + Copy>(
    tables: &mut RingTables<I, A>,
    rings: &[Vec<Pos, A>],
    laid: &mut Vec<LaidRing<A>, A>,
) -> Result<Vec<usize, A>, AllocError>
    requires stand { AreStanding tables.old }
    requires rings { IsTrue (list_all is_ring (rings_seen rings.now)) }
    requires there { AreThere tables.old.borders laid.old.items }
    ensures stand { AreStanding tables.new }
    ensures laid { LaysMore tables.old laid.old.items tables.new laid.new.items }
    ensures numbers { IfOk result (λ numbers. numbers_of laid.new.items
        ≡ numbers_of laid.old.items ++ numbers.items) }
    ensures at { IfOk result (λ numbers. map (ring_in tables.new) numbers.items
        ≡ rings_seen rings.now) }
    ensures cells { tables.new.index.cells ≡ tables.old.index.cells }
{
    let mut came = lay_rings(tables, rings)?;
    match append_laid(tables.alloc, &mut came, laid) {
        Ok(numbers) => Ok(numbers),
        Err(e) => {
            take_out_rings(tables, came.as_slice());
            Err(e)
        }
    }
}

/// Appends laid rings to others, and answers their numbers. Fails only on allocation failure, and then
/// changes nothing.
fn append_laid<A: Allocator + Copy>(
    alloc: A,
    came: &mut Vec<LaidRing<A>, A>,
    laid: &mut Vec<LaidRing<A>, A>,
) -> Result<Vec<usize, A>, AllocError>
    ensures numbers { IfOk result (λ numbers. numbers.items ≡ numbers_of came.old.items) }
    ensures appended { OnOk result (laid.new.items ≡ laid.old.items ++ came.old.items) }
    ensures err { OnErr result (laid.new.items ≡ laid.old.items) }
    ensures still { OnErr result (came.new.items ≡ came.old.items) }
{
    let numbers = laid_numbers(alloc, came.as_slice())?;
    laid.append(came)?;
    Ok(numbers)
}

/// Lays the rings of these polygons, and appends them to those that are laid. On allocation failure,
/// some of them are laid.
fn lay_polygons<I: SegIndex, A: Allocator + Copy>(
    tables: &mut RingTables<I, A>,
    polygons: &[Vec<Vec<Pos, A>, A>],
    laid: &mut Vec<LaidRing<A>, A>,
) -> Result<Vec<Vec<usize, A>, A>, AllocError>
    requires stand { AreStanding tables.old }
    requires rings { IsTrue (list_all is_ring (flat_map (λ p. p) (polygons_seen polygons.now))) }
    requires there { AreThere tables.old.borders laid.old.items }
    ensures stand { AreStanding tables.new }
    ensures laid { LaysMore tables.old laid.old.items tables.new laid.new.items }
    ensures numbers { IfOk result (λ lists. numbers_of laid.new.items
        ≡ numbers_of laid.old.items ++ flat_map (λ p. p) (feature_numbers lists)) }
    ensures at { IfOk result (λ lists. map (map (ring_in tables.new))
        (feature_numbers lists) ≡ polygons_seen polygons.now) }
    ensures cells { tables.new.index.cells ≡ tables.old.index.cells }
{
    let mut lists = Vec::new(tables.alloc);
    for polygon in polygons {
        let numbers = lay_polygon(tables, polygon.as_slice(), laid)?;
        lists.push(numbers)?;
    }
    Ok(lists)
}

/// Lays the rings of a feature, where one is to come.
fn lay_feature<'a, I: SegIndex, A: Allocator + Copy>(
    tables: &mut RingTables<I, A>,
    feature: &Option<WholeFeature<'a, A>>,
    laid: &mut Vec<LaidRing<A>, A>,
) -> Result<Vec<Vec<usize, A>, A>, AllocError>
    requires stand { AreStanding tables.old }
    requires rings { IsTrue (list_all is_ring (flat_map (λ p. p) (polygons_in feature.now))) }
    requires there { AreThere tables.old.borders laid.old.items }
    ensures stand { AreStanding tables.new }
    ensures laid { LaysMore tables.old laid.old.items tables.new laid.new.items }
    ensures numbers { IfOk result (λ lists. numbers_of laid.new.items
        ≡ numbers_of laid.old.items ++ flat_map (λ p. p) (feature_numbers lists)) }
    ensures at { IfOk result (λ lists. map (map (ring_in tables.new))
        (feature_numbers lists) ≡ polygons_in feature.now) }
    ensures cells { tables.new.index.cells ≡ tables.old.index.cells }
{
    match feature {
        Some(whole) => lay_polygons(tables, whole.polygons.as_slice(), laid),
        None => Ok(Vec::new(tables.alloc)),
    }
}

/// Lays the rings of all features that are to come. On allocation failure, some of them are laid.
pub(crate) fn lay_features<'a, I: SegIndex, A: Allocator + Copy>(
    tables: &mut RingTables<I, A>,
    changes: &[Change<'a, A>],
    laid: &mut Vec<LaidRing<A>, A>,
) -> Result<Vec<Vec<Vec<usize, A>, A>, A>, AllocError>
    requires stand { AreStanding tables.old }
    requires rings { IsTrue (list_all is_ring (flat_map asked_rings changes.now)) }
    requires there { AreThere tables.old.borders laid.old.items }
    ensures stand { AreStanding tables.new }
    ensures laid { LaysMore tables.old laid.old.items tables.new laid.new.items }
    ensures numbers { IfOk result (λ lists. numbers_of laid.new.items
        ≡ numbers_of laid.old.items
        ++ flat_map (λ l. flat_map (λ p. p) (feature_numbers l)) lists.items) }
    ensures at { IfOk result (λ lists. map
        (λ l. map (map (ring_in tables.new)) (feature_numbers l)) lists.items
        ≡ map asked changes.now) }
    ensures cells { tables.new.index.cells ≡ tables.old.index.cells }
{
    let mut lists = Vec::new(tables.alloc);
    for change in changes {
        let numbers = lay_feature(tables, &change.was, laid)?;
        lists.push(numbers)?;
    }
    Ok(lists)
}
