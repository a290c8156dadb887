//! Rings laid into the tables.
ghost use Rattle.std.specs.Prelude.{◌≡◌, ◌≤◌, ◌+◌, [], None, IsTrue, length, map, IfOk, OnOk, OnErr, vec_len};
ghost use Rattle.std.specs.Prelude.{vec_capacity};
ghost use Rattle.std.specs.List.{list_all, sum_by};
ghost use Rattle.std.specs.FinMap as table;
ghost use Rattle.ring_machine.specs.Common.{is_ring, are_distinct};
ghost use Rattle.vertex_index.specs.Common.{AreDistinct, place};
ghost use Rattle.arc_tables.specs.Common.{edges};
ghost use Rattle.ring_store.specs.Common.{ArePut, IsRound, Stands, AreStanding, ring_in, HoldsWith};
ghost use Rattle.feature_exchange.specs.Laid.{numbers_of, AreThere, AreAdded, KeepsPlaces};
ghost use Rattle.ring_store.specs.Steps.{AreKeyed};

use crate::laid::LaidRing;
use crate::lonely::remove_all_lonely;
use crate::taking::take_out_each;
use grid_geometry::Pos;
use ring_store::{Borders, RingTables, add_sides, drop_sides, key_ring};
use segment_index::SegIndex;
use std::alloc::{AllocError, Allocator};
use vertex_index::{VertexKey, Vertices};

/// Lays a ring along keys of vertices. On allocation failure, the borders are as they were, and the
/// index holds what it held.
fn lay_along<I: SegIndex, A: Allocator + Copy>(
    vertices: &Vertices<A>,
    borders: &mut Borders<A>,
    index: &mut I,
    keys: &[VertexKey],
) -> Result<usize, AllocError>
    requires keyed { AreKeyed vertices.now borders.old }
    requires round { IsRound vertices.now keys.now }
    requires holds { HoldsWith vertices.now borders.old (I.held index.old) [] }
    ensures free { IfOk result (λ r. table.get borders.old r ≡ None) }
    ensures ok { IfOk result (λ r. borders.new ≡ table.insert borders.old r (edges keys.now)) }
    ensures err { OnErr result (borders.new ≡ borders.old) }
    ensures holds { HoldsWith vertices.now borders.new (I.held index.new) [] }
    ensures cells { I.cells index.new ≡ I.cells index.old }
{
    add_sides(vertices, borders, index, keys)?;
    match borders.add_ring(keys) {
        Ok(r) => Ok(r),
        Err(e) => {
            drop_sides(vertices, borders, index, keys, keys.len());
            Err(e)
        }
    }
}

/// Lays a ring, and gathers its keys. On allocation failure, some of them have been gathered, and their
/// vertices are there; the borders are as they were, and the index holds what it held.
fn lay_new<I: SegIndex, A: Allocator + Copy>(
    vertices: &mut Vertices<A>,
    borders: &mut Borders<A>,
    index: &mut I,
    ring: &[Pos],
    keys: &mut Vec<VertexKey, A>,
) -> Result<usize, AllocError>
    requires stands { Stands vertices.old borders.old (I.held index.old) }
    requires ring { IsTrue (is_ring ring.now) }
    requires none { keys.old.items ≡ [] }
    requires room { vec_len keys.old + length ring.now ≤ vec_capacity keys.old }
    ensures free { IfOk result (λ r. table.get borders.old r ≡ None) }
    ensures ok { IfOk result (λ r. borders.new ≡ table.insert borders.old r (edges keys.new.items)) }
    ensures at { OnOk result (map (place vertices.new) keys.new.items ≡ ring.now) }
    ensures stands { OnOk result (Stands vertices.new borders.new (I.held index.new)) }
    ensures err { OnErr result (borders.new ≡ borders.old) }
    ensures holds { HoldsWith vertices.new borders.new (I.held index.new) [] }
    ensures put { ArePut vertices.old vertices.new keys.new.items }
    ensures different { IsTrue (are_distinct keys.new.items) }
    ensures distinct { AreDistinct vertices.new }
    ensures cells { I.cells index.new ≡ I.cells index.old }
{
    key_ring(vertices, ring, keys)?;
    let r = lay_along(vertices, borders, index, keys.as_slice())?;
    Ok(r)
}

/// Lays a ring. On allocation failure, nothing has changed.
fn lay_ring<I: SegIndex, A: Allocator + Copy>(
    alloc: A,
    vertices: &mut Vertices<A>,
    borders: &mut Borders<A>,
    index: &mut I,
    ring: &[Pos],
) -> Result<LaidRing<A>, AllocError>
    requires stands { Stands vertices.old borders.old (I.held index.old) }
    requires ring { IsTrue (is_ring ring.now) }
    ensures stands { Stands vertices.new borders.new (I.held index.new) }
    ensures free { IfOk result (λ laid. table.get borders.old laid.number ≡ None) }
    ensures ok { IfOk result
        (λ laid. borders.new ≡ table.insert borders.old laid.number (edges laid.keys.items)) }
    ensures at { IfOk result (λ laid. map (place vertices.new) laid.keys.items ≡ ring.now) }
    ensures kept { KeepsPlaces vertices.old vertices.new }
    ensures err { OnErr result (borders.new ≡ borders.old) }
    ensures cells { I.cells index.new ≡ I.cells index.old }
{
    let mut keys = Vec::with_capacity(alloc, ring.len())?;
    match lay_new(vertices, borders, index, ring, &mut keys) {
        Ok(number) => Ok(LaidRing { number, keys }),
        Err(e) => {
            remove_all_lonely(vertices, borders, keys.as_slice());
            Err(e)
        }
    }
}

/// Lays these rings, and gathers them. On allocation failure, some of them are laid.
fn lay_each<I: SegIndex, A: Allocator + Copy>(
    alloc: A,
    vertices: &mut Vertices<A>,
    borders: &mut Borders<A>,
    index: &mut I,
    rings: &[Vec<Pos, A>],
    laid: &mut Vec<LaidRing<A>, A>,
) -> Result<(), AllocError>
    requires stands { Stands vertices.old borders.old (I.held index.old) }
    requires rings { IsTrue (list_all is_ring (map (λ ring. ring.items) rings.now)) }
    requires none { laid.old.items ≡ [] }
    requires room { vec_len laid.old + length rings.now ≤ vec_capacity laid.old }
    ensures stands { Stands vertices.new borders.new (I.held index.new) }
    ensures there { AreThere borders.new laid.new.items }
    ensures added { AreAdded borders.old borders.new (numbers_of laid.new.items) }
    ensures at { OnOk result (map (λ ring. map (place vertices.new) ring.keys.items) laid.new.items
        ≡ map (λ ring. ring.items) rings.now) }
    ensures kept { KeepsPlaces vertices.old vertices.new }
    ensures cells { I.cells index.new ≡ I.cells index.old }
{
    for ring in rings {
        let one = lay_ring(alloc, vertices, borders, index, ring.as_slice())?;
        laid.push_reserved(one);
    }
    Ok(())
}

/// Lays these rings, and answers them in order, so that they can be taken out again in no memory. Fails
/// only on allocation failure, and then nothing has changed.
pub fn lay_rings<I: SegIndex, A: Allocator + Copy>(
    tables: &mut RingTables<I, A>,
    rings: &[Vec<Pos, A>],
) -> Result<Vec<LaidRing<A>, A>, AllocError>
    requires stand { AreStanding tables.old }
    requires rings { IsTrue (list_all is_ring (map (λ ring. ring.items) rings.now)) }
    ensures stand { AreStanding tables.new }
    ensures there { IfOk result (λ laid. AreThere tables.new.borders laid.items) }
    ensures added { IfOk result
        (λ laid. AreAdded tables.old.borders tables.new.borders (numbers_of laid.items)) }
    ensures at { IfOk result (λ laid. map (ring_in tables.new) (numbers_of laid.items)
        ≡ map (λ ring. ring.items) rings.now) }
    ensures kept { KeepsPlaces tables.old.vertices tables.new.vertices }
    ensures unchanged { OnErr result (tables.new ≡ tables.old) }
    ensures cells { tables.new.index.cells ≡ tables.old.index.cells }
{
    let (vertices, borders) = (&mut tables.vertices, &mut tables.borders);
    let index = &mut tables.index;
    let mut laid = Vec::with_capacity(tables.alloc, rings.len())?;
    match lay_each(tables.alloc, vertices, borders, index, rings, &mut laid) {
        Ok(()) => Ok(laid),
        Err(e) => {
            take_out_each(vertices, borders, index, laid.as_slice());
            Err(e)
        }
    }
}
