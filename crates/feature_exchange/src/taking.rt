//! Rings taken out of the tables.
ghost use Rattle.std.specs.Prelude.{◌≡◌, ◌≢◌, ◌≤◌, ℕ, Some, Contains, IsTrue, length};
ghost use Rattle.std.specs.FinMap as table;
ghost use Rattle.arc_tables.specs.Common.{Edge, edges, users_of};
ghost use Rattle.feature_exchange.specs.Laid.{numbers_of, AreThere, AreGone, KeepsPlaces};
ghost use Rattle.ring_store.specs.Common.{Stands, AreStanding};

use crate::laid::LaidRing;
use crate::lonely::remove_all_lonely;
use ring_store::{Borders, RingTables, drop_sides, edge_at};
use segment_index::SegIndex;
use std::alloc::Allocator;
use vertex_index::{VertexKey, Vertices};

/// Whether some ring has each segment along these keys.
fn all_used<A: Allocator + Copy>(borders: &Borders<A>, keys: &[VertexKey]) -> bool
    requires { 1 ≤ length keys.now }
    ensures { IsTrue result → (e : Edge) → Contains (edges keys.now) e
        → users_of borders.now e.0 e.1 ≢ 0 }
{
    let mut near = None;
    for at in 0..keys.len() {
        let (a, b) = edge_at(keys, at);
        if borders.uses_along(&mut near, a, b) == 0 {
            return false;
        }
    }
    true
}

/// Takes out a ring that goes along these keys. Where other rings have all its segments, as those of
/// its parts do, all its vertices and segments stay.
fn take_out_ring<I: SegIndex, A: Allocator + Copy>(
    vertices: &mut Vertices<A>,
    borders: &mut Borders<A>,
    index: &mut I,
    number: usize,
    keys: &[VertexKey],
)
    requires stands { Stands vertices.old borders.old (I.held index.old) }
    requires there { table.get borders.old number ≡ Some (edges keys.now) }
    ensures stands { Stands vertices.new borders.new (I.held index.new) }
    ensures gone { borders.new ≡ table.remove borders.old number }
    ensures places { KeepsPlaces vertices.new vertices.old }
    ensures cells { I.cells index.new ≡ I.cells index.old }
{
    borders.take_out(number);
    if all_used(borders, keys) {
        return;
    }
    drop_sides(vertices, borders, index, keys, keys.len());
    remove_all_lonely(vertices, borders, keys);
}

/// Takes out these rings, and the vertices and segments that no other ring has.
pub(crate) fn take_out_each<I: SegIndex, A: Allocator + Copy>(
    vertices: &mut Vertices<A>,
    borders: &mut Borders<A>,
    index: &mut I,
    rings: &[LaidRing<A>],
)
    requires stands { Stands vertices.old borders.old (I.held index.old) }
    requires there { AreThere borders.old rings.now }
    ensures stands { Stands vertices.new borders.new (I.held index.new) }
    ensures gone { AreGone borders.old borders.new (numbers_of rings.now) }
    ensures places { KeepsPlaces vertices.new vertices.old }
    ensures cells { I.cells index.new ≡ I.cells index.old }
{
    for ring in rings {
        take_out_ring(vertices, borders, index, ring.number, ring.keys.as_slice());
    }
}

/// Takes out these rings, and the vertices and segments that no other ring has. Takes no memory.
pub fn take_out_rings<I: SegIndex, A: Allocator + Copy>(
    tables: &mut RingTables<I, A>,
    rings: &[LaidRing<A>],
)
    requires stand { AreStanding tables.old }
    requires there { AreThere tables.old.borders rings.now }
    ensures stand { AreStanding tables.new }
    ensures gone { AreGone tables.old.borders tables.new.borders (numbers_of rings.now) }
    ensures places { KeepsPlaces tables.new.vertices tables.old.vertices }
    ensures cells { tables.new.index.cells ≡ tables.old.index.cells }
{
    let (vertices, borders) = (&mut tables.vertices, &mut tables.borders);
    take_out_each(vertices, borders, &mut tables.index, rings);
}
