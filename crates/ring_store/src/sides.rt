// Rings put in: a vertex under a key at each position, and the segments in the index, where no
// other ring has them.
ghost use Rattle.std.specs.Prelude.{◌≡◌, ◌≢◌, ◌≤◌, ◌<◌, ◌+◌, IsTrue, [], length, take, OnOk, OnErr, slice_index_or, map, vec_len, vec_capacity};
ghost use Rattle.grid_geometry.specs.Common.{segment};
ghost use Rattle.vertex_index.specs.Common.{place, AreDistinct};
ghost use Rattle.arc_tables.specs.Common.{edges};
ghost use Rattle.ring_store.specs.Steps.{AreKeyed, HoldsWith};
ghost use Rattle.ring_machine.specs.Common.{is_distinct, are_distinct};
ghost use Rattle.ring_store.specs.Common.{ArePut, IsRound};
ghost use Rattle.std.specs.FinMap as table;

use crate::borders::Borders;
use grid_geometry::{Pos, Seg};
use segment_index::SegIndex;
use std::alloc::{AllocError, Allocator};
use vertex_index::{VertexKey, Vertices};

/// Gathers the keys of different positions, each put where no vertex stands there. On allocation
/// failure, the keys of some of them are there.
pub fn key_ring<A: Allocator + Copy>(
    vertices: &mut Vertices<A>,
    ring: &[Pos],
    keys: &mut Vec<VertexKey, A>,
) -> Result<(), AllocError>
    requires distinct { AreDistinct vertices.old }
    requires different { IsTrue (is_distinct ring.now) }
    requires none { keys.old.items ≡ [] }
    requires room { vec_len keys.old + length ring.now ≤ vec_capacity keys.old }
    ensures at { OnOk result (map (place vertices.new) keys.new.items ≡ ring.now) }
    ensures put { ArePut vertices.old vertices.new keys.new.items }
    ensures different { IsTrue (are_distinct keys.new.items) }
    ensures distinct { AreDistinct vertices.new }
{
    for p in ring {
        let k = vertices.key_or_add(*p)?;
        keys.push_reserved(k);
    }
    Ok(())
}

/// The edge that begins at one of a ring's keys.
pub fn edge_at(keys: &[VertexKey], at: usize) -> (VertexKey, VertexKey)
    requires { at < length keys.now }
    ensures { result ≡ slice_index_or (edges keys.now) at result }
{
    let next = if at + 1 < keys.len() {
        keys[at + 1]
    } else {
        keys[0]
    };
    (keys[at], next)
}

/// The segment of two vertices.
pub fn side<A: Allocator + Copy>(vertices: &Vertices<A>, a: VertexKey, b: VertexKey) -> Seg
    requires a { IsTrue (table.contains_key vertices.now a) }
    requires b { IsTrue (table.contains_key vertices.now b) }
    requires apart { a ≢ b }
    ensures { result ≡ segment (place vertices.now a) (place vertices.now b) }
{
    Seg::new(vertices.pos(a), vertices.pos(b)).unwrap()
}

/// Takes the segments of a ring's first so many edges out of the index, unless a ring has them.
pub fn drop_sides<I: SegIndex, A: Allocator + Copy>(
    vertices: &Vertices<A>,
    borders: &Borders<A>,
    index: &mut I,
    keys: &[VertexKey],
    count: usize,
)
    requires keyed { AreKeyed vertices.now borders.now }
    requires round { IsRound vertices.now keys.now }
    requires within { count ≤ length keys.now }
    requires holds { HoldsWith vertices.now borders.now (I.held index.old)
        (take count (edges keys.now)) }
    ensures holds { HoldsWith vertices.now borders.now (I.held index.new) [] }
    ensures cells { I.cells index.new ≡ I.cells index.old }
{
    let mut left = count;
    let mut near = None;
    while left > 0 {
        left -= 1;
        let (a, b) = edge_at(keys, left);
        if borders.uses_along(&mut near, a, b) == 0 {
            index.discard(side(vertices, a, b));
        }
    }
}

/// Puts the segments of a ring into the index, unless a ring has them already. Where that fails the
/// index holds what it held.
pub fn add_sides<I: SegIndex, A: Allocator + Copy>(
    vertices: &Vertices<A>,
    borders: &Borders<A>,
    index: &mut I,
    keys: &[VertexKey],
) -> Result<(), AllocError>
    requires keyed { AreKeyed vertices.now borders.now }
    requires round { IsRound vertices.now keys.now }
    requires holds { HoldsWith vertices.now borders.now (I.held index.old) [] }
    ensures holds { OnOk result (HoldsWith vertices.now borders.now (I.held index.new)
        (edges keys.now)) }
    ensures unchanged { OnErr result (HoldsWith vertices.now borders.now (I.held index.new) []) }
    ensures cells { I.cells index.new ≡ I.cells index.old }
{
    let mut near = None;
    for at in 0..keys.len() {
        let (a, b) = edge_at(keys, at);
        if borders.uses_along(&mut near, a, b) == 0 {
            if let Err(e) = index.add(side(vertices, a, b)) {
                drop_sides(vertices, borders, index, keys, at);
                return Err(e);
            }
        }
    }
    Ok(())
}
