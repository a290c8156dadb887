// The positions of a ring, each with whether borders meet there.
ghost use Rattle.std.specs.Prelude.{◌≡◌, ◌<◌, ◌≤◌, ◌^◌, ◌++◌, ℕ, Bool, true, map, take, drop, length, Contains, OnOk, IfOk};
ghost use Rattle.std.specs.FinMap as table;
ghost use Rattle.grid_geometry.specs.Common.{Position};
ghost use Rattle.ring_machine.specs.Common.{canonical};
ghost use Rattle.vertex_index.specs.Common.{place};
ghost use Rattle.feature_exchange.specs.Common.{AlongVertices, MarksAlong, is_meeting, meets, ring_in};

use crate::reading::ROOM;
use crate::ring_iter::least_place;
use grid_geometry::Pos;
use ring_store::{Neighbours, RingKeys, RingTables};
use segment_index::SegIndex;
use std::alloc::{AllocError, Allocator};
use vertex_index::{VertexKey, Vertices};

/// Whether borders meet at a vertex that has these neighbours.
fn is_meeting(around: Neighbours) -> bool
    ensures { result ≡ is_meeting around }
{
    match around {
        Neighbours::Two(_, _) => false,
        _ => true,
    }
}

/// For each vertex, by the index of its key, whether borders meet there, by what stands around each.
/// Fails only on allocation failure.
pub fn meetings<A: Allocator + Copy>(
    alloc: A,
    around: &[Neighbours],
) -> Result<Vec<bool, A>, AllocError>
    ensures { IfOk result (λ meetings. meetings.items ≡ map is_meeting around.now) }
{
    let mut meetings = Vec::with_capacity(alloc, around.len())?;
    for each in around {
        meetings.push(is_meeting(*each))?;
    }
    Ok(meetings)
}

/// Whether borders meet at the vertex of this key; they do where the list ends before it.
fn meets(meetings: &[bool], k: VertexKey) -> bool
    ensures { result ≡ meets meetings.now k }
{
    meetings.get(k.index()).copied().unwrap_or(true)
}

/// The place of the first key with the least position, 0 where there is no key.
fn least_start<A: Allocator + Copy>(vertices: &Vertices<A>, mut keys: RingKeys<'_, A>) -> usize
    requires placed { (k : ℕ) → Contains keys k → table.contains_key vertices.now k ≡ true }
    requires few { length keys < 2 ^ 64 }
    ensures within { result ≤ length keys.entry }
    ensures turned { let ps = map (place vertices.now) keys.entry in
        canonical ps ≡ drop result ps ++ take result ps }
{
    match keys.next() {
        Some(first) => least_place(vertices.pos(first), keys, vertices).0,
        None => 0,
    }
}

/// Appends the positions under these keys, and for each whether borders meet there. Fails only on
/// allocation failure.
fn push_marked<A: Allocator + Copy>(
    vertices: &Vertices<A>,
    meetings: &[bool],
    keys: &[VertexKey],
    positions: &mut Vec<Pos, A>,
    marks: &mut Vec<bool, A>,
) -> Result<(), AllocError>
    requires { (k : ℕ) → Contains keys.now k → table.contains_key vertices.now k ≡ true }
    ensures positions { OnOk result
        (positions.new.items ≡ positions.old.items ++ map (place vertices.now) keys.now) }
    ensures marks { OnOk result
        (marks.new.items ≡ marks.old.items ++ map (meets meetings.now) keys.now) }
{
    for k in keys {
        positions.push(vertices.pos(*k))?;
        marks.push(meets(meetings, *k))?;
    }
    Ok(())
}

/// Appends the positions under the keys from a place on and then under those before it, and for each
/// whether borders meet there. Fails only on allocation failure.
fn push_turned<A: Allocator + Copy>(
    vertices: &Vertices<A>,
    meetings: &[bool],
    keys: &[VertexKey],
    start: usize,
    positions: &mut Vec<Pos, A>,
    marks: &mut Vec<bool, A>,
) -> Result<(), AllocError>
    requires placed { (k : ℕ) → Contains keys.now k → table.contains_key vertices.now k ≡ true }
    requires within { start ≤ length keys.now }
    ensures positions { let ps = map (place vertices.now) keys.now in OnOk result
        (positions.new.items ≡ positions.old.items ++ (drop start ps ++ take start ps)) }
    ensures marks { let bs = map (meets meetings.now) keys.now in OnOk result
        (marks.new.items ≡ marks.old.items ++ (drop start bs ++ take start bs)) }
{
    push_marked(vertices, meetings, &keys[start..], positions, marks)?;
    push_marked(vertices, meetings, &keys[..start], positions, marks)?;
    Ok(())
}

/// Appends the positions of the ring with this number, from its least position on, and for each whether
/// borders meet there, by the list of where they do. Fails only on allocation failure.
pub fn push_marked_ring<I: SegIndex, A: Allocator + Copy>(
    tables: &RingTables<I, A>,
    meetings: &[bool],
    r: usize,
    positions: &mut Vec<Pos, A>,
    marks: &mut Vec<bool, A>,
) -> Result<(), AllocError>
    requires held { table.contains_key tables.now.borders r ≡ true }
    requires along { AlongVertices tables.now.vertices tables.now.borders }
    ensures positions { OnOk result (positions.new.items
        ≡ positions.old.items ++ ring_in tables.now.vertices tables.now.borders r) }
    ensures marks { OnOk result ((is : Position → Bool)
        → MarksAlong tables.now.vertices tables.now.borders r meetings.now is
        → marks.new.items
        ≡ marks.old.items ++ map is (ring_in tables.now.vertices tables.now.borders r)) }
{
    let mut list = Vec::with_capacity(tables.alloc, ROOM)?;
    tables.borders.push_keys(r, &mut list)?;
    let Some(walk) = tables.borders.keys(r) else {
        return Ok(());
    };
    let start = least_start(&tables.vertices, walk);
    push_turned(
        &tables.vertices,
        meetings,
        list.as_slice(),
        start,
        positions,
        marks,
    )?;
    Ok(())
}
