// The rings of a feature, read from the tables as positions.
ghost use Rattle.std.specs.Prelude.{◌≡◌, ℕ, true, map, Contains, IfOk};
ghost use Rattle.std.specs.FinMap as table;
ghost use Rattle.std.specs.List.{flat_map};
ghost use Rattle.ring_machine.specs.Common.{canonical, feature_at};
ghost use Rattle.map_frame.specs.Common.{polygon_numbers};
ghost use Rattle.ring_parts.specs.Common.{rings_seen, polygons_seen};
ghost use Rattle.vertex_index.specs.Common.{place};
ghost use Rattle.feature_exchange.specs.Common.{AlongVertices, IsWhole, stored_document, ring_in, stored_in};

use crate::change::Change;
use grid_geometry::Pos;
use map_frame::Frame;
use ring_parts::begin_at_least;
use ring_store::RingTables;
use segment_index::SegIndex;
use std::alloc::{AllocError, Allocator};
use vertex_index::{VertexKey, Vertices};

/// Room for the keys of most rings.
pub(crate) const ROOM: usize = 128;

/// The positions under these keys. Fails only on allocation failure.
pub(crate) fn positions_under<A: Allocator + Copy>(
    alloc: A,
    vertices: &Vertices<A>,
    keys: &[VertexKey],
) -> Result<Vec<Pos, A>, AllocError>
    requires { (k : ℕ) → Contains keys.now k → table.contains_key vertices.now k ≡ true }
    ensures { IfOk result (λ found. found.items ≡ map (place vertices.now) keys.now) }
{
    let mut found = Vec::with_capacity(alloc, keys.len())?;
    for k in keys {
        found.push_reserved(vertices.pos(*k));
    }
    Ok(found)
}

/// The ring, begun at its least position.
fn begun<A: Allocator + Copy>(mut ring: Vec<Pos, A>) -> Vec<Pos, A>
    ensures { result.items ≡ canonical ring.items }
{
    begin_at_least(&mut ring);
    ring
}

/// The ring with a number, from its least position on. Fails only on allocation failure.
fn ring_positions<I: SegIndex, A: Allocator + Copy>(
    tables: &RingTables<I, A>,
    r: usize,
) -> Result<Vec<Pos, A>, AllocError>
    requires held { table.contains_key tables.now.borders r ≡ true }
    requires along { AlongVertices tables.now.vertices tables.now.borders }
    ensures { IfOk result (λ ring. ring.items ≡ ring_in tables.now.vertices tables.now.borders r) }
{
    let mut keys = Vec::with_capacity(tables.alloc, ROOM)?;
    tables.borders.push_keys(r, &mut keys)?;
    let found = positions_under(tables.alloc, &tables.vertices, keys.as_slice())?;
    Ok(begun(found))
}

/// The rings with these numbers, in order. Fails only on allocation failure.
fn polygon_positions<I: SegIndex, A: Allocator + Copy>(
    tables: &RingTables<I, A>,
    rings: &[usize],
) -> Result<Vec<Vec<Pos, A>, A>, AllocError>
    requires held { (r : ℕ) → Contains rings.now r → table.contains_key tables.now.borders r ≡ true }
    requires along { AlongVertices tables.now.vertices tables.now.borders }
    ensures { IfOk result (λ polygon. rings_seen polygon.items
        ≡ map (ring_in tables.now.vertices tables.now.borders) rings.now) }
{
    let mut polygon = Vec::new(tables.alloc);
    for r in rings {
        let ring = ring_positions(tables, *r)?;
        polygon.push(ring)?;
    }
    Ok(polygon)
}

/// The rings of these polygons, in order. Fails only on allocation failure.
pub(crate) fn feature_positions<I: SegIndex, A: Allocator + Copy>(
    tables: &RingTables<I, A>,
    polygons: &[Vec<usize, A>],
) -> Result<Vec<Vec<Vec<Pos, A>, A>, A>, AllocError>
    requires held { (r : ℕ) → Contains (flat_map polygon_numbers polygons.now) r
        → table.contains_key tables.now.borders r ≡ true }
    requires along { AlongVertices tables.now.vertices tables.now.borders }
    ensures { IfOk result (λ found. polygons_seen found.items
        ≡ map (map (ring_in tables.now.vertices tables.now.borders)) (map polygon_numbers polygons.now)) }
{
    let mut found = Vec::new(tables.alloc);
    for rings in polygons {
        let polygon = polygon_positions(tables, rings.as_slice())?;
        found.push(polygon)?;
    }
    Ok(found)
}

/// The polygons of feature `n` of these tables, each ring as its positions from the least one on, the
/// outer ring first; none where no feature has the number. Fails only on allocation failure.
pub fn read_polygons<'a, I: SegIndex, A: Allocator + Copy>(
    frame: &Frame<'a, A>,
    tables: &RingTables<I, A>,
    n: u32,
) -> Result<Vec<Vec<Vec<Pos, A>, A>, A>, AllocError>
    requires { IsWhole (stored_in frame.now tables.now) }
    ensures { IfOk result (λ found. polygons_seen found.items
        ≡ (feature_at (stored_document (stored_in frame.now tables.now)) n).polygons) }
{
    match frame.polygons(n) {
        Some(polygons) => feature_positions(tables, polygons),
        None => Ok(Vec::new(tables.alloc)),
    }
}

/// The polygons that these numbers have. Fails only on allocation failure.
pub(crate) fn read_features<'a, I: SegIndex, A: Allocator + Copy>(
    frame: &Frame<'a, A>,
    tables: &RingTables<I, A>,
    changes: &[Change<'a, A>],
) -> Result<Vec<Vec<Vec<Vec<Pos, A>, A>, A>, A>, AllocError>
    requires { IsWhole (stored_in frame.now tables.now) }
    ensures { IfOk result (λ found. map (λ p. polygons_seen p.items) found.items
        ≡ map (λ c. (feature_at (stored_document (stored_in frame.now tables.now))
        c.number).polygons) changes.now) }
{
    let mut found = Vec::new(tables.alloc);
    for change in changes {
        found.push(read_polygons(frame, tables, change.number)?)?;
    }
    Ok(found)
}
