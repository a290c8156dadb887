// Rings in empty tables: keyed, marked where borders are to end, and laid.
ghost use Rattle.std.specs.Prelude.{◌≡◌, ◌≤◌, IfOk, IsTrue, length};
ghost use Rattle.std.specs.FinSet as set;
ghost use Rattle.std.specs.List.{list_all, sum_by};
ghost use Rattle.ring_machine.specs.Common.{is_ring};
ghost use Rattle.ring_parts.specs.Common.{rings_seen};
ghost use Rattle.map_opening.specs.Opened.{AreOpened};

use crate::junctions::mark_junctions;
use crate::keyed::key_all;
use crate::laying::lay_all;
use crate::opened::OpenedRings;
use grid_geometry::Pos;
use ring_store::{Borders, Counted, RingTables};
use segment_index::SegIndex;
use std::alloc::{AllocError, Allocator, Global};
use std::hash::RandomState;
use vertex_index::Vertices;

/// How many positions the rings have if each stands in two of them, as on most maps.
fn shared_by_two<A: Allocator + Copy>(rings: &[Vec<Pos, A>]) -> usize {
    let mut count = 0usize;
    for ring in rings {
        count = count.saturating_add(ring.len());
    }
    count / 2
}

/// Lays these rings, in an index that is empty; positions are hashed by a seed, and `heap` holds long
/// lists of arcs and of rings. Fails only on allocation failure.
pub fn lay<I: SegIndex, A: Allocator + Copy>(
    alloc: A,
    heap: Global,
    seed: RandomState,
    mut index: I,
    rings: &[Vec<Pos, A>],
) -> Result<OpenedRings<I, A>, AllocError>
    requires rings { IsTrue (list_all is_ring (rings_seen rings.now)) }
    requires small { sum_by length (rings_seen rings.now) ≤ 4000000 }
    requires empty { I.held index ≡ set.empty }
    ensures opened { IfOk result (λ o. AreOpened (rings_seen rings.now) o.numbers.items o.tables
        o.first o.positions) }
    ensures cells { IfOk result (λ o. o.tables.index.cells ≡ I.cells index) }
{
    let mut vertices = Vertices::with_room(alloc, seed, shared_by_two(rings))?;
    let keyed = key_all(alloc, &mut vertices, rings)?;
    let mut borders = Borders::with_room(alloc, heap, vertices.len())?;
    mark_junctions(alloc, &mut borders, vertices.len(), keyed.as_slice())?;
    index.prepare(vertices.len())?;
    let index = Counted::new(index, 0);
    let tables = RingTables {
        alloc,
        vertices,
        borders,
        index,
    };
    let mut opened = OpenedRings {
        tables,
        numbers: Vec::new(alloc),
        first: None,
        positions: 0,
    };
    lay_all(&mut opened, keyed.as_slice())?;
    Ok(opened)
}
