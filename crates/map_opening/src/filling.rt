// Segments in an index, each tested against those that are there before it comes.
ghost use Rattle.std.specs.Prelude.{◌≡◌, List, ◌++◌, map, OnOk};
ghost use Rattle.grid_geometry.specs.Common.{Segment};
ghost use Rattle.ring_machine.specs.Common.{segments};
ghost use Rattle.vertex_index.specs.Common.{place};
ghost use Rattle.ring_store.specs.Common.{IsRound};
ghost use Rattle.local_planarity.specs.Common.{IsFilled};
ghost use Rattle.map_opening.specs.Laying.{HasSides};

use grid_geometry::Seg;
use local_planarity::{TestCount, fill};
use ring_store::{RingTables, edge_at, side};
use segment_index::SegIndex;
use std::alloc::{AllocError, Allocator};
use vertex_index::VertexKey;

/// Puts the segments of the ring along these keys into the index, but for those that a ring has that
/// is laid already, and makes `first` the least pair in conflict.
pub(crate) fn fill_ring<I: SegIndex, A: Allocator + Copy>(
    tables: &mut RingTables<I, A>,
    first: &mut Option<(Seg, Seg)>,
    keys: &[VertexKey],
) -> Result<(), AllocError>
    requires round { IsRound tables.old.vertices keys.now }
    ensures filled { OnOk result ((ss : List Segment) → HasSides tables.old
        → IsFilled tables.old.index.held first.old ss → IsFilled tables.new.index.held first.new
        (ss ++ segments (map (place tables.old.vertices) keys.now))) }
    ensures vertices { tables.new.vertices ≡ tables.old.vertices }
    ensures borders { tables.new.borders ≡ tables.old.borders }
    ensures cells { tables.new.index.cells ≡ tables.old.index.cells }
{
    let mut near = Vec::new(tables.alloc);
    let mut tests = TestCount::new();
    let mut found = None;
    for at in 0..keys.len() {
        let (a, b) = edge_at(keys, at);
        if tables.borders.uses_along(&mut found, a, b) == 0 {
            let s = side(&tables.vertices, a, b);
            fill(&mut tables.index, s, first, &mut near, &mut tests)?;
        }
    }
    Ok(())
}
