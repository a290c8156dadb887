// A vertex for each position of the rings, and the rings by its keys.
ghost use Rattle.std.specs.Prelude.{◌≡◌, IfOk, IsTrue};
ghost use Rattle.std.specs.FinMap as table;
ghost use Rattle.std.specs.List.{list_all};
ghost use Rattle.ring_machine.specs.Common.{is_ring};
ghost use Rattle.ring_parts.specs.Common.{rings_seen};
ghost use Rattle.vertex_index.specs.Common.{AreDistinct};
ghost use Rattle.map_opening.specs.Flat.{lists_seen};
ghost use Rattle.map_opening.specs.Keyed.{IsKeyed};

use grid_geometry::Pos;
use ring_store::key_ring;
use std::alloc::{AllocError, Allocator};
use vertex_index::{VertexKey, Vertices};

/// The keys of the positions of all rings, in a table of vertices that was empty. Fails only on
/// allocation failure.
pub(crate) fn key_all<A: Allocator + Copy>(
    alloc: A,
    vertices: &mut Vertices<A>,
    rings: &[Vec<Pos, A>],
) -> Result<Vec<Vec<VertexKey, A>, A>, AllocError>
    requires empty { vertices.old ≡ table.empty }
    requires rings { IsTrue (list_all is_ring (rings_seen rings.now)) }
    ensures keyed { IfOk result
        (λ keyed. IsKeyed vertices.new (rings_seen rings.now) (lists_seen keyed.items)) }
    ensures distinct { AreDistinct vertices.new }
{
    let mut keyed = Vec::new(alloc);
    for ring in rings {
        let mut keys = Vec::with_capacity(alloc, ring.len())?;
        key_ring(vertices, ring.as_slice(), &mut keys)?;
        keyed.push(keys)?;
    }
    Ok(keyed)
}
