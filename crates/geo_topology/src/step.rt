// The step from the text of a GeoJSON object to that of a topology.
ghost use Rattle.std.specs.Prelude.{◌≡◌, ◌++◌, ℕ, List, map, length, IfOk, OnOk};
ghost use Rattle.std.specs.List.{flat_map, AllByRecursion};
ghost use Rattle.json_spans.specs.Common.{node};
ghost use Rattle.topo_outline.specs.Common.{Gives};
ghost use Rattle.geo_topology.specs.Features.{layer_pieces};
ghost use Rattle.geo_topology.specs.Text.{rings_of_piece, segments_from, text_segments, topology_made};
ghost use Rattle.geo_topology.specs.Copies.{extended, Lies, IsCopy};
ghost use Rattle.geo_topology.specs.Views.{view_chunk, view_part, view_made};

use crate::arcs::{put_arcs, put_chunk};
use crate::chunk::Chunk;
use crate::features::layer;
use crate::made::MadeText;
use crate::object::GeoObject;
use json_spans::Span;
use std::alloc::{AllocError, Allocator, Global};
use topo_outline::OpenFault;

/// Appends all pieces, and collects the rings.
fn put_chunks<'a, A: Allocator + Copy>(
    chunks: &[Chunk<'a>],
    made: &mut MadeText<A>,
    rings: &mut Vec<Span<'a>, A>,
) -> Result<(), AllocError>
    ensures made { OnOk result (view_made made.new
        ≡ extended (view_made made.old)
        (segments_from (length rings.old.items) (map view_chunk chunks.now))) }
    ensures rings { OnOk result (map node rings.new.items ≡ map node rings.old.items
        ++ flat_map rings_of_piece (map view_chunk chunks.now)) }
{
    for chunk in chunks {
        put_chunk(*chunk, made, rings)?;
    }
    Ok(())
}

/// Appends all pieces, and then the arcs.
fn put_all<'a, A: Allocator + Copy>(
    chunks: &[Chunk<'a>],
    made: &mut MadeText<A>,
) -> Result<(), AllocError>
    ensures { OnOk result (view_made made.new
        ≡ extended (view_made made.old) (text_segments (map view_chunk chunks.now))) }
{
    let mut rings = Vec::new(*made.text.allocator());
    put_chunks(chunks, made, &mut rings)?;
    made.put(b"}},\"arcs\":[")?;
    put_arcs(rings.as_slice(), made)?;
    made.put(b"]}")
}

/// The pieces of the topology, up to its arcs, or the first fault.
fn chunks_of<'a, A: Allocator + Copy>(
    alloc: A,
    heap: Global,
    object: GeoObject,
    root: Span<'a>,
) -> Result<Vec<Chunk<'a>, A>, OpenFault<'a>>
    ensures { Gives (λ chunks. map view_chunk chunks.items) result (layer_pieces object (node root.entry)) }
{
    let mut chunks = Vec::new(alloc);
    or_return!(layer(heap, object, root, &mut chunks));
    Ok(chunks)
}

/// The text of the topology that a GeoJSON object becomes, or the first fault of it: `BadMember`,
/// `Duplicate`, `Unsupported`, and `OutOfMemory` where an allocation fails.
///
/// All that is made lies in `alloc`. `heap` has each decoded name while its object is read, for
/// `serde_json` decodes into `Global` only.
pub fn topology_text<'a, A: Allocator + Copy>(
    alloc: A,
    heap: Global,
    object: GeoObject,
    root: Span<'a>,
) -> Result<MadeText<A>, OpenFault<'a>>
    ensures text { Gives view_made result (topology_made object (node root.entry)) }
    ensures copies { IfOk result (λ made. (file : List ℕ) → Lies file (node root.entry) →
        AllByRecursion (IsCopy file made.text.items) (map view_part made.parts.items)) }
{
    let chunks = or_return!(chunks_of(alloc, heap, object, root));
    let mut made = MadeText::with_room(alloc, root.text.len())?;
    put_all(chunks.as_slice(), &mut made)?;
    Ok(made)
}
