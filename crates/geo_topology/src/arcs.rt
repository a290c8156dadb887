// The rings, each of which is an arc: their indexes (TopoJSON 1.0, 2.1.4), and their positions.
ghost use Rattle.std.specs.Prelude.{◌≡◌, ◌++◌, ◌∷◌, [], map, length, true, OnOk};
ghost use Rattle.std.specs.List.{flat_map};
ghost use Rattle.json_spans.specs.Common.{node, items};
ghost use Rattle.geo_topology.specs.Text.{comma_text, ring_index_text, polygon_index_text, polygons_index_text, rings_of_piece, segment_of_piece, ring_segments};
ghost use Rattle.geo_topology.specs.Copies.{extended};
ghost use Rattle.geo_topology.specs.Views.{view_chunk, view_made};

use crate::chunk::Chunk;
use crate::made::MadeText;
use itoa::Buffer;
use json_spans::{Span, items};
use std::alloc::{AllocError, Allocator};

/// Appends a comma, but before the first.
fn put_comma<A: Allocator + Copy>(is_first: bool, made: &mut MadeText<A>) -> Result<(), AllocError>
    ensures text { OnOk result (made.new.text.items ≡ made.old.text.items ++ comma_text is_first) }
    ensures parts { OnOk result (made.new.parts ≡ made.old.parts) }
{
    if is_first { Ok(()) } else { made.put(b",") }
}

/// Keeps a ring, the next arc.
fn keep_ring<'a, A: Allocator + Copy>(
    ring: Span<'a>,
    rings: &mut Vec<Span<'a>, A>,
) -> Result<(), AllocError>
    ensures { OnOk result (map node rings.new.items
        ≡ map node rings.old.items ++ node ring.entry ∷ []) }
{
    rings.push(ring)?;
    Ok(())
}

/// Appends the index of an arc, as the list of that one.
fn put_index<A: Allocator + Copy>(index: usize, made: &mut MadeText<A>) -> Result<(), AllocError>
    ensures text { OnOk result (made.new.text.items ≡ made.old.text.items ++ ring_index_text index) }
    ensures parts { OnOk result (made.new.parts ≡ made.old.parts) }
{
    let mut buffer = Buffer::new();
    made.put(b"[")?;
    made.put(buffer.format(index).as_bytes())?;
    made.put(b"]")
}

/// Appends a ring as the list of one arc, which is the next one.
fn put_ring<'a, A: Allocator + Copy>(
    ring: Span<'a>,
    made: &mut MadeText<A>,
    rings: &mut Vec<Span<'a>, A>,
) -> Result<(), AllocError>
    ensures text { OnOk result (made.new.text.items ≡ made.old.text.items
        ++ ring_index_text (length rings.old.items)) }
    ensures parts { OnOk result (made.new.parts ≡ made.old.parts) }
    ensures rings { OnOk result (map node rings.new.items ≡ map node rings.old.items
        ++ node ring.entry ∷ []) }
{
    put_index(rings.len(), made)?;
    keep_ring(ring, rings)
}

/// Appends the arcs of a polygon (TopoJSON 1.0, 2.2.5).
fn put_rings<'a, A: Allocator + Copy>(
    polygon: Span<'a>,
    made: &mut MadeText<A>,
    rings: &mut Vec<Span<'a>, A>,
) -> Result<(), AllocError>
    ensures text { OnOk result (made.new.text.items ≡ made.old.text.items
        ++ polygon_index_text (length rings.old.items) (node polygon.entry)) }
    ensures parts { OnOk result (made.new.parts ≡ made.old.parts) }
    ensures rings { OnOk result (map node rings.new.items ≡ map node rings.old.items
        ++ items (node polygon.entry)) }
{
    made.put(b"[")?;
    let mut is_first = true;
    for ring in items(polygon) {
        put_comma(is_first, made)?;
        put_ring(ring, made, rings)?;
        is_first = false;
    }
    made.put(b"]")
}

/// Appends the arcs of several polygons (TopoJSON 1.0, 2.2.6).
fn put_polygons<'a, A: Allocator + Copy>(
    polygons: Span<'a>,
    made: &mut MadeText<A>,
    rings: &mut Vec<Span<'a>, A>,
) -> Result<(), AllocError>
    ensures text { OnOk result (made.new.text.items ≡ made.old.text.items
        ++ polygons_index_text (length rings.old.items) (node polygons.entry)) }
    ensures parts { OnOk result (made.new.parts ≡ made.old.parts) }
    ensures rings { OnOk result (map node rings.new.items ≡ map node rings.old.items
        ++ flat_map items (items (node polygons.entry))) }
{
    made.put(b"[")?;
    let mut is_first = true;
    for polygon in items(polygons) {
        put_comma(is_first, made)?;
        put_rings(polygon, made, rings)?;
        is_first = false;
    }
    made.put(b"]")
}

/// Appends a piece.
pub(crate) fn put_chunk<'a, A: Allocator + Copy>(
    chunk: Chunk<'a>,
    made: &mut MadeText<A>,
    rings: &mut Vec<Span<'a>, A>,
) -> Result<(), AllocError>
    ensures made { OnOk result (view_made made.new
        ≡ extended (view_made made.old)
        (segment_of_piece (length rings.old.items) (view_chunk chunk.entry) ∷ [])) }
    ensures rings { OnOk result (map node rings.new.items ≡ map node rings.old.items
        ++ rings_of_piece (view_chunk chunk.entry)) }
{
    match chunk {
        Chunk::Words(words) => made.put(words),
        Chunk::Copied(span) => made.copy(span),
        Chunk::Rings(span) => put_rings(span, made, rings),
        Chunk::Polygons(span) => put_polygons(span, made, rings),
    }
}

/// Appends the arcs of the topology, each ring as it stands (TopoJSON 1.0, 2.1.3).
pub(crate) fn put_arcs<A: Allocator + Copy>(
    rings: &[Span<'_>],
    made: &mut MadeText<A>,
) -> Result<(), AllocError>
    ensures { OnOk result (view_made made.new
        ≡ extended (view_made made.old) (ring_segments true (map node rings.now))) }
{
    let mut is_first = true;
    for ring in rings {
        put_comma(is_first, made)?;
        made.copy(*ring)?;
        is_first = false;
    }
    Ok(())
}
