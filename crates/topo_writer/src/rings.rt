//! The rings of a map, in the text.
ghost use Rattle.std.specs.Prelude.{◌≡◌, ◌++◌, length, Contains, OnOk, IfOk};
ghost use Rattle.ring_machine.specs.Common.{rings, Proper};
ghost use Rattle.topo_writer.specs.ByTable.{text_of_polygon, text_of_ring};
ghost use Rattle.topo_writer.specs.Named.{named_pieces, named_ring};
ghost use Rattle.topo_writer.specs.Reading.{rings_at, AreRingsOf};
ghost use Rattle.topo_writer.specs.Tables.{FindsArcs, HasRoom, HasRoomForRing};
ghost use Rattle.topo_writer.specs.Tables.{TakesPolygon, TakesRing};

use crate::arcs::{Arcs, RingName};
use crate::cutting::{CutRing, cut_ring};
use crate::texts::{push_comma, push_ring};
use arc_store::MarkedMap;
use segment_index::SegIndex;
use std::alloc::{AllocError, Allocator};

/// Room for the positions of most rings.
const ROOM: usize = 128;

/// A ring of the map, cut from its first junction on; no piece where there is no such ring.
fn cut_named<'a, I: SegIndex, A: Allocator + Copy>(
    alloc: A,
    map: &MarkedMap<'_, 'a, I, A>,
    name: RingName,
) -> Result<CutRing<A>, AllocError>
    ensures { IfOk result (λ cut. cut ≡ named_pieces map.now name) }
{
    let mut positions = Vec::with_capacity(alloc, ROOM)?;
    let mut marks = Vec::with_capacity(alloc, ROOM)?;
    map.push_ring(
        name.feature,
        name.polygon,
        name.ring,
        &mut positions,
        &mut marks,
    )?;
    cut_ring(alloc, positions.as_slice(), marks.as_slice())
}

/// Appends a ring of the map by the indexes of its arcs. A piece that is no arc yet becomes the
/// next one.
fn push_ring_of<'a, I: SegIndex, A: Allocator + Copy>(
    map: &MarkedMap<'_, 'a, I, A>,
    arcs: &mut Arcs<A>,
    text: &mut Vec<u8, A>,
    name: RingName,
) -> Result<(), AllocError>
    requires proper { Proper map.now }
    requires there { Contains (rings map.now) (named_ring map.now name) }
    requires table { FindsArcs map.now arcs.old }
    requires few { HasRoomForRing map.now arcs.old name }
    ensures table { OnOk result (FindsArcs map.now arcs.new) }
    ensures arcs { OnOk result (TakesRing map.now arcs.old arcs.new name) }
    ensures text { OnOk result (text.new.items
        ≡ text.old.items ++ text_of_ring map.now arcs.new name) }
{
    let alloc = *text.allocator();
    let ring = cut_named(alloc, map, name)?;
    let indexes = arcs.index_all(alloc, &ring)?;
    arcs.rings.push(name)?;
    push_ring(text, indexes.as_slice())?;
    Ok(())
}

/// Appends a polygon of the map, which has so many rings, by the indexes of its arcs. A piece that
/// is no arc yet becomes the next one.
pub(crate) fn push_polygon_of<'a, I: SegIndex, A: Allocator + Copy>(
    map: &MarkedMap<'_, 'a, I, A>,
    arcs: &mut Arcs<A>,
    text: &mut Vec<u8, A>,
    n: u32,
    polygon: usize,
    count: usize,
) -> Result<(), AllocError>
    requires proper { Proper map.now }
    requires count { count ≡ length (rings_at map.now n polygon) }
    requires there { AreRingsOf map.now (rings_at map.now n polygon) }
    requires table { FindsArcs map.now arcs.old }
    requires few { HasRoom map.now arcs.old (rings_at map.now n polygon) }
    ensures table { OnOk result (FindsArcs map.now arcs.new) }
    ensures arcs { OnOk result (TakesPolygon map.now arcs.old arcs.new n polygon) }
    ensures text { OnOk result (text.new.items
        ≡ text.old.items ++ text_of_polygon map.now arcs.new n polygon) }
{
    text.push(b'[')?;
    for ring in 0..count {
        push_comma(text, ring > 0)?;
        let name = RingName {
            feature: n,
            polygon,
            ring,
        };
        push_ring_of(map, arcs, text, name)?;
    }
    text.push(b']')?;
    Ok(())
}
