//! Maps, and editors of them in a heap that may refuse an allocation.
ghost use Rattle.topo_reader.specs.Document.{IsOfRings};
ghost use Rattle.topo_reader.specs.DocumentView.{view_raw};

use arc_store::Map;
use segment_index::GridIndex;
use std::alloc::Global;
use std::hash::RandomState;
use test_aids::{Refusing, fixed_seed};
use topo_reader::{RawDoc, read};
use undo_ring::Editor;

/// A heap that may refuse an allocation.
pub(crate) type Heap<'h> = &'h Refusing<Global>;

/// A map in such a heap, with a grid.
pub(crate) type GridMap<'h> = Map<'static, GridIndex<Heap<'h>>, Heap<'h>>;

/// An editor of such a map.
pub(crate) type GridEditor<'h> = Editor<'static, GridIndex<Heap<'h>>, Heap<'h>>;

/// A square with a hole, its neighbours to the right and below, an object without a geometry, a point,
/// a collection in the collection, and a square that is itself a layer. Five vertices of the border to
/// the right are flat.
pub(crate) const SQUARES: &str =
    r#"{"type":"Topology","objects":{"l":{"type":"GeometryCollection","geometries":[{"type":"Polygon","id":"A","properties":{"n":1},"arcs":[[0],[1]]},{"type":"Polygon","id":7,"k":[1],"arcs":[[2]]},{"type":null,"id":"N"},{"type":"Point","coordinates":[3,4]},{"type":"GeometryCollection","id":"c","m":0,"geometries":[{"type":"Polygon","arcs":[[3]]}]}]},"s":{"type":"Polygon","arcs":[[4]]}},"arcs":[[[0,0],[10,0],[10,2],[10,3],[10,5],[10,7],[10,8],[10,10],[0,10],[0,0]],[[4,4],[4,6],[6,6],[6,4],[4,4]],[[10,0],[20,0],[20,10],[10,10],[10,8],[10,7],[10,5],[10,3],[10,2],[10,0]],[[0,-10],[20,-10],[20,0],[10,0],[0,0],[0,-10]],[[30,0],[40,0],[40,10],[30,10],[30,0]]],"note":"kept"}"#;

/// Two neighbours, and one that shares a long border with both; a junction has three neighbours.
pub(crate) const THREE: &str =
    r#"{"type":"Topology","objects":{"l":{"type":"GeometryCollection","geometries":[{"type":"Polygon","arcs":[[0]]},{"type":"Polygon","arcs":[[1]]},{"type":"Polygon","arcs":[[2]]}]}},"arcs":[[[0,0],[10,0],[10,5],[10,10],[0,10],[0,0]],[[10,0],[20,0],[20,10],[10,10],[10,5],[10,0]],[[0,0],[0,-10],[20,-10],[20,0],[10,0],[0,0]]]}"#;

/// A square, and a triangle inside it.
pub(crate) const INSIDE: &str =
    r#"{"type":"Topology","objects":{"m":{"type":"GeometryCollection","geometries":[{"type":"Polygon","arcs":[[0]]},{"type":"Polygon","arcs":[[1]]}]}},"arcs":[[[0,0],[30,0],[30,30],[0,30],[0,0]],[[3,8],[5,8],[3,10],[3,8]]]}"#;

/// A square, and a triangle with one corner beyond the square's diagonal.
pub(crate) const ACROSS: &str =
    r#"{"type":"Topology","objects":{"m":{"type":"GeometryCollection","geometries":[{"type":"Polygon","arcs":[[0]]},{"type":"Polygon","arcs":[[1]]}]}},"arcs":[[[0,0],[30,0],[30,30],[0,30],[0,0]],[[10,12],[20,20],[10,14],[10,12]]]}"#;

/// The map of what was read, in a grid; `None` where an allocation failed.
fn built<'h>(
    heap: Heap<'h>,
    alloc: Global,
    seed: RandomState,
    raw: RawDoc<'static, Heap<'h>>,
) -> Option<GridMap<'h>>
    requires rings { IsOfRings (view_raw raw) }
{
    match GridIndex::new(heap, raw.extent()) {
        Ok(index) => Map::build(heap, alloc, seed, raw, index).ok(),
        Err(_) => {
            drop(raw);
            None
        }
    }
}

/// The map of the text, in a heap that may refuse an allocation; `None` where it did.
pub(crate) fn map_of<'h>(heap: Heap<'h>, alloc: Global, text: &'static str) -> Option<GridMap<'h>> {
    let seed = fixed_seed()?;
    match read(heap, alloc, seed, text.as_bytes()) {
        Ok(raw) => built(heap, alloc, seed, raw),
        Err(_) => None,
    }
}
