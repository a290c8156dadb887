//! The step from GeoJSON to a topology, refused memory.
use crate::told::holds;
use geo_topology::{GeoObject, topology_text};
use json_spans::scan;
use std::alloc::{Allocator, Global};
use std::process::Abort;
use test_aids::Refusing;
use topo_outline::OpenFault;

/// More than the allocations of the step below.
const MANY: u64 = 1000;

/// A collection with a name, an id, properties, a hole, a point, and a foreign member in each place.
const AREAS: &[u8] =
    br#"{"type":"FeatureCollection","name":"areas","crs":{"n":1},"features":[{"type":"Feature","id":7,"properties":{"a":1},"geometry":{"type":"MultiPolygon","crs":2,"coordinates":[[[[0,0],[9,0],[9,9],[0,0]],[[5,1],[6,1],[6,2],[5,1]]]]},"title":"t"},{"type":"Feature","geometry":{"type":"GeometryCollection","geometries":[{"type":"Polygon","coordinates":[[[20,0],[29,0],[29,9],[20,0]]]},{"type":"Point","coordinates":[1,2]}]}}]}"#;

/// The text of the topology that it becomes.
const MADE: &[u8] =
    br#"{"type":"Topology","objects":{"areas":{"type":"GeometryCollection","geometries":[{"type":"MultiPolygon","id":7,"properties":{"a":1},"arcs":[[[0],[1]]],"title":"t","geometry":{"crs":2}},{"type":"GeometryCollection","geometries":[{"type":"Polygon","arcs":[[2]]},{"type":"Point","coordinates":[1,2]}]}],"crs":{"n":1}}},"arcs":[[[0,0],[9,0],[9,9],[0,0]],[[5,1],[6,1],[6,2],[5,1]],[[20,0],[29,0],[29,9],[20,0]]]}"#;

/// Whether it becomes that; else there is allocation failure, which is its only fault.
fn is_made<R: Abort, A: Allocator + Copy>(rt: &R, alloc: A, heap: Global) -> bool {
    let root = scan(heap, AREAS).expect(rt, "JSON");
    match topology_text(alloc, heap, GeoObject::FeatureCollection, root.span()) {
        Ok(made) => {
            holds(rt, "the text", made.text.as_slice() == MADE);
            true
        }
        Err(fault) => {
            holds(rt, "want of memory", fault == OpenFault::OutOfMemory);
            false
        }
    }
}

/// Whether it becomes that where the allocation of this number is refused. It does where there is none.
fn is_made_without<R: Abort>(rt: &R, alloc: Global, nth: u64) -> bool {
    let heap = Refusing::new(alloc, nth);
    let is_made = is_made(rt, &heap, alloc);
    let is_so = is_made != heap.was_refused();
    assert!(rt; is_so, "growth {nth}");
    is_made
}

/// How many allocations the step has, each of which was refused in turn.
fn growths<R: Abort>(rt: &R, alloc: Global) -> u64 {
    for nth in 1..MANY {
        if is_made_without(rt, alloc, nth) {
            return nth - 1;
        }
    }
    MANY
}

#[test]
fn each_growth_of_the_step_is_refused_in_turn(rt: HostRuntime) {
    let growths = growths(&rt, rt.alloc());
    holds(&rt, "growths", growths > 3 && growths < MANY);
}
