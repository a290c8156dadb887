// Worked maps.

/// A name and a map on each line. Of the less plain names, `dented` is a square, and below it a polygon
/// with a dent, each the geometry of a layer, and `other names` the same with the layers the other way
/// round; `holes` a polygon with a hole at its corner, and another hole that turns right; `deltas` has a
/// transform with differences, nested collections, a kept point and a null geometry; `union above` a
/// layer above the two squares that is their union; `gap above` a square, and a neighbour with a gap
/// between them; `all members` has escapes, unknown members, and 34 lists one in another.
const NAMED: &str =
    r#"two squares = {"type":"Topology","bbox":[0,0,20,10],"objects":{"land":{"type":"GeometryCollection","geometries":[{"type":"Polygon","id":"A","arcs":[[0,1]]},{"arcs":[[-1,2]],"type":"Polygon","id":"B"}]}},"arcs":[[[10,0],[10,10]],[[10,10],[0,10],[0,0],[10,0]],[[10,0],[20,0],[20,10],[10,10]]]}
dented = {"type":"Topology","objects":{"a":{"type":"Polygon","arcs":[[0]]},"b":{"type":"Polygon","arcs":[[1]]}},"arcs":[[[0,0],[10,0],[10,10],[0,10],[0,0]],[[0,0],[0,-10],[10,-10],[10,0],[5,-2],[0,0]]]}
holes = {"type":"Topology","objects":{"h":{"type":"GeometryCollection","geometries":[{"type":"Polygon","arcs":[[0],[1],[2]]}]}},"arcs":[[[0,0],[10,0],[20,0],[20,10],[10,10],[0,10],[0,0]],[[0,0],[2,4],[4,2],[0,0]],[[14,4],[14,6],[16,6],[16,4],[14,4]]]}
two runs = {"type":"Topology","objects":{"l":{"type":"GeometryCollection","geometries":[{"type":"Polygon","arcs":[[0,1,2,3]]},{"type":"Polygon","arcs":[[-1,4,-3,5]]}]}},"arcs":[[[10,0],[10,3]],[[10,3],[8,5],[10,7]],[[10,7],[10,10]],[[10,10],[0,10],[0,0],[10,0]],[[10,0],[20,0],[20,10],[10,10]],[[10,7],[12,5],[10,3]]]}
deltas = {"type":"Topology","transform":{"scale":[0.50,1e-3],"translate":[-1.25,50.0]},"objects":{"z":{"type":"GeometryCollection","geometries":[{"type":"GeometryCollection","geometries":[{"type":"Polygon","arcs":[[0]],"properties":{"n": 1.50,"s":"\u00e9"}}]},{"type":"Point","coordinates":[3,4]},{"type":null,"id":7}]}},"arcs":[[[0,0],[5,0],[0,0],[0,5],[-5,-5]]],"bbox":[-1.25,50.0,1.25,50.005],"note":"kept  1.0"}
triangle inside = {"type":"Topology","objects":{"t":{"type":"GeometryCollection","geometries":[{"type":"Polygon","arcs":[[0]]},{"type":"Polygon","arcs":[[1]]}]}},"arcs":[[[0,0],[30,0],[30,30],[0,30],[0,0]],[[3,8],[5,8],[3,10],[3,8]]]}
union above = {"type":"Topology","bbox":[0,0,20,10],"objects":{"land":{"type":"GeometryCollection","geometries":[{"type":"Polygon","id":"A","arcs":[[0,1]]},{"arcs":[[-1,2]],"type":"Polygon","id":"B"}]},"state":{"type":"Polygon","arcs":[[1,2]]}},"arcs":[[[10,0],[10,10]],[[10,10],[0,10],[0,0],[10,0]],[[10,0],[20,0],[20,10],[10,10]]]}
other names = {"type":"Topology","objects":{"b":{"type":"Polygon","arcs":[[0]]},"a":{"type":"Polygon","arcs":[[1]]}},"arcs":[[[0,0],[10,0],[10,10],[0,10],[0,0]],[[0,0],[0,-10],[10,-10],[10,0],[5,-2],[0,0]]]}
gap above = {"type":"Topology","objects":{"c":{"type":"GeometryCollection","geometries":[{"type":"Polygon","arcs":[[0]]},{"type":"Polygon","arcs":[[1]]}]}},"arcs":[[[0,0],[4,0],[4,4],[0,4],[0,0]],[[4,0],[8,0],[8,8],[0,8],[0,4],[2,6],[4,4],[4,0]]]}
all members = {"type":"Topology","transform":{"scale":[0.50,1e-3],"translate":[-1.25,50.0]},"objects":{"z":{"type":"GeometryCollection","name" : [ 1 ],"geometries":[{"type":"GeometryCollection","geometries":[{"type":"Poly\u0067on","arcs":[[0]],"properties":{"n": 1.50}}]},{"type":"Point", "coordinates":[3,4]},{"type":null,"id":7,"bbox":[],"arcs":9}]},"y\u0079":{"arcs":[ [[0]],[[-1]] ],"type":"MultiPolygon","z":1,"geometries":2,"a":3}},"arcs":[[[0,0],[5,0],[0,5],[-5,-5]]],"bbox":[-1.25,50.0,1.25,50.005],"note":"kept  1.0","geometries":[],"deep":[[[[[[[[[[[[[[[[[[[[[[[[[[[[[[[[[[]]]]]]]]]]]]]]]]]]]]]]]]]]]]]]]]]]}"#;

/// The names of all of them, each with the number of its features.
pub(crate) const ALL: &[(&str, usize)] = &[
    ("two squares", 2),
    ("dented", 2),
    ("holes", 1),
    ("two runs", 2),
    ("deltas", 2),
    ("triangle inside", 2),
    ("union above", 3),
    ("other names", 2),
    ("gap above", 2),
    ("all members", 3),
];

/// The map of this name.
pub(crate) fn map_of(name: &str) -> &'static [u8] {
    for line in NAMED.lines() {
        if let Some((this, map)) = line.split_once(" = ") {
            if this == name {
                return map.as_bytes();
            }
        }
    }
    b""
}
