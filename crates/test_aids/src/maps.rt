//! Maps that tests of several crates open.

/// Two squares with a common side, which is written once for each of them.
pub const TWO_SQUARES: &str =
    r#"{"type":"Topology","objects":{"l":{"type":"GeometryCollection","geometries":[{"type":"Polygon","id":"A","arcs":[[0]]},{"type":"Polygon","id":"B","arcs":[[1]]}]}},"arcs":[[[0,0],[10,0],[10,10],[0,10],[0,0]],[[10,0],[20,0],[20,10],[10,10],[10,0]]]}"#;

/// Two squares with a common side, and above them a layer that is their union.
pub const UNION_ABOVE: &str =
    r#"{"type":"Topology","objects":{"land":{"type":"GeometryCollection","geometries":[{"type":"Polygon","id":"A","arcs":[[0,1]]},{"arcs":[[-1,2]],"type":"Polygon","id":"B"}]},"state":{"type":"Polygon","arcs":[[1,2]]}},"arcs":[[[10,0],[10,10]],[[10,10],[0,10],[0,0],[10,0]],[[10,0],[20,0],[20,10],[10,10]]]}"#;
