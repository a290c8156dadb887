// Worked maps.

/// Two squares with a common side: the first is feature 0, the second feature 1.
pub(crate) const TWO_SQUARES: &str =
    r#"{"type":"Topology","bbox":[0,0,20,10],"objects":{"land":{"type":"GeometryCollection","geometries":[{"type":"Polygon","id":"A","arcs":[[0,1]]},{"arcs":[[-1,2]],"type":"Polygon","id":"B"}]}},"arcs":[[[10,0],[10,10]],[[10,10],[0,10],[0,0],[10,0]],[[10,0],[20,0],[20,10],[10,10]]]}"#;

/// A square, and a small triangle inside it.
pub(crate) const TRIANGLE_INSIDE: &str =
    r#"{"type":"Topology","objects":{"t":{"type":"GeometryCollection","geometries":[{"type":"Polygon","arcs":[[0]]},{"type":"Polygon","arcs":[[1]]}]}},"arcs":[[[0,0],[30,0],[30,30],[0,30],[0,0]],[[3,8],[5,8],[3,10],[3,8]]]}"#;

/// The text of the two squares.
pub(crate) const SQUARES: &str =
    r#"{"type":"Topology","objects":{"land":{"type":"GeometryCollection","geometries":[{"type":"Polygon","id":"A","arcs":[[0,1]]},{"type":"Polygon","id":"B","arcs":[[2,-1]]}]}},"arcs":[[[10,0],[10,10]],[[10,10],[0,10],[0,0],[10,0]],[[10,0],[20,0],[20,10],[10,10]]]}"#;
