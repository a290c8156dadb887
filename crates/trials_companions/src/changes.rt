//! Pictures of edits that leave all regions as they are. `border_show` has the stored page of one that changes some.
use crate::pictures::{ALL, MEMORY, read_map, shows};
use map_drawing::{Edit as MapEdit, draw_change};
use std::alloc::Global;
use std::process::Abort;

/// Squares with a common side, and one apart.
const BEFORE: &str =
    r#"{"type":"Topology","objects":{"land":{"type":"GeometryCollection","geometries":[{"type":"Polygon","id":"A","arcs":[[0,1]]},{"type":"Polygon","id":"B","arcs":[[-1,2]]},{"type":"Polygon","id":"C","arcs":[[3]]}]}},"arcs":[[[10,0],[10,10]],[[10,10],[0,10],[0,0],[10,0]],[[10,0],[20,0],[20,10],[10,10]],[[30,0],[40,0],[40,10],[30,0]]]}"#;

/// The first one with a vertex put into the lower side of A: the same borders and regions.
const WITH_VERTEX: &str =
    r#"{"type":"Topology","objects":{"land":{"type":"GeometryCollection","geometries":[{"type":"Polygon","id":"A","arcs":[[0,1]]},{"type":"Polygon","id":"B","arcs":[[-1,2]]},{"type":"Polygon","id":"C","arcs":[[3]]}]}},"arcs":[[[10,0],[10,10]],[[10,10],[0,10],[0,0],[3,0],[10,0]],[[10,0],[20,0],[20,10],[10,10]],[[30,0],[40,0],[40,10],[30,0]]]}"#;

/// The first one with A called E: the same regions.
const RENAMED: &str =
    r#"{"type":"Topology","objects":{"land":{"type":"GeometryCollection","geometries":[{"type":"Polygon","id":"E","arcs":[[0,1]]},{"type":"Polygon","id":"B","arcs":[[-1,2]]},{"type":"Polygon","id":"C","arcs":[[3]]}]}},"arcs":[[[10,0],[10,10]],[[10,10],[0,10],[0,0],[10,0]],[[10,0],[20,0],[20,10],[10,10]],[[30,0],[40,0],[40,10],[30,0]]]}"#;

/// Where no region was changed nothing is marked.
const SAME: &[&str] = &[
    r#"<path class="gone" stroke-width="300" stroke-dasharray="700" d=""/>"#,
    r#"<path class="new" stroke-width="300" d=""/>"#,
];

/// A map after an edit, what its picture shows beside the borders that stay, and what it does not show.
type Edit = (
    &'static str,
    &'static [&'static str],
    &'static [&'static str],
);

const EDITS: &[Edit] = &[
    (
        BEFORE,
        &[">no feature</text>"],
        &[r#"<path class="changed""#],
    ),
    (
        WITH_VERTEX,
        &[">no feature</text>"],
        &[r#"<path class="changed""#],
    ),
    (
        RENAMED,
        &[">renamed</text>", ">A \u{2192} E</text>"],
        &[r#"<path class="changed""#, ">gone</text>", ">new</text>"],
    ),
];

/// The picture of what an edit did to the map.
fn change<R: Abort>(rt: &R, alloc: Global, after: &str) -> Vec<u8> {
    let before = read_map(alloc, alloc, BEFORE).expect(rt, "it is read");
    let after = read_map(alloc, alloc, after).expect(rt, "it is read");
    let edit = MapEdit {
        before: &before,
        after: &after,
    };
    draw_change(alloc, alloc, edit, ALL, "a").expect(rt, MEMORY)
}

/// The picture of an edit that leaves all regions as they are.
fn see<R: Abort>(rt: &R, alloc: Global, (after, shown, others): &Edit) {
    let text = change(rt, alloc, after);
    shows(rt, text.as_slice(), SAME, others);
    shows(rt, text.as_slice(), shown, &[]);
}

#[test]
fn where_no_region_was_changed_nothing_is_marked(rt: HostRuntime) {
    for edit in EDITS {
        see(&rt, rt.alloc(), edit);
    }
}
