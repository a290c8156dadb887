//! The most that may be found, the most that may be inserted, and a map that is not saved.
use mend_report::{SaveFault, saved_text};
use segment_index::{ListIndex, TreeIndex};
use segment_paths::{PathFault, find_paths};
use std::alloc::Global;
use std::test::Fail;
use test_aids::fixed_seed;
use topo_reader::{RawDoc, read, read_walks};
use walk_faults::{FindFault, find_at_most};
use walk_mending::bounding_segments;

/// Maps with two findings of one kind: rings that collapsed, positions that a ring repeats, vertices on a
/// segment, and segments that cross.
const TWO: &[&str] = &[
    r#"{"type":"Topology","objects":{"a":{"type":"Polygon","arcs":[[0],[0]]}},"arcs":[[[0,0],[0,0]]]}"#,
    r#"{"type":"Topology","objects":{"a":{"type":"Polygon","arcs":[[0]]}},"arcs":[[[0,0],[4,0],[2,2],[0,0],[0,4],[2,2],[0,0]]]}"#,
    r#"{"type":"Topology","objects":{"a":{"type":"MultiPolygon","arcs":[[[0]],[[1]]]}},"arcs":[[[0,0],[9,0],[0,9],[0,0]],[[3,0],[3,1],[4,0],[3,0]]]}"#,
    r#"{"type":"Topology","objects":{"a":{"type":"MultiPolygon","arcs":[[[0]],[[1]]]}},"arcs":[[[0,0],[9,0],[0,9],[0,0]],[[3,-1],[4,-1],[3,1],[3,-1]]]}"#,
];

/// Whether all is found where two of each kind are the most, and refused where it is one.
fn has_two(alloc: Global, map: &RawDoc<'_>) -> bool {
    let walks = map.polygons.as_slice();
    let two = find_at_most(alloc, ListIndex::new(alloc), walks, 2);
    let one = find_at_most(alloc, ListIndex::new(alloc), walks, 1);
    two.is_ok() && matches!(&one, Err(FindFault::TooMany))
}

/// The map of walks that a text is.
fn walks_of(alloc: Global, text: &'static str) -> Option<RawDoc<'static>> {
    read_walks(alloc, alloc, fixed_seed()?, text.as_bytes()).ok()
}

#[test]
fn more_findings_than_the_most_are_refused(rt: HostRuntime) -> Result<(), Fail> {
    for text in TWO {
        let map = walks_of(rt.alloc(), *text).ok_or("no map")?;
        assert!(rt; has_two(rt.alloc(), &map), "{text}");
    }
    Ok(())
}

/// A bow tie and a ring with a side across it: three segments cross each other, and each is led along two
/// positions.
const THREE: &str =
    r#"{"type":"Topology","objects":{"a":{"type":"MultiPolygon","arcs":[[[0]],[[1]]]}},"arcs":[[[0,0],[10,10],[10,0],[0,10],[0,0]],[[3,0],[3,9],[3,12],[-5,12],[-5,-1],[3,0]]]}"#;

/// How many paths there are where so many positions may be inserted.
fn count_paths(alloc: Global, map: &RawDoc<'_>, most: usize) -> Result<usize, PathFault> {
    let segments = bounding_segments(alloc, map.polygons.as_slice())?;
    let index = TreeIndex::new(alloc, map.extent());
    let paths = find_paths(alloc, index, segments.as_slice(), most)?;
    Ok(paths.len())
}

#[test]
fn more_positions_than_the_most_are_refused(rt: HostRuntime) -> Result<(), Fail> {
    let map = walks_of(rt.alloc(), THREE).ok_or("no map")?;
    assert!(rt; count_paths(rt.alloc(), &map, 6) == Ok(3));
    assert!(rt; count_paths(rt.alloc(), &map, 5) == Err(PathFault::TooMany));
    Ok(())
}

/// A square whose sides cross.
const BOW_TIE: &str =
    r#"{"type":"Topology","objects":{"l":{"type":"Polygon","arcs":[[0]]}},"arcs":[[[0,0],[10,10],[10,0],[0,10],[0,0]]]}"#;

/// Whether a text is a map that is not saved for segments in conflict.
fn is_in_conflict(alloc: Global, text: &str) -> Option<bool> {
    let seed = fixed_seed()?;
    match read(alloc, alloc, seed, text.as_bytes()) {
        Ok(map) => {
            let saved = saved_text(alloc, alloc, seed, map);
            Some(matches!(&saved, Err(SaveFault::Conflict { .. })))
        }
        Err(_) => None,
    }
}

#[test]
fn a_map_with_a_conflict_is_not_saved(rt: HostRuntime) {
    assert!(rt; is_in_conflict(rt.alloc(), BOW_TIE) == Some(true));
}
