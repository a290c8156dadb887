// What is large, with ample memory: no command is answered by want of it.
use crate::long_texts::{Long, text_of};
use crate::maps::TWO_SQUARES;
use crate::told::is_answered;
use std::alloc::{AllocError, Global};
use std::fmt::Write;
use std::process::Abort;

/// Ids of 8,000 letters: a script, and its answers.
const LONG_IDS: &[(&str, Long, Long)] = &[
    (
        "of a feature",
        ("rename 0 \"", "x", 8000, "\"\ndocument"),
        (
            "ok\n{\"type\":\"Topology\",\"objects\":{\"land\":{\"type\":\"GeometryCollection\",\"geometries\":[{\"type\":\"Polygon\",\"id\":\"",
            "x",
            8000,
            "\",\"arcs\":[[0,1]]},{\"type\":\"Polygon\",\"id\":\"B\",\"arcs\":[[2,-1]]}]}},\"arcs\":[[[10,0],[10,10]],[[10,10],[0,10],[0,0],[10,0]],[[10,0],[20,0],[20,10],[10,10]]]}\nanswered 2, refused 0",
        ),
    ),
    (
        "of the part that a split makes",
        ("split 0 \"", "x", 8000, "\" 0 0 10 10\ndocument"),
        (
            "ok 2\n{\"type\":\"Topology\",\"objects\":{\"land\":{\"type\":\"GeometryCollection\",\"geometries\":[{\"type\":\"Polygon\",\"id\":\"A\",\"arcs\":[[0,1,2]]},{\"type\":\"Polygon\",\"id\":\"",
            "x",
            8000,
            "\",\"arcs\":[[-3,3]]},{\"type\":\"Polygon\",\"id\":\"B\",\"arcs\":[[4,-2]]}]}},\"arcs\":[[[0,0],[10,0]],[[10,0],[10,10]],[[10,10],[0,0]],[[10,10],[0,10],[0,0]],[[10,0],[20,0],[20,10],[10,10]]]}\nanswered 2, refused 0",
        ),
    ),
];

/// That the script has these answers on the two squares.
fn long_script_answers<R: Abort>(rt: &R, alloc: Global, what: &str, script: &Long, want: &Long) {
    let script = text_of(rt, alloc, script);
    let want = text_of(rt, alloc, want);
    is_answered(
        rt,
        alloc,
        what,
        TWO_SQUARES.as_bytes(),
        script.as_slice(),
        want.as_slice(),
    );
}

#[test]
fn long_ids(rt: HostRuntime) {
    for (what, script, want) in LONG_IDS {
        long_script_answers(&rt, rt.alloc(), what, script, want);
    }
}

/// Appends the arc of this number, round a square of side 10 whose left side is at 100 times the
/// number.
fn put_arc(text: &mut String, n: u32) -> Result<(), AllocError> {
    let left = u64::from(n) * 100;
    let right = left + 10;
    write!(
        text,
        ",[[{left},0],[{right},0],[{right},10],[{left},10],[{left},0]]"
    )
}

/// Appends a map: a square, and to the left of it a row of 2,000 squares, of which the last one has a
/// side in common with it. Those in the row are the polygons of feature 1, and lie apart from each
/// other.
fn put_square_and_row(text: &mut String) -> Result<(), AllocError> {
    text.push_str(
        r#"{"type":"Topology","objects":{"m":{"type":"GeometryCollection","geometries":[{"type":"Polygon","arcs":[[0]]},{"type":"MultiPolygon","arcs":[[[1]]"#,
    )?;
    for n in 2..2001u32 {
        write!(text, ",[[{n}]]")?;
    }
    text.push_str(r#"]}]}},"arcs":[[[200010,0],[200020,0],[200020,10],[200010,10],[200010,0]]"#)?;
    for n in 1..2001u32 {
        put_arc(text, n)?;
    }
    text.push_str("]}")
}

/// What it shows, a script on that map, and its answers.
const OF_MANY_POLYGONS: &[(&str, &str, &str)] = &[
    (
        "beside the row, in its first and its last square, on the common side, and between two squares; it is not joined to another",
        "area 1\nneighbours 0\nneighbours 1\nat 200015 5\nat 105 5\nat 200005 5\nat 200010 5\nat 150 5\nmerge 0 1\nmerge 1 0",
        "400000\nneighbours: 1\nneighbours: 0\ninside: 0 border:\ninside: 1 border:\ninside: 1 border:\ninside: border: 0 1\ninside: border:\nrefused not one polygon\nrefused not one polygon\nanswered 10, refused 2",
    ),
    (
        "the lower half of the last polygon stays at the common side, the upper half is the new feature",
        "split 1 \"C\" 200000 0 200010 10\narea 1\narea 2\nneighbours 0\nneighbours 1\nat 200008 2\nat 200002 8\ncount",
        "ok 2\n399900\n100\nneighbours: 1\nneighbours: 0 2\ninside: 1 border:\ninside: 2 border:\nfeatures 3 vertices 8002 segments 8004\nanswered 8, refused 0",
    ),
];

/// That each script has these answers on that map.
fn polygons_answer<R: Abort>(rt: &R, alloc: Global, map: &[u8]) {
    for (what, script, want) in OF_MANY_POLYGONS {
        is_answered(rt, alloc, what, map, script.as_bytes(), want.as_bytes());
    }
}

#[test]
fn a_feature_of_many_polygons(rt: HostRuntime) {
    let mut map = String::new(rt.alloc());
    put_square_and_row(&mut map).expect(&rt, "memory");
    polygons_answer(&rt, rt.alloc(), map.as_bytes());
}
