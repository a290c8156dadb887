// Texts at the limits, and past them.
use crate::maps::map_of;
use crate::texts::{Round, numbers, text_of};
use crate::told::{holds, is_told, is_told_within};
use json_spans::{ScanFault, scan};
use linked_list_allocator::LocalHeap;
use std::alloc::{Allocator, Global};
use std::process::Abort;

/// The most bytes of a text.
const MAX_BYTES: usize = 67_108_864;

/// What it shows, a text of pieces, each so many times, and what its opening is reported.
type Row = (
    &'static str,
    &'static [(&'static [u8], usize)],
    &'static str,
);

/// Texts that need no memory.
const WITHOUT_A_HEAP: &[Row] = &[
    (
        "one byte too many",
        &[(b" ", MAX_BYTES + 1)],
        "too large bytes",
    ),
    ("one long number", &[(b"7", MAX_BYTES)], "not a topology"),
    (
        "one long string",
        &[(b"\"", 1), (b"a", MAX_BYTES - 2), (b"\"", 1)],
        "not a topology",
    ),
];

/// A coordinate, a type and a name as long as a text may have them.
const LONG_PARTS: &[Row] = &[
    (
        "a long coordinate",
        &[
            (br#"{"type":"Topology","objects":{},"arcs":[[[0,0],["#, 1),
            (b"7", 10_000_000),
            (b",1]]]}", 1),
        ],
        "out of range at 48",
    ),
    (
        "a long type",
        &[
            (br#"{"type":""#, 1),
            (br"\u0054", 10_000_000),
            (br#""}"#, 1),
        ],
        "not a topology",
    ),
    (
        "a long name",
        &[(br#"{""#, 1), (br"\u0054", 10_000_000), (br#"":1}"#, 1)],
        "not a topology",
    ),
];

/// That the opening of the text, on a heap of this size, is reported so.
fn row_tells_within<R: Abort>(rt: &R, alloc: Global, size: usize, row: &Row) {
    let (what, pieces, want) = row;
    let text = text_of(rt, alloc, pieces);
    holds(
        rt,
        what,
        is_told_within(rt, alloc, size, text.as_slice(), want),
    );
}

#[test]
fn texts_without_a_heap(rt: HostRuntime) {
    for row in WITHOUT_A_HEAP {
        row_tells_within(&rt, rt.alloc(), 0, row);
    }
}

#[test]
fn long_parts_of_a_map(rt: HostRuntime) {
    for row in LONG_PARTS {
        row_tells_within(&rt, rt.alloc(), 8192, row);
    }
}

/// A map in as much space as a text may have takes no more memory than it takes alone.
#[test]
fn a_map_in_space(rt: HostRuntime) {
    let map = map_of("two squares");
    let behind = (MAX_BYTES / 2).saturating_sub(map.len());
    let pieces = [(b" ".as_slice(), MAX_BYTES / 2), (map, 1), (b" ", behind)];
    let text = text_of(&rt, rt.alloc(), &pieces);
    let is_so = is_told_within(&rt, rt.alloc(), 8192, text.as_slice(), "opened 2");
    holds(&rt, "a map in space", is_so && text.len() == MAX_BYTES);
}

/// Whether the scan of the text finds it too deep here.
fn is_too_deep<A: Allocator + Copy>(alloc: A, text: &[u8], want: usize) -> bool {
    match scan(alloc, text) {
        Err(ScanFault::TooDeep { place }) => place == want,
        _ => false,
    }
}

/// The scan keeps no more than a hundred brackets, and so does the opening.
#[test]
fn brackets_alone(rt: HostRuntime) {
    let text = text_of(&rt, rt.alloc(), &[(b"[", MAX_BYTES)]);
    let heap = LocalHeap::new(rt.alloc(), 1024).expect(&rt, "memory");
    holds(&rt, "the scan", is_too_deep(&heap, text.as_slice(), 100));
    let opening = is_told(&rt, &heap, rt.alloc(), text.as_slice(), "too deep at 100");
    holds(&rt, "the opening", opening);
}

/// A collection of features without polygons, up to its second.
const FEATURES: &[u8] =
    br#"{"type":"Topology","objects":{"a":{"type":"GeometryCollection","geometries":[{"type":null}"#;

/// A ring, up to its second arc index.
const RING: &[u8] = br#"{"type":"Topology","objects":{"a":{"type":"Polygon","arcs":[[0"#;

/// The end of that ring, and an arc of five positions.
const SQUARE: &[u8] = br#"]]}},"arcs":[[[0,0],[10,0],[10,10],[0,10],[0,0]]]}"#;

/// Polygons, up to the second.
const POLYGONS: &[u8] =
    br#"{"type":"Topology","objects":{"a":{"type":"MultiPolygon","arcs":[[[0]]"#;

/// The end of the polygons, and an arc of five positions.
const POLYGONS_SQUARE: &[u8] = br#"]}},"arcs":[[[0,0],[10,0],[10,10],[0,10],[0,0]]]}"#;

/// The end of that ring, and an arc of 4,000 positions that goes to and fro, up to its second.
const TO_AND_FRO: &[u8] = br#"]]}},"arcs":[[[0,0]"#;

/// Texts at both sides of the limits of features and of positions.
const AT_LIMITS: &[Row] = &[
    (
        "as many features as a map may have",
        &[
            (FEATURES, 1),
            (br#",{"type":null}"#, 199_999),
            (br#"]}},"arcs":[]}"#, 1),
        ],
        "opened 200000",
    ),
    (
        "one feature more",
        &[
            (FEATURES, 1),
            (br#",{"type":null}"#, 200_000),
            (br#"]}},"arcs":[]}"#, 1),
        ],
        "too large features",
    ),
    (
        "a ring of 800,000 times five positions",
        &[(RING, 1), (b",0", 799_999), (SQUARE, 1)],
        "ring repeats 0 0 0 at 0 0",
    ),
    (
        "a ring that goes round once more",
        &[(RING, 1), (b",0", 800_000), (SQUARE, 1)],
        "too large positions",
    ),
    (
        "800,000 polygons of five positions",
        &[(POLYGONS, 1), (b",[[0]]", 799_999), (POLYGONS_SQUARE, 1)],
        "opened 1",
    ),
    (
        "one polygon more",
        &[(POLYGONS, 1), (b",[[0]]", 800_000), (POLYGONS_SQUARE, 1)],
        "too large positions",
    ),
    (
        "a ring of 1,000 times 4,000 positions",
        &[
            (RING, 1),
            (b",0", 999),
            (TO_AND_FRO, 1),
            (b",[1,0],[0,0]", 1_999),
            (b",[0,0]]]}", 1),
        ],
        "ring repeats 0 0 0 at 0 0",
    ),
    (
        "the same once more",
        &[
            (RING, 1),
            (b",0", 1_000),
            (TO_AND_FRO, 1),
            (b",[1,0],[0,0]", 1_999),
            (b",[0,0]]]}", 1),
        ],
        "too large positions",
    ),
];

/// That the opening of the text is reported so.
fn row_tells<R: Abort>(rt: &R, alloc: Global, (what, pieces, want): &Row) {
    let text = text_of(rt, alloc, pieces);
    holds(rt, what, is_told(rt, alloc, alloc, text.as_slice(), want));
}

#[test]
fn features_and_positions(rt: HostRuntime) {
    for row in AT_LIMITS {
        row_tells(&rt, rt.alloc(), row);
    }
}

/// A ring of one arc, whose positions go away from the first one and then back to it.
const ARC: Round = (
    r#"{"type":"Topology","objects":{"a":{"type":"Polygon","arcs":[[0]]}},"arcs":[["#,
    "[",
    ",0],",
    "[0,0]]]}",
    1,
);

/// Members with names of their own.
const MEMBERS: Round = (
    r#"{"type":"Topology","objects":{},"arcs":[]"#,
    r#","m"#,
    r#"":0"#,
    "}",
    1,
);

/// Members with names of one hash: in a hash table, each of these would be compared with all before it,
/// five thousand million times.
///
/// `FoldHasher` has a fixed seed, and hashes a name of 32 bytes in two steps of 16. The 8 bytes
/// `A3<F0~[k` are what the first step leaves of `vael51bfy6vcb6a2`, so that they make the first factor
/// of the second step 0, and the hash 0, whatever the last 8 bytes are.
const OF_ONE_HASH: Round = (
    r#"{"type":"Topology","objects":{},"arcs":[]"#,
    r#","vael51bfy6vcb6a2A3<F0~[k"#,
    r#"":0"#,
    "}",
    8,
);

/// Layers of such names.
const LAYERS_OF_ONE_HASH: Round = (
    r#"{"type":"Topology","arcs":[],"objects":{"a":{"type":"GeometryCollection","geometries":[]}"#,
    r#","vael51bfy6vcb6a2A3<F0~[k"#,
    r#"":{"type":"GeometryCollection","geometries":[]}"#,
    "}}",
    8,
);

/// That the opening of the text of so many numbers is reported so.
fn numbers_tell<R: Abort>(rt: &R, alloc: Global, round: &Round, count: usize, want: &str) {
    let text = numbers(rt, alloc, round, count);
    holds(rt, want, is_told(rt, alloc, alloc, text.as_bytes(), want));
}

/// A ring of one arc with as many positions as a map may have, no two the same, and one of one more.
#[test]
fn the_longest_arc(rt: HostRuntime) {
    numbers_tell(&rt, rt.alloc(), &ARC, 3_999_999, "opened 1");
    numbers_tell(&rt, rt.alloc(), &ARC, 4_000_000, "too large positions");
}

#[test]
fn many_members(rt: HostRuntime) {
    numbers_tell(&rt, rt.alloc(), &MEMBERS, 1_000_000, "opened 0");
}

#[test]
fn names_of_one_hash(rt: HostRuntime) {
    numbers_tell(&rt, rt.alloc(), &OF_ONE_HASH, 100_000, "opened 0");
    numbers_tell(&rt, rt.alloc(), &LAYERS_OF_ONE_HASH, 100_000, "opened 0");
}
