//! Pictures of maps.
use crate::pictures::{ALL, MEMORY, read_map, shows};
use grid_geometry::{Pos, Seg};
use map_drawing::{Conflict, View, Window, draw_map};
use std::alloc::{AllocError, Allocator, Global};
use std::process::Abort;
use test_aids::Refusing;

/// Two squares with a common side.
const SQUARES: &str =
    r#"{"type":"Topology","objects":{"land":{"type":"GeometryCollection","geometries":[{"type":"Polygon","id":"A","arcs":[[0,1]]},{"type":"Polygon","arcs":[[-1,2]]}]}},"arcs":[[[10,0],[10,10]],[[10,10],[0,10],[0,0],[10,0]],[[10,0],[20,0],[20,10],[10,10]]]}"#;

/// A picture of the squares: whether a part is drawn, about 20 10, whether ids are, and whether a
/// conflict is marked; the parts of its text, and what is not in it.
struct Picture {
    is_part: bool,
    has_ids: bool,
    is_marked: bool,
    shown: &'static [&'static str],
    others: &'static [&'static str],
}

/// The map is drawn in hundredths of a pixel from its upper left corner, under the name of its file.
const WHOLE: Picture = Picture {
    is_part: false,
    has_ids: false,
    is_marked: false,
    shown: &[
        r#"<text class="head" x="20" y="30">a&lt;b&gt;.json</text>"#,
        ">2 grid units</text>",
        r#"<svg x="20" y="40" width="960" height="523" viewBox="0 0 96000 52300">
<rect class="gap" width="100%" height="100%"/>
<g stroke-width="100">
<path d="M4363 47941h43637v-43583h-43637z"><title>#0 A</title></path>
<path d="M48000 47941h43636v-43583h-43636z"><title>#1</title></path>
</g>
</svg>
</svg>
"#,
    ],
    others: &[],
};

/// A part has the features that meet it, without what is far beyond it.
const PART: Picture = Picture {
    is_part: true,
    has_ids: true,
    is_marked: false,
    shown: &[
        r#"viewBox="0 0 72000 72000""#,
        r#"d="M-1000 73000h37000v-37000h-37000z"><title>#1</title>"#,
        r#"<text class="name" x="320" y="583">#1</text>"#,
    ],
    others: &["<title>#0 A</title>", "#0 A</text>"],
};

/// Numbers and ids are written in the features.
const WITH_IDS: Picture = Picture {
    is_part: false,
    has_ids: true,
    is_marked: false,
    shown: &[
        r#"<text class="name" x="281" y="304">#0 A</text>"#,
        r#"<text class="name" x="718" y="304">#1</text>"#,
    ],
    others: &[],
};

const MARKED: Picture = Picture {
    is_part: false,
    has_ids: false,
    is_marked: true,
    shown: &[
        r#"<path class="conflict" stroke-width="300" d="M4363 47941l43637-43583M4363 4358l43637 43583"/>"#,
        "conflict 0 0 10 10 / 0 10 10 0</text>",
        r#"<circle cx="281" cy="301" r="14"/>"#,
    ],
    others: &[],
};

/// A feature of two squares, far from each other.
const ISLANDS: &str =
    r#"{"type":"Topology","objects":{"land":{"type":"MultiPolygon","arcs":[[[0]],[[1]]]}},"arcs":[[[0,0],[10,0],[10,10],[0,10],[0,0]],[[100,0],[110,0],[110,10],[100,10],[100,0]]]}"#;

/// Maps without rings.
const EMPTY: &[&str] = &[
    r#"{"type":"Topology","objects":{},"arcs":[]}"#,
    r#"{"type":"Topology","objects":{"a":{"type":null}},"arcs":[]}"#,
];

/// The text of an id, and how it is written in a picture.
const IDS: &[(&str, &str)] = &[
    (r#""<b>&amp;\"'""#, "&lt;b&gt;&amp;amp;&quot;&apos;"),
    (r#""]]>""#, "]]&gt;"),
    (r#""a\u0000\u001f\u007f""#, "a\u{FFFD}\u{FFFD}\u{7F}"),
    (r#""\t\n\r""#, "\t\n&#13;"),
    ("\"\\u202e\u{5D0}\"", "\u{202E}\u{5D0}"),
    (r#""\ufffe\uffff\ufffd""#, "\u{FFFD}\u{FFFD}\u{FFFD}"),
    (r#""\ud83d\ude00""#, "\u{1F600}"),
    (r#""\ud800<""#, "\\ud800&lt;"),
    ("12", "12"),
    ("null", "null"),
    (r#"{"a":[1,"<"]}"#, "{&quot;a&quot;:[1,&quot;&lt;&quot;]}"),
    (r#""""#, ""),
    (
        r#""123456789 123456789 123456789 123456789 1234567é890""#,
        "123456789 123456789 123456789 123456789 1234567\u{2026}",
    ),
];

/// A position in range.
fn pos<R: Abort>(rt: &R, x: i64, y: i64) -> Pos {
    Pos::new(x, y).expect(rt, "in range")
}

/// The segment between two positions, which differ.
fn segment<R: Abort>(rt: &R, from: Pos, to: Pos) -> Seg {
    Seg::new(from, to).expect(rt, "two positions")
}

/// A conflict of the lower side of a unit with the one that leads up from 0 0.
fn conflict<R: Abort>(rt: &R) -> Conflict {
    Conflict {
        first: segment(rt, pos(rt, 0, 0), pos(rt, 10, 10)),
        second: segment(rt, pos(rt, 0, 10), pos(rt, 10, 0)),
    }
}

/// The picture of a map.
fn drawn<R: Abort>(rt: &R, alloc: Global, map: &str, view: View) -> Vec<u8> {
    let map = read_map(alloc, alloc, map).expect(rt, "it is read");
    draw_map(alloc, alloc, &map, view, "a<b>.json").expect(rt, MEMORY)
}

/// The picture shows what it is to show.
fn see<R: Abort>(rt: &R, alloc: Global, row: &Picture) {
    let part = if row.is_part {
        Some(Window::about(pos(rt, 20, 10), 4))
    } else {
        None
    };
    let conflict = if row.is_marked {
        Some(conflict(rt))
    } else {
        None
    };
    let view = View {
        part,
        has_ids: row.has_ids,
        feature: None,
        conflict,
    };
    let text = drawn(rt, alloc, SQUARES, view);
    shows(rt, text.as_slice(), row.shown, row.others);
}

#[test]
fn squares_are_drawn(rt: HostRuntime) {
    see(&rt, rt.alloc(), &WHOLE);
    see(&rt, rt.alloc(), &PART);
    see(&rt, rt.alloc(), &WITH_IDS);
    see(&rt, rt.alloc(), &MARKED);
}

/// A ring that is all beyond the part leaves nothing in the path: a path of SVG has no `M` without a point.
#[test]
fn a_ring_beyond_the_part_is_left_out(rt: HostRuntime) {
    let view = View {
        part: Some(Window::about(pos(&rt, 5, 5), 40)),
        ..ALL
    };
    let text = drawn(&rt, rt.alloc(), ISLANDS, view);
    let path = r#"d="M27000 45000h18000v-18000h-18000z"><title>#0</title>"#;
    shows(&rt, text.as_slice(), &[path], &[]);
}

/// The outline of the named feature is drawn over the map.
#[test]
fn a_named_feature_has_its_outline(rt: HostRuntime) {
    let view = View {
        feature: Some(1),
        ..ALL
    };
    let text = drawn(&rt, rt.alloc(), SQUARES, view);
    let path = r#"<path class="named" stroke-width="300" d="M48000 47941h43636v-43583h-43636z"/>"#;
    shows(&rt, text.as_slice(), &[path], &[]);
}

#[test]
fn a_map_without_rings_is_drawn(rt: HostRuntime) {
    for map in EMPTY {
        let text = drawn(&rt, rt.alloc(), *map, ALL);
        shows(
            &rt,
            text.as_slice(),
            &[r#"viewBox="0 0 72000 72000""#],
            &["<title>"],
        );
    }
}

/// An id is written so.
fn see_id<R: Abort>(rt: &R, alloc: Global, (id, written): &(&str, &str)) {
    let map = format!(in alloc;
        r#"{{"type":"Topology","objects":{{"a":{{"type":"Polygon","id":{id},"arcs":[[0]]}}}},"arcs":[[[0,0],[1,0],[0,1],[0,0]]]}}"#
    ).expect(rt, MEMORY);
    let title = format!(in alloc; "<title>#0 {written}</title>").expect(rt, MEMORY);
    let text = drawn(rt, alloc, map.as_str(), ALL);
    shows(rt, text.as_slice(), &[title.as_str()], &[]);
}

#[test]
fn any_id_is_written_as_text(rt: HostRuntime) {
    for row in IDS {
        see_id(&rt, rt.alloc(), row);
    }
}

/// Draws the squares in a heap that may refuse an allocation.
fn draw<A: Allocator + Copy>(heap: A, alloc: Global) -> Result<Vec<u8, A>, AllocError> {
    match read_map(heap, alloc, SQUARES) {
        Some(map) => draw_map(heap, alloc, &map, ALL, "a<b>.json"),
        None => Err(AllocError),
    }
}

/// Whether the squares are drawn where the allocation of this number fails: then as they are drawn
/// where none is.
fn is_drawn<R: Abort>(rt: &R, alloc: Global, whole: &[u8], nth: u64) -> bool {
    let heap = Refusing::new(alloc, nth);
    let drawing = draw(&heap, alloc);
    let is_drawn = drawing.is_ok();
    let is_whole = match &drawing {
        Ok(text) => text.as_slice() == whole,
        Err(_) => false,
    };
    drop(drawing);
    assert!(rt;
        is_drawn != heap.was_refused() && (is_whole || !is_drawn),
        "allocation {nth}"
    );
    is_drawn
}

/// The number of the first allocation that the picture does not make; each one before fails in turn.
fn first_drawn<R: Abort>(rt: &R, alloc: Global, whole: &[u8]) -> u64 {
    for nth in 1..500u64 {
        if is_drawn(rt, alloc, whole, nth) {
            return nth;
        }
    }
    panic!(rt; "more allocations than that");
}

/// With each allocation failing in turn there is the same picture or none.
#[test]
fn each_allocation_fails_in_turn(rt: HostRuntime) {
    let whole = drawn(&rt, rt.alloc(), SQUARES, ALL);
    first_drawn(&rt, rt.alloc(), whole.as_slice());
}
