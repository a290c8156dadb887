// Maps and scripts at their limits.
ghost use Rattle.std.specs.Prelude.{None, false};

use crate::devices::is_left;
use crate::long_texts::{Long, text_of};
use crate::maps::{SQUARES, TWO_SQUARES};
use crate::told::{Told, holds, is_answered, tell, tell_by};
use device_io::{Failed, FromReader, Source};
use std::alloc::Global;
use std::process::Abort;

/// What it shows, a map, a script, and the answers.
type Case = (&'static str, Long<'static>, &'static str, &'static str);

/// As many bytes as a map may have, and one more.
const BYTES: &[Case] = &[
    (
        "one byte more than a map may have",
        ("", " ", 67_108_865, ""),
        "",
        "open: too large bytes",
    ),
    (
        "as many bytes as a map may have",
        ("", " ", 67_108_864, ""),
        "",
        "open: not json at 67108864",
    ),
];

/// A ring that names a closed arc of five positions 800,001 times; rings of four positions.
const POSITIONS: &[Case] = &[
    (
        "one arc too many",
        (
            r#"{"type":"Topology","objects":{"a":{"type":"Polygon","arcs":[[0"#,
            ",0",
            800_000,
            r#"]]}},"arcs":[[[0,0],[10,0],[10,10],[0,10],[0,0]]]}"#,
        ),
        "",
        "open: too large positions",
    ),
    (
        "the last arc that can be",
        (
            r#"{"type":"Topology","objects":{"a":{"type":"Polygon","arcs":[[0"#,
            ",0",
            799_999,
            r#"]]}},"arcs":[[[0,0],[10,0],[10,10],[0,10],[0,0]]]}"#,
        ),
        "",
        "open: ring repeats 0 0 0 at 0 0",
    ),
    (
        "800,000 rings, a position more in each, and then one too many in each",
        (
            r#"{"type":"Topology","objects":{"a":{"type":"GeometryCollection","geometries":[{"type":"MultiPolygon","arcs":[[[0]]"#,
            ",[[0]]",
            799_999,
            r#"]}]}},"arcs":[[[0,0],[10,0],[10,10],[0,10],[0,0]]]}"#,
        ),
        "insert 0 0 10 0 5 0\ninsert 5 0 10 0 7 0\nsplit 0 \"c\" 0 0 10 10\narea 0",
        "ok\nrefused too large\nrefused too large\n160000000\nanswered 4, refused 2",
    ),
];

const NULL: &str = ",{\"type\":null}";

const NULLS: &str =
    r#"{"type":"Topology","objects":{"a":{"type":"GeometryCollection","geometries":[{"type":null}"#;

const NULLS_END: &str = "]}},\"arcs\":[]}";

const SQUARE_AND_NULLS: &str =
    r#"{"type":"Topology","objects":{"a":{"type":"GeometryCollection","geometries":[{"type":"Polygon","arcs":[[0]]}"#;

const SQUARE_END: &str = r#"]}},"arcs":[[[0,0],[10,0],[10,10],[0,10],[0,0]]]}"#;

/// Features that have no polygons, alone and after a square.
const FEATURES: &[Case] = &[
    (
        "one feature more than a map may have",
        (NULLS, NULL, 200_000, NULLS_END),
        "area 0",
        "open: too large features",
    ),
    (
        "as many features as a map may have",
        (NULLS, NULL, 199_999, NULLS_END),
        "area 199999",
        "0\nanswered 1, refused 0",
    ),
    (
        "the last number that there is, and one more, though a feature has gone",
        (SQUARE_AND_NULLS, NULL, 199_998, SQUARE_END),
        "split 0 \"C\" 0 0 10 10\ndelete 1\nsplit 0 \"D\" 0 0 5 3 10 10\narea 0",
        "ok 199999\nok\nrefused too large\n100\nanswered 4, refused 1",
    ),
    (
        "all numbers are taken by what was read",
        (SQUARE_AND_NULLS, NULL, 199_999, SQUARE_END),
        "split 0 \"C\" 0 0 10 10\narea 0\nrings 0",
        "refused too large\n200\n[[[[0,0],[10,0],[10,10],[0,10]]]]\nanswered 3, refused 1",
    ),
];

/// That the script has these answers on the map.
fn case_answers<R: Abort>(rt: &R, alloc: Global, case: &Case) {
    let (what, map, script, want) = case;
    let map = text_of(rt, alloc, map);
    is_answered(
        rt,
        alloc,
        what,
        map.as_slice(),
        script.as_bytes(),
        want.as_bytes(),
    );
}

/// That each script has these answers on its map.
fn cases_answer<R: Abort>(rt: &R, alloc: Global, cases: &[Case]) {
    for case in cases {
        case_answers(rt, alloc, case);
    }
}

#[test]
fn bytes_of_a_map(rt: HostRuntime) {
    cases_answer(&rt, rt.alloc(), BYTES);
}

#[test]
fn positions_of_a_map(rt: HostRuntime) {
    cases_answer(&rt, rt.alloc(), POSITIONS);
}

#[test]
fn features_of_a_map(rt: HostRuntime) {
    cases_answer(&rt, rt.alloc(), FEATURES);
}

/// Whether the two squares answered for their first area, and were saved.
fn is_of_squares(told: &Told) -> bool {
    told.end.as_str() == "answered 1, refused 0"
        && told.answers.as_slice() == b"200\n".as_slice()
        && told.saved.as_slice() == SQUARES.as_bytes()
}

/// Two squares in as many bytes as a map may have, most of them spaces.
#[test]
fn a_map_of_all_bytes(rt: HostRuntime) {
    let squares = &TWO_SQUARES[1..];
    let spaces = 67_108_863usize.saturating_sub(squares.len());
    let map = text_of(&rt, rt.alloc(), &("{", " ", spaces, squares));
    holds(&rt, "as many bytes", map.len() == 67_108_864);
    let told = tell(&rt, rt.alloc(), map.as_slice(), b"area 0");
    holds(&rt, "two squares", is_of_squares(&told));
}

/// A reader with no end, whose lines are comments.
#[derive(Drop)]
struct Endless;

impl Source for Endless {
    ghost coming = { λ _. None };

    ghost has_failed = { λ _. false };

    fn get(&mut self, room: &mut [u8]) -> Result<usize, Failed> {
        for byte in room.iter_mut() {
            *byte = b'#';
        }
        if let Some(last) = room.last_mut() {
            *last = b'\n';
        }
        Ok(room.len())
    }
}

/// A script without an end is a script fault.
#[test]
fn a_script_without_an_end(rt: HostRuntime) {
    let map = TWO_SQUARES.as_bytes();
    let told = tell_by(&rt, rt.alloc(), rt.alloc(), map, &mut Endless, 100);
    holds(&rt, "without an end", is_left(&told, b"", "script fault"));
}

/// A reader of so many bytes of comment lines, and then of what is left.
#[derive(Drop)]
struct Commented<S> {
    comments: usize,
    end: S,
}

impl<S: Source> Source for Commented<S> {
    ghost coming = { λ _. None };

    ghost has_failed = { λ s. S.has_failed s.end };

    fn get(&mut self, room: &mut [u8]) -> Result<usize, Failed> {
        if self.comments == 0 {
            return self.end.get(room);
        }
        let count = room.len().min(self.comments);
        for byte in room.iter_mut() {
            *byte = b'#';
        }
        if let Some(last) = room[..count].last_mut() {
            *last = b'\n';
        }
        self.comments -= count;
        Ok(count)
    }
}

/// How many bytes a script has that ends in two questions without a line feed, its answers, and its end.
const LENGTHS: &[(usize, &[u8], &str)] = &[
    (1_073_741_824, b"200\n200\n", "answered 2, refused 0"),
    (1_073_741_825, b"200\n", "script fault"),
];

/// That the run of two squares and a script of this length has these answers, and this end.
fn is_read<R: Abort>(rt: &R, alloc: Global, length: usize, answers: &[u8], end: &str) {
    let questions = b"area 0\narea 0";
    let mut source = Commented {
        comments: length.saturating_sub(questions.len()),
        end: FromReader::new(questions.as_slice()),
    };
    let told = tell_by(rt, alloc, alloc, TWO_SQUARES.as_bytes(), &mut source, 100);
    holds(rt, end, is_left(&told, answers, end));
}

/// A script of as many bytes as one may have, and one of a byte more, whose last line is not answered.
#[test]
fn scripts_of_all_bytes(rt: HostRuntime) {
    for (length, answers, end) in LENGTHS {
        is_read(&rt, rt.alloc(), *length, answers, end);
    }
}

/// Paths of positions, and what they are answered.
const PATHS: &[(&str, Long, &str)] = &[
    (
        "a path of 256 positions",
        ("split 0 \"C\" 0 0", " 1 1", 254, " 10 10"),
        "refused repeated point\nanswered 1, refused 1",
    ),
    (
        "a path of 257 positions",
        ("split 0 \"C\" 0 0", " 1 1", 255, " 10 10"),
        "bad line\nanswered 1, refused 1",
    ),
];

/// That the path is answered so.
fn is_path<R: Abort>(rt: &R, alloc: Global, what: &str, line: &Long, want: &str) {
    let line = text_of(rt, alloc, line);
    is_answered(
        rt,
        alloc,
        what,
        TWO_SQUARES.as_bytes(),
        line.as_slice(),
        want.as_bytes(),
    );
}

#[test]
fn long_paths(rt: HostRuntime) {
    for (what, line, want) in PATHS {
        is_path(&rt, rt.alloc(), what, line, want);
    }
}
