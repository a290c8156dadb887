// Runs that are refused memory.
use crate::maps::{TRIANGLE_INSIDE, TWO_SQUARES};
use crate::told::{Told, holds, tell, tell_by};
use device_io::FromReader;
use std::alloc::Global;
use std::process::Abort;
use test_aids::Refusing;

/// More than the allocations of any run below.
const MANY: u64 = 10_000;

/// A map, a script and its answers.
type Row = (&'static str, &'static [u8], &'static [u8]);

const ROWS: &[Row] = &[
    (
        TRIANGLE_INSIDE,
        b"move 0 0 1 1\narea 0\nmove 1 1 9 20",
        b"ok\n1740\nrefused sweeps\n",
    ),
    (
        TRIANGLE_INSIDE,
        b"insert 30 0 30 30 31 15\nremove 31 15\nthin 900\narea 0",
        b"ok\nok\nok 1\n900\n",
    ),
    (
        TRIANGLE_INSIDE,
        b"at 4 9\nneighbours 0\nneighbours 2",
        b"inside: 0 border: 1\nneighbours:\nrefused no feature\n",
    ),
    (
        TRIANGLE_INSIDE,
        b"split 0 \"c d\" 0 0 20 15 30 30\nmerge 0 2\nrename 1 \"\\u0074\"\ndelete 1\ncount",
        b"ok 2\nok\nok\nok\nfeatures 1 vertices 4 segments 4\n",
    ),
    (
        TWO_SQUARES,
        b"move 0 0 1 1\ninsert 10 0 20 0 15 0\nthin 0\nsplit 0 \"C\" 1 1 10 10\nrename 1 \"Z\"\nmerge 0 2\ndelete 1\nundo\nundo\nundo\nundo\nundo\nundo\nundo\nat 5 5\nneighbours 0\nrings 0\ndocument",
        b"ok\nok\nok 1\nok 2\nok\nok\nok\nok\nok\nok\nok\nok\nok\nok\ninside: 0 border:\nneighbours: 1\n[[[[0,0],[10,0],[10,10],[0,10]]]]\n{\"type\":\"Topology\",\"objects\":{\"land\":{\"type\":\"GeometryCollection\",\"geometries\":[{\"type\":\"Polygon\",\"id\":\"A\",\"arcs\":[[0,1]]},{\"type\":\"Polygon\",\"id\":\"B\",\"arcs\":[[2,-1]]}]}},\"arcs\":[[[10,0],[10,10]],[[10,10],[0,10],[0,0],[10,0]],[[10,0],[20,0],[20,10],[10,10]]]}\n",
    ),
];

/// Whether a run in which an allocation failed ended on allocation failure, with a prefix of the
/// answers, or with all of them and a prefix of the saved text.
fn is_front(told: &Told, answers: &[u8], whole: &[u8]) -> bool {
    let (said, kept) = (told.answers.as_slice(), told.saved.as_slice());
    told.end.as_str() == "out of memory"
        && answers.starts_with(said)
        && whole.starts_with(kept)
        && (kept.is_empty() || said == answers)
}

/// Whether a run that was refused nothing has all answers, and all of the saved text.
fn is_whole(told: &Told, answers: &[u8], whole: &[u8]) -> bool {
    told.end.as_str().starts_with("answered ")
        && told.answers.as_slice() == answers
        && told.saved.as_slice() == whole
}

/// Whether the allocation of this number was refused in the run of this row, which ends as it should.
fn is_refused<R: Abort>(rt: &R, alloc: Global, row: &Row, whole: &[u8], nth: u64) -> bool {
    let (map, script, answers) = row;
    let heap = Refusing::new(alloc, nth);
    let told = tell_by(
        rt,
        &heap,
        alloc,
        map.as_bytes(),
        &mut FromReader::new(*script),
        100,
    );
    if heap.was_refused() {
        let made_do = is_whole(&told, answers, whole);
        holds(rt, map, made_do || is_front(&told, answers, whole));
        true
    } else {
        holds(rt, map, is_whole(&told, answers, whole));
        false
    }
}

/// How many allocations the run of this row has, each of which was refused in turn.
fn growths<R: Abort>(rt: &R, alloc: Global, row: &Row, whole: &[u8]) -> u64 {
    for nth in 1..MANY {
        if !is_refused(rt, alloc, row, whole, nth) {
            return nth - 1;
        }
    }
    panic!(rt; "the run ends");
}

/// That each of more than a hundred allocations of the run of this row is refused.
fn refuse_each<R: Abort>(rt: &R, alloc: Global, row: &Row) {
    let told = tell(rt, alloc, row.0.as_bytes(), row.1);
    let count = growths(rt, alloc, row, told.saved.as_slice());
    holds(rt, "a hundred growths", 100 < count);
}

#[test]
fn each_growth_is_refused(rt: HostRuntime) {
    for row in ROWS {
        refuse_each(&rt, rt.alloc(), row);
    }
}
