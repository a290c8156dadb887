// Whole runs whose writers fail.
use crate::maps::TWO_SQUARES;
use crate::told::{Told, holds, tell, tell_unsaved, tell_unwritten};
use std::alloc::Global;
use std::process::Abort;

/// The script of the runs whose writers fail.
const SCRIPT: &[u8] = b"area 0\nrename 0 \"Z\"\nmove 10 10 12 12\ndocument\nundo\ndocument\nundo 1";

/// Whether the writer of the answers has a prefix of them after it failed, and nothing is saved.
fn is_unwritten(told: &Told, whole: &Told) -> bool {
    told.end.as_str() == "write fault"
        && whole
            .answers
            .as_slice()
            .starts_with(told.answers.as_slice())
        && told.saved.is_empty()
}

/// Whether all answers stand after the writer of the saved map failed, and it has a prefix of the text.
fn is_unsaved(told: &Told, whole: &Told) -> bool {
    told.end.as_str() == "save fault"
        && told.answers.as_slice() == whole.answers.as_slice()
        && whole.saved.as_slice().starts_with(told.saved.as_slice())
}

/// Whether nothing has failed.
fn is_whole(told: &Told, whole: &Told) -> bool {
    told.end.as_str() == whole.end.as_str()
        && told.answers.as_slice() == whole.answers.as_slice()
        && told.saved.as_slice() == whole.saved.as_slice()
}

/// Whether the run is whole whose writer of answers fails after so many calls; else it ends as it should.
fn answers_are_whole<R: Abort>(rt: &R, alloc: Global, whole: &Told, calls: u64) -> bool {
    let told = tell_unwritten(rt, alloc, TWO_SQUARES.as_bytes(), SCRIPT, calls);
    let done = is_whole(&told, whole);
    holds(
        rt,
        "a writer of answers",
        done || is_unwritten(&told, whole),
    );
    done
}

/// Whether the run is whole whose writer of the saved map fails after so many calls, and how many bytes
/// it has; else it ends as it should.
fn saved_is_whole<R: Abort>(rt: &R, alloc: Global, whole: &Told, calls: u64) -> (bool, usize) {
    let told = tell_unsaved(rt, alloc, TWO_SQUARES.as_bytes(), SCRIPT, calls);
    let done = is_whole(&told, whole);
    holds(
        rt,
        "a writer of the saved map",
        done || is_unsaved(&told, whole),
    );
    (done, told.saved.len())
}

/// That each call of a writer of answers fails in turn, until none is left.
fn fail_answers<R: Abort>(rt: &R, alloc: Global, whole: &Told) {
    let mut done = false;
    for calls in 0..200u64 {
        let was_done = done;
        done = answers_are_whole(rt, alloc, whole, calls);
        holds(rt, "once done, done", done || !was_done);
    }
    holds(rt, "the run ends", done);
}

/// The same of a writer of the saved map; it has all of the text where the last call failed, which
/// flushes.
fn fail_saved<R: Abort>(rt: &R, alloc: Global, whole: &Told) {
    let (mut done, mut last) = (false, 0);
    for calls in 0..100u64 {
        let was_done = done;
        let (now_done, length) = saved_is_whole(rt, alloc, whole, calls);
        done = now_done;
        holds(rt, "once done, done", done || !was_done);
        if !done {
            last = length;
        }
    }
    holds(rt, "the run ends", done && last == whole.saved.len());
}

#[test]
fn writers_that_fail(rt: HostRuntime) {
    let whole = tell(&rt, rt.alloc(), TWO_SQUARES.as_bytes(), SCRIPT);
    fail_answers(&rt, rt.alloc(), &whole);
    fail_saved(&rt, rt.alloc(), &whole);
}
