// Maps that are cut.
use crate::maps::TWO_SQUARES;
use crate::told::is_answered;
use std::alloc::Global;
use std::process::Abort;

/// That a map that is cut here is no JSON where it ends.
fn is_cut<R: Abort>(rt: &R, alloc: Global, front: &[u8]) {
    let want = format!(in alloc; "open: not json at {}", front.len()).expect(rt, "memory");
    is_answered(rt, alloc, "a cut map", front, b"", want.as_bytes());
}

#[test]
fn cuts_of_a_map(rt: HostRuntime) {
    let map = TWO_SQUARES.as_bytes();
    for length in 0..map.len() {
        is_cut(&rt, rt.alloc(), &map[..length]);
    }
}
