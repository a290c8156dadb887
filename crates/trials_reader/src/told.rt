// How the opening of a text is reported, to be compared.
use linked_list_allocator::LocalHeap;
use std::alloc::{Allocator, Global};
use std::process::Abort;
use test_aids::fixed_seed;
use topo_outline::OpenFault;
use topo_reader::read;

/// How many features the text opens with.
pub(crate) fn features<A: Allocator + Copy>(
    alloc: A,
    heap: Global,
    text: &[u8],
) -> Result<usize, OpenFault<'_>> {
    let Some(seed) = fixed_seed() else {
        return Err(OpenFault::OutOfMemory);
    };
    match read(alloc, heap, seed, text) {
        Ok(raw) => Ok(raw.polygons.len()),
        Err(fault) => Err(fault),
    }
}

/// Whether the opening of the text is reported so: `opened` and the number of features, or the text of
/// the fault.
pub(crate) fn is_told<R: Abort, A: Allocator + Copy>(
    rt: &R,
    alloc: A,
    heap: Global,
    text: &[u8],
    want: &str,
) -> bool {
    let told = match features(alloc, heap, text) {
        Ok(count) => format!(in heap; "opened {count}"),
        Err(fault) => format!(in heap; "{fault}"),
    };
    told.expect(rt, "memory").as_str() == want
}

/// The same on a heap of this size.
pub(crate) fn is_told_within<R: Abort>(
    rt: &R,
    alloc: Global,
    size: usize,
    text: &[u8],
    want: &str,
) -> bool {
    let heap = LocalHeap::new(alloc, size).expect(rt, "memory");
    is_told(rt, &heap, alloc, text, want)
}

/// That it is so.
pub(crate) fn holds<R: Abort>(rt: &R, what: &str, is_so: bool) {
    assert!(rt; is_so, "{what}");
}
