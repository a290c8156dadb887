//! Squares that share a side, and calls on their borders.
use crate::given::{MEMORY, at};
use ring_store::Borders;
use std::alloc::Global;
use std::process::Abort;
use test_aids::fixed_seed;
use vertex_index::{VertexKey, Vertices};

/// Ends squares, each counted by its four vertices: the side of vertices 1 and 2 is in both.
pub(crate) const LEFT: [usize; 4] = [0, 1, 2, 3];

pub(crate) const RIGHT: [usize; 4] = [1, 4, 5, 2];

/// The second square, gone round the other way.
pub(crate) const RIGHT_TURNED: [usize; 4] = [2, 5, 4, 1];

/// The keys of so many vertices.
pub(crate) fn vertex_keys<R: Abort>(rt: &R, alloc: Global, count: i64) -> Vec<VertexKey> {
    let seed = fixed_seed().expect(rt, "a seed");
    let mut vertices = Vertices::new(alloc, seed);
    let mut keys = Vec::new(alloc);
    for n in 0..count {
        let key = vertices.add(at(rt, (n, 0))).expect(rt, "a new vertex");
        keys.push(key).expect(rt, MEMORY);
    }
    keys
}

/// The key of a vertex.
pub(crate) fn key<R: Abort>(rt: &R, keys: &[VertexKey], n: usize) -> VertexKey {
    *keys.get(n).expect(rt, "a vertex")
}

/// The keys of these vertices.
pub(crate) fn pick<R: Abort>(
    rt: &R,
    alloc: Global,
    keys: &[VertexKey],
    which: &[usize],
) -> Vec<VertexKey> {
    let mut picked = Vec::new(alloc);
    for n in which {
        picked.push(key(rt, keys, *n)).expect(rt, MEMORY);
    }
    picked
}

/// Adds the ring along these vertices.
pub(crate) fn add<R: Abort>(
    rt: &R,
    alloc: Global,
    borders: &mut Borders,
    keys: &[VertexKey],
    which: &[usize],
) -> usize {
    let ring = pick(rt, alloc, keys, which);
    assert!(rt; 0 < ring.len());
    borders.add_ring(ring.as_slice()).expect(rt, MEMORY)
}

/// Takes out a ring.
pub(crate) fn take<R: Abort>(rt: &R, borders: &mut Borders, r: usize) {
    assert!(rt; borders.holds(r));
    borders.take_out(r);
}

/// The keys of a ring; none where it is not held.
fn ring_keys<R: Abort>(rt: &R, alloc: Global, borders: &Borders, r: usize) -> Vec<VertexKey> {
    let mut read = Vec::new(alloc);
    if borders.holds(r) {
        borders.push_keys(r, &mut read).expect(rt, MEMORY);
    }
    read
}

/// Whether the ring is held and goes along these vertices.
pub(crate) fn goes_along<R: Abort>(
    rt: &R,
    alloc: Global,
    borders: &Borders,
    r: usize,
    keys: &[VertexKey],
    which: &[usize],
) -> bool {
    let read = ring_keys(rt, alloc, borders, r);
    read.as_slice() == pick(rt, alloc, keys, which).as_slice()
}
