//! A key through the changes of its vertex.
use crate::given::{MEMORY, at};
use std::process::Abort;
use test_aids::fixed_seed;
use vertex_index::{AddFault, ShiftFault, Vertices};

/// A vertex keeps its key where it is shifted, and a copy from before keeps the vertex.
fn keep_key<R: Abort>(rt: &R, vertices: &mut Vertices) {
    let (first, other) = (at(rt, (1, 2)), at(rt, (3, 4)));
    let key = vertices.add(first).expect(rt, "a new vertex");
    let (again, shifted) = (vertices.add(first), vertices.shift(key, first));
    assert!(rt; again == Err(AddFault::Occupied) && shifted == Err(ShiftFault::Occupied));
    let copy = vertices.copy().expect(rt, MEMORY);
    let count = vertices.len();
    vertices.shift(key, other).expect(rt, MEMORY);
    let is_shifted = vertices.key_of(first).is_none() && vertices.pos(key) == other;
    vertices.remove(key);
    let is_gone = vertices.key_of(other).is_none();
    assert!(rt; count == 1 && is_shifted && is_gone && copy.key_of(first) == Some(key));
}

#[test]
fn a_key_stays_with_its_vertex(rt: HostRuntime) {
    let seed = fixed_seed().expect(&rt, "a seed");
    keep_key(&rt, &mut Vertices::new(rt.alloc(), seed));
}
