//! How many rings have a side, as squares come and go.
use crate::given::MEMORY;
use crate::squares::{LEFT, RIGHT, RIGHT_TURNED, add, goes_along, key, take, vertex_keys};
use ring_store::Borders;
use std::alloc::Global;
use std::process::Abort;
use vertex_index::VertexKey;

/// The side of vertices 1 and 2, another side of each square, a diagonal and a pair far apart.
const SEGMENTS: [(usize, usize); 6] = [(1, 2), (2, 1), (0, 1), (4, 5), (0, 2), (0, 4)];

/// Whether so many rings have each of these segments.
fn has_uses<R: Abort>(rt: &R, borders: &Borders, keys: &[VertexKey], counts: &[usize; 6]) -> bool {
    for ((a, b), count) in SEGMENTS.iter().zip(counts) {
        if borders.uses(key(rt, keys, *a), key(rt, keys, *b)) != *count {
            return false;
        }
    }
    true
}

/// The shared side has two rings, and one once a square is taken out, until it is added again.
fn count_sides<R: Abort>(
    rt: &R,
    alloc: Global,
    borders: &mut Borders,
    keys: &[VertexKey],
    right: &[usize],
) {
    let first = add(rt, alloc, borders, keys, &LEFT);
    assert!(rt; has_uses(rt, borders, keys, &[1, 1, 1, 0, 0, 0]));
    add(rt, alloc, borders, keys, right);
    assert!(rt; has_uses(rt, borders, keys, &[2, 2, 1, 1, 0, 0]));
    take(rt, borders, first);
    assert!(rt; has_uses(rt, borders, keys, &[1, 1, 0, 1, 0, 0]));
    let again = add(rt, alloc, borders, keys, &LEFT);
    assert!(rt; goes_along(rt, alloc, borders, again, keys, &LEFT));
}

#[test]
fn a_shared_side_is_counted_twice(rt: HostRuntime) {
    let keys = vertex_keys(&rt, rt.alloc(), 6);
    for right in [RIGHT, RIGHT_TURNED] {
        let mut borders = Borders::new(rt.alloc(), rt.alloc());
        count_sides(&rt, rt.alloc(), &mut borders, keys.as_slice(), &right);
    }
}

/// The rings of the side of vertices 1 and 2 are listed after what stood there, each once.
fn list_both<R: Abort>(
    rt: &R,
    alloc: Global,
    borders: &mut Borders,
    keys: &[VertexKey],
    listed: &mut Vec<usize>,
) {
    let first = add(rt, alloc, borders, keys, &LEFT);
    let second = add(rt, alloc, borders, keys, &RIGHT_TURNED);
    let (a, b) = (key(rt, keys, 1), key(rt, keys, 2));
    borders.push_users(b, a, listed).expect(rt, MEMORY);
    borders.push_users(a, a, listed).expect(rt, MEMORY);
    listed.sort_unstable();
    assert!(rt; listed.as_slice() == [first, second].as_slice());
}

#[test]
fn a_shared_side_lists_both_rings(rt: HostRuntime) {
    let keys = vertex_keys(&rt, rt.alloc(), 6);
    let (mut borders, mut listed) = (Borders::new(rt.alloc(), rt.alloc()), Vec::new(rt.alloc()));
    list_both(&rt, rt.alloc(), &mut borders, keys.as_slice(), &mut listed);
}
