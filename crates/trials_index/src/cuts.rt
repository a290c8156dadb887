//! Where arcs are cut, and what vertices list then.
ghost use Rattle.arc_tables.specs.Stores.{Whole};

use crate::given::MEMORY;
use crate::squares::{LEFT, RIGHT, RIGHT_TURNED, key, pick, vertex_keys};
use arc_tables::{Tables, arcs_at, mark_end};
use slab::Slab;
use std::alloc::Global;
use std::process::Abort;
use vertex_index::VertexKey;

/// No arc and no ring.
fn no_tables(alloc: Global) -> Tables
    ensures { Whole result }
{
    Tables {
        alloc,
        heap: alloc,
        arcs: Slab::new(alloc),
        rings: Slab::new(alloc),
        stands: Vec::new(alloc),
        ends: Vec::new(alloc),
    }
}

/// Adds the ring along these vertices.
fn lay<R: Abort>(rt: &R, tables: &mut Tables, keys: &[VertexKey], which: &[usize]) -> usize
    requires { Whole tables.old }
    ensures { Whole tables.new }
{
    let mut around = pick(rt, tables.alloc, keys, which);
    let first = *around.first().expect(rt, "a vertex");
    around.push(first).expect(rt, MEMORY);
    tables.add_ring(around.as_slice()).expect(rt, MEMORY)
}

/// New arcs end at a vertex.
fn mark<R: Abort>(rt: &R, tables: &mut Tables, keys: &[VertexKey], n: usize)
    requires { Whole tables.old }
    ensures { Whole tables.new }
{
    mark_end(&mut tables.ends, key(rt, keys, n)).expect(rt, MEMORY);
}

/// Whether there are so many arcs, and each vertex lists so many of them.
fn has_arcs(tables: &Tables, keys: &[VertexKey], count: usize, listed: &[usize; 6]) -> bool {
    for (k, count) in keys.iter().zip(listed) {
        if arcs_at(&tables.stands, *k).len() != *count {
            return false;
        }
    }
    tables.arcs.len() == count
}

/// The first square, of one arc, is cut in three by the second, which adds one. Where it is taken
/// out, no vertex lists its arcs.
fn share_a_side<R: Abort>(rt: &R, tables: &mut Tables, keys: &[VertexKey], right: &[usize])
    requires { Whole tables.old }
{
    let first = lay(rt, tables, keys, &LEFT);
    assert!(rt; tables.arcs.len() == 1);
    let second = lay(rt, tables, keys, right);
    assert!(rt; has_arcs(tables, keys, 4, &[2, 3, 3, 1, 1, 1]));
    tables.take_out(first);
    assert!(rt; has_arcs(tables, keys, 2, &[0, 2, 2, 0, 1, 1]));
    tables.take_out(second);
    assert!(rt; has_arcs(tables, keys, 0, &[0, 0, 0, 0, 0, 0]));
}

#[test]
fn two_squares_share_a_side(rt: HostRuntime) {
    let keys = vertex_keys(&rt, rt.alloc(), 6);
    for right in [RIGHT, RIGHT_TURNED] {
        share_a_side(&rt, &mut no_tables(rt.alloc()), keys.as_slice(), &right);
    }
}

/// Where both junctions are marked first, the square has the three arcs from the start.
fn end_at_junctions<R: Abort>(rt: &R, tables: &mut Tables, keys: &[VertexKey])
    requires { Whole tables.old }
{
    mark(rt, tables, keys, 1);
    mark(rt, tables, keys, 2);
    lay(rt, tables, keys, &LEFT);
    assert!(rt; tables.arcs.len() == 3);
    lay(rt, tables, keys, &RIGHT);
    assert!(rt; tables.arcs.len() == 4);
}

#[test]
fn new_arcs_end_at_junctions(rt: HostRuntime) {
    let keys = vertex_keys(&rt, rt.alloc(), 6);
    end_at_junctions(&rt, &mut no_tables(rt.alloc()), keys.as_slice());
}

/// An arc of 64 keys has 63 segments, so 600 segments make ten arcs.
#[test]
fn a_long_ring_is_some_arcs(rt: HostRuntime) {
    let keys = vertex_keys(&rt, rt.alloc(), 600);
    let mut which = Vec::new(rt.alloc());
    for n in 0..600usize {
        which.push(n).expect(&rt, MEMORY);
    }
    let mut tables = no_tables(rt.alloc());
    lay(&rt, &mut tables, keys.as_slice(), which.as_slice());
    let count = tables.arcs.len();
    drop(tables);
    assert!(rt; count == 10);
}
