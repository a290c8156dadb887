// The junctions of a map that is to be laid: where borders are to end.
ghost use Rattle.std.specs.Prelude.{◌≡◌, ◌<◌, OnOk, length};

use ring_store::Borders;
use std::alloc::{AllocError, Allocator};
use vertex_index::VertexKey;

/// What was seen around a vertex so far.
#[derive(Clone, Copy, PartialEq, Eq)]
enum Seen {
    /// No ring.
    Nothing,
    /// Rings in which it stands between these two, the lesser key first.
    Between(VertexKey, VertexKey),
    /// Two rings in which its neighbours differ.
    Junction,
}

/// What is seen once a ring has the vertex between `a` and `b`.
fn seen_between(seen: Seen, a: VertexKey, b: VertexKey) -> Seen {
    let pair = if b < a {
        Seen::Between(b, a)
    } else {
        Seen::Between(a, b)
    };
    if seen == Seen::Nothing || seen == pair {
        pair
    } else {
        Seen::Junction
    }
}

/// Makes the table long enough for vertex `k`.
fn reach<A: Allocator + Copy>(around: &mut Vec<Seen, A>, k: VertexKey) -> Result<(), AllocError>
    ensures { OnOk result (k < length around.new.items) }
{
    while around.len() <= k.index() {
        around.push(Seen::Nothing)?;
    }
    Ok(())
}

/// A ring has `k` between `a` and `b`. Borders end there where another ring has it otherwise.
fn see<A: Allocator + Copy>(
    borders: &mut Borders<A>,
    around: &mut Vec<Seen, A>,
    a: VertexKey,
    k: VertexKey,
    b: VertexKey,
) -> Result<(), AllocError>
    ensures { borders.new ≡ borders.old }
{
    reach(around, k)?;
    let before = around[k.index()];
    let now = seen_between(before, a, b);
    if now != before {
        around[k.index()] = now;
        if now == Seen::Junction {
            borders.end_arcs_at(k)?;
        }
    }
    Ok(())
}

/// Each vertex of a ring is seen between its neighbours.
fn see_ring<A: Allocator + Copy>(
    borders: &mut Borders<A>,
    around: &mut Vec<Seen, A>,
    ring: &[VertexKey],
) -> Result<(), AllocError>
    ensures { borders.new ≡ borders.old }
{
    let [first, .., last] = ring else {
        return Ok(());
    };
    let mut a = *last;
    let mut k = *first;
    for at in 1..ring.len() {
        see(borders, around, a, k, ring[at])?;
        a = k;
        k = ring[at];
    }
    see(borders, around, a, k, *first)
}

/// Borders end at each vertex, of so many, that has different neighbours in two rings. No ring changes.
pub(crate) fn mark_junctions<A: Allocator + Copy>(
    alloc: A,
    borders: &mut Borders<A>,
    vertices: usize,
    rings: &[Vec<VertexKey, A>],
) -> Result<(), AllocError>
    ensures { borders.new ≡ borders.old }
{
    let mut around = Vec::with_capacity(alloc, vertices)?;
    for ring in rings {
        see_ring(borders, &mut around, ring.as_slice())?;
    }
    Ok(())
}
