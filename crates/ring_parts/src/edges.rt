// The edges of rings.
ghost use Rattle.std.specs.Prelude.{◌≡◌, ◌≤◌, ◌+◌, ◌++◌, IfOk, length, map, vec_len, vec_capacity};
ghost use Rattle.grid_geometry.specs.Common.{edges};
ghost use Rattle.ring_parts.specs.Borders.{ends_of};

use grid_geometry::Pos;
use std::alloc::{AllocError, Allocator};

/// The ends of an edge, the lesser one first.
pub(crate) fn ends(edge: (Pos, Pos)) -> (Pos, Pos)
    ensures { result ≡ ends_of edge }
{
    if edge.0 > edge.1 {
        (edge.1, edge.0)
    } else {
        edge
    }
}

/// Appends the edges of a ring, for which there is room.
#[tactic(auto, using(crate::proofs::Ways::edge_steps))]
fn push_edges<A: Allocator + Copy>(found: &mut Vec<(Pos, Pos), A>, ring: &[Pos])
    requires { vec_len found.old + length ring.now ≤ vec_capacity found.old }
    ensures { found.new.items ≡ found.old.items ++ edges ring.now }
{
    let [first, rest @ ..] = ring else {
        return;
    };
    let mut from = *first;
    for to in rest {
        found.push_reserved((from, *to));
        from = *to;
    }
    found.push_reserved((from, *first));
}

/// The edges of a ring, in its direction.
pub(crate) fn edges<A: Allocator + Copy>(
    alloc: A,
    ring: &[Pos],
) -> Result<Vec<(Pos, Pos), A>, AllocError>
    ensures { IfOk result (λ found. found.items ≡ edges ring.now) }
{
    let mut found = Vec::with_capacity(alloc, ring.len())?;
    push_edges(&mut found, ring);
    Ok(found)
}

/// The ends of each edge, the lesser one first.
pub(crate) fn all_ends<A: Allocator + Copy>(
    alloc: A,
    edges: &[(Pos, Pos)],
) -> Result<Vec<(Pos, Pos), A>, AllocError>
    ensures { IfOk result (λ found. found.items ≡ map ends_of edges.now) }
{
    edges.iter().map(|edge| ends(*edge)).collect(alloc)
}
