// Vertices that no ring visits.
ghost use Rattle.std.specs.Prelude.{◌≡◌, ◌⊎◌, ℕ, IsTrue, Contains};
ghost use Rattle.std.specs.FinMap as table;
ghost use Rattle.ring_machine.specs.Common.{are_distinct};
ghost use Rattle.ring_store.specs.Common.{IsVisited, AllRound};
ghost use Rattle.feature_exchange.specs.Laid.{LeavesVisited};

use ring_store::{Borders, Neighbours, Place, edge_at};
use std::alloc::Allocator;
use vertex_index::{VertexKey, Vertices};

/// Takes out the vertex of a key, unless a ring visits it: one does where the segment to the next
/// key still stands, which is looked for beside `near`.
fn remove_unused<A: Allocator + Copy>(
    vertices: &mut Vertices<A>,
    borders: &Borders<A>,
    near: &mut Option<Place>,
    k: VertexKey,
    next: VertexKey,
)
    requires round { AllRound borders.now }
    requires placed { IsTrue (table.contains_key vertices.old k) }
    ensures { (IsVisited borders.now k × (vertices.new ≡ vertices.old))
        ⊎ (¬ (IsVisited borders.now k) × (vertices.new ≡ table.remove vertices.old k)) }
{
    if borders.uses_along(near, k, next) != 0 {
        return;
    }
    match borders.neighbours(k) {
        Neighbours::None => vertices.remove(k),
        _ => {}
    }
}

/// Takes out the vertices of these keys that no ring visits.
pub(crate) fn remove_all_lonely<A: Allocator + Copy>(
    vertices: &mut Vertices<A>,
    borders: &Borders<A>,
    keys: &[VertexKey],
)
    requires round { AllRound borders.now }
    requires placed { (k : ℕ) → Contains keys.now k
        → IsTrue (table.contains_key vertices.old k) }
    requires different { IsTrue (are_distinct keys.now) }
    ensures { LeavesVisited borders.now keys.now vertices.old vertices.new }
{
    let mut near = None;
    for at in 0..keys.len() {
        let (_, next) = edge_at(keys, at);
        remove_unused(vertices, borders, &mut near, keys[at], next);
    }
}
