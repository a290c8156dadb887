//! The arcs that each vertex stands in.
ghost use Rattle.std.specs.Prelude.{◌≡◌, ◌≢◌, ℕ, ◌<◌, OnOk, Contains, vec_len, get_or, true, false};
ghost use Rattle.arc_tables.specs.Stores.{stand_at, including, ListsMore, UnlistsOnly, UnlistsOff};

use crate::arc::{Stand, leave_out};
use smallvec::SmallVec;
use std::alloc::{AllocError, Allocator, Global};
use vertex_index::VertexKey;

/// Makes the table long enough for vertex `k`.
fn reach<A: Allocator + Copy>(
    heap: Global,
    stands: &mut Vec<Stand, A>,
    k: VertexKey,
) -> Result<(), AllocError>
    ensures kept { (j : ℕ) → stand_at stands.new.items j ≡ stand_at stands.old.items j }
    ensures ok { OnOk result (k < vec_len stands.new) }
{
    while stands.len() <= k.index() {
        stands.push(Stand {
            arcs: SmallVec::new(heap),
        })?;
    }
    Ok(())
}

/// Lists arc `n` for a vertex.
pub(crate) fn list_arc<A: Allocator + Copy>(
    heap: Global,
    stands: &mut Vec<Stand, A>,
    k: VertexKey,
    n: usize,
) -> Result<(), AllocError>
    ensures kept { ListsMore stands.old.items stands.new.items }
    ensures listed { OnOk result
        (stand_at stands.new.items k ≡ including n (stand_at stands.old.items k)) }
{
    reach(heap, stands, k)?;
    let stand = stands.get_mut(k.index()).unwrap();
    if stand.arcs.as_slice().contains(&n) {
        return Ok(());
    }
    stand.arcs.push(n)?;
    Ok(())
}

/// Lists arc `n` for each of these vertices.
pub(crate) fn note<A: Allocator + Copy>(
    heap: Global,
    stands: &mut Vec<Stand, A>,
    keys: &[VertexKey],
    n: usize,
) -> Result<(), AllocError>
    ensures kept { ListsMore stands.old.items stands.new.items }
    ensures noted { OnOk result
        ((k : ℕ) → Contains keys.now k → Contains (stand_at stands.new.items k) n) }
{
    for k in keys {
        list_arc(heap, stands, *k, n)?;
    }
    Ok(())
}

/// Vertex `k` forgets arc `i`.
fn unlist<A: Allocator + Copy>(stands: &mut Vec<Stand, A>, k: VertexKey, i: usize)
    ensures arc { UnlistsOnly stands.old.items stands.new.items i }
    ensures others { (j : ℕ) → j ≢ k → stand_at stands.new.items j ≡ stand_at stands.old.items j }
{
    if let Some(stand) = stands.get_mut(k.index()) {
        leave_out(&mut stand.arcs, i);
    }
}

/// These vertices forget arc `i`.
pub(crate) fn unlist_all<A: Allocator + Copy>(
    stands: &mut Vec<Stand, A>,
    keys: &[VertexKey],
    i: usize,
)
    ensures { UnlistsOnly stands.old.items stands.new.items i }
{
    for k in keys {
        unlist(stands, *k, i);
    }
}

/// Vertices that moved to another arc forget arc `i`, but for those that its path still has.
pub(crate) fn unlist_moved<A: Allocator + Copy>(
    stands: &mut Vec<Stand, A>,
    path: &[VertexKey],
    moved: &[VertexKey],
    i: usize,
)
    ensures { UnlistsOff path.now stands.old.items stands.new.items i }
{
    for k in moved {
        if !path.contains(k) {
            unlist(stands, *k, i);
        }
    }
}

/// New arcs end at vertex `k` from now on. Fails only on allocation failure.
pub fn mark_end<A: Allocator + Copy>(
    ends: &mut Vec<bool, A>,
    k: VertexKey,
) -> Result<(), AllocError>
    ensures marked { OnOk result (get_or ends.new.items k false ≡ true) }
    ensures others { (j : ℕ) → j ≢ k → get_or ends.new.items j false ≡ get_or ends.old.items j false }
{
    while ends.len() <= k.index() {
        ends.push(false)?;
    }
    ends[k.index()] = true;
    Ok(())
}
