//! What stands around a vertex: its neighbours, and the rings that pass it.
ghost use Rattle.std.specs.Prelude.{◌≡◌, ◌≤◌, List, [], ◌∷◌, length, min, OnOk, IfOk, IfSome, IfNone};
ghost use Rattle.slab.specs.Slab.{get, entries};
ghost use Rattle.arc_tables.specs.Common.{Edge, links, path_in, users_in, uses_in};
ghost use Rattle.ring_store.specs.Common.{AreAllNeighbours, AreNeighbours, ListsJoined, Neighbours, Passes, SeesMore, edge_count, edge_counts, ending, ends_among, ends_in, gathered, least_number, less_of, most, noted, noted_all, other_end, other_ends, rings_along, rings_of_arc};

use crate::borders::Borders;
use arc_tables::{Arc, Ring, Use, arcs_at};
use slab::Slab;
use std::alloc::{AllocError, Allocator};
use vertex_index::VertexKey;

/// The vertices that are joined to one by segments.
#[derive(Clone, Copy, Debug, PartialEq, Eq)]
pub enum Neighbours {
    /// No vertex.
    None,
    /// Exactly this one.
    One(VertexKey),
    /// Exactly these, which differ.
    Two(VertexKey, VertexKey),
    /// Three or more.
    More,
}

/// The keys of an arc, none where there is no arc.
pub(crate) fn path_at<A: Allocator + Copy>(arcs: &Slab<Arc<A>, A>, i: usize) -> &[VertexKey]
    ensures { result.now ≡ path_in (get arcs.now i) }
{
    match arcs.get(i) {
        Some(arc) => arc.keys.as_slice(),
        None => &[],
    }
}

/// The neighbours, where `x` is one too.
pub(crate) fn with_neighbour(seen: Neighbours, x: VertexKey) -> Neighbours
    ensures { result ≡ noted seen x }
{
    match seen {
        Neighbours::None => Neighbours::One(x),
        Neighbours::One(a) => {
            if a == x {
                Neighbours::One(a)
            } else {
                Neighbours::Two(a, x)
            }
        }
        Neighbours::Two(a, b) => {
            if a == x || b == x {
                Neighbours::Two(a, b)
            } else {
                Neighbours::More
            }
        }
        Neighbours::More => Neighbours::More,
    }
}

/// The neighbours of `k`, where an edge is seen too.
fn with_edge(seen: Neighbours, from: VertexKey, to: VertexKey, k: VertexKey) -> Neighbours
    ensures { result ≡ noted_all seen (other_end k (from, to)) }
{
    let all = if from == k {
        with_neighbour(seen, to)
    } else {
        seen
    };
    if to == k {
        with_neighbour(all, from)
    } else {
        all
    }
}

/// The neighbours of `k`, where those along a path are seen too.
fn with_path(seen: Neighbours, path: &[VertexKey], k: VertexKey) -> Neighbours
    ensures { result ≡ noted_all seen (other_ends k (links path.now)) }
{
    let mut all = seen;
    for at in 1..path.len() {
        all = with_edge(all, path[at - 1], path[at], k);
    }
    all
}

/// The neighbours of `k` in these arcs.
fn neighbours_among<A: Allocator + Copy>(
    arcs: &Slab<Arc<A>, A>,
    among: &[usize],
    k: VertexKey,
) -> Neighbours
    ensures { result ≡ noted_all Neighbours.None
        (ends_among (λ i. path_in (get arcs.now i)) among.now k) }
{
    let mut all = Neighbours::None;
    for i in among {
        all = with_path(all, path_at(arcs, *i), k);
    }
    all
}

/// How many edges these uses make, or `usize::MAX` where they make more.
fn edge_count<A: Allocator + Copy>(arcs: &Slab<Arc<A>, A>, uses: &[Use]) -> usize
    ensures { result ≡ edge_count most (λ i. path_in (get arcs.now i)) uses.now }
{
    let mut count = 0usize;
    for u in uses {
        count = count.saturating_add(path_at(arcs, u.arc).len().saturating_sub(1));
    }
    count
}

/// The less of a number and one that may be there.
fn less_of(best: Option<usize>, n: usize) -> Option<usize>
    ensures { result ≡ less_of best n }
{
    match best {
        Some(m) => Some(m.min(n)),
        None => Some(n),
    }
}

/// The uses of a ring, none where there is no ring.
fn uses_at<A: Allocator + Copy>(rings: &Slab<Ring<A>, A>, r: usize) -> &[Use]
    ensures { result.now ≡ uses_in (get rings.now r) }
{
    match rings.get(r) {
        Some(ring) => ring.uses.as_slice(),
        None => &[],
    }
}

/// The rings of an arc, none where there is no arc.
fn users_of<A: Allocator + Copy>(arcs: &Slab<Arc<A>, A>, i: usize) -> &[usize]
    ensures { result.now ≡ users_in (get arcs.now i) }
{
    match arcs.get(i) {
        Some(arc) => arc.rings.as_slice(),
        None => &[],
    }
}

/// The least of `best` and the edge counts of these rings.
fn shortest_of<A: Allocator + Copy>(
    arcs: &Slab<Arc<A>, A>,
    rings: &Slab<Ring<A>, A>,
    users: &[usize],
    best: Option<usize>,
) -> Option<usize>
    ensures { result ≡ least_number best (edge_counts arcs.now rings.now users.now) }
{
    let mut least = best;
    for r in users {
        least = less_of(least, edge_count(arcs, uses_at(rings, *r)));
    }
    least
}

/// The least of `best` and the edge counts of the rings that have arc `i`, where a segment of it
/// ends at `k`.
fn shortest_at<A: Allocator + Copy>(
    arcs: &Slab<Arc<A>, A>,
    rings: &Slab<Ring<A>, A>,
    i: usize,
    k: VertexKey,
    best: Option<usize>,
) -> Option<usize>
    ensures { result
        ≡ least_number best (edge_counts arcs.now rings.now (rings_of_arc arcs.now i k)) }
{
    match with_path(Neighbours::None, path_at(arcs, i), k) {
        Neighbours::None => best,
        _ => shortest_of(arcs, rings, users_of(arcs, i), best),
    }
}

/// The edge count of the shortest ring that passes `k` along one of these arcs.
fn shortest_among<A: Allocator + Copy>(
    arcs: &Slab<Arc<A>, A>,
    rings: &Slab<Ring<A>, A>,
    among: &[usize],
    k: VertexKey,
) -> Option<usize>
    ensures { result
        ≡ least_number None (edge_counts arcs.now rings.now (rings_along arcs.now among.now k)) }
{
    let mut least = None;
    for i in among {
        least = shortest_at(arcs, rings, *i, k, least);
    }
    least
}

/// Appends a key, unless it stands there from this place on.
fn push_once<B: Allocator>(
    out: &mut Vec<VertexKey, B>,
    from: usize,
    x: VertexKey,
) -> Result<(), AllocError>
    requires { from ≤ length out.old.items }
    ensures { OnOk result (out.new.items ≡ gathered from out.old.items (x ∷ [])) }
{
    if !out[from..].contains(&x) {
        out.push(x)?;
    }
    Ok(())
}

/// Appends the other end of an edge, where one end is `k`.
fn push_edge<B: Allocator>(
    start: VertexKey,
    end: VertexKey,
    k: VertexKey,
    out: &mut Vec<VertexKey, B>,
    from: usize,
) -> Result<(), AllocError>
    requires { from ≤ length out.old.items }
    ensures { OnOk result (out.new.items ≡ gathered from out.old.items (other_end k (start, end))) }
{
    if start == k {
        push_once(out, from, end)?;
    }
    if end == k {
        push_once(out, from, start)?;
    }
    Ok(())
}

/// Appends those beside `k` on a path.
fn push_along<B: Allocator>(
    path: &[VertexKey],
    k: VertexKey,
    out: &mut Vec<VertexKey, B>,
    from: usize,
) -> Result<(), AllocError>
    requires { from ≤ length out.old.items }
    ensures { OnOk result (out.new.items ≡ gathered from out.old.items (other_ends k (links path.now))) }
{
    for at in 1..path.len() {
        push_edge(path[at - 1], path[at], k, out, from)?;
    }
    Ok(())
}

/// Appends those beside `k` in these arcs.
fn push_among<A: Allocator + Copy, B: Allocator>(
    arcs: &Slab<Arc<A>, A>,
    among: &[usize],
    k: VertexKey,
    out: &mut Vec<VertexKey, B>,
    from: usize,
) -> Result<(), AllocError>
    requires { from ≤ length out.old.items }
    ensures { OnOk result (out.new.items
        ≡ gathered from out.old.items (ends_among (λ i. path_in (get arcs.now i)) among.now k)) }
{
    for i in among {
        push_along(path_at(arcs, *i), k, out, from)?;
    }
    Ok(())
}

/// Sees `x` beside vertex `k`.
fn see<A: Allocator>(
    table: &mut Vec<Neighbours, A>,
    k: VertexKey,
    x: VertexKey,
) -> Result<(), AllocError>
    ensures { OnOk result (SeesMore table.old.items table.new.items (ending k x)) }
{
    while table.len() <= k.index() {
        table.push(Neighbours::None)?;
    }
    let seen = table[k.index()];
    table[k.index()] = with_neighbour(seen, x);
    Ok(())
}

/// Sees those that stand beside each other on a path.
fn see_path<A: Allocator>(
    table: &mut Vec<Neighbours, A>,
    path: &[VertexKey],
) -> Result<(), AllocError>
    ensures { OnOk result
        (SeesMore table.old.items table.new.items (λ j. other_ends j (links path.now))) }
{
    for at in 1..path.len() {
        let (from, to) = (path[at - 1], path[at]);
        see(table, from, to)?;
        see(table, to, from)?;
    }
    Ok(())
}

/// Sees those that stand beside each other on any arc.
fn see_arcs<A: Allocator + Copy>(
    table: &mut Vec<Neighbours, A>,
    arcs: &Slab<Arc<A>, A>,
) -> Result<(), AllocError>
    ensures { OnOk result
        (SeesMore table.old.items table.new.items (λ j. ends_in (entries arcs.now) j)) }
{
    for (_, arc) in arcs.iter() {
        see_path(table, arc.keys.as_slice())?;
    }
    Ok(())
}

impl<A: Allocator + Copy> Borders<A> {
    /// The vertices that some ring joins to `k` by a segment. Takes no memory.
    pub fn neighbours(&self, k: VertexKey) -> Neighbours
        ensures { AreNeighbours self.now k result }
    {
        neighbours_among(&self.tables.arcs, arcs_at(&self.tables.stands, k), k)
    }

    /// How many edges the shortest ring with a segment at `k` has, `None` where no ring has one. It
    /// is `usize::MAX` for more. Takes no memory.
    pub fn shortest(&self, k: VertexKey) -> Option<usize>
        ensures none { IfNone result ((es : List Edge) → ¬ Passes self.now k es) }
        ensures some { IfSome result (λ n. (es : List Edge) × Passes self.now k es
            × (n ≡ min (length es) usize.MAX)) }
        ensures least { IfSome result (λ n. (es : List Edge) → Passes self.now k es
            → n ≤ length es) }
    {
        shortest_among(
            &self.tables.arcs,
            &self.tables.rings,
            arcs_at(&self.tables.stands, k),
            k,
        )
    }

    /// Appends the vertices that some ring joins to `k` by a segment, each once. Fails only on
    /// allocation failure; some of them may then have been appended.
    pub fn push_neighbours<B: Allocator>(
        &self,
        k: VertexKey,
        out: &mut Vec<VertexKey, B>,
    ) -> Result<(), AllocError>
        ensures { OnOk result (ListsJoined self.now k out.old.items out.new.items) }
    {
        let from = out.len();
        let among = arcs_at(&self.tables.stands, k);
        push_among(&self.tables.arcs, among, k, out, from)
    }

    /// For each vertex, by the index of its key, the vertices that some ring joins to it by a segment,
    /// as `neighbours` gives them; none where the table ends before it. One pass over the borders.
    /// Fails only on allocation failure.
    pub fn all_neighbours(&self) -> Result<Vec<Neighbours, A>, AllocError>
        ensures { IfOk result (λ table. AreAllNeighbours self.now table.items) }
    {
        let mut table = Vec::with_capacity(self.tables.alloc, self.tables.stands.len())?;
        see_arcs(&mut table, &self.tables.arcs)?;
        Ok(table)
    }
}
