//! Putting one vertex into the arcs, and taking one out.
ghost use Rattle.std.specs.Prelude.{◌≡◌, ◌≢◌, ℕ, ◌≤◌, OnOk, OnErr, Contains, map};
ghost use Rattle.slab.specs.Slab.{get};
ghost use Rattle.arc_tables.specs.Ways.{Once, links, times};
ghost use Rattle.arc_tables.specs.Edited.{onto, through, collapsed, Collapses, CollapsesAmong};
ghost use Rattle.arc_tables.specs.Stores.{path_in, path_of, stand_at, Whole, ListsMore};
ghost use Rattle.arc_tables.specs.Stores.{SamePaths, SameUsers};

use crate::arc::{Arc, Stand};
use crate::place::{arcs_at, place_in};
use crate::standing::list_arc;
use crate::tables::Tables;
use slab::Slab;
use std::alloc::{AllocError, Allocator, Global};
use vertex_index::VertexKey;

/// Lists these arcs for a vertex.
fn list_arcs<A: Allocator + Copy>(
    heap: Global,
    stands: &mut Vec<Stand, A>,
    k: VertexKey,
    among: &[usize],
) -> Result<(), AllocError>
    ensures kept { ListsMore stands.old.items stands.new.items }
    ensures listed { OnOk result ((i : ℕ) → Contains among.now i
        → Contains (stand_at stands.new.items k) i) }
{
    for i in among {
        list_arc(heap, stands, k, *i)?;
    }
    Ok(())
}

/// Takes `p` out where it stands beside `b`.
fn draw_in<A: Allocator + Copy>(path: &mut Vec<VertexKey, A>, p: VertexKey, b: VertexKey)
    requires { times p b (links path.old.items) ≤ 1 }
    ensures edges { links (map (onto p b) path.new.items) ≡ collapsed p b (links path.old.items) }
    ensures keys { (k : ℕ) → Contains path.new.items k → Contains path.old.items k }
{
    match place_in(path.as_slice(), 1..path.len(), p, b) {
        Some((at, false)) => {
            path.remove(at);
        }
        Some((at, true)) => {
            path.remove(at + 1);
        }
        None => {}
    }
}

/// `b` in place of `p`.
fn moved(k: VertexKey, p: VertexKey, b: VertexKey) -> VertexKey
    ensures { result ≡ onto p b k }
{
    if k == p { b } else { k }
}

/// Puts `b` in the place of `p`.
fn move_keys(keys: &mut [VertexKey], p: VertexKey, b: VertexKey)
    ensures { keys.new ≡ map (onto p b) keys.old }
{
    for k in keys.iter_mut() {
        *k = moved(*k, p, b);
    }
}

/// Moves `p` onto its neighbour `b` in a path, and drops the edge between them.
fn collapse<A: Allocator + Copy>(path: &mut Vec<VertexKey, A>, p: VertexKey, b: VertexKey)
    requires apart { b ≢ p }
    requires once { times p b (links path.old.items) ≤ 1 }
    ensures { Collapses p b path.old.items path.new.items }
{
    draw_in(path, p, b);
    move_keys(path, p, b);
}

/// Moves `p` onto its neighbour `b` in arc `i`, if there is one.
pub(crate) fn collapse_arc<A: Allocator + Copy>(
    arcs: &mut Slab<Arc<A>, A>,
    i: usize,
    p: VertexKey,
    b: VertexKey,
)
    requires apart { b ≢ p }
    requires once { times p b (links (path_in (get arcs.old i))) ≤ 1 }
    ensures here { Collapses p b (path_in (get arcs.old i)) (path_in (get arcs.new i)) }
    ensures others { (j : ℕ) → j ≢ i → get arcs.new j ≡ get arcs.old j }
    ensures users { SameUsers arcs.old arcs.new }
{
    if let Some(arc) = arcs.get_mut(i) {
        collapse(&mut arc.keys, p, b);
    }
}

/// Moves `p` onto its neighbour `b` in these arcs.
fn collapse_all<A: Allocator + Copy>(
    arcs: &mut Slab<Arc<A>, A>,
    among: &[usize],
    p: VertexKey,
    b: VertexKey,
)
    requires apart { b ≢ p }
    requires once { (j : ℕ) → times p b (links (path_in (get arcs.old j))) ≤ 1 }
    ensures paths { (j : ℕ) → CollapsesAmong among.now j p b (path_in (get arcs.old j))
        (path_in (get arcs.new j)) }
    ensures users { SameUsers arcs.old arcs.new }
{
    for i in among {
        collapse_arc(arcs, *i, p, b);
    }
}

/// Vertex `k` forgets all arcs.
fn forget_arcs<A: Allocator + Copy>(stands: &mut Vec<Stand, A>, k: VertexKey)
    ensures { (j m : ℕ) → j ≢ k → Contains (stand_at stands.old.items j) m
        → Contains (stand_at stands.new.items j) m }
{
    if let Some(stand) = stands.get_mut(k.index()) {
        stand.arcs.clear();
    }
}

impl<A: Allocator + Copy> Tables<A> {
    /// Puts `q` between `a` and `b` in the one arc that has their segment. Fails only on allocation
    /// failure.
    pub fn insert(&mut self, a: VertexKey, b: VertexKey, q: VertexKey) -> Result<(), AllocError>
        requires whole { Whole self.old }
        requires once { Once (path_of self.old) }
        ensures ok { OnOk result ((i : ℕ) → links (path_of self.new i)
            ≡ through a b q (links (path_of self.old i))) }
        ensures err { OnErr result (SamePaths self.old.arcs self.new.arcs) }
        ensures whole { Whole self.new }
        ensures rings { self.new.rings ≡ self.old.rings }
    {
        let Some(place) = self.find(a, b) else {
            return Ok(());
        };
        list_arc(self.heap, &mut self.stands, q, place.arc)?;
        let arc = self.arcs.get_mut(place.arc).unwrap();
        arc.keys.insert(place.at + 1, q)?;
        Ok(())
    }

    /// Takes `p` out of the arcs: it moves onto its neighbour `b`. Fails only on allocation failure.
    pub fn remove(&mut self, p: VertexKey, b: VertexKey) -> Result<(), AllocError>
        requires whole { Whole self.old }
        requires once { Once (path_of self.old) }
        requires apart { b ≢ p }
        ensures ok { OnOk result ((i : ℕ) → links (path_of self.new i)
            ≡ collapsed p b (links (path_of self.old i))) }
        ensures err { OnErr result (SamePaths self.old.arcs self.new.arcs) }
        ensures whole { Whole self.new }
        ensures rings { self.new.rings ≡ self.old.rings }
    {
        let among = Vec::from_slice(self.alloc, arcs_at(&self.stands, p))?;
        list_arcs(self.heap, &mut self.stands, b, among.as_slice())?;
        collapse_all(&mut self.arcs, among.as_slice(), p, b);
        forget_arcs(&mut self.stands, p);
        Ok(())
    }
}
