//! A ring's keys one by one, in no memory.
ghost use Rattle.std.specs.Prelude.{◌≡◌, ◌≤◌, option_map, ◌-◌, ◌++◌, OnOk, if◌then◌else◌};
ghost use Rattle.std.specs.Iterator.{YieldsFirst, item_count};
ghost use Rattle.slab.specs.Slab.{ContainsKey};
ghost use Rattle.arc_tables.specs.Common.{begins, links, walk, edges_of, store, Whole};
ghost use Rattle.std.specs.FinMap as map;

use crate::borders::Borders;
use crate::neighbours::path_at;
use arc_tables::{Arc, Tables, Use};
use slab::Slab;
use std::alloc::{AllocError, Allocator, Global};
use std::iter::FusedIterator;
use std::marker::Model;
use vertex_index::VertexKey;

/// The place in a path of so many keys that comes as the `at`-th, counted from 1.
pub(crate) fn place_of(len: usize, back: bool, at: usize) -> usize
    requires some { 1 ≤ at }
    requires within { at ≤ len }
    ensures { result ≡ (if back then len - at else at - 1) }
{
    if back { len - at } else { at - 1 }
}

/// Appends the keys of a path, or of its reverse, but for the last.
fn push_begins<A: Allocator>(
    path: &[VertexKey],
    back: bool,
    out: &mut Vec<VertexKey, A>,
) -> Result<(), AllocError>
    ensures { OnOk result (out.new.items ≡ out.old.items ++ begins (links (walk back path.now))) }
{
    out.reserve(path.len())?;
    for at in 1..path.len() {
        out.push_reserved(path[place_of(path.len(), back, at)]);
    }
    Ok(())
}

/// Appends the keys at which the edges of a ring begin.
pub(crate) fn push_ring_keys<A: Allocator + Copy, B: Allocator>(
    tables: &Tables<A>,
    r: usize,
    out: &mut Vec<VertexKey, B>,
) -> Result<(), AllocError>
    requires whole { Whole tables.now }
    requires held { ContainsKey tables.now.rings r }
    ensures { OnOk result
        (out.new.items ≡ out.old.items ++ begins (edges_of (store tables.now) r)) }
{
    for u in tables.rings.get(r).unwrap().uses.as_slice() {
        let arc = tables.arcs.get(u.arc).unwrap();
        push_begins(arc.keys.as_slice(), u.back, out)?;
    }
    Ok(())
}

/// The keys of a ring, seen as the list of those that are still to come.
#[derive(Drop)]
pub struct RingKeys<'m, A: Allocator + Copy = Global> {
    arcs: &'m Slab<Arc<A>, A>,
    /// The uses after that of the path.
    uses: &'m [Use],
    path: &'m [VertexKey],
    back: bool,
    /// The place on the path that comes next, counted from 1; its last key is not given.
    at: usize,
}

impl<'m, A: Allocator + Copy> Model for RingKeys<'m, A> {
    ghost use Rattle.std.specs.Prelude.{ℕ, ◌≤◌, List};

    ghost Value = { List ℕ };

    ghost use Rattle.ring_store.specs.Coming.{keys_left};

    ghost view = { λ it. keys_left it.arcs.now it.uses.now it.path.now it.back it.at };

    ghost invariant = { λ it. 1 ≤ it.at };
}

impl<'m, A: Allocator + Copy> RingKeys<'m, A> {
    /// The same keys, to be given once more.
    pub fn again(&self) -> RingKeys<'m, A>
        ensures { result ≡ self.now }
    {
        RingKeys {
            arcs: self.arcs,
            uses: self.uses,
            path: self.path,
            back: self.back,
            at: self.at,
        }
    }
}

impl<'m, A: Allocator + Copy> Iterator for RingKeys<'m, A> {
    type Item = VertexKey;

    ghost next_gives = { YieldsFirst (λ rest. rest) };

    ghost remaining = { item_count (λ rest. rest) };

    fn next(&mut self) -> Option<VertexKey> {
        while self.path.len() <= self.at {
            let Some((u, rest)) = self.uses.split_first() else {
                return None;
            };
            self.path = path_at(self.arcs, u.arc);
            self.back = u.back;
            self.at = 1;
            self.uses = rest;
        }
        let key = self.path[place_of(self.path.len(), self.back, self.at)];
        self.at += 1;
        Some(key)
    }
}

impl<'m, A: Allocator + Copy> FusedIterator for RingKeys<'m, A> {}

impl<A: Allocator + Copy> Borders<A> {
    /// The keys of a ring, in order; `None` where no ring is held under this number. Takes no memory.
    pub fn keys(&self, r: usize) -> Option<RingKeys<'_, A>>
        ensures { result ≡ option_map begins (map.get self.now r) }
    {
        let ring = self.tables.rings.get(r)?;
        Some(RingKeys {
            arcs: &self.tables.arcs,
            uses: ring.uses.as_slice(),
            path: &[],
            back: false,
            at: 1,
        })
    }
}
