//! Rings over shared arcs, as a caller sees them.
ghost use Rattle.std.specs.Prelude.{◌≡◌, ◌≤◌, ◌++◌, [], true, None, IfOk, OnOk, OnErr, IfSome, length, ◌<◌, ◌^◌, ◌⊎◌, ℕ, option_map};
ghost use Rattle.arc_tables.specs.Common.{begins, edges, users_of, HasSegment, ListsUsers, ListsSharing, AreApart, through, collapsed, throughs, gained, ArePuts};
ghost use Rattle.ring_store.specs.Joined.{Joined};
ghost use Rattle.std.specs.FinMap as map;

use crate::ring_keys::push_ring_keys;
use arc_tables::{Place, Put, Tables, mark_end};
use slab::Slab;
use std::alloc::{AllocError, Allocator, Global};
use std::marker::Model;
use vertex_index::VertexKey;

/// The rings of a map, in which a border stands once, however many rings have it. It is seen as
/// the edges of each ring, by the ring's number: where borders are cut can't be seen.
#[derive(Drop)]
pub struct Borders<A: Allocator + Copy = Global> {
    pub(crate) tables: Tables<A>,
}

impl<A: Allocator + Copy> Model for Borders<A> {
    ghost use Rattle.std.specs.Coded.{coded_ℕ};
    ghost use Rattle.std.specs.FinMap as map;
    ghost use Rattle.arc_tables.specs.Rings.{Rings, edges_code};

    ghost Value = { Rings };

    ghost coded = { map.code coded_ℕ edges_code };

    ghost use Rattle.arc_tables.specs.Sound.{rings_of, Sound};

    ghost view = { λ b. rings_of b.tables };

    ghost invariant = { λ b. Sound b.tables };
}

impl<A: Allocator + Copy> Borders<A> {
    /// No ring. Takes no memory.
    pub fn new(alloc: A, heap: Global) -> Self
        ensures { result ≡ map.empty }
    {
        Borders {
            tables: Tables {
                alloc,
                heap,
                arcs: Slab::new(alloc),
                rings: Slab::new(alloc),
                stands: Vec::new(alloc),
                ends: Vec::new(alloc),
            },
        }
    }

    /// No ring, with room for what so many vertices stand in. Fails only on allocation failure.
    pub fn with_room(alloc: A, heap: Global, vertices: usize) -> Result<Self, AllocError>
        ensures { IfOk result (λ borders. borders ≡ map.empty) }
    {
        let stands = Vec::with_capacity(alloc, vertices)?;
        Ok(Borders {
            tables: Tables {
                alloc,
                heap,
                arcs: Slab::new(alloc),
                rings: Slab::new(alloc),
                stands,
                ends: Vec::new(alloc),
            },
        })
    }

    /// Whether a ring is held under this number.
    pub fn holds(&self, r: usize) -> bool
        ensures { result ≡ map.contains_key self.now r }
    {
        self.tables.rings.get(r).is_some()
    }

    /// Lets new borders end at a vertex, as at a junction of the map that is to be put in: what ends
    /// there is never cut there. No ring changes. Fails only on allocation failure.
    pub fn end_arcs_at(&mut self, k: VertexKey) -> Result<(), AllocError>
        ensures { self.new ≡ self.old }
    {
        mark_end(&mut self.tables.ends, k)
    }

    /// Puts in the ring that goes along these keys, and from the last to the first, under a number that
    /// was not held. Its segments that other rings have, in either direction, stand where they stood.
    /// Fails only on allocation failure, and then no ring has changed.
    pub fn add_ring(&mut self, keys: &[VertexKey]) -> Result<usize, AllocError>
        requires some { 1 ≤ length keys.now }
        ensures new { IfOk result (λ r. map.get self.old r ≡ None) }
        ensures ok { IfOk result (λ r. self.new ≡ map.insert self.old r (edges keys.now)) }
        ensures err { OnErr result (self.new ≡ self.old) }
    {
        let mut around = Vec::with_capacity(self.tables.alloc, keys.len().saturating_add(1))?;
        around.extend_from_slice(keys)?;
        around.push(keys[0])?;
        match self.tables.add_ring(around.as_slice()) {
            Ok(r) => Ok(r),
            Err(e) => Err(e),
        }
    }

    /// Takes out a ring that is held, and the borders that no other ring has. Takes no memory.
    pub fn take_out(&mut self, r: usize)
        requires { map.contains_key self.old r ≡ true }
        ensures { self.new ≡ map.remove self.old r }
    {
        self.tables.take_out(r);
    }

    /// How many rings have the segment of these two vertices, in either direction. Takes no memory.
    pub fn uses(&self, a: VertexKey, b: VertexKey) -> usize
        ensures { result ≡ users_of self.now a b }
    {
        self.tables.uses(&mut None, a, b)
    }

    /// How many rings have the segment of these two vertices, in either direction, of segments that
    /// follow each other along a ring: `near` begins with `None`, and is where the last one was found.
    /// The answer does not depend on it. Takes no memory.
    pub fn uses_along(&self, near: &mut Option<Place>, a: VertexKey, b: VertexKey) -> usize
        ensures { result ≡ users_of self.now a b }
    {
        self.tables.uses(near, a, b)
    }

    /// Appends the numbers of the rings that have the segment of these two vertices, in either
    /// direction, each once. Fails only on allocation failure.
    pub fn push_users<B: Allocator>(
        &self,
        a: VertexKey,
        b: VertexKey,
        out: &mut Vec<usize, B>,
    ) -> Result<(), AllocError>
        ensures { OnOk result (ListsUsers self.now a b out.old.items out.new.items) }
    {
        self.tables.push_users(a, b, out)
    }

    /// The numbers of the rings that have a segment of this vertex, each once, where all rings go on
    /// there along one border; `None` where they may part. Takes no memory.
    pub fn users_around(&self, a: VertexKey) -> Option<&[usize]>
        ensures { IfSome result (λ found. (b r : ℕ) → HasSegment self.now a b r
            → ListsUsers self.now a b [] found.now) }
    {
        self.tables.users_around(a)
    }

    /// Appends the numbers of the rings that have a segment in common with ring `r`, itself among them,
    /// some perhaps several times; none where no such ring is held. Fails only on allocation failure;
    /// some of them may then have been appended.
    pub fn push_sharing<B: Allocator>(
        &self,
        r: usize,
        out: &mut Vec<usize, B>,
    ) -> Result<(), AllocError>
        ensures { OnOk result (ListsSharing self.now r out.old.items out.new.items) }
    {
        self.tables.push_sharing(r, out)
    }

    /// Appends the keys of a ring that is held, in order. Fails only on allocation failure; some of the
    /// keys may then have been appended.
    pub fn push_keys<B: Allocator>(
        &self,
        r: usize,
        out: &mut Vec<VertexKey, B>,
    ) -> Result<(), AllocError>
        requires { map.contains_key self.now r ≡ true }
        ensures { OnOk result
            (IfSome (map.get self.now r) (λ es. out.new.items ≡ out.old.items ++ begins es)) }
    {
        push_ring_keys(&self.tables, r, out)
    }

    /// Puts vertex `q`, which no ring has, between `a` and `b` in every ring that has their segment.
    /// Fails only on allocation failure.
    pub fn insert(&mut self, a: VertexKey, b: VertexKey, q: VertexKey) -> Result<(), AllocError>
        requires unjoined { (x : ℕ) → ¬ Joined self.old q x }
        requires apart { AreApart a b q }
        ensures ok { OnOk result ((r : ℕ) → map.get self.new r
            ≡ option_map (through a b q) (map.get self.old r)) }
        ensures err { OnErr result (self.new ≡ self.old) }
    {
        self.tables.insert(a, b, q)
    }

    /// Puts these vertices, which no ring has, each between its two in every ring that has their
    /// segment, one after the other, and says how many positions the rings gain. Fails only on
    /// allocation failure, and then nothing has changed.
    pub fn insert_all(&mut self, puts: &[Put]) -> Result<usize, AllocError>
        requires fits { ArePuts (λ q. (x : ℕ) → ¬ Joined self.old q x) puts.now }
        requires few { gained puts.now (map.values self.old) < 2 ^ 64 }
        ensures count { IfOk result (λ n. n ≡ gained puts.now (map.values self.old)) }
        ensures ok { OnOk result ((r : ℕ) → map.get self.new r
            ≡ option_map (throughs puts.now) (map.get self.old r)) }
        ensures err { OnErr result (self.new ≡ self.old) }
    {
        self.tables.insert_all(puts)
    }

    /// Takes vertex `p`, whose neighbours are `a` and `b` in every ring that has it, out of every ring.
    /// Fails only on allocation failure.
    pub fn remove(&mut self, p: VertexKey, a: VertexKey, b: VertexKey) -> Result<(), AllocError>
        requires between { (x : ℕ) → Joined self.old p x → (x ≡ a) ⊎ (x ≡ b) }
        requires unjoined { ¬ Joined self.old a b }
        requires apart { AreApart a b p }
        ensures ok { OnOk result ((r : ℕ) → map.get self.new r
            ≡ option_map (collapsed p b) (map.get self.old r)) }
        ensures err { OnErr result (self.new ≡ self.old) }
    {
        self.tables.remove(p, b)
    }

    /// The same rings under the same numbers. Fails only on allocation failure.
    pub fn copy(&self) -> Result<Borders<A>, AllocError>
        ensures { IfOk result (λ copy. copy ≡ self.now) }
    {
        let tables = self.tables.copy()?;
        Ok(Borders { tables })
    }
}
