//! The vertices of a map: distinct positions, each under a key that stays when the position
//! changes.
//!
//! Each call takes time that does not grow with the number of vertices, but for `copy`, and for
//! `add`, `key_or_add` and `shift` where they grow a table.
#![tactic(auto)]

ghost use Rattle.std.specs.Prelude.{◌≡◌, ◌≢◌, ◌↔◌, ℕ, Some, None, Err, true, false};
ghost use Rattle.std.specs.Prelude.{IfSome, IfNone, IfOk, OnOk, OnErr};
ghost use Rattle.std.specs.Ordering.{nat_cmp};
ghost use Rattle.std.specs.FinMap as map;
ghost use Rattle.grid_geometry.specs.Common.{Position};
ghost use Rattle.vertex_index.specs.Placement.{IsOccupied, AreDistinct, AreInRange, ArePlaces};
ghost use Rattle.vertex_index.specs.Put.{IsHere, IsNew};
ghost use Rattle.vertex_index.specs.declared.fault.AddFault.{AddFault};
ghost use Rattle.vertex_index.specs.declared.fault.ShiftFault.{ShiftFault};

mod fault;
mod key;
mod slot;

pub use fault::{AddFault, ShiftFault};
use grid_geometry::Pos;
use indexmap::IndexMap;
use indexmap::map::Entry;
pub use key::VertexKey;
use slab::Slab;
use slot::Slot;
use std::alloc::{AllocError, Allocator, Global};
use std::cell::Cell;
use std::hash::RandomState;
use std::marker::Model;

/// The key of each position.
type Keys<A> = IndexMap<Pos, VertexKey, RandomState, A>;

/// Distinct positions, each under a key. It is seen as the map from keys to positions.
#[derive(Drop)]
pub struct Vertices<A: Allocator + Copy = Global> {
    slots: Slab<Slot, A>,
    keys: Keys<A>,
    /// The slot of the vertex that was found by its position, put or moved last, so that who asks for it
    /// again has it without a hash. No answer depends on it.
    last: Cell<usize>,
}

impl<A: Allocator + Copy> Model for Vertices<A> {
    ghost use Rattle.std.specs.Coded.{coded_ℕ};
    ghost use Rattle.std.specs.FinMap as map;
    ghost use Rattle.vertex_index.specs.Placement.{Placement, position_code};

    ghost Value = { Placement };

    ghost coded = { map.code coded_ℕ position_code };

    ghost use Rattle.vertex_index.specs.Mirrors.{placement_of, positions, Mirrors};
    ghost use Rattle.vertex_index.specs.Places.{AreInPlace};

    ghost view = { λ v. placement_of (positions v.slots.slots) };

    ghost invariant = { λ v. Mirrors (positions v.slots.slots) v.keys.entries × AreInPlace v.slots.slots v.keys.entries };
}

impl<A: Allocator + Copy> Vertices<A> {
    /// No vertex, and the seed by which positions are hashed. Takes no memory.
    pub fn new(alloc: A, seed: RandomState) -> Self
        ensures { result ≡ map.empty }
    {
        Vertices {
            slots: Slab::new(alloc),
            keys: IndexMap::with_hasher(alloc, seed),
            last: Cell::new(0),
        }
    }

    /// No vertex, with room for so many, and the seed by which positions are hashed. Fails only on
    /// allocation failure.
    pub fn with_room(alloc: A, seed: RandomState, count: usize) -> Result<Self, AllocError>
        ensures { IfOk result (λ vertices. vertices ≡ map.empty) }
    {
        let slots = Slab::with_capacity(alloc, count)?;
        let keys = IndexMap::with_capacity_and_hasher(alloc, count, seed)?;
        Ok(Vertices {
            slots,
            keys,
            last: Cell::new(0),
        })
    }

    /// The seed by which positions are hashed.
    pub fn seed(&self) -> RandomState {
        *self.keys.hasher()
    }

    /// How many vertices there are.
    pub fn len(&self) -> usize
        ensures len { result ≡ map.len self.now }
        ensures distinct { AreDistinct self.now }
        ensures range { AreInRange self.now }
    {
        self.slots.len()
    }

    /// The key of the vertex at a position; `None` where there is no vertex.
    pub fn key_of(&self, p: Pos) -> Option<VertexKey>
        ensures found { IfSome result (λ k. map.get self.now k ≡ Some p) }
        ensures absent { IfNone result ((k : ℕ) → map.get self.now k ≢ Some p) }
        ensures distinct { AreDistinct self.now }
    {
        let last = self.last.get();
        if self.stands(last, p) {
            return Some(VertexKey::new(last));
        }
        let key = self.looked_up(p)?;
        self.last.set(key.index());
        Some(key)
    }

    /// The same, by the hash of the position.
    fn looked_up(&self, p: Pos) -> Option<VertexKey>
        ensures found { IfSome result (λ k. map.get self.now k ≡ Some p) }
        ensures absent { IfNone result ((k : ℕ) → map.get self.now k ≢ Some p) }
        ensures distinct { AreDistinct self.now }
    {
        self.keys.get(&p).copied()
    }

    /// The same, where the vertex may well be next to another one on a border: the slots beside that
    /// of the other are asked first, and nothing is hashed if the vertex stands in one of them.
    pub fn key_beside(&self, k: VertexKey, p: Pos) -> Option<VertexKey>
        ensures found { IfSome result (λ k. map.get self.now k ≡ Some p) }
        ensures absent { IfNone result ((k : ℕ) → map.get self.now k ≢ Some p) }
    {
        match self.beside(k.index(), p) {
            Some(key) => Some(key),
            None => self.key_of(p),
        }
    }

    /// The position under a key that is held.
    pub fn pos(&self, k: VertexKey) -> Pos
        requires { map.contains_key self.now k ≡ true }
        ensures value { map.get self.now k ≡ Some result }
        ensures distinct { AreDistinct self.now }
    {
        self.slots.get(k.index()).unwrap().pos
    }

    /// The positions of all vertices, in an order that means nothing.
    pub fn positions(&self) -> &[Pos]
        ensures { ArePlaces self.now result.now }
    {
        self.keys.keys().as_slice()
    }

    /// Puts a vertex at a position, under a key that was not held. `Occupied` where a vertex
    /// stands there, and `OutOfMemory` where none does and there is no room for one more.
    pub fn add(&mut self, p: Pos) -> Result<VertexKey, AddFault>
        ensures key { IfOk result (λ k. map.get self.old k ≡ None) }
        ensures new { OnOk result ((k : ℕ) → map.get self.old k ≢ Some p) }
        ensures ok { IfOk result (λ k. self.new ≡ map.insert self.old k p) }
        ensures held { IfOk result (λ k. map.get self.new k ≡ Some p) }
        ensures occupied { result ≡ Err AddFault.Occupied ↔ IsOccupied self.old p }
        ensures err { OnErr result (self.new ≡ self.old) }
    {
        let (key, is_new) = self.put(p)?;
        if !is_new {
            return Err(AddFault::Occupied);
        }
        Ok(key)
    }

    /// The key of the vertex at a position, where one is put if none stands there. Fails only on
    /// allocation failure, and only where none stands.
    pub fn key_or_add(&mut self, p: Pos) -> Result<VertexKey, AllocError>
        ensures found { IfOk result (λ k. (j : ℕ) → map.get self.old j ≡ Some p → k ≡ j) }
        ensures key { IfOk result (λ k. (q : Position) → map.get self.old k ≡ Some q → q ≡ p) }
        ensures ok { IfOk result (λ k. self.new ≡ map.insert self.old k p) }
        ensures held { IfOk result (λ k. map.get self.new k ≡ Some p) }
        ensures distinct { AreDistinct self.new }
        ensures absent { OnErr result ((k : ℕ) → map.get self.old k ≢ Some p) }
        ensures err { OnErr result (self.new ≡ self.old) }
    {
        if let Some(key) = self.beside(self.last.get(), p) {
            self.last.set(key.index());
            return Ok(key);
        }
        let (key, _) = self.put(p)?;
        self.last.set(key.index());
        Ok(key)
    }

    /// The same, and whether the vertex was put. The position is hashed once.
    fn put(&mut self, p: Pos) -> Result<(VertexKey, bool), AllocError>
        ensures there { IfOk result (λ r. r.1 ≡ false → IsHere self.old self.new r.0 p) }
        ensures new { IfOk result (λ r. r.1 ≡ true → IsNew self.old self.new r.0 p) }
        ensures distinct { AreDistinct self.new }
        ensures absent { OnErr result ((k : ℕ) → map.get self.old k ≢ Some p) }
        ensures err { OnErr result (self.new ≡ self.old) }
    {
        let _ = p.x(); // so that it is known to be in range
        let place = self.keys.len();
        match self.keys.entry(p)? {
            Entry::Occupied(held) => Ok((*held.get(), false)),
            Entry::Vacant(room) => {
                self.slots.reserve(1)?;
                let key = VertexKey::new(self.slots.insert_reserved(Slot { pos: p, place }));
                room.insert(key);
                Ok((key, true))
            }
        }
    }

    /// The key of the vertex at a position, if its slot is the one before a slot or the one after it,
    /// as along a border in either direction. Nothing is hashed.
    fn beside(&self, at: usize, p: Pos) -> Option<VertexKey>
        ensures { IfSome result (λ k. map.get self.now k ≡ Some p) }
    {
        if let Some(before) = at.checked_sub(1) {
            if self.stands(before, p) {
                return Some(VertexKey::new(before));
            }
        }
        if let Some(behind) = at.checked_add(1) {
            if self.stands(behind, p) {
                return Some(VertexKey::new(behind));
            }
        }
        None
    }

    /// Whether a slot has the vertex at a position.
    fn stands(&self, at: usize, p: Pos) -> bool
        ensures { result ≡ true → map.get self.now at ≡ Some p }
    {
        match self.slots.get(at) {
            Some(slot) => slot.pos == p,
            None => false,
        }
    }

    /// Moves the vertex of a key that is held to a position. `Occupied` where a vertex stands
    /// there, be it this one, and `OutOfMemory` where none does and there is no room.
    pub fn shift(&mut self, k: VertexKey, q: Pos) -> Result<(), ShiftFault>
        requires { map.contains_key self.old k ≡ true }
        ensures new { OnOk result ((j : ℕ) → map.get self.old j ≢ Some q) }
        ensures ok { OnOk result (self.new ≡ map.insert self.old k q) }
        ensures held { OnOk result (map.get self.new k ≡ Some q) }
        ensures occupied { result ≡ Err ShiftFault.Occupied ↔ IsOccupied self.old q }
        ensures err { OnErr result (self.new ≡ self.old) }
    {
        let _ = q.x(); // so that it is known to be in range
        match self.keys.entry(q) {
            Ok(Entry::Vacant(room)) => room.insert(k),
            Ok(Entry::Occupied(_held)) => return Err(ShiftFault::Occupied),
            Err(_) => return Err(ShiftFault::OutOfMemory),
        };
        let at = k.index();
        self.last.set(at);
        let slot = self.slots.get_mut(at).unwrap();
        slot.pos = q;
        let place = slot.place;
        self.keys.swap_remove_index(place); // the new position, which is the last, takes its place
        Ok(())
    }

    /// Takes out the vertex of a key that is held. `add` may give that key out again.
    pub fn remove(&mut self, k: VertexKey)
        requires { map.contains_key self.old k ≡ true }
        ensures { self.new ≡ map.remove self.old k }
    {
        let gap = self.slots.try_remove(k.index()).unwrap().place;
        self.keys.swap_remove_index(gap);
        let Some((_, moved)) = self.keys.get_index(gap) else {
            return;
        };
        self.slots.get_mut(moved.index()).unwrap().place = gap;
    }

    /// The same positions under the same keys. Fails only on allocation failure.
    pub fn copy(&self) -> Result<Self, AllocError>
        ensures { IfOk result (λ copy. copy ≡ self.now) }
    {
        let slots = self.slots.clone()?;
        let keys = self.keys.clone()?;
        Ok(Vertices {
            slots,
            keys,
            last: Cell::new(self.last.get()),
        })
    }
}
