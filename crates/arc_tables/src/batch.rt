//! Putting many vertices into the arcs, all or none.
ghost use Rattle.std.specs.Prelude.{◌≡◌, ◌≢◌, ℕ, ◌≤◌, ◌<◌, ◌^◌, OnOk, OnErr, IfOk};
ghost use Rattle.std.specs.FinMap as rings;
ghost use Rattle.arc_tables.specs.Ways.{Once, links, times};
ghost use Rattle.arc_tables.specs.Edited.{collapsed, IsOff, throughs, taken_back, ArePuts, WerePut, gained};
ghost use Rattle.arc_tables.specs.Sound.{rings_of};
ghost use Rattle.arc_tables.specs.Stores.{path_of, Whole};

use crate::editing::collapse_arc;
use crate::tables::Tables;
use std::alloc::{AllocError, Allocator};
use vertex_index::VertexKey;

/// A vertex that is to come between two.
#[derive(Clone, Copy, Debug, PartialEq, Eq)]
pub struct Put {
    /// One of the two.
    pub a: VertexKey,
    /// The other of the two.
    pub b: VertexKey,
    /// The vertex that is to come between them.
    pub q: VertexKey,
}

impl<A: Allocator + Copy> Tables<A> {
    /// Takes `q`, which has a segment with `b` in every arc that has a segment of it, out again.
    /// Takes no memory.
    fn take_back(&mut self, q: VertexKey, b: VertexKey)
        requires whole { Whole self.old }
        requires once { Once (path_of self.old) }
        requires apart { b ≢ q }
        requires beside { (i x : ℕ) → 1 ≤ times q x (links (path_of self.old i))
            → 1 ≤ times q b (links (path_of self.old i)) }
        ensures ok { (i : ℕ) → links (path_of self.new i)
            ≡ collapsed q b (links (path_of self.old i)) }
        ensures whole { Whole self.new }
        ensures rings { self.new.rings ≡ self.old.rings }
    {
        if let Some(place) = self.find(q, b) {
            collapse_arc(&mut self.arcs, place.arc, q, b);
        }
    }

    /// Takes out again what these puts put in, the last one first. Takes no memory.
    fn take_back_all(&mut self, puts: &[Put])
        requires whole { Whole self.old }
        requires once { Once (path_of self.old) }
        requires put { WerePut puts.now (path_of self.old) }
        ensures ok { (i : ℕ) → links (path_of self.new i)
            ≡ taken_back puts.now (links (path_of self.old i)) }
        ensures whole { Whole self.new }
        ensures once { Once (path_of self.new) }
        ensures rings { self.new.rings ≡ self.old.rings }
    {
        let mut left = puts.len();
        while left > 0 {
            left -= 1;
            let put = puts[left];
            self.take_back(put.q, put.b);
        }
    }

    /// Puts these vertices in, one after the other, each in the one arc that has its segment, and says
    /// how many positions the rings gain. Fails only on allocation failure, and then all are taken out
    /// again.
    pub fn insert_all(&mut self, puts: &[Put]) -> Result<usize, AllocError>
        requires whole { Whole self.old }
        requires once { Once (path_of self.old) }
        requires fits { ArePuts (λ q. (i : ℕ) → IsOff q (links (path_of self.old i))) puts.now }
        requires few { gained puts.now (rings.values (rings_of self.old)) < 2 ^ 64 }
        ensures count { IfOk result (λ n. n ≡ gained puts.now (rings.values (rings_of self.old))) }
        ensures ok { OnOk result ((i : ℕ) → links (path_of self.new i)
            ≡ throughs puts.now (links (path_of self.old i))) }
        ensures err { OnErr result ((i : ℕ) → links (path_of self.new i)
            ≡ links (path_of self.old i)) }
        ensures whole { Whole self.new }
        ensures once { Once (path_of self.new) }
        ensures rings { self.new.rings ≡ self.old.rings }
    {
        let mut count = 0;
        for at in 0..puts.len() {
            let put = puts[at];
            count += self.uses(&mut None, put.a, put.b);
            if let Err(e) = self.insert(put.a, put.b, put.q) {
                self.take_back_all(&puts[..at]);
                return Err(e);
            }
        }
        Ok(count)
    }
}
