//! Taking a ring out, which needs no memory.
ghost use Rattle.std.specs.Prelude.{◌≡◌, ◌≢◌, ℕ, ◌≤◌, None, IfSome, length};
ghost use Rattle.slab.specs.Slab.{get, ContainsKey};
ghost use Rattle.arc_tables.specs.Ways.{TakesOut};
ghost use Rattle.arc_tables.specs.Stores.{users_in, without, store, Whole, Listed, StaysOrGoes};

use crate::arc::{Arc, leave_out};
use crate::standing::unlist_all;
use crate::tables::Tables;
use slab::Slab;
use std::alloc::Allocator;

/// Arc `i` forgets ring `r`, and goes where no other ring uses it.
fn forget<A: Allocator + Copy>(arcs: &mut Slab<Arc<A>, A>, i: usize, r: usize) -> Option<Arc<A>>
    ensures stays { StaysOrGoes arcs.old arcs.new i }
    ensures others { (j : ℕ) → j ≢ i → get arcs.new j ≡ get arcs.old j }
    ensures users { users_in (get arcs.new i) ≡ without r (users_in (get arcs.old i)) }
    ensures some { ContainsKey arcs.new i → 1 ≤ length (users_in (get arcs.new i)) }
    ensures gone { IfSome result (λ _. get arcs.new i ≡ None) }
{
    let arc = arcs.get_mut(i)?;
    leave_out(&mut arc.rings, r);
    if arc.rings.is_empty() {
        arcs.try_remove(i)
    } else {
        None
    }
}

impl<A: Allocator + Copy> Tables<A> {
    /// Arc `i` forgets ring `r`, and where no other ring uses it, it goes, also from its vertices.
    fn drop_use(&mut self, i: usize, r: usize)
        ensures stays { StaysOrGoes self.old.arcs self.new.arcs i }
        ensures others { (j : ℕ) → j ≢ i → get self.new.arcs j ≡ get self.old.arcs j }
        ensures users { users_in (get self.new.arcs i) ≡ without r (users_in (get self.old.arcs i)) }
        ensures some { ContainsKey self.new.arcs i → 1 ≤ length (users_in (get self.new.arcs i)) }
        ensures listed { Listed self.old.arcs self.old.stands.items
            → Listed self.new.arcs self.new.stands.items }
        ensures rings { self.new.rings ≡ self.old.rings }
    {
        if let Some(arc) = forget(&mut self.arcs, i, r) {
            unlist_all(&mut self.stands, arc.keys.as_slice(), i);
        }
    }

    /// Takes ring `r` out, and the arcs that no other ring uses.
    pub fn take_out(&mut self, r: usize)
        requires { Whole self.old }
        ensures gone { TakesOut r (store self.old) (store self.new) }
        ensures whole { Whole self.new }
        ensures ring { get self.new.rings r ≡ None }
        ensures others { (k : ℕ) → k ≢ r → get self.new.rings k ≡ get self.old.rings k }
    {
        if let Some(ring) = self.rings.try_remove(r) {
            for u in ring.uses.as_slice() {
                self.drop_use(u.arc, r);
            }
        }
    }
}
