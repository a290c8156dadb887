//! Cutting an arc in two, which changes no ring.
ghost use Rattle.std.specs.Prelude.{◌≡◌, ℕ, ◌<◌, ◌≤◌, ◌+◌, OnOk, OnErr, IfOk};
ghost use Rattle.std.specs.Prelude.{Contains, take, drop, length, get_or};
ghost use Rattle.std.specs.List.{flat_map};
ghost use Rattle.slab.specs.Slab.{get, ContainsKey};
ghost use Rattle.arc_tables.specs.Ways.{both_parts, Cuts, Keeps};
ghost use Rattle.arc_tables.specs.declared.arc.NewUses.{NewUses};
ghost use Rattle.arc_tables.specs.Stores.{uses_in, path_of, store};
ghost use Rattle.arc_tables.specs.Stores.{Whole, HasRing, IsPut, Doubles, SameKeys, EndsAt};

use crate::arc::{Arc, NewUses, Ring, Use};
use crate::standing::{note, unlist_moved};
use crate::tables::Tables;
use slab::Slab;
use std::alloc::{AllocError, Allocator};

/// The uses of a ring, where those of arc `i` go on along arc `n`.
fn doubled<A: Allocator + Copy>(
    alloc: A,
    uses: &[Use],
    i: usize,
    n: usize,
) -> Result<Vec<Use, A>, AllocError>
    ensures { IfOk result (λ v. v.items ≡ flat_map (both_parts i n) uses.now) }
{
    let mut more = Vec::new(alloc);
    for u in uses {
        if u.arc == i {
            let (first, second) = if u.back { (n, i) } else { (i, n) };
            more.push(Use { arc: first, ..*u })?;
            more.push(Use { arc: second, ..*u })?;
        } else {
            more.push(*u)?;
        }
    }
    Ok(more)
}

/// New uses for each of the rings.
fn plan_uses<A: Allocator + Copy>(
    alloc: A,
    rings: &Slab<Ring<A>, A>,
    users: &[usize],
    i: usize,
    n: usize,
) -> Result<Vec<NewUses<A>, A>, AllocError>
    ensures each { IfOk result
        (λ v. (e : NewUses _) → Contains v.items e → Doubles rings.now i n e) }
    ensures all { IfOk result
        (λ v. (r : ℕ) → Contains users.now r → ContainsKey rings.now r → HasRing v.items r) }
{
    let mut news = Vec::new(alloc);
    for r in users {
        if let Some(ring) = rings.get(*r) {
            let uses = doubled(alloc, ring.uses.as_slice(), i, n)?;
            news.push(NewUses { ring: *r, uses })?;
        }
    }
    Ok(news)
}

/// Gives rings their new uses.
fn put_uses<A: Allocator + Copy>(rings: &mut Slab<Ring<A>, A>, mut news: Vec<NewUses<A>, A>)
    requires { (e : NewUses _) → Contains news.items e → ContainsKey rings.old e.ring }
    ensures put { (r : ℕ)
        → IsPut news.items r (uses_in (get rings.old r)) (uses_in (get rings.new r)) }
    ensures held { SameKeys rings.old rings.new }
{
    while let Some(new) = news.pop() {
        if let Some(ring) = rings.get_mut(new.ring) {
            ring.uses = new.uses;
        }
    }
}

impl<A: Allocator + Copy> Tables<A> {
    /// Cuts arc `i` at its inner place `at`: a new arc goes on from there.
    pub(crate) fn cut(&mut self, i: usize, at: usize) -> Result<usize, AllocError>
        requires there { ContainsKey self.old.arcs i }
        requires inner { at < length (path_of self.old i) }
        requires whole { Whole self.old }
        ensures new_there { IfOk result (λ n. ContainsKey self.new.arcs n) }
        ensures ok { IfOk result (λ n. Cuts i n (take at (path_of self.old i))
            (get_or (path_of self.old i) at 0) (drop (at + 1) (path_of self.old i))
            (store self.old) (store self.new)) }
        ensures whole { Whole self.new }
        ensures arcs_there { (j : ℕ) → ContainsKey self.old.arcs j → ContainsKey self.new.arcs j }
        ensures held { SameKeys self.old.rings self.new.rings }
        ensures err { OnErr result ((j : ℕ) → get self.new.arcs j ≡ get self.old.arcs j) }
        ensures err_rings { OnErr result (self.new.rings ≡ self.old.rings) }
    {
        self.arcs.reserve(1)?;
        let n = self.arcs.vacant_key();
        let arc = self.arcs.get(i).unwrap();
        let tail = Vec::from_slice(self.alloc, &arc.keys[at..])?;
        let users = arc.rings.clone()?;
        let news = plan_uses(self.alloc, &self.rings, users.as_slice(), i, n)?;
        note(self.heap, &mut self.stands, tail.as_slice(), n)?;
        let arc = self.arcs.get_mut(i).unwrap();
        arc.keys.truncate(at + 1);
        unlist_moved(&mut self.stands, arc.keys.as_slice(), tail.as_slice(), i);
        self.arcs.insert_reserved(Arc {
            keys: tail,
            rings: users,
        });
        put_uses(&mut self.rings, news);
        Ok(n)
    }

    /// Arc `i` ends after its first `m` keys, and a new arc goes on from there.
    pub(crate) fn end_at(&mut self, i: usize, m: usize) -> Result<(), AllocError>
        requires there { ContainsKey self.old.arcs i }
        requires whole { Whole self.old }
        requires some { 1 ≤ m }
        ensures ok { OnOk result (EndsAt self.old self.new i m) }
        ensures err { OnErr result (Keeps (store self.old) (store self.new)) }
        ensures whole { Whole self.new }
        ensures arcs_there { (j : ℕ) → ContainsKey self.old.arcs j → ContainsKey self.new.arcs j }
        ensures held { SameKeys self.old.rings self.new.rings }
    {
        let len = self.arcs.get(i).unwrap().keys.len();
        if len <= m {
            return Ok(());
        }
        self.cut(i, m - 1)?;
        Ok(())
    }

    /// Arc `i`, or the rest of it from its place `at` on.
    pub(crate) fn begin_at(&mut self, i: usize, at: usize) -> Result<usize, AllocError>
        requires there { ContainsKey self.old.arcs i }
        requires whole { Whole self.old }
        requires inner { at < length (path_of self.old i) }
        ensures ok { IfOk result (λ n. path_of self.new n ≡ drop at (path_of self.old i)) }
        ensures new_there { IfOk result (λ n. ContainsKey self.new.arcs n) }
        ensures keeps { Keeps (store self.old) (store self.new) }
        ensures whole { Whole self.new }
        ensures held { SameKeys self.old.rings self.new.rings }
    {
        if at == 0 {
            return Ok(i);
        }
        self.cut(i, at)
    }
}
