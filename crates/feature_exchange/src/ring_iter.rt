// The positions of a ring, one by one.
ghost use Rattle.std.specs.Prelude.{◌≡◌, ◌<◌, ◌+◌, ◌^◌, ◌⊎◌, ◌∷◌, [], ℕ, List, map, length, drop, true, IfSome, IfNone};
ghost use Rattle.std.specs.Prelude.{Contains};
ghost use Rattle.std.specs.FinMap as table;
ghost use Rattle.std.specs.Iterator.{YieldsFirst, item_count};
ghost use Rattle.ring_machine.specs.Common.{before, least, canonical};
ghost use Rattle.vertex_index.specs.Common.{place};

use grid_geometry::Pos;
use ring_store::RingKeys;
use std::alloc::{Allocator, Global};
use std::marker::Model;
use vertex_index::{VertexKey, Vertices};

/// The positions of a ring that are still to come, where the least one was the first. It is seen as
/// the list of these.
#[derive(Drop)]
pub struct RingIter<'m, A: Allocator + Copy = Global> {
    vertices: &'m Vertices<A>,
    /// All keys of the ring, as the borders have them.
    all: RingKeys<'m, A>,
    /// Those to come before these begin anew.
    rest: RingKeys<'m, A>,
    /// How many positions are to come.
    left: usize,
}

impl<'m, A: Allocator + Copy> Model for RingIter<'m, A> {
    ghost use Rattle.std.specs.Prelude.{List};
    ghost use Rattle.grid_geometry.specs.Position.{Position};
    ghost use Rattle.feature_exchange.specs.RingPlaces.{positions_left, IsAround};

    ghost Value = { List Position };

    ghost view = { λ it. positions_left it.vertices.now it.all it.rest it.left };

    ghost invariant = { λ it. IsAround it.vertices.now it.all it.rest it.left };
}

/// The place of the first key with the least position, where the first key has this position, and
/// how many keys there are.
pub(crate) fn least_place<A: Allocator + Copy>(
    first: Pos,
    rest: RingKeys<'_, A>,
    vertices: &Vertices<A>,
) -> (usize, usize)
    requires placed { (k : ℕ) → Contains rest k → table.contains_key vertices.now k ≡ true }
    requires few { 1 + length rest < 2 ^ 64 }
    ensures place { let ps = map (place vertices.now) rest.entry in
        result.0 ≡ length (before (least first ps) (first ∷ ps)) }
    ensures count { result.1 ≡ 1 + length rest.entry }
{
    let mut lowest = first;
    let mut place = 0usize;
    let mut count = 1usize;
    for k in rest {
        let p = vertices.pos(k);
        if p < lowest {
            lowest = p;
            place = count;
        }
        count += 1;
    }
    (place, count)
}

/// Passes so many keys.
fn skip<A: Allocator + Copy>(keys: &mut RingKeys<'_, A>, count: usize)
    ensures { keys.new ≡ drop count keys.old }
{
    for _ in 0..count {
        keys.next();
    }
}

/// The next key; the first one of the ring after the last one.
fn next_key<'m, A: Allocator + Copy>(
    rest: &mut RingKeys<'m, A>,
    all: &RingKeys<'m, A>,
) -> Option<VertexKey>
    ensures some { IfSome result (λ k.
        (rest.old ≡ k ∷ rest.new) ⊎ ((rest.old ≡ []) × (all.now ≡ k ∷ rest.new))) }
    ensures none { IfNone result ((rest.old ≡ []) × (all.now ≡ [])) }
{
    match rest.next() {
        Some(k) => Some(k),
        None => {
            *rest = all.again();
            rest.next()
        }
    }
}

impl<'m, A: Allocator + Copy> RingIter<'m, A> {
    /// The positions under these keys, from the least one on.
    pub fn begin(all: RingKeys<'m, A>, vertices: &'m Vertices<A>) -> Option<RingIter<'m, A>>
        requires placed { (k : ℕ) → Contains all k → table.contains_key vertices.now k ≡ true }
        requires few { length all < 2 ^ 64 }
        ensures some { IfSome result (λ it. it ≡ canonical (map (place vertices.now) all.entry)) }
        ensures none { IfNone result (all.entry ≡ []) }
    {
        let mut rest = all.again();
        let first = vertices.pos(rest.next()?);
        let (place, left) = least_place(first, rest, vertices);
        let mut rest = all.again();
        skip(&mut rest, place);
        Some(RingIter {
            vertices,
            all,
            rest,
            left,
        })
    }
}

impl<'m, A: Allocator + Copy> Iterator for RingIter<'m, A> {
    type Item = Pos;

    ghost next_gives = { YieldsFirst (λ rest. rest) };

    ghost remaining = { item_count (λ rest. rest) };

    fn next(&mut self) -> Option<Pos> {
        if self.left == 0 {
            return None;
        }
        let k = next_key(&mut self.rest, &self.all)?;
        self.left -= 1;
        Some(self.vertices.pos(k))
    }
}
