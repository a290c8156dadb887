// The positions of a ring, found by a search.
ghost use Rattle.std.specs.Prelude.{◌≡◌, IfOk};
ghost use Rattle.grid_geometry.specs.Common.{Position, position_cmp};
ghost use Rattle.std.specs.List.{list_any};
ghost use Rattle.std.specs.List.Sorted.{IsSorted};
ghost use Rattle.ring_machine.specs.Ring as machine;
ghost use Rattle.ring_machine.specs.Common.{goes_first};

use grid_geometry::{Pos, inside};
use std::alloc::{AllocError, Allocator};

/// Whether p stands in the ring.
#[tactic(auto, using(crate::proofs::Searching::has_turned))]
pub(crate) fn has(ring: &[Pos], p: Pos) -> bool
    ensures { result ≡ machine.has ring.now p }
{
    ring.contains(&p)
}

/// Whether x is among these, which ascend.
pub(crate) fn has_sorted<T: Ord>(sorted: &[T], x: &T) -> bool
    requires { IsSorted T.cmp sorted.now }
    ensures { result ≡ list_any (λ y. T.eq y x.now) sorted.now }
{
    sorted.binary_search(x).is_ok()
}

/// A ring with its positions sorted beside it.
#[derive(Drop)]
pub struct Members<'r, A: Allocator> {
    ring: &'r [Pos],
    sorted: Vec<Pos, A>,
    ghost ascending: { IsSorted position_cmp sorted.items },
    ghost same: { (p : Position) → machine.has sorted.items p ≡ machine.has ring.now p },
}

impl<'r, A: Allocator + Copy> Members<'r, A> {
    /// The members of a ring.
    pub fn new(alloc: A, ring: &'r [Pos]) -> Result<Members<'r, A>, AllocError>
        ensures { IfOk result (λ members. members.ring.now ≡ ring.now) }
    {
        let mut sorted = Vec::from_slice(alloc, ring)?;
        sorted.sort_unstable();
        Ok(Members { ring, sorted })
    }

    /// Whether p is a position of the ring.
    pub fn has(&self, p: Pos) -> bool
        ensures { result ≡ machine.has self.now.ring.now p }
    {
        has_sorted(self.sorted.as_slice(), &p)
    }

    /// Whether a hole goes with this part: all its positions are of the part, or the least of the
    /// others is inside it.
    pub fn goes_first(&self, hole: &[Pos]) -> bool
        ensures { result ≡ goes_first self.now.ring.now hole.now }
    {
        let off = hole.iter().copied().filter(|p| !self.has(*p));
        match off.reduce(|q, p| if p < q { p } else { q }) {
            None => true,
            Some(w) => inside(w, self.ring),
        }
    }
}
