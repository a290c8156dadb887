// The segments that two rings have in common, and what else they have.
ghost use Rattle.std.specs.Prelude.{◌≡◌, Bool, IfOk, map};
ghost use Rattle.std.specs.List.{filter, list_any, list_all};
ghost use Rattle.std.specs.List.Sorted.{IsSorted};
ghost use Rattle.grid_geometry.specs.Common.{Edge, edges};
ghost use Rattle.ring_machine.specs.Join as spec;
ghost use Rattle.ring_machine.specs.Common.{is_common};
ghost use Rattle.ring_parts.specs.Borders.{begins, ends_of, edge_cmp, is_shared, run_ends, shared_ends};

use crate::edges::{edges, ends};
use crate::membership::{Members, has_sorted};
use crate::sides::Border;
use grid_geometry::Pos;
use std::alloc::{AllocError, Allocator};

/// The ends of each edge whose segment is one of the ring, the lesser one first.
fn common_ends<A: Allocator + Copy>(
    alloc: A,
    edges: &[(Pos, Pos)],
    other: &Border<'_, A>,
) -> Result<Vec<(Pos, Pos), A>, AllocError>
    ensures { IfOk result
        (λ found. found.items ≡ map ends_of (filter (is_common other.now.ring.now) edges.now)) }
{
    let common = edges.iter().copied().filter(|edge| other.has(*edge));
    common.map(|edge| ends(edge)).collect(alloc)
}

/// Two rings, and beside them the segments that both have, sorted: where they are neighbours, a few.
#[derive(Drop)]
pub struct SharedSides<'r, A: Allocator> {
    pub(crate) first: &'r [Pos],
    pub(crate) second: &'r [Pos],
    sides: Vec<(Pos, Pos), A>,
    ghost ascending: { IsSorted edge_cmp sides.items },
    ghost same: { (test : Edge → Bool) → list_any test sides.items
        ≡ list_any test (shared_ends first.now second.now) },
}

impl<'r, A: Allocator + Copy> SharedSides<'r, A> {
    /// What the two rings have in common. Fails only on allocation failure.
    pub fn new(
        alloc: A,
        first: &'r [Pos],
        second: &'r [Pos],
    ) -> Result<SharedSides<'r, A>, AllocError>
        ensures first { IfOk result (λ shared. shared.first.now ≡ first.now) }
        ensures second { IfOk result (λ shared. shared.second.now ≡ second.now) }
    {
        let other = Border::new(alloc, second)?;
        let edges = edges(alloc, first)?;
        let mut sides = common_ends(alloc, edges.as_slice(), &other)?;
        sides.sort_unstable();
        Ok(SharedSides {
            first,
            second,
            sides,
        })
    }

    /// Whether the segment of an edge is one of both rings.
    pub(crate) fn has(&self, edge: (Pos, Pos)) -> bool
        ensures { result ≡ is_shared self.now.first.now self.now.second.now edge }
    {
        has_sorted(self.sides.as_slice(), &ends(edge))
    }
}

/// Whether the rings have a segment in common.
pub fn has_common<A: Allocator + Copy>(shared: &SharedSides<'_, A>) -> bool
    ensures { result
        ≡ list_any (is_common shared.now.second.now) (edges shared.now.first.now) }
{
    !shared.sides.as_slice().is_empty()
}

/// For each edge, whether its segment is one of both rings.
fn tested<A: Allocator + Copy>(
    alloc: A,
    edges: &[(Pos, Pos)],
    shared: &SharedSides<'_, A>,
) -> Result<Vec<bool, A>, AllocError>
    ensures { IfOk result
        (λ common. common.items
        ≡ map (is_shared shared.now.first.now shared.now.second.now) edges.now) }
{
    edges.iter().map(|edge| shared.has(*edge)).collect(alloc)
}

/// For each edge of a list of positions, taken as a ring, whether its segment is one of both rings.
pub(crate) fn shared_edges<A: Allocator + Copy>(
    alloc: A,
    ring: &[Pos],
    shared: &SharedSides<'_, A>,
) -> Result<Vec<bool, A>, AllocError>
    ensures { IfOk result
        (λ common. common.items
        ≡ map (is_shared shared.now.first.now shared.now.second.now) (edges ring.now)) }
{
    let edges = edges(alloc, ring)?;
    tested(alloc, edges.as_slice(), shared)
}

/// Whether all of them pass.
pub(crate) fn all_pass(common: &[bool]) -> bool
    ensures { result ≡ list_all (λ b. b) common.now }
{
    common.iter().all(|one| *one)
}

/// How many pass after one that does not, the first after the last.
#[tactic(auto, using(crate::proofs::Counted::steps))]
fn count_begins(common: &[bool]) -> usize
    ensures { result ≡ begins common.now }
{
    let [first, rest @ ..] = common else {
        return 0;
    };
    let mut count = 0;
    let mut before = *first;
    for one in rest {
        if !before && *one {
            count += 1;
        }
        before = *one;
    }
    if !before && *first { count + 1 } else { count }
}

/// How many runs the common segments form in the first ring: all its edges are one run, else there
/// is one for each common edge after one that is not.
pub fn runs<A: Allocator + Copy>(alloc: A, shared: &SharedSides<'_, A>) -> Result<usize, AllocError>
    ensures { IfOk result
        (λ count. count
        ≡ spec.runs (is_common shared.now.second.now) (edges shared.now.first.now)) }
{
    let common = shared_edges(alloc, shared.first, shared)?;
    if all_pass(common.as_slice()) {
        Ok(1)
    } else {
        Ok(count_begins(common.as_slice()))
    }
}

/// Both ends of each edge whose segment is one of both rings.
#[tactic(auto, using(crate::proofs::RunEnds::end_steps))]
fn run_ends<A: Allocator + Copy>(
    alloc: A,
    edges: &[(Pos, Pos)],
    shared: &SharedSides<'_, A>,
) -> Result<Vec<Pos, A>, AllocError>
    ensures { IfOk result
        (λ ends. ends.items
        ≡ run_ends (is_shared shared.now.first.now shared.now.second.now) edges.now) }
{
    let mut ends = Vec::new(alloc);
    for edge in edges {
        if shared.has(*edge) {
            ends.push(edge.0)?;
            ends.push(edge.1)?;
        }
    }
    Ok(ends)
}

/// The least position of both rings that is no end of a common segment.
pub fn common_else<A: Allocator + Copy>(
    alloc: A,
    shared: &SharedSides<'_, A>,
) -> Result<Option<Pos>, AllocError>
    ensures { IfOk result
        (λ p. p ≡ spec.common_else shared.now.first.now shared.now.second.now) }
{
    let edges = edges(alloc, shared.first)?;
    let ends = run_ends(alloc, edges.as_slice(), shared)?;
    let run = Members::new(alloc, ends.as_slice())?;
    let other = Members::new(alloc, shared.second)?;
    let both = shared
        .first
        .iter()
        .copied()
        .filter(|p| other.has(*p) && !run.has(*p));
    Ok(both.reduce(|q, p| if p < q { p } else { q }))
}
