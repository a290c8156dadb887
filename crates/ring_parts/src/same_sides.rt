// Whether the areas of two rings lie on the same side of their common run.
ghost use Rattle.std.specs.Prelude.{◌≡◌, ◌≤◌, IfOk, length, reverse, if◌then◌else◌};
ghost use Rattle.std.specs.List.{list_any};
ghost use Rattle.std.specs.List.Sorted.{IsSorted};
ghost use Rattle.ring_machine.specs.Common.{edge_eq};
ghost use Rattle.ring_machine.specs.Join as spec;
ghost use Rattle.ring_parts.specs.Borders.{edge_cmp, IsEitherWay};

use crate::edges::edges;
use crate::membership::has_sorted;
use crate::shared_sides::{SharedSides, all_pass, shared_edges};
use grid_geometry::{Pos, area2};
use std::alloc::{AllocError, Allocator};

/// Whether an edge is among these, which ascend.
fn has_edge(sorted: &[(Pos, Pos)], edge: (Pos, Pos)) -> bool
    requires { IsSorted edge_cmp sorted.now }
    ensures { result ≡ list_any (edge_eq edge) sorted.now }
{
    has_sorted(sorted, &edge)
}

/// Whether one of the edges is among those that ascend.
fn any_edge(edges: &[(Pos, Pos)], sorted: &[(Pos, Pos)]) -> bool
    requires { IsSorted edge_cmp sorted.now }
    ensures { result ≡ list_any (λ e. list_any (edge_eq e) sorted.now) edges.now }
{
    for edge in edges {
        if has_edge(sorted, *edge) {
            return true;
        }
    }
    false
}

/// Whether the first ring and the second one, each as it is or turned round, pass a common segment in
/// the same direction.
fn alike<A: Allocator + Copy>(
    alloc: A,
    ones: &[Pos],
    others: &[Pos],
    shared: &SharedSides<'_, A>,
) -> Result<bool, AllocError>
    requires first { IsEitherWay shared.now.first.now ones.now }
    requires second { IsEitherWay shared.now.second.now others.now }
    ensures { IfOk result (λ alike. alike ≡ spec.passed_alike ones.now others.now) }
{
    let mut sorted = edges(alloc, others)?;
    sorted.retain(|edge| shared.has(*edge));
    sorted.sort_unstable();
    let edges = edges(alloc, ones)?;
    Ok(any_edge(edges.as_slice(), sorted.as_slice()))
}

/// Whether both rings pass a common segment in the same direction.
pub fn passed_alike<A: Allocator + Copy>(
    alloc: A,
    shared: &SharedSides<'_, A>,
) -> Result<bool, AllocError>
    ensures { IfOk result
        (λ alike. alike ≡ spec.passed_alike shared.now.first.now shared.now.second.now) }
{
    alike(alloc, shared.first, shared.second, shared)
}

/// The ring, turned round where `turns`.
pub(crate) fn turned<A: Allocator + Copy>(
    alloc: A,
    ring: &[Pos],
    turns: bool,
) -> Result<Vec<Pos, A>, AllocError>
    ensures { IfOk result
        (λ turned. turned.items ≡ (if turns then reverse ring.now else ring.now)) }
{
    let mut turned = Vec::from_slice(alloc, ring)?;
    if turns {
        turned.reverse();
    }
    Ok(turned)
}

/// The ring in the direction in which its signed area is at least 0.
fn positive<A: Allocator + Copy>(alloc: A, ring: &[Pos]) -> Result<Vec<Pos, A>, AllocError>
    requires { length ring.now ≤ 1099511627776 }
    ensures { IfOk result (λ turned. turned.items ≡ spec.positive ring.now) }
{
    turned(alloc, ring, area2(ring) < 0)
}

/// Whether each segment of one ring is one of the other.
fn same_segments<A: Allocator + Copy>(
    alloc: A,
    shared: &SharedSides<'_, A>,
) -> Result<bool, AllocError>
    ensures { IfOk result
        (λ same. same ≡ spec.same_segments shared.now.first.now shared.now.second.now) }
{
    let ones = shared_edges(alloc, shared.first, shared)?;
    if !all_pass(ones.as_slice()) {
        return Ok(false);
    }
    let others = shared_edges(alloc, shared.second, shared)?;
    Ok(all_pass(others.as_slice()))
}

/// Whether the areas of both rings lie on the same side of their run.
pub fn same_side<A: Allocator + Copy>(
    alloc: A,
    shared: &SharedSides<'_, A>,
) -> Result<bool, AllocError>
    requires few_first { length shared.now.first.now ≤ 1099511627776 }
    requires few_second { length shared.now.second.now ≤ 1099511627776 }
    ensures { IfOk result
        (λ same. same ≡ spec.same_side shared.now.first.now shared.now.second.now) }
{
    if same_segments(alloc, shared)? {
        return Ok(true);
    }
    let ones = positive(alloc, shared.first)?;
    let others = positive(alloc, shared.second)?;
    alike(alloc, ones.as_slice(), others.as_slice(), shared)
}
