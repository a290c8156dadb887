// Two rings joined along their only common run, and two polygons.
ghost use Rattle.std.specs.Prelude.{◌≡◌, ◌≤◌, ◌++◌, Bool, OnOk, IfOk, not, length, map};
ghost use Rattle.std.specs.List.{prefix_len};
ghost use Rattle.grid_geometry.specs.Common.{Edge, edges};
ghost use Rattle.ring_machine.specs.Join as spec;
ghost use Rattle.ring_parts.specs.Borders.{off_ones};
ghost use Rattle.ring_parts.specs.Merges.{joined_rings, rests};
ghost use Rattle.ring_parts.specs.Seen.{rings_seen};

use crate::rotation::begin_at_least;
use crate::same_sides::{passed_alike, turned};
use crate::shared_sides::{SharedSides, shared_edges};
use grid_geometry::Pos;
use std::alloc::{AllocError, AllocFailed, Allocator};

/// How many there are before the first that passes.
#[tactic(auto, using(crate::proofs::Rests::off_turn, crate::proofs::Rests::off_done))]
fn count_off(common: &[bool]) -> usize
    ensures value { result ≡ prefix_len not common.now }
    ensures within { result ≤ length common.now }
{
    let mut count = 0;
    for one in common {
        if *one {
            return count;
        }
        count += 1;
    }
    count
}

/// Appends the positions whose edges are not common.
fn push_off<A: Allocator + Copy>(
    rest: &mut Vec<Pos, A>,
    ring: &[Pos],
    common: &[bool],
) -> Result<(), AllocFailed<Pos>>
    requires { length common.now ≡ length ring.now }
    ensures { OnOk result (rest.new.items ≡ rest.old.items ++ off_ones ring.now common.now) }
{
    for (place, pos) in ring.iter().enumerate() {
        if !common[place] {
            rest.push(*pos)?;
        }
    }
    Ok(())
}

/// Appends where the edges begin that are off the ring's only run, from the end of the run on, by
/// which of its edges are common.
fn push_rest<A: Allocator + Copy>(
    rest: &mut Vec<Pos, A>,
    alloc: A,
    ring: &[Pos],
    mut common: Vec<bool, A>,
) -> Result<(), AllocError>
    requires { length common.items ≡ length ring.now }
    ensures { OnOk result ((is : Edge → Bool) → common.items ≡ map is (edges ring.now)
        → rest.new.items ≡ rest.old.items ++ map (λ e. e.0) (spec.off_run is (edges ring.now))) }
{
    let mut begun = Vec::from_slice(alloc, ring)?;
    let place = count_off(common.as_slice());
    common.rotate_left(place);
    begun.rotate_left(place);
    push_off(rest, begun.as_slice(), common.as_slice())?;
    Ok(())
}

/// The rest of the first ring, then the rest of the second, which is turned where both pass the run
/// in the same direction.
fn rests<A: Allocator + Copy>(
    alloc: A,
    shared: &SharedSides<'_, A>,
    turns: bool,
) -> Result<Vec<Pos, A>, AllocError>
    ensures { IfOk result
        (λ ring. ring.items ≡ rests shared.now.first.now shared.now.second.now turns) }
{
    let other = turned(alloc, shared.second, turns)?;
    let ones = shared_edges(alloc, shared.first, shared)?;
    let others = shared_edges(alloc, other.as_slice(), shared)?;
    let mut rest = Vec::new(alloc);
    push_rest(&mut rest, alloc, shared.first, ones)?;
    push_rest(&mut rest, alloc, other.as_slice(), others)?;
    Ok(rest)
}

/// The rest of the first ring, then the rest of the second, which is turned where both pass the run
/// in the same direction; begun at its least position.
pub fn joined<A: Allocator + Copy>(
    alloc: A,
    shared: &SharedSides<'_, A>,
) -> Result<Vec<Pos, A>, AllocError>
    ensures { IfOk result
        (λ ring. ring.items ≡ spec.joined shared.now.first.now shared.now.second.now) }
{
    let alike = passed_alike(alloc, shared)?;
    let mut rest = rests(alloc, shared, alike)?;
    begin_at_least(&mut rest);
    Ok(rest)
}

/// Appends these rings, in order. Fails only on allocation failure.
fn push_rings<A: Allocator + Copy>(
    found: &mut Vec<Vec<Pos, A>, A>,
    alloc: A,
    rings: &[Vec<Pos, A>],
) -> Result<(), AllocError>
    ensures { OnOk result
        (rings_seen found.new.items ≡ rings_seen found.old.items ++ rings_seen rings.now) }
{
    for ring in rings {
        found.push(Vec::from_slice(alloc, ring.as_slice())?)?;
    }
    Ok(())
}

/// The rings of two polygons that are joined along the common run of their outer rings: the joined
/// outer ring, then the holes of both. Fails only on allocation failure.
pub fn join_polygons<A: Allocator + Copy>(
    alloc: A,
    one: &[Vec<Pos, A>],
    other: &[Vec<Pos, A>],
) -> Result<Vec<Vec<Pos, A>, A>, AllocError>
    ensures { IfOk result
        (λ rings. rings_seen rings.items ≡ joined_rings (rings_seen one.now) (rings_seen other.now)) }
{
    let mut rings = Vec::new(alloc);
    let [outer, holes @ ..] = one else {
        return Ok(rings);
    };
    let [outer_of_other, more @ ..] = other else {
        return Ok(rings);
    };
    let shared = SharedSides::new(alloc, outer.as_slice(), outer_of_other.as_slice())?;
    rings.push(joined(alloc, &shared)?)?;
    push_rings(&mut rings, alloc, holes)?;
    push_rings(&mut rings, alloc, more)?;
    Ok(rings)
}
