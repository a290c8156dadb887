// Which walks are rings.
ghost use Rattle.std.specs.Prelude.{◌≡◌, drop, IfOk};
ghost use Rattle.std.specs.List.{list_all, list_any, zip};
ghost use Rattle.grid_geometry.specs.Common.{position_eq};
ghost use Rattle.ring_parts.specs.Common.{rings_seen};
ghost use Rattle.ring_machine.specs.Ring as machine;
ghost use Rattle.topo_reader.specs.Document as document;

use grid_geometry::Pos;
use std::alloc::{AllocError, Allocator};

/// The least count of positions that a linear ring has (RFC 7946, 3.1.6, without the repeated last
/// position).
pub(crate) const LEAST: usize = 3;

/// Whether two neighbours are equal.
fn has_equal_neighbours(positions: &[Pos]) -> bool
    ensures { result
        ≡ list_any (λ e. position_eq e.0 e.1) (zip positions.now (drop 1 positions.now)) }
{
    positions
        .iter()
        .zip(positions.iter().skip(1))
        .any(|(before, pos)| *before == *pos)
}

/// Whether a walk is a ring, wherever it begins: at least three positions, no two equal. Sorted,
/// equal ones are neighbours.
pub(crate) fn is_simple<A: Allocator + Copy>(alloc: A, walk: &[Pos]) -> Result<bool, AllocError>
    ensures { IfOk result (λ simple. simple ≡ document.is_simple walk.now) }
{
    if walk.len() < LEAST {
        return Ok(false);
    }
    let mut sorted = Vec::from_slice(alloc, walk)?;
    sorted.sort_unstable();
    Ok(!has_equal_neighbours(sorted.as_slice()))
}

/// Whether all walks are rings.
pub fn all_simple<A: Allocator + Copy>(alloc: A, walks: &[Vec<Pos, A>]) -> Result<bool, AllocError>
    ensures { IfOk result
        (λ simple. simple ≡ list_all document.is_simple (rings_seen walks.now)) }
{
    for walk in walks {
        if !is_simple(alloc, walk.as_slice())? {
            return Ok(false);
        }
    }
    Ok(true)
}

/// Whether the first position is less than each of the others.
fn begins_least(ring: &[Pos]) -> bool
    ensures { result ≡ machine.begins_least ring.now }
{
    let [first, rest @ ..] = ring else {
        return false;
    };
    for pos in rest {
        if !(*first < *pos) {
            return false;
        }
    }
    true
}

/// Whether all are rings, each begun at its least position.
pub(crate) fn are_rings<A: Allocator + Copy>(
    alloc: A,
    rings: &[Vec<Pos, A>],
) -> Result<bool, AllocError>
    ensures { IfOk result (λ are. are ≡ list_all machine.is_ring (rings_seen rings.now)) }
{
    for ring in rings {
        if !begins_least(ring.as_slice()) || !is_simple(alloc, ring.as_slice())? {
            return Ok(false);
        }
    }
    Ok(true)
}
