// The walks that are short, and the positions that a walk passes more than once.
ghost use Rattle.std.specs.Prelude.{◌≡◌, ◌<◌, ◌≤◌, ◌+◌, ◌++◌, map, length, IfOk, IfErr, OnOk};
ghost use Rattle.std.specs.List.{filter};
ghost use Rattle.grid_geometry.specs.Common.{position_eq, links};
ghost use Rattle.walk_faults.specs.Findings as spec;
ghost use Rattle.walk_faults.specs.Findings.{OnlyIfMany, repeat_at, short_walks, all_repeats};
ghost use Rattle.walk_faults.specs.Seen.{walk_seen};

use crate::findings::{FindFault, Repeat, push_at_most};
use crate::gathered::sort_positions;
use crate::walks::Walk;
use grid_geometry::Pos;
use std::alloc::{AllocError, Allocator};
use topo_outline::RingAt;

/// The least count of positions that a linear ring has (RFC 7946, 3.1.6, without the repeated last
/// position).
const LEAST: usize = 3;

/// The walks of fewer than three positions.
pub(crate) fn short<A: Allocator + Copy>(
    alloc: A,
    walks: &[Walk<'_>],
    most: usize,
) -> Result<Vec<RingAt, A>, FindFault>
    ensures found { IfOk result (λ found. found.items ≡ short_walks (map walk_seen walks.now)) }
    ensures few { IfOk result (λ found. length found.items ≤ most) }
    ensures fault { IfErr result
        (OnlyIfMany (most < length (short_walks (map walk_seen walks.now)))) }
{
    let mut found = Vec::new(alloc);
    for walk in walks {
        if walk.positions.len() < LEAST {
            push_at_most(&mut found, walk.at, most)?;
        }
    }
    Ok(found)
}

/// Of each two equal neighbours one.
fn equal_neighbours<A: Allocator + Copy>(
    alloc: A,
    sorted: &[Pos],
) -> Result<Vec<Pos, A>, AllocError>
    ensures { IfOk result (λ found. found.items
        ≡ map (λ e. e.1) (filter (λ e. position_eq e.0 e.1) (links sorted.now))) }
{
    let mut found = Vec::new(alloc);
    let [first, rest @ ..] = sorted else {
        return Ok(found);
    };
    let mut before = *first;
    for p in rest {
        if before == *p {
            found.push(*p)?;
        }
        before = *p;
    }
    Ok(found)
}

/// The positions that stand more than once, ascending, each once.
fn repeated<A: Allocator + Copy>(alloc: A, walk: &[Pos]) -> Result<Vec<Pos, A>, AllocError>
    ensures { IfOk result (λ found. found.items ≡ spec.repeated walk.now) }
{
    let mut sorted = Vec::from_slice(alloc, walk)?;
    sorted.sort_unstable();
    let mut found = equal_neighbours(alloc, sorted.as_slice())?;
    // it ascends already: only what stands there again goes
    sort_positions(&mut found);
    Ok(found)
}

/// Appends the positions as those that the walk passes more than once.
fn push_repeats<A: Allocator + Copy>(
    out: &mut Vec<Repeat, A>,
    ring: RingAt,
    positions: &[Pos],
    most: usize,
) -> Result<(), FindFault>
    ensures pushed { OnOk result
        (out.new.items ≡ out.old.items ++ map (repeat_at ring) positions.now) }
    ensures few { length out.old.items ≤ most → OnOk result (length out.new.items ≤ most) }
    ensures fault { IfErr result (OnlyIfMany (most < length out.old.items + length positions.now)) }
{
    for pos in positions {
        push_at_most(out, Repeat { ring, pos: *pos }, most)?;
    }
    Ok(())
}

/// The positions that a walk passes more than once.
pub(crate) fn repeats<A: Allocator + Copy>(
    alloc: A,
    walks: &[Walk<'_>],
    most: usize,
) -> Result<Vec<Repeat, A>, FindFault>
    ensures found { IfOk result (λ found. found.items ≡ all_repeats (map walk_seen walks.now)) }
    ensures few { IfOk result (λ found. length found.items ≤ most) }
    ensures fault { IfErr result
        (OnlyIfMany (most < length (all_repeats (map walk_seen walks.now)))) }
{
    let mut found = Vec::new(alloc);
    for walk in walks {
        let positions = repeated(alloc, walk.positions)?;
        push_repeats(&mut found, walk.at, positions.as_slice(), most)?;
    }
    Ok(found)
}
