// Paths that cut a polygon.
ghost use Rattle.std.specs.Prelude.{◌≡◌, ◌↔◌, ◌≤◌, IsSome, IsTrue, IfSome, IfOk, not, length, map};
ghost use Rattle.grid_geometry.specs.Common.{links};
ghost use Rattle.ring_machine.specs.Common.{is_distinct, segment_of, path_of, positions_of};

use crate::membership::has;
use grid_geometry::{Pos, Seg};
use std::alloc::{AllocError, Allocator};

/// A path from one position over others to a last one.
#[derive(Clone, Copy)]
pub struct Path<'p> {
    /// Where it begins.
    pub first: Pos,
    /// What lies between its ends, in its direction.
    pub inner: &'p [Pos],
    /// Where it ends.
    pub last: Pos,
}

impl<'p> Path<'p> {
    ghost use Rattle.ring_parts.specs.Seen.{path_seen};

    /// The path over these positions; `None` for fewer than two.
    pub fn new(positions: &'p [Pos]) -> Option<Path<'p>>
        ensures exact { IsSome result ↔ (2 ≤ length positions.now) }
        ensures value { IfSome result (λ path. path_seen path ≡ path_of positions.now) }
        ensures positions { IfSome result (λ path. positions_of (path_seen path) ≡ positions.now) }
    {
        match positions {
            [first, inner @ .., last] => Some(Path {
                first: *first,
                inner,
                last: *last,
            }),
            _ => None,
        }
    }
}

/// Whether a position stands twice among these. Each is compared with all after it, so they are to
/// be few, as those of a path are.
#[tactic(auto, using(crate::proofs::PathLists::twice))]
pub fn has_twice(positions: &[Pos]) -> bool
    ensures { result ≡ not (is_distinct positions.now) }
{
    for (place, pos) in positions.iter().enumerate() {
        if has(&positions[place + 1..], *pos) {
            return true;
        }
    }
    false
}

/// The segments of a way that has no position twice, from each position to the next one. Fails only on
/// allocation failure.
pub fn way_segments<A: Allocator + Copy>(
    alloc: A,
    positions: &[Pos],
) -> Result<Vec<Seg, A>, AllocError>
    requires { IsTrue (is_distinct positions.now) }
    ensures { IfOk result (λ found. found.items ≡ map segment_of (links positions.now)) }
{
    let mut segments = Vec::new(alloc);
    let [first, rest @ ..] = positions else {
        return Ok(segments);
    };
    let mut from = *first;
    for to in rest {
        if let Some(s) = Seg::new(from, *to) {
            segments.push(s)?;
        }
        from = *to;
    }
    Ok(segments)
}
