// Stretches of a ring, and the parts that they form with a path.
ghost use Rattle.std.specs.Prelude.{◌≡◌, IfOk};
ghost use Rattle.ring_machine.specs.Common.{stretch};
ghost use Rattle.ring_machine.specs.Cut as machine;
ghost use Rattle.ring_parts.specs.Seen.{path_seen};

use crate::paths::Path;
use crate::rotation::count_before;
use grid_geometry::Pos;
use std::alloc::{AllocError, Allocator};

/// The positions of the ring from `from` to `to`, both included, in the ring's direction.
fn stretch<A: Allocator + Copy>(
    alloc: A,
    ring: &[Pos],
    from: Pos,
    to: Pos,
) -> Result<Vec<Pos, A>, AllocError>
    ensures { IfOk result (λ way. way.items ≡ stretch from to ring.now) }
{
    let place = count_before(from, ring);
    let mut way = Vec::with_capacity(alloc, ring.len().saturating_add(1))?;
    way.extend_from_slice(&ring[place..])?;
    way.extend_from_slice(&ring[..place])?;
    let count = count_before(to, way.as_slice());
    way.truncate(count);
    way.push(to)?;
    Ok(way)
}

/// The outer ring from the path's first position to its last, then the path backwards.
pub fn first_part<A: Allocator + Copy>(
    alloc: A,
    outer: &[Pos],
    path: &Path<'_>,
) -> Result<Vec<Pos, A>, AllocError>
    ensures { IfOk result (λ part. part.items ≡ machine.first_part outer.now (path_seen path.now)) }
{
    let mut part = stretch(alloc, outer, path.first, path.last)?;
    for pos in path.inner.iter().rev() {
        part.push(*pos)?;
    }
    Ok(part)
}

/// The outer ring from the path's last position on to its first, then the path forwards.
pub fn second_part<A: Allocator + Copy>(
    alloc: A,
    outer: &[Pos],
    path: &Path<'_>,
) -> Result<Vec<Pos, A>, AllocError>
    ensures { IfOk result (λ part. part.items ≡ machine.second_part outer.now (path_seen path.now)) }
{
    let mut part = stretch(alloc, outer, path.last, path.first)?;
    part.extend_from_slice(path.inner)?;
    Ok(part)
}
