// Rings that were there before.
use crate::simple::is_simple;
use grid_geometry::Pos;
use ring_parts::{begin_at_least, canonical};
use std::alloc::{AllocError, Allocator};

/// The walks that are rings, each begun at its least position, ascending.
pub(crate) fn old_rings<A: Allocator + Copy>(
    alloc: A,
    walks: &[Vec<Pos, A>],
) -> Result<Vec<Vec<Pos, A>, A>, AllocError> {
    let mut old = Vec::new(alloc);
    for walk in walks {
        if is_simple(alloc, walk.as_slice())? {
            old.push(canonical(alloc, walk.as_slice())?)?;
        }
    }
    old.sort_unstable();
    Ok(old)
}

/// The ring the other way round, begun at its least position.
pub(crate) fn turned<A: Allocator + Copy>(
    alloc: A,
    ring: &[Pos],
) -> Result<Vec<Pos, A>, AllocError> {
    let mut turned = Vec::from_slice(alloc, ring)?;
    turned.reverse();
    begin_at_least(&mut turned);
    Ok(turned)
}
