// The rings of features without the vertices that lie within a straight side.
use crate::areas::is_clockwise;
use grid_geometry::{Pos, Seg, on};
use ring_parts::begin_at_least;
use std::alloc::{AllocError, Allocator};

/// Polygons by feature.
pub type Features<A> = Vec<Vec<Vec<Vec<Pos, A>, A>, A>, A>;

/// Whether a position lies on the straight way between two others.
fn is_within(from: Pos, at: Pos, to: Pos) -> bool {
    match Seg::new(from, to) {
        Some(side) => on(at, side),
        None => false,
    }
}

/// The corners of a ring, counter-clockwise from the least.
fn corners<A: Allocator + Copy>(alloc: A, ring: &[Pos]) -> Result<Vec<Pos, A>, AllocError> {
    let mut corners = Vec::new(alloc);
    let [.., first, second] = ring else {
        return Ok(corners);
    };
    let (mut from, mut at) = (*first, *second);
    for to in ring {
        if !is_within(from, at, *to) {
            corners.push(at)?;
        }
        (from, at) = (at, *to);
    }
    if is_clockwise(corners.as_slice()) {
        corners.reverse();
    }
    begin_at_least(&mut corners);
    Ok(corners)
}

/// Sorts the holes of a polygon.
fn sort_holes<A: Allocator + Copy>(rings: &mut [Vec<Pos, A>]) {
    if 1 < rings.len() {
        rings[1..].sort_unstable();
    }
}

/// Appends the corners of rings.
fn push_corners<A: Allocator + Copy>(
    straight: &mut Vec<Vec<Pos, A>, A>,
    alloc: A,
    rings: &[Vec<Pos, A>],
) -> Result<(), AllocError> {
    for ring in rings {
        straight.push(corners(alloc, ring.as_slice())?)?;
    }
    Ok(())
}

/// A polygon with the corners of its rings alone, its holes in ascending order.
fn straight_rings<A: Allocator + Copy>(
    alloc: A,
    rings: &[Vec<Pos, A>],
) -> Result<Vec<Vec<Pos, A>, A>, AllocError> {
    let mut straight = Vec::new(alloc);
    push_corners(&mut straight, alloc, rings)?;
    sort_holes(straight.as_mut_slice());
    Ok(straight)
}

/// Appends polygons with corners alone.
fn push_straight<A: Allocator + Copy>(
    straight: &mut Vec<Vec<Vec<Pos, A>, A>, A>,
    alloc: A,
    polygons: &[Vec<Vec<Pos, A>, A>],
) -> Result<(), AllocError> {
    for rings in polygons {
        straight.push(straight_rings(alloc, rings.as_slice())?)?;
    }
    Ok(())
}

/// The polygons of a feature with corners alone, in ascending order: the same for the same region.
fn straight_polygons<A: Allocator + Copy>(
    alloc: A,
    polygons: &[Vec<Vec<Pos, A>, A>],
) -> Result<Vec<Vec<Vec<Pos, A>, A>, A>, AllocError> {
    let mut straight = Vec::new(alloc);
    push_straight(&mut straight, alloc, polygons)?;
    straight.sort_unstable();
    Ok(straight)
}

/// The polygons of features with corners alone.
pub fn straight_features<A: Allocator + Copy>(
    alloc: A,
    features: &[Vec<Vec<Vec<Pos, A>, A>, A>],
) -> Result<Features<A>, AllocError> {
    let mut straight = Vec::new(alloc);
    for polygons in features {
        straight.push(straight_polygons(alloc, polygons.as_slice())?)?;
    }
    Ok(straight)
}
