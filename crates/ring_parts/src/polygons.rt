// The two polygons of one that a path cuts.
ghost use Rattle.std.specs.Prelude.{◌≡◌, ◌++◌, IfOk, OnOk, not};
ghost use Rattle.std.specs.List.{filter};
ghost use Rattle.ring_machine.specs.Cut as spec;
ghost use Rattle.ring_parts.specs.Seen.{path_seen, rings_seen};

use crate::membership::Members;
use crate::paths::Path;
use crate::rotation::canonical;
use crate::stretch::{first_part, second_part};
use grid_geometry::Pos;
use std::alloc::{AllocError, Allocator};

/// Appends the holes that go with the first part to its polygon, and the others to the other one.
/// Where there are no holes the part's positions are not sorted.
fn part_holes<A: Allocator + Copy>(
    alloc: A,
    part: &[Pos],
    holes: &[Vec<Pos, A>],
    ones: &mut Vec<Vec<Pos, A>, A>,
    others: &mut Vec<Vec<Pos, A>, A>,
) -> Result<(), AllocError>
    ensures first { OnOk result
        (rings_seen ones.new.items
        ≡ rings_seen ones.old.items ++ filter (spec.goes_first part.now) (rings_seen holes.now)) }
    ensures second { OnOk result
        (rings_seen others.new.items
        ≡ rings_seen others.old.items
        ++ filter (λ h. not (spec.goes_first part.now h)) (rings_seen holes.now)) }
{
    if holes.is_empty() {
        return Ok(());
    }
    let first = Members::new(alloc, part)?;
    for hole in holes {
        let ring = Vec::from_slice(alloc, hole.as_slice())?;
        if first.goes_first(hole.as_slice()) {
            ones.push(ring)?;
        } else {
            others.push(ring)?;
        }
    }
    Ok(())
}

/// Both parts of a polygon that a path cuts, each with its holes. Fails only on allocation failure.
pub fn both_parts<A: Allocator + Copy>(
    alloc: A,
    path: &Path<'_>,
    polygon: &[Vec<Pos, A>],
) -> Result<(Vec<Vec<Pos, A>, A>, Vec<Vec<Pos, A>, A>), AllocError>
    ensures first { IfOk result (λ parts. rings_seen parts.0.items
        ≡ spec.first_polygon (path_seen path.now) (rings_seen polygon.now)) }
    ensures second { IfOk result (λ parts. rings_seen parts.1.items
        ≡ spec.second_polygon (path_seen path.now) (rings_seen polygon.now)) }
{
    let (mut ones, mut others) = (Vec::new(alloc), Vec::new(alloc));
    let [outer, holes @ ..] = polygon else {
        return Ok((ones, others));
    };
    let first = first_part(alloc, outer.as_slice(), path)?;
    let second = second_part(alloc, outer.as_slice(), path)?;
    ones.push(canonical(alloc, first.as_slice())?)?;
    others.push(canonical(alloc, second.as_slice())?)?;
    part_holes(alloc, first.as_slice(), holes, &mut ones, &mut others)?;
    Ok((ones, others))
}
