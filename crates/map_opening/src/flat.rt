// The rings of features in one list, and their numbers in features again.
ghost use Rattle.std.specs.Prelude.{◌≡◌, ◌≤◌, ◌+◌, ◌++◌, map, length, drop, IfOk, OnOk};
ghost use Rattle.std.specs.List.{sum};
ghost use Rattle.ring_parts.specs.Common.{rings_seen, polygons_seen};
ghost use Rattle.map_opening.specs.Flat.{in_lists, rings_of_features, ring_count, IsFlat, lists_seen, numbers_seen, features_seen};

use grid_geometry::Pos;
use std::alloc::{AllocError, Allocator, Global};

/// Rings in one list, and how many of them each polygon of each feature has.
#[derive(Drop)]
pub struct FlatRings<A: Allocator + Copy = Global> {
    /// The rings, polygon after polygon.
    pub rings: Vec<Vec<Pos, A>, A>,
    /// How many rings each polygon of each feature has.
    pub shape: Vec<Vec<usize, A>, A>,
}

/// Moves the rings of polygons after those that are there, and answers how many each polygon had.
fn move_rings<A: Allocator + Copy>(
    alloc: A,
    polygons: Vec<Vec<Vec<Pos, A>, A>, A>,
    rings: &mut Vec<Vec<Pos, A>, A>,
) -> Result<Vec<usize, A>, AllocError>
    ensures rings { OnOk result (rings_seen rings.new.items
        ≡ rings_seen rings.old.items ++ in_lists (polygons_seen polygons.items)) }
    ensures counts { IfOk result
        (λ counts. counts.items ≡ map length (polygons_seen polygons.items)) }
{
    let mut counts = Vec::new(alloc);
    for polygon in polygons {
        let mut polygon = polygon;
        counts.push(polygon.len())?;
        rings.append(&mut polygon)?;
    }
    Ok(counts)
}

/// Moves the rings of features into one list. Fails only on allocation failure.
pub fn flattened<A: Allocator + Copy>(
    alloc: A,
    features: Vec<Vec<Vec<Vec<Pos, A>, A>, A>, A>,
) -> Result<FlatRings<A>, AllocError>
    ensures { IfOk result (λ flat. IsFlat (features_seen features.items)
        (lists_seen flat.shape.items) (rings_seen flat.rings.items)) }
{
    let mut rings = Vec::new(alloc);
    let mut shape = Vec::new(alloc);
    for polygons in features {
        shape.push(move_rings(alloc, polygons, &mut rings)?)?;
    }
    Ok(FlatRings { rings, shape })
}

/// The numbers from the place `next` on in lists of these lengths, and `next` is the place after
/// them.
fn next_lists<A: Allocator + Copy>(
    alloc: A,
    numbers: &[usize],
    next: &mut usize,
    counts: &[usize],
) -> Result<Vec<Vec<usize, A>, A>, AllocError>
    requires { next.old + sum counts.now ≤ length numbers.now }
    ensures lists { IfOk result (λ lists. in_lists (lists_seen lists.items) ++ drop next.new numbers.now
        ≡ drop next.old numbers.now) }
    ensures counts { IfOk result (λ lists. map length (lists_seen lists.items) ≡ counts.now) }
    ensures next { OnOk result (next.new ≡ next.old + sum counts.now) }
{
    let mut lists = Vec::new(alloc);
    for count in counts {
        let end = *next + *count;
        lists.push(Vec::from_slice(alloc, &numbers[*next..end])?)?;
        *next = end;
    }
    Ok(lists)
}

/// The numbers in features of this shape. Fails only on allocation failure.
pub fn regrouped<A: Allocator + Copy>(
    alloc: A,
    numbers: &[usize],
    shape: &[Vec<usize, A>],
) -> Result<Vec<Vec<Vec<usize, A>, A>, A>, AllocError>
    requires { ring_count (lists_seen shape.now) ≡ length numbers.now }
    ensures { IfOk result (λ features. IsFlat (numbers_seen features.items) (lists_seen shape.now)
        numbers.now) }
{
    let mut features = Vec::new(alloc);
    let mut next = 0;
    for counts in shape {
        features.push(next_lists(alloc, numbers, &mut next, counts.as_slice())?)?;
    }
    Ok(features)
}
