// The features that are reported for a face: those that hold it or, if none does, those beside it.
ghost use Rattle.std.specs.Prelude.{◌≡◌, ℕ, ◌++◌, ◌*◌, ◌<◌, ◌≤◌, length, All, IfOk, OnOk};
ghost use Rattle.layer_sides.specs.Seen.{borders_seen};
ghost use Rattle.layer_faces.specs.Holders.{IsOnce, features_of};
ghost use Rattle.layer_faces.specs.Kept as kept;

use crate::holders::holders_at;
use layer_sides::Border;
use std::alloc::{AllocError, Allocator};

/// Appends of polygons by their numbers the numbers of their features.
fn push_features<A: Allocator + Copy>(
    features: &mut Vec<usize, A>,
    owners: &[usize],
    numbers: &[u32],
) -> Result<(), AllocError>
    requires { All (λ n. n < length owners.now) numbers.now }
    ensures { OnOk result
        (features.new.items ≡ features.old.items ++ features_of owners.now numbers.now) }
{
    for n in numbers {
        features.push(owners[*n as usize])?;
    }
    Ok(())
}

/// The number of the other side of the border.
fn opposite(side: u32) -> u32
    requires { side < 8000000 }
    ensures { result ≡ kept.opposite_number side }
{
    if side % 2 == 0 { side + 1 } else { side - 1 }
}

/// The features of the polygons that hold the other side of the border of one of these sides.
fn beside<A: Allocator + Copy>(
    alloc: A,
    borders: &[Border<A>],
    owners: &[usize],
    sides: &[u32],
) -> Result<Vec<usize, A>, AllocError>
    requires few { length borders.now ≤ 4000000 }
    requires within { All (λ a. a < 2 * length borders.now) sides.now }
    requires owned { (a : ℕ) → a < 2 * length borders.now
        → All (λ n. n < length owners.now) (kept.held_at (borders_seen borders.now) a) }
    ensures { IfOk result (λ features. features.items
        ≡ features_of owners.now (kept.beside_numbers (borders_seen borders.now) sides.now)) }
{
    let mut features = Vec::new(alloc);
    for side in sides {
        let holders = holders_at(alloc, borders, opposite(*side))?;
        push_features(&mut features, owners, holders.as_slice())?;
    }
    Ok(features)
}

/// Puts the numbers in their order, each once.
fn sort_once<A: Allocator + Copy>(numbers: &mut Vec<usize, A>)
    ensures { IsOnce numbers.old.items numbers.new.items }
{
    numbers.sort_unstable();
    numbers.dedup();
}

/// The features of these polygons, one for each.
fn owners_of<A: Allocator + Copy>(
    alloc: A,
    owners: &[usize],
    numbers: &[u32],
) -> Result<Vec<usize, A>, AllocError>
    requires { All (λ n. n < length owners.now) numbers.now }
    ensures { IfOk result (λ features. features.items ≡ features_of owners.now numbers.now) }
{
    let mut features = Vec::new(alloc);
    push_features(&mut features, owners, numbers)?;
    Ok(features)
}

/// The features of the polygons that hold these sides, one for each; where none does, of those that hold
/// the other side of one of their borders.
fn found_by<A: Allocator + Copy>(
    alloc: A,
    borders: &[Border<A>],
    owners: &[usize],
    sides: &[u32],
    holders: &[u32],
) -> Result<Vec<usize, A>, AllocError>
    requires few { length borders.now ≤ 4000000 }
    requires within { All (λ a. a < 2 * length borders.now) sides.now }
    requires owned { (a : ℕ) → a < 2 * length borders.now
        → All (λ n. n < length owners.now) (kept.held_at (borders_seen borders.now) a) }
    requires holding { All (λ n. n < length owners.now) holders.now }
    ensures { IfOk result (λ features. features.items ≡ features_of owners.now
        (kept.told_numbers (borders_seen borders.now) holders.now sides.now)) }
{
    match holders {
        [] => beside(alloc, borders, owners, sides),
        _ => owners_of(alloc, owners, holders),
    }
}

/// The features of the polygons that hold these sides, ascending, each once; where none does, of those
/// that hold the other side of one of their borders.
pub(crate) fn told_by<A: Allocator + Copy>(
    alloc: A,
    borders: &[Border<A>],
    owners: &[usize],
    sides: &[u32],
    holders: &[u32],
) -> Result<Vec<usize, A>, AllocError>
    requires few { length borders.now ≤ 4000000 }
    requires within { All (λ a. a < 2 * length borders.now) sides.now }
    requires owned { (a : ℕ) → a < 2 * length borders.now
        → All (λ n. n < length owners.now) (kept.held_at (borders_seen borders.now) a) }
    requires holding { All (λ n. n < length owners.now) holders.now }
    ensures { IfOk result (λ features. IsOnce (features_of owners.now
        (kept.told_numbers (borders_seen borders.now) holders.now sides.now)) features.items) }
{
    let mut features = found_by(alloc, borders, owners, sides, holders)?;
    sort_once(&mut features);
    Ok(features)
}
