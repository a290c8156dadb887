// The faces of a layer, by the labels of their sides.
ghost use Rattle.std.specs.Prelude.{◌≡◌, ℕ, ◌*◌, ◌+◌, ◌<◌, ◌≤◌, length, map, All, IfOk, IfSome, OnOk};
ghost use Rattle.std.specs.List.{count_by, flat_map, range_with_len};
ghost use Rattle.std.specs.List.Sorted.{IsPermutation, IsNonDecreasing, IsNonDecreasingBy, IsSorted};
ghost use Rattle.layer_sides.specs.Seen.{borders_seen};
ghost use Rattle.layer_faces.specs.Faces.{IsKind, is_outside};
ghost use Rattle.layer_faces.specs.Kept.{IsFound, held_at};
ghost use Rattle.layer_faces.specs.Order.{labelled_cmp, side_of};

use crate::face::Face;
use crate::fault::FaceFault;
use crate::features::told_by;
use crate::holders::common_holders;
use crate::kind::{Kind, is_outside, kind_of};
use crate::measures::{area_of, border_length};
use crate::order::{Labelled, by_label, run_length, sides_in};
use layer_sides::Border;
use std::alloc::Allocator;

/// The kind of a face, or none where it is the outside and is held.
fn kind_in(outside: bool, holders: &[u32], features: &[usize]) -> Option<Kind>
    ensures { IfSome result (IsKind holders.now features.now) }
{
    match holders {
        [] if outside => Some(Kind::Outside),
        [_, ..] if outside => None,
        _ => Some(kind_of(holders, features)),
    }
}

/// The face of these sides, which is the outside or another one. Fails with `Unlike` where they are not
/// all held by the same polygons, or are of the outside and held.
fn face_of<A: Allocator + Copy>(
    alloc: A,
    borders: &[Border<A>],
    owners: &[usize],
    sides: Vec<u32, A>,
    outside: bool,
) -> Result<Face<A>, FaceFault>
    requires few { length borders.now ≤ 4000000 }
    requires few_sides { length sides.items ≤ 8000000 }
    requires some { 0 < length sides.items }
    requires ascending { IsNonDecreasing sides.items }
    requires within { All (λ a. a < 2 * length borders.now) sides.items }
    requires owned { (a : ℕ) → a < 2 * length borders.now
        → All (λ n. n < length owners.now) (held_at (borders_seen borders.now) a) }
    ensures found { IfOk result (λ f. IsFound (borders_seen borders.now) owners.now f) }
    ensures sides { IfOk result (λ f. f.sides.items ≡ sides.items) }
{
    let numbers = sides.as_slice();
    let first = numbers[0];
    // (the length first: it needs each border alone, so that the memory is asked for several at a time)
    let border = border_length(borders, numbers);
    let holders = common_holders(alloc, borders, numbers)?;
    let features = told_by(alloc, borders, owners, numbers, holders.as_slice())?;
    let Some(kind) = kind_in(outside, holders.as_slice(), features.as_slice()) else {
        return Err(FaceFault::Unlike(borders[first as usize / 2].segment));
    };
    let twice_area = area_of(borders, numbers);
    Ok(Face {
        sides,
        first,
        holders,
        features,
        twice_area,
        border,
        kind,
    })
}

/// The faces of the sides in the order of their labels, of which this one is that of the outside.
fn faces_in<A: Allocator + Copy>(
    alloc: A,
    borders: &[Border<A>],
    owners: &[usize],
    order: &[Labelled],
    outside: u32,
) -> Result<Vec<Face<A>, A>, FaceFault>
    requires few { length borders.now ≤ 4000000 }
    requires few_sides { length order.now ≤ 8000000 }
    requires ascending { IsSorted labelled_cmp order.now }
    requires within { All (λ a. a < 2 * length borders.now) (map side_of order.now) }
    requires owned { (a : ℕ) → a < 2 * length borders.now
        → All (λ n. n < length owners.now) (held_at (borders_seen borders.now) a) }
    ensures found { IfOk result
        (λ faces. All (IsFound (borders_seen borders.now) owners.now) faces.items) }
    ensures all { IfOk result
        (λ faces. flat_map (λ f. f.sides.items) faces.items ≡ map side_of order.now) }
{
    let mut faces = Vec::new(alloc);
    let mut rest = order;
    while let [first, ..] = rest {
        let (run, more) = rest.split_at(run_length(rest));
        let sides = sides_in(alloc, run)?;
        faces.push(face_of(alloc, borders, owners, sides, first.label == outside)?)?;
        rest = more;
    }
    Ok(faces)
}

/// Fails with `Unlike` where more than one of the faces is the outside.
fn test_outside<A: Allocator + Copy>(
    borders: &[Border<A>],
    faces: &[Face<A>],
) -> Result<(), FaceFault>
    requires { All (λ f. f.first < 2 * length borders.now) faces.now }
    ensures { OnOk result (count_by (λ f. is_outside f.kind) faces.now ≤ 1) }
{
    let mut outsides: usize = 0;
    for face in faces {
        if is_outside(face.kind) {
            outsides += 1;
        }
        if outsides > 1 {
            return Err(FaceFault::Unlike(borders[face.first as usize / 2].segment));
        }
    }
    Ok(())
}

/// The faces of borders, whose sides have these labels, in the order of their first sides; the last label
/// is that of the outside.
pub(crate) fn faces_of<A: Allocator + Copy>(
    alloc: A,
    borders: &[Border<A>],
    owners: &[usize],
    labels: &[u32],
) -> Result<Vec<Face<A>, A>, FaceFault>
    requires few { length borders.now ≤ 4000000 }
    requires labels { length labels.now ≡ 2 * length borders.now + 1 }
    requires owned { (a : ℕ) → a < 2 * length borders.now
        → All (λ n. n < length owners.now) (held_at (borders_seen borders.now) a) }
    ensures found { IfOk result
        (λ faces. All (IsFound (borders_seen borders.now) owners.now) faces.items) }
    ensures all { IfOk result (λ faces. IsPermutation (range_with_len 0 (2 * length borders.now))
        (flat_map (λ f. f.sides.items) faces.items)) }
    ensures in_order { IfOk result (λ faces. IsNonDecreasingBy (λ f. f.first) faces.items) }
    ensures one_outside { IfOk result (λ faces. count_by (λ f. is_outside f.kind) faces.items ≤ 1) }
{
    let Some((outside, of_sides)) = labels.split_last() else {
        return Ok(Vec::new(alloc));
    };
    let order = by_label(alloc, of_sides)?;
    let mut faces = faces_in(alloc, borders, owners, order.as_slice(), *outside)?;
    faces.sort_unstable_by_key(|face| face.first);
    test_outside(borders, faces.as_slice())?;
    Ok(faces)
}
