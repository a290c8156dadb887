// The polygons that hold the sides of borders.
ghost use Rattle.std.specs.Prelude.{◌≡◌, ℕ, List, ◌++◌, ◌+◌, ◌*◌, ◌<◌, ◌≤◌, ◌↔◌, [], nat_lt, length, All, IfOk, OnOk, IsTrue};
ghost use Rattle.std.specs.List.{prefix_len};
ghost use Rattle.layer_sides.specs.Seen.{borders_seen};
ghost use Rattle.layer_faces.specs.Kept.{apart, held_at, merge_one};

use crate::fault::FaceFault;
use layer_sides::Border;
use std::alloc::{AllocError, Allocator};

/// How many of the numbers, from the first on, are below n.
fn count_below(numbers: &[u32], n: u32) -> usize
    ensures value { result ≡ prefix_len (λ m. nat_lt m n) numbers.now }
    ensures within { result ≤ length numbers.now }
{
    let mut count = 0;
    for m in numbers {
        if n <= *m {
            return count;
        }
        count += 1;
    }
    count
}

/// Appends the numbers below n, and n itself where it does not follow on them; answers what follows on
/// these.
fn push_to<'o, A: Allocator + Copy>(
    found: &mut Vec<u32, A>,
    others: &'o [u32],
    n: u32,
) -> Result<&'o [u32], AllocError>
    ensures { IfOk result (λ rest. (g : List ℕ → List ℕ) → found.new.items ++ g rest.now
        ≡ found.old.items ++ merge_one n g others.now) }
{
    let (below, above) = others.split_at(count_below(others, n));
    found.extend_from_slice(below)?;
    match above {
        [first, more @ ..] if *first == n => Ok(more),
        _ => {
            found.push(n)?;
            Ok(above)
        }
    }
}

/// Appends of two ascending lists of numbers those that are in one of them alone.
fn push_apart<A: Allocator + Copy>(
    found: &mut Vec<u32, A>,
    some: &[u32],
    others: &[u32],
) -> Result<(), AllocError>
    ensures { OnOk result (found.new.items ≡ found.old.items ++ apart some.now others.now) }
{
    let mut rest = others;
    for n in some {
        rest = push_to(found, rest, *n)?;
    }
    found.extend_from_slice(rest)?;
    Ok(())
}

/// Puts the polygons that hold side 2i, the left one of border i, or 2i + 1, its right one, in the place
/// of what was found before.
fn find_holders<A: Allocator + Copy>(
    found: &mut Vec<u32, A>,
    borders: &[Border<A>],
    side: u32,
) -> Result<(), AllocError>
    requires { side < 2 * length borders.now }
    ensures { OnOk result (found.new.items ≡ held_at (borders_seen borders.now) side) }
{
    let border = &borders[side as usize / 2];
    found.clear();
    if side % 2 == 0 {
        push_apart(found, border.bounds.as_slice(), border.right.as_slice())
    } else {
        found.extend_from_slice(border.right.as_slice())
    }
}

/// The polygons that hold side 2i, the left one of border i, or 2i + 1, its right one.
pub(crate) fn holders_at<A: Allocator + Copy>(
    alloc: A,
    borders: &[Border<A>],
    side: u32,
) -> Result<Vec<u32, A>, AllocError>
    requires { side < 2 * length borders.now }
    ensures { IfOk result (λ found. found.items ≡ held_at (borders_seen borders.now) side) }
{
    let mut found = Vec::new(alloc);
    find_holders(&mut found, borders, side)?;
    Ok(found)
}

/// Whether exactly these polygons hold the side; the list `found` is for what holds it.
fn is_held_by<A: Allocator + Copy>(
    found: &mut Vec<u32, A>,
    borders: &[Border<A>],
    side: u32,
    holders: &[u32],
) -> Result<bool, AllocError>
    requires { side < 2 * length borders.now }
    ensures { IfOk result (λ is. IsTrue is ↔ (held_at (borders_seen borders.now) side ≡ holders.now)) }
{
    find_holders(found, borders, side)?;
    Ok(found.as_slice() == holders)
}

/// The polygons that hold each of these sides. Fails with `Unlike` where they are not the same for all.
pub(crate) fn common_holders<A: Allocator + Copy>(
    alloc: A,
    borders: &[Border<A>],
    sides: &[u32],
) -> Result<Vec<u32, A>, FaceFault>
    requires { All (λ a. a < 2 * length borders.now) sides.now }
    ensures { IfOk result
        (λ found. All (λ a. held_at (borders_seen borders.now) a ≡ found.items) sides.now) }
{
    let Some(first) = sides.first() else {
        return Ok(Vec::new(alloc));
    };
    let holders = holders_at(alloc, borders, *first)?;
    let mut found = Vec::new(alloc);
    for side in sides {
        if !is_held_by(&mut found, borders, *side, holders.as_slice())? {
            return Err(FaceFault::Unlike(borders[*side as usize / 2].segment));
        }
    }
    Ok(holders)
}
