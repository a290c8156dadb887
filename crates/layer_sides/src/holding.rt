// Which polygons hold the sides of the borders at a vertex.
ghost use Rattle.std.specs.Prelude.{◌≡◌, ◌++◌, ◌<◌, ◌≤◌, ℕ, length, slice_set, IfOk, OnOk};
ghost use Rattle.std.specs.List.Sorted.{IsStrictlySortedBy};
ghost use Rattle.std.specs.Ordering.{nat_cmp};
ghost use Rattle.grid_geometry.specs.Common.{xor};
ghost use Rattle.layer_sides.specs.Sweep.{has_number};
ghost use Rattle.layer_sides.specs.Under.{AreApartFrom, AreBelow, AreNumbered, AreOddOf, AreAscending, Rewrites, border_at};
ghost use Rattle.layer_sides.specs.Under.{borders_at, bounds_of, is_odd_of, with_right};
ghost use Rattle.layer_sides.specs.Seen.{borders_seen};

use crate::border::Border;
use crate::fault::SideFault;
use crate::flips::flipped;
use grid_geometry::Pos;
use std::alloc::{AllocError, Allocator};

/// The numbers of the polygons that hold the left side of the first border of the list, all of whose
/// right sides are known; none of an empty list.
fn left_of_first<A: Allocator + Copy>(
    alloc: A,
    borders: &[Border<A>],
    list: &[usize],
) -> Result<Vec<u32, A>, AllocError>
    requires below { AreBelow (length borders.now) list.now }
    requires sorted { AreAscending (bounds_of (borders_seen borders.now)) }
    requires numbered { AreNumbered (borders_at (borders_seen borders.now) list.now) }
    ensures { IfOk result (λ found. AreOddOf (borders_at (borders_seen borders.now) list.now) found.items) }
{
    match list.first() {
        Some(place) => {
            let border = &borders[*place];
            flipped(alloc, border.right.as_slice(), border.bounds.as_slice())
        }
        None => Ok(Vec::new(alloc)),
    }
}

/// Puts these numbers with the border at this place, as those of the polygons that hold its right side.
fn set_right<A: Allocator + Copy>(
    borders: &mut Vec<Border<A>, A>,
    place: usize,
    numbers: Vec<u32, A>,
)
    requires { place < length borders.old.items }
    ensures { borders_seen borders.new.items ≡ slice_set (borders_seen borders.old.items) place
        (with_right (border_at (borders_seen borders.old.items) place) numbers.items) }
{
    borders[place].right = numbers;
}

/// The numbers of the polygons that hold the left side of the border at this place. Those that hold its
/// right side are put with it.
fn write_right<A: Allocator + Copy>(
    alloc: A,
    borders: &mut Vec<Border<A>, A>,
    place: usize,
    numbers: Vec<u32, A>,
) -> Result<Vec<u32, A>, AllocError>
    requires place { place < length borders.old.items }
    requires sorted { AreAscending (bounds_of (borders_seen borders.old.items)) }
    requires numbers { IsStrictlySortedBy nat_cmp numbers.items }
    ensures set { OnOk result (borders_seen borders.new.items
        ≡ slice_set (borders_seen borders.old.items) place
        (with_right (border_at (borders_seen borders.old.items) place) numbers.items)) }
    ensures either { IfOk result (λ found. (n : ℕ) → has_number n found.items
        ≡ xor (has_number n (border_at (borders_seen borders.old.items) place).bounds) (has_number n numbers.items)) }
    ensures ascending { IfOk result (λ found. IsStrictlySortedBy nat_cmp found.items) }
{
    let left = flipped(alloc, numbers.as_slice(), borders[place].bounds.as_slice())?;
    set_right(borders, place, numbers);
    Ok(left)
}

/// Writes the right sides of these borders, from the last to the first; the numbers of the polygons
/// that hold the left side of the first. Those behind them in the list have their numbers. Fails on
/// allocation failure, and where there is no room for so many numbers.
fn write_begun<A: Allocator + Copy>(
    alloc: A,
    borders: &mut Vec<Border<A>, A>,
    begun: &[usize],
    behind: &[usize],
    room: &mut usize,
) -> Result<Vec<u32, A>, SideFault>
    requires below { AreBelow (length borders.old.items) (begun.now ++ behind.now) }
    requires apart { AreApartFrom behind.now begun.now }
    requires sorted { AreAscending (bounds_of (borders_seen borders.old.items)) }
    requires numbered { AreNumbered (borders_at (borders_seen borders.old.items) behind.now) }
    ensures rewrites { OnOk result
        (Rewrites begun.now (borders_seen borders.old.items) (borders_seen borders.new.items)) }
    ensures numbered { OnOk result (AreNumbered (borders_at (borders_seen borders.new.items) (begun.now ++ behind.now))) }
    ensures odd { IfOk result
        (λ found. AreOddOf (borders_at (borders_seen borders.new.items) (begun.now ++ behind.now)) found.items) }
{
    let mut numbers = left_of_first(alloc, borders.as_slice(), behind)?;
    let mut count = begun.len();
    while count > 0 {
        count -= 1;
        let Some(left) = room.checked_sub(numbers.len()) else {
            return Err(SideFault::TooLarge);
        };
        *room = left;
        numbers = write_right(alloc, borders, begun[count], numbers)?;
    }
    Ok(numbers)
}

/// Writes the right sides of the borders that begin at v, from left to right, in the place of those that
/// end there; both lists go on with those behind them. Fails on allocation failure, where there is no
/// room for so many numbers, and where other polygons would hold what is left of them than did before.
pub(crate) fn write_sides<A: Allocator + Copy>(
    alloc: A,
    borders: &mut Vec<Border<A>, A>,
    ended: &[usize],
    begun: &[usize],
    behind: &[usize],
    v: Pos,
    room: &mut usize,
) -> Result<(), SideFault>
    requires below { AreBelow (length borders.old.items) (begun.now ++ behind.now) }
    requires below_too { AreBelow (length borders.old.items) ended.now }
    requires apart { AreApartFrom behind.now begun.now }
    requires sorted { AreAscending (bounds_of (borders_seen borders.old.items)) }
    requires numbered { AreNumbered (borders_at (borders_seen borders.old.items) behind.now) }
    requires numbered_too { AreNumbered (borders_at (borders_seen borders.old.items) ended.now) }
    ensures rewrites { OnOk result
        (Rewrites begun.now (borders_seen borders.old.items) (borders_seen borders.new.items)) }
    ensures numbered { OnOk result (AreNumbered (borders_at (borders_seen borders.new.items) (begun.now ++ behind.now))) }
    ensures same { OnOk result ((n : ℕ) → is_odd_of n (borders_at (borders_seen borders.new.items) (begun.now ++ behind.now))
        ≡ is_odd_of n (borders_at (borders_seen borders.old.items) ended.now)) }
{
    let before = left_of_first(alloc, borders.as_slice(), ended)?;
    let after = write_begun(alloc, borders, begun, behind, room)?;
    if before.as_slice() == after.as_slice() {
        Ok(())
    } else {
        Err(SideFault::Unswept(v))
    }
}
