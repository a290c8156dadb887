// The list of the borders under way, from left to right: the place of a vertex in it.
ghost use Rattle.std.specs.Prelude.{◌≡◌, ◌+◌, ◌<◌, ◌≤◌, ◌++◌, ◌∷◌, [], ℕ, List, length, take, drop, IsTrue, IfSome, OnOk};
ghost use Rattle.std.specs.List.{All};
ghost use Rattle.layer_sides.specs.Levels.{top};
ghost use Rattle.layer_sides.specs.Order as order;
ghost use Rattle.layer_sides.specs.Under as spec;
ghost use Rattle.layer_sides.specs.Under.{AreBelow, CutsAt};
ghost use Rattle.layer_sides.specs.Seen.{segments_seen};

use crate::border::Border;
use crate::ends::{is_left, is_right, top_of};
use grid_geometry::{Pos, Seg};
use std::alloc::{AllocError, Allocator};

/// The segment of the border at this place.
pub(crate) fn segment_at<A: Allocator + Copy>(borders: &[Border<A>], place: usize) -> Seg
    requires { place < length borders.now }
    ensures { result ≡ spec.segment_at (segments_seen borders.now) place }
{
    borders[place].segment
}

/// How many of the first borders of the list have v strictly on their right, where those behind
/// them have not.
pub(crate) fn place_of<A: Allocator + Copy>(borders: &[Border<A>], list: &[usize], v: Pos) -> usize
    requires { AreBelow (length borders.now) list.now }
    ensures { result ≤ length list.now }
{
    let mut low = 0;
    let mut high = list.len();
    while low < high {
        let middle = low + (high - low) / 2;
        if is_right(v, segment_at(borders, list[middle])) {
            low = middle + 1;
        } else {
            high = middle;
        }
    }
    low
}

/// How many of the first borders of the list end at v.
fn ended<A: Allocator + Copy>(borders: &[Border<A>], list: &[usize], v: Pos) -> usize
    requires { AreBelow (length borders.now) list.now }
    ensures bound { result ≤ length list.now }
    ensures ended { All (λ i. top (spec.segment_at (segments_seen borders.now) i) ≡ v) (take result list.now) }
{
    for (count, place) in list.iter().enumerate() {
        if top_of(segment_at(borders, *place)) != v {
            return count;
        }
    }
    list.len()
}

/// Whether v is strictly on the right of the last border of the list; true of an empty one.
fn is_behind<A: Allocator + Copy>(borders: &[Border<A>], list: &[usize], v: Pos) -> bool
    requires { AreBelow (length borders.now) list.now }
    ensures { IsTrue result → (front : List ℕ) (i : ℕ) → list.now ≡ front ++ i ∷ []
        → IsTrue (order.is_right v (spec.segment_at (segments_seen borders.now) i)) }
{
    match list.last() {
        Some(place) => is_right(v, segment_at(borders, *place)),
        None => true,
    }
}

/// Whether v is strictly on the left of the first border of the list; true of an empty one.
fn is_before<A: Allocator + Copy>(borders: &[Border<A>], list: &[usize], v: Pos) -> bool
    requires { AreBelow (length borders.now) list.now }
    ensures { IsTrue result → (i : ℕ) (back : List ℕ) → list.now ≡ i ∷ back
        → IsTrue (order.is_left v (spec.segment_at (segments_seen borders.now) i)) }
{
    match list.first() {
        Some(place) => is_left(v, segment_at(borders, *place)),
        None => true,
    }
}

/// Where the borders that end at v stand in the list, from the first to before the last; `None` where
/// the one before them has v not strictly on its right, or the one behind them not on its left.
pub(crate) fn ended_at<A: Allocator + Copy>(
    borders: &[Border<A>],
    list: &[usize],
    v: Pos,
) -> Option<(usize, usize)>
    requires { AreBelow (length borders.now) list.now }
    ensures { IfSome result (λ cut. CutsAt (segments_seen borders.now) list.now v cut.0 cut.1) }
{
    let from = place_of(borders, list, v);
    let (front, rest) = list.split_at(from);
    let count = ended(borders, rest, v);
    let (_, back) = rest.split_at(count);
    if is_behind(borders, front, v) && is_before(borders, back, v) {
        Some((from, from + count))
    } else {
        None
    }
}

/// Takes the places from one on, up to before another, out of the list.
fn take_out<A: Allocator + Copy>(list: &mut Vec<usize, A>, from: usize, to: usize)
    requires rising { from ≤ to }
    requires bound { to ≤ length list.old.items }
    ensures { list.new.items ≡ take from list.old.items ++ drop to list.old.items }
{
    for _ in from..to {
        list.remove(from);
    }
}

/// Puts places into the list, the first of them at this place of it.
fn put_in<A: Allocator + Copy>(
    list: &mut Vec<usize, A>,
    at: usize,
    begun: &[usize],
) -> Result<(), AllocError>
    requires { at ≤ length list.old.items }
    ensures { OnOk result
        (list.new.items ≡ take at list.old.items ++ begun.now ++ drop at list.old.items) }
{
    for (i, place) in begun.iter().enumerate() {
        list.insert(at + i, *place)?;
    }
    Ok(())
}

/// Writes places over those of the list, the first of them at this place of it.
fn put_over<A: Allocator + Copy>(list: &mut Vec<usize, A>, at: usize, begun: &[usize])
    requires { at + length begun.now ≤ length list.old.items }
    ensures { list.new.items
        ≡ take at list.old.items ++ begun.now ++ drop (at + length begun.now) list.old.items }
{
    for (i, place) in begun.iter().enumerate() {
        list[at + i] = *place;
    }
}

/// Puts places into the list, in the place of those from one on, up to before another. As many as there
/// are of both are written over, since what is put in or taken out moves all that stands behind.
pub(crate) fn put_begun<A: Allocator + Copy>(
    list: &mut Vec<usize, A>,
    from: usize,
    to: usize,
    begun: &[usize],
) -> Result<(), AllocError>
    requires rising { from ≤ to }
    requires bound { to ≤ length list.old.items }
    ensures { OnOk result
        (list.new.items ≡ take from list.old.items ++ begun.now ++ drop to list.old.items) }
{
    let over = begun.len().min(to - from);
    let (first, rest) = begun.split_at(over);
    put_over(list, from, first);
    take_out(list, from + over, to);
    put_in(list, from + over, rest)
}
