// The grid that positions are put on: how many decimals it has, and where they stand on it.
ghost use Rattle.std.specs.Prelude.{◌≡◌, ◌≤◌, ◌*◌, ◌+◌, ◌^◌, map, length, unsigned_abs, IfOk, IfSome, ◌-◌, ◌*ℤ◌, pos};
ghost use Rattle.std.specs.List.{filter, list_all, AllByRecursion};
ghost use Rattle.json_spans.specs.Common.{node, items};
ghost use Rattle.decimal_texts.specs.Common.{decimals, rounded};
ghost use Rattle.topo_reader.specs.Common.{positions_of};
ghost use Rattle.grid_reader.specs.Grid.{greater, smaller, greatest_from, most_decimals, furthest, fitting, digits_fitting, decimals_with, decimals_kept, position_on_grid, is_moved, positions_moved, has_further, heights};
ghost use Rattle.grid_reader.specs.Near.{IsNear};
ghost use Rattle.grid_reader.specs.Seen.{fine_seen, arcs_seen};
ghost use Rattle.grid_reader.specs.Wholes.{is_whole_number, has_wholes, all_whole};

use crate::fine::DIGITS;
use crate::fine_pos::FinePos;
use crate::wants::Wants;
use decimal_texts::{decimals, is_rounded, rounded};
use grid_geometry::Pos;
use json_spans::{Span, items, whole};
use std::alloc::{AllocError, Allocator};

// ---- how many decimals

/// The most decimals of an arc's coordinates, or of those before them.
fn most_in_arc(before: usize, arc: &[FinePos]) -> usize
    ensures { result ≡ greatest_from decimals before (map fine_seen arc.now) }
{
    let mut most = before;
    for pos in arc {
        most = most.max(decimals(pos.x)).max(decimals(pos.y));
    }
    most
}

/// The most decimals that a coordinate has.
pub(crate) fn most_decimals<A: Allocator + Copy>(arcs: &[Vec<FinePos, A>]) -> usize
    ensures { result ≡ most_decimals (arcs_seen arcs.now) }
{
    let mut most = 0;
    for arc in arcs {
        most = most_in_arc(most, arc.as_slice());
    }
    most
}

/// How far the furthest coordinate of an arc is from 0, or of those before them.
fn furthest_in_arc(before: u128, arc: &[FinePos]) -> u128
    ensures { result ≡ greatest_from unsigned_abs before (map fine_seen arc.now) }
{
    let mut far = before;
    for pos in arc {
        far = far.max(pos.x.unsigned_abs()).max(pos.y.unsigned_abs());
    }
    far
}

/// How far the furthest coordinate is from 0.
fn furthest<A: Allocator + Copy>(arcs: &[Vec<FinePos, A>]) -> u128
    ensures { result ≡ furthest (arcs_seen arcs.now) }
{
    let mut far = 0;
    for arc in arcs {
        far = furthest_in_arc(far, arc.as_slice());
    }
    far
}

/// The greatest number of decimals up to `most` with which a coordinate so far away stays within
/// 10^12, on a grid 10^`finer` times as fine again.
fn fitting(finer: usize, far: u128, most: usize) -> usize
    requires finer { finer ≤ 12 }
    requires most { most ≤ 24 }
    ensures value { result ≡ fitting finer far most }
    ensures bound { result ≤ most }
{
    let mut kept = most;
    while kept > 0 && far > 10u128.pow((DIGITS - finer - kept) as u32) {
        kept -= 1;
    }
    kept
}

/// How many decimals are kept where a coordinate is so far from 0, and one has so many.
fn digits_fitting(wants: Wants, far: u128, most: usize) -> usize
    ensures value { result ≡ digits_fitting wants far most }
    ensures bound { result ≤ 24 }
{
    fitting(wants.finer, far, wants.digits.min(most))
}

/// The most decimals of all, where a coordinate of the arcs has at most so many.
pub(crate) fn decimals_with(wants: Wants, most: usize) -> usize
    ensures { result ≡ decimals_with wants most }
{
    if most == 0 {
        0
    } else {
        wants.points.decimals.max(most)
    }
}

/// How many decimals are kept, where a coordinate of the arcs has at most so many.
pub(crate) fn digits_of<A: Allocator + Copy>(
    wants: Wants,
    most: usize,
    arcs: &[Vec<FinePos, A>],
) -> usize
    requires { most ≡ most_decimals (arcs_seen arcs.now) }
    ensures value { result ≡ decimals_kept wants (arcs_seen arcs.now) }
    ensures bound { result ≤ 24 }
{
    let far = furthest(arcs);
    let of_arcs = digits_fitting(wants, far, most);
    let of_all = digits_fitting(
        wants,
        wants.points.furthest.max(far),
        decimals_with(wants, most),
    );
    of_arcs.max(of_all)
}

// ---- the positions

/// A coordinate on the grid.
fn on_axis(digits: usize, finer: usize, units: i128) -> i64
    requires digits { digits ≤ 24 }
    requires finer { finer ≤ 12 }
    requires near { unsigned_abs units * 10 ^ digits ≤ 10 ^ (36 - finer) }
    ensures value { result ≡ rounded digits units *ℤ pos (10 ^ finer) }
    ensures bound { unsigned_abs result ≤ 1000000000000 }
{
    let scale = 10u64.pow(finer as u32) as i64;
    rounded(digits, units) * scale
}

fn on_grid(digits: usize, finer: usize, pos: FinePos) -> Pos
    requires digits { digits ≤ 24 }
    requires finer { finer ≤ 12 }
    requires near { IsNear digits finer (fine_seen pos) }
    ensures { result ≡ position_on_grid digits finer (fine_seen pos) }
{
    let x = on_axis(digits, finer, pos.x);
    let y = on_axis(digits, finer, pos.y);
    Pos::new(x, y).unwrap()
}

/// The positions of an arc on the grid.
fn arc_on<A: Allocator + Copy>(
    alloc: A,
    digits: usize,
    finer: usize,
    arc: &[FinePos],
) -> Result<Vec<Pos, A>, AllocError>
    requires digits { digits ≤ 24 }
    requires finer { finer ≤ 12 }
    requires near { AllByRecursion (IsNear digits finer) (map fine_seen arc.now) }
    ensures { IfOk result (λ v. v.items ≡ map (position_on_grid digits finer) (map fine_seen arc.now)) }
{
    let mut found = Vec::new(alloc);
    for pos in arc {
        found.push(on_grid(digits, finer, *pos))?;
    }
    Ok(found)
}

/// The arcs on the grid.
pub(crate) fn arcs_on<A: Allocator + Copy>(
    alloc: A,
    digits: usize,
    finer: usize,
    arcs: &[Vec<FinePos, A>],
) -> Result<Vec<Vec<Pos, A>, A>, AllocError>
    requires digits { digits ≤ 24 }
    requires finer { finer ≤ 12 }
    requires near { AllByRecursion (AllByRecursion (IsNear digits finer)) (arcs_seen arcs.now) }
    ensures { IfOk result (λ v. map positions_of v.items
        ≡ map (map (position_on_grid digits finer)) (arcs_seen arcs.now)) }
{
    let mut found = Vec::new(alloc);
    for arc in arcs {
        found.push(arc_on(alloc, digits, finer, arc.as_slice())?)?;
    }
    Ok(found)
}

// ---- what is told of it

fn is_moved(digits: usize, pos: FinePos) -> bool
    requires { digits ≤ 24 }
    ensures { result ≡ is_moved digits (fine_seen pos) }
{
    is_rounded(digits, pos.x) || is_rounded(digits, pos.y)
}

fn moved_in_arc(digits: usize, before: usize, arc: &[FinePos]) -> Option<usize>
    requires { digits ≤ 24 }
    ensures { IfSome result (λ n.
        n ≡ before + length (filter (is_moved digits) (map fine_seen arc.now))) }
{
    let mut count = before;
    for pos in arc {
        if is_moved(digits, *pos) {
            count = count.checked_add(1)?;
        }
    }
    Some(count)
}

/// How many positions rounding moves.
pub(crate) fn moved<A: Allocator + Copy>(digits: usize, arcs: &[Vec<FinePos, A>]) -> Option<usize>
    requires { digits ≤ 24 }
    ensures { IfSome result (λ n. n ≡ positions_moved digits (arcs_seen arcs.now)) }
{
    let mut count = 0;
    for arc in arcs {
        count = moved_in_arc(digits, count, arc.as_slice())?;
    }
    Some(count)
}

/// Whether there is a third number.
fn has_further(span: Span<'_>) -> bool
    ensures { result ≡ has_further (node span.entry) }
{
    let mut parts = items(span);
    parts.next().is_some() && parts.next().is_some() && parts.next().is_some()
}

fn heights_in_arc(before: usize, arc: Span<'_>) -> Option<usize>
    ensures { IfSome result (λ n.
        n ≡ before + length (filter has_further (items (node arc.entry)))) }
{
    let mut count = before;
    for part in items(arc) {
        if has_further(part) {
            count = count.checked_add(1)?;
        }
    }
    Some(count)
}

/// How many positions have further numbers.
pub(crate) fn heights(arcs: Span<'_>) -> Option<usize>
    ensures { IfSome result (λ n. n ≡ heights (node arcs.entry)) }
{
    let mut count = 0;
    for arc in items(arcs) {
        count = heights_in_arc(count, arc)?;
    }
    Some(count)
}

/// Whether this is a whole number as the editor takes it.
fn is_whole(span: Span<'_>) -> bool
    ensures { result ≡ is_whole_number (node span.entry) }
{
    whole(span).is_ok()
}

/// Whether the first two numbers are whole.
fn has_wholes(position: Span<'_>) -> bool
    ensures { result ≡ has_wholes (node position.entry) }
{
    let mut parts = items(position);
    match parts.next() {
        None => true,
        Some(first) => match parts.next() {
            None => is_whole(first),
            Some(second) => is_whole(first) && is_whole(second),
        },
    }
}

fn has_wholes_in_arc(arc: Span<'_>) -> bool
    ensures { result ≡ list_all has_wholes (items (node arc.entry)) }
{
    for part in items(arc) {
        if !has_wholes(part) {
            return false;
        }
    }
    true
}

/// Whether all coordinates are written as whole numbers.
pub(crate) fn all_whole(arcs: Span<'_>) -> bool
    ensures { result ≡ all_whole (node arcs.entry) }
{
    for arc in items(arcs) {
        if !has_wholes_in_arc(arc) {
            return false;
        }
    }
    true
}
