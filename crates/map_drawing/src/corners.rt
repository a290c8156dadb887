// What is left out of a ring where it is drawn: points that add nothing.
ghost use Rattle.std.specs.Prelude.{◌≡◌, ◌∷◌, ◌++◌, IfOk, OnOk};
ghost use Rattle.map_drawing.specs.Corners.{apart, are_equal, corner_of, corners, is_along, is_amid, is_down, is_level, other_point, IsSecond, IsVisible};
ghost use Rattle.map_drawing.specs.Points.{is_same};

use crate::points::Point;
use std::alloc::{AllocError, Allocator};

/// Whether two points are one.
pub(crate) fn is_same(one: Point, other: Point) -> bool
    ensures { result ≡ is_same one other }
{
    one.x == other.x && one.y == other.y
}

/// Appends a point, unless it is the one before it.
fn push_apart<A: Allocator>(
    kept: &mut Vec<Point, A>,
    before: Point,
    point: Point,
) -> Result<(), AllocError>
    ensures { OnOk result (kept.new.items ≡ kept.old.items ++ other_point before point) }
{
    if is_same(before, point) {
        Ok(())
    } else {
        kept.push(point)?;
        Ok(())
    }
}

/// The points of a ring without those at the point of the one before.
fn apart<A: Allocator + Copy>(alloc: A, ring: &[Point]) -> Result<Vec<Point, A>, AllocError>
    ensures { IfOk result (λ kept. kept.items ≡ apart ring.now) }
{
    let mut kept = Vec::new(alloc);
    let [first, rest @ ..] = ring else {
        return Ok(kept);
    };
    kept.push(*first)?;
    let mut before = *first;
    for point in rest {
        push_apart(&mut kept, before, *point)?;
        before = *point;
    }
    Ok(kept)
}

/// The second point of a ring that is at one point: the next one on the right.
fn second_point(ring: &[Point]) -> Option<Point>
    ensures { IsSecond ring.now result }
{
    match ring {
        [point] => Some(point.beside()),
        _ => None,
    }
}

/// The points at which a ring is drawn, without those at the point of the one before. A ring that is at one point
/// goes on to the next one, so that it is seen: there is no line at a point (SVG 1.1, 11.4).
pub(crate) fn visible<A: Allocator + Copy>(
    alloc: A,
    ring: &[Point],
) -> Result<Vec<Point, A>, AllocError>
    ensures { IfOk result (λ kept. IsVisible (apart ring.now) kept.items) }
{
    let mut kept = apart(alloc, ring)?;
    match second_point(kept.as_slice()) {
        Some(second) => {
            kept.push(second)?;
            Ok(kept)
        }
        None => Ok(kept),
    }
}

/// Whether a number is one of two others or between them.
fn is_amid(from: i64, at: i64, to: i64) -> bool
    ensures { result ≡ is_amid from at to }
{
    (from <= at && at <= to) || (to <= at && at <= from)
}

/// Whether three numbers are one.
fn are_equal(from: i64, at: i64, to: i64) -> bool
    ensures { result ≡ are_equal from at to }
{
    from == at && at == to
}

/// Whether a point is on the way straight along between two others.
fn is_along(from: Point, at: Point, to: Point) -> bool
    ensures { result ≡ is_along from at to }
{
    let is_level = are_equal(from.y, at.y, to.y);
    let is_between = is_amid(from.x, at.x, to.x);
    is_level && is_between
}

/// Whether a point is on the way straight down between two others.
fn is_down(from: Point, at: Point, to: Point) -> bool
    ensures { result ≡ is_down from at to }
{
    let is_upright = are_equal(from.x, at.x, to.x);
    let is_between = is_amid(from.y, at.y, to.y);
    is_upright && is_between
}

/// Whether a point is on one of these ways.
fn is_level(from: Point, at: Point, to: Point) -> bool
    ensures { result ≡ is_level from at to }
{
    let is_along = is_along(from, at, to);
    let is_down = is_down(from, at, to);
    is_along || is_down
}

/// Appends a point, unless it is on the way from the one before it straight along or down to the one after it.
fn push_corner<A: Allocator>(
    kept: &mut Vec<Point, A>,
    from: Point,
    at: Point,
    to: Point,
) -> Result<(), AllocError>
    ensures { OnOk result (kept.new.items ≡ kept.old.items ++ corner_of from at to) }
{
    if is_level(from, at, to) {
        Ok(())
    } else {
        kept.push(at)?;
        Ok(())
    }
}

/// A first point, and of those after it the corners and the last.
fn corners_after<A: Allocator + Copy>(
    alloc: A,
    first: Point,
    others: &[Point],
) -> Result<Vec<Point, A>, AllocError>
    ensures { IfOk result (λ kept. kept.items ≡ corners (first ∷ others.now)) }
{
    let mut kept = Vec::new(alloc);
    kept.push(first)?;
    let [second, rest @ ..] = others else {
        return Ok(kept);
    };
    let (mut from, mut at) = (first, *second);
    for to in rest {
        push_corner(&mut kept, from, at, *to)?;
        (from, at) = (at, *to);
    }
    kept.push(at)?;
    Ok(kept)
}

/// The points of a ring without those on a way straight along or straight down; the first and the last stay.
pub(crate) fn corners<A: Allocator + Copy>(
    alloc: A,
    ring: &[Point],
) -> Result<Vec<Point, A>, AllocError>
    ensures { IfOk result (λ kept. kept.items ≡ corners ring.now) }
{
    match ring {
        [first, others @ ..] => corners_after(alloc, *first, others),
        [] => Ok(Vec::new(alloc)),
    }
}
