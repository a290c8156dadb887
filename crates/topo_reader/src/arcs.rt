// The positions of the arcs (TopoJSON 1.0, 2.1.1 to 2.1.3).
ghost use Rattle.std.specs.Prelude.{◌≡◌, map, option_map, IfOk, ◌≤◌, unsigned_abs};
ghost use Rattle.json_spans.specs.Common.{node, items};
ghost use Rattle.topo_outline.specs.Common.{Gives};
ghost use Rattle.topo_reader.specs.Arcs.{origin};
ghost use Rattle.topo_reader.specs.Positions.{coordinate, position, positions, two_of, pair_of, before_next, has_two, arc, arcs};

use crate::plain_arc::plain_arc;
use crate::plain_list::plain_arcs;
use grid_geometry::Pos;
use json_spans::{Kind, NotWhole, Span, at, items, kind, whole};
use std::alloc::Allocator;
use topo_outline::OpenFault;

/// The greatest absolute value of a coordinate.
const REACH: u64 = 1_000_000_000_000;

/// A coordinate, added to the one before it.
fn coordinate(before: i64, part: Span<'_>) -> Result<i64, OpenFault<'_>>
    ensures value { Gives (λ z. z) result (coordinate before (node part.entry)) }
    ensures range { IfOk result (λ z. unsigned_abs z ≤ 1000000000000) }
{
    match whole(part) {
        Ok(z) => match before.checked_add(z) {
            Some(sum) if sum.unsigned_abs() <= REACH => Ok(sum),
            _ => Err(OpenFault::OutOfRange { place: at(part) }),
        },
        Err(NotWhole::Form) => Err(OpenFault::NotWhole { place: at(part) }),
        Err(NotWhole::Huge) => Err(OpenFault::OutOfRange { place: at(part) }),
    }
}

/// The two parts of a list of exactly two.
fn two<'a>(part: Span<'a>) -> Option<(Span<'a>, Span<'a>)>
    ensures { option_map (λ p. (node p.0, node p.1)) result ≡ two_of (items (node part.entry)) }
{
    let mut parts = items(part);
    let first = parts.next()?;
    let second = parts.next()?;
    parts.next().is_none().then_some((first, second))
}

fn pair<'a>(before: Pos, first: Span<'a>, second: Span<'a>) -> Result<Pos, OpenFault<'a>>
    ensures { Gives (λ p. p) result (pair_of before (node first.entry) (node second.entry)) }
{
    let x = or_return!(coordinate(before.x(), first));
    let y = or_return!(coordinate(before.y(), second));
    Ok(Pos::new(x, y).unwrap())
}

#[tactic(auto, unfolding(crate::specs::Positions::position))]
fn position<'a>(before: Pos, part: Span<'a>) -> Result<Pos, OpenFault<'a>>
    ensures { Gives (λ p. p) result (position before (node part.entry)) }
{
    match two(part) {
        Some((first, second)) if kind(part) == Kind::List => pair(before, first, second),
        _ => Err(OpenFault::BadPosition { place: at(part) }),
    }
}

pub(crate) fn origin() -> Pos
    ensures { result ≡ origin }
{
    Pos::new(0, 0).unwrap()
}

pub(crate) fn before_next(delta: bool, pos: Pos) -> Pos
    ensures { result ≡ before_next delta pos }
{
    if delta { pos } else { origin() }
}

fn positions<'a, A: Allocator + Copy>(
    alloc: A,
    delta: bool,
    span: Span<'a>,
) -> Result<Vec<Pos, A>, OpenFault<'a>>
    ensures { Gives (λ v. v.items) result (positions delta origin (items (node span.entry))) }
{
    let mut found = Vec::new(alloc);
    let mut before = origin();
    for part in items(span) {
        let pos = or_return!(position(before, part));
        found.push(pos)?;
        before = before_next(delta, pos);
    }
    Ok(found)
}

fn has_two(span: Span<'_>) -> bool
    ensures { result ≡ has_two (items (node span.entry)) }
{
    let mut parts = items(span);
    parts.next().is_some() && parts.next().is_some()
}

/// The positions of one arc.
#[tactic(auto, unfolding(crate::specs::Positions::arc))]
fn arc<'a, A: Allocator + Copy>(
    alloc: A,
    scratch: &mut Vec<Pos, A>,
    delta: bool,
    span: Span<'a>,
) -> Result<Vec<Pos, A>, OpenFault<'a>>
    ensures { Gives (λ v. v.items) result (arc delta (node span.entry)) }
{
    if let Some(found) = plain_arc(alloc, scratch, delta, span)? {
        return Ok(found);
    }
    if kind(span) != Kind::List || !has_two(span) {
        return Err(OpenFault::BadPosition { place: at(span) });
    }
    positions(alloc, delta, span)
}

/// The positions of all arcs. With `delta`, each but the first of an arc is read as the difference
/// to the one before it (TopoJSON 1.0, 2.1.2).
pub(crate) fn arcs<'a, A: Allocator + Copy>(
    alloc: A,
    delta: bool,
    span: Span<'a>,
) -> Result<Vec<Vec<Pos, A>, A>, OpenFault<'a>>
    ensures { Gives (λ v. map (λ a. a.items) v.items) result (arcs delta (node span.entry)) }
{
    let mut scratch = Vec::new(alloc);
    if let Some(found) = plain_arcs(alloc, &mut scratch, delta, span)? {
        return Ok(found);
    }
    let mut found = Vec::new(alloc);
    for part in items(span) {
        found.push(or_return!(arc(alloc, &mut scratch, delta, part)))?;
    }
    Ok(found)
}
