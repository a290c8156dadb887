// The positions of the arcs in units of 10^-24 (TopoJSON 1.0, 2.1.1 to 2.1.3).
ghost use Rattle.std.specs.Prelude.{◌≡◌, ◌≤◌, ◌^◌, true, Some, option_map, IfOk, unsigned_abs};
ghost use Rattle.json_spans.specs.Common.{node, items};
ghost use Rattle.topo_outline.specs.Common.{Gives};
ghost use Rattle.decimal_texts.specs.Common.{parts};
ghost use Rattle.grid_reader.specs.Fine.{fine_origin, fits_finer_grid, fine_sum, fine_coordinate, first_two_of, fine_pair_of, fine_position, before_next_fine, fine_positions, fine_arc, fine_arcs};
ghost use Rattle.grid_reader.specs.Seen.{fine_seen, arc_seen, arcs_seen};
ghost use Rattle.topo_reader.specs.Common.{has_two};

use crate::fine_pos::FinePos;
use crate::wants::Wants;
use decimal_texts::{Decimal, decimal_of};
use json_spans::{Kind, Span, at, bytes, items, kind};
use std::alloc::Allocator;
use topo_outline::OpenFault;

/// How many decimals a unit has, and how many digits stand before them in the greatest coordinate.
pub(crate) const DIGITS: usize = 36;

/// Whether a coordinate stays within 10^12 on a grid 10^`finer` times as fine.
fn is_within(finer: usize, units: i128) -> bool
    requires { finer ≤ 12 }
    ensures value { result ≡ fits_finer_grid finer units }
    ensures reach { result ≡ true → unsigned_abs units ≤ 10 ^ 36 }
{
    units.unsigned_abs() <= 10u128.pow((DIGITS - finer) as u32)
}

/// A number, added to the one before it.
fn summed<'a>(
    finer: usize,
    before: i128,
    place: usize,
    number: Decimal<'_>,
) -> Result<i128, OpenFault<'a>>
    requires finer { finer ≤ 12 }
    requires near { unsigned_abs before ≤ 10 ^ 36 }
    ensures value { Gives (λ z. z) result (fine_sum finer before place (Some (parts number.entry))) }
    ensures range { IfOk result (λ z. unsigned_abs z ≤ 10 ^ 36) }
{
    match number.fine() {
        Some(units) => {
            let sum = before + units;
            if is_within(finer, sum) {
                Ok(sum)
            } else {
                Err(OpenFault::OutOfRange { place })
            }
        }
        None => Err(OpenFault::OutOfRange { place }),
    }
}

/// A coordinate, added to the one before it.
fn coordinate(finer: usize, before: i128, part: Span<'_>) -> Result<i128, OpenFault<'_>>
    requires finer { finer ≤ 12 }
    requires near { unsigned_abs before ≤ 10 ^ 36 }
    ensures value { Gives (λ z. z) result (fine_coordinate finer before (node part.entry)) }
    ensures range { IfOk result (λ z. unsigned_abs z ≤ 10 ^ 36) }
{
    if !(kind(part) == Kind::Number) {
        return Err(OpenFault::NotWhole { place: at(part) });
    }
    match decimal_of(bytes(part)) {
        Some(number) => summed(finer, before, at(part), number),
        None => Err(OpenFault::OutOfRange { place: at(part) }),
    }
}

/// The two parts of a list of exactly two, or its first two where further ones are left out.
pub(crate) fn two<'a>(drop_heights: bool, part: Span<'a>) -> Option<(Span<'a>, Span<'a>)>
    ensures { option_map (λ p. (node p.0, node p.1)) result
        ≡ first_two_of drop_heights (items (node part.entry)) }
{
    let mut parts = items(part);
    let first = parts.next()?;
    let second = parts.next()?;
    (parts.next().is_none() || drop_heights).then_some((first, second))
}

fn pair<'a>(
    finer: usize,
    before: FinePos,
    first: Span<'a>,
    second: Span<'a>,
) -> Result<FinePos, OpenFault<'a>>
    requires { finer ≤ 12 }
    ensures { Gives fine_seen result
        (fine_pair_of finer (fine_seen before) (node first.entry) (node second.entry)) }
{
    let x = or_return!(coordinate(finer, before.x, first));
    let y = or_return!(coordinate(finer, before.y, second));
    Ok(FinePos { x, y })
}

#[tactic(auto, unfolding(crate::specs::Fine::fine_position))]
fn fine_position<'a>(
    wants: Wants,
    before: FinePos,
    part: Span<'a>,
) -> Result<FinePos, OpenFault<'a>>
    ensures { Gives fine_seen result (fine_position wants (fine_seen before) (node part.entry)) }
{
    if !(kind(part) == Kind::List) {
        return Err(OpenFault::BadPosition { place: at(part) });
    }
    match two(wants.drop_heights, part) {
        Some((first, second)) => pair(wants.finer, before, first, second),
        None => Err(OpenFault::BadPosition { place: at(part) }),
    }
}

fn origin() -> FinePos
    ensures { fine_seen result ≡ fine_origin }
{
    FinePos { x: 0, y: 0 }
}

fn before_next(delta: bool, pos: FinePos) -> FinePos
    ensures { fine_seen result ≡ before_next_fine delta (fine_seen pos) }
{
    if delta { pos } else { origin() }
}

fn fine_positions<'a, A: Allocator + Copy>(
    alloc: A,
    wants: Wants,
    delta: bool,
    span: Span<'a>,
) -> Result<Vec<FinePos, A>, OpenFault<'a>>
    ensures { Gives arc_seen result
        (fine_positions wants delta fine_origin (items (node span.entry))) }
{
    let mut found = Vec::new(alloc);
    let mut before = origin();
    for part in items(span) {
        let pos = or_return!(fine_position(wants, before, part));
        found.push(pos)?;
        before = before_next(delta, pos);
    }
    Ok(found)
}

fn has_two(span: Span<'_>) -> bool
    ensures { result ≡ has_two (items (node span.entry)) }
{
    let mut parts = items(span);
    parts.next().is_some() && parts.next().is_some()
}

/// The positions of one arc.
#[tactic(auto, unfolding(crate::specs::Fine::fine_arc))]
fn fine_arc<'a, A: Allocator + Copy>(
    alloc: A,
    wants: Wants,
    delta: bool,
    span: Span<'a>,
) -> Result<Vec<FinePos, A>, OpenFault<'a>>
    ensures { Gives arc_seen result (fine_arc wants delta (node span.entry)) }
{
    if kind(span) != Kind::List || !has_two(span) {
        return Err(OpenFault::BadPosition { place: at(span) });
    }
    fine_positions(alloc, wants, delta, span)
}

/// The positions of all arcs. With `delta`, each but the first of an arc is read as the difference
/// to the one before it (TopoJSON 1.0, 2.1.2).
pub(crate) fn fine_arcs<'a, A: Allocator + Copy>(
    alloc: A,
    wants: Wants,
    delta: bool,
    span: Span<'a>,
) -> Result<Vec<Vec<FinePos, A>, A>, OpenFault<'a>>
    ensures { Gives (λ v. arcs_seen v.items) result (fine_arcs wants delta (node span.entry)) }
{
    let mut found = Vec::new(alloc);
    for part in items(span) {
        found.push(or_return!(fine_arc(alloc, wants, delta, part)))?;
    }
    Ok(found)
}
