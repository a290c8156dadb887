// Coordinates rounded to whole numbers of a grid.
ghost use Rattle.std.specs.Prelude.{◌≡◌, ◌≤◌, ◌-◌, ◌^◌, ◌*ℤ◌, pos, true, map, unsigned_abs, Some};
ghost use Rattle.json_spans.specs.Common.{node};
ghost use Rattle.decimal_texts.specs.Seen.{parts};
ghost use Rattle.decimal_texts.specs.Fine.{rounded};
ghost use Rattle.decimal_texts.specs.Gives.{AnswersAs};
ghost use Rattle.decimal_texts.specs.Rounded.{fits_grid, parts_on_grid, number_on_grid, all_or_fault, new_text};
ghost use Rattle.decimal_texts.specs.Changes.{change};

use crate::fault::PointFault;
use crate::{Decimal, decimal_of, rounded};
use json_spans::{Kind, Span, at, bytes, kind};
use std::alloc::Allocator;

/// A grid: how many decimals a coordinate is rounded to, and a power of ten by which the grid is as
/// fine again.
#[derive(Clone, Copy, Debug)]
pub(crate) struct Grid {
    pub(crate) digits: usize,
    pub(crate) finer: usize,
    pub(crate) ghost few_digits: { digits ≤ 24 },
    pub(crate) ghost little_finer: { finer ≤ 12 },
}

/// A coordinate where it stands, and the whole number that it becomes.
#[derive(Clone, Copy, Debug)]
pub(crate) struct Change<'a> {
    pub(crate) span: Span<'a>,
    pub(crate) number: i128,
}

/// How many digits the greatest number has that is read: up to 10^12, and 24 decimals.
const DIGITS: usize = 36;

/// Whether so many units of 10^-24 are within 10^12 on the grid.
fn is_within(grid: Grid, units: i128) -> bool
    ensures value { result ≡ fits_grid grid.digits grid.finer units }
    ensures reach { result ≡ true → unsigned_abs units ≤ 10 ^ (36 - grid.finer - grid.digits) }
{
    units.unsigned_abs() <= 10u128.pow((DIGITS - grid.finer - grid.digits) as u32)
}

/// So many units of 10^-24 as a whole number of the grid.
fn on_axis(grid: Grid, units: i128) -> i128
    requires { unsigned_abs units ≤ 10 ^ (36 - grid.finer - grid.digits) }
    ensures { result ≡ rounded grid.digits units *ℤ pos (10 ^ grid.finer) }
{
    let scale = 10u128.pow(grid.finer as u32) as i128;
    i128::from(rounded(grid.digits, units)) * scale
}

/// A number as a whole number of the grid.
fn on_grid(grid: Grid, place: usize, number: Decimal<'_>) -> Result<i128, PointFault>
    ensures { AnswersAs (λ z. z) result
        (parts_on_grid grid.digits grid.finer place (Some (parts number.entry))) }
{
    match number.fine() {
        Some(units) => if is_within(grid, units) {
            Ok(on_axis(grid, units))
        } else {
            Err(PointFault::OutOfRange { place })
        },
        None => Err(PointFault::OutOfRange { place }),
    }
}

/// A coordinate as a whole number of the grid.
fn number_on_grid(grid: Grid, part: Span<'_>) -> Result<i128, PointFault>
    ensures { AnswersAs (λ z. z) result (number_on_grid grid.digits grid.finer (node part.entry)) }
{
    if !(kind(part) == Kind::Number) {
        return Err(PointFault::NotNumber { place: at(part) });
    }
    match decimal_of(bytes(part)) {
        Some(number) => on_grid(grid, at(part), number),
        None => Err(PointFault::OutOfRange { place: at(part) }),
    }
}

/// The coordinates and what they become.
pub(crate) fn changes_of<'a, A: Allocator + Copy>(
    alloc: A,
    grid: Grid,
    parts: &[Span<'a>],
) -> Result<Vec<Change<'a>, A>, PointFault>
    ensures { AnswersAs (λ v. map change v.items) result
        (all_or_fault (new_text grid.digits grid.finer) (map node parts.now)) }
{
    let mut changes = Vec::new(alloc);
    for part in parts {
        let number = number_on_grid(grid, *part)?;
        changes.push(Change {
            span: *part,
            number,
        })?;
    }
    Ok(changes)
}
