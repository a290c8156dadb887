// A whole text with its points on a grid.
ghost use Rattle.std.specs.Prelude.{◌≡◌, ◌≤◌, Ok};
ghost use Rattle.json_spans.specs.Common.{Json};
ghost use Rattle.decimal_texts.specs.Gives.{AnswersAs};
ghost use Rattle.decimal_texts.specs.Rounded.{rounded_points};

use crate::fault::PointFault;
use crate::points::all_coordinates;
use crate::rounding::{Grid, changes_of};
use crate::splicing::spliced;
use json_spans::{ScanFault, scan};
use std::alloc::{Allocator, Global};

/// The text of a topology in which each coordinate of a Point or a MultiPoint (TopoJSON 1.0, 2.2.1
/// and 2.2.2) is rounded to so many decimals, halves up, and is a whole number of the grid that has
/// these decimals and is 10^`finer` times as fine again: 1.26 becomes 13 with one decimal, and 130
/// where `finer` is 1. All else is as it stands, byte for byte, heights too.
///
/// Bytes that are no JSON with at most 100 lists and objects one in another are given as they are.
/// `Err` has the first coordinate that is no number, or that is out of range, or comes on allocation
/// failure.
pub fn rounded_points<A: Allocator + Copy>(
    alloc: A,
    heap: Global,
    bytes: &[u8],
    digits: usize,
    finer: usize,
) -> Result<Vec<u8, A>, PointFault>
    requires digits { digits ≤ 24 }
    requires finer { finer ≤ 12 }
    ensures text { Json 100 bytes.now →
        AnswersAs (λ v. v.items) result (rounded_points digits finer bytes.now) }
    ensures as_it_is { (¬ Json 100 bytes.now) → AnswersAs (λ v. v.items) result (Ok bytes.now) }
{
    let root = match scan(alloc, bytes) {
        Ok(root) => root,
        Err(ScanFault::NotJson { place: _ } | ScanFault::TooDeep { place: _ }) => {
            return Ok(Vec::from_slice(alloc, bytes)?);
        }
        Err(ScanFault::OutOfMemory) => return Err(PointFault::OutOfMemory),
    };
    let coordinates = all_coordinates(alloc, heap, root.span())?;
    let changes = changes_of(alloc, Grid { digits, finer }, coordinates.as_slice())?;
    Ok(spliced(alloc, bytes, changes.as_slice())?)
}
