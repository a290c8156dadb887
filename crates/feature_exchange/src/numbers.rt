// The numbers of rings: of those that a feature has, and of those that were laid.
ghost use Rattle.std.specs.Prelude.{◌≡◌, ◌++◌, IfOk, OnOk};
ghost use Rattle.std.specs.List.{flat_map};
ghost use Rattle.map_frame.specs.Common.{polygon_numbers};
ghost use Rattle.feature_exchange.specs.Common.{numbers_of, rings_under};

use crate::change::Change;
use crate::laid::LaidRing;
use map_frame::Frame;
use std::alloc::{AllocError, Allocator};

/// Appends the numbers of the rings of these polygons.
fn push_polygons<A: Allocator + Copy>(
    polygons: &[Vec<usize, A>],
    numbers: &mut Vec<usize, A>,
) -> Result<(), AllocError>
    ensures { OnOk result
        (numbers.new.items ≡ numbers.old.items ++ flat_map polygon_numbers polygons.now) }
{
    for rings in polygons {
        numbers.extend_from_slice(rings.as_slice())?;
    }
    Ok(())
}

/// Appends the numbers of the rings of feature `n`, polygon after polygon; none where no feature has
/// the number. Fails only on allocation failure.
fn push_feature<'a, A: Allocator + Copy>(
    frame: &Frame<'a, A>,
    n: u32,
    numbers: &mut Vec<usize, A>,
) -> Result<(), AllocError>
    ensures { OnOk result (numbers.new.items ≡ numbers.old.items ++ rings_under frame.now.doc n) }
{
    match frame.polygons(n) {
        Some(polygons) => push_polygons(polygons, numbers),
        None => Ok(()),
    }
}

/// Appends the numbers of the rings that these numbers have, feature after feature. Fails only on
/// allocation failure.
pub(crate) fn push_features<'a, A: Allocator + Copy>(
    frame: &Frame<'a, A>,
    changes: &[Change<'a, A>],
    numbers: &mut Vec<usize, A>,
) -> Result<(), AllocError>
    ensures { OnOk result (numbers.new.items
        ≡ numbers.old.items ++ flat_map (λ c. rings_under frame.now.doc c.number) changes.now) }
{
    for change in changes {
        push_feature(frame, change.number, numbers)?;
    }
    Ok(())
}

/// The numbers of these rings. Fails only on allocation failure.
pub(crate) fn laid_numbers<A: Allocator + Copy>(
    alloc: A,
    laid: &[LaidRing<A>],
) -> Result<Vec<usize, A>, AllocError>
    ensures { IfOk result (λ numbers. numbers.items ≡ numbers_of laid.now) }
{
    let mut numbers = Vec::new(alloc);
    for ring in laid {
        numbers.push(ring.number)?;
    }
    Ok(numbers)
}
