// The grid of a map, by its transform (TopoJSON 1.0, 2.1.2).
ghost use Rattle.std.specs.Prelude.{◌≡◌, option_map, IfOk};
ghost use Rattle.decimal_texts.specs.Common.{Parts};
ghost use Rattle.grid_decimals.specs.Grid.{fitting, grid_of, grid_with, most_decimals, numbers_in, two_parts};
ghost use Rattle.grid_decimals.specs.Seen.{AreRead, HasParts, view_found};

use crate::axis::Axis;
use crate::grid::Grid;
use crate::number::Number;
use crate::reading::number_of;
use decimal_texts::value_in;
use json_spans::{Span, bytes, items};
use std::alloc::{AllocError, Global};

/// The most decimals of a coordinate.
const MOST_DECIMALS: usize = 36;

/// The numbers of a member of the transform: two, and no more.
fn two_numbers(
    heap: Global,
    name: &str,
    text: &[u8],
) -> Result<Option<(Number, Number)>, AllocError>
    ensures { IfOk result (λ found. AreRead found (two_parts (numbers_in name.now text.now))) }
{
    let Some(value) = value_in(heap, name, Span { text, at: 0 })? else {
        return Ok(None);
    };
    let mut numbers = items(value);
    match (numbers.next(), numbers.next(), numbers.next()) {
        (Some(x), Some(y), None) => match (number_of(bytes(x)), number_of(bytes(y))) {
            (Some(x), Some(y)) => Ok(Some((x, y))),
            _ => Ok(None),
        },
        _ => Ok(None),
    }
}

/// The grid of a scale and a translation.
fn grid_with(scale: (Number, Number), translate: (Number, Number)) -> Option<Grid>
    ensures { (p q : Parts × Parts) → HasParts scale.0 p.0 → HasParts scale.1 p.1
        → HasParts translate.0 q.0 → HasParts translate.1 q.1
        → view_found result ≡ fitting (grid_with (most_decimals p q) p q) }
{
    let of_scale = scale.0.decimals().max(scale.1.decimals());
    let of_translate = translate.0.decimals().max(translate.1.decimals());
    let decimals = of_scale.max(of_translate);
    if decimals > MOST_DECIMALS {
        return None;
    }
    Some(Grid {
        is_given: true,
        decimals,
        x: Axis::of(decimals, scale.0, translate.0)?,
        y: Axis::of(decimals, scale.1, translate.1)?,
    })
}

/// The grid of a map with this transform, or with none. `None` comes where a scale is 0, where a number has an
/// exponent of more than three digits, and where numbers are so long or large that coordinates could have more than 36
/// decimals or 37 digits.
pub fn grid_of(heap: Global, transform: Option<&[u8]>) -> Result<Option<Grid>, AllocError>
    ensures { IfOk result (λ found. view_found found ≡ grid_of (option_map (λ t. t.now) transform.entry)) }
{
    let Some(text) = transform else {
        return Ok(Some(Grid {
            is_given: false,
            decimals: 0,
            x: Axis::whole(),
            y: Axis::whole(),
        }));
    };
    let scale = two_numbers(heap, "scale", text)?;
    let translate = two_numbers(heap, "translate", text)?;
    match (scale, translate) {
        (Some(scale), Some(translate)) => Ok(grid_with(scale, translate)),
        _ => Ok(None),
    }
}
