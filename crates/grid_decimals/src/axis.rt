// An axis of a grid.
ghost use Rattle.std.specs.Prelude.{◌≡◌, ◌≤◌, ◌*◌, ◌^◌, pos, unsigned_abs};

use crate::number::Number;

/// How whole numbers of an axis become coordinates: how long a unit of the grid is, and where its 0 lies, in units of
/// the last decimal.
#[derive(Clone, Copy, Debug)]
pub struct Axis {
    pub(crate) scale: i128,
    pub(crate) translate: i128,
    ghost scale_range: { unsigned_abs scale ≤ 10 ^ 25 },
    ghost translate_range: { unsigned_abs translate ≤ 10 ^ 37 },
}

/// The largest scale.
const MOST_SCALE: u128 = 10_000_000_000_000_000_000_000_000;

/// The largest translation.
const MOST_TRANSLATE: u128 = 10_000_000_000_000_000_000_000_000_000_000_000_000;

impl Axis {
    ghost use Rattle.std.specs.Prelude.{◌≡◌, int_lt, MatchOption, true, false};
    ghost use Rattle.decimal_texts.specs.Common.{Parts};
    ghost use Rattle.grid_decimals.specs.Grid.{axis_of, coordinate_of, fits_axis};
    ghost use Rattle.grid_decimals.specs.Seen.{HasParts, view_axis};

    /// The axis without a transform.
    pub(crate) fn whole() -> Axis
        ensures scale { result.scale ≡ pos 1 }
        ensures translate { result.translate ≡ pos 0 }
    {
        Axis {
            scale: 1,
            translate: 0,
        }
    }

    /// The axis of these numbers, which have at most so many decimals. `None` comes where they are too large, or the
    /// scale is 0.
    pub(crate) fn of(decimals: usize, scale: Number, translate: Number) -> Option<Axis>
        requires { decimals ≤ 36 }
        ensures { (p q : Parts) → HasParts scale p → HasParts translate q → MatchOption result
            (fits_axis (axis_of decimals p q) ≡ false)
            (λ a. (view_axis a ≡ axis_of decimals p q) × (fits_axis (axis_of decimals p q) ≡ true)) }
    {
        let scale = scale.units(decimals)?;
        let translate = translate.units(decimals)?;
        if scale == 0
            || scale.unsigned_abs() > MOST_SCALE
            || translate.unsigned_abs() > MOST_TRANSLATE
        {
            return None;
        }
        Some(Axis { scale, translate })
    }

    /// Whether greater whole numbers lie at lesser coordinates.
    pub(crate) fn is_negative(&self) -> bool
        ensures { result ≡ int_lt self.now.scale (pos 0) }
    {
        self.scale < 0
    }

    /// Where a whole number of the grid lies.
    pub(crate) fn coordinate(&self, number: i64) -> i128
        requires { unsigned_abs number ≤ 10 ^ 12 }
        ensures value { result ≡ coordinate_of (view_axis self.now) number }
        ensures bound { unsigned_abs result ≤ 2 * 10 ^ 37 }
    {
        i128::from(number) * self.scale + self.translate
    }
}
