// Decimals as whole numbers of units of 10^-24, and those rounded to fewer decimals.
ghost use Rattle.std.specs.Prelude.{◌≡◌, ◌≤◌, ◌<◌, ◌*◌, ◌^◌, ◌++◌, ◌+ℤ◌, ◌*ℤ◌, pos, unsigned_abs, take, drop, not, if◌then◌else◌, MatchOption, IfSome};
ghost use Rattle.std.specs.List.{list_all};
ghost use Rattle.json_spans.specs.Common.{is_zero};
ghost use Rattle.json_spans.specs.Whole.{minus};
ghost use Rattle.decimal_texts.specs.Fine.{reach, first_digits, fine, decimals, rounded, is_rounded};
ghost use Rattle.decimal_texts.specs.Seen.{parts};

use crate::decimal::Decimal;
use crate::digits::{LIMIT, are_zeros, power_of_ten, read_digits, with_zeros};

/// How many decimals a unit has.
const DECIMALS: usize = 24;

/// So many first digits, or all of them.
fn first(digits: &[u8], count: usize) -> &[u8]
    ensures { result.now ≡ take count digits.now }
{
    &digits[..count.min(digits.len())]
}

/// What follows so many first digits.
fn behind(digits: &[u8], count: usize) -> &[u8]
    ensures { result.now ≡ drop count digits.now }
{
    &digits[count.min(digits.len())..]
}

/// The number of this size and sign, where its size is below 10^37.
fn with_sign(is_negative: bool, size: u128) -> Option<i128>
    requires { size ≤ 10 ^ 37 }
    ensures value { MatchOption result (10 ^ 37 ≤ size)
        (λ z. z ≡ (if is_negative then minus size else pos size)) }
    ensures bound { IfSome result (λ z. unsigned_abs z < 10 ^ 37) }
{
    if size >= LIMIT {
        None
    } else if is_negative {
        Some(-(size as i128))
    } else {
        Some(size as i128)
    }
}

impl Decimal<'_> {
    /// How many digits stand up to the 24th decimal, zeros after the last digit among them.
    fn reach(&self) -> usize
        ensures { result ≡ reach (parts self.now) }
    {
        let place = self.integer.len() as i128 + i128::from(self.exponent) + 24;
        if place < 0 { 0 } else { place as usize }
    }

    /// The number that so many first digits are, where it is below 10^37.
    fn first_digits(&self, count: usize) -> Option<u128>
        ensures value { MatchOption result
            (10 ^ 37 ≤ first_digits count (self.now.integer.now ++ self.now.fraction.now))
            (λ n. n ≡ first_digits count (self.now.integer.now ++ self.now.fraction.now)) }
        ensures bound { IfSome result (λ n. n < 10 ^ 37) }
    {
        let integer = first(self.integer, count);
        let left = count - integer.len();
        let fraction = first(self.fraction, left);
        let number = read_digits(read_digits(0, integer)?, fraction)?;
        with_zeros(number, left - fraction.len())
    }

    /// Whether nothing but zeros follows so many first digits.
    fn ends_at(&self, count: usize) -> bool
        ensures { result
            ≡ list_all is_zero (drop count (self.now.integer.now ++ self.now.fraction.now)) }
    {
        let left = count.saturating_sub(self.integer.len());
        are_zeros(behind(self.integer, count)) && are_zeros(behind(self.fraction, left))
    }

    /// The units of 10^-24 in it, rounded down: all of it where it has at most 24 decimals.
    ///
    /// `None` comes where there are 10^37 or more.
    pub fn fine(&self) -> Option<i128>
        ensures value { MatchOption result (10 ^ 37 ≤ unsigned_abs (fine (parts self.now)))
            (λ z. z ≡ fine (parts self.now)) }
        ensures bound { IfSome result (λ z. unsigned_abs z < 10 ^ 37) }
    {
        let reach = self.reach();
        let number = self.first_digits(reach)?;
        if self.is_negative && !self.ends_at(reach) {
            with_sign(true, number + 1)
        } else {
            with_sign(self.is_negative, number)
        }
    }
}

/// How many decimals so many units of 10^-24 have: the least number of them.
pub fn decimals(units: i128) -> usize
    ensures value { result ≡ decimals units }
    ensures bound { result ≤ 24 }
{
    let mut left = units.unsigned_abs();
    // Most numbers are whole ones, and one division tells them.
    if left % power_of_ten(DECIMALS) == 0 {
        return 0;
    }
    let mut decimals = DECIMALS;
    while decimals > 0 && left % 10 == 0 {
        left /= 10;
        decimals -= 1;
    }
    decimals
}

/// So many units of 10^-24 as units of 10^-`digits`, rounded to the nearest, and halves up.
pub fn rounded(digits: usize, units: i128) -> i64
    requires digits { digits ≤ 24 }
    requires units { unsigned_abs units * 10 ^ digits ≤ 10 ^ 36 }
    ensures value { result ≡ rounded digits units }
    ensures bound { unsigned_abs result ≤ 10 ^ 12 }
{
    let unit = power_of_ten(DECIMALS - digits) as i128;
    (2 * units + unit).div_euclid(2 * unit) as i64
}

/// Whether rounding to so many decimals changes so many units of 10^-24.
pub fn is_rounded(digits: usize, units: i128) -> bool
    requires { digits ≤ 24 }
    ensures { result ≡ is_rounded digits units }
{
    units.unsigned_abs() % power_of_ten(DECIMALS - digits) != 0
}
