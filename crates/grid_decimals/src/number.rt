// A number as a whole number times a power of ten.
ghost use Rattle.std.specs.Prelude.{◌≡◌, ◌≤◌, ◌<◌, ◌+◌, ◌*◌, ◌^◌, length, IfSome, MatchOption, unsigned_abs};
ghost use Rattle.json_spans.specs.Common.{value_from};
ghost use Rattle.grid_decimals.specs.Number.{at_least_zero, with_sign, without_zeros_behind, zeros_at_end};

/// The largest number that is read.
pub(crate) const LIMIT: u128 = 10_000_000_000_000_000_000_000_000_000_000_000_000;

/// A number: a sign, a whole number, and the power of ten that this is multiplied by.
#[derive(Clone, Copy)]
pub(crate) struct Number {
    pub(crate) is_negative: bool,
    pub(crate) size: u128,
    pub(crate) power: i128,
    ghost small_size: { size ≤ 10 ^ 37 },
    ghost small_power: { unsigned_abs power ≤ 2 ^ 63 + 1000 },
}

/// How many zeros stand behind digits.
fn zeros_at_end(digits: &[u8]) -> usize
    ensures { result ≡ zeros_at_end digits.now }
{
    digits.iter().rev().take_while(|x| **x == b'0').count()
}

/// The digits without the zeros behind them.
pub(crate) fn without_zeros_behind(digits: &[u8]) -> &[u8]
    ensures value { result.now ≡ without_zeros_behind digits.now }
    ensures short { length result.now ≤ length digits.now }
{
    &digits[..digits.len().saturating_sub(zeros_at_end(digits))]
}

/// The number whose digits are those of another, and these after them, where it is at most 10^37.
pub(crate) fn read_digits(number: u128, digits: &[u8]) -> Option<u128>
    requires { number ≤ 10 ^ 37 }
    ensures value { MatchOption result (10 ^ 37 < value_from number digits.now)
        (λ n. n ≡ value_from number digits.now) }
    ensures bound { IfSome result (λ n. n ≤ 10 ^ 37) }
{
    let mut read = number;
    for x in digits {
        read = read * 10 + u128::from(x.saturating_sub(b'0'));
        if read > LIMIT {
            return None;
        }
    }
    Some(read)
}

/// A number times a power of ten, where it is at most 10^37.
pub(crate) fn times_power(number: u128, power: usize) -> Option<u128>
    requires { number ≤ 10 ^ 37 }
    ensures value { MatchOption result (10 ^ 37 < number * 10 ^ power) (λ n. n ≡ number * 10 ^ power) }
    ensures bound { IfSome result (λ n. n ≤ 10 ^ 37) }
{
    let mut longer = number;
    for _ in 0..power {
        longer *= 10;
        if longer > LIMIT {
            return None;
        }
    }
    Some(longer)
}

/// A power of ten.
pub(crate) fn power_of_ten(exponent: usize) -> u128
    requires { exponent ≤ 36 }
    ensures value { result ≡ 10 ^ exponent }
    ensures bound { result ≤ 10 ^ 36 }
{
    10u128.pow(exponent as u32)
}

/// A number, and 0 in the place of a negative one.
pub(crate) fn at_least_zero(number: i128) -> usize
    requires { unsigned_abs number < 2 ^ 64 }
    ensures { result ≡ at_least_zero number }
{
    if number < 0 { 0 } else { number as usize }
}

/// The number of this size and sign.
fn with_sign(is_negative: bool, size: u128) -> i128
    requires { size ≤ 10 ^ 37 }
    ensures { result ≡ with_sign is_negative size }
{
    if is_negative {
        -(size as i128)
    } else {
        size as i128
    }
}

impl Number {
    ghost use Rattle.grid_decimals.specs.Number.{decimals_of, units_of};
    ghost use Rattle.grid_decimals.specs.Seen.{HasParts};
    ghost use Rattle.decimal_texts.specs.Common.{Parts};

    /// How many decimals it has, zeros behind them left out.
    pub(crate) fn decimals(&self) -> usize
        ensures { (p : Parts) → HasParts self.now p → result ≡ decimals_of p }
    {
        if self.size == 0 {
            0
        } else {
            at_least_zero(-self.power)
        }
    }

    /// The number in units of the last of so many decimals, where it has no more. `None` comes where there are more
    /// than 10^37.
    pub(crate) fn units(&self, decimals: usize) -> Option<i128>
        requires { decimals ≤ 36 }
        ensures { (p : Parts) → HasParts self.now p → MatchOption result
            (10 ^ 37 < unsigned_abs (units_of decimals p)) (λ z. z ≡ units_of decimals p) }
    {
        let power = at_least_zero(decimals as i128 + self.power);
        let size = times_power(self.size, power)?;
        Some(with_sign(self.is_negative, size))
    }
}
