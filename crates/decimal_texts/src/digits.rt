// Digits, and the numbers that they are.
ghost use Rattle.std.specs.Prelude.{◌≡◌, ◌≤◌, ◌<◌, ◌*◌, ◌^◌, length, MatchOption, IfSome};
ghost use Rattle.std.specs.List.{list_all};
ghost use Rattle.json_spans.specs.Common.{value_from, is_zero, digits_len};

/// One more than the largest number that is read.
pub(crate) const LIMIT: u128 = 10_000_000_000_000_000_000_000_000_000_000_000_000;

/// How many digits stand at the start.
pub(crate) fn digits_len(bytes: &[u8]) -> usize
    ensures value { result ≡ digits_len bytes.now }
    ensures bound { result ≤ length bytes.now }
{
    bytes.iter().take_while(|x| x.is_ascii_digit()).count()
}

/// Whether there is nothing but zeros.
pub(crate) fn are_zeros(digits: &[u8]) -> bool
    ensures { result ≡ list_all is_zero digits.now }
{
    digits.iter().all(|x| *x == b'0')
}

/// The number whose digits are those of another, and these after them, where it is below 10^37.
pub(crate) fn read_digits(number: u128, digits: &[u8]) -> Option<u128>
    requires { number < 10 ^ 37 }
    ensures value { MatchOption result (10 ^ 37 ≤ value_from number digits.now)
        (λ n. n ≡ value_from number digits.now) }
    ensures bound { IfSome result (λ n. n < 10 ^ 37) }
{
    let mut read = number;
    for x in digits {
        read = read * 10 + u128::from(x.saturating_sub(b'0'));
        if read >= LIMIT {
            return None;
        }
    }
    Some(read)
}

/// A number with so many zeros after its digits, where it is below 10^37.
pub(crate) fn with_zeros(number: u128, zeros: usize) -> Option<u128>
    requires { number < 10 ^ 37 }
    ensures value { MatchOption result (10 ^ 37 ≤ number * 10 ^ zeros)
        (λ n. n ≡ number * 10 ^ zeros) }
    ensures bound { IfSome result (λ n. n < 10 ^ 37) }
{
    let mut longer = number;
    for _ in 0..zeros {
        longer *= 10;
        if longer >= LIMIT {
            return None;
        }
    }
    Some(longer)
}

/// A power of ten.
pub(crate) fn power_of_ten(exponent: usize) -> u128
    requires { exponent ≤ 24 }
    ensures value { result ≡ 10 ^ exponent }
    ensures bound { result ≤ 10 ^ 24 }
{
    10u128.pow(exponent as u32)
}
