// The numbers of a transform, from their bytes (RFC 8259, 6).
ghost use Rattle.std.specs.Prelude.{◌≡◌, ◌==◌, ◌≤◌, ◌<◌, length, if◌then◌else◌, unsigned_abs, IfSome, Some};
ghost use Rattle.json_spans.specs.Common.{digits_len};
ghost use Rattle.decimal_texts.specs.Common.{behind_integer, exponent_of, parts_of, signed_small, small, unsigned, with_exponent};
ghost use Rattle.grid_decimals.specs.Number.{without_zeros_behind};
ghost use Rattle.grid_decimals.specs.Seen.{IsRead};

use crate::number::{Number, read_digits, without_zeros_behind};

/// How many digits stand at the start.
fn digits_len(bytes: &[u8]) -> usize
    ensures value { result ≡ digits_len bytes.now }
    ensures bound { result ≤ length bytes.now }
{
    bytes.iter().take_while(|x| x.is_ascii_digit()).count()
}

/// The number that at most three digits are, and nothing else.
fn small(bytes: &[u8]) -> Option<u16>
    ensures value { result ≡ small bytes.now }
    ensures bound { IfSome result (λ n. n < 1000) }
{
    let len = digits_len(bytes);
    if len == 0 || len > 3 || len < bytes.len() {
        return None;
    }
    Some(read_digits(0, bytes)? as u16)
}

/// The number that at most three digits are, perhaps after a sign.
fn signed_small(bytes: &[u8]) -> Option<i64>
    ensures value { result ≡ signed_small bytes.now }
    ensures bound { IfSome result (λ z. unsigned_abs z < 1000) }
{
    match bytes {
        [b'-', digits @ ..] => Some(-i64::from(small(digits)?)),
        [b'+', digits @ ..] => Some(i64::from(small(digits)?)),
        _ => Some(i64::from(small(bytes)?)),
    }
}

/// The power of ten that follows the digits.
fn exponent_of(bytes: &[u8]) -> Option<i64>
    ensures value { result ≡ exponent_of bytes.now }
    ensures bound { IfSome result (λ z. unsigned_abs z < 1000) }
{
    match bytes {
        [] => Some(0),
        [b'e' | b'E', power @ ..] => signed_small(power),
        _ => None,
    }
}

/// The digits before a point that are kept, where these are kept behind it: all of them, or where none are kept behind
/// it, those before the zeros at their end.
fn kept_integer<'a>(integer: &'a [u8], fraction: &[u8]) -> &'a [u8]
    ensures value { result.now ≡ (if length fraction.now == 0 then without_zeros_behind integer.now
        else integer.now) }
    ensures short { length result.now ≤ length integer.now }
{
    if fraction.is_empty() {
        without_zeros_behind(integer)
    } else {
        integer
    }
}

/// The number of these digits before and after its point. `None` comes for one over 10^37 without its zeros behind.
fn number_of_digits(
    is_negative: bool,
    integer: &[u8],
    fraction: &[u8],
    exponent: i64,
) -> Option<Number>
    requires { unsigned_abs exponent < 1000 }
    ensures { IsRead result
        (with_exponent is_negative integer.now fraction.now (Some exponent)) }
{
    let fraction = without_zeros_behind(fraction);
    let kept = kept_integer(integer, fraction);
    let size = read_digits(read_digits(0, kept)?, fraction)?;
    let zeros = integer.len() as i128 - kept.len() as i128;
    Some(Number {
        is_negative,
        size,
        power: i128::from(exponent) + zeros - fraction.len() as i128,
    })
}

/// The number of these digits, with what follows them.
fn with_exponent(is_negative: bool, integer: &[u8], fraction: &[u8], rest: &[u8]) -> Option<Number>
    ensures { IsRead result
        (with_exponent is_negative integer.now fraction.now (exponent_of rest.now)) }
{
    number_of_digits(is_negative, integer, fraction, exponent_of(rest)?)
}

/// The number of these digits before the point, with what follows them.
fn behind_integer(is_negative: bool, integer: &[u8], rest: &[u8]) -> Option<Number>
    ensures { IsRead result (behind_integer is_negative integer.now rest.now) }
{
    match rest {
        [b'.', rest @ ..] => {
            let (fraction, power) = rest.split_at(digits_len(rest));
            if fraction.is_empty() {
                return None;
            }
            with_exponent(is_negative, integer, fraction, power)
        }
        _ => with_exponent(is_negative, integer, &[], rest),
    }
}

/// The number whose digits stand at the start.
fn unsigned(is_negative: bool, bytes: &[u8]) -> Option<Number>
    ensures { IsRead result (unsigned is_negative bytes.now) }
{
    let (integer, rest) = bytes.split_at(digits_len(bytes));
    if integer.is_empty() {
        return None;
    }
    behind_integer(is_negative, integer, rest)
}

/// A number of a JSON text. `None` comes for bytes that are none, for an exponent of more than three digits, and for a
/// number whose digits are over 10^37 without the zeros behind them.
pub(crate) fn number_of(text: &[u8]) -> Option<Number>
    ensures { IsRead result (parts_of text.now) }
{
    match text {
        [b'-', rest @ ..] => unsigned(true, rest),
        _ => unsigned(false, text),
    }
}
