// The parts of a number, from its bytes.
ghost use Rattle.std.specs.Prelude.{◌≡◌, ◌<◌, length, option_map, IfSome, IsNone, IsTrue, unsigned_abs};
ghost use Rattle.std.specs.List.{list_all};
ghost use Rattle.json_spans.specs.Common.{is_digit, IsNumber};
ghost use Rattle.decimal_texts.specs.Decimal.{parts_of, unsigned, behind_integer, with_exponent, exponent_of, signed_small, small};
ghost use Rattle.decimal_texts.specs.Exponent.{exponent_digits};
ghost use Rattle.decimal_texts.specs.Seen.{parts};

use crate::decimal::Decimal;
use crate::digits::{digits_len, read_digits};

/// The number that at most three digits are, and nothing else.
fn small(bytes: &[u8]) -> Option<u16>
    ensures value { result ≡ small bytes.now }
    ensures bound { IfSome result (λ n. n < 1000) }
{
    let len = digits_len(bytes);
    if len == 0 || len > 3 || len < bytes.len() {
        return None;
    }
    Some(read_digits(0, bytes)? as u16)
}

/// The number that at most three digits are, perhaps after a sign.
fn signed(bytes: &[u8]) -> Option<i64>
    ensures value { result ≡ signed_small bytes.now }
    ensures bound { IfSome result (λ z. unsigned_abs z < 1000) }
{
    match bytes {
        [b'-', digits @ ..] => Some(-i64::from(small(digits)?)),
        [b'+', digits @ ..] => Some(i64::from(small(digits)?)),
        _ => Some(i64::from(small(bytes)?)),
    }
}

/// The power of ten that follows the digits.
fn exponent_of(bytes: &[u8]) -> Option<i64>
    ensures value { result ≡ exponent_of bytes.now }
    ensures bound { IfSome result (λ z. unsigned_abs z < 1000) }
{
    match bytes {
        [] => Some(0),
        [b'e' | b'E', power @ ..] => signed(power),
        _ => None,
    }
}

/// The number of these digits, with what follows them.
fn with_exponent<'a>(
    is_negative: bool,
    integer: &'a [u8],
    fraction: &'a [u8],
    rest: &[u8],
) -> Option<Decimal<'a>>
    requires integer { IsTrue (list_all is_digit integer.now) }
    requires fraction { IsTrue (list_all is_digit fraction.now) }
    ensures { option_map parts result
        ≡ with_exponent is_negative integer.now fraction.now (exponent_of rest.now) }
{
    let exponent = exponent_of(rest)?;
    Some(Decimal {
        is_negative,
        integer,
        fraction,
        exponent,
    })
}

/// The number of these digits before the point, with what follows them.
fn behind_integer<'a>(is_negative: bool, integer: &'a [u8], rest: &'a [u8]) -> Option<Decimal<'a>>
    requires { IsTrue (list_all is_digit integer.now) }
    ensures { option_map parts result ≡ behind_integer is_negative integer.now rest.now }
{
    match rest {
        [b'.', rest @ ..] => {
            let (fraction, power) = rest.split_at(digits_len(rest));
            if fraction.is_empty() {
                return None;
            }
            with_exponent(is_negative, integer, fraction, power)
        }
        _ => with_exponent(is_negative, integer, &[], rest),
    }
}

/// The number whose digits stand at the start.
fn unsigned(is_negative: bool, bytes: &[u8]) -> Option<Decimal<'_>>
    ensures { option_map parts result ≡ unsigned is_negative bytes.now }
{
    let (integer, rest) = bytes.split_at(digits_len(bytes));
    if integer.is_empty() {
        return None;
    }
    behind_integer(is_negative, integer, rest)
}

/// The parts of a number (RFC 8259, 6).
///
/// `None` comes for bytes that are none, and for a number whose exponent has more than three digits.
pub fn decimal_of(text: &[u8]) -> Option<Decimal<'_>>
    ensures value { option_map parts result ≡ parts_of text.now }
    ensures numbers { IsNumber text.now → IsNone result → 3 < length (exponent_digits text.now) }
{
    match text {
        [b'-', rest @ ..] => unsigned(true, rest),
        _ => unsigned(false, text),
    }
}
