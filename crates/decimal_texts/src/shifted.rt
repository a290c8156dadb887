// A decimal divided by a power of ten, as a number of a JSON text (RFC 8259, 6).
ghost use Rattle.std.specs.Prelude.{◌≡◌, ◌≤◌, ◌++◌, ◌-ℤ◌, pos, length, codes, OnOk};
ghost use Rattle.std.specs.Fmt.{signed_decimal};
ghost use Rattle.decimal_texts.specs.Shifted.{shifted_text, sign_text, without_zeros, or_zero};
ghost use Rattle.decimal_texts.specs.Seen.{parts};

use crate::decimal::Decimal;
use itoa::Buffer;
use std::alloc::{AllocError, Allocator};

/// The digits without the zeros before them.
fn without_zeros(digits: &[u8]) -> &[u8]
    ensures { result.now ≡ without_zeros digits.now }
{
    for (i, x) in digits.iter().enumerate() {
        if *x != b'0' {
            return &digits[i..];
        }
    }
    &[]
}

/// Appends a minus where the number is negative.
fn push_sign<A: Allocator>(text: &mut Vec<u8, A>, is_negative: bool) -> Result<(), AllocError>
    ensures { OnOk result (text.new.items ≡ text.old.items ++ sign_text is_negative) }
{
    if is_negative {
        text.extend_from_slice(b"-")?;
    }
    Ok(())
}

/// Appends two rows of digits as one number without zeros before it.
fn push_digits<A: Allocator>(
    text: &mut Vec<u8, A>,
    integer: &[u8],
    fraction: &[u8],
) -> Result<(), AllocError>
    ensures { OnOk result (text.new.items
        ≡ text.old.items ++ or_zero (without_zeros (integer.now ++ fraction.now))) }
{
    let integer = without_zeros(integer);
    if !integer.is_empty() {
        text.extend_from_slice(integer)?;
        return text.extend_from_slice(fraction);
    }
    let fraction = without_zeros(fraction);
    if fraction.is_empty() {
        text.extend_from_slice(b"0")
    } else {
        text.extend_from_slice(fraction)
    }
}

/// Appends the number divided by 10^`digits`, as a number of a JSON text.
pub fn push_shifted<A: Allocator>(
    text: &mut Vec<u8, A>,
    number: Decimal<'_>,
    digits: usize,
) -> Result<(), AllocError>
    requires { digits ≤ 36 }
    ensures { OnOk result
        (text.new.items ≡ text.old.items ++ shifted_text digits (parts number.entry)) }
{
    push_sign(text, number.is_negative)?;
    push_digits(text, number.integer, number.fraction)?;
    let power = i128::from(number.exponent) - number.fraction.len() as i128 - digits as i128;
    text.extend_from_slice(b"e")?;
    let mut buffer = Buffer::new();
    text.extend_from_slice(buffer.format(power).as_bytes())?;
    Ok(())
}
