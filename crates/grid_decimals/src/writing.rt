// Numbers with decimals, written (RFC 8259, 6).
ghost use Rattle.std.specs.Prelude.{◌≡◌, ◌≤◌, ◌<◌, ◌^◌, ◌++◌, OnOk};
ghost use Rattle.std.specs.Fmt.{decimal};
ghost use Rattle.grid_decimals.specs.Written.{fraction_text, minus_text, number_text, padded, shortest, units_text};

use crate::number::power_of_ten;
use itoa::Buffer;
use std::alloc::{AllocError, Allocator};

/// So many units of 10^-`decimals` with as few decimals as they have: how many these are, and how many units of the
/// last.
fn shortest(decimals: usize, units: u128) -> (usize, u128)
    ensures value { result ≡ shortest decimals units }
    ensures bound { result.0 ≤ decimals }
{
    let mut kept = decimals;
    let mut short = units;
    while kept > 0 && short % 10 == 0 {
        short /= 10;
        kept -= 1;
    }
    (kept, short)
}

/// Appends a whole number. Most are small, and shorter numbers are written faster.
fn push_whole<A: Allocator>(text: &mut Vec<u8, A>, number: u128) -> Result<(), AllocError>
    ensures { OnOk result (text.new.items ≡ text.old.items ++ decimal number) }
{
    let mut buffer = Buffer::new();
    match u64::try_from(number) {
        Ok(number) => text.extend_from_slice(buffer.format(number).as_bytes()),
        Err(_) => text.extend_from_slice(buffer.format(number).as_bytes()),
    }
}

/// Zeros, as many as a number has decimals.
const ZEROS: &[u8] = b"000000000000000000000000000000000000";

/// Appends a number with zeros before its digits, so many in all.
fn push_padded<A: Allocator>(
    text: &mut Vec<u8, A>,
    count: usize,
    number: u128,
) -> Result<(), AllocError>
    requires { count ≤ 36 }
    ensures { OnOk result (text.new.items ≡ text.old.items ++ padded count (decimal number)) }
{
    let mut buffer = Buffer::new();
    let digits = match u64::try_from(number) {
        Ok(number) => buffer.format(number).as_bytes(),
        Err(_) => buffer.format(number).as_bytes(),
    };
    text.extend_from_slice(&ZEROS[..count.saturating_sub(digits.len())])?;
    text.extend_from_slice(digits)
}

/// Appends a point and so many decimals; nothing where there are none.
fn push_fraction<A: Allocator>(
    text: &mut Vec<u8, A>,
    decimals: usize,
    units: u128,
) -> Result<(), AllocError>
    requires { decimals ≤ 36 }
    ensures { OnOk result (text.new.items ≡ text.old.items ++ fraction_text decimals units) }
{
    if decimals == 0 {
        return Ok(());
    }
    text.push(b'.')?;
    push_padded(text, decimals, units)
}

/// Appends so many units of 10^-`decimals` with all these decimals.
fn push_units<A: Allocator>(
    text: &mut Vec<u8, A>,
    decimals: usize,
    units: u128,
) -> Result<(), AllocError>
    requires { decimals ≤ 36 }
    ensures { OnOk result (text.new.items ≡ text.old.items ++ units_text (decimals, units)) }
{
    let one = power_of_ten(decimals);
    push_whole(text, units / one)?;
    push_fraction(text, decimals, units % one)
}

/// Appends so many units of 10^-`decimals` as a number of a JSON text: without an exponent, without zeros behind the
/// fraction, and 0 without a minus.
pub fn push_number<A: Allocator>(
    text: &mut Vec<u8, A>,
    decimals: usize,
    units: i128,
) -> Result<(), AllocError>
    requires { decimals ≤ 36 }
    ensures { OnOk result (text.new.items ≡ text.old.items ++ number_text decimals units) }
{
    if units < 0 {
        text.push(b'-')?;
    }
    let (decimals, units) = shortest(decimals, units.unsigned_abs());
    push_units(text, decimals, units)
}
