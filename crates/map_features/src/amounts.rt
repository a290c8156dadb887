// Numbers as they are read: with their digits in groups of three.
ghost use Rattle.std.specs.Prelude.{◌≡◌, ◌<◌, ◌++◌, ◌*◌, ◌^◌, unsigned_abs, IfOk, OnOk};
ghost use Rattle.map_features.specs.Amounts.{comma_before, grouped, half_behind, half_text, hundredths_of, percent_text, sign_of};

use std::alloc::{AllocError, Allocator};

/// Appends the comma that stands before so many digits, if one does.
fn push_comma<A: Allocator>(text: &mut Vec<u8, A>, left: usize) -> Result<(), AllocError>
    ensures { OnOk result (text.new.items ≡ text.old.items ++ comma_before left) }
{
    if 0 < left && left % 3 == 0 {
        text.push(b',')?;
    }
    Ok(())
}

/// Appends digits in groups of three.
pub(crate) fn push_grouped<A: Allocator>(
    text: &mut Vec<u8, A>,
    digits: &[u8],
) -> Result<(), AllocError>
    ensures { OnOk result (text.new.items ≡ text.old.items ++ grouped digits.now) }
{
    for (index, digit) in digits.iter().enumerate() {
        text.push(*digit)?;
        push_comma(text, digits.len() - index - 1)?;
    }
    Ok(())
}

/// The sign of a number: none of 0.
pub(crate) fn sign(number: i128) -> &'static str
    ensures { result.now ≡ sign_of number }
{
    if number < 0 {
        "-"
    } else if number == 0 {
        ""
    } else {
        "+"
    }
}

/// Appends half of a number whose whole half has these digits, and which is odd or not.
fn push_half<A: Allocator>(
    text: &mut Vec<u8, A>,
    digits: &[u8],
    rest: u128,
) -> Result<(), AllocError>
    ensures { OnOk result
        (text.new.items ≡ text.old.items ++ (grouped digits.now ++ half_behind rest)) }
{
    push_grouped(text, digits)?;
    if rest == 1 {
        text.extend_from_slice(b".5")?;
    }
    Ok(())
}

/// Half of a number.
pub(crate) fn half<A: Allocator + Copy>(alloc: A, twice: i128) -> Result<Vec<u8, A>, AllocError>
    ensures { IfOk result (λ text. text.items ≡ half_text (unsigned_abs twice)) }
{
    let twice = twice.unsigned_abs();
    let digits = format!(in alloc; "{}", twice / 2)?;
    let mut text = Vec::new(alloc);
    push_half(&mut text, digits.as_bytes(), twice % 2)?;
    Ok(text)
}

/// How many hundredths of a percent a part is of a whole, rounded down. None where the whole is 0.
fn hundredths(part: u128, whole: u128) -> Option<u128>
    ensures { part * 10000 < 2 ^ 128 → result ≡ hundredths_of part whole }
{
    part.saturating_mul(10_000).checked_div(whole)
}

/// A difference in percent of the whole, with two decimals; nothing where the whole is 0.
pub fn percent<A: Allocator + Copy>(
    alloc: A,
    difference: i128,
    whole: i128,
) -> Result<Vec<u8, A>, AllocError>
    ensures { unsigned_abs difference * 10000 < 2 ^ 128
        → IfOk result (λ text. text.items ≡ percent_text difference whole) }
{
    let Some(share) = hundredths(difference.unsigned_abs(), whole.unsigned_abs()) else {
        return Ok(Vec::new(alloc));
    };
    let (whole, rest) = (share / 100, share % 100);
    let sign = sign(difference);
    let tens = rest / 10;
    let ones = rest % 10;
    Ok(format!(in alloc; "{sign}{whole}.{tens}{ones}%")?.into_bytes())
}
