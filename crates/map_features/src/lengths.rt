// Round lengths, and how they are written.
ghost use Rattle.std.specs.Prelude.{◌≡◌, ◌++◌, ◌∷◌, [], codes, IfOk, OnOk};
ghost use Rattle.map_features.specs.Amounts.{grouped, zeros};

use crate::amounts::push_grouped;
use crate::units::{Unit, Units};
use std::alloc::{AllocError, Allocator};

/// How many zeros the number of the finest parts of a unit has.
const FINE_ZEROS: u32 = 24;

/// A round length, in the finest parts of a unit: a digit with so many zeros after it.
#[derive(Clone, Copy)]
pub struct Length {
    /// The digit, as it is written.
    digit: u8,
    zeros: u32,
    /// The number that this is.
    pub number: i128,
}

/// The greatest of 1, 2 and 5 times a power of ten that is at most this number, which is at least 1.
pub fn round_length(most: i128) -> Length {
    let mut power: i128 = 1;
    let mut zeros: u32 = 0;
    for count in 1..38u32 {
        if power.saturating_mul(10) <= most {
            power = power.saturating_mul(10);
            zeros = count;
        }
    }
    let (digit, times): (u8, i128) = if power.saturating_mul(5) <= most {
        (b'5', 5)
    } else if power.saturating_mul(2) <= most {
        (b'2', 2)
    } else {
        (b'1', 1)
    };
    Length {
        digit,
        zeros,
        number: power.saturating_mul(times),
    }
}

/// Appends so many zeros.
pub(crate) fn push_zeros<A: Allocator>(text: &mut Vec<u8, A>, count: u64) -> Result<(), AllocError>
    ensures { OnOk result (text.new.items ≡ text.old.items ++ zeros count) }
{
    for _zero in 0..count {
        text.push(b'0')?;
    }
    Ok(())
}

/// Digits with zeros behind them.
pub(crate) fn with_zeros<A: Allocator + Copy>(
    alloc: A,
    digits: &[u8],
    count: u64,
) -> Result<Vec<u8, A>, AllocError>
    ensures { IfOk result (λ text. text.items ≡ digits.now ++ zeros count) }
{
    let mut text = Vec::from_slice(alloc, digits)?;
    push_zeros(&mut text, count)?;
    Ok(text)
}

impl Unit {
    ghost use Rattle.map_features.specs.Lengths.{unit_words};

    /// What follows the number of a length.
    fn words(self) -> &'static str
        ensures { result.now ≡ unit_words self }
    {
        match self {
            Unit::Grid => " grid units",
            Unit::Map => " units",
            Unit::Degree => "\u{b0} of longitude",
        }
    }
}

/// Appends a digit with so many zeros behind it.
fn push_large<A: Allocator + Copy>(
    text: &mut Vec<u8, A>,
    alloc: A,
    digit: u8,
    count: u64,
) -> Result<(), AllocError>
    ensures { OnOk result
        (text.new.items ≡ text.old.items ++ grouped (digit ∷ zeros count)) }
{
    let digits = with_zeros(alloc, &[digit], count)?;
    push_grouped(text, digits.as_slice())
}

/// Appends a decimal point, so many zeros and a digit.
fn push_part<A: Allocator>(text: &mut Vec<u8, A>, digit: u8, count: u64) -> Result<(), AllocError>
    ensures { OnOk result
        (text.new.items ≡ text.old.items ++ (codes "0." ++ (zeros count ++ digit ∷ []))) }
{
    text.extend_from_slice(b"0.")?;
    push_zeros(text, count)?;
    text.push(digit)?;
    Ok(())
}

impl Length {
    ghost use Rattle.std.specs.Prelude.{◌≡◌, ◌++◌, IfOk, OnOk};
    ghost use Rattle.map_features.specs.Lengths.{length_digits, unit_words};

    /// Appends its number.
    fn push<A: Allocator + Copy>(self, text: &mut Vec<u8, A>, alloc: A) -> Result<(), AllocError>
        ensures { OnOk result
            (text.new.items ≡ text.old.items ++ length_digits self.digit self.zeros) }
    {
        if FINE_ZEROS <= self.zeros {
            push_large(text, alloc, self.digit, u64::from(self.zeros - FINE_ZEROS))
        } else {
            push_part(text, self.digit, u64::from(FINE_ZEROS - self.zeros - 1))
        }
    }

    /// The length in units, with the name of the unit.
    pub fn text<A: Allocator + Copy>(self, alloc: A, unit: Unit) -> Result<Vec<u8, A>, AllocError>
        ensures { IfOk result (λ text. text.items
            ≡ length_digits self.digit self.zeros ++ unit_words unit) }
    {
        let mut text = Vec::new(alloc);
        self.push(&mut text, alloc)?;
        text.extend_from_slice(unit.words().as_bytes())?;
        Ok(text)
    }
}

impl Units {
    /// How long so many units of the grid are across, in the finest parts of a unit, whichever way x grows.
    pub fn span(&self, across: i64) -> i128 {
        let unit = self.across.saturating_abs().max(1);
        unit.saturating_mul(i128::from(across))
    }
}
