// Areas on the map's own scale, and how they are written.
ghost use Rattle.std.specs.Prelude.{◌≡◌, ◌++◌, ◌≤◌, codes, nat_le, unsigned_abs, IfOk, OnOk};
ghost use Rattle.map_features.specs.Amounts.{zeros};
ghost use Rattle.map_features.specs.SquareUnits.{cut_below, cut_once, decimal_at, digits_with_point, ends_in_zero, fraction_of, half_of_number, number_text, point_of, power_text, product_of, shorter, without_last_zeros, whole_number};

use crate::amounts::{half, push_grouped, sign};
use crate::lengths::{push_zeros, with_zeros};
use crate::units::{Unit, Units};
use std::alloc::{AllocError, Allocator};

/// An area of the grid is written whole where twice as much is below this.
const MOST_WHOLE: u128 = 2_000_000_000_000;

/// What has at most twelve digits is below this: three such numbers can be multiplied.
const TWELVE_DIGITS: u128 = 1_000_000_000_000;

/// What has at most nine digits, as many as are shown, is below this.
const NINE_DIGITS: u128 = 1_000_000_000;

/// How many digits stand before the decimal point at most, and, less than 0, how many zeros follow it at most.
const MOST_BEFORE: i64 = 12;

const LEAST_POINT: i64 = -5;

/// How many powers of ten the finest parts of a square unit are below it.
const FINE_POWERS: i64 = 48;

/// A number: digits, times a power of ten.
#[derive(Clone, Copy)]
struct Rounded {
    digits: u128,
    power: i64,
}

impl Rounded {
    /// A whole number.
    fn of(number: i128) -> Rounded
        ensures { result ≡ whole_number (unsigned_abs number) }
    {
        Rounded {
            digits: number.unsigned_abs(),
            power: 0,
        }
    }

    /// Without its last digit.
    fn shorter(self) -> Rounded
        ensures { result ≡ shorter self }
    {
        Rounded {
            digits: self.digits / 10,
            power: self.power.saturating_add(1),
        }
    }

    /// Without its last digit, where it is not below this with it.
    fn cut(self, most: u128) -> Rounded
        ensures { result ≡ cut_once (nat_le most) self }
    {
        if most <= self.digits {
            self.shorter()
        } else {
            self
        }
    }

    /// Without its last digits, where it is not below this with them.
    fn below(self, most: u128) -> Rounded
        ensures { result ≡ cut_below most self }
    {
        let mut number = self;
        for _digit in 0..40u8 {
            number = number.cut(most);
        }
        number
    }

    /// Without its last digit, where that is a zero.
    fn stripped(self) -> Rounded
        ensures { result ≡ cut_once ends_in_zero self }
    {
        if self.digits % 10 == 0 {
            self.shorter()
        } else {
            self
        }
    }

    /// Without zeros after its digits.
    fn trimmed(self) -> Rounded
        ensures { result ≡ without_last_zeros self }
    {
        let mut number = self;
        for _digit in 0..40u8 {
            number = number.stripped();
        }
        number
    }

    /// Both multiplied.
    fn times(self, other: Rounded) -> Rounded
        ensures { result ≡ product_of self other }
    {
        Rounded {
            digits: self.digits.saturating_mul(other.digits),
            power: self.power.saturating_add(other.power),
        }
    }

    /// Half of it.
    fn halved(self) -> Rounded
        ensures { result ≡ half_of_number self }
    {
        let five = Rounded {
            digits: 5,
            power: -1,
        };
        self.times(five)
    }

    /// How many digits behind the first of so many its decimal point stands.
    fn point(self, count: usize) -> i64
        requires { count ≤ 64 }
        ensures { result ≡ point_of self count }
    {
        if self.digits == 0 {
            1
        } else {
            self.power.saturating_add(count as i64)
        }
    }

    /// How it is written.
    #[tactic(auto, using(crate::proofs::DigitLemmas::few_digits))]
    fn text<A: Allocator + Copy>(self, alloc: A) -> Result<Vec<u8, A>, AllocError>
        ensures { IfOk result (λ text. text.items ≡ number_text self) }
    {
        let digits = format!(in alloc; "{}", self.digits)?;
        let digits = digits.as_bytes();
        let mut text = Vec::new(alloc);
        push_digits_at(&mut text, alloc, digits, self.point(digits.len()))?;
        Ok(text)
    }
}

/// Appends a decimal point and digits, if there are any.
fn push_fraction<A: Allocator>(text: &mut Vec<u8, A>, digits: &[u8]) -> Result<(), AllocError>
    ensures { OnOk result (text.new.items ≡ text.old.items ++ fraction_of digits.now) }
{
    if !digits.is_empty() {
        text.push(b'.')?;
        text.extend_from_slice(digits)?;
    }
    Ok(())
}

/// Appends digits with a decimal point after so many of them, and zeros where these are more.
fn push_decimal<A: Allocator + Copy>(
    text: &mut Vec<u8, A>,
    alloc: A,
    digits: &[u8],
    point: usize,
) -> Result<(), AllocError>
    ensures { OnOk result (text.new.items ≡ text.old.items ++ decimal_at digits.now point) }
{
    let end = point.min(digits.len());
    let whole = with_zeros(alloc, &digits[..end], (point - end) as u64)?;
    push_grouped(text, whole.as_slice())?;
    push_fraction(text, &digits[end..])
}

/// Appends digits behind a decimal point and so many zeros.
fn push_small<A: Allocator>(
    text: &mut Vec<u8, A>,
    digits: &[u8],
    count: u64,
) -> Result<(), AllocError>
    ensures { OnOk result
        (text.new.items ≡ text.old.items ++ (codes "0." ++ (zeros count ++ digits.now))) }
{
    text.extend_from_slice(b"0.")?;
    push_zeros(text, count)?;
    text.extend_from_slice(digits)?;
    Ok(())
}

/// Appends digits with a decimal point after the first, and the power of ten that they are multiplied by.
fn push_power<A: Allocator + Copy>(
    text: &mut Vec<u8, A>,
    alloc: A,
    digits: &[u8],
    power: i64,
) -> Result<(), AllocError>
    ensures { OnOk result (text.new.items ≡ text.old.items ++ power_text digits.now power) }
{
    push_decimal(text, alloc, digits, 1)?;
    let power = format!(in alloc; "e{power}")?;
    text.extend_from_slice(power.as_bytes())?;
    Ok(())
}

/// Appends digits with the decimal point so many of them behind the first.
fn push_digits_at<A: Allocator + Copy>(
    text: &mut Vec<u8, A>,
    alloc: A,
    digits: &[u8],
    point: i64,
) -> Result<(), AllocError>
    ensures { OnOk result (text.new.items ≡ text.old.items ++ digits_with_point digits.now point) }
{
    if 0 < point && point <= MOST_BEFORE {
        push_decimal(text, alloc, digits, point.unsigned_abs() as usize)
    } else if point <= 0 && LEAST_POINT <= point {
        push_small(text, digits, point.unsigned_abs())
    } else {
        push_power(text, alloc, digits, point.saturating_sub(1))
    }
}

impl Unit {
    ghost use Rattle.map_features.specs.SquareUnits.{is_grid, square_words};

    /// Whether it is that of the grid.
    fn is_grid(self) -> bool
        ensures { result ≡ is_grid self }
    {
        matches!(self, Unit::Grid)
    }

    /// What areas are in.
    pub fn square_words(self) -> &'static str
        ensures { result.now ≡ square_words self }
    {
        match self {
            Unit::Grid => "areas in square grid units",
            Unit::Map => "areas in square units",
            Unit::Degree => "areas in square degrees",
        }
    }
}

impl Units {
    ghost use Rattle.map_features.specs.Amounts.{sign_of};
    ghost use Rattle.map_features.specs.SquareUnits.{area_text, square_units};

    /// An area in square units, of which twice as much on the grid is this, with its first nine digits.
    fn square_units(&self, twice: i128) -> Rounded
        ensures { result ≡ square_units self.now twice }
    {
        let across = Rounded::of(self.across).below(TWELVE_DIGITS);
        let upward = Rounded::of(self.upward).below(TWELVE_DIGITS);
        let twice = Rounded::of(twice).below(TWELVE_DIGITS);
        let fine = twice.times(across).times(upward).halved();
        let area = Rounded {
            power: fine.power.saturating_sub(FINE_POWERS),
            ..fine
        };
        area.below(NINE_DIGITS).trimmed()
    }

    /// How an area is written, of which twice as much on the grid is this: in square units of the map, with its
    /// first nine digits, or whole where there is no transform.
    pub fn area_text<A: Allocator + Copy>(
        &self,
        alloc: A,
        twice: i128,
    ) -> Result<Vec<u8, A>, AllocError>
        ensures { IfOk result (λ text. text.items ≡ area_text self.now twice) }
    {
        if self.unit.is_grid() && twice.unsigned_abs() < MOST_WHOLE {
            half(alloc, twice)
        } else {
            self.square_units(twice).text(alloc)
        }
    }

    /// Appends an area as it is written.
    fn push_area<A: Allocator + Copy>(
        &self,
        text: &mut Vec<u8, A>,
        alloc: A,
        twice: i128,
    ) -> Result<(), AllocError>
        ensures { OnOk result (text.new.items ≡ text.old.items ++ area_text self.now twice) }
    {
        let area = self.area_text(alloc, twice)?;
        text.extend_from_slice(area.as_slice())?;
        Ok(())
    }

    /// The same with a sign, where it is not 0.
    pub fn signed_area_text<A: Allocator + Copy>(
        &self,
        alloc: A,
        twice: i128,
    ) -> Result<Vec<u8, A>, AllocError>
        ensures { IfOk result (λ text. text.items ≡ sign_of twice ++ area_text self.now twice) }
    {
        let mut text = Vec::from_slice(alloc, sign(twice).as_bytes())?;
        self.push_area(&mut text, alloc, twice)?;
        Ok(text)
    }
}
