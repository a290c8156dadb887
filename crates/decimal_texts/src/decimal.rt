//! The parts of a number.
ghost use Rattle.std.specs.Prelude.{IsTrue, ◌<◌, unsigned_abs};
ghost use Rattle.std.specs.List.{list_all};
ghost use Rattle.json_spans.specs.Common.{is_digit};

/// A number of a JSON text (RFC 8259, 6): its sign, its digits before the point and after it, and the
/// power of ten that they are multiplied by.
#[derive(Clone, Copy, Debug)]
pub struct Decimal<'a> {
    pub(crate) is_negative: bool,
    pub(crate) integer: &'a [u8],
    pub(crate) fraction: &'a [u8],
    pub(crate) exponent: i64,
    ghost integer_digits: { IsTrue (list_all is_digit integer.now) },
    ghost fraction_digits: { IsTrue (list_all is_digit fraction.now) },
    ghost small_exponent: { unsigned_abs exponent < 1000 },
}
