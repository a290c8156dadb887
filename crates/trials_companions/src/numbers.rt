//! What is read of numbers and of damaged bytes, how it is rounded, and what is written of it.
ghost use Rattle.std.specs.Prelude.{◌≤◌};

use decimal_texts::{decimal_of, decimals, is_rounded, push_shifted, rounded};
use std::alloc::Global;
use std::process::Abort;

/// A number, and how many units of 10^-24 are in it, where there are fewer than 10^37.
const NUMBERS: &[(&[u8], Option<i128>)] = &[
    (b"0", Some(0)),
    (b"1.5", Some(1_500_000_000_000_000_000_000_000)),
    (b"-0.25", Some(-250_000_000_000_000_000_000_000)),
    (b"0.1e-3", Some(100_000_000_000_000_000_000)),
    (b"1e2", Some(100_000_000_000_000_000_000_000_000)),
    (b"1E+2", Some(100_000_000_000_000_000_000_000_000)),
    (b"5e-30", Some(0)),
    (b"-5e-30", Some(-1)),
    (b"-1e-24", Some(-1)),
    (b"0e999", Some(0)),
    (b"01", Some(1_000_000_000_000_000_000_000_000)),
    (
        b"123456789012.000000000000000000000001",
        Some(123_456_789_012_000_000_000_000_000_000_000_001),
    ),
    (b"10000000000000", None),
    (b"-1e999", None),
    (b"-9999999999999.9999999999999999999999999", None),
];

/// Bytes that are no number, and a number whose exponent has four digits.
const DAMAGED: &[&[u8]] = &[
    b"", b"-", b"1.", b".5", b"1e", b"1e+", b"1e1000", b"abc", b"1.5 ",
];

/// Half a whole.
const HALF: i128 = 500_000_000_000_000_000_000_000;

/// A number, by how many decimals it is divided, and what is written.
const SHIFTED: &[(&[u8], usize, &[u8])] = &[
    (b"0.0001", 1, b"1e-5"),
    (b"2.5e-3", 1, b"25e-5"),
    (b"0", 1, b"0e-1"),
    (b"-00.0", 0, b"-0e-1"),
    (b"-10.25", 7, b"-1025e-9"),
];

/// The units in a number, if it is one.
fn units_of(text: &[u8]) -> Option<Option<i128>> {
    Some(decimal_of(text)?.fine())
}

#[test]
fn numbers_are_read(rt: HostRuntime) {
    for (text, units) in NUMBERS {
        assert!(rt; units_of(text) == Some(*units));
    }
    for text in DAMAGED {
        assert!(rt; units_of(text).is_none());
    }
}

#[test]
fn units_are_rounded(rt: HostRuntime) {
    assert!(rt; rounded(0, HALF) == 1 && rounded(0, -HALF) == 0);
    assert!(rt; rounded(0, 3 * HALF) == 2 && rounded(0, -3 * HALF) == -1);
    assert!(rt; rounded(1, -3 * HALF) == -15 && rounded(24, -7) == -7);
    assert!(rt; is_rounded(0, HALF) && !is_rounded(1, HALF) && !is_rounded(24, -7));
    assert!(rt; decimals(3 * HALF) == 1 && decimals(-1) == 24 && decimals(0) == 0);
}

/// Writes the number divided by so many powers of ten, and whether that is the text.
fn is_written<R: Abort>(rt: &R, alloc: Global, text: &[u8], digits: usize, want: &[u8]) -> bool
    requires { digits ≤ 36 }
{
    let mut written = Vec::new(alloc);
    let Some(number) = decimal_of(text) else {
        return false;
    };
    push_shifted(&mut written, number, digits).expect(rt, "there is memory");
    written.as_slice() == want
}

#[test]
fn numbers_are_written(rt: HostRuntime) {
    for (text, digits, want) in SHIFTED {
        assert!(rt; *digits <= 36 && is_written(&rt, rt.alloc(), text, *digits, want));
    }
}
