// Numbers, positions and tokens at the start of a line.
ghost use Rattle.std.specs.Prelude.{◌≡◌, ◌≢◌, ◌≤◌, ◌++◌, ◌<◌, ◌^◌, ◌∷◌, ℤ, List, ℕ, length, take_while, drop, reverse, MatchOption, FitsSigned};
ghost use Rattle.std.specs.Int.{w64};
ghost use Rattle.std.specs.Fmt.{decimal, signed_decimal};
ghost use Rattle.std.specs.Str.{bytes_eq};
ghost use Rattle.grid_geometry.specs.Common.{Position};
ghost use Rattle.script_lines.specs.Words.{is_letter, is_unmarked, IsSpaced, IsFeature, IsPlace, IsToken};

use crate::numbers::short_number;
use grid_geometry::Pos;
use itoa::{Buffer, Integer};
use json_spans::whole_text;
use std::str;

fn word_len(bytes: &[u8]) -> usize
    ensures value { result ≡ length (take_while is_letter bytes.now) }
    ensures bound { result ≤ length bytes.now }
{
    bytes.iter().take_while(|b| **b != b' ').count()
}

/// The word before the first space, and what stands from that space on.
pub(crate) fn split_word(bytes: &[u8]) -> (&[u8], &[u8])
    ensures word { result.0.now ≡ take_while is_letter bytes.now }
    ensures rest { result.1.now ≡ drop (length (take_while is_letter bytes.now)) bytes.now }
{
    let len = word_len(bytes);
    bytes.split_at(len)
}

/// Whether the word is the number with no plus and no needless 0.
fn is_written<I: Integer>(word: &[u8], number: I) -> bool
    ensures { result ≡ bytes_eq word.now (I.text number) }
{
    let mut buffer = Buffer::new();
    word == buffer.format(number).as_bytes()
}

/// The whole number that a word is.
fn number(word: &[u8]) -> Option<i64>
    ensures { MatchOption result
        ((z : ℤ) → FitsSigned w64 z → word.now ≢ signed_decimal z)
        (λ z. (word.now ≡ signed_decimal z) × FitsSigned w64 z) }
{
    let Ok(number) = whole_text(word) else {
        return None;
    };
    if is_written(word, number) {
        Some(number)
    } else {
        None
    }
}

/// The number of at most 128 bits, with no minus, that a word is.
pub(crate) fn wide_number(word: &[u8]) -> Option<u128>
    ensures { MatchOption result
        ((n : ℕ) → n < 2 ^ 128 → word.now ≢ decimal n)
        (λ n. (word.now ≡ decimal n) × (n < 2 ^ 128)) }
{
    let Ok(text) = str::from_utf8(word) else {
        return None;
    };
    let Ok(number) = text.parse::<u128>() else {
        return None;
    };
    if is_written(word, number) {
        Some(number)
    } else {
        None
    }
}

/// What follows a word at the start.
#[tactic(auto, using(crate::proofs::WordLemmas::behind_found, crate::proofs::WordLemmas::behind_none))]
pub(crate) fn behind<'b>(word: &[u8], bytes: &'b [u8]) -> Option<&'b [u8]>
    ensures { MatchOption result
        ((rest : List ℕ) → bytes.now ≢ word.now ++ rest)
        (λ rest. bytes.now ≡ word.now ++ rest.now) }
{
    bytes.strip_prefix(word)
}

/// The number after a space, and what follows it.
pub(crate) fn spaced_number(bytes: &[u8]) -> Option<(i64, &[u8])>
    ensures { MatchOption result
        ((z : ℤ) (rest : List ℕ) → ¬ IsSpaced bytes.now z rest)
        (λ found. IsSpaced bytes.now found.0 found.1.now) }
{
    let tail = behind(b" ", bytes)?;
    if let Some(found) = short_number(tail) {
        return Some(found);
    }
    let (word, rest) = split_word(tail);
    Some((number(word)?, rest))
}

/// The number of a feature after a space, and what follows it.
pub(crate) fn spaced_feature(bytes: &[u8]) -> Option<(u32, &[u8])>
    ensures { MatchOption result
        ((n : ℕ) (rest : List ℕ) → ¬ IsFeature bytes.now n rest)
        (λ found. IsFeature bytes.now found.0 found.1.now) }
{
    let (number, rest) = spaced_number(bytes)?;
    match u32::try_from(number) {
        Ok(feature) => Some((feature, rest)),
        Err(_) => None,
    }
}

/// The first position, each of its numbers after a space, and what follows it.
pub(crate) fn spaced_position(bytes: &[u8]) -> Option<(Pos, &[u8])>
    ensures { MatchOption result
        ((p : Position) (rest : List ℕ) → ¬ IsPlace bytes.now p rest)
        (λ found. IsPlace bytes.now found.0 found.1.now) }
{
    let (x, behind_x) = spaced_number(bytes)?;
    let (y, rest) = spaced_number(behind_x)?;
    Some((Pos::new(x, y)?, rest))
}

/// How many bytes follow the last quotation mark.
fn unmarked_len(bytes: &[u8]) -> usize
    ensures value { result ≡ length (take_while is_unmarked (reverse bytes.now)) }
    ensures bound { result ≤ length bytes.now }
{
    bytes.iter().rev().take_while(|b| **b != b'"').count()
}

/// The token after a space, from a quotation mark to the last one, and what follows it.
pub(crate) fn spaced_token(bytes: &[u8]) -> Option<(&[u8], &[u8])>
    ensures { MatchOption result
        ((token rest : List ℕ) → ¬ IsToken bytes.now token rest)
        (λ found. IsToken bytes.now found.0.now found.1.now) }
{
    let tail = behind(b" ", bytes)?;
    behind(b"\"", tail)?;
    Some(tail.split_at(tail.len() - unmarked_len(tail)))
}
