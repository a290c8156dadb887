//! Why a line of a script is a bad one.
ghost use Rattle.std.specs.Prelude.{◌≡◌, IsUtf8};

use std::fmt::{Display, Formatter, Result as FmtResult, Write};
use std::str;

/// The greatest absolute value of a coordinate.
const REACH: i64 = 1_000_000_000_000;

/// The most that the bound of a thinning may be.
const MAX_BOUND: u128 = 8_000_000_000_000_000_000_000_000;

/// The least number of positions of a path.
const MIN_PATH: usize = 2;

/// The most positions of a path.
const MAX_PATH: usize = 256;

/// Why a line is a bad one: what is wrong with it first, from its start on.
#[derive(Clone, Copy)]
pub(crate) enum Reason {
    /// It has more than 8,192 bytes before its line feed.
    TooLong,
    /// It is not UTF-8.
    NotUtf8,
    /// A space comes before its first word.
    SpaceAtStart,
    /// No command has its first word.
    UnknownWord,
    /// Two spaces stand between two words.
    TwoSpaces,
    /// A space comes after its last word.
    SpaceAtEnd,
    /// A number is not `0`, and not digits of which the first is not `0`, perhaps after a minus.
    NotWhole,
    /// A number is out of its range.
    OutOfRange,
    /// An id is not a JSON string, or has half of a surrogate pair.
    NotString,
    /// Arguments are missing.
    TooFew,
    /// There are more arguments than the command takes.
    TooMany,
}

impl Display for Reason {
    ghost use Rattle.std.specs.Prelude.{Some};
    ghost use Rattle.edit_program.specs.Listing.{reason_text};

    ghost output = { λ reason. Some (reason_text reason) };

    fn fmt<W: Write>(&self, f: &mut Formatter<W>) -> FmtResult {
        f.write_str(match self {
            Reason::TooLong => "too long",
            Reason::NotUtf8 => "not UTF-8",
            Reason::SpaceAtStart => "space at the start",
            Reason::UnknownWord => "unknown word",
            Reason::TwoSpaces => "two spaces",
            Reason::SpaceAtEnd => "space at the end",
            Reason::NotWhole => "not a whole number",
            Reason::OutOfRange => "number out of range",
            Reason::NotString => "not a JSON string",
            Reason::TooFew => "too few arguments",
            Reason::TooMany => "too many arguments",
        })
    }
}

/// What an argument is.
#[derive(Clone, Copy)]
enum Argument {
    Coordinate,
    Feature,
    Bound,
    Id,
    /// The positions of a path, which are the last arguments.
    Path,
}

use Argument::{Bound, Coordinate, Feature, Id, Path};

/// What the command of a word is asked with.
fn arguments_of(word: &[u8]) -> Option<&'static [Argument]> {
    match word {
        b"undo" | b"count" | b"document" => Some(&[]),
        b"remove" | b"at" => Some(&[Coordinate, Coordinate]),
        b"move" => Some(&[Coordinate, Coordinate, Coordinate, Coordinate]),
        b"insert" => Some(&[
            Coordinate, Coordinate, Coordinate, Coordinate, Coordinate, Coordinate,
        ]),
        b"thin" => Some(&[Bound]),
        b"delete" | b"area" | b"rings" | b"neighbours" => Some(&[Feature]),
        b"merge" => Some(&[Feature, Feature]),
        b"rename" => Some(&[Feature, Id]),
        b"split" => Some(&[Feature, Id, Path]),
        _ => None,
    }
}

/// The first word, and what stands from the space after it on.
fn split_word(text: &[u8]) -> (&[u8], &[u8]) {
    let length = text.iter().take_while(|byte| **byte != b' ').count();
    text.split_at(length)
}

/// What follows the space before an argument.
fn behind_space(rest: &[u8]) -> Result<&[u8], Reason> {
    match rest {
        [] => Err(Reason::TooFew),
        [b' '] => Err(Reason::SpaceAtEnd),
        [b' ', b' ', ..] => Err(Reason::TwoSpaces),
        [b' ', tail @ ..] => Ok(tail),
        // Only what ends a string stands directly before something else.
        _ => Err(Reason::NotString),
    }
}

/// Whether a word is `0`, or digits of which the first is not `0`, perhaps after a minus.
fn is_whole(word: &[u8]) -> bool {
    let digits = word.strip_prefix(b"-").unwrap_or(word);
    match digits {
        [] => false,
        [b'0'] => digits.len() == word.len(),
        [b'0', ..] => false,
        _ => digits.iter().all(|byte| byte.is_ascii_digit()),
    }
}

/// Whether a whole number is in the range of this argument.
fn is_in_range(argument: Argument, word: &str) -> bool {
    match argument {
        Coordinate => word.parse::<i64>().is_ok_and(|n| -REACH <= n && n <= REACH),
        Bound => word.parse::<u128>().is_ok_and(|n| n <= MAX_BOUND),
        _ => word.parse::<u32>().is_ok(),
    }
}

/// What follows a number.
fn behind_number(argument: Argument, text: &[u8]) -> Result<&[u8], Reason> {
    let (word, rest) = split_word(text);
    if !is_whole(word) {
        return Err(Reason::NotWhole);
    }
    match str::from_utf8(word) {
        Ok(word) if is_in_range(argument, word) => Ok(rest),
        _ => Err(Reason::OutOfRange),
    }
}

/// What follows a string, which goes from a quotation mark to the last one of the line.
fn behind_string(text: &[u8]) -> Result<&[u8], Reason> {
    if !text.starts_with(b"\"") {
        return Err(Reason::NotString);
    }
    match text.iter().rposition(|byte| *byte == b'"') {
        Some(last) => Ok(&text[last..][1..]),
        None => Err(Reason::NotString),
    }
}

/// What follows a number and the space before it.
fn behind_spaced(argument: Argument, rest: &[u8]) -> Result<&[u8], Reason> {
    behind_number(argument, behind_space(rest)?)
}

/// What follows a path, which is nothing.
fn behind_path(text: &[u8]) -> Result<&[u8], Reason> {
    let mut rest = text;
    for count in 0..=MAX_PATH {
        if rest.is_empty() && MIN_PATH <= count {
            return Ok(rest);
        }
        rest = behind_spaced(Coordinate, rest)?;
        rest = behind_spaced(Coordinate, rest)?;
    }
    Err(Reason::TooMany)
}

/// What follows the argument before which this stands.
fn behind_argument(argument: Argument, rest: &[u8]) -> Result<&[u8], Reason> {
    match argument {
        Path => behind_path(rest),
        Id => behind_string(behind_space(rest)?),
        Coordinate | Feature | Bound => behind_spaced(argument, rest),
    }
}

/// What is wrong with what follows the word of a command.
fn fault_of(arguments: &[Argument], tail: &[u8]) -> Result<(), Reason> {
    let mut rest = tail;
    for argument in arguments {
        rest = behind_argument(*argument, rest)?;
    }
    if rest.is_empty() {
        return Ok(());
    }
    behind_space(rest)?;
    Err(Reason::TooMany)
}

/// Why a line that says nothing is a bad one.
pub(crate) fn reason_of(line: &[u8]) -> Reason
    ensures { ¬ IsUtf8 line.now → result ≡ Reason.NotUtf8 }
{
    if str::from_utf8(line).is_err() {
        return Reason::NotUtf8;
    }
    if line.starts_with(b" ") {
        return Reason::SpaceAtStart;
    }
    let (word, tail) = split_word(line);
    match arguments_of(word) {
        // Where nothing else is wrong, it is what stands in the string.
        Some(arguments) => fault_of(arguments, tail).err().unwrap_or(Reason::NotString),
        None => Reason::UnknownWord,
    }
}
