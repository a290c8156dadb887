//! The words of the program.
ghost use Rattle.std.specs.Prelude.{◌≡◌, ◌≢◌, ◌≤◌, ℕ, [], Some, false, map, codes, string_bytes, unwrap_or};
ghost use Rattle.std.specs.Prelude.{option_map, IfOk, MatchOption};
ghost use Rattle.clap.specs.Words.{app_of, rule_of};
ghost use Rattle.border_mend.specs.Asked.{option_rule, mend_program, value_given, IsCount, dropped};
ghost use Rattle.border_mend.specs.Asked.{IsAsked, AreDifferent};

use crate::asked::Words;
use crate::help;
use clap::error::ErrorKind;
use clap::{Arg, ArgAction, Command};
use grid_reader::{PointNeeds, Wants};
use mend_report::Asked;
use program_ends::{VERSION, copied, is_file};
use std::alloc::{AllocError, Global};

/// An argument that takes a value after its name.
fn option<'a>(alloc: Global, name: &'static str, value: &'static str, help: &'static str) -> Arg<'a>
    ensures rule { rule_of result ≡ option_rule name.now }
    ensures local { result.global ≡ false }
{
    Arg::new(alloc, name)
        .long(name)
        .value_name(value)
        .help(help)
        .action(ArgAction::Set)
}

/// The program's words and their help.
fn command<'a>(alloc: Global) -> Result<Command<'a>, clap::Error>
    ensures { IfOk result (λ command. app_of command ≡ mend_program) }
{
    let map = Arg::new(alloc, "MAP")
        .help("The map to look at, TopoJSON or GeoJSON")
        .required(true)
        .action(ArgAction::Set);
    let command = Command::new(alloc, "border_mend")
        .about(help::ABOUT)
        .version(VERSION)
        .after_help(help::LINES)
        .arg(map)?
        .arg(option(alloc, "most", "N", help::MOST))?
        .arg(option(alloc, "places", "FILE", help::PLACES))?
        .arg(option(alloc, "out", "FILE", help::OUT))?
        .arg(option(alloc, "digits", "K", help::DIGITS))?
        .arg(option(alloc, "refine", "K", help::REFINE))?
        .arg(option(alloc, "drop", "WHAT", help::DROP))?;
    Ok(command)
}

/// The number that a value says, up to the greatest, or the usual one without a value.
fn count_of(given: Option<&str>, usual: usize, greatest: usize) -> Option<usize>
    ensures { MatchOption result
        ((n : ℕ) → ¬ IsCount usual greatest (option_map (λ text. text.now) given.entry) n)
        (λ n. IsCount usual greatest (option_map (λ text. text.now) given.entry) n) }
{
    let Some(text) = given else {
        return Some(usual);
    };
    match text.parse::<usize>() {
        Ok(number) if number <= greatest => Some(number),
        _ => None,
    }
}

/// Whether heights, and whether lines are left out, as the value of `--drop` says.
#[tactic(auto, unfolding(crate::specs::Asked::dropped))]
fn dropped(given: Option<&str>) -> Option<(bool, bool)>
    ensures { result ≡ dropped (option_map (λ text. text.now) given.entry) }
{
    let Some(text) = given else {
        return Some((false, false));
    };
    if text == "heights" {
        Some((true, false))
    } else if text == "lines" {
        Some((false, true))
    } else if text == "heights,lines" {
        Some((true, true))
    } else if text == "lines,heights" {
        Some((true, true))
    } else {
        None
    }
}

/// Whether both files are given, and are one.
fn is_both(one: Option<&str>, other: Option<&str>) -> bool
    ensures { result ≡ false → AreDifferent (option_map (λ text. text.now) one.entry)
        (option_map (λ text. text.now) other.entry) }
{
    match other {
        Some(path) => is_file(one, path),
        None => false,
    }
}

/// What the values of `--most`, `--digits`, `--refine` and `--drop` ask for, and whether lines are left
/// out, or what is wrong.
fn asked_of(
    most: Option<&str>,
    digits: Option<&str>,
    refine: Option<&str>,
    drop: Option<&str>,
) -> Result<(Asked, bool), &'static str>
    ensures { IfOk result (λ pair. IsAsked (option_map (λ text. text.now) most.entry)
        (option_map (λ text. text.now) digits.entry) (option_map (λ text. text.now) refine.entry)
        (option_map (λ text. text.now) drop.entry) pair.0 pair.1) }
{
    let Some(most) = count_of(most, 1000, 4_000_000) else {
        return Err("--most takes a whole number from 0 to 4000000");
    };
    let Some(digits) = count_of(digits, 24, 24) else {
        return Err("--digits takes a whole number from 0 to 24");
    };
    let Some(finer) = count_of(refine, 0, 12) else {
        return Err("--refine takes a whole number from 0 to 12");
    };
    let Some((drop_heights, drop_lines)) = dropped(drop) else {
        return Err("--drop takes heights, lines, or heights,lines");
    };
    let grid = Wants {
        digits,
        finer,
        drop_heights,
        points_lie: false,
        points: PointNeeds::NONE,
    };
    let asked = Asked {
        grid,
        most,
        dropped: 0,
    };
    Ok((asked, drop_lines))
}

/// What the words say for each argument.
#[derive(Clone, Copy)]
struct Said<'m> {
    map: &'m str,
    most: Option<&'m str>,
    digits: Option<&'m str>,
    refine: Option<&'m str>,
    drop: Option<&'m str>,
    places: Option<&'m str>,
    out: Option<&'m str>,
}

/// What is wrong with words that parse.
#[derive(Clone, Copy)]
enum Wrong {
    /// A value is none that its argument takes.
    Value(&'static str),
    /// Two arguments name one file.
    Files(&'static str),
    /// An allocation failed.
    NoMemory,
}

impl From<AllocError> for Wrong {
    fn from(_error: AllocError) -> Wrong {
        Wrong::NoMemory
    }
}

/// What these words ask for, or what is wrong with them.
fn words_of(alloc: Global, said: &Said<'_>) -> Result<Words, Wrong>
    ensures map { IfOk result (λ words. string_bytes words.map ≡ said.now.map.now) }
    ensures asked { IfOk result (λ words. IsAsked (option_map (λ text. text.now) said.now.most)
        (option_map (λ text. text.now) said.now.digits)
        (option_map (λ text. text.now) said.now.refine)
        (option_map (λ text. text.now) said.now.drop) words.asked words.drop_lines) }
    ensures places { IfOk result (λ words.
        option_map string_bytes words.places ≡ option_map (λ text. text.now) said.now.places) }
    ensures apart { IfOk result (λ words.
        option_map string_bytes words.places ≢ Some (string_bytes words.map)) }
    ensures out { IfOk result (λ words.
        option_map string_bytes words.out ≡ option_map (λ text. text.now) said.now.out) }
    ensures files { IfOk result (λ words. AreDifferent (option_map string_bytes words.places)
        (option_map string_bytes words.out)) }
{
    let (asked, drop_lines) = match asked_of(said.most, said.digits, said.refine, said.drop) {
        Ok(pair) => pair,
        Err(message) => return Err(Wrong::Value(message)),
    };
    if is_file(said.places, said.map) {
        return Err(Wrong::Files("--places names the map"));
    }
    if is_both(said.places, said.out) {
        return Err(Wrong::Files("--places and --out name the same file"));
    }
    Ok(Words {
        map: String::from_str(alloc, said.map)?,
        asked,
        drop_lines,
        places: copied(alloc, said.places)?,
        out: copied(alloc, said.out)?,
    })
}

/// What clap says of what is wrong.
fn error_of(command: &mut Command<'_>, wrong: Wrong) -> clap::Error {
    let (kind, message) = match wrong {
        Wrong::Value(message) => (ErrorKind::ValueValidation, message),
        Wrong::Files(message) => (ErrorKind::ArgumentConflict, message),
        Wrong::NoMemory => return clap::Error::from(AllocError),
    };
    match command.error(kind, message) {
        Ok(error) => error,
        Err(error) => clap::Error::from(error),
    }
}

/// Reads the words, the program's name first. A request for help, or for the version, is an error
/// here too, and so are words that name one path for the places and for MAP or FILE.
pub(crate) fn words(alloc: Global, given: &[String]) -> Result<Words, clap::Error>
    ensures map { IfOk result (λ words. string_bytes words.map
        ≡ unwrap_or (value_given (codes "MAP") (map string_bytes given.now)) []) }
    ensures asked { IfOk result (λ words.
        IsAsked (value_given (codes "most") (map string_bytes given.now))
        (value_given (codes "digits") (map string_bytes given.now))
        (value_given (codes "refine") (map string_bytes given.now))
        (value_given (codes "drop") (map string_bytes given.now)) words.asked words.drop_lines) }
    ensures places { IfOk result (λ words. option_map string_bytes words.places
        ≡ value_given (codes "places") (map string_bytes given.now)) }
    ensures apart { IfOk result (λ words.
        option_map string_bytes words.places ≢ Some (string_bytes words.map)) }
    ensures out { IfOk result (λ words. option_map string_bytes words.out
        ≡ value_given (codes "out") (map string_bytes given.now)) }
    ensures files { IfOk result (λ words. AreDifferent (option_map string_bytes words.places)
        (option_map string_bytes words.out)) }
{
    let mut command = command(alloc)?;
    let matches = command.try_get_matches_from_mut(given)?;
    let said = Said {
        // A parse gives MAP, since it is required.
        map: matches.get_str("MAP").unwrap_or(""),
        most: matches.get_str("most"),
        digits: matches.get_str("digits"),
        refine: matches.get_str("refine"),
        drop: matches.get_str("drop"),
        places: matches.get_str("places"),
        out: matches.get_str("out"),
    };
    match words_of(alloc, &said) {
        Ok(words) => Ok(words),
        Err(wrong) => Err(error_of(&mut command, wrong)),
    }
}
