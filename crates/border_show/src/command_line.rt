//! The arguments of the program, as clap reads them.
ghost use Rattle.std.specs.Prelude.{◌≡◌, FitsSigned, IfOk, IfSome, false, map, option_map, string_bytes};
ghost use Rattle.std.specs.Int.{w64};
ghost use Rattle.std.specs.List.{list_any};
ghost use Rattle.clap.specs.Words.{app_of, found_of, rows_of, rule_of};
ghost use Rattle.border_show.specs.Asked.{AreAsked, IsPartAsked, IsSquareAsked, Writes, begins_short};
ghost use Rattle.border_show.specs.Asked.{at_rule, ids_rule, is_short, option_rule, positional_rule, show_program, texts_of};
ghost use Rattle.border_show.specs.Given.{AsksFor};

use crate::arguments::{Arguments, Part};
use crate::help;
use clap::error::ErrorKind;
use clap::{Arg, ArgAction, ArgMatches, Command};
use grid_geometry::Pos;
use map_drawing::Window;
use program_ends::{VERSION, copied};
use std::alloc::{AllocError, Global};

/// The most that a part is wide: twice the grid.
const MOST_WIDTH: i64 = 4_000_000_000_000;

/// What says how the value of `--at` has to be.
const AT: &str =
    "--at takes X and Y, whole numbers of at most 1000000000000, and WIDTH, from 1 to 4000000000000";

/// What says that two arguments name two parts.
const TWO_PARTS: &str = "--at and --feature name two parts of the map";

/// A positional argument, which is needed or not.
fn positional<'a>(alloc: Global, name: &'static str, help: &'static str, is_needed: bool) -> Arg<'a>
    ensures rule { rule_of result ≡ positional_rule name.now is_needed }
    ensures local { result.global ≡ false }
{
    Arg::new(alloc, name)
        .help(help)
        .required(is_needed)
        .action(ArgAction::Set)
}

/// An argument that takes a value after its name, which is needed or not.
fn option<'a>(
    alloc: Global,
    name: &'static str,
    value: &'static str,
    help: &'static str,
    is_needed: bool,
) -> Arg<'a>
    ensures rule { rule_of result ≡ option_rule name.now is_needed }
    ensures local { result.global ≡ false }
{
    Arg::new(alloc, name)
        .long(name)
        .value_name(value)
        .help(help)
        .required(is_needed)
        .action(ArgAction::Set)
}

/// The argument that names a square by three values, of which some may be negative numbers.
fn square<'a>(alloc: Global, is_signed: bool) -> Arg<'a>
    ensures rule { rule_of result ≡ at_rule is_signed }
    ensures local { result.global ≡ false }
{
    Arg::new(alloc, "at")
        .allow_negative_numbers(is_signed)
        .long("at")
        .value_names(&["X", "Y", "WIDTH"])
        .num_args(3usize)
        .help(help::AT)
        .action(ArgAction::Set)
}

/// The argument that is there or not.
fn flag<'a>(alloc: Global) -> Arg<'a>
    ensures rule { rule_of result ≡ ids_rule }
    ensures local { result.global ≡ false }
{
    Arg::new(alloc, "ids")
        .long("ids")
        .help(help::IDS)
        .action(ArgAction::SetTrue)
}

/// The program's arguments and their help, where negative numbers are given or are not.
fn command<'a>(alloc: Global, is_signed: bool) -> Result<Command<'a>, AllocError>
    ensures { IfOk result (λ command. app_of command ≡ show_program is_signed) }
{
    let command = Command::new(alloc, "border_show")
        .about(help::ABOUT)
        .version(VERSION)
        .after_help(help::LINES)
        .arg(positional(alloc, "MAP", help::MAP, true))?
        .arg(positional(alloc, "AFTER", help::AFTER, false))?
        .arg(option(alloc, "out", "FILE", help::OUT, true))?
        .arg(square(alloc, is_signed))?
        .arg(option(alloc, "feature", "ID", help::FEATURE, false))?
        .arg(flag(alloc))?;
    Ok(command)
}

/// Whether a word begins with one dash and goes on, as a negative number does.
fn begins_short(word: &str) -> bool
    ensures { result ≡ begins_short word.now }
{
    let bytes = word.as_bytes();
    1 < bytes.len() && bytes[0] == b'-' && bytes[1] != b'-'
}

/// Whether some word begins so.
fn is_some_short(given: &[String]) -> bool
    ensures { result ≡ list_any is_short given.now }
{
    let mut is_found = false;
    for word in given {
        is_found = is_found | begins_short(word.as_str());
    }
    is_found
}

/// The whole number that a text is.
fn number_of(text: &str) -> Option<i64>
    ensures written { IfSome result (Writes text.now) }
    ensures fits { IfSome result (FitsSigned w64) }
{
    text.parse::<i64>().ok()
}

/// The square that three values say.
fn square_of(values: &[&str]) -> Option<Window>
    ensures { IfSome result (IsSquareAsked (map (λ value. value.now) values.now)) }
{
    let [x, y, width] = values else {
        return None;
    };
    let x = number_of(*x)?;
    let y = number_of(*y)?;
    let width = number_of(*width)?;
    let middle = Pos::new(x, y)?;
    if width < 1 || MOST_WIDTH < width {
        return None;
    }
    Some(Window::about(middle, width))
}

/// Why the values of arguments ask for no part.
#[derive(Clone, Copy)]
enum PartFault {
    /// The values are wrong, as these words say.
    Wrong(&'static str),
    /// An allocation failed.
    OutOfMemory,
}

impl From<AllocError> for PartFault {
    fn from(_: AllocError) -> PartFault {
        PartFault::OutOfMemory
    }
}

/// The part that the values of `--at` and of `--feature` ask for.
fn part_of(alloc: Global, at: Option<&[&str]>, feature: Option<&str>) -> Result<Part, PartFault>
    ensures { IfOk result (IsPartAsked (texts_of at.entry)
        (option_map (λ text. text.now) feature.entry)) }
{
    match (at, feature) {
        (None, None) => Ok(Part::Whole),
        (None, Some(name)) => Ok(Part::Feature(String::from_str(alloc, name)?)),
        (Some(values), None) => match square_of(values) {
            Some(square) => Ok(Part::Square(square)),
            None => Err(PartFault::Wrong(AT)),
        },
        (Some(_), Some(_)) => Err(PartFault::Wrong(TWO_PARTS)),
    }
}

/// What the matches of clap ask for.
fn asked(alloc: Global, matches: &ArgMatches<'_>) -> Result<Arguments, PartFault>
    ensures { IfOk result (AreAsked (rows_of (found_of matches.now))) }
{
    let part = part_of(alloc, matches.get_strs("at"), matches.get_str("feature"))?;
    // A parse gives MAP and FILE, since they are required.
    Ok(Arguments {
        before: String::from_str(alloc, matches.get_str("MAP").unwrap_or(""))?,
        after: copied(alloc, matches.get_str("AFTER"))?,
        out: String::from_str(alloc, matches.get_str("out").unwrap_or(""))?,
        part,
        has_ids: matches.get_flag("ids"),
    })
}

/// Reads the arguments, the program's name first. A request for help, or for the version, is an
/// error here too.
pub(crate) fn arguments_of(alloc: Global, given: &[String]) -> Result<Arguments, clap::Error>
    ensures { IfOk result (AsksFor given.now) }
{
    // clap's contract says what it finds where no argument may be a negative number.
    let mut command = command(alloc, is_some_short(given))?;
    let matches = command.try_get_matches_from_mut(given)?;
    match asked(alloc, &matches) {
        Ok(arguments) => Ok(arguments),
        Err(PartFault::Wrong(words)) => { Err(command.error(ErrorKind::ValueValidation, words)?) }
        Err(PartFault::OutOfMemory) => Err(clap::Error::from(AllocError)),
    }
}
