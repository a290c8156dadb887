//! The arguments of the program, as clap reads them.
ghost use Rattle.std.specs.Prelude.{◌≡◌, ◌≤◌, false, option_map, IfOk};
ghost use Rattle.clap.specs.Words.{app_of, found_of, rows_of, rule_of};
ghost use Rattle.border_export.specs.Asked.{AreAsked, AreDecimals, AsksFor, KeepsWinding};
ghost use Rattle.border_export.specs.Asked.{export_program, flatten_rule, map_rule, option_rule};

use crate::arguments::Arguments;
use crate::help;
use clap::error::ErrorKind;
use clap::{Arg, ArgAction, ArgMatches, Command};
use program_ends::{VERSION, copied};
use std::alloc::{AllocError, Global};

/// The most decimals that can be asked for.
const MOST_DECIMALS: usize = 36;

/// What says how the value of `--decimals` has to be.
const DECIMALS: &str = "--decimals takes a whole number from 0 to 36";

/// What says how the value of `--winding` has to be.
const WINDING: &str = "--winding takes keep";

/// The argument that stands in its place.
fn map<'a>(alloc: Global) -> Arg<'a>
    ensures rule { rule_of result ≡ map_rule }
    ensures local { result.global ≡ false }
{
    Arg::new(alloc, "MAP")
        .help(help::MAP)
        .required(true)
        .action(ArgAction::Set)
}

/// An argument that takes a value after its name, which is needed or not.
fn option<'a>(
    alloc: Global,
    name: &'static str,
    value: &'static str,
    help: &'static str,
    is_needed: bool,
) -> Arg<'a>
    ensures rule { rule_of result ≡ option_rule name.now is_needed }
    ensures local { result.global ≡ false }
{
    Arg::new(alloc, name)
        .long(name)
        .value_name(value)
        .help(help)
        .required(is_needed)
        .action(ArgAction::Set)
}

/// The argument that is there or not.
fn flag<'a>(alloc: Global) -> Arg<'a>
    ensures rule { rule_of result ≡ flatten_rule }
    ensures local { result.global ≡ false }
{
    Arg::new(alloc, "flatten")
        .long("flatten")
        .help(help::FLATTEN)
        .action(ArgAction::SetTrue)
}

/// The program's arguments and their help.
fn command<'a>(alloc: Global) -> Result<Command<'a>, AllocError>
    ensures { IfOk result (λ command. app_of command ≡ export_program) }
{
    let command = Command::new(alloc, "border_export")
        .about(help::ABOUT)
        .version(VERSION)
        .after_help(help::LINES)
        .arg(map(alloc))?
        .arg(option(alloc, "out", "FILE", help::OUT, true))?
        .arg(option(alloc, "layer", "NAME", help::LAYER, false))?
        .arg(option(alloc, "decimals", "K", help::DECIMALS, false))?
        .arg(option(alloc, "winding", "HOW", help::WINDING, false))?
        .arg(flag(alloc))?;
    Ok(command)
}

/// How many decimals a value asks for.
fn decimals_of(given: Option<&str>) -> Result<Option<usize>, &'static str>
    ensures { IfOk result (AreDecimals (option_map (λ text. text.now) given.entry)) }
{
    let Some(text) = given else {
        return Ok(None);
    };
    match text.parse::<usize>() {
        Ok(number) if number <= MOST_DECIMALS => Ok(Some(number)),
        _ => Err(DECIMALS),
    }
}

/// Whether a value asks that rings keep their direction.
fn keeps_winding(given: Option<&str>) -> Result<bool, &'static str>
    ensures { IfOk result (KeepsWinding (option_map (λ text. text.now) given.entry)) }
{
    match given {
        None => Ok(false),
        Some("keep") => Ok(true),
        Some(_) => Err(WINDING),
    }
}

/// Why the values of arguments ask for no text.
#[derive(Clone, Copy)]
enum AskFault {
    /// A value is wrong, as these words say.
    Wrong(&'static str),
    /// An allocation failed.
    OutOfMemory,
}

impl From<&'static str> for AskFault {
    fn from(words: &'static str) -> AskFault {
        AskFault::Wrong(words)
    }
}

impl From<AllocError> for AskFault {
    fn from(_: AllocError) -> AskFault {
        AskFault::OutOfMemory
    }
}

/// What the matches of clap ask for.
fn asked(alloc: Global, matches: &ArgMatches<'_>) -> Result<Arguments, AskFault>
    ensures { IfOk result (AreAsked (rows_of (found_of matches.now))) }
{
    let decimals = decimals_of(matches.get_str("decimals"))?;
    let keeps_winding = keeps_winding(matches.get_str("winding"))?;
    // A parse gives MAP and FILE, since they are required.
    Ok(Arguments {
        map: String::from_str(alloc, matches.get_str("MAP").unwrap_or(""))?,
        out: String::from_str(alloc, matches.get_str("out").unwrap_or(""))?,
        layer: copied(alloc, matches.get_str("layer"))?,
        decimals,
        keeps_winding,
        flattens: matches.get_flag("flatten"),
    })
}

/// Reads the arguments, the program's name first. A request for help, or for the version, is an
/// error here too.
pub(crate) fn arguments_of(alloc: Global, given: &[String]) -> Result<Arguments, clap::Error>
    ensures { IfOk result (AsksFor given.now) }
{
    let mut command = command(alloc)?;
    let matches = command.try_get_matches_from_mut(given)?;
    match asked(alloc, &matches) {
        Ok(arguments) => Ok(arguments),
        Err(AskFault::Wrong(words)) => Err(command.error(ErrorKind::ValueValidation, words)?),
        Err(AskFault::OutOfMemory) => Err(clap::Error::from(AllocError)),
    }
}
