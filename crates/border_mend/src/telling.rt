//! The files of the program: what is read, what is written, and in which order.
ghost use Rattle.std.specs.Prelude.{◌≡◌, None, IsSome};
ghost use Rattle.mend_report.specs.Common.{unmended_status};
ghost use Rattle.mend_report.specs.declared.repair_fault.RepairFault.TheVariants.{Look};

use crate::asked::Words;
use crate::ending::ending_unmade;
use crate::geojson::made_of;
use crate::looking::{Looking, looking_at};
use crate::seeds::report_seed;
use crate::told::{Outcome, Told, told_as_is, told_of};
use mend_report::{LookFault, Texts};
use program_ends::{Ending, Errors, Paths, Stop, hash_seed, map_bytes, replace_file};
use std::hash::RandomState;
use std::io::{Result as IoResult, Write};

/// Writes all of a text.
fn print<W: Write>(text: &[u8], output: &mut W) -> IoResult<()> {
    output.write_all(text)?;
    output.flush()
}

/// Writes a file. Nothing has failed before.
fn write_file<'a>(rt: &HostRuntime, ending: Ending<'a>, path: &str, text: &[u8]) -> Ending<'a>
    requires { ending.line ≡ None }
{
    ending.once_written(replace_file(rt, path, text))
}

/// Writes a file where nothing has failed before, and none after a fault.
fn save<'a>(rt: &HostRuntime, ending: Ending<'a>, path: &str, text: &[u8]) -> Ending<'a>
    ensures { IsSome ending.entry.line → result ≡ ending.entry }
{
    if ending.line.is_some() {
        return ending;
    }
    write_file(rt, ending, path, text)
}

/// Writes the report on standard output, and the places in their file where they are asked for.
fn print_and_place<'a, W: Write>(
    rt: &HostRuntime,
    words: &Words,
    texts: &Texts,
    ending: Ending<'a>,
    output: &mut W,
) -> Ending<'a> {
    let ending = match ending.file {
        Some(report) => ending.once_printed(print(report, output)),
        None => ending,
    };
    match (&words.places, &texts.places) {
        (Some(path), Some(places)) => save(rt, ending, path.as_str(), places.as_slice()),
        _ => ending,
    }
}

/// The paths of the files that the arguments name: of FILE and the places the only one.
fn paths_of(words: &Words) -> Paths<'_> {
    let file = match (&words.out, &words.places) {
        (Some(path), None) | (None, Some(path)) => path.as_str(),
        _ => "",
    };
    Paths {
        map: words.map.as_str(),
        script: "",
        file,
        list: "",
        mends: true,
    }
}

/// Writes the report of a map and its places, and at last the mended map in FILE, where it is mended.
fn end_told<W: Write, E: Write>(
    rt: &HostRuntime,
    words: &Words,
    told: &Told<'_>,
    output: &mut W,
    errors: &mut Errors<'_, E>,
) -> u8 {
    let ending = print_and_place(rt, words, &told.texts, told.ending(), output);
    let ending = match (&told.outcome, &words.out) {
        (Outcome::Mended(Ok(remade)), Some(out)) => save(
            rt,
            ending,
            out.as_str(),
            remade.text.as_slice(),
        ),
        _ => ending,
    };
    errors.end(ending, &paths_of(words))
}

/// The seed that a map is hashed by: one of the operating system, where what it is mended to is saved.
fn seed_asked(rt: &HostRuntime, words: &Words) -> Result<RandomState, Stop> {
    match words.out {
        Some(_) => hash_seed(rt),
        None => report_seed(rt),
    }
}

/// Ends where no topology is made of a map.
fn end_unmade<E: Write>(words: &Words, fault: &LookFault<'_>, errors: &mut Errors<'_, E>) -> u8
    ensures { result ≡ unmended_status (Look fault.now) }
{
    errors.end(ending_unmade(fault), &paths_of(words))
}

/// Tells or mends a map that does not open in the editor as it is, or of which more is asked.
fn tell_looking<W: Write, E: Write>(
    rt: &HostRuntime,
    words: &Words,
    looking: &Looking,
    output: &mut W,
    errors: &mut Errors<'_, E>,
) -> u8 {
    let told = told_of(rt.alloc(), words, looking);
    end_told(rt, words, &told, output, errors)
}

/// Reads MAP, and tells or mends it.
fn tell_map<W: Write, E: Write>(
    rt: &HostRuntime,
    words: &Words,
    output: &mut W,
    errors: &mut Errors<'_, E>,
) -> Result<u8, Stop> {
    let seed = seed_asked(rt, words)?;
    let map = map_bytes(rt, words.map.as_str())?;
    let source = match made_of(rt.alloc(), map.as_slice()) {
        Ok(source) => source,
        Err(fault) => return Ok(end_unmade(words, &fault, errors)),
    };
    if let Some(told) = told_as_is(rt.alloc(), words, seed, &source, map.as_slice())? {
        return Ok(end_told(rt, words, &told, output, errors));
    }
    let looking = looking_at(rt, words, seed, map, source)?;
    Ok(tell_looking(rt, words, &looking, output, errors))
}

/// Tells what the words ask. Answers the status that the program ends with; the report and the line
/// that says why it ends go to these two writers. Faults are found in this order: a seed; the file
/// of the map; what keeps a GeoJSON object from becoming a topology, and one that FILE names too; the
/// map, standard output, the file of the places, and FILE, which is written last.
pub(crate) fn tell<W: Write, E: Write>(
    rt: &HostRuntime,
    words: &Words,
    output: &mut W,
    errors: &mut Errors<'_, E>,
) -> u8 {
    match tell_map(rt, words, output, errors) {
        Ok(status) => status,
        Err(stop) => errors.end(Ending::of_stop(&stop), &paths_of(words)),
    }
}
