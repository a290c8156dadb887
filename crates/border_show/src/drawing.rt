//! The files of the program: what is read, what is written, and in which order.
ghost use Rattle.std.specs.Prelude.{◌↔◌, IsSome};

use crate::arguments::Arguments;
use crate::ending::{ending_of_drawing, once_saved};
use crate::maps::read_files;
use crate::showing::show;
use program_ends::{Ending, Errors, Paths, Stop, hash_seed, replace_file};
use std::io::{Error, Write};

/// The paths of the files that the arguments name: that of a map where there is one alone.
fn paths_of(arguments: &Arguments) -> Paths<'_> {
    let map = match &arguments.after {
        Some(_) => "",
        None => arguments.before.as_str(),
    };
    Paths {
        map,
        script: "",
        file: arguments.out.as_str(),
        list: "",
        mends: false,
    }
}

/// Writes FILE where there is something for it, and answers what came of that.
fn save(rt: &HostRuntime, file: &str, text: Option<&[u8]>) -> Option<Result<(), Error>>
    ensures { IsSome result ↔ IsSome text.entry }
{
    match text {
        Some(text) => Some(replace_file(rt, file, text)),
        None => None,
    }
}

/// Draws a map, or what an edit did, and ends as the drawing did.
fn draw_read<E: Write>(
    rt: &HostRuntime,
    arguments: &Arguments,
    errors: &mut Errors<'_, E>,
) -> Result<u8, Stop> {
    let seed = hash_seed(rt)?;
    let maps = read_files(rt, arguments)?;
    let title = maps.title(rt.alloc(), &arguments.part)?;
    let outcome = show(rt.alloc(), seed, &maps, arguments, title.as_str());
    let ending = ending_of_drawing(&outcome);
    let written = save(rt, arguments.out.as_str(), ending.file);
    let ending = once_saved(ending, written);
    Ok(errors.end(ending, &paths_of(arguments)))
}

/// Draws as the arguments ask. Answers the status that the program ends with; the line that says why it
/// ends goes to this writer. Faults are found in this order: the files of both maps, the maps, FILE.
pub(crate) fn draw<E: Write>(
    rt: &HostRuntime,
    arguments: &Arguments,
    errors: &mut Errors<'_, E>,
) -> u8 {
    match draw_read(rt, arguments, errors) {
        Ok(status) => status,
        Err(stop) => errors.end(Ending::of_stop(&stop), &paths_of(arguments)),
    }
}
