//! The files of the program: what is read, what is written, and in which order.
ghost use Rattle.std.specs.Prelude.{◌≡◌, None, IsSome};

use crate::arguments::Arguments;
use crate::ending::ending_of_export;
use crate::exporting::layer_text;
use geo_text::ExportFault;
use program_ends::{Ending, Errors, Paths, Stop, hash_seed, map_bytes, replace_file};
use std::io::Write;

/// The paths of the files that the arguments name.
fn paths_of(arguments: &Arguments) -> Paths<'_> {
    Paths {
        map: arguments.map.as_str(),
        script: "",
        file: arguments.out.as_str(),
        list: "",
        mends: false,
    }
}

/// Writes FILE where the ending has something for it, and leaves it after a fault.
fn save<'a>(rt: &HostRuntime, ending: Ending<'a>, file: &str) -> Ending<'a>
    ensures { ending.entry.file ≡ None → result ≡ ending.entry }
{
    match ending.file {
        Some(text) => ending.once_written(replace_file(rt, file, text)),
        None => ending,
    }
}

/// Says what is wrong with the layer. Of the map and of memory the line of the ending tells.
fn say_fault<E: Write>(fault: &ExportFault<'_>, errors: &mut Errors<'_, E>) {
    match fault {
        ExportFault::Open(_) | ExportFault::Device => {}
        _ => {
            let _ = writeln!(errors.writer, "{fault}");
        }
    }
}

/// Reads MAP, and writes the layer that is asked for in FILE.
fn write_read<E: Write>(
    rt: &HostRuntime,
    arguments: &Arguments,
    errors: &mut Errors<'_, E>,
) -> Result<u8, Stop> {
    let seed = hash_seed(rt)?;
    let map = map_bytes(rt, arguments.map.as_str())?;
    let outcome = layer_text(rt.alloc(), seed, map.as_slice(), arguments);
    if let Err(fault) = &outcome {
        say_fault(fault, errors);
    }
    let ending = save(rt, ending_of_export(&outcome), arguments.out.as_str());
    Ok(errors.end(ending, &paths_of(arguments)))
}

/// Writes the layer that the arguments ask for. Answers the status that the program ends with; the line that says why it
/// ends goes to this writer. Faults are found in this order: a seed, the file of the map, the map and its layer, FILE.
pub(crate) fn write_layer<E: Write>(
    rt: &HostRuntime,
    arguments: &Arguments,
    errors: &mut Errors<'_, E>,
) -> u8 {
    match write_read(rt, arguments, errors) {
        Ok(status) => status,
        Err(stop) => errors.end(Ending::of_stop(&stop), &paths_of(arguments)),
    }
}
