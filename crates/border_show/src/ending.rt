//! How a drawing ends the program: with which status, with what in FILE, and with which line.
ghost use Rattle.std.specs.Prelude.{◌≡◌, ◌↔◌, None, Some, option_map, IfOk, IfSome, OnOk, OnErr, IfErr, IsSome, IsSomeAnd};
ghost use Rattle.std.specs.IoError.{error_kind};
ghost use Rattle.program_ends.specs.Endings.{unsaved_line};
ghost use Rattle.border_show.specs.Status.{drawing_status};
ghost use Rattle.border_show.specs.Endings.{IsFaultLine};

use crate::showing::ShowFault;
use program_ends::{Diagnostic, Ending};
use std::io::Error;
use topo_outline::OpenFault;

/// The ending of a drawing: FILE gets the picture where all was drawn, and stays as it is after a
/// fault.
pub(crate) fn ending_of_drawing<'a>(outcome: &'a Result<Vec<u8>, ShowFault<'a>>) -> Ending<'a>
    ensures status { result.status ≡ drawing_status outcome.now }
    ensures written { IfOk outcome.now (λ picture.
        option_map (λ text. text.now) result.file ≡ Some picture.items) }
    ensures silent { OnOk outcome.now (result.line ≡ None) }
    ensures kept { OnErr outcome.now (result.file ≡ None) }
    ensures told { IfErr outcome.now (λ fault. IsSomeAnd result.line (IsFaultLine fault)) }
{
    match outcome {
        Ok(picture) => Ending {
            status: 0,
            file: Some(picture.as_slice()),
            line: None,
        },
        Err(ShowFault::Open(OpenFault::OutOfMemory)) => Ending::of_fault(3, Diagnostic::NoMemory),
        Err(ShowFault::Open(fault)) => Ending::of_fault(2, Diagnostic::Open(fault)),
        Err(ShowFault::Feature(why)) => {
            let reason = why.reason();
            Ending::of_fault(1, Diagnostic::NoFeature { reason })
        }
    }
}

/// The ending once FILE was written, or could not be. It has to be tried where the ending has something for it, and
/// nowhere else.
pub(crate) fn once_saved<'a>(ending: Ending<'a>, written: Option<Result<(), Error>>) -> Ending<'a>
    requires { IsSome written ↔ IsSome ending.file }
    ensures kept { ending.entry.file ≡ None → result ≡ ending.entry }
    ensures saved { IfSome written (λ outcome. OnOk outcome (result ≡ ending.entry)) }
    ensures status { IfSome written (λ outcome. OnErr outcome (result.status ≡ 3)) }
    ensures told { IfSome written (λ outcome. IfErr outcome
        (λ error. result.line ≡ Some (unsaved_line (error_kind error)))) }
{
    match written {
        Some(outcome) => ending.once_written(outcome),
        None => ending,
    }
}
