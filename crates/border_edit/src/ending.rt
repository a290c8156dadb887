//! How a run ends the program: with which status, with what in FILE, and with which line.
ghost use Rattle.std.specs.Prelude.{◌≡◌, None, Some, option_map, OnOk, OnErr, IfOk, IfErr, IsSomeAnd};
ghost use Rattle.border_edit.specs.Status.{status_of, strict_status};
ghost use Rattle.border_edit.specs.Endings.{TellsRunFault, strict_file, strict_line};

use program_ends::{Diagnostic, Ending};
use script_runner::{RunFault, Summary};

/// The status that the program ends with after a run.
fn status(outcome: &Result<Summary, RunFault<'_>>) -> u8
    ensures { result ≡ status_of outcome.now }
{
    match outcome {
        Ok(summary) if summary.refused == 0 => 0,
        Ok(_) => 1,
        Err(RunFault::Open(_)) => 2,
        Err(RunFault::Read | RunFault::Write | RunFault::Save | RunFault::OutOfMemory) => 3,
    }
}

/// The line that tells a fault of a run.
fn line_of<'a>(fault: &'a RunFault<'a>) -> Diagnostic<'a>
    ensures { TellsRunFault fault.now result }
{
    match fault {
        RunFault::Open(fault) => Diagnostic::Open(fault),
        RunFault::Read => Diagnostic::Script,
        RunFault::Write => Diagnostic::Write,
        RunFault::Save => Diagnostic::Save,
        RunFault::OutOfMemory => Diagnostic::NoMemory,
    }
}

/// The ending of a run that saved this text: FILE gets it where the whole script was answered, and
/// after a fault, whatever was saved by then, FILE stays as it is.
pub(crate) fn ending_of_run<'a>(
    outcome: &'a Result<Summary, RunFault<'a>>,
    saved: &'a [u8],
) -> Ending<'a>
    ensures status { result.status ≡ status_of outcome.now }
    ensures written { OnOk outcome.now
        (option_map (λ text. text.now) result.file ≡ Some saved.now) }
    ensures silent { OnOk outcome.now (result.line ≡ None) }
    ensures kept { OnErr outcome.now (result.file ≡ None) }
    ensures told { IfErr outcome.now (λ fault. IsSomeAnd result.line (TellsRunFault fault)) }
{
    let status = status(outcome);
    match outcome {
        Ok(_) => Ending {
            status,
            file: Some(saved),
            line: None,
        },
        Err(fault) => Ending::of_fault(status, line_of(fault)),
    }
}

/// The line that says why a run left FILE as it was, where each line was to be accepted, and the last
/// one to have its line feed.
fn line_of_unsaved<'a>(refused: u64, is_whole: bool) -> Option<Diagnostic<'a>>
    ensures { result ≡ strict_line refused is_whole }
{
    if refused > 0 {
        return Some(Diagnostic::LinesRefused(refused));
    }
    if is_whole {
        None
    } else {
        Some(Diagnostic::CutOff)
    }
}

/// The ending of a run that saved this text, where each line is to be accepted, and the last one to
/// have its line feed: FILE gets the text only then, and stays as it is after any other run.
pub(crate) fn strict_ending<'a>(
    outcome: &'a Result<Summary, RunFault<'a>>,
    saved: &'a [u8],
    is_whole: bool,
) -> Ending<'a>
    ensures status { result.status ≡ strict_status outcome.now is_whole }
    ensures written { IfOk outcome.now (λ summary. option_map (λ text. text.now) result.file
        ≡ strict_file summary.refused is_whole saved.now) }
    ensures why { IfOk outcome.now (λ summary.
        result.line ≡ strict_line summary.refused is_whole) }
    ensures kept { OnErr outcome.now (result.file ≡ None) }
    ensures told { IfErr outcome.now (λ fault. IsSomeAnd result.line (TellsRunFault fault)) }
{
    let ending = ending_of_run(outcome, saved);
    match outcome {
        Ok(summary) => match line_of_unsaved(summary.refused, is_whole) {
            Some(line) => Ending::of_fault(1, line),
            None => ending,
        },
        Err(_) => ending,
    }
}
