//! How a report ends the program: with which status, with what on standard output, and with which line.
ghost use Rattle.std.specs.Prelude.{◌≡◌, None, Some, option_map, IfErr, OnErr, OnOk};
ghost use Rattle.border_cover.specs.Endings.{TellsFault};
ghost use Rattle.border_cover.specs.Status.{cover_status};

use cover_report::{Counts, CoverFault};
use program_ends::{Diagnostic, Ending};
use topo_outline::OpenFault;

/// The ending of a report: standard output gets it where it is whole, and nothing after a fault. The faults of layers
/// have no line here: `CoverFault` says them.
pub(crate) fn ending_of_report<'a>(
    outcome: &'a Result<Counts, CoverFault<'a>>,
    report: &'a [u8],
) -> Ending<'a>
    ensures status { result.status ≡ cover_status outcome.now }
    ensures printed { OnOk outcome.now
        (option_map (λ text. text.now) result.file ≡ Some report.now) }
    ensures silent { OnOk outcome.now (result.line ≡ None) }
    ensures kept { OnErr outcome.now (result.file ≡ None) }
    ensures told { IfErr outcome.now (λ fault. TellsFault fault result.line) }
{
    match outcome {
        Ok(counts) => Ending {
            status: if counts.is_clear() { 0 } else { 1 },
            file: Some(report),
            line: None,
        },
        Err(CoverFault::Open(OpenFault::OutOfMemory)) => Ending::of_fault(3, Diagnostic::NoMemory),
        Err(CoverFault::Open(fault)) => Ending::of_fault(2, Diagnostic::Open(fault)),
        Err(_) => Ending {
            status: 2,
            file: None,
            line: None,
        },
    }
}
