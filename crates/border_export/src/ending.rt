//! How an export ends the program: with which status, with what in FILE, and with which line.
ghost use Rattle.std.specs.Prelude.{◌≡◌, None, Some, option_map, IfErr, IfOk, OnErr, OnOk};
ghost use Rattle.border_export.specs.Endings.{TellsFault};
ghost use Rattle.border_export.specs.Status.{export_status};

use geo_text::ExportFault;
use program_ends::{Diagnostic, Ending};
use topo_outline::OpenFault;

/// The ending of an export: FILE gets the text where the layer was written, and stays as it is after a fault. The layer's
/// own faults have no line here: `ExportFault` says them.
pub(crate) fn ending_of_export<'a>(outcome: &'a Result<Vec<u8>, ExportFault<'a>>) -> Ending<'a>
    ensures status { result.status ≡ export_status outcome.now }
    ensures written { IfOk outcome.now (λ text.
        option_map (λ bytes. bytes.now) result.file ≡ Some text.items) }
    ensures silent { OnOk outcome.now (result.line ≡ None) }
    ensures kept { OnErr outcome.now (result.file ≡ None) }
    ensures told { IfErr outcome.now (λ fault. TellsFault fault result.line) }
{
    match outcome {
        Ok(text) => Ending {
            status: 0,
            file: Some(text.as_slice()),
            line: None,
        },
        // A list of bytes fails only on allocation failure.
        Err(ExportFault::Open(OpenFault::OutOfMemory) | ExportFault::Device) => {
            Ending::of_fault(3, Diagnostic::NoMemory)
        }
        Err(ExportFault::Open(fault)) => Ending::of_fault(2, Diagnostic::Open(fault)),
        Err(_) => Ending {
            status: 2,
            file: None,
            line: None,
        },
    }
}
