//! How a report ends the program: with which status, with what on standard output, and with which line.
ghost use Rattle.std.specs.Prelude.{◌≡◌, None, Some, option_map, OnOk, OnErr, IfErr, IsSomeAnd};
ghost use Rattle.mend_report.specs.Common.{mended_status, unmended_status};
ghost use Rattle.mend_report.specs.declared.repair_fault.RepairFault.TheVariants.{Look};
ghost use Rattle.border_mend.specs.Endings.{told_status, TellsNoReport, TellsUnmade, TellsUnsaved, TellsUnmended};

use map_mending::MendFault;
use mend_report::{LookFault, Remade, RepairFault, Report, SaveFault, is_open};
use program_ends::{Diagnostic, Ending};
use std::alloc::Allocator;
use topo_outline::Limit;

/// The status that the program ends with after a report. A GeoJSON object does not open as it is.
fn status<A: Allocator + Copy>(outcome: &Result<Report<A>, LookFault<'_>>, is_geojson: bool) -> u8
    ensures { result ≡ told_status is_geojson outcome.now }
{
    match outcome {
        Ok(report) if !is_geojson && is_open(report) => 0,
        Ok(_) => 1,
        Err(LookFault::Open(_) | LookFault::TooMany) => 2,
        Err(LookFault::OutOfMemory) => 3,
    }
}

/// The line that tells why there is no report.
fn line_of<'a>(fault: &'a LookFault<'a>) -> Diagnostic<'a>
    ensures { TellsNoReport fault.now result }
{
    match fault {
        LookFault::Open(fault) => Diagnostic::Open(fault),
        LookFault::TooMany => Diagnostic::Findings,
        LookFault::OutOfMemory => Diagnostic::NoMemory,
    }
}

/// The ending of a report: standard output gets it where it is whole, and nothing after a fault.
pub(crate) fn ending_of_report<'a, A: Allocator + Copy>(
    outcome: &'a Result<Report<A>, LookFault<'a>>,
    is_geojson: bool,
    report: &'a [u8],
) -> Ending<'a>
    ensures status { result.status ≡ told_status is_geojson outcome.now }
    ensures printed { OnOk outcome.now
        (option_map (λ text. text.now) result.file ≡ Some report.now) }
    ensures silent { OnOk outcome.now (result.line ≡ None) }
    ensures kept { OnErr outcome.now (result.file ≡ None) }
    ensures told { IfErr outcome.now (λ fault. IsSomeAnd result.line (TellsNoReport fault)) }
{
    let status = status(outcome, is_geojson);
    match outcome {
        Ok(_) => Ending {
            status,
            file: Some(report),
            line: None,
        },
        Err(fault) => Ending::of_fault(status, line_of(fault)),
    }
}

/// The ending where no topology is made of a map: nothing is printed.
pub(crate) fn ending_unmade<'a>(fault: &'a LookFault<'a>) -> Ending<'a>
    ensures status { result.status ≡ unmended_status (Look fault.now) }
    ensures kept { result.file ≡ None }
    ensures told { IsSomeAnd result.line (TellsNoReport fault.now) }
{
    let status = match fault {
        LookFault::Open(_) | LookFault::TooMany => 2,
        LookFault::OutOfMemory => 3,
    };
    Ending::of_fault(status, line_of(fault))
}

/// The status that the program ends with where a map is not mended.
fn status_of_unmended(fault: &RepairFault<'_>) -> u8
    ensures { result ≡ unmended_status fault.now }
{
    match fault {
        RepairFault::Look(LookFault::OutOfMemory)
        | RepairFault::Mend(MendFault::OutOfMemory)
        | RepairFault::Save(SaveFault::OutOfMemory) => 3,
        _ => 2,
    }
}

/// The line that tells why a map that was looked through is not mended.
fn line_of_unmade<'a>(fault: &'a MendFault) -> Diagnostic<'a>
    ensures { TellsUnmade fault.now result }
{
    match fault {
        MendFault::TooLarge => Diagnostic::TooLarge(Limit::Positions),
        MendFault::Unmended { s, t } => Diagnostic::Unmended { s, t },
        MendFault::Unparted { feature, polygon } => Diagnostic::Unparted {
            feature: *feature,
            polygon: *polygon,
        },
        MendFault::OutOfMemory => Diagnostic::NoMemory,
    }
}

/// The line that tells why what a map was mended to is not saved.
fn line_of_unsaved<'a>(fault: &'a SaveFault) -> Diagnostic<'a>
    ensures { TellsUnsaved fault.now result }
{
    match fault {
        SaveFault::Conflict { s, t } => Diagnostic::Unmended { s, t },
        SaveFault::Unopened => Diagnostic::TooLarge(Limit::Bytes),
        SaveFault::OutOfMemory => Diagnostic::NoMemory,
    }
}

/// The line that tells why no map was mended.
fn line_of_unmended<'a>(fault: &'a RepairFault<'a>) -> Diagnostic<'a>
    ensures { TellsUnmended fault.now result }
{
    match fault {
        RepairFault::Look(fault) => line_of(fault),
        RepairFault::Mend(fault) => line_of_unmade(fault),
        RepairFault::Save(fault) => line_of_unsaved(fault),
    }
}

/// The ending of mending: standard output gets the report where the map was mended, and nothing
/// after a fault.
pub(crate) fn ending_of_mending<'a, A: Allocator + Copy>(
    outcome: &'a Result<Remade<A>, RepairFault<'a>>,
    report: &'a [u8],
) -> Ending<'a>
    ensures status { result.status ≡ mended_status outcome.now }
    ensures printed { OnOk outcome.now
        (option_map (λ text. text.now) result.file ≡ Some report.now) }
    ensures silent { OnOk outcome.now (result.line ≡ None) }
    ensures kept { OnErr outcome.now (result.file ≡ None) }
    ensures told { IfErr outcome.now (λ fault. IsSomeAnd result.line (TellsUnmended fault)) }
{
    match outcome {
        Ok(_) => Ending {
            status: 0,
            file: Some(report),
            line: None,
        },
        Err(fault) => Ending::of_fault(status_of_unmended(fault), line_of_unmended(fault)),
    }
}
