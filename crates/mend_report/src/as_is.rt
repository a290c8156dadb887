//! A map that opens in the editor as it is: no walk of it is looked at, and none is mended.
ghost use Rattle.std.specs.Prelude.{◌≡◌, IfOk, MatchBool, MatchOption};
ghost use Rattle.walk_faults.specs.Common.{IsNothing};
ghost use Rattle.mend_report.specs.AsIs.{whole_grid, TellsNothing, KeepsAsIs, IsKeptAsIs, TellsKept};
ghost use Rattle.mend_report.specs.Opens.{HasOpened};

use crate::asked::{Asked, Report};
use crate::remaking::Remade;
use crate::report::{push_mended, push_report};
use crate::save_fault::SaveFault;
use crate::saving::saved_text;
use arc_store::{BuildFault, Map};
use grid_reader::Told;
use segment_index::TreeIndex;
use std::alloc::{AllocError, Allocator, Global};
use std::hash::RandomState;
use topo_outline::OpenFault;
use topo_reader::read;
use walk_faults::Findings;

/// Whether the bytes open in the editor.
fn opens<A: Allocator + Copy>(
    alloc: A,
    heap: Global,
    seed: RandomState,
    bytes: &[u8],
) -> Result<bool, AllocError>
    ensures { IfOk result (λ opens.
        MatchBool opens (HasOpened bytes.now) (¬ HasOpened bytes.now)) }
{
    let raw = match read(alloc, heap, seed, bytes) {
        Ok(raw) => raw,
        Err(fault) => {
            return match fault {
                OpenFault::OutOfMemory => Err(AllocError),
                _ => Ok(false),
            };
        }
    };
    let index = TreeIndex::new(heap, raw.extent());
    match Map::build(alloc, heap, seed, raw, index) {
        Ok(map) => {
            drop(map);
            Ok(true)
        }
        Err(BuildFault::Conflict { .. }) => Ok(false),
        Err(BuildFault::OutOfMemory) => Err(AllocError),
    }
}

/// What is reported of a map in which nothing is found: whole numbers, two a position.
fn nothing<A: Allocator + Copy>(alloc: A, dropped: usize) -> Report<A>
    ensures grid { result.grid ≡ whole_grid }
    ensures dropped { result.dropped ≡ dropped }
    ensures nothing { IsNothing result.findings }
{
    Report {
        grid: Told {
            decimals: 0,
            digits: 0,
            rounded: 0,
            heights: 0,
            whole: true,
        },
        dropped,
        findings: Findings {
            short: Vec::new(alloc),
            repeats: Vec::new(alloc),
            touches: Vec::new(alloc),
            crossings: Vec::new(alloc),
        },
    }
}

/// The report of a map that opens in the editor as it is, appended to `report`: nothing is found. `None`,
/// and nothing is appended, where it does not open. It costs what opening does, and says what
/// `report_map` says of a map whose grid is not made finer.
pub fn report_as_is<A: Allocator + Copy>(
    alloc: A,
    heap: Global,
    seed: RandomState,
    bytes: &[u8],
    asked: Asked,
    report: &mut Vec<u8, A>,
) -> Result<Option<Report<A>>, AllocError>
    requires { asked.grid.finer ≡ 0 }
    ensures { IfOk result (λ found. MatchOption found
        ((¬ HasOpened bytes.now) × (report.new.items ≡ report.old.items))
        (λ told. TellsNothing asked bytes.now told report.old.items report.new.items)) }
{
    let is_open = opens(alloc, heap, seed, bytes)?;
    if !is_open {
        return Ok(None);
    }
    let told = nothing(alloc, asked.dropped);
    push_report(report, &told, asked.most)?;
    Ok(Some(told))
}

/// The text that a map is saved as which opens in the editor as it is. `None` where it does not open, or
/// where its text does not.
fn text_as_is<A: Allocator + Copy>(
    alloc: A,
    heap: Global,
    seed: RandomState,
    bytes: &[u8],
) -> Result<Option<Vec<u8, A>>, AllocError>
    ensures { IfOk result (λ found. MatchOption found (¬ IsKeptAsIs bytes.now)
        (λ text. KeepsAsIs bytes.now text.items)) }
{
    let raw = match read(alloc, heap, seed, bytes) {
        Ok(raw) => raw,
        Err(fault) => {
            return match fault {
                OpenFault::OutOfMemory => Err(AllocError),
                _ => Ok(None),
            };
        }
    };
    match saved_text(alloc, heap, seed, raw) {
        Ok(text) => Ok(Some(text)),
        Err(fault) => match fault {
            SaveFault::OutOfMemory => Err(AllocError),
            // Two segments conflict, or the text is over a limit.
            _ => Ok(None),
        },
    }
}

/// A map that opens in the editor as it is, mended: nothing is done about it, and its text is that which
/// the editor saves. Its report is appended to `report`. `None`, and nothing is appended, where it does
/// not open, or where its text does not. It costs what opening, saving and reading again do, and says what
/// `mend_map` says of a map whose grid is not made finer.
pub fn mend_as_is<A: Allocator + Copy>(
    alloc: A,
    heap: Global,
    seed: RandomState,
    bytes: &[u8],
    asked: Asked,
    report: &mut Vec<u8, A>,
) -> Result<Option<Remade<A>>, AllocError>
    requires { asked.grid.finer ≡ 0 }
    ensures { IfOk result (λ found. MatchOption found
        ((¬ IsKeptAsIs bytes.now) × (report.new.items ≡ report.old.items))
        (λ remade. TellsKept asked bytes.now remade report.old.items report.new.items)) }
{
    let Some(text) = text_as_is(alloc, heap, seed, bytes)? else {
        return Ok(None);
    };
    let remade = Remade {
        paths: Vec::new(alloc),
        parted: Vec::new(alloc),
        areas: Vec::new(alloc),
        text,
    };
    push_mended(report, &nothing(alloc, asked.dropped), &remade, asked.most)?;
    Ok(Some(remade))
}
